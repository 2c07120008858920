//! The calls of this library.
use crate::cases::{CaseError, CaseLine, Given, Subject, Value, find, words_of};
use crate::value_cases::streams::Streams;
use crate::value_cases::{digests, errors, finder, keys, paths, readers, strip, texts, times};
use std::alloc::Global;

/// What lines give to calls on bytes.
pub(crate) struct Values {
    given: Given,
    pieces: Vec<Vec<u8>>,
    streams: Streams,
}

impl Drop for Values {
    fn drop(self) {
        let Values {
            given: _,
            pieces: _,
            streams: _,
        } = self;
    }
}

impl Subject for Values {
    fn new(alloc: Global) -> Values {
        Values {
            given: Given::new(alloc),
            pieces: Vec::new(alloc),
            streams: Streams::new(),
        }
    }

    fn give(&mut self, word: &str, rest: &str) -> Result<bool, CaseError> {
        if word == "pieces" {
            self.pieces = words_of(self.given.alloc, rest)?;
            return Ok(true);
        }
        if word == "basedirs_with" {
            self.given.basedirs = strip::basedirs_with(self.given.alloc, rest)?;
            return Ok(true);
        }
        Ok(self.given.give(word, rest)? || self.streams.give(word, rest)?)
    }

    fn is_raw(name: &str) -> bool {
        name == "unescape"
    }

    fn call<'a>(&'a mut self, name: &str, line: CaseLine<'a>) -> Result<Value<'a>, CaseError> {
        let (given, bytes) = (&self.given, line.bytes);
        if let Some(call) = find(&strip::CALLS, name) {
            return strip::call(call, given, bytes);
        }
        if let Some(call) = find(&paths::CALLS, name) {
            return paths::call(call, given, self.streams, bytes);
        }
        if let Some(call) = find(&texts::CALLS, name) {
            return texts::call(call, given, self.streams, line);
        }
        if let Some(call) = find(&times::CALLS, name) {
            return times::call(call, line.rest);
        }
        if let Some(call) = find(&errors::CALLS, name) {
            return errors::call(call, given.alloc, line.rest);
        }
        if let Some(call) = find(&digests::CALLS, name) {
            return digests::call(call, given, &self.pieces, bytes);
        }
        if let Some(call) = find(&finder::CALLS, name) {
            return finder::call(call, given.alloc, &self.pieces, bytes);
        }
        if let Some(call) = find(&readers::CALLS, name) {
            return readers::call(call, given, self.streams, bytes);
        }
        if let Some(call) = find(&keys::CALLS, name) {
            return keys::call(call, given, bytes);
        }
        Err(CaseError::Line)
    }
}
