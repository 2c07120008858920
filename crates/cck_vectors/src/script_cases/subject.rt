//! The calls of these cases.
use crate::cases::{CaseError, CaseLine, GivenFiles, Subject, Value, bytes_of, find, number};
use crate::script_cases::failing_calls::{self, ListCall, ListGiven};
use crate::script_cases::streams::Streams;
use crate::script_cases::{compiler, engine, mini, scripts};
use cck_util::{Digest, Sha256State};
use std::alloc::{AllocError, Global};

#[derive(Clone, Copy)]
enum Word {
    Line,
    WorkingDirectory,
    Digested,
    StoreFailAfter,
    Held,
}

const WORDS: [(&str, Word); 5] = [
    ("line", Word::Line),
    ("cwd", Word::WorkingDirectory),
    ("digested", Word::Digested),
    ("store_fail_after", Word::StoreFailAfter),
    ("other_results", Word::Held),
];

/// What lines give to the calls.
pub(crate) struct Scripts {
    alloc: Global,
    given_files: GivenFiles,
    streams: Streams,
    // `line TEXT`: a line of the script, without escapes. The bytes of a call are after them.
    lines: Vec<u8>,
    // `cwd PATH`: the working directory. `/w` at first, for which it is empty.
    cwd: Vec<u8>,
    // `digested`: the results of calls are written as their digest texts.
    is_digested: bool,
    // `store_fail_after N`: from which get or put of the store on all fail. 0, for none, at first.
    store_fail_after: u64,
    // `other_results N PATH`: how many results of this path the entry has that the store holds at
    // first, beside that of the first call. 0, for no entry, at first.
    other_results: u64,
    path: Vec<u8>,
    text: Vec<u8>,
    result: Vec<u8>,
}

impl Drop for Scripts {
    fn drop(self) {
        let Scripts {
            alloc: _,
            given_files: _,
            streams: _,
            lines: _,
            cwd: _,
            is_digested: _,
            store_fail_after: _,
            other_results: _,
            path: _,
            text: _,
            result: _,
        } = self;
    }
}

// The working directory, where one is given, and else `/w`.
fn directory(given: &[u8]) -> &[u8] {
    if given.is_empty() {
        return b"/w";
    }
    given
}

impl Subject for Scripts {
    fn new(alloc: Global) -> Scripts {
        Scripts {
            alloc,
            given_files: GivenFiles::new(alloc),
            streams: Streams::new(alloc),
            lines: Vec::new(alloc),
            cwd: Vec::new(alloc),
            is_digested: false,
            store_fail_after: 0,
            other_results: 0,
            path: Vec::new(alloc),
            text: Vec::new(alloc),
            result: Vec::new(alloc),
        }
    }

    fn give(&mut self, name: &str, rest: &str) -> Result<bool, CaseError> {
        let Some(word) = find(&WORDS, name) else {
            return Ok(self.streams.give(name, rest)? || self.given_files.give(name, rest)?);
        };
        match word {
            Word::Line => self.add_line(rest)?,
            Word::WorkingDirectory => self.cwd = bytes_of(self.alloc, rest)?,
            Word::Digested => self.is_digested = true,
            Word::StoreFailAfter => self.store_fail_after = number(rest)?,
            Word::Held => self.set_other_results(rest)?,
        }
        Ok(true)
    }

    fn is_raw(name: &str) -> bool {
        matches!(
            name,
            "surroundings" | "program" | "command_line" | "preprocess" | "fail_each"
        )
    }

    fn call<'a>(&'a mut self, name: &str, line: CaseLine<'a>) -> Result<Value<'a>, CaseError> {
        self.result.clear();
        self.write(name, line)?;
        if self.is_digested {
            let mut digest = Digest::<Sha256State>::new();
            digest.update(&self.result);
            return Ok(Value::Text(digest.finish(self.alloc)?));
        }
        Ok(Value::Slice(&self.result))
    }
}

impl Scripts {
    fn add_line(&mut self, line: &str) -> Result<(), AllocError> {
        self.lines.extend_from_slice(line.as_bytes())?;
        Ok(self.lines.push(b'\n')?)
    }

    fn set_other_results(&mut self, rest: &str) -> Result<(), CaseError> {
        let (count, path) = rest.split_once(' ').ok_or(CaseError::Line)?;
        self.other_results = number(count)?;
        self.path = bytes_of(self.alloc, path)?;
        Ok(())
    }

    // Makes the script: the lines, and after them these bytes.
    fn set_text(&mut self, bytes: &[u8]) -> Result<(), AllocError> {
        self.text.clear();
        self.text.extend_from_slice(&self.lines)?;
        self.text.extend_from_slice(bytes)
    }

    fn write(&mut self, name: &str, line: CaseLine<'_>) -> Result<(), CaseError> {
        self.set_text(line.bytes)?;
        let out = &mut self.result;
        if let Some(call) = find(&scripts::CALLS, name) {
            return scripts::write(call, self.alloc, out, &self.text, line.rest);
        }
        if let Some(call) = find(&engine::CALLS, name) {
            return engine::write(call, self.alloc, out, &self.streams, &self.text, line.rest);
        }
        if let Some(call) = find(&failing_calls::CALLS, name) {
            return self.write_list(call, line.rest);
        }
        self.write_on_files(name, line)
    }

    fn write_list(&mut self, call: ListCall, rest: &str) -> Result<(), CaseError> {
        let given = ListGiven {
            streams: &self.streams,
            store_fail_after: self.store_fail_after,
            other_results: self.other_results,
            path: &self.path,
        };
        failing_calls::write(call, self.alloc, &mut self.result, given, &self.text, rest)
    }

    fn write_on_files(&mut self, name: &str, line: CaseLine<'_>) -> Result<(), CaseError> {
        let out = &mut self.result;
        let cwd = directory(&self.cwd);
        if let Some(call) = find(&mini::CALLS, name) {
            return mini::write(call, out, &mut self.given_files, cwd, line.bytes);
        }
        if let Some(call) = find(&compiler::CALLS, name) {
            return compiler::write(call, out, &mut self.given_files, cwd, line.rest);
        }
        Err(CaseError::Line)
    }
}
