//! The calls of this library.
use crate::cases::{CaseError, CaseLine, Given, GivenFiles, Subject, Value, find};
use crate::file_cases::wanted::Wanted;
use crate::file_cases::{digests, entries, errors, files, keys, path_map, times};
use cck_entry::PreprocessorCacheEntry;
use cck_path::PathMap;
use cck_util::MapFiles;
use std::alloc::Global;

/// What lines give, and what the calls of a case change.
pub(crate) struct FileCases {
    /// The allocator of all that is given.
    pub(crate) alloc: Global,
    /// Arguments, variables and what else a key is made of.
    pub(crate) given: Given,
    /// The files, the time of the call and the options.
    pub(crate) given_files: GivenFiles,
    /// What else lines give.
    pub(crate) wanted: Wanted,
    /// The map that calls change. Empty at first.
    pub(crate) map: PathMap<Vec<u8>>,
    /// The entry that calls change. It has no results at first.
    pub(crate) entry: PreprocessorCacheEntry,
    /// Files that were put aside. None at first.
    pub(crate) saved: MapFiles,
}

impl Drop for FileCases {
    fn drop(self) {
        let FileCases {
            alloc: _,
            given: _,
            given_files: _,
            wanted: _,
            map: _,
            entry: _,
            saved: _,
        } = self;
    }
}

// The calls whose lines have no escaped text after their names.
const RAW_CALLS: [&str; 2] = ["error_text", "add_each"];

impl Subject for FileCases {
    fn new(alloc: Global) -> FileCases {
        FileCases {
            alloc,
            given: Given::new(alloc),
            given_files: GivenFiles::new(alloc),
            wanted: Wanted::new(alloc),
            map: PathMap::new(alloc),
            entry: PreprocessorCacheEntry::new(alloc),
            saved: MapFiles::new(alloc),
        }
    }

    fn give(&mut self, word: &str, rest: &str) -> Result<bool, CaseError> {
        Ok(
            self.wanted.give(word, rest)?
                || self.given.give(word, rest)?
                || self.given_files.give(word, rest)?,
        )
    }

    fn is_raw(name: &str) -> bool {
        RAW_CALLS.contains(&name)
    }

    fn call<'a>(&'a mut self, name: &str, line: CaseLine<'a>) -> Result<Value<'a>, CaseError> {
        if let Some(call) = find(&path_map::CALLS, name) {
            return path_map::call(call, self, line.bytes);
        }
        if let Some(call) = find(&files::CALLS, name) {
            return files::call(call, self, line.bytes);
        }
        if let Some(call) = find(&digests::CALLS, name) {
            return digests::call(call, self, line.bytes);
        }
        if let Some(call) = find(&times::CALLS, name) {
            return times::call(call, self, line.bytes);
        }
        if let Some(call) = find(&keys::CALLS, name) {
            return keys::call(call, self, line.bytes);
        }
        if let Some(call) = find(&entries::CALLS, name) {
            return entries::call(call, self, line);
        }
        if name == "error_text" {
            return errors::error_text(self.alloc, line.rest);
        }
        Err(CaseError::Line)
    }
}
