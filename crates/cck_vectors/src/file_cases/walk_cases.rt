//! The calls of this library.
use crate::cases::{CaseError, CaseLine, Subject, Value, find};
use crate::file_cases::texts::Texts;
use crate::file_cases::walks::Walks;
use crate::file_cases::{markers, walks};
use std::alloc::Global;

/// What lines give to calls on line markers and to walks.
#[derive(Drop)]
pub(crate) struct WalkCases {
    alloc: Global,
    texts: Texts,
    walks: Walks,
}

impl Subject for WalkCases {
    fn new(alloc: Global) -> WalkCases {
        WalkCases {
            alloc,
            texts: Texts::new(alloc),
            walks: Walks::new(alloc),
        }
    }

    fn give(&mut self, word: &str, rest: &str) -> Result<bool, CaseError> {
        Ok(self.texts.give(word, rest)? || self.walks.give(word, rest)?)
    }

    fn is_raw(name: &str) -> bool {
        name == "line"
    }

    fn call<'a>(&'a mut self, name: &str, line: CaseLine<'a>) -> Result<Value<'a>, CaseError> {
        if let Some(call) = find(&markers::CALLS, name) {
            return markers::call(call, self.alloc, &self.texts.made, line.bytes);
        }
        if let Some(call) = find(&walks::CALLS, name) {
            return walks::call(call, &mut self.walks, &self.texts.made, line);
        }
        Err(CaseError::Line)
    }
}
