//! The calls of a library of cases.
use crate::cases::case_error::CaseError;
use crate::cases::value::Value;
use std::alloc::Global;

/// The line of a call.
#[derive(Clone, Copy)]
pub(crate) struct CaseLine<'a> {
    /// The text after the name of the call.
    pub(crate) rest: &'a str,
    /// The bytes that the lines before made, and after them those of `rest`.
    pub(crate) bytes: &'a [u8],
}

/// The calls that a library knows, and what lines give for them.
pub(crate) trait Subject {
    /// Returns the state in which nothing is given, as it is at the beginning of each case.
    fn new(alloc: Global) -> Self;

    /// Applies a line, and returns whether its word is known here.
    fn give(&mut self, word: &str, rest: &str) -> Result<bool, CaseError>;

    /// Returns whether the rest of a line of this call is no escaped text, so that no bytes are
    /// made of it.
    fn is_raw(name: &str) -> bool;

    /// Makes the call of this name. The error is [`CaseError::Line`] if there is none.
    fn call<'a>(&'a mut self, name: &str, line: CaseLine<'a>) -> Result<Value<'a>, CaseError>;
}
