//! The errors of the libraries, and their texts.
use crate::cases::{CaseError, Value, find};
use cck_util::{FileError, UnknownLanguage, UtilError};
use std::alloc::Global;

#[derive(Clone, Copy)]
pub(crate) enum ErrorCall {
    Util,
    UtilDebug,
    File,
    OfFile,
    Language,
}

pub(crate) const CALLS: [(&str, ErrorCall); 5] = [
    ("util_error_text", ErrorCall::Util),
    ("util_error_debug", ErrorCall::UtilDebug),
    ("file_error_text", ErrorCall::File),
    ("util_error_of_file_error", ErrorCall::OfFile),
    ("unknown_language_text", ErrorCall::Language),
];

const UTIL_ERRORS: [(&str, UtilError); 13] = [
    ("Memory", UtilError::Memory),
    ("Read", UtilError::Read),
    ("File(NotFound)", UtilError::File(FileError::NotFound)),
    ("File(OtherKind)", UtilError::File(FileError::OtherKind)),
    ("File(Fault)", UtilError::File(FileError::Fault)),
    ("File(Memory)", UtilError::File(FileError::Memory)),
    ("TooDeep", UtilError::TooDeep),
    ("TooLong", UtilError::TooLong),
    ("Write", UtilError::Write),
    ("IncompleteEscape", UtilError::IncompleteEscape),
    ("InvalidEscape", UtilError::InvalidEscape),
    ("IncompleteHex", UtilError::IncompleteHex),
    ("InvalidHex", UtilError::InvalidHex),
];

const FILE_ERRORS: [(&str, FileError); 4] = [
    ("NotFound", FileError::NotFound),
    ("OtherKind", FileError::OtherKind),
    ("Fault", FileError::Fault),
    ("Memory", FileError::Memory),
];

pub(crate) fn call<'a>(call: ErrorCall, alloc: Global, name: &str) -> Result<Value<'a>, CaseError> {
    match call {
        ErrorCall::Util => util_text(alloc, name),
        ErrorCall::UtilDebug => util_debug(alloc, name),
        ErrorCall::File => file_text(alloc, name),
        ErrorCall::OfFile => of_file(alloc, name),
        ErrorCall::Language => Ok(Value::Text(format!(in alloc; "{UnknownLanguage}")?)),
    }
}

fn util_text<'a>(alloc: Global, name: &str) -> Result<Value<'a>, CaseError> {
    let error = find(&UTIL_ERRORS, name).ok_or(CaseError::Line)?;
    Ok(Value::Text(format!(in alloc; "{error}")?))
}

fn util_debug<'a>(alloc: Global, name: &str) -> Result<Value<'a>, CaseError> {
    let error = find(&UTIL_ERRORS, name).ok_or(CaseError::Line)?;
    Ok(Value::Text(format!(in alloc; "{error:?}")?))
}

fn file_text<'a>(alloc: Global, name: &str) -> Result<Value<'a>, CaseError> {
    let error = find(&FILE_ERRORS, name).ok_or(CaseError::Line)?;
    Ok(Value::Text(format!(in alloc; "{error}")?))
}

fn of_file<'a>(alloc: Global, name: &str) -> Result<Value<'a>, CaseError> {
    let error = UtilError::from(find(&FILE_ERRORS, name).ok_or(CaseError::Line)?);
    Ok(Value::Text(format!(in alloc; "{error:?}")?))
}
