//! Errors, by their numbers and texts.
use crate::cases::{CaseError, Value, find};
use c_cache_keys::{KeyError, PreprocessError, StoreError};
use cck_digest::Error;
use cck_util::{FileError, UtilError};
use std::alloc::Global;

#[derive(Clone, Copy)]
pub(crate) enum ErrorCall {
    Key,
    Preprocess,
    Store,
}

pub(crate) const CALLS: [(&str, ErrorCall); 3] = [
    ("key_error", ErrorCall::Key),
    ("preprocess_error", ErrorCall::Preprocess),
    ("store_error", ErrorCall::Store),
];

const KEY_ERRORS: [(&str, KeyError); 11] = [
    ("Memory", KeyError::Memory),
    (
        "ExtraNotFound",
        KeyError::Extra(UtilError::File(FileError::NotFound)),
    ),
    ("ExtraTooDeep", KeyError::Extra(UtilError::TooDeep)),
    (
        "InputOtherKind",
        KeyError::Input(UtilError::File(FileError::OtherKind)),
    ),
    (
        "InputFault",
        KeyError::Input(UtilError::File(FileError::Fault)),
    ),
    ("Store", KeyError::Store),
    (
        "EntryUnknownFormat",
        KeyError::Entry(Error::UnknownFormat(0x1f)),
    ),
    (
        "EntryDeserialization",
        KeyError::Entry(Error::Deserialization),
    ),
    (
        "PreprocessFault",
        KeyError::Preprocess(PreprocessError::Fault),
    ),
    (
        "PreprocessFailed",
        KeyError::Preprocess(PreprocessError::Failed),
    ),
    ("Marker", KeyError::Marker),
];

const PREPROCESS_ERRORS: [(&str, PreprocessError); 3] = [
    ("Fault", PreprocessError::Fault),
    ("Failed", PreprocessError::Failed),
    ("Memory", PreprocessError::Memory),
];

const STORE_ERRORS: [(&str, StoreError); 2] = [
    ("Fault", StoreError::Fault),
    ("Memory", StoreError::Memory),
];

pub(crate) fn call<'a>(alloc: Global, call: ErrorCall, name: &str) -> Result<Value<'a>, CaseError> {
    match call {
        ErrorCall::Key => key_error(alloc, name),
        ErrorCall::Preprocess => preprocess_error(alloc, name),
        ErrorCall::Store => store_error(alloc, name),
    }
}

fn key_error<'a>(alloc: Global, name: &str) -> Result<Value<'a>, CaseError> {
    let error = find(&KEY_ERRORS, name).ok_or(CaseError::Line)?;
    let number = error.number();
    Ok(Value::Text(format!(in alloc; "{number} {error:?}: {error}")?))
}

fn preprocess_error<'a>(alloc: Global, name: &str) -> Result<Value<'a>, CaseError> {
    let error = find(&PREPROCESS_ERRORS, name).ok_or(CaseError::Line)?;
    Ok(Value::Text(format!(in alloc; "{error:?}: {error}")?))
}

fn store_error<'a>(alloc: Global, name: &str) -> Result<Value<'a>, CaseError> {
    let error = find(&STORE_ERRORS, name).ok_or(CaseError::Line)?;
    Ok(Value::Text(format!(in alloc; "{error:?}: {error}")?))
}
