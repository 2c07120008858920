//! The texts of the errors of entries.
use crate::cases::{CaseError, Value, find};
use cck_digest::Error;
use cck_util::{FileError, UtilError};
use std::alloc::Global;

const ENTRY_ERRORS: [(&str, Error); 9] = [
    ("Io(Write)", Error::Io(UtilError::Write)),
    (
        "Io(File(NotFound))",
        Error::Io(UtilError::File(FileError::NotFound)),
    ),
    (
        "Io(File(OtherKind))",
        Error::Io(UtilError::File(FileError::OtherKind)),
    ),
    (
        "Io(File(Fault))",
        Error::Io(UtilError::File(FileError::Fault)),
    ),
    ("Deserialization", Error::Deserialization),
    ("UnknownFormat(0)", Error::UnknownFormat(0)),
    ("UnknownFormat(3)", Error::UnknownFormat(3)),
    ("UnknownFormat(31)", Error::UnknownFormat(31)),
    ("Memory", Error::Memory),
];

/// What is printed of the error of this name.
pub(crate) fn error_text<'a>(alloc: Global, name: &str) -> Result<Value<'a>, CaseError> {
    let error = find(&ENTRY_ERRORS, name).ok_or(CaseError::Line)?;
    Ok(Value::Text(format!(in alloc; "{error}")?))
}
