//! The small preprocessor.
use crate::cases::{CaseError, GivenFiles};
use cck_command::{PrintError, print_input};
use cck_util::UtilError;
use std::alloc::{AllocError, Global};

#[derive(Clone, Copy)]
pub(crate) enum MiniCall {
    Print,
    ErrorText,
}

pub(crate) const CALLS: [(&str, MiniCall); 2] = [
    ("print_input", MiniCall::Print),
    ("print_error_text", MiniCall::ErrorText),
];

/// Writes what is printed for an input.
pub(crate) fn write(
    call: MiniCall,
    out: &mut Vec<u8>,
    given_files: &mut GivenFiles,
    cwd: &[u8],
    input: &[u8],
) -> Result<(), CaseError> {
    match printed_of(given_files, cwd, input) {
        Ok(text) => Ok(out.extend_from_slice(&text)?),
        Err(PrintError::Memory) => Err(CaseError::Util(UtilError::Memory)),
        Err(error) => Ok(write_error(call, given_files.alloc, out, error)?),
    }
}

fn printed_of(
    given_files: &mut GivenFiles,
    cwd: &[u8],
    input: &[u8],
) -> Result<Vec<u8>, PrintError> {
    let (alloc, zone, moment) = (given_files.alloc, given_files.zone, given_files.moment);
    print_input(alloc, &mut given_files.files, zone, moment, cwd, input)
}

fn write_error(
    call: MiniCall,
    alloc: Global,
    out: &mut Vec<u8>,
    error: PrintError,
) -> Result<(), AllocError> {
    let text = match call {
        MiniCall::Print => format!(in alloc; "error {error:?}")?,
        MiniCall::ErrorText => format!(in alloc; "{error}")?,
    };
    out.extend_from_slice(text.as_bytes())
}
