//! What is at paths, and which variables there are, as the lines of a script leave them.
use crate::cases::{CaseError, end_line, words_of};
use crate::script_cases::commands::{write_bracketed, write_times};
use cck_script::Surroundings;
use cck_util::{FileError, FileKind, Files, MapFiles, Metadata, read_contents};
use std::alloc::{AllocError, Global};

/// Writes a line for each path of a text, and a line for each variable.
pub(crate) fn write_surroundings(
    alloc: Global,
    out: &mut Vec<u8>,
    paths: &str,
    surroundings: &mut Surroundings,
) -> Result<(), CaseError> {
    for path in &words_of(alloc, paths)? {
        write_place(alloc, out, &mut surroundings.files, path)?;
    }
    for (name, value) in &surroundings.variables {
        write_variable(out, name, value)?;
    }
    Ok(())
}

fn write_variable(out: &mut Vec<u8>, name: &[u8], value: &[u8]) -> Result<(), AllocError> {
    end_line(out)?;
    out.extend_from_slice(b"var")?;
    write_bracketed(out, name)?;
    write_bracketed(out, value)
}

fn write_place(
    alloc: Global,
    out: &mut Vec<u8>,
    files: &mut MapFiles,
    path: &[u8],
) -> Result<(), CaseError> {
    end_line(out)?;
    match files.metadata(path) {
        Ok(metadata) => write_metadata(alloc, out, metadata)?,
        Err(error) => return write_file_error(alloc, out, error),
    }
    write_contents(alloc, out, files, path)
}

fn write_contents(
    alloc: Global,
    out: &mut Vec<u8>,
    files: &mut MapFiles,
    path: &[u8],
) -> Result<(), CaseError> {
    match read_contents(alloc, files, path) {
        Ok(contents) => Ok(write_bracketed(out, &contents)?),
        Err(FileError::Memory) => Err(CaseError::File(FileError::Memory)),
        Err(_) => Ok(()),
    }
}

fn write_metadata(alloc: Global, out: &mut Vec<u8>, metadata: Metadata) -> Result<(), AllocError> {
    match metadata.kind {
        FileKind::File => out.extend_from_slice(b"file")?,
        FileKind::Folder => out.extend_from_slice(b"dir")?,
        FileKind::Other => out.extend_from_slice(b"other")?,
    }
    write_times(alloc, out, metadata.modified, metadata.changed)
}

fn write_file_error(alloc: Global, out: &mut Vec<u8>, error: FileError) -> Result<(), CaseError> {
    Ok(out.extend_from_slice(format!(in alloc; "error {error:?}")?.as_bytes())?)
}
