//! How the lines of a script are written once they are read.
use crate::cases::write_moment;
use cck_script::Command;
use cck_util::Timestamp;
use std::alloc::{AllocError, Global};

/// Writes bytes between brackets, after a space.
pub(crate) fn write_bracketed(out: &mut Vec<u8>, bytes: &[u8]) -> Result<(), AllocError> {
    out.extend_from_slice(b" [")?;
    out.extend_from_slice(bytes)?;
    Ok(out.push(b']')?)
}

/// Writes each text of a list between brackets.
pub(crate) fn write_list(out: &mut Vec<u8>, list: &[Vec<u8>]) -> Result<(), AllocError> {
    for bytes in list {
        write_bracketed(out, bytes)?;
    }
    Ok(())
}

/// Writes a text and a number.
pub(crate) fn write_number(
    alloc: Global,
    out: &mut Vec<u8>,
    text: &str,
    number: u64,
) -> Result<(), AllocError> {
    out.extend_from_slice(format!(in alloc; "{text}{number}")?.as_bytes())
}

/// Writes the offset of a zone, after a space.
pub(crate) fn write_offset(
    alloc: Global,
    out: &mut Vec<u8>,
    offset: i32,
) -> Result<(), AllocError> {
    out.extend_from_slice(format!(in alloc; " {offset}")?.as_bytes())
}

/// Writes the two times of a file, each after a space.
pub(crate) fn write_times(
    alloc: Global,
    out: &mut Vec<u8>,
    modified: Option<Timestamp>,
    changed: Option<Timestamp>,
) -> Result<(), AllocError> {
    out.push(b' ')?;
    write_moment(alloc, out, modified)?;
    out.push(b' ')?;
    write_moment(alloc, out, changed)
}

/// Writes what is asked for: a name, a call time and arguments.
pub(crate) fn write_call(
    alloc: Global,
    out: &mut Vec<u8>,
    name: &[u8],
    moment: Timestamp,
    arguments: &[Vec<u8>],
) -> Result<(), AllocError> {
    out.extend_from_slice(name)?;
    write_asked(alloc, out, moment, arguments)
}

fn write_asked(
    alloc: Global,
    out: &mut Vec<u8>,
    moment: Timestamp,
    arguments: &[Vec<u8>],
) -> Result<(), AllocError> {
    out.push(b' ')?;
    write_moment(alloc, out, Some(moment))?;
    write_list(out, arguments)
}

fn write_variable(out: &mut Vec<u8>, name: &[u8], value: &[u8]) -> Result<(), AllocError> {
    write_bracketed(out, name)?;
    write_bracketed(out, value)
}

fn write_file(
    alloc: Global,
    out: &mut Vec<u8>,
    path: &[u8],
    modified: Option<Timestamp>,
    changed: Option<Timestamp>,
    contents: &[u8],
) -> Result<(), AllocError> {
    write_bracketed(out, path)?;
    write_times(alloc, out, modified, changed)?;
    write_bracketed(out, contents)
}

// The word of a line.
fn word_of(command: &Command) -> &'static str {
    match command {
        Command::Zone { .. } => "zone",
        Command::Basedir { .. } => "basedir",
        Command::StoreForget { .. } => "store forget",
        Command::StoreFail { .. } => "store fail",
        Command::File { .. } => "file",
        Command::Folder { .. } => "dir",
        Command::Gone { .. } => "gone",
        Command::Variable { .. } => "var",
        Command::Clear => "clear",
        Command::Compile { .. } => "compile",
        Command::Recache { .. } => "recache",
    }
}

/// Writes what a line says, in the words of a line, with brackets round paths, texts and arguments.
pub(crate) fn write_command(
    alloc: Global,
    out: &mut Vec<u8>,
    command: &Command,
) -> Result<(), AllocError> {
    out.extend_from_slice(word_of(command).as_bytes())?;
    match command {
        Command::Zone { offset } => write_offset(alloc, out, *offset),
        Command::StoreForget { call } | Command::StoreFail { call } => {
            write_number(alloc, out, " ", *call)
        }
        Command::File {
            path,
            modified,
            changed,
            contents,
        } => write_file(alloc, out, path, *modified, *changed, contents),
        Command::Basedir { text: path } | Command::Folder { path } | Command::Gone { path } => {
            write_bracketed(out, path)
        }
        Command::Variable { name, value } => write_variable(out, name, value),
        Command::Clear => Ok(()),
        Command::Compile { moment, arguments } | Command::Recache { moment, arguments } => {
            write_asked(alloc, out, *moment, arguments)
        }
    }
}
