//! The program as a function.
use crate::cases::{CaseError, FailReader, FailWriter, words_of};
use crate::script_cases::commands::write_number;
use crate::script_cases::streams::Streams;
use cck_command::{Status, engine, refuse};
use cck_util::Sha256State;
use std::alloc::{AllocError, Global};

#[derive(Clone, Copy)]
pub(crate) enum EngineCall {
    Run,
    Program,
    Refuse,
}

pub(crate) const CALLS: [(&str, EngineCall); 3] = [
    ("run", EngineCall::Run),
    ("program", EngineCall::Program),
    ("refuse", EngineCall::Refuse),
];

/// Runs the program over a text, and writes what it prints, and after it the status.
pub(crate) fn write(
    call: EngineCall,
    alloc: Global,
    out: &mut Vec<u8>,
    streams: &Streams,
    text: &[u8],
    rest: &str,
) -> Result<(), CaseError> {
    let words = match call {
        EngineCall::Run => "run",
        EngineCall::Program => rest,
        EngineCall::Refuse => return write_refusal(alloc, out, streams),
    };
    write_run(alloc, out, streams, text, &strings_of(alloc, words)?)
}

fn write_refusal(alloc: Global, out: &mut Vec<u8>, streams: &Streams) -> Result<(), CaseError> {
    let mut writer = streams.writer()?;
    let status = refuse(&mut writer);
    Ok(write_ended(alloc, out, &writer, status, 0)?)
}

fn write_run(
    alloc: Global,
    out: &mut Vec<u8>,
    streams: &Streams,
    text: &[u8],
    words: &[String],
) -> Result<(), CaseError> {
    let mut reader = streams.reader(text);
    let mut writer = streams.writer()?;
    let status = run_words(alloc, words, &mut reader, &mut writer);
    Ok(write_ended(alloc, out, &writer, status, reader.bytes.len())?)
}

/// Runs the program over these words and streams.
pub(crate) fn run_words(
    alloc: Global,
    words: &[String],
    reader: &mut FailReader<'_>,
    writer: &mut FailWriter,
) -> Status {
    engine::<Sha256State, _, _>(alloc, words, reader, writer)
}

// Writes what a run printed, and after it the status, and how many bytes it left unread.
fn write_ended(
    alloc: Global,
    out: &mut Vec<u8>,
    writer: &FailWriter,
    status: Status,
    unread: usize,
) -> Result<(), AllocError> {
    out.extend_from_slice(&writer.written)?;
    write_number(alloc, out, "status ", u64::from(status.code()))?;
    if unread > 0 {
        write_number(alloc, out, " unread ", unread as u64)?;
    }
    if writer.is_flushed {
        return Ok(());
    }
    out.extend_from_slice(b" unflushed")
}

/// The words of a command line.
pub(crate) fn strings_of(alloc: Global, rest: &str) -> Result<Vec<String>, CaseError> {
    let mut strings = Vec::new(alloc);
    for word in &words_of(alloc, rest)? {
        match str::from_utf8(word) {
            Ok(text) => strings.push(String::from_str(alloc, text)?)?,
            Err(_) => return Err(CaseError::Line),
        }
    }
    Ok(strings)
}
