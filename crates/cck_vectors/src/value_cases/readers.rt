//! What readers give, and readers that fail.
use crate::cases::{CaseError, FailReader, Given, Value};
use crate::value_cases::finder::macros;
use crate::value_cases::streams::Streams;
use cck_util::{Digest, Sha256State, UtilError, read_all, read_to_end};
use std::alloc::Global;

#[derive(Clone, Copy)]
pub(crate) enum ReaderCall {
    All,
    ToEnd,
    Taken,
    Digest,
    With,
    Lengths,
    Macros,
}

pub(crate) const CALLS: [(&str, ReaderCall); 7] = [
    ("read_all", ReaderCall::All),
    ("read_to_end", ReaderCall::ToEnd),
    ("taken_by_read_to_end", ReaderCall::Taken),
    ("reader_sync", ReaderCall::Digest),
    ("reader_sync_with", ReaderCall::With),
    ("lengths_of_pieces", ReaderCall::Lengths),
    ("reader_sync_time_macros", ReaderCall::Macros),
];

pub(crate) fn call<'a>(
    call: ReaderCall,
    given: &'a Given,
    streams: Streams,
    bytes: &'a [u8],
) -> Result<Value<'a>, CaseError> {
    let alloc = given.alloc;
    let mut reader = streams.reader(bytes);
    match call {
        ReaderCall::All => Ok(Value::Bytes(read_all(alloc, &mut reader)?)),
        ReaderCall::ToEnd => to_end(given, &mut reader),
        ReaderCall::Taken => taken(given, &mut reader),
        ReaderCall::Digest => digest(alloc, &mut reader),
        ReaderCall::With => with(alloc, &mut reader),
        ReaderCall::Lengths => lengths(alloc, &mut reader),
        ReaderCall::Macros => time_macros(alloc, &mut reader),
    }
}

// All that is read, after `base`.
fn to_end<'a>(given: &Given, reader: &mut FailReader<'_>) -> Result<Value<'a>, CaseError> {
    let mut text = Vec::from_slice(given.alloc, &given.base)?;
    read_to_end(given.alloc, reader, &mut text)?;
    Ok(Value::Bytes(text))
}

// What was taken, after `base`, whether or not a read failed.
fn taken<'a>(given: &Given, reader: &mut FailReader<'_>) -> Result<Value<'a>, CaseError> {
    let mut text = Vec::from_slice(given.alloc, &given.base)?;
    match read_to_end(given.alloc, reader, &mut text) {
        Ok(()) | Err(UtilError::Read) => Ok(Value::Bytes(text)),
        Err(error) => Err(CaseError::Util(error)),
    }
}

fn digest<'a>(alloc: Global, reader: &mut FailReader<'_>) -> Result<Value<'a>, CaseError> {
    let text = Digest::<Sha256State>::reader_sync(alloc, reader)?;
    Ok(Value::Text(text))
}

// Each piece that was shown and a `|`, and then the hex digest.
fn with<'a>(alloc: Global, reader: &mut FailReader<'_>) -> Result<Value<'a>, CaseError> {
    let mut shown = Vec::new(alloc);
    let mut is_kept = true;
    let digest = Digest::<Sha256State>::reader_sync_with(alloc, reader, |piece| {
        is_kept = is_kept && shown.extend_from_slice(piece).is_ok() && shown.push(b'|').is_ok();
    })?;
    if !is_kept {
        return Err(CaseError::Util(UtilError::Memory));
    }
    shown.extend_from_slice(digest.finish(alloc)?.as_bytes())?;
    Ok(Value::Bytes(shown))
}

// The lengths of the pieces that were shown.
fn lengths<'a>(alloc: Global, reader: &mut FailReader<'_>) -> Result<Value<'a>, CaseError> {
    let mut lengths = Vec::new(alloc);
    let mut is_kept = true;
    Digest::<Sha256State>::reader_sync_with(alloc, reader, |piece| {
        is_kept = is_kept && lengths.push(piece.len()).is_ok();
    })?;
    if !is_kept {
        return Err(CaseError::Util(UtilError::Memory));
    }
    Ok(Value::Numbers(lengths))
}

fn time_macros<'a>(alloc: Global, reader: &mut FailReader<'_>) -> Result<Value<'a>, CaseError> {
    let (text, finder) = Digest::<Sha256State>::reader_sync_time_macros(alloc, reader)?;
    let found = macros(&finder);
    Ok(Value::Text(format!(in alloc; "{found} {text}")?))
}
