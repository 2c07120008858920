//! Prefixes, escapes, lengths, durations and variables.
use crate::cases::{CaseError, CaseLine, Given, Value, number, parts_of};
use crate::value_cases::streams::Streams;
use cck_util::{
    OsStrExt, ascii_unescape_default, first_value, fmt_duration_as_secs, write_length_prefixed,
};
use std::alloc::{AllocError, Global};
use std::str;
use std::time::Duration;

#[derive(Clone, Copy)]
pub(crate) enum TextCall {
    StartsWith,
    SplitPrefix,
    Unescape,
    Duration,
    LengthPrefixed,
    IsFlushed,
    FirstValue,
}

pub(crate) const CALLS: [(&str, TextCall); 7] = [
    ("starts_with", TextCall::StartsWith),
    ("split_prefix", TextCall::SplitPrefix),
    ("unescape", TextCall::Unescape),
    ("duration", TextCall::Duration),
    ("length_prefixed", TextCall::LengthPrefixed),
    ("length_prefixed_is_flushed", TextCall::IsFlushed),
    ("first_value", TextCall::FirstValue),
];

pub(crate) fn call<'a>(
    call: TextCall,
    given: &'a Given,
    streams: Streams,
    line: CaseLine<'a>,
) -> Result<Value<'a>, CaseError> {
    let (alloc, base) = (given.alloc, &given.base);
    match call {
        TextCall::StartsWith => {
            Ok(Value::Flag(OsStrExt::starts_with(base, text_of(line.bytes)?)))
        }
        TextCall::SplitPrefix => {
            Ok(Value::Found(base.split_prefix(alloc, text_of(line.bytes)?)?))
        }
        TextCall::Unescape => unescape(alloc, line.rest),
        TextCall::Duration => duration(alloc, line.rest),
        TextCall::LengthPrefixed => length_prefixed(alloc, streams, line.bytes),
        TextCall::IsFlushed => is_flushed(alloc, streams, line.bytes),
        TextCall::FirstValue => Ok(Value::Part(first_value(&given.variables, line.bytes))),
    }
}

/// These bytes as text.
pub(crate) fn text_of(bytes: &[u8]) -> Result<&str, CaseError> {
    match str::from_utf8(bytes) {
        Ok(text) => Ok(text),
        Err(_) => Err(CaseError::Line),
    }
}

// Two digits for each byte, since the expected results are escaped themselves.
fn unescape<'a>(alloc: Global, text: &str) -> Result<Value<'a>, CaseError> {
    let bytes = ascii_unescape_default(alloc, text.as_bytes())?;
    let mut digits = String::new(alloc);
    add_digits(alloc, &mut digits, &bytes)?;
    Ok(Value::Text(digits))
}

fn add_digits(alloc: Global, digits: &mut String, bytes: &[u8]) -> Result<(), AllocError> {
    for byte in bytes {
        if !digits.is_empty() {
            digits.push(' ')?;
        }
        digits.push_str(&format!(in alloc; "{byte:02x}")?)?;
    }
    Ok(())
}

// The duration of a number of seconds and nanoseconds.
fn duration<'a>(alloc: Global, rest: &str) -> Result<Value<'a>, CaseError> {
    let (seconds, nanoseconds) = parts_of(rest)?;
    let (seconds, nanoseconds) = (number::<u64>(seconds)?, number::<u32>(nanoseconds)?);
    if nanoseconds >= 1_000_000_000 {
        return Err(CaseError::Line);
    }
    let duration = Duration::new(seconds, nanoseconds);
    Ok(Value::Text(fmt_duration_as_secs(alloc, &duration)?))
}

fn length_prefixed<'a>(
    alloc: Global,
    streams: Streams,
    bytes: &[u8],
) -> Result<Value<'a>, CaseError> {
    let mut writer = streams.writer(alloc, bytes.len().saturating_add(4))?;
    write_length_prefixed(&mut writer, bytes)?;
    Ok(Value::Bytes(writer.written))
}

fn is_flushed<'a>(alloc: Global, streams: Streams, bytes: &[u8]) -> Result<Value<'a>, CaseError> {
    let mut writer = streams.writer(alloc, bytes.len().saturating_add(4))?;
    write_length_prefixed(&mut writer, bytes)?;
    Ok(Value::Flag(writer.is_flushed))
}
