//! What calls return, and how a vector file writes it.
use crate::cases::case_error::CaseError;
use cck_util::Timestamp;
use std::alloc::{AllocError, Global};
use std::borrow::CowSlice;
use std::cmp::Ordering;
use std::fmt::Debug;

/// What a call returns.
pub(crate) enum Value<'a> {
    /// These bytes.
    Bytes(Vec<u8>),
    /// These bytes of what the case was given.
    Slice(&'a [u8]),
    /// This text.
    Text(String),
    /// One of a few words.
    Word(&'static str),
    /// `true` or `false`.
    Flag(bool),
    /// A number.
    Number(u64),
    /// `none`, or `some` and a part of what was given.
    Part(Option<&'a [u8]>),
    /// `none`, or `some` and bytes.
    Found(Option<Vec<u8>>),
    /// `kept` if nothing was cut, or `cut` and what remains.
    Cut(CowSlice<'a, u8>),
    /// Numbers, with a space between them.
    Numbers(Vec<usize>),
    /// How two values are ordered.
    Order(Ordering),
    /// A time, or `-`.
    Moment(Option<Timestamp>),
}

impl Drop for Value<'_> {
    fn drop(self) {
        match self {
            Value::Bytes(_)
            | Value::Slice(_)
            | Value::Text(_)
            | Value::Word(_)
            | Value::Flag(_)
            | Value::Number(_)
            | Value::Part(_)
            | Value::Found(_)
            | Value::Cut(_)
            | Value::Numbers(_)
            | Value::Order(_)
            | Value::Moment(_) => {}
        }
    }
}

impl Value<'_> {
    /// Returns the value as a vector file writes it, before it is escaped.
    pub(crate) fn write(&self, alloc: Global, out: &mut Vec<u8>) -> Result<(), AllocError> {
        let bytes: &[u8] = match self {
            Value::Bytes(bytes) => bytes,
            Value::Slice(bytes) => bytes,
            Value::Text(text) => text.as_bytes(),
            Value::Word(word) => word.as_bytes(),
            Value::Flag(flag) => flag_word(*flag).as_bytes(),
            Value::Order(order) => order_word(*order).as_bytes(),
            Value::Number(number) => return write_number(alloc, out, *number),
            Value::Part(part) => return write_part(out, *part),
            Value::Found(None) => return write_part(out, None),
            Value::Found(Some(bytes)) => return write_part(out, Some(bytes)),
            Value::Cut(kept) => return write_cut(out, kept),
            Value::Numbers(numbers) => return write_numbers(alloc, out, numbers),
            Value::Moment(moment) => return write_moment(alloc, out, *moment),
        };
        out.extend_from_slice(bytes)
    }
}

fn flag_word(flag: bool) -> &'static str {
    if flag { "true" } else { "false" }
}

fn write_number(alloc: Global, out: &mut Vec<u8>, number: u64) -> Result<(), AllocError> {
    out.extend_from_slice(format!(in alloc; "{number}")?.as_bytes())
}

fn write_part(out: &mut Vec<u8>, part: Option<&[u8]>) -> Result<(), AllocError> {
    let Some(part) = part else {
        return out.extend_from_slice(b"none");
    };
    out.extend_from_slice(b"some ")?;
    out.extend_from_slice(part)
}

/// Ends the line before, if there is one.
pub(crate) fn end_line(out: &mut Vec<u8>) -> Result<(), AllocError> {
    if out.is_empty() {
        return Ok(());
    }
    Ok(out.push(b'\n')?)
}

/// Writes `kept` if nothing was cut, or `cut` and what remains.
pub(crate) fn write_cut(out: &mut Vec<u8>, kept: &CowSlice<'_, u8>) -> Result<(), AllocError> {
    match kept {
        CowSlice::Borrowed(_) => out.extend_from_slice(b"kept"),
        CowSlice::Owned(bytes) => {
            out.extend_from_slice(b"cut ")?;
            out.extend_from_slice(bytes)
        }
    }
}

/// Writes each number, with a space before it if `out` has bytes already.
pub(crate) fn write_numbers(
    alloc: Global,
    out: &mut Vec<u8>,
    numbers: &[usize],
) -> Result<(), AllocError> {
    for number in numbers {
        if !out.is_empty() {
            out.push(b' ')?;
        }
        out.extend_from_slice(format!(in alloc; "{number}")?.as_bytes())?;
    }
    Ok(())
}

fn order_word(order: Ordering) -> &'static str {
    match order {
        Ordering::Less => "Less",
        Ordering::Equal => "Equal",
        Ordering::Greater => "Greater",
    }
}

/// Writes the seconds and the nanoseconds of a time, or `-`.
pub(crate) fn write_moment(
    alloc: Global,
    out: &mut Vec<u8>,
    moment: Option<Timestamp>,
) -> Result<(), AllocError> {
    let Some(moment) = moment else {
        return out.extend_from_slice(b"-");
    };
    let (seconds, nanoseconds) = (moment.seconds(), moment.nanoseconds());
    out.extend_from_slice(format!(in alloc; "{seconds}s+{nanoseconds}ns")?.as_bytes())
}

/// Writes an error that is a result: `error` and what `Debug` prints of it.
pub(crate) fn write_error(
    alloc: Global,
    out: &mut Vec<u8>,
    error: CaseError,
) -> Result<(), AllocError> {
    match error {
        CaseError::Util(error) => write_shown(alloc, out, &error),
        CaseError::Entry(error) => write_shown(alloc, out, &error),
        CaseError::File(error) => write_shown(alloc, out, &error),
        CaseError::Language => out.extend_from_slice(b"error UnknownLanguage"),
        CaseError::Line => out.extend_from_slice(b"error WrongLine"),
    }
}

fn write_shown<T: Debug>(alloc: Global, out: &mut Vec<u8>, error: &T) -> Result<(), AllocError> {
    out.extend_from_slice(format!(in alloc; "error {error:?}")?.as_bytes())
}
