//! Bytes, words, numbers and times, as a vector file writes them.
use crate::cases::case_error::CaseError;
use cck_util::{Timestamp, UtilError, ascii_unescape_default};
use jiff::tz::{Offset, TimeZone};
use std::alloc::Global;
use std::str::FromStr;

/// Returns the bytes of an escaped text.
pub(crate) fn bytes_of(alloc: Global, text: &str) -> Result<Vec<u8>, CaseError> {
    match ascii_unescape_default(alloc, text.as_bytes()) {
        Ok(bytes) => Ok(bytes),
        Err(UtilError::Memory) => Err(CaseError::Util(UtilError::Memory)),
        Err(_) => Err(CaseError::Line),
    }
}

/// Returns the words of a text, which spaces separate. `""` is the empty word.
pub(crate) fn words_of(alloc: Global, text: &str) -> Result<Vec<Vec<u8>>, CaseError> {
    let mut words = Vec::new(alloc);
    for word in text.split_whitespace() {
        let text = if word == "\"\"" { "" } else { word };
        words.push(bytes_of(alloc, text)?)?;
    }
    Ok(words)
}

/// Returns the variables of a text, each as `NAME=VALUE`, which spaces separate.
pub(crate) fn variables_of(
    alloc: Global,
    text: &str,
) -> Result<Vec<(Vec<u8>, Vec<u8>)>, CaseError> {
    let mut variables = Vec::new(alloc);
    for word in text.split_whitespace() {
        let (name, value) = word.split_once('=').ok_or(CaseError::Line)?;
        let name = bytes_of(alloc, name)?;
        variables.push((name, bytes_of(alloc, value)?))?;
    }
    Ok(variables)
}

/// Returns what is before the first space of a text, and what is after it.
pub(crate) fn parts_of(text: &str) -> Result<(&str, &str), CaseError> {
    match text.split_once(' ') {
        Some(parts) => Ok(parts),
        None => Err(CaseError::Line),
    }
}

/// Returns the number in a text.
pub(crate) fn number<T: FromStr>(text: &str) -> Result<T, CaseError>
where
    T::Err: Drop,
{
    match text.parse::<T>() {
        Ok(number) => Ok(number),
        Err(_) => Err(CaseError::Line),
    }
}

/// Returns the zone that is this many seconds east of UTC.
pub(crate) fn zone_of(seconds: i32) -> Result<TimeZone<'static>, CaseError> {
    match Offset::from_seconds(seconds) {
        Ok(offset) => Ok(TimeZone::fixed(offset)),
        Err(_) => Err(CaseError::Line),
    }
}

/// Returns the byte of two hexadecimal digits.
pub(crate) fn byte_of(digits: &str) -> Result<u8, CaseError> {
    match u8::from_str_radix(digits, 16) {
        Ok(byte) => Ok(byte),
        Err(_) => Err(CaseError::Line),
    }
}

/// Returns the time that is this number of nanoseconds after the start of 1970.
pub(crate) fn moment_of(text: &str) -> Result<Timestamp, CaseError> {
    let nanoseconds = number::<i128>(text)?;
    if Timestamp::fits_nanos(nanoseconds) {
        Ok(Timestamp::from_nanos(nanoseconds))
    } else {
        Err(CaseError::Line)
    }
}

/// Returns the time that is this number of nanoseconds after the start of 1970, or none for `-`.
pub(crate) fn optional_moment_of(text: &str) -> Result<Option<Timestamp>, CaseError> {
    if text == "-" {
        return Ok(None);
    }
    Ok(Some(moment_of(text)?))
}
