//! Where bytes stop being an entry, and why.
ghost use Rattle.std.specs.Prelude.{◌≡◌, ◌<◌, None, option_map};
ghost use Rattle.std.specs.Int.{w32, w64};
ghost use Rattle.cck_explain_listing.specs.Fault.{Is, and_then, after_counted, after_include, after_includes, after_moment, after_results, after_time, bytes_in, comes_next, count_in, fault_at, number_in, text_in, wrong_in};

use cck_entry::FORMAT_VERSION;
use std::fmt;
use std::str::from_utf8;

/// The least number of bytes of an include: two lengths, a size and two absent times.
const SHORTEST_INCLUDE: usize = 26;

/// The least number of bytes of a result: the length of its key, and the count of its includes.
const SHORTEST_RESULT: usize = 16;

/// The nanoseconds of a time are below this number.
const NANOS_IN_A_SECOND: u32 = 1_000_000_000;

/// Why bytes are no entry.
#[derive(Debug, Clone, Copy)]
pub enum Cause {
    /// The first byte is not the format's number.
    UnknownFormat,
    /// The bytes end in a number, or in a text whose length is before it.
    TooShort,
    /// There are fewer bytes left than this number of results or includes needs.
    TooMany,
    /// A key or a digest is no UTF-8.
    NotUtf8,
    /// The byte before a time is neither 0 nor 1.
    UnknownTime,
    /// The nanoseconds of a time are 1000000000 or more.
    TooManyNanoseconds,
    /// A key is not greater than the one before it.
    KeyOrder,
    /// There are bytes after the last result.
    Trailing,
}

impl Cause {
    /// The cause in words.
    pub fn as_str(self) -> &'static str {
        match self {
            Cause::UnknownFormat => "unknown format",
            Cause::TooShort => "the bytes end too soon",
            Cause::TooMany => "more are counted than fit in the bytes that are left",
            Cause::NotUtf8 => "text that is no UTF-8",
            Cause::UnknownTime => "neither a time nor none",
            Cause::TooManyNanoseconds => "1000000000 nanoseconds or more",
            Cause::KeyOrder => "a key that is not greater than the one before it",
            Cause::Trailing => "bytes after the last result",
        }
    }
}

/// Where bytes stop being an entry, and why.
#[derive(Debug, Clone, Copy)]
pub struct Fault {
    /// The offset of the field that is wrong.
    pub offset: usize,
    /// What is wrong with it.
    pub cause: Cause,
}

impl fmt::Display for Fault {
    fn fmt<W: fmt::Write>(&self, f: &mut fmt::Formatter<W>) -> fmt::Result {
        let offset = self.offset;
        let cause = self.cause.as_str();
        write!(f, "no entry from byte {offset} on: {cause}")
    }
}

// The bytes from the field that is wrong on, and what is wrong with it.
#[derive(Clone, Copy)]
struct Stop<'a> {
    left: &'a [u8],
    cause: Cause,
}

impl<'a> Stop<'a> {
    // This cause, at the start of what is left.
    fn new(left: &'a [u8], cause: Cause) -> Stop<'a>
        ensures left { result.left.now ≡ left.entry.now }
        ensures cause { result.cause ≡ cause }
    {
        Stop { left, cause }
    }
}

// A number of 8 bytes, and what is after it.
fn read_u64(bytes: &[u8]) -> Result<(u64, &[u8]), Stop<'_>>
    ensures { Is (λ x. (x.0, x.1.now)) result (number_in w64 bytes.now) }
{
    if bytes.len() < 8 {
        return Err(Stop::new(bytes, Cause::TooShort));
    }
    let (front, rest) = bytes.split_at(8);
    let number = u64::from_le_bytes([
        front[0], front[1], front[2], front[3], front[4], front[5], front[6], front[7],
    ]);
    Ok((number, rest))
}

// A number of 4 bytes, and what is after it.
fn read_u32(bytes: &[u8]) -> Result<(u32, &[u8]), Stop<'_>>
    ensures { Is (λ x. (x.0, x.1.now)) result (number_in w32 bytes.now) }
{
    if bytes.len() < 4 {
        return Err(Stop::new(bytes, Cause::TooShort));
    }
    let (front, rest) = bytes.split_at(4);
    let number = u32::from_le_bytes([front[0], front[1], front[2], front[3]]);
    Ok((number, rest))
}

// The number of results or includes that each have this many bytes or more, and what is after it.
fn read_count(bytes: &[u8], shortest: usize) -> Result<(u64, &[u8]), Stop<'_>>
    requires { 0 < shortest }
    ensures { Is (λ x. (x.0, x.1.now)) result (count_in shortest bytes.now) }
{
    let (count, rest) = read_u64(bytes)?;
    if ((rest.len() / shortest) as u64) < count {
        return Err(Stop::new(bytes, Cause::TooMany));
    }
    Ok((count, rest))
}

// Bytes with their length before them, and what is after them.
#[tactic(auto, unfolding(cck_entry::specs::Reading::length_prefixed_at))]
fn read_bytes(bytes: &[u8]) -> Result<(&[u8], &[u8]), Stop<'_>>
    ensures { Is (λ x. (x.0.now, x.1.now)) result (bytes_in bytes.now) }
{
    let (length, rest) = read_u64(bytes)?;
    if (rest.len() as u64) < length {
        return Err(Stop::new(bytes, Cause::TooShort));
    }
    Ok(rest.split_at(length as usize))
}

// A text with its length before it, and what is after it.
#[tactic(auto, using(cck_entry::proofs::Utf8Lemmas::tested))]
fn read_text(bytes: &[u8]) -> Result<(&str, &[u8]), Stop<'_>>
    ensures { Is (λ x. (x.0.now, x.1.now)) result (text_in bytes.now) }
{
    let (text, rest) = read_bytes(bytes)?;
    match from_utf8(text) {
        Ok(text) => Ok((text, rest)),
        Err(_) => Err(Stop::new(bytes, Cause::NotUtf8)),
    }
}

// What is after seconds and nanoseconds.
#[tactic(auto, unfolding(crate::specs::Fault::after_moment))]
fn skip_moment(bytes: &[u8]) -> Result<&[u8], Stop<'_>>
    ensures { Is (λ rest. rest.now) result (after_moment bytes.now) }
{
    let (_, rest) = read_u64(bytes)?;
    let (nanoseconds, after) = read_u32(rest)?;
    if nanoseconds >= NANOS_IN_A_SECOND {
        return Err(Stop::new(rest, Cause::TooManyNanoseconds));
    }
    Ok(after)
}

// What is after a time or none.
#[tactic(auto, unfolding(crate::specs::Fault::after_time))]
fn skip_time(bytes: &[u8]) -> Result<&[u8], Stop<'_>>
    ensures { Is (λ rest. rest.now) result (after_time bytes.now) }
{
    match bytes {
        [] => Err(Stop::new(bytes, Cause::TooShort)),
        [0, rest @ ..] => Ok(rest),
        [1, rest @ ..] => skip_moment(rest),
        [_, ..] => Err(Stop::new(bytes, Cause::UnknownTime)),
    }
}

// What is after an include.
#[tactic(auto, unfolding(crate::specs::Fault::after_include))]
fn skip_include(bytes: &[u8]) -> Result<&[u8], Stop<'_>>
    ensures { Is (λ rest. rest.now) result (after_include bytes.now) }
{
    let (_, after_path) = read_bytes(bytes)?;
    let (_, after_digest) = read_text(after_path)?;
    let (_, after_size) = read_u64(after_digest)?;
    let after_modified = skip_time(after_size)?;
    skip_time(after_modified)
}

// What is after this number of includes.
fn skip_includes(count: u64, bytes: &[u8]) -> Result<&[u8], Stop<'_>>
    ensures { Is (λ rest. rest.now) result (after_includes count bytes.now) }
{
    let mut rest = bytes;
    for _ in 0..count {
        match skip_include(rest) {
            Ok(after) => rest = after,
            Err(stop) => return Err(stop),
        }
    }
    Ok(rest)
}

// What is after the number of a result's includes and after the includes.
#[tactic(auto, unfolding(crate::specs::Fault::after_counted))]
fn skip_counted(bytes: &[u8]) -> Result<&[u8], Stop<'_>>
    ensures { Is (λ rest. rest.now) result (after_counted bytes.now) }
{
    let (count, rest) = read_count(bytes, SHORTEST_INCLUDE)?;
    skip_includes(count, rest)
}

// Whether a key is greater than the one before it, if there is one.
fn comes_next(previous: Option<&str>, key: &str) -> bool
    ensures { result ≡ comes_next (option_map (λ k. k.now) previous.entry) key.now }
{
    match previous {
        Some(previous) => previous < key,
        None => true,
    }
}

// What is after this number of results, each of whose keys is greater than the one before it.
fn skip_results(count: u64, bytes: &[u8]) -> Result<&[u8], Stop<'_>>
    ensures { Is (λ rest. rest.now) result (after_results None count bytes.now) }
{
    let mut rest = bytes;
    let mut previous: Option<&str> = None;
    for _ in 0..count {
        let (key, after_key) = match read_text(rest) {
            Ok(read) => read,
            Err(stop) => return Err(stop),
        };
        if !comes_next(previous, key) {
            return Err(Stop::new(rest, Cause::KeyOrder));
        }
        match skip_counted(after_key) {
            Ok(after) => rest = after,
            Err(stop) => return Err(stop),
        }
        previous = Some(key);
    }
    Ok(rest)
}

// What is after the number of results and after the results.
fn skip_body(bytes: &[u8]) -> Result<&[u8], Stop<'_>>
    ensures { Is (λ rest. rest.now) result (and_then (count_in 16 bytes.now) (λ count. after_results None count.0 count.1)) }
{
    let (count, rest) = read_count(bytes, SHORTEST_RESULT)?;
    skip_results(count, rest)
}

// The first field of these bytes that is wrong, if there is one.
#[tactic(auto, unfolding(crate::specs::Fault::wrong_in))]
fn first_wrong(bytes: &[u8]) -> Option<Stop<'_>>
    ensures { option_map (λ stop. (stop.left.now, stop.cause)) result ≡ wrong_in bytes.now }
{
    let Some((format, body)) = bytes.split_first() else {
        return None;
    };
    if *format != FORMAT_VERSION {
        return Some(Stop::new(bytes, Cause::UnknownFormat));
    }
    match skip_body(body) {
        Ok([]) => None,
        Ok(rest) => Some(Stop::new(rest, Cause::Trailing)),
        Err(stop) => Some(stop),
    }
}

/// Returns the first field of these bytes for which they are no entry. A length and a count are fields
/// of their own. For bytes without a wrong field it is their end, as [`Cause::TooShort`].
pub fn fault_of(bytes: &[u8]) -> Fault
    ensures { result ≡ fault_at bytes.now (wrong_in bytes.now) }
{
    match first_wrong(bytes) {
        None => Fault {
            offset: bytes.len(),
            cause: Cause::TooShort,
        },
        Some(stop) => Fault {
            offset: bytes.len().saturating_sub(stop.left.len()),
            cause: stop.cause,
        },
    }
}
