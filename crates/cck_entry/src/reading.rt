//! Reads entries from bytes, from the left: each call reads a value at their beginning, and returns
//! it and the bytes after it. Keys, paths and digests are borrowed. All lengths and counts are
//! checked before memory is taken for them.
ghost use Rattle.std.specs.Prelude.{◌≡◌, ◌≤◌, ◌/◌, [], Err, IfErr, IfOk, IsSome, length, map, vec_capacity};
ghost use Rattle.std.specs.Int.{w32, w64};
ghost use Rattle.std.specs.List.{AllByRecursion};
ghost use Rattle.std.specs.Option.{option_map};
ghost use Rattle.cck_include.specs.Include.{include_lent};
ghost use Rattle.cck_entry.specs.Lent.{IsWhole, result_lent};
ghost use Rattle.cck_entry.specs.Reading.{IsReadResult, IsOvercounted, entry_at, fields_at, include_at, includes_at, length_prefixed_at, moment_at, number_at, result_at, results_from, text_at, time_at};

use crate::lent::comes_last;
use crate::result_ref::ResultRef;
use cck_digest::Error;
use cck_include::IncludeRef;
use cck_path::Timestamp;
use std::alloc::Global;

/// The least number of bytes of an include: two lengths, a size and two absent times.
const SHORTEST_INCLUDE: usize = 26;

/// The least number of bytes of a result: the length of its key, and the count of its includes.
const SHORTEST_RESULT: usize = 16;

/// The nanoseconds of a time are below this number.
const NANOS_IN_A_SECOND: u32 = 1_000_000_000;

/// A number of 4 bytes.
fn read_u32(bytes: &[u8]) -> Result<(u32, &[u8]), Error>
    ensures read { IsReadResult (λ x. (x.0, x.1.now)) result (number_at w32 bytes.now) }
    ensures err { IfErr result (λ e. e ≡ Error.Deserialization) }
{
    if bytes.len() < 4 {
        return Err(Error::Deserialization);
    }
    let (front, rest) = bytes.split_at(4);
    let number = u32::from_le_bytes([front[0], front[1], front[2], front[3]]);
    Ok((number, rest))
}

/// A number of 8 bytes.
fn read_u64(bytes: &[u8]) -> Result<(u64, &[u8]), Error>
    ensures read { IsReadResult (λ x. (x.0, x.1.now)) result (number_at w64 bytes.now) }
    ensures err { IfErr result (λ e. e ≡ Error.Deserialization) }
{
    if bytes.len() < 8 {
        return Err(Error::Deserialization);
    }
    let (front, rest) = bytes.split_at(8);
    let number = u64::from_le_bytes([
        front[0], front[1], front[2], front[3], front[4], front[5], front[6], front[7],
    ]);
    Ok((number, rest))
}

/// Bytes after their length.
#[tactic(auto, unfolding(crate::specs::Reading::length_prefixed_at))]
fn read_length_prefixed(bytes: &[u8]) -> Result<(&[u8], &[u8]), Error>
    ensures read { IsReadResult (λ x. (x.0.now, x.1.now)) result (length_prefixed_at bytes.now) }
    ensures err { IfErr result (λ e. e ≡ Error.Deserialization) }
{
    let (len, rest) = read_u64(bytes)?;
    if (rest.len() as u64) < len {
        return Err(Error::Deserialization);
    }
    Ok(rest.split_at(len as usize))
}

/// A text after its length.
#[tactic(auto, using(crate::proofs::Utf8Lemmas::tested), unfolding(crate::specs::Reading::text_at))]
fn read_text(bytes: &[u8]) -> Result<(&str, &[u8]), Error>
    ensures read { IsReadResult (λ x. (x.0.now, x.1.now)) result (text_at bytes.now) }
    ensures err { IfErr result (λ e. e ≡ Error.Deserialization) }
{
    let (text, rest) = read_length_prefixed(bytes)?;
    match std::str::from_utf8(text) {
        Ok(text) => Ok((text, rest)),
        Err(_) => Err(Error::Deserialization),
    }
}

/// Seconds, and nanoseconds below a second.
#[inline(always)]
#[tactic(auto, unfolding(crate::specs::Reading::moment_at))]
fn read_moment(bytes: &[u8]) -> Result<(Timestamp, &[u8]), Error>
    ensures read { IsReadResult (λ x. (x.0, x.1.now)) result (moment_at bytes.now) }
    ensures err { IfErr result (λ e. e ≡ Error.Deserialization) }
{
    let (seconds, rest) = read_u64(bytes)?;
    let (nanoseconds, rest) = read_u32(rest)?;
    if nanoseconds >= NANOS_IN_A_SECOND {
        return Err(Error::Deserialization);
    }
    Ok((Timestamp::new(seconds.cast_signed(), nanoseconds), rest))
}

/// A time or none, as the first byte says.
#[inline(always)]
#[tactic(auto, unfolding(crate::specs::Reading::time_at))]
fn read_time(bytes: &[u8]) -> Result<(Option<Timestamp>, &[u8]), Error>
    ensures read { IsReadResult (λ x. (x.0, x.1.now)) result (time_at bytes.now) }
    ensures err { IfErr result (λ e. e ≡ Error.Deserialization) }
{
    match bytes {
        [] => Err(Error::Deserialization),
        [0, rest @ ..] => Ok((None, rest)),
        [1, rest @ ..] => match read_moment(rest) {
            Ok((moment, rest)) => Ok((Some(moment), rest)),
            Err(error) => Err(error),
        },
        [_, ..] => Err(Error::Deserialization),
    }
}

/// The fields of an include after its digest.
#[inline(always)]
fn read_fields<'a>(
    path: &'a [u8],
    digest: &'a str,
    rest: &'a [u8],
) -> Result<(IncludeRef<'a>, &'a [u8]), Error>
    ensures read { IsReadResult (λ x. (include_lent x.0, x.1.now)) result
        (fields_at path.now digest.now rest.now) }
    ensures err { IfErr result (λ e. e ≡ Error.Deserialization) }
{
    let (file_size, rest) = read_u64(rest)?;
    let (mtime, rest) = match read_time(rest) {
        Ok(read) => read,
        Err(error) => return Err(error)
    };
    let (ctime, rest) = match read_time(rest) {
        Ok(read) => read,
        Err(error) => return Err(error)
    };
    Ok((
        IncludeRef {
            path,
            digest,
            file_size,
            mtime,
            ctime,
        },
        rest,
    ))
}

/// An include, with its path and its digest borrowed.
// Inlined with its parts, since what skips includes uses none of the fields.
#[inline(always)]
#[tactic(auto, unfolding(crate::specs::Reading::include_at))]
fn read_include(bytes: &[u8]) -> Result<(IncludeRef<'_>, &[u8]), Error>
    ensures read { IsReadResult (λ x. (include_lent x.0, x.1.now)) result (include_at bytes.now) }
    ensures err { IfErr result (λ e. e ≡ Error.Deserialization) }
{
    let (path, rest) = read_length_prefixed(bytes)?;
    let (digest, rest) = read_text(rest)?;
    match read_fields(path, digest, rest) {
        Ok(read) => Ok(read),
        Err(error) => Err(error),
    }
}

/// A text after its length, where the bytes were read as one before: it is not tested again.
#[tactic(auto, unfolding(crate::specs::Reading::text_at))]
fn read_text_again(bytes: &[u8]) -> Result<(&str, &[u8]), Error>
    requires { IsSome (text_at bytes.now) }
    ensures read { IsReadResult (λ x. (x.0.now, x.1.now)) result (text_at bytes.now) }
    ensures err { IfErr result (λ e. e ≡ Error.Deserialization) }
{
    let (text, rest) = read_length_prefixed(bytes)?;
    // SAFETY: the text is UTF-8, since the bytes begin with one.
    Ok((unsafe { std::str::from_utf8_unchecked(text) }, rest))
}

/// An include, where the bytes were read as one before: its digest is not tested again.
#[inline(always)]
#[tactic(auto, using(crate::proofs::Utf8Lemmas::digest_is_text), unfolding(crate::specs::Reading::include_at))]
pub(crate) fn read_include_again(bytes: &[u8]) -> Result<(IncludeRef<'_>, &[u8]), Error>
    requires { IsSome (include_at bytes.now) }
    ensures read { IsReadResult (λ x. (include_lent x.0, x.1.now)) result (include_at bytes.now) }
    ensures err { IfErr result (λ e. e ≡ Error.Deserialization) }
{
    let (path, rest) = read_length_prefixed(bytes)?;
    let (digest, rest) = read_text_again(rest)?;
    match read_fields(path, digest, rest) {
        Ok(read) => Ok(read),
        Err(error) => Err(error),
    }
}

/// Returns the bytes after `count` includes.
fn skip_includes(count: u64, bytes: &[u8]) -> Result<&[u8], Error>
    ensures { IsReadResult (λ rest. rest.now) result (option_map (λ x. x.1) (includes_at count bytes.now)) }
{
    let mut rest = bytes;
    for _ in 0..count {
        let (_, after) = match read_include(rest) {
            Ok(read) => read,
            Err(error) => return Err(error)
        };
        rest = after;
    }
    Ok(rest)
}

/// A result, with its key and its includes borrowed.
#[tactic(auto, unfolding(crate::specs::Reading::counted_at, crate::specs::Reading::result_at))]
fn read_result(bytes: &[u8]) -> Result<(ResultRef<'_>, &[u8]), Error>
    ensures read { IsReadResult (λ x. (result_lent x.0, x.1.now)) result (result_at bytes.now) }
    ensures whole { IfOk result (λ x. IsWhole x.0) }
{
    let (key, rest) = read_text(bytes)?;
    let (count, includes) = read_u64(rest)?;
    if ((includes.len() / SHORTEST_INCLUDE) as u64) < count {
        return Err(Error::Deserialization);
    }
    let rest = skip_includes(count, includes)?;
    Ok((
        ResultRef {
            key,
            count,
            includes,
        },
        rest,
    ))
}

/// Returns `count` results, whose keys ascend. Memory is taken once, for no more results than the
/// bytes can hold.
fn read_results(
    alloc: Global,
    count: u64,
    bytes: &[u8],
) -> Result<(Vec<ResultRef<'_>>, &[u8]), Error>
    requires fits { count ≤ length bytes.now / 16 }
    ensures read { IsReadResult
        (λ x. (map result_lent x.0.items, x.1.now)) result (results_from [] count bytes.now) }
    ensures whole { IfOk result (λ x. AllByRecursion IsWhole x.0.items) }
    ensures room { IfOk result (λ x. vec_capacity x.0 ≤ length bytes.now / 16) }
{
    let mut results = Vec::with_capacity(alloc, count as usize)?;
    let mut rest = bytes;
    for _ in 0..count {
        let (lent, after) = match read_result(rest) {
            Ok(read) => read,
            Err(error) => return Err(error)
        };
        if !comes_last(&results, lent.key) {
            return Err(Error::Deserialization);
        }
        results.push_reserved(lent);
        rest = after;
    }
    Ok((results, rest))
}

/// Returns the results that all of the bytes after the format contain.
///
/// If the remaining bytes can't hold the number of results that they name, the error is
/// [`Error::Deserialization`]: no memory is taken for such a number.
#[tactic(auto, unfolding(crate::specs::Reading::entry_at))]
pub(crate) fn read_entry(alloc: Global, bytes: &[u8]) -> Result<Vec<ResultRef<'_>>, Error>
    ensures read { IsReadResult (λ x. map result_lent x.items) result (entry_at bytes.now) }
    ensures whole { IfOk result (λ x. AllByRecursion IsWhole x.items) }
    ensures room { IfOk result (λ x. vec_capacity x ≤ length bytes.now / 16) }
    ensures counted { IsOvercounted bytes.now → result ≡ Err Error.Deserialization }
{
    let (count, rest) = read_u64(bytes)?;
    if ((rest.len() / SHORTEST_RESULT) as u64) < count {
        return Err(Error::Deserialization);
    }
    let (results, rest) = read_results(alloc, count, rest)?;
    if !rest.is_empty() {
        return Err(Error::Deserialization);
    }
    Ok(results)
}
