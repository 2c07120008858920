//! Writes results as bytes. A call that returns an error may have written a part of them.
ghost use Rattle.std.specs.Prelude.{◌≡◌, ◌<◌, ◌^◌, FitsSigned, IfErr, IfSome, OnOk, length, map};
ghost use Rattle.std.specs.BTreeMap.{IsOrdered};
ghost use Rattle.std.specs.Int.{cast_unsigned, to_le_bytes, w32, w64};
ghost use Rattle.std.specs.Io.KnownBytes.{Appends};
ghost use Rattle.std.specs.List.{AllByRecursion, flat_map};
ghost use Rattle.std.specs.String.{string_bytes, string_cmp};
ghost use Rattle.cck_digest.specs.declared.error.UtilError.TheVariants as util;
ghost use Rattle.cck_include.specs.Include.{include_in, includes_in};
ghost use Rattle.cck_entry.specs.Results.{Fits, FitsMoment, FitsResult, result_in};
ghost use Rattle.cck_entry.specs.Writing.{entry_bytes, include_bytes, length_prefixed, moment_bytes, result_bytes, time_bytes};

use crate::results::Results;
use cck_digest::{Error, UtilError};
use cck_include::{FORMAT_VERSION, IncludeEntry};
use cck_path::Timestamp;
use std::io::Write;

/// Writes these bytes.
fn write_bytes<W: Write>(writer: &mut W, bytes: &[u8]) -> Result<(), Error>
    ensures text { OnOk result (Appends (W.contents writer.old) (W.contents writer.new) bytes.now) }
    ensures err { IfErr result (λ e. e ≡ Error.Io util.Write) }
{
    match writer.write_all(bytes) {
        Ok(()) => Ok(()),
        Err(_) => Err(Error::Io(UtilError::Write)),
    }
}

/// Writes a number of 8 bytes.
fn write_u64<W: Write>(writer: &mut W, n: u64) -> Result<(), Error>
    ensures text { OnOk result
        (Appends (W.contents writer.old) (W.contents writer.new) (to_le_bytes w64 n)) }
    ensures err { IfErr result (λ e. e ≡ Error.Io util.Write) }
{
    write_bytes(writer, &n.to_le_bytes())
}

/// Writes bytes after their length.
#[tactic(auto, using(crate::proofs::AppendLemmas::appends_then))]
fn write_with_length<W: Write>(writer: &mut W, bytes: &[u8]) -> Result<(), Error>
    ensures text { OnOk result
        (Appends (W.contents writer.old) (W.contents writer.new) (length_prefixed bytes.now)) }
    ensures err { IfErr result (λ e. e ≡ Error.Io util.Write) }
    ensures fits { length bytes.now < 2 ^ 64 }
{
    write_u64(writer, bytes.len() as u64)?;
    write_bytes(writer, bytes)
}

/// Writes the seconds of a time.
fn write_seconds<W: Write>(writer: &mut W, moment: Timestamp) -> Result<(), Error>
    ensures text { OnOk result
        (Appends (W.contents writer.old) (W.contents writer.new) (to_le_bytes w64 (cast_unsigned w64 moment.seconds))) }
    ensures err { IfErr result (λ e. e ≡ Error.Io util.Write) }
    ensures fits { FitsSigned w64 moment.seconds }
{
    let seconds = moment.seconds();
    write_bytes(writer, &seconds.to_le_bytes())
}

/// Writes the nanoseconds of a time.
fn write_nanoseconds<W: Write>(writer: &mut W, moment: Timestamp) -> Result<(), Error>
    ensures text { OnOk result
        (Appends (W.contents writer.old) (W.contents writer.new) (to_le_bytes w32 moment.nanoseconds)) }
    ensures err { IfErr result (λ e. e ≡ Error.Io util.Write) }
    ensures fits { moment.nanoseconds < 1000000000 }
{
    write_bytes(writer, &moment.nanoseconds().to_le_bytes())
}

/// Writes seconds and nanoseconds.
fn write_moment<W: Write>(writer: &mut W, moment: Timestamp) -> Result<(), Error>
    ensures text { OnOk result
        (Appends (W.contents writer.old) (W.contents writer.new) (moment_bytes moment)) }
    ensures err { IfErr result (λ e. e ≡ Error.Io util.Write) }
    ensures fits { OnOk result (FitsMoment moment) }
{
    write_seconds(writer, moment)?;
    write_nanoseconds(writer, moment)?;
    Ok(())
}

/// Writes a time, or that there is none.
#[tactic(auto, using(crate::proofs::AppendLemmas::appends_then))]
fn write_time<W: Write>(writer: &mut W, moment: Option<Timestamp>) -> Result<(), Error>
    ensures text { OnOk result
        (Appends (W.contents writer.old) (W.contents writer.new) (time_bytes moment)) }
    ensures err { IfErr result (λ e. e ≡ Error.Io util.Write) }
    ensures fits { OnOk result (IfSome moment FitsMoment) }
{
    match moment {
        None => write_bytes(writer, &[0]),
        Some(moment) => {
            write_bytes(writer, &[1])?;
            write_moment(writer, moment)
        }
    }
}

/// Writes an include.
#[tactic(auto, using(crate::proofs::AppendLemmas::appends_then))]
fn write_include<W: Write>(writer: &mut W, one: &IncludeEntry) -> Result<(), Error>
    ensures text { OnOk result
        (Appends (W.contents writer.old) (W.contents writer.new) (include_bytes (include_in one.now))) }
    ensures err { IfErr result (λ e. e ≡ Error.Io util.Write) }
    ensures fits { OnOk result (Fits (include_in one.now)) }
{
    write_with_length(writer, &one.path)?;
    write_with_length(writer, one.digest.as_bytes())?;
    write_u64(writer, one.file_size)?;
    write_time(writer, one.mtime)?;
    write_time(writer, one.ctime)?;
    Ok(())
}

/// Writes includes.
fn write_includes<W: Write>(writer: &mut W, includes: &[IncludeEntry]) -> Result<(), Error>
    ensures text { OnOk result
        (Appends (W.contents writer.old) (W.contents writer.new) (flat_map include_bytes (includes_in includes.now))) }
    ensures err { IfErr result (λ e. e ≡ Error.Io util.Write) }
    ensures fits { OnOk result (AllByRecursion Fits (includes_in includes.now)) }
{
    for one in includes {
        write_include(writer, one)?;
    }
    Ok(())
}

/// Writes how many includes there are.
fn write_count<W: Write>(writer: &mut W, includes: &[IncludeEntry]) -> Result<(), Error>
    ensures text { OnOk result
        (Appends (W.contents writer.old) (W.contents writer.new) (to_le_bytes w64 (length includes.now))) }
    ensures err { IfErr result (λ e. e ≡ Error.Io util.Write) }
    ensures fits { length includes.now < 2 ^ 64 }
{
    write_u64(writer, includes.len() as u64)
}

/// Writes a key and its includes.
#[tactic(auto, using(crate::proofs::AppendLemmas::appends_then, std::proofs::lemmas::Grind::common_steps))]
fn write_result<W: Write>(
    writer: &mut W,
    key: &String,
    includes: &Vec<IncludeEntry>,
) -> Result<(), Error>
    ensures text { OnOk result
        (Appends (W.contents writer.old) (W.contents writer.new) (result_bytes (string_bytes key.now, includes_in includes.now.items))) }
    ensures err { IfErr result (λ e. e ≡ Error.Io util.Write) }
    ensures fits { OnOk result (FitsResult (string_bytes key.now, includes_in includes.now.items)) }
{
    let includes = includes.as_slice();
    write_with_length(writer, key.as_bytes())?;
    write_count(writer, includes)?;
    write_includes(writer, includes)?;
    Ok(())
}

/// Writes results.
fn write_results<W: Write>(writer: &mut W, results: &Results) -> Result<(), Error>
    ensures text { OnOk result
        (Appends (W.contents writer.old) (W.contents writer.new) (flat_map result_bytes (map result_in results.now.entries))) }
    ensures err { IfErr result (λ e. e ≡ Error.Io util.Write) }
    ensures fits { OnOk result (AllByRecursion FitsResult (map result_in results.now.entries)) }
{
    for (key, includes) in results {
        write_result(writer, key, includes)?;
    }
    Ok(())
}

/// Writes the whole of an entry.
#[tactic(auto, using(crate::proofs::AppendLemmas::appends_then, std::proofs::lemmas::Grind::common_steps))]
pub(crate) fn write_entry<W: Write>(writer: &mut W, results: &Results) -> Result<(), Error>
    ensures text { OnOk result
        (Appends (W.contents writer.old) (W.contents writer.new) (entry_bytes (map result_in results.now.entries))) }
    ensures err { IfErr result (λ e. e ≡ Error.Io util.Write) }
    ensures count { OnOk result (length (map result_in results.now.entries) < 2 ^ 64) }
    ensures fits { OnOk result (AllByRecursion FitsResult (map result_in results.now.entries)) }
    ensures ordered { OnOk result (IsOrdered string_cmp results.now) }
{
    write_bytes(writer, &[FORMAT_VERSION])?;
    write_u64(writer, results.len() as u64)?;
    write_results(writer, results)?;
    Ok(())
}
