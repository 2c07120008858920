//! The listing of an entry.
ghost use Rattle.std.specs.Prelude.{IfErr, IfSome, OnErr, OnOk};
ghost use Rattle.cck_explain_listing.specs.Bytes.{IsEntryListing};
ghost use Rattle.cck_explain.specs.Written.{BeginsOf, IsExplainErrorFor, WritesOf};

use crate::error::ExplainError;
use cck_command::print;
use cck_explain_listing::entry_listing;
use cck_util::read_all;
use std::alloc::Global;
use std::io::{Read, Write};

// Writes the listing of the entry that these bytes are.
fn write_entry<W: Write>(alloc: Global, bytes: &[u8], writer: &mut W) -> Result<(), ExplainError>
    ensures listed { OnOk result (WritesOf (IsEntryListing bytes.now) (W.contents writer.old) (W.contents writer.new)) }
    ensures begun { OnErr result (BeginsOf (IsEntryListing bytes.now) (W.contents writer.old) (W.contents writer.new)) }
    ensures errors { IfErr result (λ error. IsExplainErrorFor bytes.now error (W.contents writer.old) (W.contents writer.new)) }
{
    let listing = entry_listing(alloc, bytes)?;
    print(writer, &listing)?;
    Ok(())
}

/// Reads bytes to their end, and writes the [listing](entry_listing) of the entry that they are.
///
/// The error is [`ExplainError::NotEntry`] exactly if the bytes are no entry; nothing is then written.
/// The other errors are [`ExplainError::Read`], [`ExplainError::Write`] and [`ExplainError::Memory`]. A
/// prefix of the listing is then written, which may be empty or all of it.
pub fn explain_entry<R: Read, W: Write>(
    alloc: Global,
    reader: &mut R,
    writer: &mut W,
) -> Result<(), ExplainError>
    ensures listed { OnOk result (IfSome (R.remaining reader.old) (λ bytes.
        WritesOf (IsEntryListing bytes) (W.contents writer.old) (W.contents writer.new))) }
    ensures begun { OnErr result (IfSome (R.remaining reader.old) (λ bytes.
        BeginsOf (IsEntryListing bytes) (W.contents writer.old) (W.contents writer.new))) }
    ensures errors { IfErr result (λ error. IfSome (R.remaining reader.old) (λ bytes.
        IsExplainErrorFor bytes error (W.contents writer.old) (W.contents writer.new))) }
{
    let bytes = read_all(alloc, reader)?;
    write_entry(alloc, &bytes, writer)
}
