//! The listing of a script.
ghost use Rattle.std.specs.Prelude.{IfErr, IfSome, OnErr, OnOk};
ghost use Rattle.cck_explain.specs.Run.{ListsScript};
ghost use Rattle.cck_explain.specs.Written.{BeginsOf, IsExplainErrorFor, WritesOf};

use crate::error::ExplainError;
use crate::script_calls::script_listing;
use cck_command::print;
use cck_util::{HashState, read_all};
use std::alloc::Global;
use std::io::{Read, Write};

// Makes the calls of this script, and writes what each did.
fn write_script<H: HashState, W: Write>(
    alloc: Global,
    text: &[u8],
    writer: &mut W,
) -> Result<(), ExplainError>
    ensures listed { OnOk result (WritesOf (ListsScript H.hash text.now) (W.contents writer.old) (W.contents writer.new)) }
    ensures begun { OnErr result (BeginsOf (ListsScript H.hash text.now) (W.contents writer.old) (W.contents writer.new)) }
    ensures errors { IfErr result (λ error. IsExplainErrorFor text.now error (W.contents writer.old) (W.contents writer.new)) }
{
    let listing = script_listing::<H>(alloc, text)?;
    print(writer, &listing)?;
    Ok(())
}

/// Reads a script to its end, makes its calls, and writes what each did, as [`script_listing`] returns
/// it.
///
/// The error is [`ExplainError::Line`] for a wrong line; nothing is then written. The other errors are
/// [`ExplainError::Read`], [`ExplainError::Write`] and [`ExplainError::Memory`]. A prefix of the listing
/// is then written, which may be empty or all of it.
pub fn explain_script<H: HashState, R: Read, W: Write>(
    alloc: Global,
    reader: &mut R,
    writer: &mut W,
) -> Result<(), ExplainError>
    ensures listed { OnOk result (IfSome (R.remaining reader.old) (λ text.
        WritesOf (ListsScript H.hash text) (W.contents writer.old) (W.contents writer.new))) }
    ensures begun { OnErr result (IfSome (R.remaining reader.old) (λ text.
        BeginsOf (ListsScript H.hash text) (W.contents writer.old) (W.contents writer.new))) }
    ensures errors { IfErr result (λ error. IfSome (R.remaining reader.old) (λ text.
        IsExplainErrorFor text error (W.contents writer.old) (W.contents writer.new))) }
{
    let text = read_all(alloc, reader)?;
    write_script::<H, W>(alloc, &text, writer)
}
