//! The listing of line markers.
ghost use Rattle.std.specs.Prelude.{IfSome, OnErr, OnOk};
ghost use Rattle.cck_explain_listing.specs.MarkerListing.{AreMarkerLines};
ghost use Rattle.cck_explain.specs.Written.{BeginsOf, WritesOf};

use crate::error::ExplainError;
use crate::request::MarkersRequest;
use cck_command::print;
use cck_explain_listing::marker_lines;
use cck_util::read_all;
use std::alloc::Global;
use std::io::{Read, Write};

// Writes a line for each mark of a text.
fn write_markers<W: Write>(
    alloc: Global,
    request: MarkersRequest<'_>,
    text: &[u8],
    writer: &mut W,
) -> Result<(), ExplainError>
    ensures listed { OnOk result (WritesOf (AreMarkerLines request.entry.input.now request.entry.cwd.now text.now)
        (W.contents writer.old) (W.contents writer.new)) }
    ensures begun { OnErr result (BeginsOf (AreMarkerLines request.entry.input.now request.entry.cwd.now text.now)
        (W.contents writer.old) (W.contents writer.new)) }
{
    let lines = marker_lines(alloc, text, request.input, request.cwd)?;
    print(writer, &lines)?;
    Ok(())
}

/// Reads a text to its end, and writes a [line](marker_lines) for each of its marks.
///
/// The errors are [`ExplainError::Read`], [`ExplainError::Write`] and [`ExplainError::Memory`]. A
/// prefix of the lines is then written, which may be empty or all of them.
pub fn explain_markers<R: Read, W: Write>(
    alloc: Global,
    request: MarkersRequest<'_>,
    reader: &mut R,
    writer: &mut W,
) -> Result<(), ExplainError>
    ensures listed { OnOk result (IfSome (R.remaining reader.old) (λ text.
        WritesOf (AreMarkerLines request.entry.input.now request.entry.cwd.now text) (W.contents writer.old) (W.contents writer.new))) }
    ensures begun { OnErr result (IfSome (R.remaining reader.old) (λ text.
        BeginsOf (AreMarkerLines request.entry.input.now request.entry.cwd.now text) (W.contents writer.old) (W.contents writer.new))) }
{
    let text = read_all(alloc, reader)?;
    write_markers(alloc, request, &text, writer)
}
