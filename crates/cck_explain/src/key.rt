//! The listing of a key.
ghost use Rattle.std.specs.Prelude.{◌≡◌, ◌++◌, IfOk, IfSome, OnErr, OnOk, string_bytes};
ghost use Rattle.std.specs.Io.KnownBytes.{Appends};
ghost use Rattle.cck_command.specs.Printing.{AppendsBeginning};
ghost use Rattle.cck_explain.specs.Key.{all_cut_lines, arguments_cut_lines, listed_key_line, key_listing};
ghost use Rattle.cck_path.specs.Bytes.{lists_of};
ghost use Rattle.cck_explain.specs.ExplainKeyRequest.{params_for};
ghost use Rattle.cck_explain.specs.Listing.{listed_parts, part_lines};
ghost use Rattle.cck_util.specs.Key.{object_key};

use crate::error::ExplainError;
use crate::line::put_parts;
use crate::part::{Part, argument_name, material_parts};
use crate::request::ExplainKeyRequest;
use cck_command::print;
use cck_explain_listing::{push_argument_cuts, push_text_cuts};
use cck_util::{HashKeyParams, HashState, read_all};
use std::alloc::{AllocError, Global};
use std::io::{Read, Write};

// Appends the line of the key.
fn push_key(line: &mut Vec<u8>, key: &str) -> Result<(), AllocError>
    ensures { OnOk result (line.new.items ≡ line.old.items ++ listed_key_line key.now) }
{
    line.extend_from_slice(b"key ")?;
    line.extend_from_slice(key.as_bytes())?;
    line.push(b'\n')?;
    Ok(())
}

// Returns the key of this request and text.
fn key_of<H: HashState>(
    alloc: Global,
    request: &ExplainKeyRequest<'_>,
    text: &[u8],
) -> Result<String, AllocError>
    ensures { IfOk result (λ key. string_bytes key ≡ object_key H.hash (params_for request.now text.now)) }
{
    let params = HashKeyParams::new(
        request.compiler_digest,
        request.language,
        &request.arguments,
        text,
    )
    .with_basedirs(&request.basedirs);
    match params.compute::<H>(alloc) {
        Ok(key) => Ok(key),
        Err(_) => Err(AllocError),
    }
}

// Appends a line for each base directory that is cut out of these arguments.
fn push_arguments_cuts(
    alloc: Global,
    lines: &mut Vec<u8>,
    arguments: &[Vec<u8>],
    basedirs: &[Vec<u8>],
) -> Result<(), AllocError>
    ensures { OnOk result (lines.new.items
        ≡ lines.old.items ++ arguments_cut_lines (lists_of basedirs.now) 0 (lists_of arguments.now)) }
{
    for (index, argument) in arguments.iter().enumerate() {
        let name = argument_name(alloc, index)?;
        push_argument_cuts(alloc, lines, name.as_str(), argument, basedirs)?;
    }
    Ok(())
}

// Returns a line for each base directory that is cut out of the arguments and the text.
fn cuts_of(
    alloc: Global,
    request: &ExplainKeyRequest<'_>,
    text: &[u8],
) -> Result<Vec<u8>, AllocError>
    ensures { IfOk result (λ lines. lines.items
        ≡ all_cut_lines (lists_of request.now.basedirs.items) (lists_of request.now.arguments.items) text.now) }
{
    let mut lines = Vec::new(alloc);
    push_arguments_cuts(alloc, &mut lines, &request.arguments, &request.basedirs)?;
    push_text_cuts(
        alloc,
        &mut lines,
        "preprocessor_output",
        text,
        &request.basedirs,
    )?;
    Ok(lines)
}

// Writes the lines of these parts, those of the cuts and the line of the key.
//
// The errors are those of [`put_parts`]. A prefix of the lines is then written.
fn write_listing<W: Write>(
    alloc: Global,
    writer: &mut W,
    parts: &[Part<'_>],
    cuts: &[u8],
    key: &str,
    is_full: bool,
) -> Result<(), ExplainError>
    ensures listed { OnOk result (Appends (W.contents writer.old) (W.contents writer.new)
        (part_lines 0 (listed_parts is_full parts.now) ++ (cuts.now ++ listed_key_line key.now))) }
    ensures begun { OnErr result (AppendsBeginning (W.contents writer.old) (W.contents writer.new)
        (part_lines 0 (listed_parts is_full parts.now) ++ (cuts.now ++ listed_key_line key.now))) }
{
    let mut buffer = Vec::new(alloc);
    put_parts(alloc, writer, &mut buffer, parts, is_full)?;
    buffer.extend_from_slice(cuts)?;
    push_key(&mut buffer, key)?;
    print(writer, &buffer)?;
    Ok(())
}

/// Reads a text to its end, and writes the parts of the key material of this request and text, a
/// line each, then a line for each base directory that is cut out, and the key.
///
/// The errors are [`ExplainError::Read`], [`ExplainError::Write`] and [`ExplainError::Memory`]. A
/// prefix of the listing is then written, which may be empty or all of it.
pub fn explain_key<H: HashState, R: Read, W: Write>(
    alloc: Global,
    request: &ExplainKeyRequest<'_>,
    reader: &mut R,
    writer: &mut W,
) -> Result<(), ExplainError>
    ensures listed { OnOk result (IfSome (R.remaining reader.old) (λ text.
        Appends (W.contents writer.old) (W.contents writer.new) (key_listing H.hash request.now.is_full (params_for request.now text)))) }
    ensures begun { OnErr result (IfSome (R.remaining reader.old) (λ text.
        AppendsBeginning (W.contents writer.old) (W.contents writer.new) (key_listing H.hash request.now.is_full (params_for request.now text)))) }
{
    let text = read_all(alloc, reader)?;
    let key = key_of::<H>(alloc, request, &text)?;
    let parts = material_parts(alloc, request, &text)?;
    let cuts = cuts_of(alloc, request, &text)?;
    write_listing(alloc, writer, &parts, &cuts, key.as_str(), request.is_full)?;
    Ok(())
}
