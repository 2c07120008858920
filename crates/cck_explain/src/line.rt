//! The lines of parts.
ghost use Rattle.std.specs.Prelude.{◌≡◌, ◌+◌, ◌<◌, ◌^◌, ◌++◌, OnErr, OnOk, length, true};
ghost use Rattle.cck_command.specs.Printing.{AppendsBeginning};
ghost use Rattle.cck_explain.specs.Buffer.{PutsWaiting};
ghost use Rattle.cck_explain.specs.Listing.{listed_parts, listed_part, part_line, part_lines, rows, shown};

use crate::buffer::spill;
use crate::error::ExplainError;
use crate::part::Part;
use cck_explain_listing::{checksum, push_quoted};
use std::alloc::{AllocError, Global};
use std::io::Write;

/// The greatest number of bytes that a line shows.
const ROW_SIZE: usize = 256;

// Appends what a line shows of bytes: up to 256 of them escaped and in quotation marks, or else
// their checksum.
fn push_shown(alloc: Global, line: &mut Vec<u8>, bytes: &[u8]) -> Result<(), AllocError>
    ensures { OnOk result (line.new.items ≡ line.old.items ++ shown bytes.now) }
{
    if bytes.len() <= ROW_SIZE {
        push_quoted(line, bytes)?;
        return Ok(());
    }
    let sum = checksum(bytes);
    let text = format!(in alloc; "checksum {sum}")?;
    line.extend_from_slice(text.as_bytes())?;
    Ok(())
}

// Appends the line of bytes with this name at this offset.
fn push_line(
    alloc: Global,
    line: &mut Vec<u8>,
    offset: usize,
    name: &str,
    bytes: &[u8],
) -> Result<(), AllocError>
    ensures { OnOk result (line.new.items ≡ line.old.items ++ part_line offset name.now bytes.now) }
{
    let length = bytes.len();
    let head = format!(in alloc; "{offset} {length} {name} ")?;
    line.extend_from_slice(head.as_bytes())?;
    push_shown(alloc, line, bytes)?;
    line.push(b'\n')?;
    Ok(())
}

// Puts the line of bytes with this name at this offset into the writer.
fn put_line<W: Write>(
    alloc: Global,
    writer: &mut W,
    buffer: &mut Vec<u8>,
    offset: usize,
    name: &str,
    bytes: &[u8],
) -> Result<(), ExplainError>
    ensures put { OnOk result (PutsWaiting (W.contents writer.old) buffer.old.items
        (W.contents writer.new) buffer.new.items (part_line offset name.now bytes.now)) }
    ensures begun { OnErr result (AppendsBeginning (W.contents writer.old) (W.contents writer.new)
        (buffer.old.items ++ part_line offset name.now bytes.now)) }
{
    push_line(alloc, buffer, offset, name, bytes)?;
    spill(writer, buffer)
}

// Puts the lines of a part's rows into the writer.
fn put_rows<W: Write>(
    alloc: Global,
    writer: &mut W,
    buffer: &mut Vec<u8>,
    offset: usize,
    part: &Part<'_>,
) -> Result<(), ExplainError>
    requires { offset + length part.now.bytes < 2 ^ 64 }
    ensures put { OnOk result (PutsWaiting (W.contents writer.old) buffer.old.items
        (W.contents writer.new) buffer.new.items (part_lines offset (rows part.now))) }
    ensures begun { OnErr result (AppendsBeginning (W.contents writer.old) (W.contents writer.new)
        (buffer.old.items ++ part_lines offset (rows part.now))) }
{
    let mut rest = part.bytes();
    let mut at = offset;
    while rest.len() > ROW_SIZE {
        let (row, next) = rest.split_at(ROW_SIZE);
        put_line(alloc, writer, buffer, at, part.name(), row)?;
        at += ROW_SIZE;
        rest = next;
    }
    put_line(alloc, writer, buffer, at, part.name(), rest)?;
    Ok(())
}

// Puts what is listed of a part into the writer.
fn put_part<W: Write>(
    alloc: Global,
    writer: &mut W,
    buffer: &mut Vec<u8>,
    offset: usize,
    part: &Part<'_>,
    is_full: bool,
) -> Result<(), ExplainError>
    requires { offset + length part.now.bytes < 2 ^ 64 }
    ensures put { OnOk result (PutsWaiting (W.contents writer.old) buffer.old.items
        (W.contents writer.new) buffer.new.items (part_lines offset (listed_part is_full part.now))) }
    ensures begun { OnErr result (AppendsBeginning (W.contents writer.old) (W.contents writer.new)
        (buffer.old.items ++ part_lines offset (listed_part is_full part.now))) }
{
    if is_full {
        put_rows(alloc, writer, buffer, offset, part)
    } else {
        put_line(alloc, writer, buffer, offset, part.name(), part.bytes())
    }
}

/// Puts the lines of these parts into the writer through the buffer, each with its offset in all of
/// them. With `is_full` a part is listed in rows of 256 bytes; else a part of more than 256 bytes is
/// listed by its checksum.
///
/// The errors are [`ExplainError::Write`], and [`ExplainError::Memory`], also where the parts have
/// 2^64 bytes or more together. A prefix of what the buffer held and of the lines is then written.
pub fn put_parts<W: Write>(
    alloc: Global,
    writer: &mut W,
    buffer: &mut Vec<u8>,
    parts: &[Part<'_>],
    is_full: bool,
) -> Result<(), ExplainError>
    ensures put { OnOk result (PutsWaiting (W.contents writer.old) buffer.old.items
        (W.contents writer.new) buffer.new.items (part_lines 0 (listed_parts is_full parts.now))) }
    ensures begun { OnErr result (AppendsBeginning (W.contents writer.old) (W.contents writer.new)
        (buffer.old.items ++ part_lines 0 (listed_parts is_full parts.now))) }
{
    let mut offset: usize = 0;
    for part in parts {
        let end = offset
            .checked_add(part.bytes().len())
            .ok_or(ExplainError::Memory)?;
        put_part(alloc, writer, buffer, offset, part, is_full)?;
        offset = end;
    }
    Ok(())
}
