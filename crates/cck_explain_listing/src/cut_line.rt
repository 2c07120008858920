//! The lines of cuts.
ghost use Rattle.std.specs.Prelude.{◌≡◌, ◌++◌, OnOk};
ghost use Rattle.cck_path.specs.Bytes.{lists_of};
ghost use Rattle.cck_explain_listing.specs.CutListing.{argument_cut_lines, cut_bytes, cut_line, cut_lines, text_cut_lines};

use crate::push_quoted;
use cck_strip::{Cut, argument_cuts, text_cuts};
use std::alloc::{AllocError, Global};

// Returns the bytes of a text that are cut out.
fn cut_bytes<'a>(text: &'a [u8], cut: Cut) -> &'a [u8]
    ensures { result.now ≡ cut_bytes text.now cut }
{
    let rest = match text.get(cut.offset..) {
        Some(rest) => rest,
        None => &[],
    };
    &rest[..rest.len().min(cut.length)]
}

// Appends the line of a cut of the text with this name.
fn push_cut(
    alloc: Global,
    lines: &mut Vec<u8>,
    name: &str,
    text: &[u8],
    cut: Cut,
) -> Result<(), AllocError>
    ensures { OnOk result (lines.new.items ≡ lines.old.items ++ cut_line name.now text.now cut) }
{
    let offset = cut.offset;
    let length = cut.length;
    let head = format!(in alloc; "cut {offset} {length} {name} ")?;
    lines.extend_from_slice(head.as_bytes())?;
    push_quoted(lines, cut_bytes(text, cut))?;
    lines.push(b'\n')?;
    Ok(())
}

// Appends the line of each of these cuts of the text with this name.
fn push_cuts(
    alloc: Global,
    lines: &mut Vec<u8>,
    name: &str,
    text: &[u8],
    cuts: &[Cut],
) -> Result<(), AllocError>
    ensures { OnOk result (lines.new.items ≡ lines.old.items ++ cut_lines name.now text.now cuts.now) }
{
    for cut in cuts {
        push_cut(alloc, lines, name, text, *cut)?;
    }
    Ok(())
}

/// Appends a line for each base directory that is cut out of the preprocessed text with this name.
///
/// The only error is lack of memory. What was appended is then unspecified.
#[tactic(auto, unfolding(crate::specs::CutListing::text_cut_lines))]
pub fn push_text_cuts(
    alloc: Global,
    lines: &mut Vec<u8>,
    name: &str,
    text: &[u8],
    basedirs: &[Vec<u8>],
) -> Result<(), AllocError>
    ensures { OnOk result (lines.new.items ≡ lines.old.items ++ text_cut_lines (lists_of basedirs.now) name.now text.now) }
{
    if basedirs.is_empty() {
        return Ok(());
    }
    let cuts = text_cuts(alloc, text, basedirs)?;
    push_cuts(alloc, lines, name, text, &cuts)
}

/// Appends a line for each base directory that is cut out of the argument with this name.
///
/// The only error is lack of memory. What was appended is then unspecified.
#[tactic(auto, unfolding(crate::specs::CutListing::argument_cut_lines))]
pub fn push_argument_cuts(
    alloc: Global,
    lines: &mut Vec<u8>,
    name: &str,
    argument: &[u8],
    basedirs: &[Vec<u8>],
) -> Result<(), AllocError>
    ensures { OnOk result (lines.new.items
        ≡ lines.old.items ++ argument_cut_lines (lists_of basedirs.now) name.now argument.now) }
{
    let cuts = argument_cuts(alloc, argument, basedirs)?;
    push_cuts(alloc, lines, name, argument, &cuts)
}
