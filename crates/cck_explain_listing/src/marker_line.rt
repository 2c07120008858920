//! The lines of marks.
ghost use Rattle.std.specs.Prelude.{◌≡◌, ◌++◌, IfOk, OnOk};
ghost use Rattle.std.specs.List.{flat_map};
ghost use Rattle.std.specs.Ordering.{eq_by_cmp};
ghost use Rattle.cck_path.specs.Path.{components, path_cmp};
ghost use Rattle.cck_path.specs.Text.{path_text};
ghost use Rattle.cck_explain_listing.specs.MarkerListing.{AreMarkerLines, is_bracketed, mark_line, mark_words, name_words, named_path, path_word, path_words};

use crate::place::{PlacedMark, placed_marks};
use crate::push_quoted;
use cck_include::Mark;
use cck_path::{compare_paths, join_path, normalize_path};
use std::alloc::{AllocError, Global};

// Whether a name is enclosed in `<` and `>`.
#[tactic(auto, unfolding(crate::specs::MarkerListing::is_bracketed))]
fn is_bracketed(name: &[u8]) -> bool
    ensures { result ≡ is_bracketed name.now }
{
    name.len() >= 2 && name[0] == b'<' && name[name.len() - 1] == b'>'
}

// The path that a name means, joined to the working directory and normalised.
fn named_path(alloc: Global, cwd: &[u8], name: &[u8]) -> Result<Vec<u8>, AllocError>
    ensures components { IfOk result (λ path. components path.items ≡ named_path cwd.now name.now) }
    ensures bytes { IfOk result (λ path. path.items ≡ path_text (named_path cwd.now name.now)) }
{
    let Ok(joined) = join_path(alloc, cwd, name) else {
        return Err(AllocError);
    };
    match normalize_path(alloc, &joined) {
        Ok(path) => Ok(path),
        Err(_) => Err(AllocError),
    }
}

// Whether two paths have the same components.
fn is_same(a: &[u8], b: &[u8]) -> bool
    ensures { result ≡ eq_by_cmp path_cmp (components a.now) (components b.now) }
{
    compare_paths(a, b).is_eq()
}

// The word for what a path counts as.
fn path_word(is_input: bool, is_system: bool) -> &'static [u8]
    ensures { result.now ≡ path_word is_input is_system }
{
    if is_input {
        b"input"
    } else if is_system {
        b"system"
    } else {
        b"file"
    }
}

// Appends a name that means a path, by what the path counts as, with the path.
fn push_path(
    alloc: Global,
    lines: &mut Vec<u8>,
    input: &[u8],
    cwd: &[u8],
    name: &[u8],
    is_system: bool,
) -> Result<(), AllocError>
    ensures { OnOk result (lines.new.items ≡ lines.old.items
        ++ path_words (named_path cwd.now input.now) (named_path cwd.now name.now) name.now is_system) }
{
    let path = named_path(alloc, cwd, name)?;
    let is_input = is_same(&path, &named_path(alloc, cwd, input)?);
    lines.extend_from_slice(path_word(is_input, is_system))?;
    lines.extend_from_slice(b" ")?;
    push_quoted(lines, name)?;
    lines.extend_from_slice(b" ")?;
    push_quoted(lines, &path)
}

// Appends a name by what it counts as.
fn push_name(
    alloc: Global,
    lines: &mut Vec<u8>,
    input: &[u8],
    cwd: &[u8],
    name: &[u8],
    is_system: bool,
) -> Result<(), AllocError>
    ensures { OnOk result (lines.new.items ≡ lines.old.items ++ name_words input.now cwd.now name.now is_system) }
{
    if name.is_empty() {
        lines.extend_from_slice(b"empty ")?;
        return push_quoted(lines, name);
    }
    if is_bracketed(name) {
        lines.extend_from_slice(b"angled ")?;
        return push_quoted(lines, name);
    }
    push_path(alloc, lines, input, cwd, name, is_system)
}

// Appends a mark by what it says.
fn push_mark(
    alloc: Global,
    lines: &mut Vec<u8>,
    input: &[u8],
    cwd: &[u8],
    mark: Mark<'_>,
) -> Result<(), AllocError>
    ensures { OnOk result (lines.new.items ≡ lines.old.items ++ mark_words input.now cwd.now mark.entry) }
{
    match mark {
        Mark::Name { name, is_system } => push_name(alloc, lines, input, cwd, name, is_system),
        Mark::Refusal => lines.extend_from_slice(b"incbin"),
        Mark::Malformed => lines.extend_from_slice(b"malformed"),
    }
}

// Appends the line of a mark.
fn push_line(
    alloc: Global,
    lines: &mut Vec<u8>,
    input: &[u8],
    cwd: &[u8],
    placed: PlacedMark<'_>,
) -> Result<(), AllocError>
    ensures { OnOk result (lines.new.items ≡ lines.old.items ++ mark_line input.now cwd.now placed.entry) }
{
    let line = placed.position.line;
    let column = placed.position.column;
    let place = format!(in alloc; "{line}:{column} ")?;
    lines.extend_from_slice(place.as_bytes())?;
    push_mark(alloc, lines, input, cwd, placed.mark)?;
    lines.push(b'\n')?;
    Ok(())
}

// Returns the lines of these marks.
fn lines_of(
    alloc: Global,
    input: &[u8],
    cwd: &[u8],
    placed: &[PlacedMark<'_>],
) -> Result<Vec<u8>, AllocError>
    ensures { IfOk result (λ lines. lines.items ≡ flat_map (mark_line input.now cwd.now) placed.now) }
{
    let mut lines = Vec::new(alloc);
    for mark in placed {
        push_line(alloc, &mut lines, input, cwd, *mark)?;
    }
    Ok(lines)
}

/// Returns a line for each mark of a text, in order, up to the first that is no name:
///
/// - `LINE:COLUMN empty ""` and `LINE:COLUMN angled "<NAME>"`: no file is looked for by this name;
/// - `LINE:COLUMN input "NAME" "PATH"`: the name means the input, which is relative to the working
///   directory as names are;
/// - `LINE:COLUMN system "NAME" "PATH"`: the name of a system header, and the path that it means;
/// - `LINE:COLUMN file "NAME" "PATH"`: any other name;
/// - `LINE:COLUMN incbin` and `LINE:COLUMN malformed`: for this mark nothing is recorded of the text.
///
/// The only error is lack of memory.
pub fn marker_lines(
    alloc: Global,
    text: &[u8],
    input: &[u8],
    cwd: &[u8],
) -> Result<Vec<u8>, AllocError>
    ensures { IfOk result (λ lines. AreMarkerLines input.now cwd.now text.now lines.items) }
{
    let placed = placed_marks(alloc, text)?;
    lines_of(alloc, input, cwd, &placed)
}
