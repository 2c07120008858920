//! The marks of a text with their places.
ghost use Rattle.std.specs.Prelude.{◌≡◌, ℕ, ◌+◌, ◌<◌, ◌^◌, ◌++◌, List, [], IfOk, OnOk, length};
ghost use Rattle.cck_explain_listing.specs.Place.{ArePlacedMarks, placed_at, position_after};

use cck_include::{Mark, read_item};
use std::alloc::{AllocError, Global};

/// A place in a text.
#[derive(Clone, Copy)]
pub struct Position {
    /// The line, from 1 on.
    pub line: usize,
    /// The column in bytes, from 1 on.
    pub column: usize,
}

impl Position {
    // The place of the first byte of a text.
    fn start() -> Position
        ensures { result ≡ position_after [] }
    {
        Position { line: 1, column: 1 }
    }

    // The place after these bytes, if they are at this place.
    fn after(self, bytes: &[u8]) -> Position
        requires line { self.line + length bytes.now < 2 ^ 64 }
        requires column { self.column + length bytes.now < 2 ^ 64 }
        ensures { (front : List ℕ) → self ≡ position_after front
            → result ≡ position_after (front ++ bytes.now) }
    {
        let mut line = self.line;
        let mut column = self.column;
        for byte in bytes {
            if *byte == b'\n' {
                line += 1;
                column = 1;
            } else {
                column += 1;
            }
        }
        Position { line, column }
    }
}

/// A mark and where it is.
#[derive(Clone, Copy)]
pub struct PlacedMark<'a> {
    /// The place of the marker, or of the inclusion.
    pub position: Position,
    /// What the text says there.
    pub mark: Mark<'a>,
}

// Appends the mark that is made at this place, if there is one.
fn push_mark<'a>(
    placed: &mut Vec<PlacedMark<'a>>,
    position: Position,
    mark: Option<Mark<'a>>,
) -> Result<(), AllocError>
    ensures { OnOk result (placed.new.items ≡ placed.old.items ++ placed_at position mark.entry) }
{
    match mark {
        None => Ok(()),
        Some(mark) => {
            placed.push(PlacedMark { position, mark })?;
            Ok(())
        }
    }
}

/// Returns the marks of a text, in order, up to the first that is no name, each with its place.
///
/// The only error is lack of memory, which is also returned for a text of 2^64 - 1 bytes.
pub fn placed_marks(alloc: Global, text: &[u8]) -> Result<Vec<PlacedMark<'_>>, AllocError>
    ensures { IfOk result (λ placed. ArePlacedMarks text.now placed.items) }
{
    if text.len() == usize::MAX {
        return Err(AllocError);
    }
    let mut placed = Vec::new(alloc);
    let mut position = Position::start();
    let mut rest = text;
    let mut starts_line = true;
    while let Some(item) = read_item(rest, starts_line) {
        push_mark(&mut placed, position, item.mark)?;
        let (front, after) = rest.split_at(item.size);
        position = position.after(front);
        rest = after;
        starts_line = item.starts_line;
    }
    Ok(placed)
}
