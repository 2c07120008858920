//! Macros replaced.
ghost use Rattle.std.specs.Prelude.{◌≡◌, ◌++◌, ◌<◌, ◌≤◌, ℕ, IfSome, OnOk, codes, length};
ghost use Rattle.std.specs.Option.{option_map};
ghost use Rattle.memchr.specs.Find.{OccursAt};
ghost use Rattle.cck_command.specs.MiniPrinted.{expanded, macro_at};
ghost use Rattle.cck_command.specs.MiniSeen.{macros_seen};

use crate::mini::macros::Macros;
use memchr::memmem;
use std::alloc::AllocError;

// Printed bytes, and the text that is left to expand.
#[derive(Clone, Copy)]
struct Piece<'a> {
    text: &'a [u8],
    rest: &'a [u8],
}

// The text of a macro, and how long its name is.
#[derive(Clone, Copy)]
struct FoundMacro<'a> {
    text: &'a [u8],
    length: usize,
}

/// Appends a text to `out`, with its macros replaced from left to right.
pub(crate) fn expand(out: &mut Vec<u8>, macros: &Macros, text: &[u8]) -> Result<(), AllocError>
    ensures { OnOk result
        (out.new.items ≡ out.old.items ++ expanded (macros_seen macros.now) text.now) }
{
    let mut left = text;
    while left.len() > 0 {
        let piece = next_piece(macros, left);
        out.extend_from_slice(piece.text)?;
        left = piece.rest;
    }
    Ok(())
}

// What is printed for the front of a text: a macro's text, or the bytes before the next place where
// a macro may be.
fn next_piece<'a>(macros: &'a Macros, left: &'a [u8]) -> Piece<'a>
    requires { 0 < length left.now }
    ensures text { expanded (macros_seen macros.now) left.now
        ≡ result.text.now ++ expanded (macros_seen macros.now) result.rest.now }
    ensures less { length result.rest.now < length left.now }
{
    match macro_at(macros, left) {
        Some(found) => Piece {
            text: found.text,
            rest: &left[found.length..],
        },
        None => {
            let size = plain_size(left);
            Piece {
                text: &left[..size],
                rest: &left[size..],
            }
        }
    }
}

// How many bytes there are from the first one on before two underscores, with which each macro
// begins. Two underscores at the first byte don't count.
fn plain_size(left: &[u8]) -> usize
    requires { 0 < length left.now }
    ensures some { 0 < result }
    ensures within { result ≤ length left.now }
    ensures plain { (place : ℕ) → 0 < place → place < result → OccursAt left.now (codes "__") place → ⊥ }
{
    match memmem::find(&left[1..], b"__") {
        Some(place) => place + 1,
        None => left.len(),
    }
}

// The macro at the front.
#[tactic(auto, unfolding(crate::specs::MiniPrinted::macro_at))]
fn macro_at<'a>(macros: &'a Macros, left: &[u8]) -> Option<FoundMacro<'a>>
    ensures value { option_map (λ r. (r.text.now, r.length)) result
        ≡ macro_at (macros_seen macros.now) left.now }
    ensures bound { IfSome result (λ r. r.length ≤ length left.now) }
    ensures some { IfSome result (λ r. 0 < r.length) }
{
    if left.starts_with(b"__DATE__") {
        return Some(FoundMacro {
            text: macros.date.as_bytes(),
            length: 8,
        });
    }
    if left.starts_with(b"__TIME__") {
        return Some(FoundMacro {
            text: macros.time.as_bytes(),
            length: 8,
        });
    }
    if left.starts_with(b"__TIMESTAMP__") {
        return Some(FoundMacro {
            text: macros.timestamp.as_bytes(),
            length: 13,
        });
    }
    None
}
