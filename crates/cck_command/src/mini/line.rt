//! Lines, and the files that they include.
ghost use Rattle.std.specs.Prelude.{◌≡◌, ◌<◌, ◌∷◌, length, position};
ghost use Rattle.std.specs.Option.{option_map};
ghost use Rattle.cck_command.specs.MiniPrinted.{include_name, is_empty_or_ends_in_lf, is_lf, is_quote, lines_in};

use memchr::memchr;

/// A line without its LF, the LF if there is one, and the text after it.
#[derive(Clone, Copy)]
pub(crate) struct CutLine<'a> {
    /// The line without its LF.
    pub(crate) front: &'a [u8],
    /// The LF, or nothing.
    pub(crate) ending: &'a [u8],
    /// The text after the line.
    pub(crate) rest: &'a [u8],
}

/// The first line of a text that has one.
pub(crate) fn cut_line(text: &[u8]) -> CutLine<'_>
    requires { 0 < length text.now }
    ensures line { lines_in text.now
        ≡ (result.front.now, result.ending.now) ∷ lines_in result.rest.now }
    ensures less { length result.rest.now < length text.now }
{
    match find_lf(text) {
        None => CutLine {
            front: text,
            ending: &[],
            rest: &[],
        },
        Some(end) => CutLine {
            front: &text[..end],
            ending: &text[end..end + 1],
            rest: &text[end + 1..],
        },
    }
}

// The place of the first LF.
fn find_lf(text: &[u8]) -> Option<usize>
    ensures { result ≡ position is_lf text.now }
{
    memchr(b'\n', text)
}

/// The name in a line that includes a file: `#include "NAME"` and nothing else, where the name
/// isn't empty and has no quote.
#[tactic(auto, unfolding(crate::specs::MiniPrinted::include_name))]
pub(crate) fn include_name(line: &[u8]) -> Option<&[u8]>
    ensures { option_map (λ n. n.now) result ≡ include_name line.now }
{
    if !line.starts_with(b"#include \"") {
        return None;
    }
    let body = &line[10..];
    let end = find_quote(body)?;
    if end != 0 && end + 1 == body.len() {
        Some(&body[..end])
    } else {
        None
    }
}

// The place of the first quote.
fn find_quote(text: &[u8]) -> Option<usize>
    ensures { result ≡ position is_quote text.now }
{
    memchr(b'"', text)
}

/// Whether a text is empty or ends in LF.
#[tactic(auto, unfolding(crate::specs::MiniPrinted::is_empty_or_ends_in_lf))]
pub(crate) fn is_empty_or_ends_in_lf(text: &[u8]) -> bool
    ensures { result ≡ is_empty_or_ends_in_lf text.now }
{
    text.is_empty() || text[text.len() - 1] == b'\n'
}
