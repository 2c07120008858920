//! One item of a text: a marker, a line that is skipped, an inclusion, or a byte.
ghost use Rattle.std.specs.Prelude.{◌≡◌, ◌<◌, IfSome, Some, false, length};
ghost use Rattle.cck_include.specs.Items.{BeginsWith, IsHere, what_of};
ghost use Rattle.cck_include.specs.Marks.{Marker, is_hidden, is_inclusion, is_marker, what};

use crate::line::{Line, read_line};
use crate::mark::Mark;
use memchr::memchr;

/// The number of bytes that must be left for a place to be looked at.
pub(crate) const LEAST_LEFT: usize = 7;

/// What is at a place of a text.
enum What {
    Short,
    Marker,
    Hidden,
    Inclusion,
    Plain,
}

/// What a text begins with: a marker up to its line's end or closing quote, a line that is skipped,
/// the inclusion of a file's bytes, or one byte.
#[derive(Debug, Clone, Copy)]
pub struct Item<'a> {
    /// The mark that it makes.
    pub mark: Option<Mark<'a>>,
    /// Its length in bytes. After [`Mark::Refusal`] and [`Mark::Malformed`] it is all of the text.
    pub size: usize,
    /// Whether a line starts after it.
    pub starts_line: bool,
}

// Whether a line that starts here is a marker. The first bytes are compared by themselves, here and
// below, since they decide for most lines.
pub(crate) fn is_marker(text: &[u8]) -> bool
    ensures { result ≡ is_marker text.now }
{
    if text.len() < 3 || text[0] != b'#' {
        return false;
    }
    match text[1] {
        b' ' => text[2].is_ascii_digit(),
        b'p' => text.starts_with(b"#pragma GCC pch_preprocess"),
        b'l' => text.starts_with(b"#line "),
        _ => false,
    }
}

// Whether a line that starts here is skipped.
#[tactic(auto, unfolding(crate::specs::Marks::is_hidden))]
fn is_hidden(text: &[u8]) -> bool
    requires { 0 < length text.now }
    ensures { result ≡ is_hidden text.now }
{
    if text[0] != b'_' {
        return false;
    }
    text.starts_with(b"__________")
}

// Whether the bytes of a file are included here.
#[tactic(auto, unfolding(crate::specs::Marks::is_inclusion))]
fn is_inclusion(text: &[u8]) -> bool
    requires { 0 < length text.now }
    ensures { result ≡ is_inclusion text.now }
{
    if text[0] != b'.' {
        return false;
    }
    text.starts_with(b".incbin\"")
        || text.starts_with(b".incbin \"")
        || text.starts_with(b".incbin \\\"")
}

/// Whether a line starts here that may be a marker or may be skipped: such a line begins with `#` or
/// `_`.
pub(crate) fn may_be_marked(text: &[u8], starts_line: bool) -> bool
    ensures { result ≡ false → what starts_line text.now ≡ what false text.now }
{
    starts_line && (text.starts_with(b"#") || text.starts_with(b"_"))
}

// What the rest of a text begins with, by whether a line starts there.
#[tactic(auto, unfolding(crate::specs::Marks::what))]
fn what_occurs(text: &[u8], starts_line: bool) -> What
    ensures { what_of result ≡ what starts_line text.now }
{
    if text.len() < LEAST_LEFT {
        return What::Short;
    }
    if starts_line && is_marker(text) {
        return What::Marker;
    }
    if starts_line && is_hidden(text) {
        return What::Hidden;
    }
    if is_inclusion(text) {
        return What::Inclusion;
    }
    What::Plain
}

/// Returns what a text begins with, by whether a line starts there, or `None` if the text has no
/// more marks.
///
/// [`Markers`](crate::Markers) yields the marks of these items, and passes over plain bytes sooner.
/// This function is for a caller that needs the place of each mark.
pub fn read_item(text: &[u8], starts_line: bool) -> Option<Item<'_>>
    ensures begins { BeginsWith starts_line text.now result }
    ensures here { IfSome result (λ item. IsHere starts_line text.now item.mark) }
{
    match what_occurs(text, starts_line) {
        What::Short => None,
        What::Marker => Some(read_marker(text, starts_line)),
        What::Hidden => {
            let end = memchr(b'\n', text)?;
            Some(Item {
                mark: None,
                size: end + 1,
                starts_line: true,
            })
        }
        What::Inclusion => Some(Item {
            mark: Some(Mark::Refusal),
            size: text.len(),
            starts_line: false,
        }),
        What::Plain => Some(Item {
            mark: None,
            size: 1,
            starts_line: text[0] == b'\n',
        }),
    }
}

// The item of a marker ends before its line's end or its closing quote, and no line starts there.
fn read_marker(text: &[u8], starts_line: bool) -> Item<'_>
    requires { what starts_line text.now ≡ Marker }
    ensures begins { BeginsWith starts_line text.now (Some result) }
    ensures here { IsHere starts_line text.now result.mark }
{
    match read_line(text) {
        Line::Unnamed { end } => Item {
            mark: None,
            size: end,
            starts_line: false,
        },
        Line::Named {
            end,
            name,
            is_system,
            ..
        } => Item {
            mark: Some(Mark::Name { name, is_system }),
            size: end,
            starts_line: false,
        },
        Line::Malformed => Item {
            mark: Some(Mark::Malformed),
            size: text.len(),
            starts_line: false,
        },
    }
}
