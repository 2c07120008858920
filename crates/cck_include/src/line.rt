//! One line marker and the place of its name.
ghost use Rattle.std.specs.Prelude.{◌≡◌};
ghost use Rattle.cck_include.specs.Marks.{has_three};
ghost use Rattle.cck_include.specs.Lines.{IsLine};

use memchr::{memchr, memchr2};

/// What a line marker says. Places are byte offsets from the marker's start.
#[derive(Debug, Clone, Copy, PartialEq, Eq)]
pub enum Line<'a> {
    /// No name: the line ends before any quote.
    Unnamed {
        /// The place of the line feed.
        end: usize,
    },
    /// A name, which may be empty and may have line feeds in it.
    Named {
        /// The place of its first byte, after the quote.
        begin: usize,
        /// The place after its last byte: that of the closing quote, or the text's end.
        end: usize,
        /// Its bytes.
        name: &'a [u8],
        /// Whether a `3` comes after the closing quote in its line, by which a preprocessor marks a
        /// system header.
        is_system: bool,
    },
    /// There is neither a quote nor a line feed, or the first of them is a quote and the text's
    /// last byte.
    Malformed,
}

/// Returns what the line marker at the start of a text says.
///
/// The first quote or line feed decides. A name begins after the quote and ends before the next one,
/// over line feeds too, or with the text. The text may begin with anything: what is before the quote has no
/// effect. This is the reading part of upstream's `process_preprocessor_line`.
pub fn read_line(text: &[u8]) -> Line<'_>
    ensures { IsLine text.now result }
{
    let Some(first) = memchr2(b'"', b'\n', text) else {
        return Line::Malformed;
    };
    if text[first] == b'\n' {
        return Line::Unnamed { end: first };
    }
    let begin = first + 1;
    let following = &text[begin..];
    match memchr(b'"', following) {
        Some(length) => Line::Named {
            begin,
            end: begin + length,
            name: &following[..length],
            is_system: has_three(&following[length + 1..]),
        },
        None if following.is_empty() => Line::Malformed,
        None => Line::Named {
            begin,
            end: text.len(),
            name: following,
            is_system: false,
        },
    }
}

// Whether there is a `3` before the line's end.
fn has_three(text: &[u8]) -> bool
    ensures { result ≡ has_three text.now }
{
    match memchr2(b'3', b'\n', text) {
        Some(place) => text[place] == b'3',
        None => false,
    }
}
