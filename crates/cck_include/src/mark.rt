//! The marks of a text, in order.
ghost use Rattle.std.specs.Prelude.{◌≡◌, length};
ghost use Rattle.std.specs.Iterator.{at_most};
ghost use Rattle.cck_include.specs.Markers.{YieldsMark, unread_text};

use crate::item::read_item;
use crate::search::Searches;
use std::marker::Model;

/// What a text says at one place about the files that it was made of.
#[derive(Debug, Clone, Copy, PartialEq, Eq)]
pub enum Mark<'a> {
    /// A line marker's name.
    Name {
        /// Its bytes, a slice of the text. It may be empty.
        name: &'a [u8],
        /// Whether a `3` comes after the closing quote in its line.
        is_system: bool,
    },
    /// `.incbin` and then a quote, with nothing, a space, or a space and a backslash between them:
    /// the bytes of a file that no marker names are included.
    Refusal,
    /// A line marker that neither has a name nor ends its line without one.
    Malformed,
}

/// The marks of a text, in order, up to the first that is no name: after [`Mark::Refusal`] or
/// [`Mark::Malformed`] there are no more.
///
/// It allocates no memory and looks at each byte a few times at most, in any text. This is the scan
/// of upstream's `process_preprocessed_file`.
///
/// ```rust
/// Markers::new(b"# 1 \"a.h\" 3\n.incbin \"f\"") // the name `a.h`, of a system header; `Refusal`
/// ```
#[derive(Debug)]
pub struct Markers<'a> {
    rest: &'a [u8],
    starts_line: bool,
    searches: Searches,
}

impl Drop for Markers<'_> {
    fn drop(self) {
        let Markers {
            rest: _,
            starts_line: _,
            searches: _,
        } = self;
    }
}

impl<'a> Model for Markers<'a> {
    ghost use Rattle.cck_include.specs.Markers.{Unread};

    ghost Value = { Unread };

    ghost view = { λ m. record { starts_line = m.starts_line; text = m.rest.now } };

    ghost use Rattle.cck_include.specs.Searches.{AreSearched};

    ghost invariant = { λ m. AreSearched m.searches m.rest.now };
}

impl<'a> Markers<'a> {
    /// Returns the marks of this text, from its start on.
    pub fn new(text: &'a [u8]) -> Markers<'a>
        ensures { result ≡ unread_text text.now }
    {
        Markers::resume(text, true)
    }

    /// Returns the marks of the rest of a text, by whether a line starts there: those that are left
    /// where [`Markers::unread`] returned this.
    pub fn resume(rest: &'a [u8], starts_line: bool) -> Markers<'a>
        ensures { result ≡ record { starts_line = starts_line; text = rest.now } }
    {
        Markers {
            rest,
            starts_line,
            searches: Searches::new(),
        }
    }

    /// Returns the rest of the text, whose marks are left, and whether a line starts there.
    pub fn unread(&self) -> (&'a [u8], bool)
        ensures { self.now ≡ record { starts_line = result.1; text = result.0.now } }
    {
        (self.rest, self.starts_line)
    }
}

impl<'a> Iterator for Markers<'a> {
    type Item = Mark<'a>;

    ghost next_gives = { YieldsMark };

    ghost remaining = { λ markers. at_most (length markers.text) };

    fn next(&mut self) -> Option<Mark<'a>> {
        loop {
            let (rest, starts_line) = self.searches.skip_plain(self.rest, self.starts_line);
            self.rest = rest;
            self.starts_line = starts_line;
            let item = read_item(rest, starts_line)?;
            self.rest = &rest[item.size..];
            self.starts_line = item.starts_line;
            if item.mark.is_some() {
                return item.mark;
            }
        }
    }
}
