//! How many bytes from a place on are plain, found by searches for words.
ghost use Rattle.std.specs.Prelude.{◌≡◌, ◌≤◌, ◌<◌, ◌-◌, ◌^◌, ℕ, List, [], length};
ghost use Rattle.memchr.specs.Find.{IsFirstByte, Nowhere, OccursAt, is_byte};
ghost use Rattle.cck_include.specs.Markers.{Yields};
ghost use Rattle.cck_include.specs.Searches.{AreSearched, ArePlain, EndsBeforeMarker, IsKnown};
ghost use Rattle.cck_include.specs.Searches.{IsMarkerSearch, IsSearchFor};

use crate::item::{LEAST_LEFT, is_marker, may_be_marked};
use memchr::memchr;
use memchr::memmem::Finder;

// A line's end and the beginning of a line that is skipped.
const HIDDEN: &[u8] = b"\n__________";

// The beginning of each inclusion.
const INCLUSION: &[u8] = b".incbin";

// A search for a word in the rest of a text. `left` is the number of bytes from the place where the
// word was found last to the end. It is 0 if there was no such place, and more than a text has
// before the first search.
#[derive(Debug)]
struct WordFinder {
    finder: Finder<'static>,
    left: usize,
}

impl Drop for WordFinder {
    fn drop(self) {
        let WordFinder { finder: _, left: _ } = self;
    }
}

impl WordFinder {
    // A search that has not run yet.
    fn new(word: &'static [u8]) -> WordFinder
        ensures { result ≡ record { finder = word.now; left = 2 ^ 64 - 1 } }
    {
        WordFinder {
            finder: Finder::new(word),
            left: usize::MAX,
        }
    }

    // Returns the first place of the word in the rest of a text, or the end. It does not search
    // again before the place that was found last is passed.
    fn first_place(&mut self, rest: &[u8]) -> usize
        ensures known { (word : List ℕ) → IsSearchFor word self.old rest.now → IsSearchFor word self.new rest.now }
        ensures within { result ≤ length rest.now }
        ensures nowhere { (word : List ℕ) → IsSearchFor word self.old rest.now → Nowhere (OccursAt rest.now word) 0 result }
    {
        if self.left <= rest.len() {
            return rest.len() - self.left;
        }
        let found = bytes_left(&self.finder, rest);
        self.left = found;
        rest.len() - found
    }
}

// Returns the number of bytes from the word's first place to the end, or 0 if it has none. Inlined
// into its caller, it would keep that from being inlined, which runs at each marker.
#[inline(never)]
fn bytes_left(finder: &Finder<'_>, rest: &[u8]) -> usize
    ensures within { result ≤ length rest.now }
    ensures nowhere { IsKnown result finder.now rest.now }
{
    match finder.find(rest) {
        Some(place) => rest.len() - place,
        None => 0,
    }
}

// A search for a line's end that a marker follows. `left` is as in a `WordFinder`.
#[derive(Debug, Drop)]
struct MarkerSearch {
    left: usize,
}

impl MarkerSearch {
    // A search that has not run yet.
    fn new() -> MarkerSearch
        ensures { result ≡ record { left = 2 ^ 64 - 1 } }
    {
        MarkerSearch { left: usize::MAX }
    }

    // Returns the first place of such a line's end in the rest of a text, or the end.
    fn first_place(&mut self, rest: &[u8]) -> usize
        requires known { IsMarkerSearch self.old rest.now }
        ensures known { IsMarkerSearch self.new rest.now }
        ensures within { result ≤ length rest.now }
        ensures nowhere { Nowhere (EndsBeforeMarker rest.now) 0 result }
    {
        if self.left <= rest.len() {
            return rest.len() - self.left;
        }
        let found = marker_left(rest);
        self.left = found;
        rest.len() - found
    }
}

// Returns the number of bytes from the first line's end that a marker follows to the text's end, or
// 0 if there is none. Most texts have `#` only where a line starts, so a search for it finds markers
// alone. After another `#` the search goes on at that line's end, so a line costs two searches for a
// byte at most.
fn marker_left(text: &[u8]) -> usize
    ensures within { result ≤ length text.now }
    ensures nowhere { Nowhere (EndsBeforeMarker text.now) 0 (length text.now - result) }
{
    let mut from = 0;
    while from < text.len() {
        let Some(passed) = first_byte(b'#', &text[from + 1..]) else {
            return 0;
        };
        let place = from + passed;
        if text[place] == b'\n' && is_marker(&text[place + 1..]) {
            return text.len() - place;
        }
        let Some(rest) = first_byte(b'\n', &text[place + 2..]) else {
            return 0;
        };
        from = place + 2 + rest;
    }
    0
}

// Returns the first place of a byte, or `None`. In a text of short lines that is often the place 0,
// which is found without a search.
fn first_byte(byte: u8, text: &[u8]) -> Option<usize>
    ensures { IsFirstByte (is_byte byte) text.now result }
{
    if !text.is_empty() && text[0] == byte {
        return Some(0);
    }
    memchr(byte, text)
}

/// The searches for all that isn't a plain byte.
#[derive(Debug)]
pub(crate) struct Searches {
    marker: MarkerSearch,
    hidden: WordFinder,
    inclusion: WordFinder,
}

impl Drop for Searches {
    fn drop(self) {
        let Searches {
            marker: _,
            hidden: _,
            inclusion: _,
        } = self;
    }
}

impl Searches {
    /// Searches that have not run yet.
    pub(crate) fn new() -> Searches
        ensures { (text : List ℕ) → length text < 2 ^ 64 → AreSearched result text }
    {
        Searches {
            marker: MarkerSearch::new(),
            hidden: WordFinder::new(HIDDEN),
            inclusion: WordFinder::new(INCLUSION),
        }
    }

    /// Returns what is left after plain bytes, and whether a line starts there. Nothing is passed
    /// over where a line starts that may be a marker or may be skipped.
    pub(crate) fn skip_plain<'a>(&mut self, text: &'a [u8], starts_line: bool) -> (&'a [u8], bool)
        requires known { AreSearched self.old text.now }
        ensures known { AreSearched self.new result.0.now }
        ensures shorter { length result.0.now ≤ length text.now }
        ensures passed { Yields (record { starts_line = starts_line; text = text.now }) []
            (record { starts_line = result.1; text = result.0.now }) }
    {
        if may_be_marked(text, starts_line) {
            return (text, starts_line);
        }
        let size = self.plain_size(text);
        if size == 0 {
            return (text, false);
        }
        (&text[size..], text[size - 1] == b'\n')
    }

    // Returns the length of a prefix of plain bytes, not always the longest, if no line starts with
    // the text.
    fn plain_size(&mut self, text: &[u8]) -> usize
        requires known { AreSearched self.old text.now }
        ensures known { AreSearched self.new text.now }
        ensures within { result ≤ length text.now }
        ensures plain { ArePlain text.now result }
    {
        let marker = self.marker.first_place(text);
        let hidden = self.hidden.first_place(text);
        let inclusion = self.inclusion.first_place(text);
        let last = text.len().saturating_sub(LEAST_LEFT - 1);
        inclusion.min(marker.min(hidden) + 1).min(last)
    }
}
