//! The time macros in a stream, however the stream is cut into pieces.
ghost use Rattle.std.specs.Prelude.{◌≡◌, ℕ, List, [], ◌++◌, ◌≤◌, ◌<◌, ◌⊎◌, ◌↔◌, IsTrue, MatchOption, length, take};
ghost use Rattle.cck_digest.specs.TimeMacros.{Follows, Has, date_macro, last_bytes, time_macro, timestamp_macro};

use memchr::memmem;
use std::marker::Model;

const TIME: &[u8] = b"__TIME__";

const DATE: &[u8] = b"__DATE__";

const TIMESTAMP: &[u8] = b"__TIMESTAMP__";

// The common beginning of `__TIME__` and `__TIMESTAMP__`. A text that lacks it has neither.
const TIME_STEM: &[u8] = b"__TIME";

// The most bytes that a macro cut by the end of a piece can have in that piece: one less than the
// length of the longest macro, `__TIMESTAMP__`.
const TAIL_LENGTH: usize = 12;

// The last `TAIL_LENGTH` bytes before a piece, and the first `TAIL_LENGTH` bytes of the piece.
const WINDOW_LENGTH: usize = 24;

/// The state of a [`TimeMacroFinder`] as plain values, for a caller that stores it.
#[derive(Debug, Clone, Copy)]
pub struct SeenMacros<'a> {
    /// Whether the stream contains `__TIME__`.
    pub time: bool,
    /// Whether the stream contains `__DATE__`.
    pub date: bool,
    /// Whether the stream contains `__TIMESTAMP__`.
    pub timestamp: bool,
    /// The last 12 bytes of the stream, or all bytes of a shorter one.
    pub tail: &'a [u8],
}

/// Finds the macros `__TIME__`, `__DATE__` and `__TIMESTAMP__` in a stream that is passed piece by
/// piece. The result does not depend on where the stream is cut.
///
/// It keeps the last 12 bytes of the stream and allocates no memory. It replaces upstream's
/// `util::TimeMacroFinder`, which can join pieces that are not adjacent.
#[derive(Debug, Drop)]
pub struct TimeMacroFinder {
    found_time: bool,
    found_date: bool,
    found_timestamp: bool,
    tail: [u8; TAIL_LENGTH],
    length: usize,
}

impl Model for TimeMacroFinder {
    ghost use Rattle.std.specs.Prelude.{◌≤◌};
    ghost use Rattle.cck_digest.specs.TimeMacros.{Seen};

    ghost Value = { Seen };

    ghost use Rattle.cck_digest.specs.Finder.{seen_by};

    ghost view = { seen_by };

    ghost invariant = { λ finder. finder.length ≤ 12 };
}

// Whether the text contains the word.
fn has(text: &[u8], word: &[u8]) -> bool
    ensures { IsTrue result ↔ Has text.now word.now }
{
    memmem::find(text, word).is_some()
}

// Writes the tail and the beginning of the piece to the window, and returns the number of bytes
// written.
fn fill(window: &mut [u8; WINDOW_LENGTH], tail: &[u8], piece: &[u8]) -> usize
    requires { length tail.now ≤ 12 }
    ensures within { result ≤ 24 }
    ensures across { take result window.new ≡ tail.now ++ take 12 piece.now }
{
    let kept = tail.len();
    let first = piece.len().min(TAIL_LENGTH);
    window[..kept].copy_from_slice(tail);
    window[kept..kept + first].copy_from_slice(&piece[..first]);
    kept + first
}

// Copies the last bytes of a text to the tail, at most `TAIL_LENGTH`, and returns their number.
fn keep(tail: &mut [u8; TAIL_LENGTH], text: &[u8]) -> usize
    ensures within { result ≤ 12 }
    ensures last { take result tail.new ≡ last_bytes text.now }
{
    let start = text.len().saturating_sub(TAIL_LENGTH);
    let length = text.len() - start;
    tail[..length].copy_from_slice(&text[start..]);
    length
}

impl TimeMacroFinder {
    /// A finder of an empty stream.
    pub fn new() -> TimeMacroFinder
        ensures { Follows result [] }
    {
        TimeMacroFinder {
            found_time: false,
            found_date: false,
            found_timestamp: false,
            tail: [0; TAIL_LENGTH],
            length: 0,
        }
    }

    /// The finder with this state, or `None` if the tail is longer than 12 bytes.
    ///
    /// It is a finder of the stream that the state was taken from, by [`TimeMacroFinder::seen`].
    pub fn resume(seen: SeenMacros<'_>) -> Option<TimeMacroFinder>
        ensures { MatchOption result (12 < length seen.entry.tail.now) (λ finder.
            finder ≡ record { time = seen.entry.time; date = seen.entry.date; timestamp = seen.entry.timestamp; tail = seen.entry.tail.now }) }
    {
        if seen.tail.len() > TAIL_LENGTH {
            return None;
        }
        let mut tail = [0; TAIL_LENGTH];
        let length = keep(&mut tail, seen.tail);
        Some(TimeMacroFinder {
            found_time: seen.time,
            found_date: seen.date,
            found_timestamp: seen.timestamp,
            tail,
            length,
        })
    }

    /// The state of the finder, which [`TimeMacroFinder::resume`] takes back. Its tail has at most
    /// 12 bytes.
    pub fn seen(&self) -> SeenMacros<'_>
        ensures within { length result.tail.now ≤ 12 }
        ensures value { record { time = result.time; date = result.date; timestamp = result.timestamp; tail = result.tail.now } ≡ self.now }
    {
        SeenMacros {
            time: self.found_time,
            date: self.found_date,
            timestamp: self.found_timestamp,
            tail: &self.tail[..self.length],
        }
    }

    /// Searches the next piece of the stream. An empty piece changes nothing.
    pub fn find_time_macros(&mut self, piece: &[u8])
        ensures follows { (stream : List ℕ) → Follows self.old stream → Follows self.new (stream ++ piece.now) }
        ensures empty { piece.now ≡ [] → self.new ≡ self.old }
    {
        if piece.is_empty() {
            return;
        }
        let mut window = [0u8; WINDOW_LENGTH];
        let filled = fill(&mut window, &self.tail[..self.length], piece);
        let across = &window[..filled];
        self.mark(across);
        self.mark(piece);
        let last = if piece.len() < TAIL_LENGTH {
            across
        } else {
            piece
        };
        self.length = keep(&mut self.tail, last);
    }

    // Sets the flags of the macros in this text. A macro that was found before is not searched for
    // again.
    fn mark(&mut self, text: &[u8])
        ensures time { IsTrue self.new.time ↔ (IsTrue self.old.time ⊎ Has text.now time_macro) }
        ensures date { IsTrue self.new.date ↔ (IsTrue self.old.date ⊎ Has text.now date_macro) }
        ensures timestamp { IsTrue self.new.timestamp ↔ (IsTrue self.old.timestamp ⊎ Has text.now timestamp_macro) }
        ensures tail { self.new.tail ≡ self.old.tail }
    {
        self.found_date = self.found_date || has(text, DATE);
        let is_settled = self.found_time && self.found_timestamp;
        if !is_settled && has(text, TIME_STEM) {
            self.found_time = self.found_time || has(text, TIME);
            self.found_timestamp = self.found_timestamp || has(text, TIMESTAMP);
        }
    }

    /// Whether the stream contains any of the three macros.
    pub fn found_time_macros(&self) -> bool
        ensures { (stream : List ℕ) → Follows self.now stream
            → IsTrue result ↔ (Has stream time_macro ⊎ (Has stream date_macro ⊎ Has stream timestamp_macro)) }
    {
        self.found_time || self.found_date || self.found_timestamp
    }

    /// Whether the stream contains `__TIME__`.
    pub fn found_time(&self) -> bool
        ensures { (stream : List ℕ) → Follows self.now stream → IsTrue result ↔ Has stream time_macro }
    {
        self.found_time
    }

    /// Whether the stream contains `__DATE__`.
    pub fn found_date(&self) -> bool
        ensures { (stream : List ℕ) → Follows self.now stream → IsTrue result ↔ Has stream date_macro }
    {
        self.found_date
    }

    /// Whether the stream contains `__TIMESTAMP__`.
    pub fn found_timestamp(&self) -> bool
        ensures { (stream : List ℕ) → Follows self.now stream → IsTrue result ↔ Has stream timestamp_macro }
    {
        self.found_timestamp
    }
}
