//! The time macros in a stream.
use crate::cases::{CaseError, Value};
use cck_util::{Digest, SeenMacros, Sha256State, TimeMacroFinder};
use std::alloc::Global;

#[derive(Clone, Copy)]
pub(crate) enum FinderCall {
    Pieces,
    Resumed,
    Tail,
    Reader,
    Cuts,
}

pub(crate) const CALLS: [(&str, FinderCall); 5] = [
    ("find_in_pieces", FinderCall::Pieces),
    ("find_resumed", FinderCall::Resumed),
    ("resume_tail", FinderCall::Tail),
    ("find_in_reader", FinderCall::Reader),
    ("find_at_each_cut", FinderCall::Cuts),
];

pub(crate) fn call<'a>(
    call: FinderCall,
    alloc: Global,
    pieces: &[Vec<u8>],
    bytes: &[u8],
) -> Result<Value<'a>, CaseError> {
    match call {
        FinderCall::Pieces => Ok(Value::Word(in_pieces(pieces))),
        FinderCall::Resumed => Ok(Value::Word(resumed(pieces))),
        FinderCall::Tail => tail_kept(alloc, bytes),
        FinderCall::Reader => in_reader(alloc, bytes),
        FinderCall::Cuts => Ok(Value::Word(at_each_cut(bytes))),
    }
}

/// The macros that were found.
pub(crate) fn macros(finder: &TimeMacroFinder) -> &'static str {
    match (
        finder.found_time(),
        finder.found_date(),
        finder.found_timestamp(),
        finder.found_time_macros(),
    ) {
        (false, false, false, false) => "none",
        (true, false, false, true) => "time",
        (false, true, false, true) => "date",
        (false, false, true, true) => "timestamp",
        (true, true, false, true) => "time+date",
        (true, false, true, true) => "time+timestamp",
        (false, true, true, true) => "date+timestamp",
        (true, true, true, true) => "time+date+timestamp",
        _ => "found_time_macros differs from the other three",
    }
}

fn in_pieces(pieces: &[Vec<u8>]) -> &'static str {
    let mut finder = TimeMacroFinder::new();
    for piece in pieces {
        finder.find_time_macros(piece);
    }
    macros(&finder)
}

// Each piece is searched by a finder with the state of the one before it.
fn resumed(pieces: &[Vec<u8>]) -> &'static str {
    let mut finder = TimeMacroFinder::new();
    for piece in pieces {
        let Some(mut next) = TimeMacroFinder::resume(finder.seen()) else {
            return "no finder has the state of another";
        };
        next.find_time_macros(piece);
        finder = next;
    }
    macros(&finder)
}

// The tail of a finder that was made with this one.
fn tail_kept<'a>(alloc: Global, tail: &[u8]) -> Result<Value<'a>, CaseError> {
    let seen = SeenMacros {
        time: false,
        date: false,
        timestamp: false,
        tail,
    };
    match TimeMacroFinder::resume(seen) {
        Some(finder) => Ok(Value::Found(Some(Vec::from_slice(alloc, finder.seen().tail)?))),
        None => Ok(Value::Found(None)),
    }
}

fn in_reader<'a>(alloc: Global, bytes: &[u8]) -> Result<Value<'a>, CaseError> {
    let mut reader = bytes;
    let (_, finder) = Digest::<Sha256State>::reader_sync_time_macros(alloc, &mut reader)?;
    Ok(Value::Word(macros(&finder)))
}

fn in_three(first: &[u8], second: &[u8], third: &[u8]) -> &'static str {
    let mut finder = TimeMacroFinder::new();
    finder.find_time_macros(first);
    finder.find_time_macros(second);
    finder.find_time_macros(third);
    macros(&finder)
}

// The macros that are found in the text, if they are the same for each cut of it into three pieces.
fn at_each_cut(text: &[u8]) -> &'static str {
    let whole = in_three(text, b"", b"");
    for first in 0..=text.len() {
        let (head, rest) = text.split_at(first);
        for second in 0..=rest.len() {
            let (middle, end) = rest.split_at(second);
            if in_three(head, middle, end) != whole {
                return "the results differ by the cuts";
            }
        }
    }
    whole
}
