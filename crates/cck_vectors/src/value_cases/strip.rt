//! Base directories cut out of texts and arguments.
use crate::cases::{CaseError, Given, Value, bytes_of, number, parts_of, write_cut, write_numbers};
use crate::value_cases::searches::strip_by_searches;
use cck_util::{
    BasedirTrie, Digest, Sha256State, pathname_positions, strip_basedirs, strip_basedirs_from_arg,
};
use std::alloc::Global;
use std::borrow::CowSlice;

#[derive(Clone, Copy)]
pub(crate) enum StripCall {
    Text,
    LongestAt,
    Argument,
    Positions,
    AllTexts,
    CountTexts,
    AllArguments,
}

pub(crate) const CALLS: [(&str, StripCall); 7] = [
    ("strip", StripCall::Text),
    ("longest_at", StripCall::LongestAt),
    ("strip_argument", StripCall::Argument),
    ("positions", StripCall::Positions),
    ("strip_all_of", StripCall::AllTexts),
    ("strip_count_of", StripCall::CountTexts),
    ("strip_all_arguments_of", StripCall::AllArguments),
];

/// Base directories: a text, followed by no letter, by one letter, and so on.
pub(crate) fn basedirs_with(alloc: Global, rest: &str) -> Result<Vec<Vec<u8>>, CaseError> {
    let (count, rest) = parts_of(rest)?;
    let (first, letter) = parts_of(rest)?;
    let mut basedir = bytes_of(alloc, first)?;
    let letter = bytes_of(alloc, letter)?;
    let mut basedirs = Vec::new(alloc);
    add_basedirs(&mut basedirs, number(count)?, &mut basedir, &letter)?;
    Ok(basedirs)
}

// Adds the base directory `count` times. After each time it ends in one more letter.
fn add_basedirs(
    basedirs: &mut Vec<Vec<u8>>,
    count: usize,
    basedir: &mut Vec<u8>,
    letter: &[u8],
) -> Result<(), CaseError> {
    for _ in 0..count {
        basedirs.push(basedir.clone()?)?;
        basedir.extend_from_slice(letter)?;
    }
    Ok(())
}

pub(crate) fn call<'a>(
    call: StripCall,
    given: &'a Given,
    bytes: &'a [u8],
) -> Result<Value<'a>, CaseError> {
    let (alloc, dirs) = (given.alloc, given.basedirs.as_slice());
    match call {
        StripCall::Text => stripped(given, bytes),
        StripCall::LongestAt => longest_at_each(given, bytes),
        StripCall::Argument => Ok(Value::Cut(strip_basedirs_from_arg(alloc, bytes, dirs)?)),
        StripCall::Positions => Ok(Value::Numbers(pathname_positions(alloc, bytes)?)),
        StripCall::AllTexts => all(given, bytes, false),
        StripCall::CountTexts => count_texts(given, bytes),
        StripCall::AllArguments => all(given, bytes, true),
    }
}

fn stripped<'a>(given: &Given, text: &'a [u8]) -> Result<Value<'a>, CaseError> {
    match strip_text(given, text)? {
        Some(kept) => Ok(Value::Cut(kept)),
        None => Ok(Value::Word(DIFFERS)),
    }
}

// The result if `strip_basedirs` and `strip_by_searches` return different results.
const DIFFERS: &str = "differs";

// Whether both are kept, or both are cut and the same remains.
fn is_same(kept: &CowSlice<'_, u8>, other: &CowSlice<'_, u8>) -> bool {
    matches!(kept, CowSlice::Owned(_)) == matches!(other, CowSlice::Owned(_))
        && kept.as_slice() == other.as_slice()
}

// Each of these base directories twice.
fn twice(given: &Given) -> Result<Vec<Vec<u8>>, CaseError> {
    let mut basedirs = Vec::new(given.alloc);
    for _ in 0..2 {
        for basedir in &given.basedirs {
            basedirs.push(basedir.clone()?)?;
        }
    }
    Ok(basedirs)
}

// What `strip_basedirs` returns, if `strip_by_searches` returns the same, and if `strip_basedirs`
// also does when each base directory is given twice.
fn strip_text<'a>(given: &Given, text: &'a [u8]) -> Result<Option<CowSlice<'a, u8>>, CaseError> {
    let kept = strip_basedirs(given.alloc, text, &given.basedirs)?;
    if is_as_searched(given, text, &kept)? && is_as_of_twice(given, text, &kept)? {
        Ok(Some(kept))
    } else {
        Ok(None)
    }
}

fn is_as_searched(given: &Given, text: &[u8], kept: &CowSlice<'_, u8>) -> Result<bool, CaseError> {
    let searched = strip_by_searches(given.alloc, text, &given.basedirs)?;
    Ok(is_same(kept, &searched))
}

fn is_as_of_twice(given: &Given, text: &[u8], kept: &CowSlice<'_, u8>) -> Result<bool, CaseError> {
    let stripped = strip_basedirs(given.alloc, text, &twice(given)?)?;
    Ok(is_same(kept, &stripped))
}

// The length of the longest base directory at each place of the text, and at its end.
fn longest_at_each<'a>(given: &Given, text: &[u8]) -> Result<Value<'a>, CaseError> {
    let trie = BasedirTrie::new(given.alloc, &given.basedirs)?;
    let mut lengths = Vec::new(given.alloc);
    for at in 0..text.len() {
        lengths.push(trie.longest_at(text, at))?;
    }
    lengths.push(trie.longest_at(text, text.len()))?;
    Ok(Value::Numbers(lengths))
}

// Replaces the text by the one of this length and number over some letters.
fn put_text(
    text: &mut Vec<u8>,
    letters: &[u8],
    length: u32,
    number: usize,
) -> Result<(), CaseError> {
    text.clear();
    let mut rest = number;
    for _ in 0..length {
        let count = letters.len().max(1);
        text.push(letters.get(rest % count).copied().unwrap_or_default())?;
        rest /= count;
    }
    Ok(())
}

// The number of texts of up to seven of these letters that are stripped as by `strip_by_searches`.
fn count_texts<'a>(given: &Given, letters: &[u8]) -> Result<Value<'a>, CaseError> {
    let mut text = Vec::new(given.alloc);
    let mut count = 0u64;
    for length in 0..8 {
        for number in 0..letters.len().saturating_pow(length) {
            put_text(&mut text, letters, length, number)?;
            if strip_text(given, &text)?.is_some() {
                count = count.saturating_add(1);
            }
        }
    }
    Ok(Value::Number(count))
}

fn write_text(given: &Given, text: &[u8], line: &mut Vec<u8>) -> Result<(), CaseError> {
    match strip_text(given, text)? {
        Some(kept) => write_cut(line, &kept)?,
        None => line.extend_from_slice(DIFFERS.as_bytes())?,
    }
    Ok(())
}

fn write_argument(given: &Given, text: &[u8], line: &mut Vec<u8>) -> Result<(), CaseError> {
    write_cut(
        line,
        &strip_basedirs_from_arg(given.alloc, text, &given.basedirs)?,
    )?;
    write_numbers(given.alloc, line, &pathname_positions(given.alloc, text)?)?;
    Ok(())
}

// The hex digest of the results for each text of up to six of four letters, with a line feed after
// each; or for each argument, with its positions.
fn all<'a>(given: &Given, letters: &[u8], is_argument: bool) -> Result<Value<'a>, CaseError> {
    let mut digest = Digest::<Sha256State>::new();
    let mut text = Vec::new(given.alloc);
    let mut line = Vec::new(given.alloc);
    for length in 0..7 {
        for number in 0..4usize.saturating_pow(length) {
            put_text(&mut text, letters, length, number)?;
            line.clear();
            if is_argument {
                write_argument(given, &text, &mut line)?;
            } else {
                write_text(given, &text, &mut line)?;
            }
            line.push(b'\n')?;
            digest.update(&line);
        }
    }
    Ok(Value::Text(digest.finish(given.alloc)?))
}
