//! The words of a line, and the parts of a text.
ghost use Rattle.std.specs.Prelude.{◌≡◌, ◌==◌, Some, IfOk, position};
ghost use Rattle.std.specs.Option.{option_map};
ghost use Rattle.cck_path.specs.Bytes.{lists_of};
ghost use Rattle.cck_path.specs.Escape.{unescaped};
ghost use Rattle.cck_command.specs.ScriptWords.{cut, last_text, next_word, meaning_text, word, words};

use cck_digest::UtilError;
use cck_path::ascii_unescape_default;
use memchr::memchr;
use std::alloc::{AllocError, Global};

/// A word, and what is left of its line if a space is after the word.
#[derive(Drop)]
pub(crate) struct Taken<'a> {
    /// The word, unescaped.
    pub(crate) word: Vec<u8>,
    /// What is after the space.
    pub(crate) rest: Option<&'a [u8]>,
}

/// The first part of a text, and what is after the separator that ends it.
#[derive(Clone, Copy)]
pub(crate) struct SplitText<'a> {
    /// The part.
    pub(crate) front: &'a [u8],
    /// What is after the separator, if there is one.
    pub(crate) rest: Option<&'a [u8]>,
}

/// Returns what is before the first separator of a text, and what is after it.
#[tactic(auto, unfolding(crate::specs::ScriptWords::cut))]
pub(crate) fn cut(separator: u8, text: &[u8]) -> SplitText<'_>
    ensures { (result.front.now, option_map (λ r. r.now) result.rest) ≡ cut separator text.now }
{
    match find(separator, text) {
        None => SplitText {
            front: text,
            rest: None,
        },
        Some(end) => SplitText {
            front: &text[..end],
            rest: Some(&text[end + 1..]),
        },
    }
}

// The place of the first separator.
fn find(separator: u8, text: &[u8]) -> Option<usize>
    ensures { result ≡ position (λ b. b == separator) text.now }
{
    memchr(separator, text)
}

// The text that an escaped text means; `None` if an escape in it is wrong.
fn undone(alloc: Global, text: &[u8]) -> Result<Option<Vec<u8>>, AllocError>
    ensures { IfOk result (λ found. option_map (λ v. v.items) found
        ≡ meaning_text (unescaped text.now)) }
{
    match ascii_unescape_default(alloc, text) {
        Ok(bytes) => Ok(Some(bytes)),
        Err(UtilError::Memory) => Err(AllocError),
        Err(_) => Ok(None),
    }
}

// The word that a part means; `None` if the part is empty or an escape in it is wrong.
#[tactic(auto, unfolding(crate::specs::ScriptWords::word))]
fn word(alloc: Global, part: &[u8]) -> Result<Option<Vec<u8>>, AllocError>
    ensures { IfOk result (λ found. option_map (λ v. v.items) found ≡ word part.now) }
{
    if part.is_empty() {
        return Ok(None);
    }
    undone(alloc, part)
}

/// Returns the next word of what is left of a line. It is `None` if nothing is left, and if the
/// word is empty or an escape in it is wrong.
#[tactic(auto, unfolding(crate::specs::ScriptWords::next_word))]
pub(crate) fn next_word<'a>(
    alloc: Global,
    rest: Option<&'a [u8]>,
) -> Result<Option<Taken<'a>>, AllocError>
    ensures { IfOk result (λ found.
        option_map (λ t. (t.word.items, option_map (λ r. r.now) t.rest)) found
        ≡ next_word (option_map (λ r. r.now) rest.entry)) }
{
    let Some(line) = rest else {
        return Ok(None);
    };
    let part = cut(b' ', line);
    match word(alloc, part.front)? {
        None => Ok(None),
        Some(word) => Ok(Some(Taken {
            word,
            rest: part.rest,
        })),
    }
}

/// Returns the text that is left of a line, which is empty if nothing is left. It is `None` if an
/// escape in the text is wrong.
#[tactic(auto, unfolding(crate::specs::ScriptWords::last_text))]
pub(crate) fn last_text(alloc: Global, rest: Option<&[u8]>) -> Result<Option<Vec<u8>>, AllocError>
    ensures { IfOk result (λ found. option_map (λ v. v.items) found
        ≡ last_text (option_map (λ r. r.now) rest.entry)) }
{
    match rest {
        None => Ok(Some(Vec::new(alloc))),
        Some(text) => undone(alloc, text),
    }
}

/// Returns all words that are left of a line. It is `None` if nothing is left, and if one of the
/// words is empty or an escape in it is wrong.
#[tactic(auto, unfolding(crate::specs::ScriptWords::words))]
pub(crate) fn words(alloc: Global, rest: Option<&[u8]>) -> Result<Option<Vec<Vec<u8>>>, AllocError>
    ensures { IfOk result (λ found. option_map (λ ws. lists_of ws.items) found
        ≡ words (option_map (λ r. r.now) rest.entry)) }
{
    match rest {
        None => Ok(None),
        Some(line) => words_in(alloc, line),
    }
}

// All words of a line.
#[tactic(auto, unfolding(crate::specs::ScriptWords::words))]
fn words_in(alloc: Global, line: &[u8]) -> Result<Option<Vec<Vec<u8>>>, AllocError>
    ensures { IfOk result (λ found. option_map (λ ws. lists_of ws.items) found
        ≡ words (Some line.now)) }
{
    let mut words = Vec::new(alloc);
    let mut left = Some(line);
    while let Some(line) = left {
        let Some(taken) = next_word(alloc, Some(line))? else {
            return Ok(None);
        };
        words.push(taken.word)?;
        left = taken.rest;
    }
    Ok(Some(words))
}
