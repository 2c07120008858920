//! The choice of a search of a text for base directories.
ghost use Rattle.std.specs.Prelude.{MatchOption, map};
ghost use Rattle.cck_strip.specs.Beginnings.{AllEmpty};
ghost use Rattle.cck_strip.specs.Search.{Finds};

use crate::beginnings::{common_beginning, first_bytes};
use crate::text::{ByteSearch, FirstByteSearch, WordSearch};

/// A search of a text for what base directories begin with. Who calls it matches on it once, so that
/// each loop over a text has one search.
#[derive(Drop)]
pub(crate) enum TextSearch<'a> {
    FirstBytes(FirstByteSearch),
    Byte(ByteSearch),
    Word(WordSearch<'a>),
}

/// Returns the search for the longest word with which all these base directories begin, or for their
/// first bytes if they begin with no common one. `None` if all are empty.
pub(crate) fn text_search<'a>(basedirs: &'a [Vec<u8>]) -> Option<TextSearch<'a>>
    ensures { MatchOption result (AllEmpty (map (λ b. b.items) basedirs.now))
        (λ search. Finds search (map (λ b. b.items) basedirs.now)) }
{
    let word = match common_beginning(basedirs) {
        Some(word) => word,
        None => return None,
    };
    if word.is_empty() {
        let is_first = first_bytes(basedirs);
        return Some(TextSearch::FirstBytes(FirstByteSearch { is_first }));
    }
    if word.len() == 1 {
        return Some(TextSearch::Byte(ByteSearch { byte: word[0] }));
    }
    Some(TextSearch::Word(WordSearch { word }))
}
