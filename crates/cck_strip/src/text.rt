//! Base directories in preprocessed text.
ghost use Rattle.std.specs.Prelude.{◌≡◌, ◌≤◌, ◌<◌, ◌∷◌, [], IfOk, IfSome, IsOkUnless, map, length, nat_eq};
ghost use Rattle.std.specs.HashMap.{get};
ghost use Rattle.std.specs.Cow.{cow_slice_items, IsOwnedSlice};
ghost use Rattle.cck_strip.specs.Beginnings.{AllBegin, FirstsMarked};
ghost use Rattle.cck_strip.specs.Cuts.{Remains, stripped};
ghost use Rattle.cck_strip.specs.Endings.{ListsLengths};
ghost use Rattle.cck_strip.specs.Search.{Finds};
ghost use Rattle.cck_strip.specs.Text.{longest_prefix, stripped_text, text_site};
ghost use Rattle.cck_strip.specs.Trie.{IsTrie};

use crate::boundary::is_boundary;
use crate::cuts::{Search, Sites, cut_out};
use crate::endings::{listed_length, listed_lengths};
use crate::lanes::{lowest, word_marks};
use crate::search::{TextSearch, text_search};
use crate::trie::BasedirTrie;
use cck_digest::UtilError;
use memchr::memchr_iter;
use std::alloc::{AllocError, Global};
use std::borrow::CowSlice;
use std::collections::HashMap;

// The sites of a text: base directories at its start or after a separator.
#[derive(Drop)]
pub(crate) struct TextSites<'a> {
    pub(crate) text: &'a [u8],
    // What the trie is of. Only contracts read it.
    pub(crate) basedirs: &'a [Vec<u8>],
    pub(crate) trie: &'a BasedirTrie,
    // The lengths at boundaries, where the trie is not searched for them.
    pub(crate) listed: &'a Option<HashMap<usize, usize>>,
    ghost is_trie: { ∥ IsTrie trie.now (map (λ b. b.items) basedirs.now) ∥₁ },
    ghost is_listed: { ∥ IfSome listed.now (λ lengths. ListsLengths (λ k. get nat_eq lengths k) (map (λ b. b.items) basedirs.now) text.now) ∥₁ },
}

impl<'a> Sites for TextSites<'a> {
    ghost text = { λ s. s.text.now };

    ghost site = { λ s k. text_site (map (λ b. b.items) s.basedirs.now) s.text.now k };

    fn length_at(&self, at: usize) -> usize {
        if !is_boundary(self.text, at) {
            return 0;
        }
        match self.listed {
            Some(lengths) => listed_length(lengths, at),
            None => self.trie.longest_at(self.text, at),
        }
    }

    ghost use Rattle.cck_strip.specs.SiteLemmas.{text_site-within};

    ghost within = { λ s k h. text_site-within (map (λ b. b.items) s.basedirs.now) s.text.now k h };
}

// A search ends after this many bytes, so that they are still in the cache when they are copied.
const SEARCH_WINDOW: usize = 32768;

// The search of a text for a word with which all base directories begin.
#[derive(Drop)]
pub(crate) struct WordSearch<'a> {
    pub(crate) word: &'a [u8],
}

impl<'a, 'b> Search<TextSites<'b>> for WordSearch<'a> {
    ghost finds = { λ s t. (0 < length s.word.now) × AllBegin (map (λ b. b.items) t.basedirs.now) s.word.now };

    fn next_place(&self, sites: &TextSites<'b>, from: usize) -> Option<usize> {
        let text = sites.text;
        let end = from + (text.len() - from).min(SEARCH_WINDOW);
        let mut at = from;
        while end - at >= 64 + self.word.len() {
            let marks = word_marks(text, at, self.word);
            if marks == 0 {
                at += 64;
            } else {
                let place = at + lowest(marks);
                if is_boundary(text, place) {
                    return Some(place);
                }
                at = place + 1;
            }
        }
        // A site may start at each of the last places, of which there are fewer than 96.
        if at < text.len() {
            return Some(at);
        }
        None
    }
}

// The search of a text for a byte with which all base directories begin.
#[derive(Drop)]
pub(crate) struct ByteSearch {
    pub(crate) byte: u8,
}

impl<'b> Search<TextSites<'b>> for ByteSearch {
    ghost finds = { λ s t. AllBegin (map (λ b. b.items) t.basedirs.now) (s.byte ∷ []) };

    fn next_place(&self, sites: &TextSites<'b>, from: usize) -> Option<usize> {
        let mut distances = memchr_iter(self.byte, &sites.text[from..]);
        // Such a byte often occurs where no site may begin.
        while let Some(distance) = distances.next() {
            if is_boundary(sites.text, from + distance) {
                return Some(from + distance);
            }
        }
        None
    }
}

// The search of a text for the first bytes of base directories.
#[derive(Drop)]
pub(crate) struct FirstByteSearch {
    pub(crate) is_first: [bool; 256],
}

impl<'b> Search<TextSites<'b>> for FirstByteSearch {
    ghost finds = { λ s t. FirstsMarked (map (λ b. b.items) t.basedirs.now) s.is_first };

    fn next_place(&self, sites: &TextSites<'b>, from: usize) -> Option<usize> {
        let text = sites.text;
        for at in from..text.len() {
            if self.is_first[text[at] as usize] && is_boundary(text, at) {
                return Some(at);
            }
        }
        None
    }
}

// The text without its cuts, by a search of this kind.
fn sites_cut_out<'a>(
    alloc: Global,
    text: &'a [u8],
    sites: &TextSites<'_>,
    search: &TextSearch<'_>,
) -> Result<CowSlice<'a, u8>, AllocError>
    requires text_is { sites.now.text.now ≡ text.now }
    requires finds { Finds search.now (map (λ b. b.items) sites.now.basedirs.now) }
    ensures value { IfOk result (λ kept. cow_slice_items kept
        ≡ stripped (text_site (map (λ b. b.items) sites.now.basedirs.now) sites.now.text.now) text.now) }
    ensures remains { IfOk result (λ kept. Remains (text_site (map (λ b. b.items) sites.now.basedirs.now) sites.now.text.now)
        text.now (cow_slice_items kept) (IsOwnedSlice kept)) }
{
    match search {
        TextSearch::FirstBytes(search) => cut_out(alloc, text, sites, search),
        TextSearch::Byte(search) => cut_out(alloc, text, sites, search),
        TextSearch::Word(search) => cut_out(alloc, text, sites, search),
    }
}

/// Returns the text without the base directories at its start or directly after a space, a tab, a
/// line feed, a form feed, a carriage return, `"` or `<`. Bytes are compared exactly.
///
/// If several base directories are at one place, the longest is cut out. Bytes that are cut out are
/// not searched again, and neither are bytes that become adjacent: a place is judged by the bytes
/// before it in the text that was passed. An empty base directory is never cut out. The result
/// borrows the text exactly if nothing is cut out.
///
/// Upstream's `util::strip_basedirs`. The only error is [`UtilError::Memory`].
pub fn strip_basedirs<'a>(
    alloc: Global,
    text: &'a [u8],
    basedirs: &[Vec<u8>],
) -> Result<CowSlice<'a, u8>, UtilError>
    ensures value { IfOk result (λ kept. cow_slice_items kept ≡ stripped_text (map (λ b. b.items) basedirs.now) text.now) }
    ensures remains { IfOk result (λ kept. Remains (text_site (map (λ b. b.items) basedirs.now) text.now)
        text.now (cow_slice_items kept) (IsOwnedSlice kept)) }
    ensures errors { IsOkUnless result UtilError.Memory }
{
    let search = match text_search(basedirs) {
        Some(search) => search,
        None => return Ok(CowSlice::Borrowed(text)),
    };
    let trie = BasedirTrie::new(alloc, basedirs)?;
    let listed = listed_lengths(alloc, text, basedirs)?;
    let sites = TextSites {
        text,
        basedirs,
        trie: &trie,
        listed: &listed,
    };
    Ok(sites_cut_out(alloc, text, &sites, &search)?)
}
