//! Results that are added to entries that a store held.
ghost use Rattle.std.specs.Prelude.{◌≡◌, ◌≢◌, ◌∷◌, [], IfOk, MatchOption, length, string_bytes};
ghost use Rattle.std.specs.FinMap.{empty, insert};
ghost use Rattle.cck_entry.specs.Entry.{EntryText, added};
ghost use Rattle.cck_entry.specs.Lent.{result_lent};
ghost use Rattle.c_cache_keys.specs.Additions.{IsAddition, IsNoEntry};
ghost use Rattle.c_cache_keys.specs.SnapshotLaws.{HasOneResult};

use crate::recordings::RecordedEntry;
use cck_digest::Error;
use cck_entry::{EntryView, PreprocessorCacheEntry, ResultRef};
use std::alloc::{AllocError, Global};

/// Adds the result of a recorded entry to the entry that a store held under the same preprocessor key.
///
/// Returns the entry to be put: the held one with the result, within the limits of
/// [`add_result`](cck_entry::PreprocessorCacheEntry::add_result). If the held bytes are the text of no
/// entry, as no bytes are, the recorded entry is returned as it is. So is one that has more results or
/// none; [`record_text`](crate::record_text) gives no such entry.
///
/// The only error is lack of memory.
pub fn add_to_entry(
    alloc: Global,
    held: &[u8],
    recorded: RecordedEntry,
) -> Result<RecordedEntry, AllocError>
    ensures key { IfOk result (λ entry. string_bytes entry.preprocessor_key ≡ string_bytes recorded.preprocessor_key) }
    ensures added { IfOk result (λ entry. IsAddition held.now recorded.bytes.items entry.bytes.items) }
{
    match added_text(alloc, held, &recorded.bytes)? {
        Some(bytes) => Ok(RecordedEntry {
            preprocessor_key: recorded.preprocessor_key,
            bytes,
        }),
        None => Ok(recorded),
    }
}

// The text of the held entry with the one result of another, or `None` where the held bytes are no entry
// or the other has not one result.
fn added_text(alloc: Global, held: &[u8], one: &[u8]) -> Result<Option<Vec<u8>>, AllocError>
    ensures { IfOk result (λ text. MatchOption text (IsAddition held.now one.now one.now) (λ bytes. IsAddition held.now one.now bytes.items)) }
{
    let Some(lent) = one_result(alloc, one)? else {
        return Ok(None);
    };
    let Some(mut entry) = held_entry(alloc, held)? else {
        return Ok(None);
    };
    match entry.add_lent(&lent) {
        Ok(()) => {}
        Err(_) => return Err(AllocError),
    }
    Ok(Some(text_of(alloc, &entry)?))
}

// The result of an entry of one result, or `None` where the bytes are no such entry.
fn one_result(alloc: Global, bytes: &[u8]) -> Result<Option<ResultRef<'_>>, AllocError>
    ensures { IfOk result (λ found. MatchOption found (HasOneResult bytes.now → ⊥)
        (λ lent. EntryText (insert empty (result_lent lent).0 (result_lent lent).1) bytes.now)) }
{
    let view = match EntryView::read(alloc, bytes) {
        Ok(view) => view,
        Err(Error::Memory) => return Err(AllocError),
        Err(_) => return Ok(None),
    };
    Ok(only(view.results()))
}

// The one element of a slice, or `None` where it has another length.
#[tactic(auto, using(crate::proofs::AdditionTexts::one_element))]
fn only<'a>(results: &[ResultRef<'a>]) -> Option<ResultRef<'a>>
    ensures { MatchOption result (length results.now ≢ 1) (λ lent. results.now ≡ lent ∷ []) }
{
    match results {
        [lent] => Some(*lent),
        _ => None,
    }
}

// The entry whose text the bytes are, or `None` where they are no entry.
fn held_entry(alloc: Global, bytes: &[u8]) -> Result<Option<PreprocessorCacheEntry>, AllocError>
    ensures { IfOk result (λ found. MatchOption found (IsNoEntry bytes.now) (λ entry. EntryText entry bytes.now)) }
{
    if bytes.is_empty() {
        return Ok(None);
    }
    match PreprocessorCacheEntry::read(alloc, bytes) {
        Ok(entry) => Ok(Some(entry)),
        Err(Error::Memory) => Err(AllocError),
        Err(_) => Ok(None),
    }
}

// The text of an entry.
fn text_of(alloc: Global, entry: &PreprocessorCacheEntry) -> Result<Vec<u8>, AllocError>
    ensures { IfOk result (λ text. EntryText entry.now text.items) }
{
    let mut text = Vec::new(alloc);
    match entry.serialize_to(&mut text) {
        Ok(()) => Ok(text),
        Err(_) => Err(AllocError),
    }
}
