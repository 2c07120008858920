//! Entries.
ghost use Rattle.std.specs.Prelude.{◌≡◌, ◌∷◌, ◌||◌, ◌+◌, Err, IfErr, IfOk, List, OnErr, OnOk, ℕ, map, nat_lt};
ghost use Rattle.std.specs.FinMap.{empty, entries, len};
ghost use Rattle.std.specs.Io.KnownBytes.{Appends};
ghost use Rattle.std.specs.String.{string_bytes};
ghost use Rattle.cck_digest.specs.declared.error.UtilError.TheVariants as util;
ghost use Rattle.cck_include.specs.Include.{format_version, includes_in};
ghost use Rattle.cck_entry.specs.Entry.{Entry, EntryText, IsEntryOrMemory, Reads, added, include_count, is_over};
ghost use Rattle.cck_entry.specs.Reading.{IsOvercounted};
ghost use Rattle.cck_entry.specs.Results.{result_in};

use crate::results::{Results, copy_results, insert_counted};
use crate::writing::write_entry;
use crate::{EntryView, lent};
use cck_digest::Error;
use cck_include::IncludeEntry;
use std::alloc::Global;
use std::collections::BTreeMap;
use std::fmt::{Debug, Formatter};
use std::io::Write;
use std::marker::Model;

/// Results are cleared before another one is added when there are more than this number.
const MAX_PREPROCESSOR_CACHE_ENTRIES: usize = 100;

/// Results are cleared when their includes, with those to be added, are more than these.
const MAX_PREPROCESSOR_CACHE_FILE_INFO_ENTRIES: usize = 10_000;

/// An entry: a finite map from keys to the files that the result of each key included.
///
/// It is built by [`PreprocessorCacheEntry::add_result`] alone, or read from bytes.
///
/// Upstream's `preprocessor_cache::PreprocessorCacheEntry`.
pub struct PreprocessorCacheEntry {
    alloc: Global,
    /// How many includes all results have together.
    number_of_entries: usize,
    results: Results,
}

impl Drop for PreprocessorCacheEntry {
    fn drop(self) {
        let PreprocessorCacheEntry {
            alloc: _,
            number_of_entries: _,
            results: _,
        } = self;
    }
}

impl Model for PreprocessorCacheEntry {
    ghost use Rattle.std.specs.Prelude.{◌≡◌, map};
    ghost use Rattle.std.specs.BTreeMap.{IsOrdered};
    ghost use Rattle.std.specs.String.{string_cmp};
    ghost use Rattle.cck_entry.specs.Entry.{Entry, entry_code, entry_in, include_count};
    ghost use Rattle.cck_entry.specs.Results.{result_in};

    ghost Value = { Entry };

    ghost coded = { entry_code };

    ghost view = { λ a. entry_in a.results.entries };

    ghost invariant = { λ a. IsOrdered string_cmp a.results
        × (a.number_of_entries ≡ include_count (map result_in a.results.entries)) };
}

impl PreprocessorCacheEntry {
    /// Returns the entry without results. It takes its memory from this allocator.
    pub fn new(alloc: Global) -> PreprocessorCacheEntry
        ensures { result ≡ empty }
    {
        PreprocessorCacheEntry {
            alloc,
            number_of_entries: 0,
            results: BTreeMap::new(alloc),
        }
    }

    /// Returns the entry whose text these bytes are; for no bytes, the entry without results.
    ///
    /// The error is [`Error::UnknownFormat`] with the first byte if that is not 2, and
    /// [`Error::Deserialization`] if the bytes begin with 2 and are the text of no entry.
    /// [`Error::Memory`] says that memory is lacking. A count is compared with the remaining bytes
    /// before memory is taken for it: for a number of results that they can't hold the error is
    /// never [`Error::Memory`].
    pub fn read(alloc: Global, bytes: &[u8]) -> Result<PreprocessorCacheEntry, Error>
        ensures reads { Reads result bytes.now }
        ensures only { (e : Entry) → EntryText e bytes.now → IsEntryOrMemory e result }
        ensures counted { (rest : List ℕ) → bytes.now ≡ format_version ∷ rest → IsOvercounted rest
            → result ≡ Err Error.Deserialization }
    {
        match EntryView::read(alloc, bytes) {
            Ok(view) => copy_view(alloc, &view),
            Err(error) => Err(error),
        }
    }

    /// Writes the entry's text, the only one that it has.
    ///
    /// The only error is [`Error::Io`] with `UtilError::Write`, where the writer failed. How much
    /// was written before is not specified.
    pub fn serialize_to<W: Write>(&self, writer: &mut W) -> Result<(), Error>
        ensures text { OnOk result ((text : List ℕ) × EntryText self.now text
            × Appends (W.contents writer.old) (W.contents writer.new) text) }
        ensures err { IfErr result (λ e. e ≡ Error.Io util.Write) }
    {
        write_entry(writer, &self.results)
    }

    /// Returns the number of results.
    pub fn result_count(&self) -> usize
        ensures { result ≡ len self.now }
    {
        self.results.len()
    }

    /// Returns the number of includes of all results together, without iterating over them.
    pub fn number_of_entries(&self) -> usize
        ensures { result ≡ include_count (entries self.now) }
    {
        self.number_of_entries
    }

    /// Returns all results, in the order of their keys' bytes, for a caller that prints or compares
    /// them.
    pub fn results(&self) -> &BTreeMap<String, Vec<IncludeEntry>>
        ensures { entries self.now ≡ map result_in result.now.entries }
    {
        &self.results
    }

    /// The allocator that the entry takes its memory from.
    pub(crate) fn allocator(&self) -> Global {
        self.alloc
    }

    /// Returns a copy of the entry.
    ///
    /// The only error is [`Error::Memory`].
    pub fn copy(&self, alloc: Global) -> Result<PreprocessorCacheEntry, Error>
        ensures value { IfOk result (λ copy. copy ≡ self.now) }
        ensures err { IfErr result (λ e. e ≡ Error.Memory) }
    {
        let results = copy_results(alloc, &self.results)?;
        Ok(PreprocessorCacheEntry {
            alloc,
            number_of_entries: self.number_of_entries,
            results,
        })
    }

    /// Sets these includes as the result of a key, in place of the one that it had.
    ///
    /// All results are cleared first if there are more than 100, or if their includes and the new
    /// ones are more than 10000 together; the includes that the key had count too. So afterwards
    /// there are at most 101 results, and at most 10000 includes unless there is only one result.
    ///
    /// The only error is [`Error::Memory`], which leaves the entry unchanged.
    pub(crate) fn insert_result(
        &mut self,
        key: String,
        includes: Vec<IncludeEntry>,
    ) -> Result<(), Error>
        ensures ok { OnOk result (self.new
            ≡ added self.old (string_bytes key) (includes_in includes.items)) }
        ensures err { OnErr result (self.new ≡ self.old) }
        ensures memory { IfErr result (λ e. e ≡ Error.Memory) }
    {
        let count = includes.as_slice().len();
        if self.is_full(count) {
            // The new map is made before the old one is dropped, since memory may be lacking.
            let mut results = BTreeMap::new(self.alloc);
            insert_counted(&mut results, key, includes)?;
            self.results = results;
            self.number_of_entries = count;
            return Ok(());
        }
        let before = insert_counted(&mut self.results, key, includes)?;
        self.number_of_entries = self.number_of_entries + count - before;
        Ok(())
    }

    /// Returns whether the results are cleared before one with `more` includes is added.
    fn is_full(&self, more: usize) -> bool
        ensures { result ≡ is_over self.now more }
    {
        is_past_a_limit(self.result_count(), self.number_of_entries(), more)
    }
}

impl Debug for PreprocessorCacheEntry {
    fn fmt<W: std::fmt::Write>(&self, f: &mut Formatter<W>) -> std::fmt::Result {
        f.debug_struct("PreprocessorCacheEntry")
            .field("number_of_entries", &self.number_of_entries)
            .field("results", &self.results)
            .finish()
    }
}

impl PartialEq for PreprocessorCacheEntry {
    ghost use Rattle.cck_entry.specs.Equality.{entry_per, same_entry};

    ghost eq = { same_entry };

    ghost laws = { entry_per };

    fn eq(&self, other: &PreprocessorCacheEntry) -> bool {
        self.results == other.results
    }
}

impl Eq for PreprocessorCacheEntry {
    ghost use Rattle.cck_entry.specs.Equality.{entry_equiv};

    ghost laws = { entry_equiv };
}

/// Returns a copy of a view's entry.
fn copy_view(alloc: Global, view: &EntryView<'_>) -> Result<PreprocessorCacheEntry, Error>
    ensures value { IfOk result (λ copy. copy ≡ view.now) }
    ensures err { IfErr result (λ e. e ≡ Error.Memory) }
{
    let results = lent::copy_results(alloc, view.results())?;
    Ok(PreprocessorCacheEntry {
        alloc,
        number_of_entries: view.number_of_entries(),
        results,
    })
}

/// Returns whether there are too many results, or too many includes with those to be added.
fn is_past_a_limit(results: usize, includes: usize, more: usize) -> bool
    ensures { result ≡ (nat_lt 100 results || nat_lt 10000 (includes + more)) }
{
    results > MAX_PREPROCESSOR_CACHE_ENTRIES
        || includes.saturating_add(more) > MAX_PREPROCESSOR_CACHE_FILE_INFO_ENTRIES
}
