//! Entries that are borrowed from their bytes.
ghost use Rattle.std.specs.Prelude.{◌≡◌, ◌∷◌, Err, List, ℕ, map, true};
ghost use Rattle.std.specs.FinMap.{empty, entries, is_sorted, len};
ghost use Rattle.std.specs.List.{AllByRecursion};
ghost use Rattle.cck_path.specs.TextOrder.{text_cmp};
ghost use Rattle.cck_include.specs.Include.{format_version};
ghost use Rattle.cck_entry.specs.Entry.{Entry, EntryText, IsEntryOrMemory, IsReadFrom, Reads, include_count};
ghost use Rattle.cck_entry.specs.Lent.{IsWhole, result_lent};
ghost use Rattle.cck_entry.specs.Reading.{IsOvercounted};

use crate::lent::total;
use crate::reading::read_entry;
use crate::result_ref::ResultRef;
use cck_digest::Error;
use cck_include::FORMAT_VERSION;
use std::alloc::Global;
use std::fmt::{Debug, Formatter};
use std::marker::Model;

/// An entry borrowed from the bytes of its text. It holds the place of each result, and copies no
/// key, path or digest. It is for a look-up in bytes that a store returns; results are added to a
/// [`PreprocessorCacheEntry`](crate::PreprocessorCacheEntry), also those of a view.
#[derive(Drop)]
pub struct EntryView<'a> {
    /// How many includes all results have together.
    number_of_entries: usize,
    results: Vec<ResultRef<'a>>,
}

impl<'a> Model for EntryView<'a> {
    ghost use Rattle.cck_entry.specs.Entry.{Entry, entry_code};
    ghost use Rattle.cck_entry.specs.Lent.{IsView, entry_lent};

    ghost Value = { Entry };

    ghost coded = { entry_code };

    ghost view = { λ a. entry_lent a.results.items };

    ghost invariant = { λ a. IsView a.results.items a.number_of_entries };
}

impl<'a> EntryView<'a> {
    /// The view without results.
    fn new(alloc: Global) -> EntryView<'a>
        ensures { result ≡ empty }
    {
        EntryView {
            number_of_entries: 0,
            results: Vec::new(alloc),
        }
    }

    /// Returns the entry whose text these bytes are; for no bytes, the entry without results.
    ///
    /// It accepts the same bytes, and returns errors for the same causes, as
    /// [`PreprocessorCacheEntry::read`](crate::PreprocessorCacheEntry::read):
    /// [`Error::UnknownFormat`] with a first byte other than 2, [`Error::Deserialization`] if the
    /// bytes begin with 2 and are the text of no entry, and [`Error::Memory`] if memory is lacking.
    /// Memory is taken once, for the number of results that the bytes say, after this number was
    /// compared with the remaining bytes. If they can't hold it, or there is no byte, or the first
    /// is not 2, the error is never [`Error::Memory`].
    pub fn read(alloc: Global, bytes: &'a [u8]) -> Result<EntryView<'a>, Error>
        ensures reads { Reads result bytes.now }
        ensures only { (e : Entry) → EntryText e bytes.now → IsEntryOrMemory e result }
        ensures counted { (rest : List ℕ) → bytes.now ≡ format_version ∷ rest → IsOvercounted rest
            → result ≡ Err Error.Deserialization }
        ensures memory { result ≡ Err Error.Memory → (rest : List ℕ) × (bytes.now ≡ format_version ∷ rest) × (IsOvercounted rest → ⊥) }
    {
        let Some((version, rest)) = bytes.split_first() else {
            return Ok(EntryView::new(alloc));
        };
        if *version != FORMAT_VERSION {
            return Err(Error::UnknownFormat(*version));
        }
        read_body(alloc, rest)
    }

    /// Returns the number of results.
    pub fn result_count(&self) -> usize
        ensures { result ≡ len self.now }
    {
        self.results.len()
    }

    /// Returns the number of includes of all results together, without iterating over them.
    pub fn number_of_entries(&self) -> usize
        ensures { result ≡ include_count (entries self.now) }
    {
        self.number_of_entries
    }

    /// Returns the results, in the order of their keys' bytes.
    pub fn results(&self) -> &[ResultRef<'a>]
        ensures entries { entries self.now ≡ map result_lent result.now }
        ensures ascend { is_sorted text_cmp (map result_lent result.now) ≡ true }
    {
        &self.results
    }
}

impl Debug for EntryView<'_> {
    fn fmt<W: std::fmt::Write>(&self, f: &mut Formatter<W>) -> std::fmt::Result {
        f.debug_struct("EntryView")
            .field("number_of_entries", &self.number_of_entries)
            .field("result_count", &self.results.len())
            .finish()
    }
}

/// Returns the entry of the bytes after the format.
fn read_body(alloc: Global, rest: &[u8]) -> Result<EntryView<'_>, Error>
    ensures read { IsReadFrom rest.now result }
    ensures counted { IsOvercounted rest.now → result ≡ Err Error.Deserialization }
{
    match read_entry(alloc, rest) {
        Ok(results) => Ok(EntryView {
            number_of_entries: total(&results),
            results,
        }),
        Err(error) => Err(error),
    }
}
