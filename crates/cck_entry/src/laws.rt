//! Laws about the definitions. Each is the contract of a function that does nothing.
ghost use Rattle.std.specs.Prelude.{◌≡◌, ◌↔◌, IsTrue};
ghost use Rattle.cck_entry.specs.Entry.{Entry};
ghost use Rattle.cck_entry.specs.Find.{GreatestIsFound};
ghost use Rattle.cck_entry.specs.Laws.{AddedIsLimited, AddedToAllOrNothing, OneTextOneEntry};

use crate::PreprocessorCacheEntry;
pub use cck_digest::laws::error_equality_is_exact;
pub use cck_include::laws::{
    dates_of_days, equal_digests_tell, equal_parts_tell, include_entry_equality_is_exact, one_day,
    one_second, parts_exist, preprocessor_cache_mode_config_equality_is_exact, recorded_has_length,
};

/// Texts of entries are equal exactly if the entries are: no entry has two texts, and no bytes are
/// the text of two entries.
pub fn one_text_one_entry()
    ensures { OneTextOneEntry }
{}

/// A result is added to the empty entry if the entry has more than 100 results, or would have more
/// than 10000 includes with the new ones; otherwise it is added to the entry itself.
pub fn added_to_all_or_nothing()
    ensures { AddedToAllOrNothing }
{}

/// After a result was added, there are at most 101 results, and at most 10000 includes unless there
/// is only one result.
pub fn added_is_limited()
    ensures { AddedIsLimited }
{}

/// Two values of [`PreprocessorCacheEntry`] are equal exactly if they are the same map.
pub fn preprocessor_cache_entry_equality_is_exact()
    ensures { (a b : Entry) → IsTrue (⟦<PreprocessorCacheEntry as PartialEq>⟧.eq a b) ↔ (a ≡ b) }
{}

/// A look-up finds the greatest key whose includes all match, and none only if no key's includes
/// do.
pub fn greatest_is_found()
    ensures { GreatestIsFound }
{}
