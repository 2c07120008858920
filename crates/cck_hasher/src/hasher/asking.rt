//! The look-up of a key in the store. Nothing here takes a compiler.
ghost use Rattle.std.specs.Prelude.{◌≡◌, IfErr, List, Some, option_map, ℕ};
ghost use Rattle.cck_files.specs.Calls.{Keeps, Rose};
ghost use Rattle.cck_entry.specs.Matching.{matches};
ghost use Rattle.cck_hasher.specs.Asking.{AsksBy, IsFoundBy, asked_of};
ghost use Rattle.cck_hasher.specs.Conditions.{given_of, setting_under};
ghost use Rattle.cck_hasher.specs.Opening.{text_of};
ghost use Rattle.cck_hasher.specs.Reasons.{IsStoreReason};

use super::opening::Opening;
use crate::call::CacheControl;
use crate::conditions::Conditions;
use crate::errors::entry_error;
use cck_compiler::KeyError;
use cck_digest::HashState;
use cck_entry::EntryView;
use cck_files::Files;
use cck_util::{PreprocessorStore, StoreError};
use std::alloc::Global;

/// Returns the stored key that matches, if there is one. The store is asked if there is a
/// preprocessor key and a stored key may be returned.
///
/// It takes no compiler, so it can't preprocess: the result depends on the files, the store and the
/// conditions alone.
pub(super) fn find<H: HashState, F: Files, S: PreprocessorStore>(
    alloc: Global,
    files: &mut F,
    store: &mut S,
    opening: &Opening,
    conditions: &Conditions<'_>,
) -> Result<Option<String>, KeyError>
    ensures keeps { Keeps F.file_map F.faults F.is_quiet files.old files.new }
    ensures found { IsFoundBy S.store (option_map text_of opening.now.key) conditions.now.control
        (matches (setting_under H.hash (given_of conditions.now)) (F.file_map files.old))
        (Rose (F.faults files.old) (F.faults files.new)) store.old (asked_of result) store.new }
    ensures reason { IfErr result (λ e. (k : List ℕ) × (option_map text_of opening.now.key ≡ Some k)
        × IsStoreReason S.store k store.old store.new e) }
{
    let Some(at) = &opening.key else {
        return Ok(None);
    };
    match conditions.control {
        CacheControl::Default => {
            ask::<H, F, S>(alloc, files, store, at.text.as_str(), conditions)
        }
        CacheControl::ForceRecache => Ok(None),
    }
}

// Asks the store under a key, and returns the key that the returned entry has for these files, if
// there is one.
fn ask<H: HashState, F: Files, S: PreprocessorStore>(
    alloc: Global,
    files: &mut F,
    store: &mut S,
    at: &str,
    conditions: &Conditions<'_>,
) -> Result<Option<String>, KeyError>
    ensures keeps { Keeps F.file_map F.faults F.is_quiet files.old files.new }
    ensures asks { AsksBy S.store (matches (setting_under H.hash (given_of conditions.now)) (F.file_map files.old))
        (Rose (F.faults files.old) (F.faults files.new)) at.now store.old (asked_of result) store.new }
    ensures reason { IfErr result (IsStoreReason S.store at.now store.old store.new) }
{
    let bytes = match store.get_preprocessor_cache_entry(alloc, at) {
        Ok(Some(bytes)) => bytes,
        Ok(None) => return Ok(None),
        Err(StoreError::Fault) => return Err(KeyError::Store),
        Err(StoreError::Memory) => return Err(KeyError::Memory),
    };
    let view = match EntryView::read(alloc, &bytes) {
        Ok(view) => view,
        Err(error) => return Err(entry_error(error)),
    };
    let found = match view.lookup_result_digest::<H, F>(
        alloc,
        files,
        conditions.moment,
        conditions.zone,
        conditions.vars,
        conditions.config,
    ) {
        Ok(found) => found,
        Err(_) => return Err(KeyError::Memory),
    };
    match found {
        Some(key) => Ok(Some(String::from_str(alloc, key)?)),
        None => Ok(None),
    }
}
