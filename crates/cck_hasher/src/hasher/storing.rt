//! Storing a computed key.
ghost use Rattle.cck_files.specs.Calls.{Keeps, Rose};
ghost use Rattle.cck_include.specs.Gathered.{digested_in};
ghost use Rattle.cck_hasher.specs.Storing.{IsPut};

use cck_digest::Error;
use cck_entry::PreprocessorCacheEntry;
use cck_files::Files;
use cck_path::Timestamp;
use cck_util::PreprocessorStore;
use std::alloc::{AllocError, Global};

/// Puts the entry of one result: a key, and the files that it was computed from.
///
/// Nothing is put where one of the files is missing or a fault occurred, and nothing after an error.
/// That the store couldn't put the entry is no error.
pub(super) fn put_result<F: Files, S: PreprocessorStore>(
    alloc: Global,
    files: &mut F,
    store: &mut S,
    at: &str,
    key: &str,
    included: &[(String, Vec<u8>)],
    moment: Timestamp,
) -> Result<(), AllocError>
    ensures keeps { Keeps F.file_map F.faults F.is_quiet files.old files.new }
    ensures put { IsPut S.store (F.file_map files.old) moment (digested_in included.now) at.now key.now
        (Rose (F.faults files.old) (F.faults files.new)) store.old result store.new }
{
    let mut entry = PreprocessorCacheEntry::new(alloc);
    match entry.add_result(files, moment, key, included) {
        Ok(()) => {}
        Err(Error::Io(_)) => return Ok(()),
        Err(_) => return Err(AllocError),
    }
    let mut bytes = Vec::new(alloc);
    match entry.serialize_to(&mut bytes) {
        Ok(()) => {}
        Err(_) => return Err(AllocError),
    }
    // Whether the put succeeds doesn't change the result.
    let _ = store.put_preprocessor_cache_entry(alloc, at, &bytes);
    Ok(())
}
