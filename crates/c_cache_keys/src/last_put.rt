//! What a call puts into a store.
ghost use Rattle.std.specs.Prelude.{◌≡◌, IfOk, None, Some};
ghost use Rattle.c_cache_keys.specs.LastPut.{put_of};
ghost use Rattle.c_cache_keys.specs.Recordings.{entry_pair};

use crate::recordings::RecordedEntry;
use cck_util::{PreprocessorStore, StoreError};
use std::alloc::{AllocError, Global};
use std::marker::Model;

/// A store that holds nothing and keeps the pair that was put last, or notes that memory was lacking
/// for it. Its count of store failures is always the greatest: each get finds nothing, whatever was put.
#[derive(Drop)]
pub(crate) struct LastPut {
    put: Result<Option<RecordedEntry>, AllocError>,
}

impl Model for LastPut {
    ghost use Rattle.std.specs.Prelude.{ℕ, List, Option};
    ghost use Rattle.c_cache_keys.specs.LastPut.{put_of};

    ghost Value = { Option (Option (List ℕ × List ℕ)) };

    ghost view = { λ a. put_of a.put };
}

impl LastPut {
    /// A store into which nothing was put yet.
    pub(crate) fn new() -> LastPut
        ensures { result ≡ Some None }
    {
        LastPut { put: Ok(None) }
    }

    /// What was put last, if something was.
    pub(crate) fn into_entry(self) -> Result<Option<RecordedEntry>, AllocError>
        ensures { put_of result ≡ self }
    {
        self.put
    }
}

impl PreprocessorStore for LastPut {
    ghost use Rattle.c_cache_keys.specs.LastPut.{last_put, last_put_laws};

    ghost store = { last_put };

    fn get_preprocessor_cache_entry(
        &mut self,
        _: Global,
        _: &str,
    ) -> Result<Option<Vec<u8>>, StoreError> {
        Ok(None)
    }

    fn put_preprocessor_cache_entry(
        &mut self,
        alloc: Global,
        key: &str,
        bytes: &[u8],
    ) -> Result<(), StoreError> {
        match copy_entry(alloc, key, bytes) {
            Ok(entry) => {
                self.put = Ok(Some(entry));
                Ok(())
            }
            Err(error) => {
                self.put = Err(error);
                Err(StoreError::Memory)
            }
        }
    }

    ghost laws = { last_put_laws };
}

// A copy of an entry with its key.
fn copy_entry(alloc: Global, key: &str, bytes: &[u8]) -> Result<RecordedEntry, AllocError>
    ensures { IfOk result (λ entry. entry_pair entry ≡ (key.now, bytes.now)) }
{
    Ok(RecordedEntry {
        preprocessor_key: String::from_str(alloc, key)?,
        bytes: bytes.to_vec(alloc)?,
    })
}
