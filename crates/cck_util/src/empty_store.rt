//! A store that keeps nothing.
ghost use Rattle.std.specs.Prelude.{◌≡◌};

use crate::store::{PreprocessorStore, StoreError, one_more};
use std::alloc::Global;
use std::marker::Model;

/// A store that keeps nothing, for a caller who wants keys and no cache of them. Each get finds
/// nothing, and each put fails, which is a store failure. No call takes memory.
#[derive(Debug, Drop)]
pub struct EmptyStore {
    failures: u64,
}

impl Model for EmptyStore {
    ghost use Rattle.std.specs.Prelude.{ℕ};

    ghost Value = { ℕ };

    ghost view = { λ a. a.failures };

    ghost inverse = { λ n. record { failures = n } };
}

impl EmptyStore {
    /// A store without a store failure so far.
    pub fn new() -> EmptyStore
        ensures { result ≡ 0 }
    {
        EmptyStore { failures: 0 }
    }
}

impl PreprocessorStore for EmptyStore {
    ghost use Rattle.cck_util.specs.EmptyStore.{empty_store};
    ghost use Rattle.cck_util.specs.EmptyLemmas.{empty_store_laws};

    ghost store = { empty_store };

    fn get_preprocessor_cache_entry(
        &mut self,
        _: Global,
        _: &str,
    ) -> Result<Option<Vec<u8>>, StoreError> {
        Ok(None)
    }

    fn put_preprocessor_cache_entry(
        &mut self,
        _: Global,
        _: &str,
        _: &[u8],
    ) -> Result<(), StoreError> {
        self.failures = one_more(self.failures);
        Err(StoreError::Fault)
    }

    ghost laws = { empty_store_laws };
}
