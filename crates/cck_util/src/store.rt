//! Stores of entries.
ghost use Rattle.std.specs.Prelude.{◌≡◌};
ghost use Rattle.cck_util.specs.Store.{more};

use std::alloc::Global;
use thiserror::Error;

/// The error of a call on a store.
#[derive(Debug, Copy, Clone, PartialEq, Eq, Error)]
pub enum StoreError {
    /// The store failed.
    #[error("the store failed")]
    Fault,
    /// Memory is lacking.
    #[error("out of memory")]
    Memory,
}

/// A store of entries by their keys. It may lose entries, fail and run out of memory.
///
/// A store is described by what it holds, pairs of a key and bytes, and by a count of *store
/// failures*. The count has 64 bits and stays at its greatest value. Each implementation states
/// what its two calls do. For every store it is proved that
///
/// - what is returned was held under its key, and what is held afterwards was held before or is
///   what is put;
/// - the count is below 2^64 and never falls, and an error raises it or finds it at its greatest
///   value;
/// - if the count didn't rise, nothing is lost: nothing is held under a key for which `None`
///   was returned, and a put leaves its bytes under its key, and no others.
pub trait PreprocessorStore {
    ghost use Rattle.cck_util.specs.Store.{Store, StoreLaws, returned_by};

    // What is held, the number of store failures, and what the calls do.
    ghost store: { Store Self };

    /// Returns the bytes under a key, or `None`.
    ///
    /// The errors are [`StoreError::Fault`] and [`StoreError::Memory`]. After an error what is held
    /// was held before.
    fn get_preprocessor_cache_entry(
        &mut self,
        alloc: Global,
        key: &str,
    ) -> Result<Option<Vec<u8>>, StoreError>
        ensures { store.got self.old key.now (returned_by result) self.new };

    /// Puts bytes under a key, in place of those that are held there.
    ///
    /// The errors are [`StoreError::Fault`] and [`StoreError::Memory`]. The bytes may be held even
    /// after an error.
    fn put_preprocessor_cache_entry(
        &mut self,
        alloc: Global,
        key: &str,
        bytes: &[u8],
    ) -> Result<(), StoreError>
        ensures { store.put self.old key.now bytes.now result self.new };

    // The laws of these calls.
    ghost laws: { StoreLaws store };
}

/// Returns a count plus one, and `u64::MAX` for `u64::MAX`.
///
/// This is how the stores of this crate count a store failure, and a store of another crate can
/// count its failures so too. The number is that of `u64::saturating_add`, whose contract does not
/// say it in the words of the laws of stores. It allocates no memory.
#[tactic(auto, unfolding(crate::specs::Store::more))]
pub fn one_more(count: u64) -> u64
    ensures { result ≡ more count }
{
    if count < u64::MAX { count + 1 } else { count }
}
