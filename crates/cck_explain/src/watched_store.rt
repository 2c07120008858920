//! A store that keeps what is asked of it.
ghost use Rattle.std.specs.Prelude.{◌≡◌};

use cck_util::{MapStore, PreprocessorStore, StoreError};
use std::alloc::{AllocError, Global};
use std::marker::Model;
use std::mem;

/// A get or a put of a store, and its result.
pub enum WatchedCall {
    /// A get under this key, and the bytes that it returned, if there were any.
    Get {
        /// The key.
        key: String,
        /// What was returned.
        returned: Result<Option<Vec<u8>>, StoreError>,
    },
    /// A put under this key.
    Put {
        /// The key.
        key: String,
        /// What was returned.
        returned: Result<(), StoreError>,
    },
}

impl Drop for WatchedCall {
    fn drop(self) {
        match self {
            WatchedCall::Get {
                key: _,
                returned: _,
            }
            | WatchedCall::Put {
                key: _,
                returned: _,
            } => {}
        }
    }
}

// A copy of what a get returned.
fn copy_of(
    alloc: Global,
    returned: &Result<Option<Vec<u8>>, StoreError>,
) -> Result<Result<Option<Vec<u8>>, StoreError>, AllocError> {
    match returned {
        Ok(Some(bytes)) => Ok(Ok(Some(bytes.to_vec(alloc)?))),
        Ok(None) => Ok(Ok(None)),
        Err(error) => Ok(Err(*error)),
    }
}

/// A store in memory that passes each call on to a [`MapStore`], and keeps the calls and their results
/// until they are taken. Its value is that of the `MapStore`.
pub struct WatchedStore {
    store: MapStore,
    calls: Vec<WatchedCall>,
    // Whether memory was lacking for one of the calls.
    is_short: bool,
}

impl Drop for WatchedStore {
    fn drop(self) {
        let WatchedStore {
            store: _,
            calls: _,
            is_short: _,
        } = self;
    }
}

impl Model for WatchedStore {
    ghost use Rattle.cck_util.specs.MapStore.{State, coded_map_state};

    ghost Value = { State };

    ghost coded = { coded_map_state };

    ghost view = { λ a. a.store };
}

impl WatchedStore {
    /// The store, watched from now on. It allocates no memory.
    pub fn new(alloc: Global, store: MapStore) -> WatchedStore
        ensures { result ≡ store }
    {
        WatchedStore {
            store,
            calls: Vec::new(alloc),
            is_short: false,
        }
    }

    /// Takes the calls since they were last taken, in their order, and returns them.
    ///
    /// The error says that memory was lacking for one of them.
    pub fn take_calls(&mut self, alloc: Global) -> Result<Vec<WatchedCall>, AllocError>
        ensures { self.new ≡ self.old }
    {
        if self.is_short {
            return Err(AllocError);
        }
        Ok(mem::replace(&mut self.calls, Vec::new(alloc)))
    }

    // Keeps a get.
    fn keep_get(
        &mut self,
        alloc: Global,
        key: &str,
        returned: &Result<Option<Vec<u8>>, StoreError>,
    ) -> Result<(), AllocError>
        ensures { self.new ≡ self.old }
    {
        let key = String::from_str(alloc, key)?;
        let returned = copy_of(alloc, returned)?;
        self.calls.push(WatchedCall::Get { key, returned })?;
        Ok(())
    }

    // Keeps a put.
    fn keep_put(
        &mut self,
        alloc: Global,
        key: &str,
        returned: Result<(), StoreError>,
    ) -> Result<(), AllocError>
        ensures { self.new ≡ self.old }
    {
        let key = String::from_str(alloc, key)?;
        self.calls.push(WatchedCall::Put { key, returned })?;
        Ok(())
    }
}

impl PreprocessorStore for WatchedStore {
    ghost use Rattle.cck_util.specs.MapStore.{map_store};
    ghost use Rattle.cck_util.specs.MapLemmas.{map_store_laws};

    ghost store = { map_store };

    fn get_preprocessor_cache_entry(
        &mut self,
        alloc: Global,
        key: &str,
    ) -> Result<Option<Vec<u8>>, StoreError> {
        let returned = self.store.get_preprocessor_cache_entry(alloc, key);
        if self.keep_get(alloc, key, &returned).is_err() {
            self.is_short = true;
        }
        returned
    }

    fn put_preprocessor_cache_entry(
        &mut self,
        alloc: Global,
        key: &str,
        bytes: &[u8],
    ) -> Result<(), StoreError> {
        let returned = self.store.put_preprocessor_cache_entry(alloc, key, bytes);
        if self.keep_put(alloc, key, returned).is_err() {
            self.is_short = true;
        }
        returned
    }

    ghost laws = { map_store_laws };
}
