//! A store in memory.
ghost use Rattle.std.specs.Prelude.{◌≡◌, ◌==◌, [], if◌then◌else◌, OnErr, OnOk};
ghost use Rattle.std.specs.FinMap.Entries.{find, put};
ghost use Rattle.std.specs.Option.{option_map};
ghost use Rattle.cck_files.specs.ArmedCalls.{fails};
ghost use Rattle.cck_path.specs.TextOrder.{text_cmp};
ghost use Rattle.cck_util.specs.MapStore.{call_begun, empty_state, count_failure};
ghost use Rattle.cck_util.specs.Store.{more};

use crate::store::{PreprocessorStore, StoreError, one_more};
use cck_files::ArmedCalls;
use std::alloc::{AllocError, Global};
use std::collections::BTreeMap;
use std::marker::Model;

/// A store in memory: under each key it keeps what was put last.
///
/// One of its next gets and puts may be armed to lose all that is held when it begins. One, or all
/// from one on, may be armed to fail. Each of these counts as a store failure, and so does lack of
/// memory; nothing else does. The count of store failures is a `u64` and stays at `u64::MAX`.
#[derive(Debug)]
pub struct MapStore {
    alloc: Global,
    pairs: BTreeMap<String, Vec<u8>>,
    failures: u64,
    forget: u64,
    armed: ArmedCalls,
}

impl Drop for MapStore {
    fn drop(self) {
        let MapStore {
            alloc: _,
            pairs: _,
            failures: _,
            forget: _,
            armed: _,
        } = self;
    }
}

impl Model for MapStore {
    ghost use Rattle.std.specs.Prelude.{map};
    ghost use Rattle.std.specs.BTreeMap.{IsOrdered};
    ghost use Rattle.std.specs.String.{string_cmp};
    ghost use Rattle.cck_util.specs.MapStore.{State, coded_map_state, stored_pair};

    ghost Value = { State };

    ghost coded = { coded_map_state };

    ghost view = { λ a. record { pairs = map stored_pair a.pairs.entries; failures = a.failures; forget = a.forget; armed = a.armed } };

    ghost invariant = { λ a. IsOrdered string_cmp a.pairs };
}

impl MapStore {
    /// A store that holds nothing, without a store failure so far, and with no call armed. It keeps
    /// the allocator, and allocates no memory.
    pub fn new(alloc: Global) -> MapStore
        ensures { result ≡ empty_state }
    {
        MapStore {
            alloc,
            pairs: BTreeMap::new(alloc),
            failures: 0,
            forget: 0,
            armed: ArmedCalls::new(),
        }
    }

    /// The bytes that are held under a key, if there are any. This is no get, and allocates no memory.
    pub fn held(&self, key: &str) -> Option<&[u8]>
        ensures { option_map (λ b. b.now) result ≡ find text_cmp key.now self.now.pairs }
    {
        match self.pairs.get(key) {
            Some(bytes) => Some(bytes.as_slice()),
            None => None,
        }
    }

    /// Arms the nth of the next gets and puts, counted from 1, to lose all that is held when it
    /// begins. It replaces what this method armed before, and 0 arms none.
    pub fn forget_at(&mut self, n: u64)
        ensures { self.new ≡ record self.old { forget = n } }
    {
        self.forget = n;
    }

    /// Arms the nth of the next gets and puts, counted from 1, to return [`StoreError::Fault`]; it
    /// then returns no bytes and puts nothing. This arms one call, beside what
    /// [`fail_after`](MapStore::fail_after) arms. It replaces what this method armed before, and 0
    /// arms none. A call that is also armed to lose all that is held does that first.
    pub fn fail_at(&mut self, n: u64)
        ensures { self.new ≡ record self.old { armed = record self.old.armed { one = n } } }
    {
        self.armed.fail_at(n);
    }

    /// Arms the nth of the next gets and puts, counted from 1, and all after it, to return
    /// [`StoreError::Fault`]; they then return no bytes and put nothing. This is beside what
    /// [`fail_at`](MapStore::fail_at) arms. It replaces what this method armed before, and 0 arms
    /// none. A call that is also armed to lose all that is held does that first.
    pub fn fail_after(&mut self, n: u64)
        ensures { self.new ≡ record self.old { armed = record self.old.armed { onward = n } } }
    {
        self.armed.fail_after(n);
    }

    /// The number of gets and puts so far. It stays at `u64::MAX`.
    pub fn calls(&self) -> u64
        ensures { result ≡ self.now.armed.calls }
    {
        self.armed.calls()
    }

    // Holds a copy of these bytes under a key, in place of those that it has.
    fn keep(&mut self, key: &str, bytes: &[u8]) -> Result<(), AllocError>
        ensures kept { OnOk result (self.new ≡ record self.old {
          pairs = put text_cmp key.now bytes.now self.old.pairs;
        }) }
        ensures errors { OnErr result (self.new ≡ self.old) }
    {
        let key = String::from_str(self.alloc, key)?;
        let bytes = bytes.to_vec(self.alloc)?;
        match self.pairs.insert(key, bytes) {
            Ok(_) => Ok(()),
            Err(_) => Err(AllocError),
        }
    }

    // Counts a store failure.
    fn count_failure(&mut self)
        ensures { self.new ≡ count_failure self.old }
    {
        self.failures = one_more(self.failures);
    }

    // Loses all that is held, if the call that begins is armed to.
    fn forget_if_armed(&mut self)
        ensures { self.new ≡ record self.old {
          pairs = if self.old.forget == 1 then [] else self.old.pairs;
          failures = if self.old.forget == 1 then more self.old.failures else self.old.failures;
        } }
    {
        if self.forget == 1 {
            self.pairs.clear();
            self.count_failure();
        }
    }

    // Begins a get or a put, and returns whether it fails.
    fn begin(&mut self) -> bool
        ensures fails { result ≡ fails self.old.armed }
        ensures after { self.new ≡ (if fails self.old.armed then count_failure (call_begun self.old) else call_begun self.old) }
    {
        self.forget_if_armed();
        self.forget = self.forget.saturating_sub(1);
        let fails = self.armed.begin();
        if fails {
            self.count_failure();
        }
        fails
    }
}

impl PreprocessorStore for MapStore {
    ghost use Rattle.cck_util.specs.MapStore.{map_store};
    ghost use Rattle.cck_util.specs.MapLemmas.{map_store_laws};

    ghost store = { map_store };

    fn get_preprocessor_cache_entry(
        &mut self,
        alloc: Global,
        key: &str,
    ) -> Result<Option<Vec<u8>>, StoreError> {
        if self.begin() {
            return Err(StoreError::Fault);
        }
        let Some(bytes) = self.held(key) else {
            return Ok(None);
        };
        match bytes.to_vec(alloc) {
            Ok(copy) => Ok(Some(copy)),
            Err(_) => {
                self.count_failure();
                Err(StoreError::Memory)
            }
        }
    }

    fn put_preprocessor_cache_entry(
        &mut self,
        alloc: Global,
        key: &str,
        bytes: &[u8],
    ) -> Result<(), StoreError> {
        if self.begin() {
            return Err(StoreError::Fault);
        }
        if self.keep(key, bytes).is_err() {
            self.count_failure();
            return Err(StoreError::Memory);
        }
        Ok(())
    }

    ghost laws = { map_store_laws };
}
