//! A map keyed by paths.
ghost use Rattle.std.specs.Prelude.{◌≡◌, ◌==◌, IsOk, IsOkUnless, OnErr, OnOk, map, true};
ghost use Rattle.std.specs.FinMap as finite;
ghost use Rattle.std.specs.Option.{option_copied};
ghost use Rattle.cck_path.specs.Path.{components};
ghost use Rattle.cck_path.specs.Entries.{entries_left};
ghost use Rattle.cck_path.specs.PathMap.{pair_of, part_from};

use crate::blocks::{insert_at, remove_at, search};
use crate::entries::{Entries, entries_at};
use cck_digest::UtilError;
use std::alloc::Global;
use std::marker::Model;

/// A path of a [`PathMap`] and its value.
#[derive(Debug, Drop)]
pub struct Entry<V> {
    /// The path, as it was written when it was inserted first. Contracts state its components
    /// alone; a test checks the spelling.
    pub path: Vec<u8>,
    /// Its value.
    pub value: V,
}

/// A map from paths to values, in which paths are compared by their components alone.
///
/// With n paths a look-up compares about log n of them. A new path and a removal also move entries
/// of one block, which has at most 128 unless there was no memory to split it, and sometimes the
/// list of blocks.
#[derive(Debug)]
pub struct PathMap<V> {
    alloc: Global,
    count: usize,
    blocks: Vec<Vec<Entry<V>>>,
}

impl<V: Drop> Drop for PathMap<V> {
    fn drop(self) {
        let PathMap {
            alloc: _,
            count: _,
            blocks: _,
        } = self;
    }
}

impl<V> Model for PathMap<V> {
    ghost use Rattle.std.specs.Prelude.{◌≡◌, length, map};
    ghost use Rattle.std.specs.FinMap.{FinMap, from_sorted};
    ghost use Rattle.cck_path.specs.Path.{path_cmp};
    ghost use Rattle.cck_path.specs.Blocks.{AreOrderedBlocks, entries_of};
    ghost use Rattle.cck_path.specs.PathMap.{coded_path_map, pair_of};

    ghost Value = { FinMap path_cmp V };

    ghost coded = { coded_path_map V.code };

    ghost view = { λ a. from_sorted (map pair_of (entries_of a.blocks.items)) };

    ghost invariant = { λ a.
        AreOrderedBlocks a.blocks.items × (a.count ≡ length (entries_of a.blocks.items)) };
}

impl<V> PathMap<V> {
    /// Returns a map in which no path has a value. It keeps the allocator, and allocates no memory.
    pub fn new(alloc: Global) -> PathMap<V>
        ensures { result ≡ finite.empty }
    {
        PathMap {
            alloc,
            count: 0,
            blocks: Vec::new(alloc),
        }
    }

    /// Returns the number of paths that have a value.
    pub fn len(&self) -> usize
        ensures { result ≡ finite.len self.now }
    {
        self.count
    }

    /// Returns whether no path has a value.
    pub fn is_empty(&self) -> bool
        ensures { result ≡ (finite.len self.now == 0) }
    {
        self.len() == 0
    }

    /// Returns the paths and their values, in the order of the paths, which is that of
    /// [`compare_paths`](crate::compare_paths). It allocates no memory.
    pub fn entries(&self) -> Entries<'_, V>
        ensures { map pair_of (entries_left result) ≡ finite.entries self.now }
    {
        Entries {
            block: &[],
            blocks: &self.blocks,
        }
    }

    /// Returns the entries of the paths that are not lower than a path, in their order. It takes no
    /// memory.
    pub fn entries_from(&self, path: &[u8]) -> Entries<'_, V>
        ensures { map pair_of (entries_left result)
            ≡ finite.entries (part_from (components path.now) self.now) }
    {
        match search(&self.blocks, path) {
            Ok((block, at)) => entries_at(&self.blocks, block, at),
            Err(Some((block, at))) => entries_at(&self.blocks, block, at),
            Err(None) => self.entries(),
        }
    }

    /// Returns the value of a path, if it has one. It allocates no memory.
    pub fn get(&self, path: &[u8]) -> Option<&V>
        ensures { option_copied result ≡ finite.get self.now (components path.now) }
    {
        match search(&self.blocks, path) {
            Ok((block, at)) => Some(&self.blocks[block][at].value),
            Err(_) => None,
        }
    }

    /// Returns whether a path has a value. It allocates no memory.
    pub fn contains(&self, path: &[u8]) -> bool
        ensures { result ≡ finite.contains_key self.now (components path.now) }
    {
        self.get(path).is_some()
    }
}

impl<V: Drop> PathMap<V> {
    /// Sets the value of a path, in place of the one that it has. The path is copied if it has
    /// none, and otherwise stays as it was written first.
    ///
    /// The only error is [`UtilError::Memory`], which leaves the map unchanged. If the path has a
    /// value, no memory is taken and no error is returned.
    pub fn insert(&mut self, path: &[u8], value: V) -> Result<(), UtilError>
        ensures set { OnOk result
            (self.new ≡ finite.insert self.old (components path.now) value) }
        ensures kept { OnErr result (self.new ≡ self.old) }
        ensures replaced { finite.contains_key self.old (components path.now) ≡ true → IsOk result }
        ensures errors { IsOkUnless result UtilError.Memory }
    {
        let gap = match search(&self.blocks, path) {
            Ok((block, at)) => {
                self.blocks[block][at].value = value;
                return Ok(());
            }
            Err(gap) => gap,
        };
        let Some(count) = self.count.checked_add(1) else {
            return Err(UtilError::Memory);
        };
        let path = path.to_vec(self.alloc)?;
        insert_at(self.alloc, &mut self.blocks, gap, Entry { path, value })?;
        self.count = count;
        Ok(())
    }

    /// Removes a path and its value, and returns the value, if there is one. It allocates no memory.
    pub fn remove(&mut self, path: &[u8]) -> Option<V>
        ensures value { result ≡ finite.get self.old (components path.now) }
        ensures rest { self.new ≡ finite.remove self.old (components path.now) }
    {
        match search(&self.blocks, path) {
            Ok((block, at)) => {
                let Entry { value, .. } = remove_at(&mut self.blocks, block, at);
                self.count -= 1;
                Some(value)
            }
            Err(_) => None,
        }
    }
}
