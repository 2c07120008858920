//! The names that a walk has taken.
ghost use Rattle.std.specs.Prelude.{◌≡◌, ◌⊎◌, ◌<◌, ℕ, List, Bool, Contains, Some, true};
ghost use Rattle.cck_hasher.specs.SeenNames.{names_in};

use std::hash::{FoldHasher, Hasher};

// The greatest number of names that are remembered.
const SLOTS: usize = 2048;

/// A name, and whether a system header has it.
#[derive(Clone, Copy)]
pub(crate) struct SeenName<'t> {
    name: &'t [u8],
    is_system: bool,
}

/// Names that a walk took and that need not be looked at again. Each is remembered until another
/// one takes its slot. No memory is allocated.
pub(crate) struct SeenNames<'t> {
    slots: [Option<SeenName<'t>>; SLOTS],
}

impl Drop for SeenNames<'_> {
    fn drop(self) {
        let SeenNames { slots: _ } = self;
    }
}

impl<'t> SeenNames<'t> {
    /// Returns the empty set of names.
    pub(crate) fn new() -> SeenNames<'t>
        ensures { (name : List ℕ) (is_system : Bool) → Contains (names_in result) (Some (name, is_system)) → ⊥ }
    {
        SeenNames {
            slots: [None; SLOTS],
        }
    }

    /// Returns `true` only if this name is remembered. It may return `false` for any name.
    pub(crate) fn contains(&self, name: &[u8], is_system: bool) -> bool
        ensures { result ≡ true → Contains (names_in self.now) (Some (name.now, is_system)) }
    {
        match self.slots[slot_of(name, is_system)] {
            Some(seen) => seen.is_system == is_system && seen.name == name,
            None => false,
        }
    }

    /// Remembers this name.
    pub(crate) fn insert(&mut self, name: &'t [u8], is_system: bool)
        ensures { (other : List ℕ) (its_system : Bool) → Contains (names_in self.new) (Some (other, its_system))
            → Contains (names_in self.old) (Some (other, its_system)) ⊎ ((other ≡ name.now) × (its_system ≡ is_system)) }
    {
        self.slots[slot_of(name, is_system)] = Some(SeenName { name, is_system });
    }
}

// The slot of a name, by a hash of all its bytes. Names that begin or end alike are common: those of one
// directory, and those of one file in each of many directories.
fn slot_of(name: &[u8], is_system: bool) -> usize
    ensures { result < SLOTS }
{
    let mut hasher = FoldHasher::default();
    hasher.write(name);
    let hash = hasher.finish().wrapping_add(u64::from(is_system));
    hash as usize % SLOTS
}
