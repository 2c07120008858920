//! Files in memory, which meet a fault where a call is armed to be one.
ghost use Rattle.std.specs.Prelude.{◌≡◌, Err, IfOk, IsOkUnless, IsSome, MatchOption, None, OnErr, OnOk, Some, true};
ghost use Rattle.std.specs.FinMap as finite;
ghost use Rattle.cck_path.specs.Path.{components, normal};
ghost use Rattle.cck_files.specs.ArmedCalls.{fails};
ghost use Rattle.cck_files.specs.Calls.{Keeps, Rose};
ghost use Rattle.cck_files.specs.FileState.{IsAfterCall, IsQuiet, canonical_of, fault_count, files_of, linked, new_state, node_at, with_place, without_place};
ghost use Rattle.cck_files.specs.Node.{node_of};

use crate::{ArmedCalls, Node};
use cck_digest::UtilError;
use cck_path::{PathMap, normalize_path};
use std::alloc::Global;
use std::marker::Model;

mod calls;
mod places;

use places::Place;

/// Files in memory: for each path that was put or linked a [`Node`] and a canonical path.
///
/// The node at a path doesn't depend on other paths: a node below a path makes no directory there,
/// and where a directory is removed the nodes below it stay. Paths differ by their components
/// alone, so `x` and `./x` are two.
///
/// The calls of [`Files`](crate::Files) return the map's own results. Each is a binary search, and
/// [`read_dir`](crate::Files::read_dir) also visits every path that begins with the directory's.
/// One of the calls may be armed by [`fail_at`](MapFiles::fail_at), and all from one of them on by
/// [`fail_after`](MapFiles::fail_after). An armed call is a fault and changes no file, and no other
/// call is a fault. Each fault adds one to the count of faults, a `u64`, until that is `u64::MAX`.
/// The files are quiet if no call is armed and the count is below `u64::MAX`.
#[derive(Debug)]
pub struct MapFiles {
    alloc: Global,
    // A new path moves entries of the map. With boxes these are small.
    places: PathMap<Box<Place>>,
    faults: u64,
    armed: ArmedCalls,
}

impl Drop for MapFiles {
    fn drop(self) {
        let MapFiles {
            alloc: _,
            places: _,
            faults: _,
            armed: _,
        } = self;
    }
}

impl Model for MapFiles {
    ghost use Rattle.cck_files.specs.FileState.{FileState, coded_state, files_of};

    ghost Value = { FileState };

    ghost coded = { coded_state };

    ghost view = { λ a. record { files = files_of a.places; faults = a.faults; armed = a.armed } };
}

impl MapFiles {
    /// No files, no fault so far, and no call armed. It keeps the allocator, and allocates no memory.
    pub fn new(alloc: Global) -> MapFiles
        ensures { result ≡ new_state }
    {
        MapFiles {
            alloc,
            places: PathMap::new(alloc),
            faults: 0,
            armed: ArmedCalls::new(),
        }
    }

    /// Sets the node at a path, in place of the one that was there. Its canonical path is the path
    /// as [`normalize_path`] returns it. No other path changes: no directory is made above it. The
    /// contents of a node that is no regular file aren't set.
    ///
    /// The only error is [`UtilError::Memory`], and then nothing is changed.
    pub fn put(&mut self, path: &[u8], node: Node) -> Result<(), UtilError>
        ensures set { OnOk result (self.new ≡ record self.old {
          files =
              with_place self.old.files (components path.now) (node_of node)
              (normal (components path.now));
        }) }
        ensures kept { OnErr result (self.new ≡ self.old) }
        ensures errors { IsOkUnless result UtilError.Memory }
    {
        let canonical = normalize_path(self.alloc, path)?;
        let place = Box::new(self.alloc, Place { node, canonical })?;
        self.places.insert(path, place)?;
        Ok(())
    }

    /// Gives a path the node and the canonical path that a target has now. If the target has none,
    /// the path has neither afterwards. A later change of the target doesn't change this path.
    ///
    /// The only error is [`UtilError::Memory`], and then nothing is changed.
    pub fn link(&mut self, path: &[u8], target: &[u8]) -> Result<(), UtilError>
        ensures set { OnOk result (self.new ≡ record self.old {
          files =
              linked self.old.files (components path.now) (components target.now);
        }) }
        ensures kept { OnErr result (self.new ≡ self.old) }
        ensures errors { IsOkUnless result UtilError.Memory }
        ensures memory { result ≡ Err UtilError.Memory →
            IsSome (finite.get self.old.files.nodes (components target.now)) }
    {
        let Some(place) = self.places.get(target) else {
            self.remove(path);
            return Ok(());
        };
        let copy = place.copy(self.alloc)?;
        self.places.insert(path, copy)?;
        Ok(())
    }

    /// Removes the node and the canonical path of this path alone, if it has them. It takes no
    /// memory.
    pub fn remove(&mut self, path: &[u8])
        ensures { self.new ≡ record self.old {
          files =
              without_place self.old.files (components path.now);
        } }
    {
        self.places.remove(path);
    }

    /// Arms the nth of the next calls of [`Files`](crate::Files), counted from 1, to be a fault. It
    /// arms that one alone, beside what [`fail_after`](MapFiles::fail_after) arms. It replaces what
    /// this method armed before, and 0 arms none.
    pub fn fail_at(&mut self, n: u64)
        ensures { self.new ≡ record self.old { armed = record self.old.armed { one = n } } }
    {
        self.armed.fail_at(n);
    }

    /// Arms the nth of the next calls of [`Files`](crate::Files), counted from 1, and all after it,
    /// to be faults, beside what [`fail_at`](MapFiles::fail_at) arms. It replaces what this method
    /// armed before, and 0 arms none.
    pub fn fail_after(&mut self, n: u64)
        ensures { self.new ≡ record self.old { armed = record self.old.armed { onward = n } } }
    {
        self.armed.fail_after(n);
    }

    /// The number of calls of [`Files`](crate::Files) so far. It stays at `u64::MAX`.
    pub fn calls(&self) -> u64
        ensures { result ≡ self.now.armed.calls }
    {
        self.armed.calls()
    }

    /// A copy of the files: the same map, the same counts of faults and of calls, and the same
    /// calls armed.
    ///
    /// The only error is [`UtilError::Memory`].
    pub fn copy(&self, alloc: Global) -> Result<MapFiles, UtilError>
        ensures same { IfOk result (λ copy. copy ≡ self.now) }
        ensures errors { IsOkUnless result UtilError.Memory }
    {
        let places = copy_places(alloc, &self.places)?;
        Ok(MapFiles {
            alloc,
            places,
            faults: self.faults,
            armed: self.armed,
        })
    }

    // The node at a path, and its canonical path.
    fn place(&self, path: &[u8]) -> Option<&Place>
        ensures { MatchOption result
            ((finite.get self.now.files.nodes (components path.now) ≡ None)
            × (finite.get self.now.files.canonicals (components path.now) ≡ None))
            (λ place. (finite.get self.now.files.nodes (components path.now)
            ≡ Some (node_at place.now))
            × (finite.get self.now.files.canonicals (components path.now)
            ≡ Some (canonical_of place.now))) }
    {
        let place = self.places.get(path)?;
        Some(place)
    }

    // Counts a call, and returns whether it is a fault.
    fn begin(&mut self) -> bool
        ensures fails { result ≡ fails self.old.armed }
        ensures files { self.new.files ≡ self.old.files }
        ensures after { IsAfterCall self.old self.new }
        ensures keeps { Keeps (λ files. files.files) fault_count IsQuiet self.old self.new }
        ensures rose { result ≡ true → Rose (fault_count self.old) (fault_count self.new) }
    {
        let fails = self.armed.begin();
        if fails {
            self.faults = self.faults.saturating_add(1);
        }
        fails
    }
}

impl Place {
    // A copy of the place.
    fn copy(&self, alloc: Global) -> Result<Box<Place>, UtilError>
        ensures node { IfOk result (λ copy. node_at copy.value ≡ node_at self.now) }
        ensures canonical { IfOk result (λ copy. canonical_of copy.value ≡ canonical_of self.now) }
        ensures errors { IsOkUnless result UtilError.Memory }
    {
        let copy = Place {
            node: self.node.copy(alloc)?,
            canonical: self.canonical.to_vec(alloc)?,
        };
        Ok(Box::new(alloc, copy)?)
    }
}

// A copy of the places.
fn copy_places(
    alloc: Global,
    places: &PathMap<Box<Place>>,
) -> Result<PathMap<Box<Place>>, UtilError>
    ensures same { IfOk result (λ copy. files_of copy ≡ files_of places.now) }
    ensures errors { IsOkUnless result UtilError.Memory }
{
    let mut copy = PathMap::new(alloc);
    for entry in places.entries() {
        let place = entry.value.copy(alloc)?;
        copy.insert(&entry.path, place)?;
    }
    Ok(copy)
}
