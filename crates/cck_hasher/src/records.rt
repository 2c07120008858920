//! The files that a walk found, by path.
ghost use Rattle.std.specs.Prelude.{◌≡◌, IfOk, OnErr, OnOk, map, string_bytes};
ghost use Rattle.std.specs.FinMap as finite;
ghost use Rattle.std.specs.Option.{option_copied};
ghost use Rattle.cck_path.specs.Path.{components, normal};
ghost use Rattle.cck_path.specs.Values.{map_values};
ghost use Rattle.cck_hasher.specs.Digests.{AreNormal, digest_pair, written};

use cck_path::{PathMap, normalize_path};
use std::alloc::{AllocError, Global};
use std::marker::Model;

/// Files that were found, each with its recorded digest.
///
/// In contracts it is a finite map, of a digest for each path. Paths are compared by components.
/// Only [`process_preprocessor_line`](crate::process_preprocessor_line) adds to it.
#[derive(Debug)]
pub struct Records {
    digests: PathMap<String>,
}

impl Drop for Records {
    fn drop(self) {
        let Records { digests: _ } = self;
    }
}

impl Model for Records {
    ghost use Rattle.std.specs.Prelude.{string_bytes};
    ghost use Rattle.cck_path.specs.Values.{map_values};
    ghost use Rattle.cck_hasher.specs.Decided.{Digests};
    ghost use Rattle.cck_hasher.specs.Digests.{AreNormal, coded_digests};

    ghost Value = { Digests };

    ghost coded = { coded_digests };

    ghost view = { λ a. map_values string_bytes a.digests };

    ghost invariant = { λ a. AreNormal a.digests };
}

impl Records {
    /// Returns records of no files. It keeps the allocator, and allocates no memory.
    pub fn new(alloc: Global) -> Records
        ensures { result ≡ finite.empty }
    {
        Records {
            digests: PathMap::new(alloc),
        }
    }

    /// Returns the number of files. It allocates no memory.
    pub fn len(&self) -> usize
        ensures { result ≡ finite.len self.now }
    {
        self.digests.len()
    }

    /// Returns the recorded digest of the file at a path, if it was found. It allocates no memory.
    pub fn get(&self, path: &[u8]) -> Option<&str>
        ensures { option_copied result ≡ finite.get self.now (components path.now) }
    {
        let digest = self.digests.get(path)?;
        Some(digest.as_str())
    }

    // Whether the file at a path was found.
    pub(crate) fn contains(&self, path: &[u8]) -> bool
        ensures { result ≡ finite.contains_key self.now (components path.now) }
    {
        self.digests.contains(path)
    }

    // Adds a file at a path without `.` and `..`, or replaces its digest.
    pub(crate) fn insert(&mut self, path: &[u8], digest: String) -> Result<(), AllocError>
        requires { normal (components path.now) ≡ components path.now }
        ensures set { OnOk result
            (self.new ≡ finite.insert self.old (components path.now) (string_bytes digest)) }
        ensures kept { OnErr result (self.new ≡ self.old) }
    {
        match self.digests.insert(path, digest) {
            Ok(()) => Ok(()),
            Err(_) => Err(AllocError),
        }
    }

    // All files in the order of their paths.
    pub(crate) fn to_list(&self, alloc: Global) -> Result<Vec<(Vec<u8>, String)>, AllocError>
        ensures { IfOk result (λ files.
            map digest_pair files.items ≡ map written (finite.entries self.now)) }
    {
        list_of(alloc, &self.digests)
    }
}

// All entries of a map in the order of their paths. The map keeps a path as it was written first,
// so each is normalised: its normal form is written in one way only.
fn list_of(alloc: Global, digests: &PathMap<String>) -> Result<Vec<(Vec<u8>, String)>, AllocError>
    requires { AreNormal digests.now }
    ensures { IfOk result (λ files. map digest_pair files.items
        ≡ map written (finite.entries (map_values string_bytes digests.now))) }
{
    let mut files = Vec::new(alloc);
    for entry in digests.entries() {
        let Ok(path) = normalize_path(alloc, &entry.path) else {
            return Err(AllocError);
        };
        let digest = String::from_str(alloc, &entry.value)?;
        files.push((path, digest))?;
    }
    Ok(files)
}
