//! Which of the directories that a preprocessor searches are the same.
ghost use Rattle.std.specs.Prelude.{◌≡◌, ◌≢◌, ◌<◌, None, Some, IfOk, IfSome, IsUtf8, MatchBool, MatchOption, OnErr, [], get_or, length, ℕ};
ghost use Rattle.cck_cache_files.specs.Searched.{AddsDirectory, IsFirstSame};

use crate::identity::Identity;
use std::alloc::AllocError;
use std::fs;
use std::rt::Files;

/// The directories that a preprocessor searches, in their order, as they were found.
#[derive(Drop)]
pub struct SearchedDirectories {
    // `None` where no directory was found.
    identities: Vec<Option<Identity>>,
}

// The identity of the directory at a path, links followed. `None` where there is none, or it can't be
// looked at.
fn identity_of<R: Files>(rt: &R, path: &[u8]) -> Option<Identity>
    ensures { IfSome result (λ _. IsUtf8 path.now) }
{
    let path = std::str::from_utf8(path).ok()?;
    let found = fs::metadata(rt, path).ok()?;
    if !found.is_dir() {
        return None;
    }
    Some(Identity::of(&found))
}

// Whether this is what was found of a directory.
fn is_same(known: Option<Identity>, identity: Identity) -> bool
    ensures { MatchBool result (known ≡ Some identity) (known ≢ Some identity) }
{
    match known {
        Some(known) => known.is(identity),
        None => false,
    }
}

// The place of the first directory that has this identity.
fn first_same(identities: &[Option<Identity>], identity: Identity) -> Option<usize>
    ensures { MatchOption result
        ((k : ℕ) → k < length identities.now → get_or identities.now k None ≢ Some identity)
        (λ place. IsFirstSame identities.now identity place) }
{
    for place in 0..identities.len() {
        if is_same(identities[place], identity) {
            return Some(place);
        }
    }
    None
}

impl SearchedDirectories {
    /// No directories.
    pub fn new<R: AllocGlobal>(rt: &R) -> SearchedDirectories
        ensures { result.identities.items ≡ [] }
    {
        SearchedDirectories {
            identities: Vec::new(rt.alloc()),
        }
    }

    /// Adds the directory at a path, links followed. Returns the place of the first directory that is
    /// the same by device and inode, which is its own place where no earlier one is; `None` where no
    /// directory is at the path, or it can't be looked at.
    ///
    /// The only error is lack of memory, and then nothing is added.
    pub fn add<R: Files + AllocGlobal>(
        &mut self,
        rt: &R,
        path: &[u8],
    ) -> Result<Option<usize>, AllocError>
        ensures added { IfOk result
            (AddsDirectory self.old.identities.items path.now self.new.identities.items) }
        ensures errors { OnErr result (self.new.identities.items ≡ self.old.identities.items) }
    {
        let identity = identity_of(rt, path);
        self.identities.push(identity)?;
        match identity {
            Some(identity) => Ok(first_same(&self.identities, identity)),
            None => Ok(None),
        }
    }
}
