//! What a look-up has found of files.
ghost use Rattle.std.specs.Prelude.{◌≡◌, ℕ, IfOk, IfSome, IsSome, MatchBool, MatchOption, Ok};
ghost use Rattle.cck_files.specs.Calls.{Keeps, Rose};
ghost use Rattle.cck_files.specs.FileMap.{FileMap, metadata_at};
ghost use Rattle.cck_path.specs.Path.{components};
ghost use Rattle.cck_entry.specs.Known.{AreFound, AreKnown, IsKnownAt};
ghost use Rattle.cck_include.specs.Setting.{Setting};

use cck_files::Files;
use cck_path::{Metadata, PathMap, same_path};
use std::alloc::{AllocError, Global};

/// What one look-up has found of files, by path: their metadata and recorded digests. With it no
/// file's metadata is asked for twice, and no file is read twice.
///
/// It is valid for the files, the call time, the zone, the variables and the options of the calls
/// that found it. For others a new value is needed.
#[derive(Debug, Drop)]
pub struct KnownFiles {
    // In the order in which they were found.
    pub(crate) files: Vec<KnownFile>,
    // The place of each path's file in `files`.
    places: PathMap<usize>,
    // The place that is tried first.
    next: usize,
}

/// What was found at a path.
#[derive(Debug, Drop)]
pub(crate) struct KnownFile {
    pub(crate) path: Vec<u8>,
    pub(crate) metadata: Metadata,
    // The recorded digest, or that there is none, once it was asked for.
    pub(crate) digest: Option<Option<String>>,
}

impl KnownFiles {
    /// Nothing is known yet, which is right whatever the files, the call time, the zone, the
    /// variables and the options are. It allocates no memory.
    pub fn new(alloc: Global) -> KnownFiles
        ensures { (s : Setting) (files : FileMap) → AreKnown s files result }
    {
        KnownFiles {
            files: Vec::new(alloc),
            places: PathMap::new(alloc),
            next: 0,
        }
    }

    // The place of the file at a path, if it is known. Lists of includes mostly have the same files
    // in the same order, so the file after the last one is tried before a search.
    fn place_of(&self, path: &[u8]) -> Option<usize>
        ensures place { IfSome result (IsKnownAt (components path.now) self.now.files.items) }
        ensures all { AreFound self.now.files.items self.now.places
            → (i : ℕ) → IsKnownAt (components path.now) self.now.files.items i → IsSome result }
    {
        if is_at(&self.files, self.next, path) {
            return Some(self.next);
        }
        let Some(place) = self.places.get(path) else {
            return None;
        };
        if is_at(&self.files, *place, path) {
            Some(*place)
        } else {
            None
        }
    }

    // Adds the metadata of a path that is not known yet, and returns its place.
    fn add(&mut self, alloc: Global, path: &[u8], metadata: Metadata) -> Result<usize, AllocError>
        ensures known { (s : Setting) (files : FileMap) → metadata_at files (components path.now) ≡ Ok metadata
            → ((i : ℕ) → IsKnownAt (components path.now) self.old.files.items i → ⊥)
            → AreKnown s files self.old → AreKnown s files self.new }
        ensures place { IfOk result (IsKnownAt (components path.now) self.new.files.items) }
    {
        let place = self.files.len();
        match self.places.insert(path, place) {
            Ok(()) => {}
            Err(_) => return Err(AllocError),
        }
        self.files.push(KnownFile {
            path: path.to_vec(alloc)?,
            metadata,
            digest: None,
        })?;
        if self.next == place {
            self.next = self.files.len();
        }
        Ok(place)
    }
}

// Whether there is a file at a place, with this path.
fn is_at(files: &[KnownFile], place: usize, path: &[u8]) -> bool
    ensures { MatchBool result (IsKnownAt (components path.now) files.now place)
        (IsKnownAt (components path.now) files.now place → ⊥) }
{
    match files.get(place) {
        Some(file) => same_path(&file.path, path),
        None => false,
    }
}

/// The place of the node at a path among what is known, or `None` where there is no node. What is
/// known is not asked for again, and what was found becomes known. With a fault the result may be
/// `None`.
pub(crate) fn place_for<F: Files>(
    alloc: Global,
    files: &mut F,
    known: &mut KnownFiles,
    path: &[u8],
) -> Result<Option<usize>, AllocError>
    ensures keeps { Keeps F.file_map F.faults F.is_quiet files.old files.new }
    ensures known { (s : Setting) → AreKnown s (F.file_map files.old) known.old
        → AreKnown s (F.file_map files.old) known.new }
    ensures unasked { AreFound known.old.files.items known.old.places
        → (i : ℕ) → IsKnownAt (components path.now) known.old.files.items i → files.new ≡ files.old }
    ensures place { IfOk result (λ place. MatchOption place
        (IfOk (metadata_at (F.file_map files.old) (components path.now)) (λ _. Rose (F.faults files.old) (F.faults files.new)))
        (IsKnownAt (components path.now) known.new.files.items)) }
{
    if let Some(place) = known.place_of(path) {
        known.next = place + 1;
        return Ok(Some(place));
    }
    let metadata = match files.metadata(path) {
        Ok(metadata) => metadata,
        Err(_) => return Ok(None),
    };
    let place = known.add(alloc, path, metadata)?;
    Ok(Some(place))
}
