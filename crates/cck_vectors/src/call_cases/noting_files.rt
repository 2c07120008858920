//! Files in memory that count the calls on one path, and that can be read in single bytes.
ghost use Rattle.std.specs.Prelude.{◌≡◌, ◌⊎◌, false, true, map, IsOkAnd, MatchBool, MatchResult, Ok, vec_items};
ghost use Rattle.cck_path.specs.Path.{components};
ghost use Rattle.cck_files.specs.Calls.{IsRead, IsError, IsErrorOrMemory, Keeps, Rose};
ghost use Rattle.cck_files.specs.FileMap.{IsListing, canonical_at, contents_at, folder_at, metadata_at, exists_at};
ghost use Rattle.cck_vectors.specs.NotingFiles.{IsNoted, faults_of, is_quiet, map_of};

use cck_digest::FileError;
use cck_files::{Files, MapFiles};
use cck_path::{Metadata, same_path};
use std::alloc::Global;

/// Files in memory that count the calls on one path. Each call is made on the files that they hold.
///
/// A call counts where its path has the same components. The count is a `u64` and stays at
/// `u64::MAX`. A read gives as many bytes as there are and fit, or one of them.
pub struct NotingFiles {
    /// The files.
    pub files: MapFiles,
    /// The path that calls are counted on.
    pub path: Vec<u8>,
    /// How many there were.
    pub count: u64,
    /// Whether a read gives one byte at most.
    pub is_bytewise: bool,
}

impl Drop for NotingFiles {
    fn drop(self) {
        let NotingFiles {
            files: _,
            path: _,
            count: _,
            is_bytewise: _,
        } = self;
    }
}

impl NotingFiles {
    // Counts a call on a path, where it is the one that is counted on.
    fn note(&mut self, path: &[u8])
        ensures same_files { self.new.files ≡ self.old.files }
        ensures noted { IsNoted self.old (components path.now) self.new }
    {
        if same_path(&self.path, path) {
            self.count = self.count.saturating_add(1);
        }
    }
}

impl Files for NotingFiles {
    ghost use Rattle.std.proofs.Common.{arith};

    ghost file_map = { map_of };

    ghost faults = { faults_of };

    ghost is_quiet = { is_quiet };

    ghost is_call = { IsNoted };

    fn metadata(&mut self, path: &[u8]) -> Result<Metadata, FileError>
        ensures keeps { Keeps map_of faults_of is_quiet self.old self.new }
        ensures outcome { let found = metadata_at (map_of self.old) (components path.now) in
            MatchResult result (λ metadata. found ≡ Ok metadata)
            (IsError found (Rose (faults_of self.old) (faults_of self.new))) }
        ensures call { IsNoted self.old (components path.now) self.new }
    {
        self.note(path);
        self.files.metadata(path)
    }

    fn read_at(&mut self, path: &[u8], offset: u64, buffer: &mut [u8]) -> Result<usize, FileError>
        ensures keeps { Keeps map_of faults_of is_quiet self.old self.new }
        ensures outcome { let found = contents_at (map_of self.old) (components path.now) in
            MatchResult result (λ n. IsOkAnd found (λ contents. IsRead contents offset n buffer.new))
            (IsError found (Rose (faults_of self.old) (faults_of self.new))) }
        ensures call { IsNoted self.old (components path.now) self.new }
    {
        self.note(path);
        if self.is_bytewise {
            let end = buffer.len().min(1);
            return self.files.read_at(path, offset, &mut buffer[..end]);
        }
        self.files.read_at(path, offset, buffer)
    }

    fn read_dir(&mut self, alloc: Global, path: &[u8]) -> Result<Vec<Vec<u8>>, FileError>
        ensures keeps { Keeps map_of faults_of is_quiet self.old self.new }
        ensures outcome { MatchResult result
            (λ names. IsListing (map_of self.old) (components path.now) (map vec_items names.items))
            (IsErrorOrMemory (folder_at (map_of self.old) (components path.now))
            (Rose (faults_of self.old) (faults_of self.new))) }
        ensures call { IsNoted self.old (components path.now) self.new }
    {
        self.note(path);
        self.files.read_dir(alloc, path)
    }

    fn exists(&mut self, path: &[u8]) -> bool
        ensures keeps { Keeps map_of faults_of is_quiet self.old self.new }
        ensures outcome { let present = exists_at (map_of self.old) (components path.now) in
            MatchBool result (present ≡ true)
            ((present ≡ false) ⊎ Rose (faults_of self.old) (faults_of self.new)) }
        ensures call { IsNoted self.old (components path.now) self.new }
    {
        self.note(path);
        self.files.exists(path)
    }

    fn canonical(&mut self, alloc: Global, path: &[u8]) -> Result<Vec<u8>, FileError>
        ensures keeps { Keeps map_of faults_of is_quiet self.old self.new }
        ensures outcome { let found = canonical_at (map_of self.old) (components path.now) in
            MatchResult result (λ path. found ≡ Ok (components path.items))
            (IsErrorOrMemory found (Rose (faults_of self.old) (faults_of self.new))) }
        ensures call { IsNoted self.old (components path.now) self.new }
    {
        self.note(path);
        self.files.canonical(alloc, path)
    }

    ghost faults_fit = { λ files. Prim.omega arith };

    ghost quiet_is_low = { λ files quiet. quiet.1 };
}
