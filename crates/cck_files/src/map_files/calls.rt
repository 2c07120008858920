//! The calls of [`Files`] on files in memory.
ghost use Rattle.std.specs.Prelude.{◌≡◌, ◌⊎◌, false, if◌then◌else◌, Err, IfOk, IsOk, IsOkAnd, MatchBool, MatchResult, Ok, OnErr, map, true, vec_items};
ghost use Rattle.cck_path.specs.Path.{components};
ghost use Rattle.cck_path.specs.Text.{path_text};
ghost use Rattle.cck_files.specs.ArmedCalls.{fails};
ghost use Rattle.cck_files.specs.Calls.{IsFullRead, IsRead, IsError, IsErrorOrMemory, Keeps, Rose};
ghost use Rattle.cck_files.specs.FileMap.{IsListing, canonical_at, contents_at, folder_at, metadata_at, metadata_of, exists_at};
ghost use Rattle.cck_files.specs.FileState.{IsAfterCall, IsQuiet, fault_count, is_fault};
ghost use Rattle.cck_files.specs.Node.{node_of};

use super::MapFiles;
use crate::child::child_names;
use crate::{Files, Node};
use cck_digest::FileError;
use cck_path::{FileKind, Metadata};
use std::alloc::Global;

impl Files for MapFiles {
    ghost use Rattle.std.proofs.Common.{arith};

    ghost file_map = { λ files. files.files };

    ghost faults = { fault_count };

    ghost is_quiet = { IsQuiet };

    ghost is_call = { λ before path after. IsAfterCall before after };

    #[tactic(auto, unfolding(crate::specs::FileMap::metadata_at))]
    fn metadata(&mut self, path: &[u8]) -> Result<Metadata, FileError>
        ensures keeps { Keeps (λ files. files.files) fault_count IsQuiet self.old self.new }
        ensures outcome { let found = metadata_at self.old.files (components path.now) in
            MatchResult result (λ metadata. found ≡ Ok metadata)
            (IsError found (Rose (fault_count self.old) (fault_count self.new))) }
        ensures call { IsAfterCall self.old self.new }
        ensures fault { is_fault result ≡ fails self.old.armed }
    {
        if self.begin() {
            return Err(FileError::Fault);
        }
        let Some(place) = self.place(path) else {
            return Err(FileError::NotFound);
        };
        Ok(metadata_of(&place.node))
    }

    #[tactic(auto, unfolding(crate::specs::FileMap::contents_at))]
    fn read_at(&mut self, path: &[u8], offset: u64, buffer: &mut [u8]) -> Result<usize, FileError>
        ensures keeps { Keeps (λ files. files.files) fault_count IsQuiet self.old self.new }
        ensures outcome { let found = contents_at self.old.files (components path.now) in
            MatchResult result (λ n. IsOkAnd found (λ contents. IsRead contents offset n buffer.new))
            (IsError found (Rose (fault_count self.old) (fault_count self.new))) }
        ensures full { IfOk result (λ n. IsOkAnd (contents_at self.old.files (components path.now))
            (λ contents. IsFullRead contents offset n buffer.old buffer.new)) }
        ensures left { OnErr result (buffer.new ≡ buffer.old) }
        ensures call { IsAfterCall self.old self.new }
        ensures fault { is_fault result ≡ fails self.old.armed }
    {
        if self.begin() {
            return Err(FileError::Fault);
        }
        let Some(place) = self.place(path) else {
            return Err(FileError::NotFound);
        };
        match place.node.kind {
            FileKind::File => Ok(read_bytes(&place.node.contents, offset, buffer)),
            FileKind::Folder | FileKind::Other => Err(FileError::OtherKind),
        }
    }

    #[tactic(auto, unfolding(crate::specs::FileMap::folder_at))]
    fn read_dir(&mut self, alloc: Global, path: &[u8]) -> Result<Vec<Vec<u8>>, FileError>
        ensures keeps { Keeps (λ files. files.files) fault_count IsQuiet self.old self.new }
        ensures outcome { MatchResult result
            (λ names. IsListing self.old.files (components path.now) (map vec_items names.items))
            (IsErrorOrMemory (folder_at self.old.files (components path.now))
            (Rose (fault_count self.old) (fault_count self.new))) }
        ensures memory { result ≡ Err FileError.Memory →
            folder_at self.old.files (components path.now) ≡ Ok tt }
        ensures call { IsAfterCall self.old self.new }
        ensures fault { is_fault result ≡ fails self.old.armed }
    {
        if self.begin() {
            return Err(FileError::Fault);
        }
        let Some(place) = self.place(path) else {
            return Err(FileError::NotFound);
        };
        match place.node.kind {
            FileKind::File | FileKind::Other => Err(FileError::OtherKind),
            FileKind::Folder => child_names(alloc, &self.places, path),
        }
    }

    #[tactic(auto, unfolding(crate::specs::FileMap::exists_at))]
    fn exists(&mut self, path: &[u8]) -> bool
        ensures keeps { Keeps (λ files. files.files) fault_count IsQuiet self.old self.new }
        ensures outcome { let present = exists_at self.old.files (components path.now) in
            MatchBool result (present ≡ true)
            ((present ≡ false) ⊎ Rose (fault_count self.old) (fault_count self.new)) }
        ensures call { IsAfterCall self.old self.new }
        ensures fault { result ≡ (if fails self.old.armed then false
            else exists_at self.old.files (components path.now)) }
    {
        if self.begin() {
            return false;
        }
        self.place(path).is_some()
    }

    #[tactic(auto, unfolding(crate::specs::FileMap::canonical_at))]
    fn canonical(&mut self, alloc: Global, path: &[u8]) -> Result<Vec<u8>, FileError>
        ensures keeps { Keeps (λ files. files.files) fault_count IsQuiet self.old self.new }
        ensures outcome { let found = canonical_at self.old.files (components path.now) in
            MatchResult result (λ path. found ≡ Ok (components path.items))
            (IsErrorOrMemory found (Rose (fault_count self.old) (fault_count self.new))) }
        ensures text { IfOk result (λ path. path.items ≡ path_text (components path.items)) }
        ensures memory { result ≡ Err FileError.Memory →
            IsOk (canonical_at self.old.files (components path.now)) }
        ensures call { IsAfterCall self.old self.new }
        ensures fault { is_fault result ≡ fails self.old.armed }
    {
        if self.begin() {
            return Err(FileError::Fault);
        }
        let Some(place) = self.place(path) else {
            return Err(FileError::NotFound);
        };
        Ok(place.canonical.to_vec(alloc)?)
    }

    ghost faults_fit = { λ files. Prim.omega arith };

    ghost quiet_is_low = { λ files quiet. quiet.1 };
}

// The metadata of a node.
fn metadata_of(node: &Node) -> Metadata
    ensures { result ≡ metadata_of (node_of node.now) }
{
    let len = match node.kind {
        FileKind::File => node.contents.len() as u64,
        FileKind::Folder | FileKind::Other => 0,
    };
    Metadata {
        kind: node.kind,
        len,
        modified: node.modified,
        changed: node.changed,
    }
}

// Reads from an offset on, and returns the number of bytes.
fn read_bytes(contents: &[u8], offset: u64, buffer: &mut [u8]) -> usize
    ensures read { IsRead contents.now offset result buffer.new }
    ensures full { IsFullRead contents.now offset result buffer.old buffer.new }
{
    if offset >= contents.len() as u64 {
        return 0;
    }
    let rest = &contents[offset as usize..];
    let count = rest.len().min(buffer.len());
    buffer[..count].copy_from_slice(&rest[..count]);
    count
}
