//! The interface to files.
ghost use Rattle.std.specs.Prelude.{◌≡◌, ℕ, ◌^◌, ◌+◌, ◌<◌, ◌⊎◌, Ok, map, MatchResult, MatchBool, IsOkAnd, vec_items, true, false};
ghost use Rattle.cck_path.specs.Path.{Path, components};

use cck_digest::FileError;
use cck_path::Metadata;
use std::alloc::Global;

/// Files: maps that are the same after each call, and a count of faults.
///
/// Two maps and a number describe an implementation. One map has a node for each of finitely many
/// paths, with what a link leads to at the path of the link. The other map has their canonical
/// paths. The number counts faults. A call returns what the maps say, or a fault. With each fault
/// the number rises, and it stays where it is once it is `u64::MAX`.
///
/// Some states are *quiet*, as the implementation defines. On a quiet state every call ends without
/// a fault and in another quiet state. The implementation also defines which states a call at a path
/// leads to. By that the contract of a function over all files can name the paths at which it makes
/// calls.
///
/// Paths are compared by components. The errors of the calls:
///
/// - [`FileError::NotFound`]: only where nothing is at the path.
/// - [`FileError::OtherKind`]: only where the node at the path isn't of the kind that the call asks
///   for.
/// - [`FileError::Fault`]: only where the count of faults rose.
/// - [`FileError::Memory`]: only of a call that takes memory.
///
/// Where the cause of one of the first two exists, the call returns an error: that one, or one of
/// the last two.
pub trait Files {
    ghost use Rattle.cck_files.specs.FileMap.{FileMap, metadata_at, contents_at, folder_at, exists_at, canonical_at, IsListing};
    ghost use Rattle.cck_files.specs.Calls.{Keeps, IsError, IsErrorOrMemory, IsRead, Rose};

    // The nodes and the canonical paths.
    ghost file_map: { Self → FileMap };

    // The number of faults.
    ghost faults: { Self → ℕ };

    // No call meets a fault from here on.
    ghost is_quiet: { Self → Type 0 };

    // A call at this path leads from one state to another.
    ghost is_call: { Self → Path → Self → Type 0 };

    /// Returns the metadata of the node at a path, of any kind. It allocates no memory.
    fn metadata(&mut self, path: &[u8]) -> Result<Metadata, FileError>
        ensures keeps { Keeps file_map faults is_quiet self.old self.new }
        ensures call { is_call self.old (components path.now) self.new }
        ensures outcome { let found = metadata_at (file_map self.old) (components path.now) in
            MatchResult result (λ metadata. found ≡ Ok metadata)
            (IsError found (Rose (faults self.old) (faults self.new))) };

    /// Reads bytes of a regular file, from an offset on, into the beginning of the buffer, and
    /// returns their number. The number may be less than the room. Into a buffer with room it is 0
    /// only at the end of the file. The offset and the number together are at most `u64::MAX`. No
    /// clause says what the rest of the buffer has, or what the buffer has after an error. It takes
    /// no memory.
    fn read_at(&mut self, path: &[u8], offset: u64, buffer: &mut [u8]) -> Result<usize, FileError>
        ensures keeps { Keeps file_map faults is_quiet self.old self.new }
        ensures call { is_call self.old (components path.now) self.new }
        ensures outcome { let found = contents_at (file_map self.old) (components path.now) in
            MatchResult result (λ n. IsOkAnd found (λ contents. IsRead contents offset n buffer.new))
            (IsError found (Rose (faults self.old) (faults self.new))) };

    /// Returns the last names of a directory's direct children, in no order and none of them twice.
    /// If the last component of a child is no name, the child has none.
    fn read_dir(&mut self, alloc: Global, path: &[u8]) -> Result<Vec<Vec<u8>>, FileError>
        ensures keeps { Keeps file_map faults is_quiet self.old self.new }
        ensures call { is_call self.old (components path.now) self.new }
        ensures outcome { MatchResult result
            (λ names. IsListing (file_map self.old) (components path.now) (map vec_items names.items))
            (IsErrorOrMemory (folder_at (file_map self.old) (components path.now))
            (Rose (faults self.old) (faults self.new))) };

    /// Whether a node is at a path. The result is `false` for a fault too. It allocates no memory.
    fn exists(&mut self, path: &[u8]) -> bool
        ensures keeps { Keeps file_map faults is_quiet self.old self.new }
        ensures call { is_call self.old (components path.now) self.new }
        ensures outcome { let present = exists_at (file_map self.old) (components path.now) in
            MatchBool result (present ≡ true)
            ((present ≡ false) ⊎ Rose (faults self.old) (faults self.new)) };

    /// Returns the canonical path of a path, which leads to the same place without links.
    /// [`FileError::NotFound`] occurs only where the path has no canonical one.
    fn canonical(&mut self, alloc: Global, path: &[u8]) -> Result<Vec<u8>, FileError>
        ensures keeps { Keeps file_map faults is_quiet self.old self.new }
        ensures call { is_call self.old (components path.now) self.new }
        ensures outcome { let found = canonical_at (file_map self.old) (components path.now) in
            MatchResult result (λ path. found ≡ Ok (components path.items))
            (IsErrorOrMemory found (Rose (faults self.old) (faults self.new))) };

    // The count has 64 bits.
    ghost faults_fit: { (files : Self) → faults files < 2 ^ 64 };

    // Quiet files have a count that could still rise.
    ghost quiet_is_low: { (files : Self) → is_quiet files → faults files + 1 < 2 ^ 64 };
}
