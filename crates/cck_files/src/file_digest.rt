//! Digests of the nodes at paths.
ghost use Rattle.std.specs.Prelude.{◌≡◌, Some, map, MatchResult, string_bytes};
ghost use Rattle.cck_path.specs.Path.{components};
ghost use Rattle.cck_files.specs.Calls.{Keeps, Rose};
ghost use Rattle.cck_files.specs.FileDigest.{IsFirstError, paths_of, digest_text_at, texts};
ghost use Rattle.cck_files.specs.Errors.{IsDigestError};

use crate::Files;
use crate::folder::feed_node;
use cck_digest::{Digest, HashState, UtilError, new_hash_buffer};
use std::alloc::Global;

/// Digests of files and directories, as calls of [`Digest`].
pub trait DigestFiles {
    ghost use Rattle.std.specs.Prelude.{ℕ, List};

    // The hash function.
    ghost hash: { List ℕ → List ℕ };

    /// The hex digest of the node at a path.
    ///
    /// The digest of a regular file is that of its contents. The digest of a directory is that of
    /// the regular files that are reached from it through directories, in path order. For each file
    /// it is fed the delimiter of the file's name, and the contents. The name is the path relative
    /// to the directory, with U+FFFD in place of what is not UTF-8. Upstream's `Digest::file`. The
    /// error is
    ///
    /// - [`UtilError::File`] of `NotFound` where there is no node at the path,
    /// - [`UtilError::File`] of `OtherKind` where the node there, or one that is reached, is
    ///   neither a file nor a directory,
    /// - [`UtilError::File`] of `Fault` only where the count of faults rose,
    /// - [`UtilError::TooDeep`] where a directory of a level above 100 is reached; the one at the
    ///   path has level 1,
    /// - [`UtilError::Memory`] where memory is lacking.
    ///
    /// Where several of these causes apply, any of their errors is returned.
    fn file<F: Files>(alloc: Global, files: &mut F, path: &[u8]) -> Result<String, UtilError>
        ensures keeps { Keeps F.file_map F.faults F.is_quiet files.old files.new }
        ensures outcome { let fm = F.file_map files.old in MatchResult result
            (λ text. digest_text_at hash fm (components path.now) ≡ Some (string_bytes text))
            (IsDigestError fm (components path.now) (Rose (F.faults files.old) (F.faults files.new))) };

    /// The same as [`DigestFiles::file`]. Upstream's `Digest::reader`.
    fn reader<F: Files>(alloc: Global, files: &mut F, path: &[u8]) -> Result<String, UtilError>
        ensures keeps { Keeps F.file_map F.faults F.is_quiet files.old files.new }
        ensures outcome { let fm = F.file_map files.old in MatchResult result
            (λ text. digest_text_at hash fm (components path.now) ≡ Some (string_bytes text))
            (IsDigestError fm (components path.now) (Rose (F.faults files.old) (F.faults files.new))) };
}

impl<H: HashState> DigestFiles for Digest<H> {
    ghost hash = { H.hash };

    fn file<F: Files>(alloc: Global, files: &mut F, path: &[u8]) -> Result<String, UtilError> {
        digest_path::<H, F>(alloc, files, path)
    }

    fn reader<F: Files>(alloc: Global, files: &mut F, path: &[u8]) -> Result<String, UtilError> {
        digest_path::<H, F>(alloc, files, path)
    }
}

// The hex digest of the node at a path.
fn digest_path<H: HashState, F: Files>(
    alloc: Global,
    files: &mut F,
    path: &[u8],
) -> Result<String, UtilError>
    ensures keeps { Keeps F.file_map F.faults F.is_quiet files.old files.new }
    ensures outcome { let fm = F.file_map files.old in MatchResult result
        (λ text. digest_text_at H.hash fm (components path.now) ≡ Some (string_bytes text))
        (IsDigestError fm (components path.now) (Rose (F.faults files.old) (F.faults files.new))) }
{
    let mut buffer = new_hash_buffer(alloc)?;
    let mut digest = Digest::<H>::new();
    feed_node(alloc, files, path, None, 1, &mut buffer, &mut digest)?;
    digest.finish(alloc)
}

/// The hex digests of the nodes at these paths, in their order.
///
/// Upstream's `util::hash_all`. The error is that of [`DigestFiles::file`] for the first path, in
/// their order, that has no digest or meets a fault or lack of memory.
pub fn hash_all<H: HashState, F: Files>(
    alloc: Global,
    files: &mut F,
    paths: &[Vec<u8>],
) -> Result<Vec<String>, UtilError>
    ensures keeps { Keeps F.file_map F.faults F.is_quiet files.old files.new }
    ensures outcome { let fm = F.file_map files.old in MatchResult result
        (λ all. texts H.hash fm (paths_of paths.now) ≡ Some (map string_bytes all.items))
        (IsFirstError H.hash fm (paths_of paths.now) (Rose (F.faults files.old) (F.faults files.new))) }
{
    let mut all = Vec::new(alloc);
    for path in paths {
        all.push(digest_path::<H, F>(alloc, files, path)?)?;
    }
    Ok(all)
}
