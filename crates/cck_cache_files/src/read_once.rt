//! Files that gcc reads once: those with `#pragma once`, and those that are imported.
ghost use Rattle.std.specs.Prelude.{◌≡◌, ◌↔◌, ◌⊎◌, IfOk, IsTrue, MatchBool, true};
ghost use Rattle.std.specs.Option.{option_map};
ghost use Rattle.cck_cache_text.specs.Sets.{has_key};
ghost use Rattle.cck_cache_files.specs.ReadOnce.{HasCopies, HasOnce, IsReadOnce, unmarked};
ghost use Rattle.cck_files.specs.Calls.{Keeps};
ghost use Rattle.cck_files.specs.FileState.{IsQuiet, fault_count};

use crate::sources::USUAL_SIZE;
use cck_digest::{FileError, UtilError};
use cck_files::{MapFiles, read_contents_of_size};
use memchr::memmem;
use std::alloc::Global;
use std::collections::BTreeSet;

/// A text without the byte order mark at its front, which gcc takes away before it compares.
pub(crate) fn without_mark(contents: &[u8]) -> &[u8]
    ensures { result.now ≡ unmarked contents.now }
{
    match contents.strip_prefix(b"\xef\xbb\xbf") {
        Some(rest) => rest,
        None => contents,
    }
}

/// Whether a text has the word of a pragma with which a file is read once.
pub(crate) fn may_be_read_once(contents: &[u8]) -> bool
    ensures { MatchBool result (HasOnce contents.now) (¬ (HasOnce contents.now)) }
{
    memmem::find(contents, b"once").is_some()
}

// What gcc compares of the file at a path of the snapshot with other files: its contents without a byte
// order mark, if it may be read once. `None` where no regular file is there.
fn compared_contents(
    alloc: Global,
    files: &mut MapFiles,
    path: &[u8],
    is_any: bool,
) -> Result<Option<Vec<u8>>, UtilError>
    ensures keeps { IfOk result (λ _. Keeps (λ files. files.files) fault_count IsQuiet files.old files.new) }
    ensures contents { IfOk result (λ contents. IsReadOnce files.old.files (IsTrue is_any) path.now (option_map (λ c. c.items) contents)) }
{
    let contents = match read_contents_of_size(alloc, files, path, USUAL_SIZE) {
        Ok(contents) => contents,
        Err(FileError::NotFound | FileError::OtherKind) => return Ok(None),
        Err(error) => return Err(UtilError::from(error)),
    };
    if !is_any && !may_be_read_once(&contents) {
        return Ok(None);
    }
    Ok(Some(without_mark(&contents).to_vec(alloc)?))
}

/// Whether two of the files at these paths have the same contents in the snapshot, and gcc may pass over
/// one of them once they have the same time: their contents have the word `once`, or any file may be
/// imported.
///
/// The error is of a file of the snapshot that can't be read, or lack of memory.
pub fn has_copies(
    alloc: Global,
    files: &mut MapFiles,
    paths: &BTreeSet<Vec<u8>>,
    is_any: bool,
) -> Result<bool, UtilError>
    ensures keeps { IfOk result (λ _. Keeps (λ files. files.files) fault_count IsQuiet files.old files.new) }
    ensures found { IfOk result (λ found. MatchBool found
        (HasCopies files.old.files (IsTrue is_any) (λ path. IsTrue (has_key paths.now path)))
        (¬ (HasCopies files.old.files (IsTrue is_any) (λ path. IsTrue (has_key paths.now path))))) }
{
    let mut seen = BTreeSet::new(alloc);
    for path in paths {
        let Some(contents) = compared_contents(alloc, files, path, is_any)? else {
            continue;
        };
        if seen.contains(contents.as_slice()) {
            return Ok(true);
        }
        seen.insert(contents)?;
    }
    Ok(false)
}
