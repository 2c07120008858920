//! A file that changed since an entry was recorded.
ghost use Rattle.std.specs.Prelude.{◌≡◌, ◌↔◌, IfOk, IfSome, IsTrue, Some, map, string_bytes};
ghost use Rattle.std.specs.Option.{option_map};
ghost use Rattle.cck_cache.specs.Changed.{IsChanged, MayMatch};
ghost use Rattle.cck_files.specs.FileDigest.{digest_text_at};
ghost use Rattle.cck_path.specs.Path.{components};
ghost use Rattle.sha2.specs.Sha256.{sha256};

use anyhow::Result;
use cck_cache_rules::may_have_digest;
use cck_cache_store::entry_view;
use cck_digest::{Digest, UtilError};
use cck_entry::ResultRef;
use cck_files::{DigestFiles, Files, MapFiles};
use cck_util::Sha256State;
use std::alloc::{AllocError, Global};

/// A file that an entry names and that has other contents than the entry has of it.
#[derive(Drop)]
pub struct Changed {
    /// The path by which the entry names it.
    pub path: Vec<u8>,
    /// The hex digest of its contents.
    pub digest: String,
}

// The hex digest of what a snapshot has at a path. `None` where it has nothing there: it has only files whose status is not
// known, and to look first is less than a buffer for each other one.
fn digest_in(alloc: Global, files: &mut MapFiles, path: &[u8]) -> Result<Option<String>, UtilError>
    ensures found { IfOk result (λ found. IfSome found (λ digest.
        digest_text_at sha256 files.old.files (components path.now) ≡ Some (string_bytes digest))) }
    ensures kept { files.new.files ≡ files.old.files }
{
    if files.metadata(path).is_err() {
        return Ok(None);
    }
    match Digest::<Sha256State>::file(alloc, files, path) {
        Ok(digest) => Ok(Some(digest)),
        Err(UtilError::Memory) => Err(UtilError::Memory),
        Err(_) => Ok(None),
    }
}

// The first file that a result included and that a snapshot has with other contents.
fn changed_of(
    alloc: Global,
    files: &mut MapFiles,
    found: &ResultRef<'_>,
) -> Result<Option<Changed>, UtilError>
    ensures changed { IfOk result (λ changed. IfSome changed (IsChanged files.old.files)) }
    ensures kept { files.new.files ≡ files.old.files }
{
    for include in found.includes() {
        let Some(digest) = digest_in(alloc, files, include.path)? else {
            continue;
        };
        if !include.digest.starts_with(digest.as_str()) {
            return Ok(Some(Changed {
                path: include.path.to_vec(alloc)?,
                digest,
            }));
        }
    }
    Ok(None)
}

/// The first file that an entry of these bytes names and that a snapshot has with other contents.
///
/// The only error is lack of memory.
pub fn changed_in(alloc: Global, files: &mut MapFiles, bytes: &[u8]) -> Result<Option<Changed>>
    ensures { IfOk result (λ changed. IfSome changed (IsChanged files.old.files)) }
{
    let Some(entry) = entry_view(alloc, bytes)? else {
        return Ok(None);
    };
    for found in entry.results() {
        let changed = changed_of(alloc, files, found)?;
        if changed.is_some() {
            return Ok(changed);
        }
    }
    Ok(None)
}

/// Whether a result of an entry file of these bytes may match, where this file is known to have changed. `false` only
/// where the bytes name the file and have not the digest of its contents.
///
/// The only error is lack of memory.
pub fn may_match(alloc: Global, changed: Option<&Changed>, bytes: &[u8]) -> Result<bool, AllocError>
    ensures { IfOk result (λ may. IsTrue may ↔ MayMatch (option_map (λ c. c.now) changed.entry) bytes.now) }
{
    match changed {
        Some(changed) => may_have_digest(alloc, bytes, &changed.path, changed.digest.as_str()),
        None => Ok(true),
    }
}
