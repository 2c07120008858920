//! The limit of a store, and how files are removed.
use anyhow::Result;
use cck_cache_files::{Kind, StoreDirectory, StoredFile, list_share};
use cck_cache_rules::{is_abandoned, removed_count};
use cck_path::Timestamp;
use std::alloc::{AllocError, Global};
use std::fs;
use std::io::ErrorKind;
use std::rt::Files;

// The shares of a store, one for each pair of hexadecimal digits that a key begins with: each has an equal part
// of the limit.
const SHARES: u64 = 256;

/// What a removal of files did.
#[derive(Clone, Copy)]
pub(crate) struct Removal {
    /// The number of files that it removed.
    pub removed: u64,
    /// The bytes of the files that are left.
    pub left: u64,
}

/// The bytes of all files together, and `u64::MAX` where there are more.
pub(crate) fn total_size(files: &[StoredFile]) -> u64 {
    let mut total = 0u64;
    for file in files {
        total = total.saturating_add(file.size);
    }
    total
}

// The size of each file.
fn sizes_of(alloc: Global, files: &[StoredFile]) -> Result<Vec<u64>, AllocError> {
    let mut sizes = Vec::new(alloc);
    for file in files {
        sizes.push(file.size)?;
    }
    Ok(sizes)
}

// What a removal did after one more file.
fn remove<R: Files + AllocGlobal>(rt: &R, file: &StoredFile, so_far: Removal) -> Removal {
    let Removal { removed, left } = so_far;
    let less = left.saturating_sub(file.size);
    match fs::remove_file(rt, file.path.as_str()) {
        Ok(()) => Removal {
            removed: removed.saturating_add(1),
            left: less,
        },
        // Another process removed it after it was listed: its bytes are not left.
        Err(error) if error.kind() == ErrorKind::NotFound => Removal {
            removed,
            left: less,
        },
        Err(_) => so_far,
    }
}

/// Removes all these files. A file that can't be removed counts as left.
pub(crate) fn remove_all<R: Files + AllocGlobal>(rt: &R, files: &[StoredFile]) -> Removal {
    let mut removal = Removal {
        removed: 0,
        left: total_size(files),
    };
    for file in files {
        removal = remove(rt, file, removal);
    }
    removal
}

/// Removes those of these files that were used longest ago, until the others have no more than `most` bytes
/// together, and those that killed recordings left, by the time of now. A file that can't be removed counts as left.
///
/// The only error is lack of memory, and then no file was removed.
pub(crate) fn remove_to_fit<R: Files + AllocGlobal>(
    rt: &R,
    now: Timestamp,
    files: Vec<StoredFile>,
    most: u64,
) -> Result<Removal, AllocError> {
    let mut files = files;
    files.sort_by(|a, b| a.used.cmp(&b.used))?;
    let sizes = sizes_of(rt.alloc(), &files)?;
    let count = removed_count(&sizes, most);
    let mut removal = Removal {
        removed: 0,
        left: total_size(&files),
    };
    for (index, file) in files.iter().enumerate() {
        if index < count || is_abandoned(file.is_new, file.used, now) {
            removal = remove(rt, file, removal);
        }
    }
    Ok(removal)
}

// Whether a recording may remove a file of the store: it is none of the keys whose files it wrote, and none that is
// being written.
fn may_remove(now: Timestamp, file: &StoredFile, written: &[String]) -> bool {
    if file.is_new {
        return is_abandoned(true, file.used, now);
    }
    for path in written {
        if file.path.starts_with(path.as_str()) {
            return false;
        }
    }
    true
}

// Removes files from the share of a key, until it has no more than `most` bytes. Those that are not removed count
// too.
fn limit_share<R: Files + AllocGlobal + Clone + Drop>(
    rt: &R,
    now: Timestamp,
    store: &StoreDirectory,
    key: &str,
    written: &[String],
    most: u64,
) -> Result<()> {
    let mut files = Vec::new(rt.alloc());
    let mut left = most;
    for file in list_share(rt, store, key)? {
        if may_remove(now, &file, written) {
            files.push(file)?;
        } else {
            left = left.saturating_sub(file.size);
        }
    }
    remove_to_fit(rt, now, files, left)?;
    Ok(())
}

/// Removes what was used longest ago from the two shares of the store in which the object of this name and the
/// entry of this key were recorded, where a share has more than its part of `limit`, in bytes. The files of the two
/// keys are left, and what another process is writing.
///
/// The error is of a directory that can't be read, or lack of memory. Some files may then be removed.
pub fn limit_shares<R: Files + AllocGlobal + Clone + Drop>(
    rt: &R,
    now: Timestamp,
    limit: u64,
    store: &StoreDirectory,
    object_name: &str,
    preprocessor_key: &str,
) -> Result<()> {
    let most = limit / SHARES;
    let mut written = Vec::new(rt.alloc());
    written.push(store.path_of(rt, Kind::Object, object_name)?)?;
    written.push(store.path_of(rt, Kind::Entry, preprocessor_key)?)?;
    limit_share(rt, now, store, object_name, &written, most)?;
    if object_name.get(..2) != preprocessor_key.get(..2) {
        limit_share(rt, now, store, preprocessor_key, &written, most)?;
    }
    Ok(())
}
