//! The files of a store.
ghost use Rattle.std.specs.Prelude.{All, IfOk, IfSome, codes};
ghost use Rattle.cck_cache_files.specs.Paths.{directory_bytes, kind_name};
ghost use Rattle.cck_cache_files.specs.Listing.{AddsFilesIn, AreFileNames, IsFileBelow, IsFileIn, IsFileNamed, IsInShare, path_in};

use crate::path_in::path_in;
use crate::store_directory::{Kind, StoreDirectory};
use crate::times::modified;
use cck_path::Timestamp;
use std::alloc::AllocError;
use std::io::ErrorKind;
use std::rt::Files;
use std::{fs, io};

/// A file of a store.
#[derive(Drop)]
pub struct StoredFile {
    /// Its path.
    pub path: String,
    /// Its size in bytes.
    pub size: u64,
    /// When it was last used or written.
    pub used: Timestamp,
    /// Whether it was being written beside another one, and was not renamed.
    pub is_new: bool,
}

// The names in a directory. What is not there, or is no directory, has none: a file that another
// program left among the directories of a store is passed over.
fn names_in<R: Files + AllocGlobal + Clone + Drop>(
    rt: &R,
    directory: &str,
) -> io::Result<Vec<String>>
    ensures { IfOk result (λ names. AreFileNames names.items) }
{
    let alloc = rt.alloc();
    let mut names = Vec::new(alloc);
    let entries = match fs::read_dir(rt, directory) {
        Ok(entries) => entries,
        Err(error) if error.kind() == ErrorKind::NotFound => return Ok(names),
        Err(error) if error.kind() == ErrorKind::NotADirectory => return Ok(names),
        Err(error) => return Err(error),
    };
    for entry in entries {
        let entry = entry?;
        names.push(String::from_str(alloc, entry.file_name())?)?;
    }
    Ok(names)
}

// The regular file of this name in a directory. `None` where it can't be looked at. The name alone
// says whether it was renamed: the directories above may have any names.
fn file_in<R: Files + AllocGlobal>(
    rt: &R,
    directory: &str,
    name: &str,
) -> Result<Option<StoredFile>, AllocError>
    ensures { IfOk result (λ found. IfSome found (IsFileNamed directory.now name.now)) }
{
    let path = path_in(rt.alloc(), directory, name)?;
    let Ok(metadata) = fs::symlink_metadata(rt, path.as_str()) else {
        return Ok(None);
    };
    if !metadata.is_file() {
        return Ok(None);
    }
    let Some(used) = modified(&metadata) else {
        return Ok(None);
    };
    let is_new = name.contains(".new");
    Ok(Some(StoredFile {
        path,
        size: metadata.len(),
        used,
        is_new,
    }))
}

// Adds the regular files in a directory. A file that another process removed meanwhile is left out.
fn add_files<R: Files + AllocGlobal + Clone + Drop>(
    rt: &R,
    files: &mut Vec<StoredFile>,
    directory: &str,
) -> io::Result<()>
    ensures { AddsFilesIn directory.now files.old.items files.new.items }
{
    let names = names_in(rt, directory)?;
    for name in &names {
        if let Some(file) = file_in(rt, directory, name.as_str())? {
            files.push(file)?;
        }
    }
    Ok(())
}

/// The files of this kind in a store, in no order. A file that can't be looked at is left out.
///
/// The error is of a directory that is there and can't be read, or lack of memory.
pub fn list_files<R: Files + AllocGlobal + Clone + Drop>(
    rt: &R,
    store: &StoreDirectory,
    kind: Kind,
) -> io::Result<Vec<StoredFile>>
    ensures { IfOk result (λ files.
        All (IsFileBelow (path_in (directory_bytes store.now) (kind_name kind))) files.items) }
{
    let alloc = rt.alloc();
    let owned = path_in(alloc, store.directory(), kind.as_str())?;
    let directory = owned.as_str();
    let mut files = Vec::new(alloc);
    let names = names_in(rt, directory)?;
    for name in &names {
        let path = path_in(alloc, directory, name.as_str())?;
        add_files(rt, &mut files, path.as_str())?;
    }
    Ok(files)
}

/// The files of the entries and of the objects whose keys begin with the first two digits of this key, in no
/// order. A file that can't be looked at is left out.
///
/// The error is of a directory that is there and can't be read, or lack of memory.
pub fn list_share<R: Files + AllocGlobal + Clone + Drop>(
    rt: &R,
    store: &StoreDirectory,
    key: &str,
) -> io::Result<Vec<StoredFile>>
    ensures { IfOk result (λ files. All (IsInShare (directory_bytes store.now) key.now) files.items) }
{
    let entries = store.directory_of(rt, Kind::Entry, key)?;
    let objects = store.directory_of(rt, Kind::Object, key)?;
    let mut files = Vec::new(rt.alloc());
    add_files(rt, &mut files, entries.as_str())?;
    add_files(rt, &mut files, objects.as_str())?;
    Ok(files)
}

/// The files that count the events of a store, in no order: the size of each is its count. A file
/// that can't be looked at is left out.
///
/// The error is of a directory that is there and can't be read, or lack of memory.
pub fn list_counts<R: Files + AllocGlobal + Clone + Drop>(
    rt: &R,
    store: &StoreDirectory,
) -> io::Result<Vec<StoredFile>>
    ensures { IfOk result (λ files.
        All (IsFileIn (path_in (directory_bytes store.now) (codes "counts"))) files.items) }
{
    let directory = path_in(rt.alloc(), store.directory(), "counts")?;
    let mut files = Vec::new(rt.alloc());
    add_files(rt, &mut files, directory.as_str())?;
    Ok(files)
}
