//! Prints what a file of a store says.
use crate::listing::{entry_file_listing, object_file_listing};
use anyhow::{Result, bail};
use cck_cache_files::{ENTRY_FILES, Kind, StoreDirectory, entry_name};
use cck_cache_rules::{EntryFile, ObjectFile};
use cck_explain_listing::EntryError;
use std::io::{ErrorKind, Write};
use std::rt::Files;
use std::{fs, io};

// The bytes of the file at a path. `None` where there is none.
fn bytes_at<R: Files + AllocGlobal>(rt: &R, path: &str) -> io::Result<Option<Vec<u8>>> {
    match fs::read(rt, path) {
        Ok(bytes) => Ok(Some(bytes)),
        Err(error) if error.kind() == ErrorKind::NotFound => Ok(None),
        Err(error) => Err(error),
    }
}

// The lines of the file that these bytes are.
fn listing_of<R: AllocGlobal>(rt: &R, path: &str, bytes: &[u8]) -> Result<Vec<u8>> {
    let alloc = rt.alloc();
    if let Some(file) = EntryFile::read(alloc, bytes)? {
        return match entry_file_listing(alloc, &file) {
            Ok(listing) => Ok(listing),
            Err(EntryError::Memory) => bail!("out of memory"),
            Err(EntryError::NotEntry(fault)) => bail!("{path}: {fault}"),
        };
    }
    match ObjectFile::read(alloc, bytes)? {
        Some(file) => Ok(object_file_listing(alloc, &file)?),
        None => bail!("{path}: not an entry file and not an object file"),
    }
}

// Prints the path of a file, and what the file says. Returns whether there is one.
fn print_file<R: Files + AllocGlobal, W: Write>(
    rt: &R,
    path: &str,
    writer: &mut W,
) -> Result<bool> {
    let Some(bytes) = bytes_at(rt, path)? else {
        return Ok(false);
    };
    let listing = listing_of(rt, path, &bytes)?;
    writeln!(writer, "path {path}")?;
    writer.write_all(&listing)?;
    Ok(true)
}

// Prints the store's entry files of a preprocessor key, or of a name. Returns whether there is one.
fn print_entries<R: Files + AllocGlobal, W: Write>(
    rt: &R,
    store: &StoreDirectory,
    key: &str,
    writer: &mut W,
) -> Result<bool> {
    let mut has_file = false;
    for place in 0..ENTRY_FILES {
        let name = entry_name(rt.alloc(), key, place)?;
        let path = store.path_of(rt, Kind::Entry, name.as_str())?;
        has_file |= print_file(rt, path.as_str(), writer)?;
    }
    Ok(has_file)
}

/// Prints what files of a store say: `path PATH`, and after it the lines of [`entry_file_listing`] or of
/// [`object_file_listing`]. They are the file at this path, if the word has a slash; else the entry files of this
/// preprocessor key, and the entry file and the object file of this name.
///
/// The error is of a word for which there is no file, of a file that can't be read or is neither, of a failed write,
/// or lack of memory. Some files may then be printed.
pub fn print_files<R: Files + AllocGlobal, W: Write>(
    rt: &R,
    store: &StoreDirectory,
    word: &str,
    writer: &mut W,
) -> Result<()> {
    if word.contains('/') {
        if !print_file(rt, word, writer)? {
            bail!("{word}: there is no such file");
        }
        return Ok(());
    }
    let has_entry = print_entries(rt, store, word, writer)?;
    let path = store.path_of(rt, Kind::Object, word)?;
    if !print_file(rt, path.as_str(), writer)? && !has_entry {
        let directory = store.directory();
        bail!("{directory} has no file of {word}");
    }
    Ok(())
}
