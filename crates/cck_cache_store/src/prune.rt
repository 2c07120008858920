//! Removes files from a store.
use crate::limit::{Removal, remove_all, remove_to_fit};
use anyhow::Result;
use cck_cache_files::{Kind, StoreDirectory, StoredFile, list_files};
use cck_path::Timestamp;
use std::io::Write;
use std::rt::Files;

/// The files of the entries and of the objects of a store, in no order.
///
/// The error is of a directory that is there and can't be read, or lack of memory.
pub(crate) fn all_files<R: Files + AllocGlobal + Clone + Drop>(
    rt: &R,
    store: &StoreDirectory,
) -> Result<Vec<StoredFile>> {
    let mut files = list_files(rt, store, Kind::Entry)?;
    for file in list_files(rt, store, Kind::Object)? {
        files.push(file)?;
    }
    Ok(files)
}

// Prints what a removal did.
fn print_removal<W: Write>(removal: Removal, writer: &mut W) -> Result<()> {
    let Removal { removed, left } = removal;
    writeln!(writer, "removed {removed} files, {left} bytes left")?;
    Ok(())
}

/// Removes the files of `entries` and `objects` that were used longest ago, until those that are left
/// have no more than this many bytes, and the files there that killed recordings left, by the time of now. Prints how many
/// were removed and how many bytes are left. A file that can't be removed counts as left.
///
/// The error is of a directory that can't be read, a failed write, or lack of memory. After a failed
/// write the files are removed.
pub fn prune_store<R: Files + AllocGlobal + Clone + Drop, W: Write>(
    rt: &R,
    now: Timestamp,
    store: &StoreDirectory,
    max_size: u64,
    writer: &mut W,
) -> Result<()> {
    let files = all_files(rt, store)?;
    let removal = remove_to_fit(rt, now, files, max_size)?;
    print_removal(removal, writer)
}

/// Removes all files of `entries` and `objects`, also those that a recording is writing. Prints what [`prune_store`]
/// prints.
///
/// The error is of a directory that can't be read, a failed write, or lack of memory. After a failed
/// write the files are removed.
pub fn clear_store<R: Files + AllocGlobal + Clone + Drop, W: Write>(
    rt: &R,
    store: &StoreDirectory,
    writer: &mut W,
) -> Result<()> {
    let files = all_files(rt, store)?;
    print_removal(remove_all(rt, &files), writer)
}
