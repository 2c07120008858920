//! What a store has, and what was counted.
use crate::limit::total_size;
use anyhow::Result;
use cck_cache_files::{Kind, StoreDirectory, list_counts, list_files};
use std::io::Write;
use std::rt::Files;

/// A path after its last slash.
pub(crate) fn name_of(path: &str) -> &str {
    match path.rsplit_once('/') {
        Some((_, name)) => name,
        None => path,
    }
}

// Prints the limit of a store.
fn print_limit<W: Write>(limit: Option<u64>, writer: &mut W) -> Result<()> {
    match limit {
        Some(limit) => writeln!(writer, "limit {limit}")?,
        None => writeln!(writer, "limit none")?,
    }
    Ok(())
}

/// Prints the number and the size in bytes of the files of each kind, the size of all, the limit, and each count.
///
/// The error is of a directory that can't be read, of a failed write, or lack of memory. Some lines may
/// then be written.
pub fn print_stats<R: Files + AllocGlobal + Clone + Drop, W: Write>(
    rt: &R,
    limit: Option<u64>,
    store: &StoreDirectory,
    writer: &mut W,
) -> Result<()> {
    let mut all = 0u64;
    for kind in [Kind::Entry, Kind::Object] {
        let files = list_files(rt, store, kind)?;
        let (name, number, size) = (kind.as_str(), files.len(), total_size(&files));
        writeln!(writer, "{name} {number} {size}")?;
        all = all.saturating_add(size);
    }
    writeln!(writer, "size {all}")?;
    print_limit(limit, writer)?;
    let mut counts = list_counts(rt, store)?;
    counts.sort_by(|a, b| a.path.as_str().cmp(b.path.as_str()))?;
    for count in &counts {
        let (name, number) = (name_of(count.path.as_str()), count.size);
        writeln!(writer, "count {name} {number}")?;
    }
    Ok(())
}
