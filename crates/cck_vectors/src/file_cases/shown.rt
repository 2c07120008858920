//! How results are written that several calls return.
use crate::cases::{end_line, write_moment};
use cck_entry::{IncludeEntry, PreprocessorCacheEntry};
use cck_path::Entries;
use cck_util::{FileKind, Metadata};
use std::alloc::{AllocError, Global};

/// Writes a line for each path and its value.
pub(crate) fn write_pairs(
    text: &mut Vec<u8>,
    entries: Entries<'_, Vec<u8>>,
) -> Result<(), AllocError> {
    for entry in entries {
        end_line(text)?;
        text.extend_from_slice(&entry.path)?;
        text.push(b' ')?;
        text.extend_from_slice(&entry.value)?;
    }
    Ok(())
}

/// Writes a line for each name.
pub(crate) fn write_names(text: &mut Vec<u8>, names: &[Vec<u8>]) -> Result<(), AllocError> {
    for name in names {
        end_line(text)?;
        text.extend_from_slice(name)?;
    }
    Ok(())
}

/// Writes a line for each text.
pub(crate) fn write_texts(text: &mut Vec<u8>, texts: &[String]) -> Result<(), AllocError> {
    for one in texts {
        end_line(text)?;
        text.extend_from_slice(one.as_bytes())?;
    }
    Ok(())
}

fn kind_word(kind: FileKind) -> &'static str {
    match kind {
        FileKind::File => "file",
        FileKind::Folder => "folder",
        FileKind::Other => "other",
    }
}

/// Writes the kind, the length and the times of what is at a path.
pub(crate) fn write_metadata(
    alloc: Global,
    text: &mut Vec<u8>,
    metadata: &Metadata,
) -> Result<(), AllocError> {
    let (kind, len) = (kind_word(metadata.kind), metadata.len);
    text.extend_from_slice(format!(in alloc; "{kind} {len} ")?.as_bytes())?;
    write_moment(alloc, text, metadata.modified)?;
    text.push(b' ')?;
    write_moment(alloc, text, metadata.changed)
}

/// Writes a line for the counts of an entry.
pub(crate) fn write_counts(
    alloc: Global,
    text: &mut Vec<u8>,
    entry: &PreprocessorCacheEntry,
) -> Result<(), AllocError> {
    let (results, includes) = (entry.result_count(), entry.number_of_entries());
    let counts = format!(in alloc; "{results} results, {includes} includes")?;
    text.extend_from_slice(counts.as_bytes())
}

/// Writes a line for the counts of an entry, and one for each result and each include.
pub(crate) fn write_entry(
    alloc: Global,
    text: &mut Vec<u8>,
    entry: &PreprocessorCacheEntry,
) -> Result<(), AllocError> {
    write_counts(alloc, text, entry)?;
    for (key, list) in entry.results() {
        text.extend_from_slice(b"\nresult ")?;
        text.extend_from_slice(key.as_bytes())?;
        write_includes(alloc, text, list)?;
    }
    Ok(())
}

/// Writes a line for each include: its path, digest, size and times.
pub(crate) fn write_includes(
    alloc: Global,
    text: &mut Vec<u8>,
    includes: &[IncludeEntry],
) -> Result<(), AllocError> {
    for include in includes {
        end_line(text)?;
        text.extend_from_slice(b"include ")?;
        text.extend_from_slice(&include.path)?;
        write_recorded(alloc, text, include)?;
    }
    Ok(())
}

fn write_recorded(
    alloc: Global,
    text: &mut Vec<u8>,
    include: &IncludeEntry,
) -> Result<(), AllocError> {
    let (digest, size) = (include.digest.as_str(), include.file_size);
    text.extend_from_slice(format!(in alloc; " \"{digest}\" {size} ")?.as_bytes())?;
    write_moment(alloc, text, include.mtime)?;
    text.push(b' ')?;
    write_moment(alloc, text, include.ctime)
}
