//! The listing of bytes that may be an entry.
ghost use Rattle.std.specs.Prelude.{◌≡◌, IfErr, IfOk};
ghost use Rattle.cck_explain_listing.specs.Bytes.{IsEntryOf, IsErrorFor, IsEntryListing, format_line};

use crate::entry_line::entry_lines;
use crate::fault::{Fault, fault_of};
use cck_digest::Error;
use cck_entry::PreprocessorCacheEntry;
use std::alloc::{AllocError, Global};

/// Why bytes have no listing.
#[derive(Clone, Copy)]
pub enum EntryError {
    /// An allocation failed.
    Memory,
    /// The bytes are no entry.
    NotEntry(Fault),
}

impl From<AllocError> for EntryError {
    ghost use Rattle.std.specs.Prelude.{◌≡◌};
    ghost use Rattle.cck_explain_listing.specs.declared.entry_text.EntryError.TheVariants.{Memory};

    ghost from_gives = { λ _ error. error ≡ Memory };

    fn from(_: AllocError) -> EntryError {
        EntryError::Memory
    }
}

// Returns the entry whose text these bytes are.
#[tactic(auto, using(crate::proofs::NoEntryLemmas::no_format, crate::proofs::NoEntryLemmas::no_text))]
fn read(alloc: Global, bytes: &[u8]) -> Result<PreprocessorCacheEntry, EntryError>
    ensures entry { IfOk result (λ e. IsEntryOf e bytes.now) }
    ensures errors { IfErr result (λ error. IsErrorFor bytes.now error) }
{
    match PreprocessorCacheEntry::read(alloc, bytes) {
        Ok(entry) => Ok(entry),
        Err(Error::Memory) | Err(Error::Io(_)) => Err(EntryError::Memory),
        Err(Error::Deserialization) | Err(Error::UnknownFormat(_)) => {
            Err(EntryError::NotEntry(fault_of(bytes)))
        }
    }
}

// Returns the line of the format.
fn format_line(alloc: Global, bytes: &[u8]) -> Result<Vec<u8>, AllocError>
    ensures { IfOk result (λ line. line.items ≡ format_line bytes.now) }
{
    match bytes.first() {
        None => b"format -\n".to_vec(alloc),
        Some(format) => {
            let format = *format;
            Ok(format!(in alloc; "format {format}\n")?.into_bytes())
        }
    }
}

/// Returns the listing of the entry that [`PreprocessorCacheEntry::read`] returns for these bytes: a
/// line with the format, or `-` for no bytes; for each result, in the order of the keys, a line with
/// its key and the number of its includes; and a line for each include with its path, digest, size in
/// bytes, and the times of its last modification and last change, or `-` for none.
///
/// For lack of memory the error is [`EntryError::Memory`]. Otherwise it is [`EntryError::NotEntry`]
/// exactly if there is at least one byte and the bytes are the text of no entry; it has the place
/// where they stop being an entry, and the cause.
pub fn entry_listing(alloc: Global, bytes: &[u8]) -> Result<Vec<u8>, EntryError>
    ensures listed { IfOk result (λ listing. IsEntryListing bytes.now listing.items) }
    ensures errors { IfErr result (λ error. IsErrorFor bytes.now error) }
{
    let entry = read(alloc, bytes)?;
    let mut listing = format_line(alloc, bytes)?;
    let lines = entry_lines(alloc, &entry)?;
    listing.extend_from_slice(&lines)?;
    Ok(listing)
}
