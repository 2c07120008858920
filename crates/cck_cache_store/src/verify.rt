//! Tests the files of a store.
ghost use Rattle.std.specs.Prelude.{◌≡◌, ◌↔◌, IfOk, IsTrue};
ghost use Rattle.cck_cache_store.specs.Verify.{IsEntryName, IsSoundEntry, IsSoundObject, key_in};

use crate::entry::entry_view;
use crate::stats::name_of;
use anyhow::{Result, bail};
use cck_cache_files::{ENTRY_FILES, Kind, StoreDirectory, StoredFile, entry_name, list_files};
use cck_cache_rules::{entry_in, object_in};
use std::alloc::{AllocError, Global};
use std::fs;
use std::io::{ErrorKind, Write};
use std::rt::Files;

// How a file of a store is.
#[derive(Clone, Copy)]
enum State {
    // It is that of its name.
    Sound,
    // It is not.
    Damaged,
    // It can't be read.
    Unread,
    // Another process removed it after it was listed.
    Gone,
}

// What a test of files found.
#[derive(Clone, Copy)]
struct Verified {
    // The number of files that were tested.
    tested: u64,
    // The number of files that were removed.
    removed: u64,
    // The number of those that are damaged and could not be removed, or that can't be read.
    left: u64,
}

// The key in the name of an entry file.
fn key_in(name: &str) -> &str
    ensures { result.now ≡ key_in name.now }
{
    match name.split_once('.') {
        Some((key, _)) => key,
        None => name,
    }
}

// Whether a name is that of an entry file.
fn is_entry_name(alloc: Global, name: &str) -> Result<bool, AllocError>
    ensures { IfOk result (λ is. IsTrue is ↔ IsEntryName name.now) }
{
    let key = key_in(name);
    for place in 0..ENTRY_FILES {
        if entry_name(alloc, key, place)?.as_str() == name {
            return Ok(true);
        }
    }
    Ok(false)
}

/// Whether bytes are those of the entry file of this name: of the preprocessor key before the first point of the
/// name, at the place that is after it, and with the bytes of an entry.
///
/// The only error is lack of memory.
pub fn is_sound_entry(alloc: Global, name: &str, bytes: &[u8]) -> Result<bool, AllocError>
    ensures { IfOk result (λ is. IsTrue is ↔ IsSoundEntry name.now bytes.now) }
{
    if !is_entry_name(alloc, name)? {
        return Ok(false);
    }
    let Some(file) = entry_in(alloc, key_in(name), bytes)? else {
        return Ok(false);
    };
    let Some(_) = entry_view(alloc, &file.entry)? else {
        return Ok(false);
    };
    Ok(true)
}

/// Whether bytes are those of the object file of this name.
///
/// The only error is lack of memory.
pub fn is_sound_object(alloc: Global, name: &str, bytes: &[u8]) -> Result<bool, AllocError>
    ensures { IfOk result (λ is. IsTrue is ↔ IsSoundObject name.now bytes.now) }
{
    let Some(_) = object_in(alloc, name, bytes)? else {
        return Ok(false);
    };
    Ok(true)
}

// Whether bytes are those of the file of this kind and name.
fn is_sound(alloc: Global, kind: Kind, name: &str, bytes: &[u8]) -> Result<bool, AllocError> {
    match kind {
        Kind::Entry => is_sound_entry(alloc, name, bytes),
        Kind::Object => is_sound_object(alloc, name, bytes),
    }
}

// How a file of this kind is. One in the directory of another key is damaged.
fn state_of<R: Files + AllocGlobal>(
    rt: &R,
    store: &StoreDirectory,
    kind: Kind,
    file: &StoredFile,
) -> Result<State, AllocError> {
    let name = name_of(file.path.as_str());
    let place = store.path_of(rt, kind, name)?;
    if place.as_str() != file.path.as_str() {
        return Ok(State::Damaged);
    }
    let bytes = match fs::read(rt, place.as_str()) {
        Ok(bytes) => bytes,
        Err(error) if error.kind() == ErrorKind::NotFound => return Ok(State::Gone),
        Err(error) if error.kind() == ErrorKind::OutOfMemory => return Err(AllocError),
        Err(_) => return Ok(State::Unread),
    };
    Ok(if is_sound(rt.alloc(), kind, name, &bytes)? {
        State::Sound
    } else {
        State::Damaged
    })
}

// Tests a file, removes it if it is damaged, and prints what is wrong with it. Returns what was found so far.
fn verify_file<R: Files + AllocGlobal, W: Write>(
    rt: &R,
    store: &StoreDirectory,
    kind: Kind,
    file: &StoredFile,
    so_far: Verified,
    writer: &mut W,
) -> Result<Verified> {
    let path = file.path.as_str();
    let mut verified = so_far;
    match state_of(rt, store, kind, file)? {
        State::Gone => return Ok(verified),
        State::Sound => {}
        State::Damaged => {
            writeln!(writer, "damaged {path}")?;
            match fs::remove_file(rt, path) {
                Ok(()) => verified.removed = verified.removed.saturating_add(1),
                Err(_) => verified.left = verified.left.saturating_add(1),
            }
        }
        State::Unread => {
            writeln!(writer, "unread {path}")?;
            verified.left = verified.left.saturating_add(1);
        }
    }
    verified.tested = verified.tested.saturating_add(1);
    Ok(verified)
}

/// Tests each file of `entries` and `objects`, but for those that are being written, and removes what is damaged: a
/// file that is not [that](is_sound_entry) [of its name](is_sound_object), or is in the directory of another key.
/// Prints `damaged PATH` for each of these, `unread PATH` for a file that can't be read, and last how many files were
/// tested and how many were removed.
///
/// The error is of a directory that can't be read, a failed write, lack of memory, or at the end of files that are
/// damaged and could not be removed, or that can't be read. Some files may then be removed.
pub fn verify_store<R: Files + AllocGlobal + Clone + Drop, W: Write>(
    rt: &R,
    store: &StoreDirectory,
    writer: &mut W,
) -> Result<()> {
    let mut verified = Verified {
        tested: 0,
        removed: 0,
        left: 0,
    };
    for kind in [Kind::Entry, Kind::Object] {
        for file in list_files(rt, store, kind)? {
            if !file.is_new {
                verified = verify_file(rt, store, kind, &file, verified, writer)?;
            }
        }
    }
    let Verified {
        tested,
        removed,
        left,
    } = verified;
    writeln!(writer, "verified {tested} files, removed {removed}")?;
    if left > 0 {
        bail!("{left} files are damaged or can't be read");
    }
    Ok(())
}
