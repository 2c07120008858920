//! Which entry file of a preprocessor key a recording writes.
ghost use Rattle.std.specs.Prelude.{◌<◌, ◌↔◌, IfOk, IsTrue};
ghost use Rattle.cck_cache.specs.EntryPlace.{HasSameEntry};
ghost use Rattle.cck_cache_files.specs.EntryNames.{entry_files};
ghost use Rattle.cck_cache_rules.specs.Files.{entry_fields};

use crate::look::{Kept, read_entry};
use cck_cache_files::{ENTRY_FILES, Kind, StoreDirectory, entry_name, modified};
use cck_cache_rules::EntryFile;
use cck_path::Timestamp;
use std::alloc::AllocError;
use std::fs;
use std::rt::Files;

// What is at a place.
enum Place {
    // Nothing that a look-up can use.
    Free,
    // An entry file of the same entry, with the same tests.
    Same,
    // Another entry file, which was last used at this time, if that is known.
    Used(Option<Timestamp>),
}

// Whether two entry files have the same entry and the same tests of paths. Their statuses may differ.
fn has_same_entry(a: &EntryFile, b: &EntryFile) -> bool
    ensures { IsTrue result ↔ HasSameEntry (entry_fields a.now) (entry_fields b.now) }
{
    a.entry == b.entry && a.tests == b.tests
}

// When the store's entry file of this name was last used. `None` where that is not known.
fn last_use<R: Files + AllocGlobal>(
    rt: &R,
    store: &StoreDirectory,
    name: &str,
) -> Result<Option<Timestamp>, AllocError> {
    let path = store.path_of(rt, Kind::Entry, name)?;
    Ok(match fs::metadata(rt, path.as_str()) {
        Ok(found) => modified(&found),
        Err(_) => None,
    })
}

// What is at a place of this preprocessor key, beside an entry file that is to be written. A file that can't be
// read is replaced.
fn place_at<R: Files + AllocGlobal>(
    rt: &R,
    store: &StoreDirectory,
    key: &str,
    place: usize,
    file: &EntryFile,
) -> Result<Place, AllocError> {
    let name = entry_name(rt.alloc(), key, place)?;
    Ok(match read_entry(rt, store, key, name.as_str()) {
        Ok(Kept::Entry(held)) if has_same_entry(&held, file) => Place::Same,
        Ok(Kept::Entry(_)) => Place::Used(last_use(rt, store, name.as_str())?),
        Ok(Kept::Nothing | Kept::Damaged) | Err(_) => Place::Free,
    })
}

/// The place at which an entry file of this preprocessor key is written: that of a file of the same entry and tests; else
/// the first one without a file that can be used; else that of the file that was used longest ago.
///
/// The only error is lack of memory.
pub fn place_for<R: Files + AllocGlobal>(
    rt: &R,
    store: &StoreDirectory,
    key: &str,
    file: &EntryFile,
) -> Result<usize, AllocError>
    ensures { IfOk result (λ place. place < entry_files) }
{
    let mut free = None;
    let mut oldest = 0;
    let mut oldest_use = None;
    for place in 0..ENTRY_FILES {
        match place_at(rt, store, key, place, file)? {
            Place::Same => return Ok(place),
            Place::Free => free = free.or(Some(place)),
            Place::Used(time) => {
                if place == 0 || time < oldest_use {
                    oldest = place;
                    oldest_use = time;
                }
            }
        }
    }
    Ok(free.unwrap_or(oldest))
}
