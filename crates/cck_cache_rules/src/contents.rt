//! What bytes of a file of a store hold for a key.
ghost use Rattle.std.specs.Prelude.{IfOk};
ghost use Rattle.std.specs.Option.{option_map};
ghost use Rattle.cck_cache_rules.specs.Files.{IsEntryFile, entry_fields, entry_file, object_fields, object_file};
ghost use Rattle.cck_cache_rules.specs.Reading.{IsAny};
ghost use Rattle.cck_cache_rules.specs.Contents.{ReadsFor, key_of_entry, key_of_object};

use crate::{EntryFile, ObjectFile};
use std::alloc::{AllocError, Global};

/// The entry file that these bytes are, if it is one of this preprocessor key. `None` for all other
/// bytes: those of no entry file, and those of another key.
///
/// The only error is lack of memory.
pub fn entry_in(alloc: Global, key: &str, bytes: &[u8]) -> Result<Option<EntryFile>, AllocError>
    ensures { IfOk result (λ found.
        ReadsFor IsEntryFile key_of_entry entry_file key.now bytes.now (option_map entry_fields found)) }
{
    let Some(file) = EntryFile::read(alloc, bytes)? else {
        return Ok(None);
    };
    if file.preprocessor_key.as_slice() == key.as_bytes() {
        Ok(Some(file))
    } else {
        Ok(None)
    }
}

/// The object file that these bytes are, if it is one of this key. `None` for all other bytes: those
/// of no object file, and those of another key.
///
/// The only error is lack of memory.
pub fn object_in(alloc: Global, key: &str, bytes: &[u8]) -> Result<Option<ObjectFile>, AllocError>
    ensures { IfOk result (λ found.
        ReadsFor IsAny key_of_object object_file key.now bytes.now (option_map object_fields found)) }
{
    let Some(file) = ObjectFile::read(alloc, bytes)? else {
        return Ok(None);
    };
    if file.key.as_slice() == key.as_bytes() {
        Ok(Some(file))
    } else {
        Ok(None)
    }
}
