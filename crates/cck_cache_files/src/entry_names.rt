//! The names of the entry files of a preprocessor key.
ghost use Rattle.std.specs.Prelude.{◌≡◌, IfOk, string_bytes};
ghost use Rattle.cck_cache_files.specs.EntryNames.{entry_name};

use std::alloc::{AllocError, Global};

/// The most entry files that a store has of one preprocessor key. A look-up that misses asks for each.
pub const ENTRY_FILES: usize = 16;

/// The name of the entry file of a preprocessor key at a place, counted from 0.
///
/// The only error is lack of memory.
pub fn entry_name(alloc: Global, key: &str, place: usize) -> Result<String, AllocError>
    ensures { IfOk result (λ name. string_bytes name ≡ entry_name key.now place) }
{
    if place == 0 {
        return String::from_str(alloc, key);
    }
    Ok(format!(in alloc; "{key}.{place}")?)
}
