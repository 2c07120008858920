//! The path of a name in a directory.
ghost use Rattle.std.specs.Prelude.{◌≡◌, IfOk, string_bytes};
ghost use Rattle.cck_cache_files.specs.Listing.{path_in};

use std::alloc::{AllocError, Global};

/// The path of what has this name in a directory.
///
/// The only error is lack of memory.
pub(crate) fn path_in(alloc: Global, directory: &str, name: &str) -> Result<String, AllocError>
    ensures { IfOk result (λ path. string_bytes path ≡ path_in directory.now name.now) }
{
    Ok(format!(in alloc; "{directory}/{name}")?)
}
