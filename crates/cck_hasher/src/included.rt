//! What a walk recorded, in the form that an entry takes.
ghost use Rattle.std.specs.Prelude.{◌≡◌, IfOk};
ghost use Rattle.cck_include.specs.Gathered.{digested_in};
ghost use Rattle.cck_hasher.specs.Included.{digested_of};

use std::alloc::{AllocError, Global};

/// The digests and the paths that a walk recorded, in their order, as
/// [`add_result`](cck_entry::PreprocessorCacheEntry::add_result) takes them.
pub(crate) fn included_of(
    alloc: Global,
    files: Vec<(Vec<u8>, String)>,
) -> Result<Vec<(String, Vec<u8>)>, AllocError>
    ensures { IfOk result (λ included. digested_in included.items ≡ digested_of files.items) }
{
    let mut included = Vec::new(alloc);
    for (path, digest) in files {
        included.push((digest, path))?;
    }
    Ok(included)
}
