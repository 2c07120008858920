//! The input of a request.
ghost use Rattle.std.specs.Prelude.{◌≡◌, IfOk, IsOkUnless};
ghost use Rattle.cck_cache.specs.Input.{IsCalm, IsInput, request_input_path};

use anyhow::Result;
use cck_cache_files::{Request, add_file};
use cck_digest::UtilError;
use cck_files::MapFiles;
use cck_path::join_path;
use std::alloc::Global;
use std::rt::Files;

/// The path of the input of a request, which is relative to the working directory.
///
/// The only error is [`UtilError::Memory`].
pub fn input_path(alloc: Global, request: &Request<'_>) -> Result<Vec<u8>, UtilError>
    ensures path { IfOk result (λ path. path.items ≡ request_input_path request.now) }
    ensures errors { IsOkUnless result UtilError.Memory }
{
    join_path(
        alloc,
        request.directory.as_bytes(),
        request.input.as_bytes(),
    )
}

/// A snapshot with the input of a request, or with nothing where that can't be read.
///
/// The only error is lack of memory.
pub fn input_snapshot<R: Files + AllocGlobal>(rt: &R, request: &Request<'_>) -> Result<MapFiles>
    ensures input { IfOk result (λ snapshot. IsInput request.now snapshot.files) }
    ensures calm { IfOk result IsCalm }
{
    let alloc = rt.alloc();
    let mut files = MapFiles::new(alloc);
    let path = input_path(alloc, request)?;
    add_file(rt, &mut files, &path)?;
    Ok(files)
}
