//! The paths that gcc chooses where a call says none.
ghost use Rattle.std.specs.Prelude.{IfOk};
ghost use Rattle.cck_cache_options.specs.Paths.{IsDependencyPath, IsNameIn, IsObjectPath, IsStem};

use memchr::memrchr;
use std::alloc::{AllocError, Global};

// A path up to its last slash, which is part of it, and what follows.
fn divide(path: &[u8]) -> (&[u8], &[u8])
    ensures { IsNameIn path.now result.0.now result.1.now }
{
    match memrchr(b'/', path) {
        Some(at) => path.split_at(at + 1),
        None => path.split_at(0),
    }
}

// A name up to its last point, which is no part of it.
fn stem_of(name: &[u8]) -> &[u8]
    ensures { IsStem name.now result.now }
{
    match memrchr(b'.', name) {
        Some(at) => &name[..at],
        None => name,
    }
}

/// The path of the object of an input: in the working directory, of the input's name.
///
/// The only error is lack of memory.
pub fn object_path(alloc: Global, input: &[u8]) -> Result<Vec<u8>, AllocError>
    ensures { IfOk result (λ path. IsObjectPath input.now path.items) }
{
    let (_, name) = divide(input);
    let mut path = stem_of(name).to_vec(alloc)?;
    path.extend_from_slice(b".o")?;
    Ok(path)
}

/// The path of the dependency file of an object: beside it, of its name.
///
/// The only error is lack of memory.
pub fn dependency_path(alloc: Global, output: &[u8]) -> Result<Vec<u8>, AllocError>
    ensures { IfOk result (λ path. IsDependencyPath output.now path.items) }
{
    let (directory, name) = divide(output);
    let mut path = directory.to_vec(alloc)?;
    path.extend_from_slice(stem_of(name))?;
    path.extend_from_slice(b".d")?;
    Ok(path)
}
