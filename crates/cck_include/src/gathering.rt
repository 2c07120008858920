//! What is recorded of included files.
ghost use Rattle.std.specs.Prelude.{◌≡◌, None, Some, MatchResult};
ghost use Rattle.cck_files.specs.Calls.{Keeps, Rose};
ghost use Rattle.cck_include.specs.Gathered.{digested_in, gathered, gathered_include, is_before, kept, are_before};
ghost use Rattle.cck_include.specs.Include.{include_in, includes_in};
ghost use Rattle.cck_include.specs.Errors.{IsMissing};

use crate::IncludeEntry;
use crate::errors::io_error;
use cck_digest::Error;
use cck_files::Files;
use cck_path::Timestamp;
use std::alloc::Global;

// Whether the time is before `moment`.
fn is_before(time: Timestamp, moment: Timestamp) -> bool
    ensures { result ≡ is_before time moment }
{
    time < moment
}

// Whether both times are known and before `moment`.
fn are_before(modified: Option<Timestamp>, changed: Option<Timestamp>, moment: Timestamp) -> bool
    ensures { result ≡ are_before modified changed moment }
{
    match (modified, changed) {
        (Some(modified), Some(changed)) => {
            is_before(modified, moment) && is_before(changed, moment)
        }
        _ => false,
    }
}

// The time, if it is kept.
fn kept(keeps: bool, time: Option<Timestamp>) -> Option<Timestamp>
    ensures { result ≡ kept keeps time }
{
    if keeps { time } else { None }
}

// What is recorded of the node at a path, with this digest.
fn gathered_include<F: Files>(
    alloc: Global,
    files: &mut F,
    moment: Timestamp,
    digest: &str,
    path: &[u8],
) -> Result<IncludeEntry, Error>
    ensures keeps { Keeps F.file_map F.faults F.is_quiet files.old files.new }
    ensures outcome { let found = gathered_include (F.file_map files.old) moment (digest.now, path.now) in
        MatchResult result (λ include. found ≡ Some (include_in include))
        (IsMissing (found ≡ None) (Rose (F.faults files.old) (F.faults files.new))) }
{
    let metadata = match files.metadata(path) {
        Ok(metadata) => metadata,
        Err(error) => return Err(io_error(error)),
    };
    let keeps = are_before(metadata.modified, metadata.changed, moment);
    Ok(IncludeEntry {
        path: path.to_vec(alloc)?,
        digest: String::from_str(alloc, digest)?,
        file_size: metadata.len,
        mtime: kept(keeps, metadata.modified),
        ctime: kept(keeps, metadata.changed),
    })
}

/// What is recorded of each of these files, in their order: the digest that is paired with its
/// path, its size, and its times. Both times are recorded where both are known and before `moment`,
/// the call time; otherwise neither is. So a file that may still be written at that time is not
/// identified by its times.
///
/// The error is
///
/// - [`Error::Io`] with [`NotFound`](cck_digest::FileError::NotFound) only where there is no node at
///   one of the paths,
/// - [`Error::Io`] with [`Fault`](cck_digest::FileError::Fault) only where there was a fault,
/// - [`Error::Memory`] where memory is lacking.
pub fn gather<F: Files>(
    alloc: Global,
    files: &mut F,
    moment: Timestamp,
    included: &[(String, Vec<u8>)],
) -> Result<Vec<IncludeEntry>, Error>
    ensures keeps { Keeps F.file_map F.faults F.is_quiet files.old files.new }
    ensures outcome { let found = gathered (F.file_map files.old) moment (digested_in included.now) in
        MatchResult result (λ includes. found ≡ Some (includes_in includes.items))
        (IsMissing (found ≡ None) (Rose (F.faults files.old) (F.faults files.new))) }
{
    let mut includes = Vec::new(alloc);
    for (digest, path) in included {
        let include = gathered_include(alloc, files, moment, digest, path)?;
        includes.push(include)?;
    }
    Ok(includes)
}
