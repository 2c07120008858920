//! The contents of regular files.
ghost use Rattle.std.specs.Prelude.{◌≡◌, ◌≤◌, ◌<◌, [], Ok, OnErr, MatchResult, IsOkAnd};
ghost use Rattle.std.specs.Result.{result_unwrap_or};
ghost use Rattle.cck_digest.specs.Stream.{IsPiece, TakesBeginning, buffer_size};
ghost use Rattle.cck_path.specs.Path.{components};
ghost use Rattle.cck_files.specs.FileMap.{contents_at};
ghost use Rattle.cck_files.specs.Calls.{AreCalls, Keeps, IsErrorOrMemory, Rose};
ghost use Rattle.cck_files.specs.Contents.{TakesAll};

use crate::Files;
use cck_digest::{FileError, HASH_BUFFER_SIZE, Sink};
use std::alloc::Global;

/// Passes the contents of a regular file to a sink, read through this buffer. The buffer has at
/// least one byte and at most [`HASH_BUFFER_SIZE`](cck_digest::HASH_BUFFER_SIZE) bytes.
///
/// The errors are those of [`Files::read_at`], and [`FileError::Memory`] where the sink lacks
/// memory. After an error the sink has taken a beginning of the contents.
pub(crate) fn feed_contents<F: Files, S: Sink>(
    files: &mut F,
    path: &[u8],
    buffer: &mut [u8],
    sink: &mut S,
) -> Result<(), FileError>
    requires { IsPiece buffer.old }
    ensures keeps { Keeps F.file_map F.faults F.is_quiet files.old files.new }
    ensures calls { AreCalls F.is_call (λ p. p ≡ components path.now) files.old files.new }
    ensures begun { OnErr result (TakesBeginning S.takes sink.old
        (result_unwrap_or (contents_at (F.file_map files.old) (components path.now)) []) sink.new) }
    ensures outcome { let found = contents_at (F.file_map files.old) (components path.now) in
        MatchResult result (λ _. IsOkAnd found (λ contents. TakesAll S.takes sink.old contents sink.new))
        (IsErrorOrMemory found (Rose (F.faults files.old) (F.faults files.new))) }
{
    let mut offset: u64 = 0;
    loop {
        let count = files.read_at(path, offset, buffer)?;
        if count == 0 {
            return Ok(());
        }
        sink.take(&buffer[..count])?;
        offset += count as u64;
    }
}

/// Passes the contents of a regular file to a sink, in pieces of at least one byte and at most
/// [`HASH_BUFFER_SIZE`](cck_digest::HASH_BUFFER_SIZE) bytes.
///
/// The error is
///
/// - [`FileError::NotFound`] where there is no node at the path,
/// - [`FileError::OtherKind`] where the node there is not a regular file,
/// - [`FileError::Fault`] only where the count of faults rose,
/// - [`FileError::Memory`] where memory is lacking.
///
/// After an error the sink has taken a beginning of the contents, and nothing where there are none.
/// Every call on files is at this path.
pub fn feed_file<F: Files, S: Sink>(
    alloc: Global,
    files: &mut F,
    path: &[u8],
    sink: &mut S,
) -> Result<(), FileError>
    ensures keeps { Keeps F.file_map F.faults F.is_quiet files.old files.new }
    ensures calls { AreCalls F.is_call (λ p. p ≡ components path.now) files.old files.new }
    ensures begun { OnErr result (TakesBeginning S.takes sink.old
        (result_unwrap_or (contents_at (F.file_map files.old) (components path.now)) []) sink.new) }
    ensures outcome { let found = contents_at (F.file_map files.old) (components path.now) in
        MatchResult result (λ _. IsOkAnd found (λ contents. TakesAll S.takes sink.old contents sink.new))
        (IsErrorOrMemory found (Rose (F.faults files.old) (F.faults files.new))) }
{
    feed_file_of_size(alloc, files, path, HASH_BUFFER_SIZE as u64, sink)
}

/// The same as [`feed_file`], for a file that has this size by its metadata. The contents are read
/// through a buffer with room for them and one more byte, so that a small file takes little memory.
/// Contents of any other length are passed as well.
pub fn feed_file_of_size<F: Files, S: Sink>(
    alloc: Global,
    files: &mut F,
    path: &[u8],
    size: u64,
    sink: &mut S,
) -> Result<(), FileError>
    ensures keeps { Keeps F.file_map F.faults F.is_quiet files.old files.new }
    ensures calls { AreCalls F.is_call (λ p. p ≡ components path.now) files.old files.new }
    ensures begun { OnErr result (TakesBeginning S.takes sink.old
        (result_unwrap_or (contents_at (F.file_map files.old) (components path.now)) []) sink.new) }
    ensures outcome { let found = contents_at (F.file_map files.old) (components path.now) in
        MatchResult result (λ _. IsOkAnd found (λ contents. TakesAll S.takes sink.old contents sink.new))
        (IsErrorOrMemory found (Rose (F.faults files.old) (F.faults files.new))) }
{
    let mut buffer = vec![in alloc; 0u8; room_for(size)]?;
    feed_contents(files, path, &mut buffer, sink)
}

// The number of bytes of the buffer for contents of this size.
fn room_for(size: u64) -> usize
    ensures some { 0 < result }
    ensures most { result ≤ buffer_size }
{
    if size < HASH_BUFFER_SIZE as u64 {
        size as usize + 1
    } else {
        HASH_BUFFER_SIZE
    }
}

/// The contents of a regular file. The errors are those of [`feed_file`].
pub fn read_contents<F: Files>(
    alloc: Global,
    files: &mut F,
    path: &[u8],
) -> Result<Vec<u8>, FileError>
    ensures keeps { Keeps F.file_map F.faults F.is_quiet files.old files.new }
    ensures outcome { let found = contents_at (F.file_map files.old) (components path.now) in
        MatchResult result (λ contents. found ≡ Ok contents.items)
        (IsErrorOrMemory found (Rose (F.faults files.old) (F.faults files.new))) }
{
    read_contents_of_size(alloc, files, path, HASH_BUFFER_SIZE as u64)
}

/// The same as [`read_contents`], for a file that has this size by its metadata. It reads as
/// [`feed_file_of_size`] does.
pub fn read_contents_of_size<F: Files>(
    alloc: Global,
    files: &mut F,
    path: &[u8],
    size: u64,
) -> Result<Vec<u8>, FileError>
    ensures keeps { Keeps F.file_map F.faults F.is_quiet files.old files.new }
    ensures outcome { let found = contents_at (F.file_map files.old) (components path.now) in
        MatchResult result (λ contents. found ≡ Ok contents.items)
        (IsErrorOrMemory found (Rose (F.faults files.old) (F.faults files.new))) }
{
    let mut contents = Vec::new(alloc);
    feed_file_of_size(alloc, files, path, size, &mut contents)?;
    Ok(contents)
}
