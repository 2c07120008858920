//! The recorded digest of a file.
ghost use Rattle.std.specs.Prelude.{◌≡◌, ◌||◌, IfOk, IsOkAnd, IsOkUnless, MatchResult, Ok, string_bytes};
ghost use Rattle.std.specs.Option.{option_map};
ghost use Rattle.cck_digest.specs.Digest.{digest_text};
ghost use Rattle.cck_files.specs.Calls.{AreCalls, IsErrorOrMemory, Keeps, Rose};
ghost use Rattle.cck_files.specs.FileMap.{contents_at, file_at, metadata_at};
ghost use Rattle.cck_path.specs.Bytes.{variables_of};
ghost use Rattle.cck_path.specs.Path.{components};
ghost use Rattle.cck_include.specs.TimePart.{time_part};
ghost use Rattle.jiff.specs.Words.{plain_zone};
ghost use Rattle.cck_include.specs.JudgeContext.{setting_of};
ghost use Rattle.cck_include.specs.Recorded.{recorded, recorded_by};
ghost use Rattle.cck_include.specs.Errors.{IsIoError};
ghost use Rattle.cck_include.specs.Scan.{IsScanOf};
ghost use Rattle.cck_include.specs.Setting.{setting_in};

use crate::errors::io_error;
use crate::{JudgeContext, PreprocessorCacheModeConfig, local_time_part};
use cck_digest::{Digest, Error, FileError, HashState, WatchedDigest};
use cck_files::{Files, feed_file_of_size};
use cck_path::{Metadata, Timestamp};
use jiff::tz::TimeZone;
use std::alloc::{AllocError, Global};

// The hex digest of a file's contents, and which time macros they have.
#[derive(Drop)]
struct Scan {
    text: String,
    has_time: bool,
    has_date: bool,
    has_timestamp: bool,
}

// Reads a regular file of this size once, for its digest and its time macros.
fn read_once<H: HashState, F: Files>(
    alloc: Global,
    files: &mut F,
    path: &[u8],
    size: u64,
) -> Result<Scan, FileError>
    ensures keeps { Keeps F.file_map F.faults F.is_quiet files.old files.new }
    ensures calls { AreCalls F.is_call (λ p. p ≡ components path.now) files.old files.new }
    ensures outcome { let found = contents_at (F.file_map files.old) (components path.now) in
        MatchResult result (λ scan. IsOkAnd found (IsScanOf H.hash scan))
        (IsErrorOrMemory found (Rose (F.faults files.old) (F.faults files.new))) }
{
    let mut watched = WatchedDigest::<H>::new();
    feed_file_of_size(alloc, files, path, size, &mut watched)?;
    let (text, finder) = match watched.finish(alloc) {
        Ok(finished) => finished,
        Err(_) => return Err(FileError::Memory),
    };
    Ok(Scan {
        text,
        has_time: finder.found_time(),
        has_date: finder.found_date(),
        has_timestamp: finder.found_timestamp(),
    })
}

// The hex digest of the contents of a regular file of this size. Time macros are not searched for.
fn contents_text<H: HashState, F: Files>(
    alloc: Global,
    files: &mut F,
    path: &[u8],
    size: u64,
) -> Result<String, FileError>
    ensures keeps { Keeps F.file_map F.faults F.is_quiet files.old files.new }
    ensures calls { AreCalls F.is_call (λ p. p ≡ components path.now) files.old files.new }
    ensures outcome { let found = contents_at (F.file_map files.old) (components path.now) in
        MatchResult result (λ text. IsOkAnd found (λ contents. string_bytes text ≡ digest_text H.hash contents))
        (IsErrorOrMemory found (Rose (F.faults files.old) (F.faults files.new))) }
{
    let mut digest = Digest::<H>::new();
    feed_file_of_size(alloc, files, path, size, &mut digest)?;
    match digest.finish(alloc) {
        Ok(text) => Ok(text),
        Err(_) => Err(FileError::Memory),
    }
}

// The hex digest of some bytes.
fn text_of<H: HashState>(alloc: Global, bytes: &[u8]) -> Result<String, AllocError>
    ensures { IfOk result (λ text. string_bytes text ≡ digest_text H.hash bytes.now) }
{
    let mut digest = Digest::<H>::new();
    digest.update(bytes);
    match digest.finish(alloc) {
        Ok(text) => Ok(text),
        Err(_) => Err(AllocError),
    }
}

// The recorded digest, from one reading of the file and the time of its modification.
fn digest_of<H: HashState>(
    alloc: Global,
    scan: Scan,
    modified: Option<Timestamp>,
    context: &JudgeContext<'_>,
) -> Result<Option<String>, Error>
    ensures digest { IfOk result (λ o. option_map string_bytes o
        ≡ recorded_by H.hash scan.has_time (scan.has_date || scan.has_timestamp) (string_bytes scan.text)
        (time_part scan.has_date scan.has_timestamp modified context.now.moment
        (plain_zone context.now.zone.now) (variables_of context.now.vars.now))) }
    ensures errors { IsOkUnless result Error.Memory }
{
    let Scan {
        mut text,
        has_time,
        has_date,
        has_timestamp,
    } = scan;
    if has_time {
        return Ok(None);
    }
    if !has_date && !has_timestamp {
        return Ok(Some(text));
    }
    let part = local_time_part(
        alloc,
        has_date,
        has_timestamp,
        modified,
        context.moment,
        context.zone,
        context.vars,
    )?;
    let Some(part) = part else {
        return Ok(None);
    };
    text.push_str(text_of::<H>(alloc, &part)?.as_str())?;
    Ok(Some(text))
}

/// The recorded digest of the file at a path: the hex digest of its contents, and after it, where
/// they have `__DATE__` or `__TIMESTAMP__`, that of its [time part](local_time_part). With
/// [`ignore_time_macros`](PreprocessorCacheModeConfig::ignore_time_macros) it is the hex digest of
/// the contents alone. What two files with the same recorded digest have in common is stated by
/// [`equal_digests_tell`](crate::laws::equal_digests_tell).
///
/// There is none (`None`) exactly where time macros count and the contents have `__TIME__`, or the
/// time part cannot be computed. That is so where a time that it needs is missing or out of range.
/// The file is read once.
///
/// The error is [`Error::Io`] with
///
/// - [`NotFound`](FileError::NotFound) where there is no node at the path,
/// - [`OtherKind`](FileError::OtherKind) where the node there is not a regular file,
/// - [`Fault`](FileError::Fault) only where there was a fault,
///
/// or [`Error::Memory`] where memory is lacking. Every call on files is at this path.
pub fn recorded_digest<H: HashState, F: Files>(
    alloc: Global,
    files: &mut F,
    path: &[u8],
    moment: Timestamp,
    zone: &TimeZone<'_>,
    vars: &[(Vec<u8>, Vec<u8>)],
    config: PreprocessorCacheModeConfig,
) -> Result<Option<String>, Error>
    ensures keeps { Keeps F.file_map F.faults F.is_quiet files.old files.new }
    ensures calls { AreCalls F.is_call (λ p. p ≡ components path.now) files.old files.new }
    ensures outcome { let found = file_at (F.file_map files.old) (components path.now) in
        MatchResult result (λ digest. IsOkAnd found (λ file. option_map string_bytes digest
        ≡ recorded (setting_in H.hash config moment (plain_zone zone.now) vars.now) file))
        (IsIoError found (Rose (F.faults files.old) (F.faults files.new))) }
{
    let metadata = match files.metadata(path) {
        Ok(metadata) => metadata,
        Err(error) => return Err(io_error(error)),
    };
    let context = JudgeContext {
        moment,
        zone,
        vars,
        config,
    };
    digest_with_metadata::<H, F>(alloc, files, path, metadata, &context)
}

/// The recorded digest of the file at a path that has this metadata, as [`recorded_digest`] returns
/// it, with the same errors. The metadata is not asked for again. Every call on files is at this path.
pub fn digest_with_metadata<H: HashState, F: Files>(
    alloc: Global,
    files: &mut F,
    path: &[u8],
    metadata: Metadata,
    context: &JudgeContext<'_>,
) -> Result<Option<String>, Error>
    ensures keeps { Keeps F.file_map F.faults F.is_quiet files.old files.new }
    ensures calls { AreCalls F.is_call (λ p. p ≡ components path.now) files.old files.new }
    ensures outcome { let found = file_at (F.file_map files.old) (components path.now) in
        metadata_at (F.file_map files.old) (components path.now) ≡ Ok metadata
        → MatchResult result (λ digest. IsOkAnd found (λ file. option_map string_bytes digest
        ≡ recorded (setting_of H.hash context.now) file))
        (IsIoError found (Rose (F.faults files.old) (F.faults files.new))) }
{
    if context.config.ignore_time_macros {
        return match contents_text::<H, F>(alloc, files, path, metadata.len) {
            Ok(text) => Ok(Some(text)),
            Err(error) => Err(io_error(error)),
        };
    }
    let scan = match read_once::<H, F>(alloc, files, path, metadata.len) {
        Ok(scan) => scan,
        Err(error) => return Err(io_error(error)),
    };
    digest_of::<H>(alloc, scan, metadata.modified, context)
}
