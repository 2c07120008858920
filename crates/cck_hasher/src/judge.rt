//! Judges the node at a path.
ghost use Rattle.std.specs.Prelude.{◌≡◌, ◌||◌};
ghost use Rattle.cck_files.specs.Calls.{AreCalls, Keeps, Rose};
ghost use Rattle.cck_include.specs.JudgeContext.{setting_of};
ghost use Rattle.cck_path.specs.Path.{components};
ghost use Rattle.cck_hasher.specs.Judgement.{IsJudged, is_late, judged_unread, judgement_at};

use cck_digest::{Error, HashState};
use cck_files::Files;
use cck_include::{JudgeContext, recorded_digest};
use cck_path::{FileKind, Metadata, Timestamp};
use std::alloc::{AllocError, Global};

/// How a walk judges a path.
#[derive(Drop)]
pub(crate) enum Judged {
    /// A directory.
    Folder,
    /// A regular file that can be recorded, with its digest.
    Regular(String),
    /// No node, or one that can't be recorded.
    Bad,
}

// Whether a time is known and is not before `moment`.
fn is_late(time: Option<Timestamp>, moment: Timestamp) -> bool
    ensures { result ≡ is_late moment time }
{
    match time {
        Some(time) => time >= moment,
        None => false,
    }
}

// Whether one of the known times is not before `moment`.
fn has_late_time(metadata: &Metadata, moment: Timestamp) -> bool
    ensures { result ≡ (is_late moment metadata.now.modified || is_late moment metadata.now.changed) }
{
    is_late(metadata.modified, moment) || is_late(metadata.changed, moment)
}

// A file that can't be read is bad, unless the cause is lack of memory.
fn judge_unread(error: Error) -> Result<Judged, AllocError>
    ensures { result ≡ judged_unread error }
{
    match error {
        Error::Memory => Err(AllocError),
        Error::Io(_) | Error::Deserialization | Error::UnknownFormat(_) => Ok(Judged::Bad),
    }
}

/// Returns how a path is judged: as a directory, or as a regular file that has a recorded digest
/// and no time at `moment` or later. With such a time the file may still be written. Anything else
/// is bad. After a fault anything may be judged bad.
pub(crate) fn judge<H: HashState, F: Files>(
    alloc: Global,
    files: &mut F,
    path: &[u8],
    context: &JudgeContext<'_>,
) -> Result<Judged, AllocError>
    ensures keeps { Keeps F.file_map F.faults F.is_quiet files.old files.new }
    ensures calls { AreCalls F.is_call (λ p. p ≡ components path.now) files.old files.new }
    ensures outcome { IsJudged (judgement_at (setting_of H.hash context.now)
        (F.file_map files.old) (components path.now)) (Rose (F.faults files.old) (F.faults files.new)) result }
{
    let metadata = match files.metadata(path) {
        Ok(metadata) => metadata,
        Err(_) => return Ok(Judged::Bad),
    };
    match metadata.kind {
        FileKind::Folder => return Ok(Judged::Folder),
        FileKind::Other => return Ok(Judged::Bad),
        FileKind::File => {}
    }
    if has_late_time(&metadata, context.moment) {
        return Ok(Judged::Bad);
    }
    match recorded_digest::<H, F>(
        alloc,
        files,
        path,
        context.moment,
        context.zone,
        context.vars,
        context.config,
    ) {
        Ok(Some(digest)) => Ok(Judged::Regular(digest)),
        Ok(None) => Ok(Judged::Bad),
        Err(error) => judge_unread(error),
    }
}
