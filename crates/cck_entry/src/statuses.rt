//! Included files that are accepted by their status, without their contents.
ghost use Rattle.std.specs.Prelude.{◌≡◌, IfOk};
ghost use Rattle.std.specs.FinMap.{get};
ghost use Rattle.cck_files.specs.Calls.{Keeps, Rose};
ghost use Rattle.cck_path.specs.Path.{components};
ghost use Rattle.cck_include.specs.Include.{include_lent};
ghost use Rattle.cck_include.specs.JudgeContext.{setting_of};
ghost use Rattle.cck_entry.specs.Known.{AreKnown};
ghost use Rattle.cck_entry.specs.Matching.{MayMiss};
ghost use Rattle.cck_entry.specs.Statuses.{is_regular, known_accepts, matches_with, status_accepts};

use crate::{KnownFiles, include_matches, times_agree};
use cck_digest::HashState;
use cck_files::Files;
use cck_include::{IncludeRef, JudgeContext};
use cck_path::{FileKind, Metadata, PathMap};
use std::alloc::{AllocError, Global};

/// The number of characters of a recorded digest that has no time part.
const DIGITS: usize = 64;

// Whether this is the kind of a regular file.
fn is_regular(kind: FileKind) -> bool
    ensures { result ≡ is_regular kind }
{
    match kind {
        FileKind::File => true,
        FileKind::Folder | FileKind::Other => false,
    }
}

/// Whether the status of a file shows that it is the one that was included: it is that of a regular file
/// of the recorded size, both times were recorded and are those of the status, and the recorded digest is
/// of the contents alone, with no time part.
///
/// It shows this under the premise that a file with the same size and the same times has the same
/// contents.
pub fn status_accepts(include: &IncludeRef<'_>, status: &Metadata) -> bool
    ensures { result ≡ status_accepts (include_lent include.now) status.now }
{
    if !is_regular(status.kind) || status.len != include.file_size {
        return false;
    }
    if include.ctime.is_none() || !times_agree(include, status, true) {
        return false;
    }
    include.digest.len() == DIGITS
}

// Whether a status is known of the file and shows that it is the one that was included.
fn is_accepted(statuses: &PathMap<Metadata>, include: &IncludeRef<'_>) -> bool
    ensures { result ≡ known_accepts (include_lent include.now)
        (get statuses.now (components include.now.path.now)) }
{
    match statuses.get(include.path) {
        Some(status) => status_accepts(include, status),
        None => false,
    }
}

/// Whether an included file is accepted by its status, or still matches, as [`include_matches`] says.
/// The files are not asked for one that is accepted.
///
/// The only error is lack of memory.
pub(crate) fn include_matches_with<H: HashState, F: Files>(
    alloc: Global,
    statuses: &PathMap<Metadata>,
    files: &mut F,
    known: &mut KnownFiles,
    include: &IncludeRef<'_>,
    context: &JudgeContext<'_>,
) -> Result<bool, AllocError>
    ensures keeps { Keeps F.file_map F.faults F.is_quiet files.old files.new }
    ensures known { let s = setting_of H.hash context.now in
        AreKnown s (F.file_map files.old) known.old → AreKnown s (F.file_map files.old) known.new }
    ensures outcome { let s = setting_of H.hash context.now in
        AreKnown s (F.file_map files.old) known.old
        → IfOk result (λ is_match. MayMiss (Rose (F.faults files.old) (F.faults files.new)) is_match
        (matches_with statuses.now s (F.file_map files.old) (include_lent include.now))) }
{
    if is_accepted(statuses, include) {
        return Ok(true);
    }
    include_matches::<H, F>(alloc, files, known, include, context)
}
