//! What the system says of paths: when an entry is recorded, and when it is looked for.
ghost use Rattle.std.specs.Prelude.{◌≡◌, [], IfOk, IfSome, IsTrue, IsUtf8};
ghost use Rattle.std.specs.FinMap.{empty};
ghost use Rattle.std.specs.Prelude.{IsOkUnless, OnOk};
ghost use Rattle.cck_cache_files.specs.PathStatuses.{AreAsRecorded, AreDirectoriesAsRecorded, AreStatusesBefore, IsInDirectory, IsInKnownDirectory, IsIncludeAdded, IsStatusAdded};
ghost use Rattle.cck_cache_files.specs.Snapshot.{IsPart, StaysCalm};
ghost use Rattle.cck_cache_rules.specs.PathStatus.{statuses_of};
ghost use Rattle.cck_files.specs.FileState.{IsQuiet};
ghost use Rattle.cck_include.specs.Include.{include_lent};

use crate::identity::Identity;
use crate::path_in::path_in;
use crate::path_states::PathStates;
use crate::snapshot::add_new_file;
use crate::times::{changed, changed_before, modified};
use cck_cache_rules::{PathStatus, PathTest};
use cck_digest::UtilError;
use cck_entry::{FileKind, IncludeRef, Metadata, PathMap, status_accepts};
use cck_files::MapFiles;
use cck_path::Timestamp;
use std::alloc::{AllocError, Global};
use std::collections::{BTreeSet, HashMap};
use std::fs;
use std::os::unix::fs::MetadataExt;
use std::rt::Files;

// The bits of a file's mode with which its owner, its group and others may read it.
const ALL_READ: u32 = 0o444;

/// The paths of which the system says the same now as when an entry was recorded.
#[derive(Drop)]
pub struct UnchangedPaths {
    /// What is known of the paths of files.
    pub files: PathMap<Metadata>,
    /// What is known of directories, by the bytes of their paths: there are many tests of a directory's names, and many
    /// paths begin alike, which makes comparing them long.
    pub directories: HashMap<Vec<u8>, Metadata>,
}

/// What the system says of the files of a text.
#[derive(Drop)]
pub struct TextStatuses {
    /// The statuses of the regular files.
    pub statuses: Vec<PathStatus>,
    /// Whether the way to one of the paths is in doubt.
    pub is_doubtful: bool,
}

// The directory of a path that is UTF-8. `None` for a name in the root, or without a directory.
fn directory_of(path: &[u8]) -> Option<&str>
    ensures directory { IfSome result (λ directory. IsInDirectory path.now directory.now) }
    ensures utf8 { IfSome result (λ _. IsUtf8 path.now) }
{
    let path = std::str::from_utf8(path).ok()?;
    let (directory, _) = path.rsplit_once('/')?;
    if directory.is_empty() {
        return None;
    }
    Some(directory)
}

// What the system says of what is at a path, links followed. `None` where it can't be looked at.
fn found_at<R: Files>(rt: &R, path: &[u8]) -> Option<fs::Metadata>
    ensures { IfSome result (λ _. IsUtf8 path.now) }
{
    let path = std::str::from_utf8(path).ok()?;
    fs::metadata(rt, path).ok()
}

// Adds the status of what was found at a path, if it did not change at this time or later: in a directory
// no name came or went then.
fn add_status(
    alloc: Global,
    statuses: &mut Vec<PathStatus>,
    path: &[u8],
    found: &fs::Metadata,
    since: Timestamp,
) -> Result<(), AllocError>
    ensures { OnOk result (IsStatusAdded since path.now
        (statuses_of statuses.old.items) (statuses_of statuses.new.items)) }
{
    let (Some(modified), Some(changed)) = (modified(found), changed(found)) else {
        return Ok(());
    };
    if !changed_before(Some(modified), Some(changed), since) {
        return Ok(());
    }
    let Identity { device, inode } = Identity::of(found);
    statuses.push(PathStatus {
        path: path.to_vec(alloc)?,
        device,
        inode,
        modified,
        changed,
    })?;
    Ok(())
}

// Whether a directory was found whose times tell when names came and went there. Those of the kernel's own file systems, which
// have no size, do not.
fn is_timed(found: &fs::Metadata) -> bool {
    found.is_dir() && found.len() > 0
}

/// Adds the statuses of the directories of the paths of these tests at which there is nothing, or a file and no
/// link. A directory in which a name may have come or gone at this time or later is left out, and so is one whose times do not
/// tell.
///
/// The only error is lack of memory.
pub fn add_directory_statuses<R: Files + AllocGlobal>(
    rt: &R,
    statuses: &mut Vec<PathStatus>,
    since: Timestamp,
    tests: &[PathTest],
) -> Result<(), AllocError>
    ensures { OnOk result (AreStatusesBefore since (statuses_of statuses.old.items)
        → AreStatusesBefore since (statuses_of statuses.new.items)) }
{
    let alloc = rt.alloc();
    let mut seen = BTreeSet::new(alloc);
    for test in tests {
        let (PathTest::Absent(path) | PathTest::Plain(path)) = test else {
            continue;
        };
        let Some(directory) = directory_of(path) else {
            continue;
        };
        let directory = directory.as_bytes();
        if seen.contains(directory) {
            continue;
        }
        seen.insert(directory.to_vec(alloc)?)?;
        match found_at(rt, directory) {
            Some(found) if is_timed(&found) => add_status(
                alloc, statuses, directory, &found, since,
            )?,
            _ => {}
        }
    }
    Ok(())
}

// Whether the way to each of these paths is not in doubt.
fn are_settled<R: Files + AllocGlobal>(
    rt: &R,
    since: Timestamp,
    paths: &BTreeSet<Vec<u8>>,
) -> Result<bool, AllocError> {
    let mut states = PathStates::new(rt, since);
    for path in paths {
        let (_, state) = states.first_other(rt, path)?;
        if !state.is_there() {
            return Ok(false);
        }
    }
    Ok(true)
}

/// The statuses of the regular files at these paths, which are those of a text. A file that changed at this
/// time or later is left out. The ways to the paths are looked at last: if none is in doubt, each status,
/// and what was read before, is of the file that the compiler read.
///
/// The only error is lack of memory.
pub fn text_statuses<R: Files + AllocGlobal>(
    rt: &R,
    since: Timestamp,
    paths: &BTreeSet<Vec<u8>>,
) -> Result<TextStatuses, AllocError>
    ensures { IfOk result (λ found. AreStatusesBefore since (statuses_of found.statuses.items)) }
{
    let alloc = rt.alloc();
    let mut statuses = Vec::new(alloc);
    for path in paths {
        match found_at(rt, path) {
            Some(found) if found.is_file() => {
                add_status(alloc, &mut statuses, path, &found, since)?
            }
            _ => {}
        }
    }
    Ok(TextStatuses {
        statuses,
        is_doubtful: !are_settled(rt, since, paths)?,
    })
}

// The kind of what the system found.
fn kind_of(found: &fs::Metadata) -> FileKind {
    if found.is_file() {
        FileKind::File
    } else if found.is_dir() {
        FileKind::Folder
    } else {
        FileKind::Other
    }
}

// Whether the process may search the directory, or read the file, that was found at a path. A mode by which
// all may read a file says so.
fn may_use<R: Files + AllocGlobal>(
    rt: &R,
    path: &str,
    found: &fs::Metadata,
) -> Result<bool, AllocError> {
    if found.is_dir() {
        let inside = path_in(rt.alloc(), path, ".")?;
        return Ok(fs::metadata(rt, inside.as_str()).is_ok());
    }
    if !found.is_file() {
        return Ok(false);
    }
    Ok(found.mode() & ALL_READ == ALL_READ || fs::open(rt, path).is_ok())
}

// What is known of the path of a status, if the system says the same of it now: the same file or directory
// is there, and did not change since; and if the process may use it.
fn unchanged<R: Files + AllocGlobal>(
    rt: &R,
    status: &PathStatus,
) -> Result<Option<Metadata>, AllocError>
    ensures { IfOk result (λ found. IfSome found (λ m.
        (m.modified ≡ Some status.now.modified) × (m.changed ≡ Some status.now.changed))) }
{
    let Ok(path) = std::str::from_utf8(&status.path) else {
        return Ok(None);
    };
    let Ok(found) = fs::metadata(rt, path) else {
        return Ok(None);
    };
    let recorded = Identity {
        device: status.device,
        inode: status.inode,
    };
    if !Identity::of(&found).is(recorded) {
        return Ok(None);
    }
    let (modified, changed) = (modified(&found), changed(&found));
    if modified != Some(status.modified) || changed != Some(status.changed) {
        return Ok(None);
    }
    if !may_use(rt, path, &found)? {
        return Ok(None);
    }
    Ok(Some(Metadata {
        kind: kind_of(&found),
        len: found.len(),
        modified: Some(status.modified),
        changed: Some(status.changed),
    }))
}

/// What is known of the paths of these statuses of which the system says the same now, if the process may
/// use what is there. It says the same only of the same file, by device and inode: a link may lead to another
/// one of the same size and the same times.
///
/// The only error is [`UtilError::Memory`].
pub fn unchanged_statuses<R: Files + AllocGlobal>(
    rt: &R,
    statuses: &[PathStatus],
) -> Result<UnchangedPaths, UtilError>
    ensures recorded { IfOk result (λ found. AreAsRecorded (statuses_of statuses.now) found.files) }
    ensures directories { IfOk result (λ found. AreDirectoriesAsRecorded (statuses_of statuses.now) found.directories) }
    ensures none { statuses.now ≡ [] → IfOk result (λ found. found.files ≡ empty) }
    ensures errors { IsOkUnless result UtilError.Memory }
{
    let alloc = rt.alloc();
    let mut files = PathMap::new(alloc);
    let mut directories = HashMap::new(alloc);
    for status in statuses {
        let found = unchanged(rt, status)?;
        let Some(metadata) = found else {
            continue;
        };
        if metadata.kind == FileKind::Folder {
            directories.insert(status.path.to_vec(alloc)?, metadata)?;
        } else {
            files.insert(&status.path, metadata)?;
        }
    }
    Ok(UnchangedPaths { files, directories })
}

/// Whether a path is that of a name in a directory that is known to be unchanged: no name came or went there,
/// so what has the name, if anything has it, is of the kind that it was.
pub fn is_in_unchanged_directory(directories: &HashMap<Vec<u8>, Metadata>, path: &[u8]) -> bool
    ensures utf8 { IsTrue result → IsUtf8 path.now }
    ensures known { IsTrue result → IsInKnownDirectory directories.now path.now }
{
    let Some(directory) = directory_of(path) else {
        return false;
    };
    match directories.get(directory.as_bytes()) {
        Some(metadata) => metadata.kind == FileKind::Folder,
        None => false,
    }
}

/// Adds what a look-up needs of an included file: nothing, if what is known of its path shows that it is
/// unchanged, and else what is at its path, to the snapshot, unless this has something there.
///
/// The only error is [`UtilError::Memory`], and then nothing is changed.
pub fn add_included<R: Files + AllocGlobal>(
    rt: &R,
    files: &mut MapFiles,
    known: &PathMap<Metadata>,
    include: &IncludeRef<'_>,
) -> Result<(), UtilError>
    ensures added { OnOk result (IsIncludeAdded (include_lent include.now) known.now files.old files.new) }
    ensures kept { IsQuiet files.old → IsPart files.old.files files.new.files }
    ensures calm { StaysCalm files.old files.new }
    ensures errors { IsOkUnless result UtilError.Memory }
{
    match known.get(include.path) {
        Some(status) if status_accepts(include, status) => Ok(()),
        _ => add_new_file(rt, files, include.path),
    }
}
