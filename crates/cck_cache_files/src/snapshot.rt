//! Real files, as they are now, in memory.
ghost use Rattle.std.specs.Prelude.{◌≡◌, IfSome, IsOkUnless, IsTrue, List, OnErr, OnOk, true};
ghost use Rattle.cck_files.specs.Calls.{Keeps};
ghost use Rattle.cck_files.specs.FileMap.{contents_of_kind};
ghost use Rattle.cck_files.specs.FileState.{IsQuiet, fault_count};
ghost use Rattle.cck_include.specs.Marks.{Marks};
ghost use Rattle.cck_include.specs.Marks as marks;
ghost use Rattle.cck_cache_files.specs.PathStates.{KeepsStates};
ghost use Rattle.cck_cache_files.specs.Snapshot.{GrowsAt, SnapshotGrows, IsAdded, IsNamedFile, IsPart, IsNodePut, StaysCalm, named_path};

use crate::identity::{Identity, is_null_device};
use crate::path_states::PathStates;
use crate::times::{changed, modified};
use cck_digest::UtilError;
use cck_files::{Files as FilesInMemory, MapFiles, Node};
use cck_include::{Mark, Markers};
use cck_path::{FileKind, join_path, normalize_path};
use std::fs;
use std::fs::{Metadata, OpenFile};
use std::io::Read;
use std::rt::Files;

// A node with these contents.
fn node_of(kind: FileKind, contents: Vec<u8>, metadata: &Metadata) -> Node
    ensures kind { result.kind ≡ kind }
    ensures contents { result.contents ≡ contents }
{
    Node {
        kind,
        contents,
        modified: modified(metadata),
        changed: changed(metadata),
    }
}

// Reads a file, and returns its status after that. `None` where it can't be read.
fn read_into<R: Files>(rt: &R, path: &str, contents: &mut Vec<u8>) -> Option<Metadata> {
    let mut file = fs::open(rt, path).ok()?;
    file.read_to_end(contents).ok()?;
    file.metadata().ok()
}

// The node of the regular file at a path, with room for this many bytes before it is read. `None`
// where it can't be read, is no regular file by now, or does not have the length of what was read.
//
// The status is taken after the contents. What is in the contents was written before, so that the
// times of the status are no earlier than its. A status from before the read could give new contents
// old times, and a later test of the times would not see the change.
fn read_regular<R: Files + AllocGlobal>(rt: &R, path: &str, length: u64) -> Option<Node>
    ensures { IfSome result (λ node. node.kind ≡ FileKind.File) }
{
    // With room for one more byte the end is seen without a growth.
    let room = usize::try_from(length).ok()?.saturating_add(1);
    let mut contents = Vec::new(rt.alloc());
    contents.reserve(room).ok()?;
    let metadata = read_into(rt, path, &mut contents)?;
    if !metadata.is_file() || contents.len() as u64 != metadata.len() {
        return None;
    }
    Some(node_of(FileKind::File, contents, &metadata))
}

// The node at a path, links followed. It has contents only if it is a regular file. `None` where it
// can't be read. Only a regular file is opened: to open a pipe or a device may wait, or have an
// effect.
fn read_node<R: Files + AllocGlobal>(rt: &R, path: &str) -> Option<Node>
    ensures { IfSome result (λ node.
        node.contents.items ≡ contents_of_kind node.kind node.contents.items) }
{
    let metadata = fs::metadata(rt, path).ok()?;
    if metadata.is_dir() {
        return Some(node_of(FileKind::Folder, Vec::new(rt.alloc()), &metadata));
    }
    if is_null_device(path, &metadata) {
        return Some(node_of(FileKind::File, Vec::new(rt.alloc()), &metadata));
    }
    if !metadata.is_file() {
        return Some(node_of(FileKind::Other, Vec::new(rt.alloc()), &metadata));
    }
    read_regular(rt, path, metadata.len())
}

/// Puts what is at a path into the snapshot, links followed. What can't be read is left out.
///
/// The only error is [`UtilError::Memory`], and then nothing is changed.
pub fn add_file<R: Files + AllocGlobal>(
    rt: &R,
    files: &mut MapFiles,
    path: &[u8],
) -> Result<(), UtilError>
    ensures added { OnOk result (IsAdded files.old path.now files.new) }
    ensures kept { OnErr result (files.new ≡ files.old) }
    ensures errors { IsOkUnless result UtilError.Memory }
{
    let Ok(text) = std::str::from_utf8(path) else {
        return Ok(());
    };
    let Some(node) = read_node(rt, text) else {
        return Ok(());
    };
    files.put(path, node)?;
    Ok(())
}

// What the system says of what is at a path. `None` where that can't be known.
fn metadata_of<R: Files>(rt: &R, path: &[u8]) -> Option<Metadata> {
    let path = std::str::from_utf8(path).ok()?;
    fs::metadata(rt, path).ok()
}

/// Whether two paths lead to one file. `false` where that can't be known.
pub fn is_one_file<R: Files>(rt: &R, a: &[u8], b: &[u8]) -> bool
    ensures { a.now ≡ b.now → IsTrue result }
{
    if a == b {
        return true;
    }
    let Some(a) = metadata_of(rt, a) else {
        return false;
    };
    let Some(b) = metadata_of(rt, b) else {
        return false;
    };
    Identity::of(&a).is(Identity::of(&b))
}

// Whether no link on the way to a path is in doubt, and there is none where the path is written
// with more than its components.
fn leads_there<R: Files + AllocGlobal>(
    rt: &R,
    states: &mut PathStates,
    joined: &[u8],
    path: &[u8],
) -> Result<bool, UtilError>
    ensures kept { KeepsStates states.old states.new }
    ensures errors { IsOkUnless result UtilError.Memory }
{
    let (_, state) = states.first_other(rt, joined)?;
    if !state.is_there() {
        return Ok(false);
    }
    // With -g gcc names the working directory too, with two slashes at the end.
    if joined.strip_suffix(b"//").unwrap_or(joined) == path {
        return Ok(true);
    }
    if states.has_other(rt, joined)? {
        return Ok(false);
    }
    Ok(is_one_file(rt, joined, path))
}

/// Puts what is at a path into the snapshot, as [`add_file`] does, if the snapshot has nothing there.
///
/// The only error is [`UtilError::Memory`], and then nothing is changed.
pub(crate) fn add_new_file<R: Files + AllocGlobal>(
    rt: &R,
    files: &mut MapFiles,
    path: &[u8],
) -> Result<(), UtilError>
    ensures put { OnOk result (IsNodePut files.old.files path.now files.new.files) }
    ensures left { OnErr result (files.new.files ≡ files.old.files) }
    ensures kept { IsQuiet files.old → IsPart files.old.files files.new.files }
    ensures calm { StaysCalm files.old files.new }
    ensures errors { IsOkUnless result UtilError.Memory }
{
    if files.exists(path) {
        return Ok(());
    }
    add_file(rt, files, path)
}

// Whether the snapshot has something at one of these paths.
fn has_one(files: &mut MapFiles, paths: &[Vec<u8>]) -> bool
    ensures { Keeps (λ files. files.files) fault_count IsQuiet files.old files.new }
{
    for path in paths {
        if files.exists(path) {
            return true;
        }
    }
    false
}

// Puts the file of a name into the snapshot, or adds its path to those that are left out.
fn add_named<R: Files + AllocGlobal>(
    rt: &R,
    files: &mut MapFiles,
    states: &mut PathStates,
    left_out: &mut Vec<Vec<u8>>,
    cwd: &[u8],
    name: &[u8],
) -> Result<(), UtilError>
    ensures named { OnOk result (GrowsAt (named_path cwd.now name.now) files.old files.new) }
    ensures kept { KeepsStates states.old states.new }
    ensures errors { IsOkUnless result UtilError.Memory }
{
    let alloc = rt.alloc();
    let joined = join_path(alloc, cwd, name)?;
    let path = normalize_path(alloc, &joined)?;
    if leads_there(rt, states, &joined, &path)? {
        return add_new_file(rt, files, &path);
    }
    left_out.push(path)?;
    Ok(())
}

/// Puts the files that a preprocessed text names into the snapshot. A name is left out if a link on
/// the way to it is in doubt, or its path with `.` and `..` may lead elsewhere. Returns whether the
/// snapshot has something at the path of such a name. The states that were kept are kept.
///
/// The only error is [`UtilError::Memory`].
pub fn add_named_files<R: Files + AllocGlobal>(
    rt: &R,
    files: &mut MapFiles,
    states: &mut PathStates,
    cwd: &[u8],
    text: &[u8],
) -> Result<bool, UtilError>
    ensures named { OnOk result ((marks : List marks.Mark) → Marks true text.now marks
        → SnapshotGrows (IsNamedFile marks cwd.now) files.old files.new) }
    ensures kept { KeepsStates states.old states.new }
    ensures errors { IsOkUnless result UtilError.Memory }
{
    let mut left_out: Vec<Vec<u8>> = Vec::new(rt.alloc());
    let mut last: &[u8] = b"";
    for mark in Markers::new(text) {
        let Mark::Name { name, .. } = mark else {
            continue;
        };
        if name == last {
            continue;
        }
        last = name;
        add_named(rt, files, states, &mut left_out, cwd, name)?;
    }
    Ok(has_one(files, &left_out))
}
