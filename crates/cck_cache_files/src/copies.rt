//! Files that gcc may take for copies of the files of a text.
//!
//! Of a file with `#pragma once`, or one that came by `#import`, gcc reads no second one of the same
//! length, the same time to the second and the same contents, at whatever path it finds it.
ghost use Rattle.std.specs.Prelude.{◌≡◌, ◌↔◌, ◌⊎◌, Contains, IfOk, IsOkUnless, IsTrue, IsUtf8, List, MatchBool, None, true};
ghost use Rattle.std.specs.Fs.{file_type};
ghost use Rattle.cck_cache_text.specs.Names.{is_named};
ghost use Rattle.cck_cache_text.specs.Sets.{IsSetOf, has_key};
ghost use Rattle.cck_cache_files.specs.Copies.{AreKnown, IsInSnapshot, IsKnownAt, IsKnownOf, IsLengthLike, IsLike, IsNotTaken, IsPathOfName, IsSecondLike, MayBeTaken, known_of, second_of};
ghost use Rattle.cck_cache_files.specs.declared.copies.KnownFile.{KnownFile};
ghost use Rattle.cck_files.specs.Calls.{Keeps};
ghost use Rattle.cck_files.specs.FileState.{IsQuiet, fault_count};
ghost use Rattle.cck_include.specs.Marks as spec;
ghost use Rattle.cck_include.specs.Marks.{Marks};

use crate::read_once::{may_be_read_once, without_mark};
use crate::times::{changed, changed_before, modified};
use cck_cache_text::MarkedText;
use cck_digest::{FileError, UtilError};
use cck_files::{Files as FilesInMemory, MapFiles};
use cck_path::{FileKind, Metadata, Timestamp, join_path, normalize_path};
use std::alloc::{AllocError, Global};
use std::collections::BTreeSet;
use std::fs;
use std::rt::Files;

/// The length of a file of a text, and the second of its last modification.
#[derive(Clone, Copy)]
pub struct KnownFile {
    length: u64,
    // `None` where it is not known.
    seconds: Option<i64>,
}

/// The files with which gcc may compare another one.
pub struct ComparedFiles {
    /// Their lengths and times.
    pub known: Vec<KnownFile>,
    /// The absolute paths of all, whose contents are compared; `None` where some are not known.
    pub paths: Option<BTreeSet<Vec<u8>>>,
    /// The absolute path of the input, without `.` and `..`.
    pub input: Vec<u8>,
    /// The time before which they last changed.
    pub since: Timestamp,
}

impl Drop for ComparedFiles {
    fn drop(self) {
        let ComparedFiles {
            known: _,
            paths: _,
            input: _,
            since: _,
        } = self;
    }
}

/// Whether the snapshot has something at a path.
///
/// The error is of a file that can't be read.
pub fn is_in_snapshot(files: &mut MapFiles, path: &[u8]) -> Result<bool, UtilError>
    ensures keeps { IfOk result (λ _. Keeps (λ files. files.files) fault_count IsQuiet files.old files.new) }
    ensures found { IfOk result (λ found. MatchBool found (IsInSnapshot files.old.files path.now)
        (¬ (IsInSnapshot files.old.files path.now))) }
{
    match files.metadata(path) {
        Ok(_) => Ok(true),
        Err(FileError::NotFound) => Ok(false),
        Err(error) => Err(UtilError::from(error)),
    }
}

// The second of a time.
fn second_of(time: Option<Timestamp>) -> Option<i64>
    ensures { result ≡ second_of time }
{
    match time {
        Some(time) => Some(time.seconds()),
        None => None,
    }
}

// The length and the time of a regular file.
fn known_of(metadata: Metadata) -> Option<KnownFile>
    ensures { result ≡ known_of metadata }
{
    match metadata.kind {
        FileKind::File => Some(KnownFile {
            length: metadata.len,
            seconds: second_of(metadata.modified),
        }),
        FileKind::Folder | FileKind::Other => None,
    }
}

// The length and the time of the regular file at a path of the snapshot. `None` where the snapshot has
// none there.
fn known_at(files: &mut MapFiles, path: &[u8]) -> Result<Option<KnownFile>, FileError>
    ensures keeps { Keeps (λ files. files.files) fault_count IsQuiet files.old files.new }
    ensures known { IfOk result (IsKnownAt files.old.files path.now) }
{
    match files.metadata(path) {
        Ok(metadata) => Ok(known_of(metadata)),
        Err(FileError::NotFound) => Ok(None),
        Err(error) => Err(error),
    }
}

// The same of the file of a name.
fn known_by_name(
    alloc: Global,
    files: &mut MapFiles,
    directory: &[u8],
    name: &[u8],
) -> Result<Option<KnownFile>, UtilError>
    ensures keeps { IfOk result (λ _. Keeps (λ files. files.files) fault_count IsQuiet files.old files.new) }
    ensures known { IfOk result (IsKnownOf files.old.files directory.now name.now) }
{
    let joined = join_path(alloc, directory, name)?;
    let path = normalize_path(alloc, &joined)?;
    let known = known_at(files, &path)?;
    Ok(known)
}

// The lengths and the times of the files of these names in the snapshot.
fn known_files_of(
    alloc: Global,
    files: &mut MapFiles,
    directory: &[u8],
    names: &BTreeSet<Vec<u8>>,
) -> Result<Vec<KnownFile>, UtilError>
    ensures keeps { IfOk result (λ _. Keeps (λ files. files.files) fault_count IsQuiet files.old files.new) }
    ensures known { IfOk result (λ known. AreKnown files.old.files directory.now
        (λ name. IsTrue (has_key names.now name)) known.items) }
{
    let mut known = Vec::new(alloc);
    for name in names {
        let Some(file) = known_by_name(alloc, files, directory, name)? else {
            continue;
        };
        known.push(file)?;
    }
    Ok(known)
}

// The names of the files of a text: those that it names, and the input.
fn names_of(
    alloc: Global,
    input: &[u8],
    text: &MarkedText<'_>,
) -> Result<BTreeSet<Vec<u8>>, AllocError>
    ensures { IfOk result (λ names. (marks : List spec.Mark) → Marks true text.now marks
        → IsSetOf (λ name. (name ≡ input.now) ⊎ IsTrue (is_named marks name)) names) }
{
    let mut names = text.names().clone()?;
    names.insert(input.to_vec(alloc)?)?;
    Ok(names)
}

/// The lengths and the times of the files in the snapshot that a preprocessed text names, and of the
/// input.
///
/// The error is [`UtilError::Memory`], or of a file that can't be read.
pub fn known_files(
    alloc: Global,
    files: &mut MapFiles,
    directory: &[u8],
    input: &[u8],
    text: &MarkedText<'_>,
) -> Result<Vec<KnownFile>, UtilError>
    ensures keeps { IfOk result (λ _. Keeps (λ files. files.files) fault_count IsQuiet files.old files.new) }
    ensures known { IfOk result (λ known. (marks : List spec.Mark) → Marks true text.now marks
        → AreKnown files.old.files directory.now
        (λ name. (name ≡ input.now) ⊎ IsTrue (is_named marks name)) known.items) }
{
    let names = names_of(alloc, input, text)?;
    let known = known_files_of(alloc, files, directory, &names)?;
    Ok(known)
}

// The absolute paths of the files of these names, without `.` and `..`.
fn paths_of(
    alloc: Global,
    directory: &[u8],
    names: &BTreeSet<Vec<u8>>,
) -> Result<BTreeSet<Vec<u8>>, UtilError>
    ensures paths { IfOk result (IsSetOf (IsPathOfName (λ name. IsTrue (has_key names.now name)) directory.now)) }
    ensures errors { IsOkUnless result UtilError.Memory }
{
    let mut paths = BTreeSet::new(alloc);
    for name in names {
        let joined = join_path(alloc, directory, name)?;
        let path = normalize_path(alloc, &joined)?;
        paths.insert(path)?;
    }
    Ok(paths)
}

/// The absolute paths of the files that a preprocessed text names, and of the input, without `.` and
/// `..`.
///
/// The only error is [`UtilError::Memory`].
pub fn compared_paths(
    alloc: Global,
    directory: &[u8],
    input: &[u8],
    text: &MarkedText<'_>,
) -> Result<BTreeSet<Vec<u8>>, UtilError>
    ensures paths { IfOk result (λ paths. (marks : List spec.Mark) → Marks true text.now marks
        → IsSetOf (IsPathOfName (λ name. (name ≡ input.now) ⊎ IsTrue (is_named marks name)) directory.now) paths) }
    ensures errors { IsOkUnless result UtilError.Memory }
{
    let names = names_of(alloc, input, text)?;
    let paths = paths_of(alloc, directory, &names)?;
    Ok(paths)
}

// Whether files of these lengths may be equal, the three bytes of a byte order mark at the front of
// one of them left out.
fn is_length_like(a: u64, b: u64) -> bool
    ensures { IsTrue result ↔ IsLengthLike a b }
{
    let difference = if a < b { b - a } else { a - b };
    difference == 0 || difference == 3
}

// Whether times are of one second. `true` where one of them is not known.
fn is_second_like(a: Option<i64>, b: Option<i64>) -> bool
    ensures { IsTrue result ↔ IsSecondLike a b }
{
    match (a, b) {
        (Some(a), Some(b)) => a == b,
        _ => true,
    }
}

// Whether gcc compares a file of this length and time with a known one.
fn is_like(known: &KnownFile, length: u64, seconds: Option<i64>) -> bool
    ensures { IsTrue result ↔ IsLike known.now length seconds }
{
    is_length_like(known.length, length) && is_second_like(known.seconds, seconds)
}

// The same of one of the known ones.
fn is_like_one(known: &[KnownFile], length: u64, seconds: Option<i64>) -> bool
    ensures { IsTrue result
        ↔ ((file : KnownFile) × Contains known.now file × IsLike file length seconds) }
{
    for file in known {
        if is_like(file, length, seconds) {
            return true;
        }
    }
    false
}

// Whether gcc may have taken what was found at a path for a copy, by whether it is old and like a
// known file.
fn may_be_taken(found: &fs::Metadata, is_old: bool, is_like: bool) -> bool
    ensures { MatchBool result (MayBeTaken (file_type found.now) is_old is_like)
        (IsNotTaken (file_type found.now) is_old is_like) }
{
    if found.is_dir() {
        return false;
    }
    !found.is_file() || !is_old || is_like
}

// The contents of the file at a path. `None` where it can't be read, is not a regular file, or last changed at or after
// this time. The status is taken after the contents, so that they are those that the compiler found.
fn old_contents<R: Files + AllocGlobal>(rt: &R, path: &str, since: Timestamp) -> Option<Vec<u8>> {
    let contents = fs::read(rt, path).ok()?;
    let found = fs::metadata(rt, path).ok()?;
    if found.is_file() && changed_before(modified(&found), changed(&found), since) {
        Some(contents)
    } else {
        None
    }
}

// Whether the file at a path has other contents than these. `false` where that can't be known: it is not a
// regular file, last changed at or after the given time, or can't be read.
fn differs<R: Files + AllocGlobal>(rt: &R, contents: &[u8], path: &[u8], since: Timestamp) -> bool {
    let Ok(path) = std::str::from_utf8(path) else {
        return false;
    };
    let Ok(found) = fs::metadata(rt, path) else {
        return false;
    };
    if !found.is_file() || !changed_before(modified(&found), changed(&found), since) {
        return false;
    }
    if !is_length_like(found.len(), contents.len() as u64) {
        return true;
    }
    match old_contents(rt, path, since) {
        Some(other) => without_mark(&other) != without_mark(contents),
        None => false,
    }
}

// Whether the file at a path has other contents than each file of the text, or contents of which gcc reads a second file too,
// where none is imported. `false` where that can't be known.
fn differs_from_all<R: Files + AllocGlobal>(rt: &R, path: &str, compared: &ComparedFiles) -> bool {
    let Some(paths) = &compared.paths else {
        return false;
    };
    let Some(contents) = old_contents(rt, path, compared.since) else {
        return false;
    };
    if !may_be_read_once(&contents) {
        return true;
    }
    for other in paths {
        if !differs(rt, &contents, other, compared.since) {
            return false;
        }
    }
    true
}

/// Whether gcc may have taken what is at a path, links followed, for a copy of a known file: a regular
/// file of a like length and time, and where the paths of the known files are given of the same contents, with the word `once`;
/// or one that did not last change before the given time, or anything else but a directory. `true` where
/// it can't be looked at.
pub fn may_be_copy<R: Files + AllocGlobal>(rt: &R, path: &[u8], compared: &ComparedFiles) -> bool
    ensures { ¬ (IsUtf8 path.now) → IsTrue result }
{
    let Ok(path) = std::str::from_utf8(path) else {
        return true;
    };
    let Ok(found) = fs::metadata(rt, path) else {
        return true;
    };
    let is_old = changed_before(modified(&found), changed(&found), compared.since);
    let seconds = second_of(modified(&found));
    // Only a regular file is opened: to open a pipe may wait.
    let is_like = found.is_file()
        && is_like_one(&compared.known, found.len(), seconds)
        && !differs_from_all(rt, path, compared);
    may_be_taken(&found, is_old, is_like)
}

/// Whether it is in doubt for what gcc passed over another spelling of the path of this file: any file may
/// be imported; or it is the input.
pub fn is_doubtful_spelling(path: &[u8], compared: &ComparedFiles) -> bool
    ensures { IsTrue result
        ↔ ((compared.now.paths ≡ None) ⊎ (path.now ≡ compared.now.input.items)) }
{
    // gcc passes over what is imported if it equals any file that it opened. No test covers the
    // contents of one that it opened for a test for a header alone.
    if compared.paths.is_none() {
        return true;
    }
    // The first header that is included may be another spelling of no file but the input. For it alone
    // gcc looks for precompiled headers too, and no test covers those.
    path == compared.input.as_slice()
}
