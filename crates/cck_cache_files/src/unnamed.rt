//! The paths at which gcc looks for headers, and which the text does not name.
ghost use Rattle.std.specs.Prelude.{◌≡◌, IfOk, IsOkUnless, IsTrue, MatchBool, true};
ghost use Rattle.std.specs.List.{list_all};
ghost use Rattle.std.specs.Option.{option_map};
ghost use Rattle.cck_cache_files.specs.Unnamed.{AreCompared, AreFound, AreSpellings, AreUnreadWhere, IsPresence, IsThere, IsUnnamed, IsUnnamedVerdict, LeadsNotTo, LeadsTo, wants_no_file};
ghost use Rattle.cck_cache_rules.specs.PathTest.{test_of, tests_of};
ghost use Rattle.cck_cache_text.specs.Sets.{has_key};
ghost use Rattle.cck_cache_files.specs.PathStates.{KeepsStates};
ghost use Rattle.cck_files.specs.Calls.{Keeps};
ghost use Rattle.cck_files.specs.FileState.{IsQuiet, fault_count};
ghost use Rattle.cck_path.specs.Bytes.{lists_of};

use crate::absence::add_directories;
use crate::preprocessed::Preprocessed;
use crate::tests_at::push_test;
use crate::text_copies::may_import;
use crate::{
    ComparedFiles, KnownFile, PathState, PathStates, compared_paths, is_doubtful_spelling, is_file,
    is_in_snapshot, is_one_file, known_files, may_be_copy,
};
use cck_cache_rules::{PathTest, Refusal};
use cck_cache_text::{SearchList, add_left, looked_at_paths};
use cck_digest::UtilError;
use cck_files::MapFiles;
use cck_path::{join_path, normalize_path};
use std::alloc::{AllocError, Global};
use std::collections::BTreeSet;
use std::rt::Files;

/// What is found of the paths at which headers are looked for.
#[derive(Drop)]
pub enum Unnamed {
    /// These tests hold. As long as that is so, another spelling of the path of a file leads to it, and
    /// gcc finds no other file before it comes to one.
    Tests(Vec<PathTest>),
    /// The compilation is not recorded.
    Refused(Refusal),
}

// What there is at a path.
enum Presence<'a> {
    // Nothing: there is nothing at this path, which leads to it.
    Absent(&'a [u8]),
    // Nothing: this is the path of a file on the way to it.
    Below(&'a [u8]),
    // A directory, which gcc does not read.
    Directory,
    // A regular file or a link.
    There,
    // It is not known.
    Unknown,
}

// What is to be made of a path.
enum UnnamedVerdict {
    // gcc took nothing there for a copy of a file of the text.
    Passed,
    // It is another spelling of the path of a file of the snapshot.
    Spelling,
    // gcc may have taken what is there for a copy, or it is not known what it found.
    Doubtful,
}

// What there is at an absolute path.
fn presence_at<'a, R: Files + AllocGlobal>(
    rt: &R,
    states: &mut PathStates,
    path: &'a [u8],
) -> Result<Presence<'a>, AllocError>
    ensures presence { IfOk result (IsPresence states.new path.now) }
    ensures kept { KeepsStates states.old states.new }
{
    let (front, state) = states.first_other(rt, path)?;
    match state {
        PathState::Absent => Ok(Presence::Absent(front)),
        PathState::Directory => Ok(Presence::Directory),
        PathState::File => {
            if front.len() < path.len() {
                Ok(Presence::Below(front))
            } else {
                Ok(Presence::There)
            }
        }
        PathState::Link => Ok(Presence::There),
        PathState::Doubtful => Ok(Presence::Unknown),
    }
}

// Whether the snapshot has something at a path to which another one leads by directories alone.
fn leads_to<R: Files + AllocGlobal>(
    rt: &R,
    files: &mut MapFiles,
    states: &mut PathStates,
    path: &[u8],
    whole: &[u8],
) -> Result<bool, UtilError>
    ensures keeps { IfOk result (λ _. Keeps (λ files. files.files) fault_count IsQuiet files.old files.new) }
    ensures leads { IfOk result (λ leads. MatchBool leads
        (LeadsTo states.new files.old.files path.now whole.now)
        (LeadsNotTo states.new files.old.files path.now whole.now)) }
    ensures kept { KeepsStates states.old states.new }
{
    if !is_in_snapshot(files, whole)? {
        return Ok(false);
    }
    if path == whole {
        return Ok(true);
    }
    Ok(!states.has_other(rt, path)?)
}

// What is to be made of an absolute path at which there is a regular file or a link.
fn verdict_there<R: Files + AllocGlobal>(
    rt: &R,
    files: &mut MapFiles,
    states: &mut PathStates,
    compared: &ComparedFiles,
    path: &[u8],
) -> Result<UnnamedVerdict, UtilError>
    ensures keeps { IfOk result (λ _. Keeps (λ files. files.files) fault_count IsQuiet files.old files.new) }
    ensures verdict { IfOk result (λ verdict. IsThere states.old path.now
        → IsUnnamedVerdict states.new files.old.files path.now verdict) }
    ensures kept { KeepsStates states.old states.new }
{
    let whole = normalize_path(rt.alloc(), path)?;
    if leads_to(rt, files, states, path, &whole)? {
        if is_doubtful_spelling(&whole, compared) {
            return Ok(UnnamedVerdict::Doubtful);
        }
        if is_one_file(rt, path, &whole) {
            return Ok(UnnamedVerdict::Spelling);
        }
        return Ok(UnnamedVerdict::Doubtful);
    }
    if may_be_copy(rt, path, compared) {
        return Ok(UnnamedVerdict::Doubtful);
    }
    Ok(UnnamedVerdict::Passed)
}

// What is to be made of an absolute path at which a header is looked for.
fn unnamed_verdict<R: Files + AllocGlobal>(
    rt: &R,
    files: &mut MapFiles,
    states: &mut PathStates,
    compared: &ComparedFiles,
    path: &[u8],
) -> Result<UnnamedVerdict, UtilError>
    ensures keeps { IfOk result (λ _. Keeps (λ files. files.files) fault_count IsQuiet files.old files.new) }
    ensures verdict { IfOk result (IsUnnamedVerdict states.new files.old.files path.now) }
    ensures kept { KeepsStates states.old states.new }
{
    let presence = presence_at(rt, states, path)?;
    match presence {
        Presence::Absent(_) | Presence::Below(_) | Presence::Directory => {
            Ok(UnnamedVerdict::Passed)
        }
        Presence::There => verdict_there(rt, files, states, compared, path),
        Presence::Unknown => Ok(UnnamedVerdict::Doubtful),
    }
}

// The names that are other spellings of paths of files of the snapshot.
#[derive(Drop)]
struct Spellings {
    // Whether there is one.
    is_any: bool,
    // The directories that they leave by `..`.
    left: BTreeSet<Vec<u8>>,
}

// Those of these names that are other spellings. `None` where one of the names is in doubt.
fn spellings_of<R: Files + AllocGlobal>(
    rt: &R,
    files: &mut MapFiles,
    states: &mut PathStates,
    compared: &ComparedFiles,
    directory: &[u8],
    names: &BTreeSet<Vec<u8>>,
) -> Result<Option<Spellings>, UtilError>
    ensures keeps { IfOk result (λ _. Keeps (λ files. files.files) fault_count IsQuiet files.old files.new) }
    ensures spellings { IfOk result (AreSpellings states.new files.old.files directory.now
        (λ name. IsTrue (has_key names.now name))) }
    ensures kept { KeepsStates states.old states.new }
{
    let alloc = rt.alloc();
    let mut is_any = false;
    let mut left = BTreeSet::new(alloc);
    for name in names {
        let path = join_path(alloc, directory, name)?;
        let verdict = unnamed_verdict(rt, files, states, compared, &path)?;
        match verdict {
            UnnamedVerdict::Passed => {}
            UnnamedVerdict::Spelling => {
                is_any = true;
                add_left(alloc, &mut left, &path)?;
            }
            UnnamedVerdict::Doubtful => return Ok(None),
        }
    }
    Ok(Some(Spellings { is_any, left }))
}

// The tests that hold as long as gcc reads nothing at those of these names at which it reads nothing.
// `None` where one of the names is in doubt. A regular file that gcc did not take for a copy, nor the
// text names, is where gcc did not look. A link to anything else is one that no test covers.
fn unread_tests<R: Files + AllocGlobal>(
    rt: &R,
    states: &mut PathStates,
    directory: &[u8],
    names: &BTreeSet<Vec<u8>>,
) -> Result<Option<Vec<PathTest>>, UtilError>
    ensures tests { IfOk result (λ tests. AreUnreadWhere true states.new directory.now
        (λ name. IsTrue (has_key names.now name)) (option_map (λ all. tests_of all.items) tests)) }
    ensures kept { KeepsStates states.old states.new }
{
    let alloc = rt.alloc();
    let mut tests = Vec::new(alloc);
    for name in names {
        let path = join_path(alloc, directory, name)?;
        let presence = presence_at(rt, states, &path)?;
        match presence {
            Presence::Absent(front) => {
                push_test(&mut tests, PathTest::Absent(front.to_vec(alloc)?))?
            }
            Presence::Below(front) => push_test(&mut tests, PathTest::File(front.to_vec(alloc)?))?,
            Presence::Directory => {
                push_test(&mut tests, PathTest::Directory(path.to_vec(alloc)?))?
            }
            Presence::There => {
                if !is_file(rt, &path) {
                    return Ok(None);
                }
            }
            Presence::Unknown => return Ok(None),
        }
    }
    Ok(Some(tests))
}

// The same where one of the names is another spelling, for which gcc may have passed over a file; and
// else none.
fn unread_tests_where<R: Files + AllocGlobal>(
    rt: &R,
    states: &mut PathStates,
    directory: &[u8],
    names: &BTreeSet<Vec<u8>>,
    is_any: bool,
) -> Result<Option<Vec<PathTest>>, UtilError>
    ensures tests { IfOk result (λ tests. AreUnreadWhere is_any states.new directory.now
        (λ name. IsTrue (has_key names.now name)) (option_map (λ all. tests_of all.items) tests)) }
    ensures kept { KeepsStates states.old states.new }
{
    if is_any {
        unread_tests(rt, states, directory, names)
    } else {
        Ok(Some(Vec::new(rt.alloc())))
    }
}

// The tests of these names, at which headers are looked for. `None` where one of the names is in doubt.
fn tests_of_names<R: Files + AllocGlobal>(
    rt: &R,
    files: &mut MapFiles,
    states: &mut PathStates,
    compared: &ComparedFiles,
    directory: &[u8],
    names: &BTreeSet<Vec<u8>>,
) -> Result<Option<Vec<PathTest>>, UtilError>
    ensures keeps { IfOk result (λ _. Keeps (λ files. files.files) fault_count IsQuiet files.old files.new) }
    ensures tests { IfOk result (λ tests. AreFound states.new files.old.files directory.now
        (λ name. IsTrue (has_key names.now name)) (option_map (λ all. tests_of all.items) tests)) }
    ensures kept { KeepsStates states.old states.new }
{
    let Some(found) = spellings_of(rt, files, states, compared, directory, names)? else {
        return Ok(None);
    };
    let Some(mut tests) = unread_tests_where(rt, states, directory, names, found.is_any)? else {
        return Ok(None);
    };
    add_directories(rt.alloc(), &mut tests, &found.left)?;
    Ok(Some(tests))
}

// Whether a test wants something else than a regular file.
fn wants_no_file(test: &PathTest) -> bool
    ensures { result ≡ wants_no_file (test_of test.now) }
{
    !matches!(test, PathTest::File(_))
}

// Whether none of these tests wants a regular file.
fn want_no_file(tests: &[PathTest]) -> bool
    ensures { result ≡ list_all wants_no_file (tests_of tests.now) }
{
    tests.iter().all(wants_no_file)
}

// The files with which gcc may compare another one: those of the text. `None` where the text may import a file, and a test
// wants a regular file: gcc compares an imported file with one that was found by a test too, which the text may not name.
fn compared_files(
    alloc: Global,
    files: &mut MapFiles,
    preprocessed: &Preprocessed<'_>,
    asked: &[PathTest],
) -> Result<Option<Vec<KnownFile>>, UtilError>
    ensures keeps { IfOk result (λ _. Keeps (λ files. files.files) fault_count IsQuiet files.old files.new) }
    ensures compared { IfOk result (λ known. AreCompared files.old.files preprocessed.now.request.now
        preprocessed.now.text.now (tests_of asked.now) (option_map (λ all. all.items) known)) }
{
    let (request, text) = (preprocessed.request, preprocessed.text);
    if may_import(text.bytes()) && !want_no_file(asked) {
        return Ok(None);
    }
    let directory = request.directory.as_bytes();
    let known = known_files(alloc, files, directory, request.input.as_bytes(), text)?;
    Ok(Some(known))
}

// The paths of the files of a text where their contents are compared. `None` where the text imports a
// file, which gcc compares with others too.
fn paths_to_compare(
    alloc: Global,
    preprocessed: &Preprocessed<'_>,
) -> Result<Option<BTreeSet<Vec<u8>>>, UtilError>
    ensures { IsOkUnless result UtilError.Memory }
{
    let (request, text) = (preprocessed.request, preprocessed.text);
    if may_import(text.bytes()) {
        return Ok(None);
    }
    let directory = request.directory.as_bytes();
    let paths = compared_paths(alloc, directory, request.input.as_bytes(), text)?;
    Ok(Some(paths))
}

/// Judges the paths at which gcc looks for the headers that a text and the arguments of a request
/// include, and which the text does not name. gcc passes over a copy of a file with `#pragma once`,
/// so that the text does not name it. `asked` are the tests of the paths for which sources test. The
/// states have to be those of this time.
///
/// The error is of a file of the snapshot that can't be read, or lack of memory.
pub fn unnamed_by<R: Files + AllocGlobal>(
    rt: &R,
    files: &mut MapFiles,
    states: &mut PathStates,
    preprocessed: &Preprocessed<'_>,
    asked: &[PathTest],
) -> Result<Unnamed, UtilError>
    ensures keeps { IfOk result (λ _. Keeps (λ files. files.files) fault_count IsQuiet files.old files.new) }
    ensures unnamed { IfOk result (IsUnnamed states.new files.old.files
        preprocessed.now.request.now.directory.now preprocessed.now.text.now
        (lists_of preprocessed.now.request.now.arguments.items) preprocessed.now.printed.now) }
    ensures kept { KeepsStates states.old states.new }
{
    let alloc = rt.alloc();
    let (request, text) = (preprocessed.request, preprocessed.text);
    let Some(search) = SearchList::read(alloc, preprocessed.printed)? else {
        return Ok(Unnamed::Refused(Refusal::NoSearchList));
    };
    let Some(known) = compared_files(alloc, files, preprocessed, asked)? else {
        return Ok(Unnamed::Refused(Refusal::OtherFile));
    };
    let directory = request.directory.as_bytes();
    let names = looked_at_paths(alloc, text, &request.arguments, &search)?;
    let paths = paths_to_compare(alloc, preprocessed)?;
    let joined = join_path(alloc, directory, request.input.as_bytes())?;
    let compared = ComparedFiles {
        known,
        paths,
        input: normalize_path(alloc, &joined)?,
        since: preprocessed.since,
    };
    let found = tests_of_names(rt, files, states, &compared, directory, &names)?;
    match found {
        Some(tests) => Ok(Unnamed::Tests(tests)),
        None => Ok(Unnamed::Refused(Refusal::OtherFile)),
    }
}
