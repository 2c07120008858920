//! The tests of paths that must hold for a recorded key.
ghost use Rattle.std.specs.Prelude.{◌≡◌, ◌++◌, IfOk, IsOkUnless, List, OnOk, map, true};
ghost use Rattle.std.specs.Option.{option_map};
ghost use Rattle.cck_cache_files.specs.Absence.{AreTestsAfterIfKnown, IsAbsence, IsLinked};
ghost use Rattle.cck_cache_rules.specs.PathTest.{Directory, tests_of};
ghost use Rattle.cck_cache_files.specs.PathStates.{KeepsStates};
ghost use Rattle.cck_cache_text.specs.SearchList.{search_fields};
ghost use Rattle.cck_cache_text.specs.Sets.{IsSetOf};
ghost use Rattle.cck_include.specs.Marks as spec;
ghost use Rattle.cck_include.specs.Marks.{Marks};
ghost use Rattle.cck_path.specs.Bytes.{lists_of};

use crate::preprocessed::Preprocessed;
use crate::searched_paths::searched_tests;
use crate::tests_at::tests_at;
use crate::{LinkTests, PathStates, link_tests};
use cck_cache_rules::{PathTest, Refusal};
use cck_cache_text::{SearchList, absent_names, add_copies, left_directories, system_names};
use cck_digest::UtilError;
use std::alloc::{AllocError, Global};
use std::collections::BTreeSet;
use std::rt::Files;

/// What is found of the paths that decide where headers were found.
#[derive(Drop)]
pub enum Absence {
    /// These tests hold. As long as that is so, each header is found where it was found.
    Tests(Vec<PathTest>),
    /// The compilation is not recorded.
    Refused(Refusal),
}

/// Adds the test that a directory, and no link, is at each of these paths.
pub fn add_directories(
    alloc: Global,
    tests: &mut Vec<PathTest>,
    paths: &BTreeSet<Vec<u8>>,
) -> Result<(), AllocError>
    ensures { OnOk result
        (tests_of tests.new.items ≡ tests_of tests.old.items ++ map Directory (lists_of paths.now.keys)) }
{
    for path in paths {
        tests.push(PathTest::Directory(path.to_vec(alloc)?))?;
    }
    Ok(())
}

/// These tests, and after them the others.
pub fn all_tests(tests: Vec<PathTest>, others: Vec<PathTest>) -> Result<Vec<PathTest>, AllocError>
    ensures { IfOk result (λ all. all.items ≡ tests.items ++ others.items) }
{
    let mut all = tests;
    for test in others {
        all.push(test)?;
    }
    Ok(all)
}

/// Judges the paths that decide where the headers of a text were found: the directories that the
/// compiler searches, the paths at which a header would have been found earlier, the directories
/// that a name leaves by `..`, and the links on the way to system headers or, by clang, to all files and directories.
///
/// The only error is [`UtilError::Memory`]. The states that were kept are kept, after it too.
pub fn absence_of<R: Files + AllocGlobal>(
    rt: &R,
    states: &mut PathStates,
    preprocessed: &Preprocessed<'_>,
) -> Result<Absence, UtilError>
    ensures absence { IfOk result (IsAbsence preprocessed.now.renames states.new
        preprocessed.now.request.now.directory.now preprocessed.now.text.now (lists_of preprocessed.now.request.now.arguments.items)
        preprocessed.now.printed.now) }
    ensures kept { KeepsStates states.old states.new }
    ensures errors { IsOkUnless result UtilError.Memory }
{
    let alloc = rt.alloc();
    let (request, text) = (preprocessed.request, preprocessed.text);
    let directory = request.directory;
    let Some(search) = SearchList::read(alloc, preprocessed.printed)? else {
        return Ok(Absence::Refused(Refusal::NoSearchList));
    };
    let Some(names) = absent_names(alloc, text, &request.arguments, &search)? else {
        return Ok(Absence::Refused(Refusal::UnknownHeader));
    };
    let Some(earlier) = tests_at(rt, states, directory.as_bytes(), &names)? else {
        return Ok(Absence::Refused(Refusal::EarlierPath));
    };
    let Some(searched) = searched_tests(rt, directory.as_bytes(), &search)? else {
        return Ok(Absence::Refused(Refusal::EarlierPath));
    };
    match tests_after(rt, preprocessed, &search, all_tests(searched, earlier)?)? {
        None => Ok(Absence::Refused(Refusal::NamedFile)),
        Some(tests) => Ok(Absence::Tests(tests)),
    }
}

// The names of what is named after the links on the way to it: the system headers; or, by a compiler that renames no header,
// all files of the text and the directories that it searches. clang knows a directory by its inode, and calls it by the name
// by which it came first.
fn linked_names(
    alloc: Global,
    preprocessed: &Preprocessed<'_>,
    search: &SearchList,
) -> Result<BTreeSet<Vec<u8>>, AllocError>
    ensures { IfOk result (λ names. (marks : List spec.Mark) → Marks true preprocessed.now.text.now marks
        → IsSetOf (IsLinked preprocessed.now.renames (search_fields search.now) marks preprocessed.now.text.now) names) }
{
    if preprocessed.renames {
        return system_names(alloc, preprocessed.text);
    }
    let mut names = preprocessed.text.names().clone()?;
    add_copies(alloc, &mut names, &search.directories)?;
    add_copies(alloc, &mut names, &search.duplicates)?;
    Ok(names)
}

// These tests, and after them those of the directories that a name of the text leaves by `..` and of the links on
// the way to what is named after them. `None` where it is not known where one of these leads.
fn tests_after<R: Files + AllocGlobal>(
    rt: &R,
    preprocessed: &Preprocessed<'_>,
    search: &SearchList,
    first: Vec<PathTest>,
) -> Result<Option<Vec<PathTest>>, UtilError>
    ensures tests { IfOk result (λ tests. AreTestsAfterIfKnown preprocessed.now.renames (search_fields search.now)
        preprocessed.now.request.now.directory.now preprocessed.now.text.now (tests_of first.items)
        (option_map (λ all. tests_of all.items) tests)) }
    ensures errors { IsOkUnless result UtilError.Memory }
{
    let alloc = rt.alloc();
    let directory = preprocessed.request.directory.as_bytes();
    let mut tests = first;
    let left = left_directories(alloc, directory, preprocessed.text)?;
    add_directories(alloc, &mut tests, &left)?;
    let linked = linked_names(alloc, preprocessed, search)?;
    let Some(links) = link_tests(rt, directory, &linked, preprocessed.renames)? else {
        return Ok(None);
    };
    let LinkTests { plain, real } = links;
    let tests = all_tests(tests, plain)?;
    Ok(Some(all_tests(tests, real)?))
}
