//! Tests of paths, as these are now.
ghost use Rattle.std.specs.Prelude.{IfOk, MatchBool};
ghost use Rattle.std.specs.Option.{option_map};
ghost use Rattle.cck_cache_rules.specs.PathTest.{test_of, tests_of};
ghost use Rattle.cck_cache_rules.specs.PathTest as spec;
ghost use Rattle.cck_cache_files.specs.PathTests.{Fails, Holds, IsFirstFailing};

use crate::path_states::{PathStates, is_absent, is_directory, is_file, is_plain_file};
use crate::path_statuses::is_in_unchanged_directory;
use crate::real_paths::leads_to;
use crate::searched::SearchedDirectories;
use cck_cache_rules::PathTest;
use cck_path::{Metadata, Timestamp};
use std::alloc::AllocError;
use std::collections::HashMap;
use std::rt::Files;

// Whether a directory is at a path, of which the first one that is the same has this place. It is added
// to those that are searched.
fn is_searched_at<R: Files + AllocGlobal>(
    rt: &R,
    searched: &mut SearchedDirectories,
    path: &[u8],
    place: usize,
) -> Result<bool, AllocError>
    ensures { IfOk result (λ held. MatchBool held
        (Holds searched.old.identities.items (spec.Searched path.now place) searched.new.identities.items)
        (Fails searched.old.identities.items (spec.Searched path.now place))) }
{
    match searched.add(rt, path)? {
        Some(found) => Ok(found == place),
        None => Ok(false),
    }
}

// Whether a test holds now.
fn holds<R: Files + AllocGlobal>(
    rt: &R,
    unchanged: &HashMap<Vec<u8>, Metadata>,
    searched: &mut SearchedDirectories,
    states: &mut PathStates,
    test: &PathTest,
) -> Result<bool, AllocError>
    ensures { IfOk result (λ held. MatchBool held
        (Holds searched.old.identities.items (test_of test.now) searched.new.identities.items)
        (Fails searched.old.identities.items (test_of test.now))) }
{
    match test {
        PathTest::Absent(path) => Ok(
            is_in_unchanged_directory(unchanged, path) || is_absent(rt, path),
        ),
        PathTest::File(path) => Ok(is_file(rt, path)),
        PathTest::Directory(path) => Ok(is_directory(rt, path)),
        PathTest::Searched { path, place } => is_searched_at(rt, searched, path, *place),
        PathTest::Plain(path) => Ok(
            is_in_unchanged_directory(unchanged, path) || is_plain_file(rt, path),
        ),
        PathTest::Real { path, real } => leads_to(rt, states, path, real),
    }
}

/// The first of these tests that does not hold now. One of an absent path, or of a file and no link, is not made
/// where the path is that of a name in a directory that is known to be unchanged. One of a directory that is searched holds only if a
/// directory is at its path, and the first that is the same, by device and inode, has its place.
///
/// The only error is lack of memory.
pub fn first_failing<'a, R: Files + AllocGlobal>(
    rt: &R,
    unchanged: &HashMap<Vec<u8>, Metadata>,
    tests: &'a [PathTest],
) -> Result<Option<&'a PathTest>, AllocError>
    ensures { IfOk result (λ found.
        IsFirstFailing (tests_of tests.now) (option_map (λ t. test_of t.now) found)) }
{
    let mut searched = SearchedDirectories::new(rt);
    // A directory counts whenever it changed.
    let mut states = PathStates::new(rt, Timestamp::new(i64::MAX, 0));
    for test in tests {
        if !holds(rt, unchanged, &mut searched, &mut states, test)? {
            return Ok(Some(test));
        }
    }
    Ok(None)
}
