//! Tests of what is at paths.
ghost use Rattle.std.specs.Prelude.{Contains, IfOk, IsOkUnless, IsTrue, OnOk};
ghost use Rattle.std.specs.Option.{option_map};
ghost use Rattle.cck_cache_files.specs.TestsAt.{AreTestsFor, GainsTest, IsTestOrDoubt};
ghost use Rattle.cck_cache_rules.specs.PathTest.{test_of, tests_of};
ghost use Rattle.cck_cache_text.specs.Sets.{has_key};
ghost use Rattle.cck_cache_files.specs.PathStates.{KeepsStates};

use crate::{PathState, PathStates};
use cck_cache_rules::PathTest;
use cck_digest::UtilError;
use cck_path::join_path;
use std::alloc::AllocError;
use std::collections::BTreeSet;
use std::rt::Files;

// Whether this is the last of these tests.
fn is_last(tests: &[PathTest], test: &PathTest) -> bool
    ensures { IsTrue result → Contains (tests_of tests.now) (test_of test.now) }
{
    match tests.last() {
        Some(last) => last == test,
        None => false,
    }
}

/// Appends a test, unless it is the last one.
pub fn push_test(tests: &mut Vec<PathTest>, test: PathTest) -> Result<(), AllocError>
    ensures { OnOk result (GainsTest (tests_of tests.old.items) (test_of test) (tests_of tests.new.items)) }
{
    if is_last(tests, &test) {
        return Ok(());
    }
    tests.push(test)?;
    Ok(())
}

// The test of what is at an absolute path. `None` where that is not known. Below a file there is nothing: the test is
// that the file is there.
fn test_at<R: Files + AllocGlobal>(
    rt: &R,
    states: &mut PathStates,
    path: &[u8],
) -> Result<Option<PathTest>, AllocError>
    ensures test { IfOk result (λ test. IsTestOrDoubt states.new path.now (option_map test_of test)) }
    ensures kept { KeepsStates states.old states.new }
{
    let alloc = rt.alloc();
    let (front, state) = states.first_other(rt, path)?;
    match state {
        PathState::Absent => Ok(Some(PathTest::Absent(front.to_vec(alloc)?))),
        PathState::File => {
            if front.len() < path.len() || !path.ends_with(b".gch") {
                Ok(Some(PathTest::File(front.to_vec(alloc)?)))
            } else {
                Ok(None)
            }
        }
        PathState::Link | PathState::Directory | PathState::Doubtful => Ok(None),
    }
}

/// The tests of what is at the paths of these names, which are relative to the directory. `None` where it is not known
/// what is at one of them.
///
/// The only error is [`UtilError::Memory`]. The states that were kept are kept, after it too.
pub fn tests_at<R: Files + AllocGlobal>(
    rt: &R,
    states: &mut PathStates,
    directory: &[u8],
    names: &BTreeSet<Vec<u8>>,
) -> Result<Option<Vec<PathTest>>, UtilError>
    ensures tests { IfOk result (λ tests. AreTestsFor states.new directory.now
        (λ name. IsTrue (has_key names.now name)) (option_map (λ all. tests_of all.items) tests)) }
    ensures kept { KeepsStates states.old states.new }
    ensures errors { IsOkUnless result UtilError.Memory }
{
    let alloc = rt.alloc();
    let mut tests = Vec::new(alloc);
    for name in names {
        let path = join_path(alloc, directory, name)?;
        let Some(test) = test_at(rt, states, &path)? else {
            return Ok(None);
        };
        push_test(&mut tests, test)?;
    }
    Ok(Some(tests))
}
