//! The tests of the directories that a preprocessor searches.
ghost use Rattle.std.specs.Prelude.{◌≡◌, IfOk, IsOkUnless};
ghost use Rattle.std.specs.Option.{option_map};
ghost use Rattle.cck_cache_files.specs.SearchedPaths.{AddsSearched, AreSearchedTests, is_expected};
ghost use Rattle.cck_cache_rules.specs.PathTest.{tests_of};
ghost use Rattle.cck_cache_text.specs.SearchList.{search_fields};
ghost use Rattle.cck_path.specs.Bytes.{lists_of};

use crate::SearchedDirectories;
use cck_cache_rules::PathTest;
use cck_cache_text::SearchList;
use cck_digest::UtilError;
use cck_path::join_path;
use std::rt::Files;

// Whether a compiler's list is right for a directory at this place of the listed ones and then the
// duplicates, of which the first that is the same has this place. A listed directory is the same as no
// earlier one, but for one of those for `"..."` alone; a duplicate is the same as a listed one.
fn is_expected(search: &SearchList, place: usize, first: usize) -> bool
    ensures { result ≡ is_expected (search_fields search.now) place first }
{
    let listed = search.directories.len();
    if place < listed {
        first == place || (search.quoted <= place && first < search.quoted)
    } else {
        first < listed
    }
}

// Adds the test of each of these directories, which are relative to another one. `false` where the
// compiler's list is not right for one of them now.
fn add_searched<R: Files + AllocGlobal>(
    rt: &R,
    searched: &mut SearchedDirectories,
    tests: &mut Vec<PathTest>,
    directory: &[u8],
    search: &SearchList,
    names: &[Vec<u8>],
) -> Result<bool, UtilError>
    ensures added { IfOk result (λ right. AddsSearched directory.now (search_fields search.now)
        (lists_of names.now) searched.old.identities.items (tests_of tests.old.items)
        searched.new.identities.items (tests_of tests.new.items) right) }
    ensures errors { IsOkUnless result UtilError.Memory }
{
    for name in names {
        let path = join_path(rt.alloc(), directory, name)?;
        let place = tests.len();
        let Some(first) = searched.add(rt, &path)? else {
            return Ok(false);
        };
        if !is_expected(search, place, first) {
            return Ok(false);
        }
        tests.push(PathTest::Searched { path, place: first })?;
    }
    Ok(true)
}

/// The tests of the directories of a compiler's list, which are relative to this one: first those that
/// are searched, then the duplicates. `None` where the list is not right for one of them now: no
/// directory is there; a listed one is the same as an earlier one, and not as one for `"..."` alone;
/// or a duplicate is the same as no listed one.
///
/// The only error is [`UtilError::Memory`].
pub fn searched_tests<R: Files + AllocGlobal>(
    rt: &R,
    directory: &[u8],
    search: &SearchList,
) -> Result<Option<Vec<PathTest>>, UtilError>
    ensures tests { IfOk result (λ tests. AreSearchedTests directory.now (search_fields search.now)
        (option_map (λ all. tests_of all.items) tests)) }
    ensures errors { IsOkUnless result UtilError.Memory }
{
    let mut searched = SearchedDirectories::new(rt);
    let mut tests = Vec::new(rt.alloc());
    let (listed, duplicates) = (&search.directories, &search.duplicates);
    if !add_searched(rt, &mut searched, &mut tests, directory, search, listed)? {
        return Ok(None);
    }
    if !add_searched(rt, &mut searched, &mut tests, directory, search, duplicates)? {
        return Ok(None);
    }
    Ok(Some(tests))
}
