//! The paths at which a preprocessor looks for a header that a source tests for.
ghost use Rattle.std.specs.Prelude.{◌≡◌, IfOk, OnOk, map};
ghost use Rattle.cck_cache_text.specs.HeaderTests.{fields_of, test_fields};
ghost use Rattle.cck_cache_text.specs.Sets.{Adds};
ghost use Rattle.cck_cache_text.specs.SearchList.{search_fields};
ghost use Rattle.cck_cache_text.specs.TestedPaths.{IsBesideFile, IsEither, IsEitherInList, IsPathOfTest, IsPathOfTests};

use crate::absent::{add, joined, path_in};
use crate::header_test::HeaderTest;
use crate::names::directory_of;
use crate::search_list::SearchList;
use std::alloc::{AllocError, Global};
use std::collections::BTreeSet;

// Adds a path and its precompiled header.
fn add_either(alloc: Global, paths: &mut BTreeSet<Vec<u8>>, path: Vec<u8>) -> Result<(), AllocError>
    ensures { OnOk result (Adds (IsEither path.items) paths.old paths.new) }
{
    add(paths, joined(alloc, &path, b".gch", b"")?)?;
    add(paths, path)?;
    Ok(())
}

// Adds the paths of a name in each of these directories.
fn add_in_list(
    alloc: Global,
    paths: &mut BTreeSet<Vec<u8>>,
    directories: &[Vec<u8>],
    name: &[u8],
) -> Result<(), AllocError>
    ensures { OnOk result (Adds (IsEitherInList (map (λ d. d.items) directories.now) name.now) paths.old paths.new) }
{
    for directory in directories {
        add_either(alloc, paths, path_in(alloc, directory, name)?)?;
    }
    Ok(())
}

// Adds the paths of a name in quotes in the directory of a file.
fn add_beside(
    alloc: Global,
    paths: &mut BTreeSet<Vec<u8>>,
    file: &[u8],
    test: &HeaderTest,
) -> Result<(), AllocError>
    ensures { OnOk result (Adds (IsBesideFile file.now (fields_of test.now)) paths.old paths.new) }
{
    if test.is_quoted {
        let path = joined(alloc, directory_of(file), &test.name, b"")?;
        add_either(alloc, paths, path)?;
    }
    Ok(())
}

// Adds the paths for one test.
fn add_paths(
    alloc: Global,
    paths: &mut BTreeSet<Vec<u8>>,
    file: &[u8],
    test: &HeaderTest,
    directories: &[Vec<u8>],
) -> Result<(), AllocError>
    ensures { OnOk result (Adds (IsPathOfTest (map (λ d. d.items) directories.now) file.now (fields_of test.now))
        paths.old paths.new) }
{
    if test.name.starts_with(b"/") {
        add_either(alloc, paths, joined(alloc, &test.name, b"", b"")?)?;
        return Ok(());
    }
    add_beside(alloc, paths, file, test)?;
    add_in_list(alloc, paths, directories, &test.name)?;
    Ok(())
}

/// Adds the paths at which a preprocessor looks for the headers that a file tests for: an absolute name
/// itself; else a name in quotes in the directory of the file, and each name in each directory of the
/// list; and beside each its precompiled header, `NAME.gch`. Paths may be relative to the working
/// directory.
///
/// The only error is lack of memory.
///
/// Source: "Search Path" of the manual of GCC's preprocessor. `__has_include_next` begins later in the
/// list.
pub fn add_tested_paths(
    alloc: Global,
    paths: &mut BTreeSet<Vec<u8>>,
    file: &[u8],
    tests: &[HeaderTest],
    search: &SearchList,
) -> Result<(), AllocError>
    ensures { OnOk result (Adds
        (IsPathOfTests (search_fields search.now).directories file.now (test_fields tests.now)) paths.old paths.new) }
{
    for test in tests {
        add_paths(alloc, paths, file, test, &search.directories)?;
    }
    Ok(())
}
