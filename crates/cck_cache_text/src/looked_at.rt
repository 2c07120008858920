//! The paths at which a preprocessor looks for the headers that a text includes.
ghost use Rattle.std.specs.Prelude.{◌≡◌, Bool, IfOk, IsTrue, List, OnOk, false, map, true, ℕ};
ghost use Rattle.cck_include.specs.Marks as spec;
ghost use Rattle.cck_include.specs.Marks.{Marks};
ghost use Rattle.cck_cache_text.specs.LookedAt.{IsInPlace, IsLookedAt, IsUnnamedPath};
ghost use Rattle.cck_cache_text.specs.SearchList.{search_fields};
ghost use Rattle.cck_cache_text.specs.Sets.{Adds, IsSetOf, has_key};
ghost use Rattle.cck_cache_text.specs.TestedPaths.{IsInList};

use crate::absent::{add, joined, path_in};
use crate::included::included_in;
use crate::names::{MarkedText, Named};
use crate::search_list::SearchList;
use std::alloc::{AllocError, Global};
use std::collections::BTreeSet;

// Adds a path, unless the text names it.
fn add_unnamed(
    paths: &mut BTreeSet<Vec<u8>>,
    named: &Named,
    path: Vec<u8>,
) -> Result<(), AllocError>
    ensures { OnOk result (Adds (λ q. (has_key named.now.names q ≡ false) × (q ≡ path.items)) paths.old paths.new) }
{
    if !named.names.contains(path.as_slice()) {
        add(paths, path)?;
    }
    Ok(())
}

// Adds a name in the working directory and in the directory of each file of the text.
fn add_in_places(
    alloc: Global,
    paths: &mut BTreeSet<Vec<u8>>,
    named: &Named,
    name: &[u8],
) -> Result<(), AllocError>
    ensures { OnOk result (Adds (λ q. (has_key named.now.names q ≡ false)
        × IsInPlace (has_key named.now.directories) name.now q) paths.old paths.new) }
{
    for directory in &named.directories {
        add_unnamed(paths, named, joined(alloc, directory, name, b"")?)?;
    }
    Ok(())
}

// Adds a name in each of these directories.
fn add_in_list(
    alloc: Global,
    paths: &mut BTreeSet<Vec<u8>>,
    named: &Named,
    directories: &[Vec<u8>],
    name: &[u8],
) -> Result<(), AllocError>
    ensures { OnOk result (Adds (λ q. (has_key named.now.names q ≡ false)
        × IsInList (map (λ d. d.items) directories.now) name.now q) paths.old paths.new) }
{
    for directory in directories {
        add_unnamed(paths, named, path_in(alloc, directory, name)?)?;
    }
    Ok(())
}

// Adds the paths at which one header is looked for.
fn add_paths(
    alloc: Global,
    paths: &mut BTreeSet<Vec<u8>>,
    named: &Named,
    directories: &[Vec<u8>],
    name: &[u8],
    is_quoted: bool,
) -> Result<(), AllocError>
    ensures { OnOk result (Adds (IsUnnamedPath (has_key named.now.names) (has_key named.now.directories)
        (map (λ d. d.items) directories.now) name.now is_quoted) paths.old paths.new) }
{
    if name.starts_with(b"/") {
        add_unnamed(paths, named, name.to_vec(alloc)?)?;
        return Ok(());
    }
    if is_quoted {
        add_in_places(alloc, paths, named, name)?;
    }
    add_in_list(alloc, paths, named, directories, name)?;
    Ok(())
}

// Adds the paths at which the headers of these names are looked for.
fn add_all_paths(
    alloc: Global,
    paths: &mut BTreeSet<Vec<u8>>,
    named: &Named,
    directories: &[Vec<u8>],
    names: &BTreeSet<Vec<u8>>,
    is_quoted: bool,
) -> Result<(), AllocError>
    ensures { OnOk result (Adds (λ q. (name : List ℕ) × IsTrue (has_key names.now name)
        × IsUnnamedPath (has_key named.now.names) (has_key named.now.directories)
        (map (λ d. d.items) directories.now) name is_quoted q) paths.old paths.new) }
{
    for name in names {
        add_paths(alloc, paths, named, directories, name, is_quoted)?;
    }
    Ok(())
}

/// The paths at which a preprocessor looks for the headers that this text includes, by the lines that
/// gcc writes of them with `-dI`, and for the files that the arguments include: an absolute name
/// itself; else each name in each directory of the list, and a name in quotes or of an argument in the
/// directory of each file of the text and in the working directory. A path that the text names is not
/// among them. Paths may be relative to the working directory.
///
/// gcc stops at the first file that it finds, so it does not look at all of them.
///
/// The only error is lack of memory.
pub fn looked_at_paths(
    alloc: Global,
    text: &MarkedText<'_>,
    arguments: &[Vec<u8>],
    search: &SearchList,
) -> Result<BTreeSet<Vec<u8>>, AllocError>
    ensures { IfOk result (λ paths. (marks : List spec.Mark) → Marks true text.now marks
        → IsSetOf (IsLookedAt marks text.now (map (λ a. a.items) arguments.now) (search_fields search.now).directories) paths) }
{
    let included = included_in(alloc, text.bytes(), arguments)?;
    let named = text.named();
    let listed = &search.directories;
    let mut paths = BTreeSet::new(alloc);
    add_all_paths(alloc, &mut paths, named, listed, &included.quoted, true)?;
    add_all_paths(alloc, &mut paths, named, listed, &included.bracketed, false)?;
    Ok(paths)
}
