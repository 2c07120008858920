//! The paths at which a preprocessor looked for headers and found none.
ghost use Rattle.std.specs.Prelude.{◌≡◌, ◌<◌, ◌↔◌, ◌++◌, Contains, IfOk, IsTrue, List, OnOk, [], get_or, length, map, true, ℕ};
ghost use Rattle.std.specs.Option.{option_map};
ghost use Rattle.cck_include.specs.Marks as spec;
ghost use Rattle.cck_include.specs.Marks.{Marks};
ghost use Rattle.cck_cache_text.specs.Absent.{AreAbsentNames, AreAdded, IsBeforeDirectory, IsBeside, IsForName, IsListed, IsInDirectory, path_in, separator};
ghost use Rattle.cck_cache_rules.specs.Reading.{ReadsBack, byte_lists};
ghost use Rattle.cck_cache_text.specs.SearchList.{search_fields};
ghost use Rattle.cck_cache_text.specs.Sets.{Adds, has_key};

use crate::included::included_in;
use crate::names::{MarkedText, Named};
use crate::search_list::SearchList;
use std::alloc::{AllocError, Global};
use std::collections::BTreeSet;

// What a compiler writes between a directory of its list and the name of a file in it.
fn separator(directory: &[u8]) -> &'static [u8]
    ensures { result.now ≡ separator directory.now }
{
    if directory.ends_with(b"/") { b"" } else { b"/" }
}

// A name in a directory, without what is between them.
fn within<'a>(name: &'a [u8], directory: &[u8]) -> Option<&'a [u8]>
    ensures { ReadsBack (path_in directory.now) name.now (option_map (λ rest. rest.now) result) }
{
    name.strip_prefix(directory)?
        .strip_prefix(separator(directory))
}

// These three, one after the other.
pub fn joined(alloc: Global, a: &[u8], b: &[u8], c: &[u8]) -> Result<Vec<u8>, AllocError>
    ensures { IfOk result (λ all. all.items ≡ a.now ++ b.now ++ c.now) }
{
    let mut all = Vec::new(alloc);
    all.reserve(a.len().saturating_add(b.len()).saturating_add(c.len()))?;
    all.extend_from_slice(a)?;
    all.extend_from_slice(b)?;
    all.extend_from_slice(c)?;
    Ok(all)
}

// The path of a name in a directory.
pub fn path_in(alloc: Global, directory: &[u8], name: &[u8]) -> Result<Vec<u8>, AllocError>
    ensures { IfOk result (λ path. path.items ≡ path_in directory.now name.now) }
{
    joined(alloc, directory, separator(directory), name)
}

/// Adds a path.
pub fn add(paths: &mut BTreeSet<Vec<u8>>, path: Vec<u8>) -> Result<(), AllocError>
    ensures { OnOk result (Adds (λ absent. absent ≡ path.items) paths.old paths.new) }
{
    paths.insert(path)?;
    Ok(())
}

/// Adds copies of these paths.
///
/// The only error is lack of memory.
pub fn add_copies(
    alloc: Global,
    paths: &mut BTreeSet<Vec<u8>>,
    all: &[Vec<u8>],
) -> Result<(), AllocError>
    ensures { OnOk result (Adds (Contains (map (λ path. path.items) all.now)) paths.old paths.new) }
{
    for path in all {
        add(paths, path.to_vec(alloc)?)?;
    }
    Ok(())
}

// Adds the path of a precompiled header, and the path itself unless the text names it.
fn add_path(
    alloc: Global,
    paths: &mut BTreeSet<Vec<u8>>,
    named: &Named,
    path: Vec<u8>,
) -> Result<(), AllocError>
    ensures { OnOk result (Adds (IsBeside (has_key named.now.names) path.items) paths.old paths.new) }
{
    add(paths, joined(alloc, &path, b".gch", b"")?)?;
    if !named.names.contains(path.as_slice()) {
        add(paths, path)?;
    }
    Ok(())
}

// Adds the rest of a name in the directory of each file of the text.
fn add_in_places(
    alloc: Global,
    paths: &mut BTreeSet<Vec<u8>>,
    named: &Named,
    rest: &[u8],
) -> Result<(), AllocError>
    ensures { OnOk result (Adds (λ absent. (directory : List ℕ)
        × IsTrue (has_key named.now.directories directory)
        × IsBeside (has_key named.now.names) (directory ++ rest.now) absent) paths.old paths.new) }
{
    for directory in &named.directories {
        add_path(alloc, paths, named, joined(alloc, directory, rest, b"")?)?;
    }
    Ok(())
}

// Adds the rest of a name in the directory of each file of the text, if a header in quotes has that name.
fn add_if_quoted(
    alloc: Global,
    paths: &mut BTreeSet<Vec<u8>>,
    named: &Named,
    quoted: &BTreeSet<Vec<u8>>,
    rest: &[u8],
) -> Result<(), AllocError>
    ensures { OnOk result (Adds (λ absent. IsTrue (has_key quoted.now rest.now)
        × ((directory : List ℕ) × IsTrue (has_key named.now.directories directory)
        × IsBeside (has_key named.now.names) (directory ++ rest.now) absent)) paths.old paths.new) }
{
    if !quoted.contains(rest) {
        return Ok(());
    }
    add_in_places(alloc, paths, named, rest)?;
    Ok(())
}

// Adds the rest of a name in each of these directories.
fn add_in(
    alloc: Global,
    paths: &mut BTreeSet<Vec<u8>>,
    named: &Named,
    directories: &[Vec<u8>],
    rest: &[u8],
) -> Result<(), AllocError>
    ensures { OnOk result (Adds (λ absent. (place : ℕ) × (place < length directories.now)
        × IsBeside (has_key named.now.names)
        (path_in (get_or (map (λ d. d.items) directories.now) place []) rest.now) absent)
        paths.old paths.new) }
{
    for directory in directories {
        add_path(alloc, paths, named, path_in(alloc, directory, rest)?)?;
    }
    Ok(())
}

// Adds the paths at which a name that is in the directory at this place of the list would have been
// found earlier. Returns whether it is there.
fn add_before(
    alloc: Global,
    paths: &mut BTreeSet<Vec<u8>>,
    named: &Named,
    quoted: &BTreeSet<Vec<u8>>,
    directories: &[Vec<u8>],
    place: usize,
    name: &[u8],
) -> Result<bool, AllocError>
    requires { place < length directories.now }
    ensures found { IfOk result (λ found.
        IsTrue found ↔ IsInDirectory (map (λ d. d.items) directories.now) name.now place) }
    ensures added { OnOk result (Adds (IsBeforeDirectory (has_key named.now.directories) (has_key named.now.names)
        (λ rest. IsTrue (has_key quoted.now rest))
        (map (λ d. d.items) directories.now) name.now place) paths.old paths.new) }
{
    let Some(rest) = within(name, &directories[place]) else {
        return Ok(false);
    };
    add_if_quoted(alloc, paths, named, quoted, rest)?;
    add_in(alloc, paths, named, &directories[..place], rest)?;
    Ok(true)
}

// Adds the paths for one name. Returns whether the name is in a directory of the list.
fn add_name(
    alloc: Global,
    paths: &mut BTreeSet<Vec<u8>>,
    named: &Named,
    quoted: &BTreeSet<Vec<u8>>,
    directories: &[Vec<u8>],
    name: &[u8],
) -> Result<bool, AllocError>
    ensures found { IfOk result (λ found.
        IsTrue found ↔ IsListed (map (λ d. d.items) directories.now) name.now) }
    ensures added { OnOk result (Adds (IsForName (has_key named.now.directories) (has_key named.now.names)
        (λ rest. IsTrue (has_key quoted.now rest))
        (map (λ d. d.items) directories.now) name.now) paths.old paths.new) }
{
    add(paths, joined(alloc, name, b".gch", b"")?)?;
    let mut is_found = false;
    for place in 0..directories.len() {
        is_found |= add_before(alloc, paths, named, quoted, directories, place, name)?;
    }
    Ok(is_found)
}

// Adds the paths for all names. Returns `false` where a system header is in no directory of the
// list.
fn add_names(
    alloc: Global,
    paths: &mut BTreeSet<Vec<u8>>,
    named: &Named,
    quoted: &BTreeSet<Vec<u8>>,
    directories: &[Vec<u8>],
) -> Result<bool, AllocError>
    ensures { IfOk result (AreAdded (has_key named.now.directories) (has_key named.now.names)
        (has_key named.now.systems) (λ rest. IsTrue (has_key quoted.now rest))
        (map (λ d. d.items) directories.now) paths.old paths.new) }
{
    for name in &named.names {
        let is_found = add_name(alloc, paths, named, quoted, directories, name)?;
        if !is_found && named.systems.contains(name.as_slice()) {
            return Ok(false);
        }
    }
    Ok(true)
}

/// The paths at which a header that this preprocessed text names would have been found earlier, in
/// order: for each name in a directory of the list, that name in each directory before it in the list,
/// and if the text or the arguments include a header of that name in quotes, in the directory of each
/// file of the text and in the working directory; beside each path and each name its precompiled header
/// `NAME.gch`; the directories that the compiler left out of the list; and `stdc-predef.h` in each
/// directory of the list, which gcc includes without a directive, and without a message where there is
/// none. A path that the text names is not among them, unless it is a precompiled header or was left
/// out. Paths may be relative to the working directory. What is included is read from the lines that
/// gcc writes with `-dI`.
///
/// `None` where a system header is in no directory of the list, so that it is not known where it
/// was looked for. The only error is lack of memory.
///
/// Source: "Search Path" of the manual of GCC's preprocessor, and gcc 12.
pub fn absent_names(
    alloc: Global,
    text: &MarkedText<'_>,
    arguments: &[Vec<u8>],
    search: &SearchList,
) -> Result<Option<BTreeSet<Vec<u8>>>, AllocError>
    ensures { IfOk result (λ found. (marks : List spec.Mark) → Marks true text.now marks
        → AreAbsentNames marks text.now (map (λ a. a.items) arguments.now)
        (search_fields search.now) found) }
{
    let named = text.named();
    let included = included_in(alloc, text.bytes(), arguments)?;
    let mut paths = BTreeSet::new(alloc);
    add_copies(alloc, &mut paths, &search.missing)?;
    let listed = &search.directories;
    add_in(alloc, &mut paths, named, listed, b"stdc-predef.h")?;
    if add_names(alloc, &mut paths, named, &included.quoted, listed)? {
        Ok(Some(paths))
    } else {
        Ok(None)
    }
}
