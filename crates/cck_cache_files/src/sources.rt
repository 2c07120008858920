//! What the sources of a text ask for beside the files that they include.
ghost use Rattle.std.specs.Prelude.{IfOk, IsTrue, List, true};
ghost use Rattle.std.specs.Option.{option_map};
ghost use Rattle.cck_cache_text.specs.Names.{is_named};
ghost use Rattle.cck_cache_text.specs.Sets.{has_key};
ghost use Rattle.cck_cache_text.specs.SearchList.{search_fields};
ghost use Rattle.cck_cache_files.specs.Sources.{AreAsked, IsContents, IsContentsAt, SourceAsks};
ghost use Rattle.cck_files.specs.Calls.{Keeps};
ghost use Rattle.cck_files.specs.FileState.{IsQuiet, fault_count};
ghost use Rattle.cck_include.specs.Marks as spec;
ghost use Rattle.cck_include.specs.Marks.{Marks};

use cck_cache_text::{
    MarkedText, SearchList, add_tested_paths, has_dependency_pragma, has_doubtful_lines,
    header_tests, unspliced,
};
use cck_digest::{FileError, UtilError};
use cck_files::{MapFiles, read_contents_of_size};
use cck_path::{join_path, normalize_path};
use std::alloc::{AllocError, Global};
use std::collections::BTreeSet;

/// The room, in bytes, through which a source is read. Most are shorter, and a longer one is read in several steps.
pub(crate) const USUAL_SIZE: u64 = 16384;

/// What sources ask for.
#[derive(Drop)]
pub enum Asked {
    /// The headers at these paths: whether there is a file. Paths may be relative to the working
    /// directory.
    Paths(BTreeSet<Vec<u8>>),
    /// Headers that are not known: one whose name is not written out where a source tests for it, or any
    /// of a source of which it is not known where its lines end.
    Unknown,
    /// The time of a file, by a pragma.
    Time,
}

// What one source asks for.
enum SourceVerdict {
    // The paths that were added.
    Paths,
    // Headers that are not known.
    Unknown,
    // The time of a file.
    Time,
}

// Adds the paths that a source asks for.
fn add_source(
    alloc: Global,
    paths: &mut BTreeSet<Vec<u8>>,
    name: &[u8],
    contents: &[u8],
    search: &SearchList,
) -> Result<SourceVerdict, AllocError>
    ensures { IfOk result
        (SourceAsks (search_fields search.now).directories name.now contents.now paths.old paths.new) }
{
    if has_doubtful_lines(contents) {
        return Ok(SourceVerdict::Unknown);
    }
    let text = unspliced(alloc, contents)?;
    if has_dependency_pragma(&text) {
        return Ok(SourceVerdict::Time);
    }
    let Some(tests) = header_tests(alloc, &text)? else {
        return Ok(SourceVerdict::Unknown);
    };
    add_tested_paths(alloc, paths, name, &tests, search)?;
    Ok(SourceVerdict::Paths)
}

// The contents of a regular file. `None` where there is none at the path.
fn contents_at(
    alloc: Global,
    files: &mut MapFiles,
    path: &[u8],
) -> Result<Option<Vec<u8>>, UtilError>
    ensures keeps { IfOk result (λ _. Keeps (λ files. files.files) fault_count IsQuiet files.old files.new) }
    ensures contents { IfOk result (λ found.
        IsContentsAt files.old.files path.now (option_map (λ c. c.items) found)) }
{
    match read_contents_of_size(alloc, files, path, USUAL_SIZE) {
        Ok(contents) => Ok(Some(contents)),
        Err(FileError::NotFound) => Ok(None),
        Err(FileError::OtherKind) => Ok(None),
        Err(error) => Err(UtilError::from(error)),
    }
}

// The contents of the file of a name in the snapshot. `None` where the snapshot has no regular file
// there.
fn contents_of(
    alloc: Global,
    files: &mut MapFiles,
    directory: &[u8],
    name: &[u8],
) -> Result<Option<Vec<u8>>, UtilError>
    ensures keeps { IfOk result (λ _. Keeps (λ files. files.files) fault_count IsQuiet files.old files.new) }
    ensures contents { IfOk result (λ found.
        IsContents files.old.files directory.now name.now (option_map (λ c. c.items) found)) }
{
    let joined = join_path(alloc, directory, name)?;
    let path = normalize_path(alloc, &joined)?;
    let found = contents_at(alloc, files, &path)?;
    Ok(found)
}

// What the sources of these names ask for.
fn asked_of(
    alloc: Global,
    files: &mut MapFiles,
    directory: &[u8],
    names: &BTreeSet<Vec<u8>>,
    search: &SearchList,
) -> Result<Asked, UtilError>
    ensures keeps { IfOk result (λ _. Keeps (λ files. files.files) fault_count IsQuiet files.old files.new) }
    ensures asked { IfOk result (AreAsked files.old.files directory.now
        (λ name. IsTrue (has_key names.now name)) (search_fields search.now).directories) }
{
    let mut paths = BTreeSet::new(alloc);
    for name in names {
        let Some(contents) = contents_of(alloc, files, directory, name)? else {
            continue;
        };
        let verdict = add_source(alloc, &mut paths, name, &contents, search)?;
        match verdict {
            SourceVerdict::Paths => {}
            SourceVerdict::Unknown => return Ok(Asked::Unknown),
            SourceVerdict::Time => return Ok(Asked::Time),
        }
    }
    Ok(Asked::Paths(paths))
}

/// What the sources ask for that a preprocessed text names, by their contents in the snapshot. Of a name
/// without a regular file there nothing is known.
///
/// The error is [`UtilError::Memory`], or of a file that can't be read.
pub fn asked_by(
    alloc: Global,
    files: &mut MapFiles,
    directory: &[u8],
    text: &MarkedText<'_>,
    search: &SearchList,
) -> Result<Asked, UtilError>
    ensures keeps { IfOk result (λ _. Keeps (λ files. files.files) fault_count IsQuiet files.old files.new) }
    ensures asked { IfOk result (λ asked. (marks : List spec.Mark) → Marks true text.now marks
        → AreAsked files.old.files directory.now (λ name. IsTrue (is_named marks name))
        (search_fields search.now).directories asked) }
{
    let asked = asked_of(alloc, files, directory, text.names(), search)?;
    Ok(asked)
}
