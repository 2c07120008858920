//! The tests of the paths at which the sources of a text look for headers.
ghost use Rattle.std.specs.Prelude.{◌≡◌, IfOk};
ghost use Rattle.cck_cache_files.specs.Tested.{IsTested};
ghost use Rattle.cck_cache_files.specs.PathStates.{KeepsStates};
ghost use Rattle.cck_files.specs.Calls.{Keeps};
ghost use Rattle.cck_files.specs.FileState.{IsQuiet, fault_count};

use crate::preprocessed::Preprocessed;
use crate::tests_at::tests_at;
use crate::{Asked, PathStates, asked_by};
use cck_cache_rules::{PathTest, Refusal};
use cck_cache_text::SearchList;
use cck_digest::UtilError;
use cck_files::MapFiles;
use std::rt::Files;

/// What is found of the paths at which sources look for headers.
#[derive(Drop)]
pub enum Tested {
    /// What is at these paths.
    Tests(Vec<PathTest>),
    /// The compilation is not recorded.
    Refused(Refusal),
}

/// Judges the paths at which the sources of a text look for headers, by their contents in the snapshot
/// and what the compiler printed of its directories.
///
/// The error is of a file of the snapshot that can't be read, or lack of memory.
pub fn tested_by<R: Files + AllocGlobal>(
    rt: &R,
    files: &mut MapFiles,
    states: &mut PathStates,
    preprocessed: &Preprocessed<'_>,
) -> Result<Tested, UtilError>
    ensures keeps { IfOk result (λ _. Keeps (λ files. files.files) fault_count IsQuiet files.old files.new) }
    ensures tested { IfOk result
        (IsTested states.new files.old.files preprocessed.now.request.now.directory.now
        preprocessed.now.text.now preprocessed.now.printed.now) }
    ensures kept { KeepsStates states.old states.new }
{
    let alloc = rt.alloc();
    let (directory, text) = (preprocessed.request.directory, preprocessed.text);
    let Some(search) = SearchList::read(alloc, preprocessed.printed)? else {
        return Ok(Tested::Refused(Refusal::NoSearchList));
    };
    let paths = match asked_by(alloc, files, directory.as_bytes(), text, &search)? {
        Asked::Paths(paths) => paths,
        Asked::Unknown => return Ok(Tested::Refused(Refusal::HeaderTest)),
        Asked::Time => return Ok(Tested::Refused(Refusal::DependencyPragma)),
    };
    match tests_at(rt, states, directory.as_bytes(), &paths)? {
        Some(tests) => Ok(Tested::Tests(tests)),
        None => Ok(Tested::Refused(Refusal::EarlierPath)),
    }
}
