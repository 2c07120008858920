//! FileCases of the calls on maps of paths, files, digests of files, wrappers, time parts, recorded
//! digests, preprocessor keys and entries, and of walks over line markers.
//!
//! [`FileCases`] is the subject of a vector file, and [`WalkCases`] that of one of line markers and walks.
//! `docs/TESTING.md` has the grammar. Beside the words that are known in every file, and those of
//! arguments, variables and files, those of `wanted.rt` are known here.

mod cases;
mod digests;
mod entries;
mod errors;
mod files;
mod keys;
mod markers;
mod path_map;
mod shown;
mod texts;
mod times;
mod walk_cases;
mod walks;
mod wanted;

use crate::file_cases::cases::FileCases;
use crate::file_cases::walk_cases::WalkCases;
use std::io;

/// Runs the cases of a file as [`run_file`](crate::cases::run_file) does.
///
/// # Errors
///
/// Those of [`run_file`](crate::cases::run_file).
pub(crate) fn run_file(rt: &HostRuntime, name: &str) -> io::Result<bool> {
    crate::cases::run_file::<FileCases>(rt, name)
}

/// Runs the cases of a file as [`run_file`](crate::cases::run_file) does.
///
/// # Errors
///
/// Those of [`run_file`](crate::cases::run_file).
pub(crate) fn run_walk_file(rt: &HostRuntime, name: &str) -> io::Result<bool> {
    crate::cases::run_file::<WalkCases>(rt, name)
}
