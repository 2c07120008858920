//! Real files as a cache reads and writes them.
//!
//! - A *snapshot* is a [`MapFiles`](cck_files::MapFiles) with the files that one call looks at, as
//!   they are now: [`add_file`] and [`add_named_files`]. What can't be read, or is in doubt, is left
//!   out. [`add_included`] adds a file only where what is known of it does not show that it is unchanged.
//! - [`PathStates`] says of paths whether there is anything at them, and whether a link on the way
//!   changed since a given time. It looks at each path once.
//! - [`text_statuses`] and [`add_directory_statuses`] say what the system says of the files of a text and of
//!   the directories of absent paths when an entry is recorded, and [`unchanged_statuses`] of which it
//!   says the same when the entry is looked for.
//! - [`first_failing`] makes the tests of an entry file. [`SearchedDirectories`] says which of the directories that are searched are the same.
//! - [`link_tests`] lists the tests of the links on the way to system headers.
//! - [`asked_by`] says on which other files the sources of a text may depend.
//! - [`may_be_copy`] says of a file whether gcc may have taken it for a copy of one of the files of a
//!   text, which [`known_files`] returns by their lengths and times, and [`is_one_file`] whether two
//!   paths lead to one file. [`has_copies`] says whether two files of a text are copies.
//! - [`StoreDirectory`] is the directory of a store. It has up to [`ENTRY_FILES`] entry files of one
//!   preprocessor key, each with the name that [`entry_name`] returns.
//! - [`list_files`], [`list_share`] and [`list_counts`] list the files of a store.
//! - [`compiler_digest`] is the digest of a compiler's programs on this machine, and
//!   [`shared_compiler_digest`] that of their contents. [`kept_programs`] says which these are, as a
//!   store keeps it.
//! - [`Request`] is the compilation that a call asks for, and [`Preprocessed`] what a compiler made of its
//!   input before it compiled.
//! - [`absence_of`] judges the directories that are searched, the paths at which a header would have been
//!   found earlier, and the links on the way to system headers. [`tested_by`] judges the paths that the
//!   sources test for, [`unnamed_by`] those at which gcc may have passed over a file, and
//!   [`may_have_copies`] the copies among the files of a text.
//! - [`laws`] states properties of the definitions.
//!
//! No contract says what a disk holds. The contracts here are on values alone: the paths of a
//! store, the names in a directory, the parts of a time, the states that are kept of paths, the places
//! of directories and of programs, the lines of a list of programs, and those that are hashed, with some numbers or
//! contents for what was read. Beyond them these calls are proved to be safe.
#![tactic(auto)]

mod absence;
mod compiler;
mod copies;
mod entry_names;
mod identity;
pub mod laws;
mod listing;
mod path_in;
mod path_states;
mod path_statuses;
mod path_tests;
mod preprocessed;
mod programs;
mod read_once;
mod real_paths;
mod request;
mod searched;
mod searched_paths;
mod snapshot;
mod sources;
mod store_directory;
mod tested;
mod tests_at;
mod text_copies;
mod times;
mod unnamed;

pub use absence::{Absence, absence_of, all_tests};
pub use compiler::{compiler_digest, shared_compiler_digest};
pub use copies::{
    ComparedFiles, KnownFile, compared_paths, is_doubtful_spelling, is_in_snapshot, known_files,
    may_be_copy,
};
pub use entry_names::{ENTRY_FILES, entry_name};
pub use identity::Identity;
pub use listing::{StoredFile, list_counts, list_files, list_share};
pub use path_states::{PathState, PathStates, is_file};
pub use path_statuses::{
    TextStatuses, UnchangedPaths, add_directory_statuses, add_included, text_statuses,
    unchanged_statuses,
};
pub use path_tests::first_failing;
pub use preprocessed::Preprocessed;
pub use programs::{KeptPrograms, SearchVariables, kept_programs};
pub use read_once::has_copies;
pub use real_paths::{LinkTests, is_working_directory, link_tests, links_of};
pub use request::Request;
pub use searched::SearchedDirectories;
pub use snapshot::{add_file, add_named_files, is_one_file};
pub use sources::{Asked, asked_by};
pub use store_directory::{Kind, StoreDirectory, open_store};
pub use tested::{Tested, tested_by};
pub use text_copies::may_have_copies;
pub use times::{changed, modified};
pub use unnamed::{Unnamed, unnamed_by};
