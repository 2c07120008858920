//! What a cache reads from a compiler's and a preprocessor's output, and from sources.
//!
//! All calls are on values: none reads a file.
//!
//! - [`SearchList`] is a compiler's list of directories for headers, as `gcc -v` prints it.
//! - [`absent_names`] lists the paths at which a named header would have been found earlier, and [`add_copies`] adds
//!   others.
//! - [`MarkedText`] is a preprocessed text with the files that it names, and [`system_names`] lists the system headers
//!   among them.
//! - [`looked_at_paths`] lists the paths at which a preprocessor looks for the headers that a text includes.
//! - [`left_directories`] lists the directories that names of a text leave by `..`, and [`add_left`]
//!   those of one path.
//! - [`assembles_alone`] and [`opens_named_alone`] say by dependency files whether the assembler or the
//!   compiler read other files than those that a text names.
//! - [`header_tests`] and [`has_dependency_pragma`] say on which files a source may depend that it does
//!   not include. Both read a source without its splices, which [`unspliced`] returns.
//!   [`add_tested_paths`] lists the paths at which tests look, and [`may_ask_for_file`] finds both in
//!   an argument.
//! - [`laws`] states a property of the definitions.
#![tactic(auto)]

mod absent;
mod argument;
mod condition;
mod dependency_pragma;
mod directive;
mod header_test;
mod identifier;
mod included;
pub mod laws;
mod left;
mod looked_at;
mod names;
mod read_files;
mod rule;
mod search_list;
mod splices;
mod test_macro;
mod test_name;
mod tested_paths;

pub use absent::{absent_names, add_copies};
pub use argument::may_ask_for_file;
pub use dependency_pragma::has_dependency_pragma;
pub use header_test::{HeaderTest, header_tests};
pub use left::{add_left, left_directories};
pub use looked_at::looked_at_paths;
pub use names::{MarkedText, directory_of, system_names};
pub use read_files::{assembles_alone, opens_named_alone};
pub use search_list::SearchList;
pub use splices::{has_doubtful_lines, unspliced};
pub use tested_paths::add_tested_paths;
