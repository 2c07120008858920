//! Cases of compilers, stores, calls for keys and lists of calls.
//!
//! [`Calls`] is the subject of a vector file. `docs/TESTING.md` has the grammar.
//!
//! Lines give a compilation, and what the call for its key is made under:
//!
//! - of the command line `input`, `compilation_flag`, `depfile`, `too_hard` and a path or a word;
//!   `output NAME PATH` and `optional_output NAME PATH`; `dependency`, `preprocessor`, `common`,
//!   `arch`, `unhashed`, `dist_files`, `extra_files` and a list; the flags `double_dash`,
//!   `external_assembler`, `show_includes`, `explicit_language`, `profile_generate` and
//!   `suppress_rewrite_includes_only`; `color_off`, `color_on`, `color_auto`; `language NAME`;
//! - of the compiler `executable PATH`, `compiler DIGEST`, `kind NAME`, `plusplus`, `version TEXT`,
//!   `assembler DIGEST`, `printed TEXT`, and instead of a compilation `not_compilation`,
//!   `cannot_cache` or `cannot_cache_for DETAIL`;
//! - of the call `cwd PATH`, `recache` or `any_key`, the words of `Given` and `GivenFiles`, and of the
//!   store `new_store`, `empty_store`, `store_fail_at N`, `store_fail_after N` and
//!   `store_forget_at N`;
//! - `add_call` adds a call of all this to the list that `run_calls` makes. `counted_path PATH` and
//!   `count N` say on which path calls are counted, and from where on; `bytewise`, that each read
//!   of a file gives one byte.
//!
//! The calls of each module are in its table `CALLS`.
//!
//! [`FixedCompiler`](fixed_compiler::FixedCompiler) is a compiler whose every result is given, and
//! [`NotingFiles`](noting_files::NotingFiles) are files in memory that count the calls on one path.

mod arguments;
mod calls;
mod compilers;
mod errors;
mod fixed_compiler;
mod keys;
mod lists;
mod noting_files;
mod request;
mod shown;
mod stores;

use crate::call_cases::calls::Calls;
use std::io;

/// Runs the cases of a file as [`run_file`](crate::cases::run_file) does.
///
/// # Errors
///
/// Those of [`run_file`](crate::cases::run_file).
pub(crate) fn run_file(rt: &HostRuntime, name: &str) -> io::Result<bool> {
    crate::cases::run_file::<Calls>(rt, name)
}
