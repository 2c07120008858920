//! One call for the key of a compilation, after sccache's `src/compiler/c.rs`, and the walk over the text that
//! it preprocesses.
//!
//! A [`CCompilerHasher`] is a compiler and a parsed command line. Its
//! [`generate_hash_key`](CCompilerHasher::generate_hash_key) returns a [`HashResult`]: the key, from a
//! store or computed. [`CCompilerHasher::preprocessor_key`] returns the key under which a store is
//! asked. [`Conditions`] has what a call takes beside the compilation, its files and its store.
//!
//! Callers name `c_cache_keys`, which re-exports what is here.
//!
//! # The walk
//!
//! The walk goes over the line markers of a preprocessed text. It finds which files the text was made
//! of, and whether all of them are known.
//!
//! A preprocessor prints the name of each file that it read. If each named file can be digested,
//! the digests show whether the same text would be printed again, and nothing needs to be
//! preprocessed. [`process_preprocessed_file`] looks at each name:
//!
//! - names that are empty or enclosed in `<` and `>`, and those of system headers if the options
//!   say so, are passed over;
//! - any other name is joined to the working directory and then normalised. The input and
//!   directories are passed over, and a regular file is recorded with its
//!   [recorded digest](cck_include::recorded_digest);
//! - the text is refused if the path is none of these. Then there is no file or directory, the file
//!   has no recorded digest, or it may still be written, as one of its times is the call time or
//!   later. The text is also refused for `.incbin` followed by a quote, since no marker names the
//!   file that it includes.
//!
//! The first such name, inclusion or malformed marker decides. No file that is named after it is
//! looked at.
//!
//! ```rust
//! let text = b"# 1 \"a.c\"\n# 1 \"../inc/h.h\" 1\n# 1 \"<built-in>\"\n";
//! let walk = process_preprocessed_file::<Sha256State, MapFiles>(
//!     alloc, &mut files, b"/w/a.c", b"/w", text, config, moment, &zone, &[],
//! )?;
//! walk // accepted, with `/inc/h.h` and its digest
//! ```
//!
//! Files are passed as [`Files`](cck_files::Files). After a fault of a call on them the text may be
//! refused; an accepted text and a malformed marker are exact even then.
//! [`process_preprocessor_line`] does the same for one marker, and adds to [`Records`]. The result
//! is a [`Walk`], or a [`LineAction`] for one marker. An error is a [`KeyError`] of
//! `cck_digest`. [`laws`] states when walks are equal, and when no file is looked at.
#![tactic(auto)]

mod call;
mod conditions;
mod errors;
mod hasher;
mod included;
mod judge;
pub mod laws;
mod line;
mod name;
mod records;
mod seen;
mod walk;
mod walk_context;

pub use call::{CacheControl, HashResult};
pub use conditions::Conditions;
pub use hasher::{CCompilerHasher, PreprocessorKey};
pub use line::{LineAction, process_preprocessor_line};
pub use records::Records;
pub use walk::{Walk, process_preprocessed_file};
