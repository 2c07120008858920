//! What a cache of keys asks of C compilers, the parsed form of a command line, and the preprocessor key.
//!
//! A compiler is a type that implements [`CCompilerImpl`]. It says its family and its version,
//! parses a command line into [`ParsedArguments`], and prints preprocessed text. Contracts describe
//! it by a value that decides all of these, and proofs about keys know no more of it.
//!
//! [`add_extra_files`] adds to the arguments the files that no command line names but whose digests
//! are part of the keys. [`KeyError`] is the error of a call for a key, parsing included. It and
//! [`PreprocessError`] are those of `cck_digest`.
//!
//! ```rust
//! let mut parsed = match compiler.parse_arguments(alloc, &arguments, b"/w", &vars)? {
//!     CompilerArguments::Ok(parsed) => parsed,
//!     _ => return Ok(None), // no compilation, or one whose result can't be cached
//! };
//! parsed.archs(alloc)?; // of `-arch x -arch y -arch x`: `x` and `y`
//! add_extra_files(alloc, &mut files, &mut parsed, &vars)?;
//! parsed.extra_hash_files; // after the others, what `SCCACHE_EXTRAFILES` names
//! ```
//!
//! # The preprocessor key
//!
//! The preprocessor key is the key under which a store is searched for an entry before anything is
//! preprocessed. It is the hex digest of the *key material*:
//!
//! - the compiler and its arguments, and the hex digests of extra files that it reads;
//! - the variables that change what is compiled or which files a preprocessor finds;
//! - the path of the input, the working directory, and the input's
//!   [recorded digest](cck_include::recorded_digest).
//!
//! The headers that the input includes are not known at this point. They are in the entry that the
//! store holds under the key.
//!
//! - [`PreprocessorKeyRequest::compute`] returns the key.
//! - [`FORMAT_VERSION`](cck_include::FORMAT_VERSION), the format of entries, is part of the key material.
#![tactic(auto)]

mod arguments;
mod compiler;
mod copies;
mod extra_files;
pub mod laws;
mod lists;
mod preprocessor_key;

pub use arguments::{ArtifactDescriptor, ColorMode, ParsedArguments};
pub use cck_digest::{KeyError, PreprocessError};
pub use compiler::{CCompilerImpl, CCompilerKind, CompilerArguments};
pub use extra_files::add_extra_files;
pub use lists::{copy_lists, copy_text, push_copies};
pub use preprocessor_key::{PreprocessorKeyRequest, hashed_directory};
