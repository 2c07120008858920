//! The keys of compilations, after sccache's `src/compiler/c.rs`.
//!
//! The *plain key* of a compilation is the hex digest of the key material of the compiler, its
//! arguments, some variables and the preprocessed text. To save preprocessing, a store may hold
//! entries. An entry is held under a *preprocessor key*, which needs no preprocessed text. It has
//! plain keys, each with the files that it was computed from. Such a key is returned from the store
//! if all its files are unchanged.
//!
//! [`CCompiler`] is a compiler with its executable. It parses a command line into a
//! [`CCompilerHasher`], whose [`generate_hash_key`](CCompilerHasher::generate_hash_key) is one call
//! for a key. [`run_calls`] makes calls in order. They take any [`Files`](cck_files::Files), any
//! compiler ([`CCompilerImpl`]), any store ([`PreprocessorStore`]) and any hash function. A call
//! returns a [`HashResult`], or a [`KeyError`] that says why there is no key. Its cause may be a
//! [`PreprocessError`] of the compiler or a [`StoreError`] of the store.
//!
//! The headline is two clauses of [`run_calls`], and a law over the same definitions,
//! [`laws::headline`]. The first half: over calls in order on a store that starts empty, every key
//! that is returned is the plain key of its call, if
//!
//! - no two different strings that may be hashed have one digest;
//! - a preprocessor prints the same text again for a later call that agrees with the first one, on
//!   the same input and the same included files. Calls agree in all that the preprocessor key has
//!   of a request, and in the working directory;
//! - the options that let a changed file count as unchanged are off;
//! - the store returns only what was put, as its interface demands;
//! - with the option `hash_working_directory` off, no preprocessor key is that of two requests. If
//!   it is on, this is not asked.
//!
//! The second half: on any store, a stored key that matches is returned by a call that may use the
//! store and meets no fault and no lack of memory.
//!
//! [`process_preprocessed_file`] reads from the line markers of a text which files it was made of.
//! [`laws::verdict_is_decided`] says that the verdicts in its contract are those in the contracts
//! of calls.
//!
//! The calls on one compilation, the interfaces of compilers and stores, and the walk are re-exported from
//! `cck_hasher`, `cck_compiler` and `cck_util`. There are two stores: [`MapStore`] in memory, and [`EmptyStore`],
//! which keeps nothing. All else that a caller names, such as hash functions, files, times and
//! options, is in [`cck_util`] and [`cck_entry`], which are re-exported whole. Zones are those of
//! `jiff`.
//!
//! One call, from a command line to a key:
//!
//! ```rust
//! use c_cache_keys::{CCompiler, CCompilerImpl, CacheControl, CompilerArguments, KeyError, PreprocessorStore};
//! use c_cache_keys::cck_entry::PreprocessorCacheModeConfig;
//! use c_cache_keys::cck_util::{Files, Sha256State, Timestamp};
//! use jiff::tz::TimeZone;
//! use std::alloc::Global;
//!
//! // `compiler` is made once for an executable, by `CCompiler::new::<Sha256State, F>`.
//! fn key_of<I: CCompilerImpl + Drop, F: Files, S: PreprocessorStore>(
//!     alloc: Global, compiler: &CCompiler<I>, arguments: &[Vec<u8>], files: &mut F, store: &mut S,
//! ) -> Result<Option<String>, KeyError> {
//!     let moment = Timestamp::new(1_700_000_000, 0); // when the call begins, in UTC
//!     let zone = TimeZone::UTC;
//!     let config = PreprocessorCacheModeConfig::activated();
//!     let parsed = compiler.parse_arguments(alloc, files, arguments, b"/w", &[])?;
//!     let CompilerArguments::Ok(hasher) = parsed else {
//!         return Ok(None); // not a compilation, or one whose result can't be cached
//!     };
//!     let found = hasher.generate_hash_key::<Sha256State, F, S>(
//!         alloc, files, store, b"/w", &[], moment, &zone, config, &[], CacheControl::Default,
//!     )?;
//!     Ok(Some(found.key)) // and `found.is_locally_preprocessed`: whether it was computed
//! }
//! ```
//!
//! And a list of calls, each a [`Call`] with its hasher, files, directory, variables and call time.
//! The results are in the order of the calls:
//!
//! ```rust
//! let call_results = run_calls::<Sha256State, I, F, S>(alloc, &mut store, &zone, config, &[], &mut calls)?;
//! ```
//!
//! # Snapshots of real files
//!
//! No contract can say what a disk holds. So a program that keeps a cache for real files reads the
//! files that a call can see into a *snapshot*, any [`Files`](cck_files::Files), and passes it here.
//! These calls take values alone: a snapshot, a [`SnapshotRequest`], the bytes of one stored entry.
//!
//! - [`preprocessor_key`] is the key under which a store may hold an entry.
//! - [`look_up`] returns the key of a hit. It can't preprocess. It reads no file of which a status is given
//!   that shows that the file is unchanged, by its size and times.
//! - [`record_text`] returns the key of a text that a preprocessor printed, and the entry to be put.
//! - [`add_to_entry`] adds the result of a recording to the entry that a store held.
//! - [`snapshot_laws`] carries a hit, and a recording, from one pair to a whole store, and from a snapshot
//!   to all files. A hit by statuses is a hit by contents, if times are honest. [`addition_laws`] and
//!   [`keeping_laws`] say what holds of entries that keep several results.
#![tactic(auto)]

pub mod addition_laws;
mod additions;
mod c_compiler;
mod calls;
mod compiler;
mod hash_key;
pub mod keeping_laws;
mod key;
mod last_put;
pub mod laws;
mod looking;
mod recordings;
mod requests;
pub mod snapshot_laws;
mod text_compiler;

pub use additions::add_to_entry;
pub use c_compiler::CCompiler;
pub use calls::{Call, run_calls};
pub use cck_compiler::{
    ArtifactDescriptor, CCompilerImpl, CCompilerKind, ColorMode, CompilerArguments, KeyError,
    ParsedArguments, PreprocessError, PreprocessorKeyRequest, hashed_directory,
};
pub use cck_entry;
pub use cck_hasher::{
    CCompilerHasher, CacheControl, Conditions, HashResult, LineAction, PreprocessorKey, Records,
    Walk, process_preprocessed_file, process_preprocessor_line,
};
pub use cck_util;
pub use cck_util::{EmptyStore, MapStore, PreprocessorStore, StoreError, one_more};
pub use compiler::ExternalCompiler;
pub use hash_key::preprocessor_cache_entry_hash_key;
pub use key::preprocessor_key;
pub use looking::look_up;
pub use recordings::{RecordedEntry, Recording, record_text};
pub use requests::SnapshotRequest;
