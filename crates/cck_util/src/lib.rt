//! The keys of objects, after sccache's `src/util.rs` and `HashKeyParams`, and the stores of entries.
//!
//! The key of an object is the hex digest of its *key material*: the compiler's hex digest, its
//! arguments and variables, the preprocessed text, and a few other parts. [`HashKeyParams`]
//! collects these parts. [`HashKeyParams::compute`] returns the key, for any hash function.
//!
//! ```rust
//! let key = HashKeyParams::new(digest, Language::C, &arguments, text)
//!     .with_env_vars(&variables)
//!     .compute::<Sha256State>(alloc)?;
//! ```
//!
//! - [`Language`] is the language of an input, whose name is part of the key. The error for a text
//!   that names no language is [`UnknownLanguage`]. [`CACHE_VERSION`] is part of the key too.
//! - [`hash_text_list`], [`hash_option`], [`hash_variable_list`] and [`hash_request_variables`]
//!   feed single parts to a digest, so that the end of each is known from the bytes.
//!   [`request_variable_names`] are the names of the cached variables.
//! - [`resolve_compiler_avoiding_wrapper`] finds the compiler that a wrapper such as `ccache`
//!   wraps.
//! - [`laws`] has what is proved of the definitions alone.
//!
//! A [`PreprocessorStore`] holds bytes under keys. It may lose entries, fail and run out of memory,
//! but it never returns what wasn't put under the key. It counts its store failures, so that a
//! statement can say what holds if there was none. The contracts of calls for keys use this
//! interface alone, so they hold for any store.
//!
//! There are two stores here: [`MapStore`] in memory, which can be armed to lose entries and to
//! fail, and [`EmptyStore`], which keeps nothing. They count a store failure by [`one_more`].
//!
//! ```rust
//! let mut store = MapStore::new(alloc);
//! store.put_preprocessor_cache_entry(alloc, "k", b"bytes")?;
//! store.get_preprocessor_cache_entry(alloc, "k")?; // `Some` of these bytes
//! store.fail_at(1);
//! store.get_preprocessor_cache_entry(alloc, "k"); // `Err(StoreError::Fault)`, a store failure
//! store.held("k"); // the bytes are still held
//! ```
//!
//! Names of the crates below are exported again: digests of `cck_digest`, the removal of base
//! directories of `cck_strip`, paths, byte texts and times of `cck_path`, the interface to files of
//! `cck_files`, and the digests of files of `cck_files`. So each type of this repository that
//! a call takes or returns has its name here.
#![tactic(auto)]

mod empty_store;
mod frames;
mod key;
mod language;
pub mod laws;
mod map_store;
mod store;
mod variables;

pub use cck_digest::{
    Digest, FileError, HASH_BUFFER_SIZE, HashState, SeenMacros, Sha256State, Sink, TimeMacroFinder,
    UtilError, VERSION, WatchedDigest, hash_len_prefixed, hash_length, hex, read_all, read_to_end,
};
pub use cck_files::{
    DigestFiles, Files, MapFiles, Node, feed_file, feed_file_of_size, hash_all, read_contents,
    read_contents_of_size, resolve_compiler_avoiding_wrapper,
};
pub use cck_path::{
    Component, Components, FileKind, Metadata, MetadataCtimeExt, OsStrExt, Timestamp,
    ascii_unescape_default, compare_paths, decode_path, encode_path, extension, file_name,
    first_value, fmt_duration_as_secs, is_absolute, join_path, normalize_path, normalize_win_path,
    same_path, write_length_prefixed,
};
pub use cck_strip::{
    BasedirTrie, hash_arguments, pathname_positions, strip_basedirs, strip_basedirs_from_arg,
};
pub use empty_store::EmptyStore;
pub use frames::{hash_option, hash_text_list};
pub use key::{CACHE_VERSION, HashKeyParams};
pub use language::{Language, UnknownLanguage};
pub use map_store::MapStore;
pub use store::{PreprocessorStore, StoreError, one_more};
pub use variables::{hash_request_variables, hash_variable_list, request_variable_names};
