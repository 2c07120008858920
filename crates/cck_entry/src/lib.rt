//! The entries of the preprocessor cache, after sccache's `src/compiler/preprocessor_cache.rs`: a store
//! holds an *entry* under the preprocessor key, which `cck_compiler` computes.
//!
//! An entry is a finite map from the keys of results to the files that each result included, as
//! they were then. If all of them are unchanged at a later call, the result's key is returned and
//! no preprocessor runs.
//!
//! - [`PreprocessorCacheEntry`] is an entry. [`PreprocessorCacheEntry::add_result`] gives it a
//!   result, within limits, and [`PreprocessorCacheEntry::lookup_result_digest`] finds the result
//!   whose files all still are what they were.
//! - [`IncludeEntry`] is a file that was included: its path, digest, size and times. The digest is
//!   its [`recorded_digest`], which covers its contents and what their time macros show.
//! - [`PreprocessorCacheEntry::serialize_to`] writes an entry and [`PreprocessorCacheEntry::read`]
//!   reads it back. For other bytes it returns an error, by their cause.
//! - [`EntryView`] is an entry borrowed from its bytes; [`EntryView::read`] accepts the same bytes.
//!   [`EntryView::lookup_result_digest`] finds the same result, and nothing but the places of the
//!   results is kept in memory. [`EntryView::lookup_with_statuses`] does not read a file whose status
//!   is known and [shows](status_accepts) that it is the one that was included.
//!   [`EntryView::results`] are its results, each a [`ResultRef`], and [`ResultRef::includes`]
//!   yields the [`Includes`] of one.
//! - [`laws`] has what is proved of the definitions alone.
//!
//! [`includes_match`] says whether all includes of a result are unchanged. A file of another size is
//! not; where the options let its times decide, it need not be read. [`include_matches`] says so of
//! one file, an [`IncludeRef`], whose path and digest may be borrowed from other bytes. [`KnownFiles`]
//! keeps what they found of each file, so that no file is read twice, and [`JudgeContext`] is what
//! files are judged by.
//!
//! The types that these calls take and return are exported again: hash functions and errors of
//! `cck_digest`, files of `cck_files`, metadata and times of `cck_path`. Zones are those of `jiff`.
//!
//! An entry is written in one way only. Numbers have their lowest byte first:
//!
//! | part | bytes |
//! |---|---|
//! | the format | one byte, 2 |
//! | the number of results | 8 bytes |
//! | each result, keys ascending by their bytes | the key's length in 8 bytes, the key, the number of its includes in 8 bytes, these in their order |
//! | each include | the path's length in 8 bytes, the path, the digest's length in 8 bytes, the digest, the size in 8 bytes, the time of the modification, the time of the change |
//! | a time | the byte 0 for none; or the byte 1, the seconds in 8 bytes, the nanoseconds below a second in 4 |
//!
//! Keys and digests are UTF-8, paths are any bytes, and nothing follows the last result.
//!
//! ```rust
//! let mut entry = PreprocessorCacheEntry::new(alloc);
//! entry.add_result(&mut files, moment, "key", &included)?; // pairs of a recorded digest and a path
//! let mut bytes = Vec::new(alloc);
//! entry.serialize_to(&mut bytes)?;
//! let same = PreprocessorCacheEntry::read(alloc, &bytes)?; // equal to `entry`
//! let key = same.lookup_result_digest::<Sha256State, _>(alloc, &mut files, later, &zone, &vars, config)?;
//!
//! let view = EntryView::read(alloc, &bytes)?; // for the look-up alone
//! let key = view.lookup_result_digest::<Sha256State, _>(alloc, &mut files, later, &zone, &vars, config)?;
//! ```
#![tactic(auto)]

mod adding;
mod entry;
mod includes;
mod known;
pub mod laws;
mod lent;
mod lookup;
mod matching;
mod reading;
mod result_ref;
mod results;
mod statuses;
mod view;
mod writing;

pub use cck_digest::{Error, FileError, HashState, Sha256State, UtilError};
pub use cck_files::{Files, MapFiles, Node};
pub use cck_include::{
    FORMAT_VERSION, IncludeEntry, IncludeRef, JudgeContext, PreprocessorCacheModeConfig, gather,
    local_time_part, recorded_digest,
};
pub use cck_path::{FileKind, Metadata, PathMap, Timestamp};
pub use entry::PreprocessorCacheEntry;
pub use includes::Includes;
pub use known::KnownFiles;
pub use matching::{include_matches, includes_match, times_agree};
pub use result_ref::ResultRef;
pub use statuses::status_accepts;
pub use view::EntryView;
