//! The rules of a cache over real files: what a store keeps and under which names, which compilations
//! are portable, what is not recorded, what a killed recording left, and what goes where a store is full.
//!
//! All calls are on values: none reads a file.
//!
//! - [`EntryFile`] and [`ObjectFile`] are the two kinds of file of a store. Their bytes end in
//!   frames, after a checksum of these, so that a file that was damaged is not read.
//!   [`entry_in`] and [`object_in`] return what the bytes of a file hold for a key.
//! - [`may_have_digest`] says, by a search of its bytes, whether an entry file may have a file's present contents.
//! - [`PathTest`] is what must hold of a path before an entry is used, and [`PathStatus`] is what
//!   the system said of a directory when the entry was recorded.
//! - [`object_name`] returns the name under which an object is kept.
//! - [`refusal_of`] says why a compilation is not recorded, by what is known before the files of its
//!   text are judged.
//! - [`is_abandoned`] says whether a file was left by a recording that was killed, and [`is_day_old`] whether
//!   one was last used more than a day ago.
//! - [`limit_of`] reads the limit of a store, and [`removed_count`] says which files go where there are too many
//!   bytes.
//! - [`sign_value`] and [`compress_value`] make a value of a server, and [`verified_value`] and [`payload_of`] read one.
//! - [`laws`] states what equal names have in common, which damage a checksum finds in any case, and
//!   what `==` means for a [`PathTest`].
//!
//! # Base directories
//!
//! A compilation is *portable* if the words and the text of it name the base directory only where
//! the object has something else in its place. Such a compilation has a key without the base
//! directory; every other one has a key with all directories in it.
//!
//! - [`base_of`] returns the base directory of portable words.
//! - [`bases_of`] lists the base directories that are cut from the key of words and a text.
//! - [`shows_base`] says whether a base directory is in what a compilation made.
#![tactic(auto)]

mod age;
mod argument;
mod base;
mod changed;
mod checksum;
mod contents;
mod entry_file;
mod frames;
mod front_coding;
pub mod laws;
mod object_file;
mod object_names;
mod path_status;
mod path_test;
mod refusal;
mod removal;
mod shown;
mod signature;
mod size;
mod stored;
mod text;
mod value;

pub use age::{is_abandoned, is_day_old};
pub use base::{Words, base_of};
pub use changed::may_have_digest;
pub use contents::{entry_in, object_in};
pub use entry_file::EntryFile;
pub use object_file::ObjectFile;
pub use object_names::object_name;
pub use path_status::PathStatus;
pub use path_test::PathTest;
pub use refusal::{Known, Refusal, refusal_of};
pub use removal::removed_count;
pub use shown::shows_base;
pub use size::{limit_of, size_of};
pub use text::bases_of;
pub use value::{Payload, compress_value, payload_of, sign_value, unsigned_value, verified_value};
