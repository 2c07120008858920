//! Digests and what is fed to them, and the errors of all libraries above.
//!
//! A cache key is the *hex digest* of a list of bytes, its *key material*: the output of a hash
//! function, written as digits. The contract of each call here says which bytes it feeds, so that a
//! crate above can state its whole key material.
//!
//! - [`HashState`] is the hash function, which the caller chooses; the program's is
//!   [`Sha256State`].
//! - [`Digest`] is fed piece by piece and returns the hex digest; [`hash_length`] and
//!   [`hash_len_prefixed`] feed lengths and frames, and [`hex`] writes bytes as digits, each a
//!   [`hex_digit`].
//! - [`read_to_end`] reads a reader to its end, at most [`HASH_BUFFER_SIZE`] bytes at a time, and
//!   passes each piece to a [`Sink`]; [`read_all`] returns all that it reads.
//! - [`Digest::reader_sync`] and its variants compute the digest of what a reader gives.
//! - [`TimeMacroFinder`] finds the time macros in a stream, however the stream is cut, and
//!   [`WatchedDigest`] feeds it and a digest in one pass. [`SeenMacros`] is its state as values.
//! - [`UtilError`] and [`FileError`] are the errors of this crate and of calls on files; [`Error`] is
//!   that of calls on entries, and [`KeyError`] that of calls for keys.
//! - [`VERSION`] is the version of the project.
//! - [`laws`] states properties of the definitions.
//!
//! ```rust
//! let mut digest = Digest::<Sha256State>::new();
//! digest.update(b"ab");
//! digest.update(b"c");
//! let text = digest.finish(alloc)?; // the hex digest of `abc`, by SHA-256
//! ```
//!
//! # Errors of calls
//!
//! [`KeyError`] is the error of all calls that compute a key or a part of one. These are the calls
//! on parsed command lines, on extra files and for whole keys, and the walks over preprocessed
//! text. [`PreprocessError`] is why a compiler returned no preprocessed text, which is one of the
//! causes. Another one is an [`Error`], why bytes of the store are not read as an entry.
//!
//! - [`KeyError::number`] is the number of each variant.
//! - `From` makes a [`KeyError`] of lack of memory and of a `UtilError`, so `?` converts both.
//!
//! ```rust
//! let error = KeyError::Preprocess(PreprocessError::Failed);
//! error.number(); // 6
//! error == KeyError::Preprocess(PreprocessError::Fault); // `false`
//! ```
#![tactic(auto)]

mod digest;
mod entry_error;
mod error;
mod finder;
mod hash;
mod key_error;
pub mod laws;
mod preprocess_error;
mod reader;
mod stream;
mod version;

pub use digest::{Digest, hash_len_prefixed, hash_length, hex, hex_digit};
pub use entry_error::Error;
pub use error::{FileError, UtilError};
pub use finder::{SeenMacros, TimeMacroFinder};
pub use hash::{HashState, Sha256State};
pub use key_error::KeyError;
pub use preprocess_error::PreprocessError;
pub use reader::WatchedDigest;
pub use stream::{HASH_BUFFER_SIZE, Sink, new_hash_buffer, read_all, read_to_end};
pub use version::VERSION;
