//! The errors of calls on entries.
ghost use Rattle.std.specs.Prelude.{◌≡◌};
ghost use Rattle.cck_digest.specs.declared.entry_error.Error.TheVariants.{Memory};

use crate::UtilError;
use std::alloc::{AllocError, AllocFailed};
use thiserror::Error;

/// The error of a call on an entry, or on what it records.
///
/// Upstream's `preprocessor_cache::Error`.
#[derive(Debug, Clone, Copy, PartialEq, Eq, Error)]
pub enum Error {
    /// A file can't be read, or a writer failed.
    #[error("{0}")]
    Io(UtilError),
    /// The first byte is that of an entry, but the bytes are no entry.
    #[error("a preprocessor cache entry is damaged")]
    Deserialization,
    /// The first byte is the number of another format.
    #[error("Unknown preprocessor cache entry format {0:x}")]
    UnknownFormat(u8),
    /// Memory is lacking.
    #[error("out of memory")]
    Memory,
}

impl From<AllocError> for Error {
    ghost from_gives = { λ _ e. e ≡ Memory };

    fn from(_: AllocError) -> Error {
        Error::Memory
    }
}

impl<T: Drop> From<AllocFailed<T>> for Error {
    ghost from_gives = { λ _ e. e ≡ Memory };

    fn from(_: AllocFailed<T>) -> Error {
        Error::Memory
    }
}
