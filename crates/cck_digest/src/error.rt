//! The errors of the libraries' calls.
ghost use Rattle.std.specs.Prelude.{◌≡◌};
ghost use Rattle.cck_digest.specs.declared.error.UtilError.TheVariants.{Memory};
ghost use Rattle.cck_digest.specs.declared.error.FileError.TheVariants.{Memory as FileMemory};

use std::alloc::{AllocError, AllocFailed};
use thiserror::Error;

/// The error of a call on files.
#[derive(Debug, Clone, Copy, PartialEq, Eq, Error)]
pub enum FileError {
    /// There is no node at the path.
    #[error("there is no such file")]
    NotFound,
    /// The node at the path is of another kind than the call asks for.
    #[error("the file is of another kind")]
    OtherKind,
    /// A device or a file system failed.
    #[error("a call on a file failed")]
    Fault,
    /// An allocation failed.
    #[error("out of memory")]
    Memory,
}

/// The error of a call of the libraries.
#[derive(Debug, Clone, Copy, PartialEq, Eq, Error)]
pub enum UtilError {
    /// An allocation failed.
    #[error("out of memory")]
    Memory,
    /// A reader failed. An interrupted read counts as a failure.
    #[error("a read failed")]
    Read,
    /// A call on files failed with this error. Lack of memory is [`UtilError::Memory`] instead.
    #[error("a file can't be read: {0}")]
    File(FileError),
    /// A directory is nested deeper than 100 levels.
    #[error("a directory is nested too deep")]
    TooDeep,
    /// There are more bytes than a length of four bytes can state: more than 4294967295.
    #[error("too many bytes for a length of four bytes")]
    TooLong,
    /// A writer failed.
    #[error("a write failed")]
    Write,
    /// A text ends after the `\` that begins an escape.
    #[error("the text ends within an escape")]
    IncompleteEscape,
    /// A `\` is followed by a byte that begins no escape.
    #[error("there is no such escape")]
    InvalidEscape,
    /// A text ends before the two digits of `\x`.
    #[error("the text ends within the digits of an escape")]
    IncompleteHex,
    /// A digit of `\x` is not hexadecimal.
    #[error("a digit of an escape is not hexadecimal")]
    InvalidHex,
}

impl From<AllocError> for FileError {
    ghost from_gives = { λ _ e. e ≡ FileMemory };

    fn from(_: AllocError) -> FileError {
        FileError::Memory
    }
}

impl<T: Drop> From<AllocFailed<T>> for FileError {
    ghost from_gives = { λ _ e. e ≡ FileMemory };

    fn from(_: AllocFailed<T>) -> FileError {
        FileError::Memory
    }
}

/// [`FileError::Memory`] becomes [`UtilError::Memory`], and every other error becomes
/// [`UtilError::File`].
impl From<FileError> for UtilError {
    ghost use Rattle.cck_digest.specs.Error.{util_error};

    ghost from_gives = { λ file e. e ≡ util_error file };

    fn from(error: FileError) -> UtilError {
        match error {
            FileError::Memory => UtilError::Memory,
            other => UtilError::File(other),
        }
    }
}

impl From<AllocError> for UtilError {
    ghost from_gives = { λ _ e. e ≡ Memory };

    fn from(_: AllocError) -> UtilError {
        UtilError::Memory
    }
}

impl<T: Drop> From<AllocFailed<T>> for UtilError {
    ghost from_gives = { λ _ e. e ≡ Memory };

    fn from(_: AllocFailed<T>) -> UtilError {
        UtilError::Memory
    }
}
