//! Why no text is printed.
ghost use Rattle.std.specs.Prelude.{◌≡◌};
ghost use Rattle.cck_command.specs.MiniErrors.{print_error};
ghost use Rattle.cck_command.specs.declared.mini.error.PrintError.TheVariants.{Memory};

use cck_digest::FileError;
use std::alloc::{AllocError, AllocFailed};
use thiserror::Error;

/// Why no text was printed.
#[derive(Debug, Clone, Copy, Error)]
pub enum PrintError {
    /// A call on files failed.
    #[error("a call on a file failed")]
    Fault,
    /// The input, or a file that it includes, is no regular file.
    #[error("the input or what it includes is no regular file")]
    Failed,
    /// An allocation failed.
    #[error("out of memory")]
    Memory,
}

impl From<AllocError> for PrintError {
    ghost from_gives = { λ _ e. e ≡ Memory };

    fn from(_: AllocError) -> PrintError {
        PrintError::Memory
    }
}

impl<T: Drop> From<AllocFailed<T>> for PrintError {
    ghost from_gives = { λ _ e. e ≡ Memory };

    fn from(_: AllocFailed<T>) -> PrintError {
        PrintError::Memory
    }
}

// A lack of memory and a fault keep their variants. Any other error means no regular file.
pub(crate) fn print_error(error: FileError) -> PrintError
    ensures { result ≡ print_error error }
{
    match error {
        FileError::NotFound | FileError::OtherKind => PrintError::Failed,
        FileError::Fault => PrintError::Fault,
        FileError::Memory => PrintError::Memory,
    }
}
