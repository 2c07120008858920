//! The errors of calls on files as the errors of entries.
ghost use Rattle.std.specs.Prelude.{◌≡◌};
ghost use Rattle.cck_include.specs.Errors.{io_error};

use cck_digest::{Error, FileError, UtilError};

// Lack of memory stays lack of memory, and any other error becomes `Error::Io`.
pub(crate) fn io_error(error: FileError) -> Error
    ensures { result ≡ io_error error }
{
    match error {
        FileError::Memory => Error::Memory,
        other => Error::Io(UtilError::File(other)),
    }
}
