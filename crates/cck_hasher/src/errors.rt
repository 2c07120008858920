//! The error of a call for a key, from the error of a call that it makes. Lack of memory is always
//! [`KeyError::Memory`].
ghost use Rattle.std.specs.Prelude.{◌≡◌};
ghost use Rattle.cck_hasher.specs.Errors.{entry_error, input_error, key_error_of, text_error};

use cck_compiler::{KeyError, PreprocessError};
use cck_digest::{Error, FileError, UtilError};

/// The error for an input that can't be read.
pub(crate) fn input_error(error: FileError) -> KeyError
    ensures { result ≡ input_error error }
{
    match error {
        FileError::Memory => KeyError::Memory,
        other => KeyError::Input(UtilError::File(other)),
    }
}

/// The error where there is no preprocessor key, since the input can't be read.
pub(crate) fn key_error_of(error: Error) -> KeyError
    ensures { result ≡ key_error_of error }
{
    match error {
        Error::Io(cause) => KeyError::Input(cause),
        _ => KeyError::Memory,
    }
}

/// The error where there is no preprocessed text.
pub(crate) fn text_error(error: PreprocessError) -> KeyError
    ensures { result ≡ text_error error }
{
    match error {
        PreprocessError::Memory => KeyError::Memory,
        other => KeyError::Preprocess(other),
    }
}

/// The error for bytes of a store that are no entry.
pub(crate) fn entry_error(error: Error) -> KeyError
    ensures { result ≡ entry_error error }
{
    match error {
        Error::Memory => KeyError::Memory,
        other => KeyError::Entry(other),
    }
}
