//! The error of the calls that compute keys.
ghost use Rattle.std.specs.Prelude.{◌≡◌};
ghost use Rattle.cck_digest.specs.KeyError.{number_of};
ghost use Rattle.cck_digest.specs.declared.key_error.KeyError.TheVariants.{Memory};

use crate::{Error, PreprocessError, UtilError};
use std::alloc::{AllocError, AllocFailed};
use thiserror::Error as ThisError;

/// The error of a call that computes a key.
#[derive(Debug, Copy, Clone, PartialEq, Eq, ThisError)]
pub enum KeyError {
    /// An allocation failed.
    #[error("out of memory")]
    Memory,
    /// The digest of an extra file failed with this error. Lack of memory is [`KeyError::Memory`]
    /// instead.
    #[error("an extra file has no digest: {0}")]
    Extra(UtilError),
    /// The input cannot be read, with this error. Lack of memory is [`KeyError::Memory`] instead.
    #[error("the input can't be read: {0}")]
    Input(UtilError),
    /// The store failed.
    #[error("the store failed")]
    Store,
    /// What the store returned is not an entry.
    #[error("what the store returned is no entry: {0}")]
    Entry(Error),
    /// There is no preprocessed text, for this cause. Lack of memory is [`KeyError::Memory`]
    /// instead.
    #[error("there is no preprocessed text: {0}")]
    Preprocess(PreprocessError),
    /// A line marker of the preprocessed text is malformed.
    #[error("a line marker is malformed")]
    Marker,
}

impl KeyError {
    /// The number of the variant, in order: from 1 for lack of memory to 7 for a malformed line
    /// marker. It allocates no memory.
    pub fn number(&self) -> u8
        ensures { result ≡ number_of self.now }
    {
        match self {
            KeyError::Memory => 1,
            KeyError::Extra(_) => 2,
            KeyError::Input(_) => 3,
            KeyError::Store => 4,
            KeyError::Entry(_) => 5,
            KeyError::Preprocess(_) => 6,
            KeyError::Marker => 7,
        }
    }
}

/// [`UtilError::Memory`] becomes [`KeyError::Memory`], and every other error becomes
/// [`KeyError::Extra`].
///
/// So `?` converts the error of a call such as `join_path`, which fails only for lack of memory, and
/// that of a call for the digest of an extra file. For an error at the input write a `match` that
/// returns [`KeyError::Input`].
///
/// ```rust
/// fn working_file(alloc: Global, cwd: &[u8]) -> Result<Vec<u8>, KeyError> {
///     let path = join_path(alloc, cwd, b"flags")?;
///     Ok(normalize_path(alloc, &path)?)
/// }
/// ```
impl From<UtilError> for KeyError {
    ghost use Rattle.cck_digest.specs.KeyError.{extra_error};

    ghost from_gives = { λ cause e. e ≡ extra_error cause };

    fn from(error: UtilError) -> KeyError {
        match error {
            UtilError::Memory => KeyError::Memory,
            other => KeyError::Extra(other),
        }
    }
}

impl From<AllocError> for KeyError {
    ghost from_gives = { λ _ e. e ≡ Memory };

    fn from(_: AllocError) -> KeyError {
        KeyError::Memory
    }
}

impl<T: Drop> From<AllocFailed<T>> for KeyError {
    ghost from_gives = { λ _ e. e ≡ Memory };

    fn from(_: AllocFailed<T>) -> KeyError {
        KeyError::Memory
    }
}
