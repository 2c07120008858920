//! Why a script isn't read.
ghost use Rattle.std.specs.Prelude.{◌≡◌};
ghost use Rattle.cck_command.specs.declared.script.error.ScriptError.TheVariants.{Memory};

use std::alloc::{AllocError, AllocFailed};
use thiserror::Error;

/// Why a text is no script.
#[derive(Debug, Clone, Copy, Error)]
pub enum ScriptError {
    /// An allocation failed.
    #[error("out of memory")]
    Memory,
    /// The line of this number is wrong, and no earlier one is. Every line counts, from 1, a
    /// skipped one too.
    #[error("line {0} is wrong")]
    Line(u64),
}

impl From<AllocError> for ScriptError {
    ghost from_gives = { λ _ e. e ≡ Memory };

    fn from(_: AllocError) -> ScriptError {
        ScriptError::Memory
    }
}

impl<T: Drop> From<AllocFailed<T>> for ScriptError {
    ghost from_gives = { λ _ e. e ≡ Memory };

    fn from(_: AllocFailed<T>) -> ScriptError {
        ScriptError::Memory
    }
}
