//! The error of the program.
use cck_command::{Failed, ScriptError};
use cck_explain_listing::{EntryError, Fault};
use cck_util::UtilError;
use std::alloc::AllocError;
use thiserror::Error;

/// The text of [`ExplainError::Memory`], for where it has to be written without an allocation.
pub(crate) const OUT_OF_MEMORY: &str = "out of memory";

/// Why a listing is not complete.
#[derive(Debug, Clone, Copy, Error)]
pub enum ExplainError {
    /// An allocation failed, or what is listed has 2^64 bytes or more.
    #[error("{text}", text = OUT_OF_MEMORY)]
    Memory,
    /// A read failed.
    #[error("a read failed")]
    Read,
    /// A write or the flush failed, or a write took no bytes.
    #[error("a write failed")]
    Write,
    /// The bytes are no entry.
    #[error("{0}")]
    NotEntry(Fault),
    /// The line of this number is the first wrong one of a script.
    #[error("line {0} is wrong")]
    Line(u64),
}

impl From<EntryError> for ExplainError {
    ghost use Rattle.std.specs.Prelude.{◌≡◌};
    ghost use Rattle.cck_explain.specs.Written.{explained_by};

    ghost from_gives = { λ error explained. explained ≡ explained_by error };

    fn from(error: EntryError) -> ExplainError {
        match error {
            EntryError::Memory => ExplainError::Memory,
            EntryError::NotEntry(fault) => ExplainError::NotEntry(fault),
        }
    }
}

impl From<ScriptError> for ExplainError {
    ghost use Rattle.std.specs.Prelude.{◌≡◌};
    ghost use Rattle.cck_explain.specs.Written.{explained_by_script};

    ghost from_gives = { λ error explained. explained ≡ explained_by_script error };

    fn from(error: ScriptError) -> ExplainError {
        match error {
            ScriptError::Memory => ExplainError::Memory,
            ScriptError::Line(number) => ExplainError::Line(number),
        }
    }
}

impl From<UtilError> for ExplainError {
    ghost use Rattle.cck_explain.specs.Written.{IsExplainedByUtil};

    ghost from_gives = { λ error explained. IsExplainedByUtil error explained };

    fn from(error: UtilError) -> ExplainError {
        if error == UtilError::Read {
            ExplainError::Read
        } else {
            ExplainError::Memory
        }
    }
}

impl From<Failed> for ExplainError {
    ghost use Rattle.std.specs.Prelude.{◌≡◌};
    ghost use Rattle.cck_explain.specs.declared.error.ExplainError.TheVariants.{Write};

    ghost from_gives = { λ _ explained. explained ≡ Write };

    fn from(_: Failed) -> ExplainError {
        ExplainError::Write
    }
}

impl From<AllocError> for ExplainError {
    ghost use Rattle.std.specs.Prelude.{◌≡◌};
    ghost use Rattle.cck_explain.specs.declared.error.ExplainError.TheVariants.{Memory};

    ghost from_gives = { λ _ explained. explained ≡ Memory };

    fn from(_: AllocError) -> ExplainError {
        ExplainError::Memory
    }
}
