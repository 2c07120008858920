//! Why a call returned no value.
use cck_digest::Error;
use cck_util::{FileError, UnknownLanguage, UtilError};
use std::alloc::{AllocError, AllocFailed};

/// Why a call returned no value.
#[derive(Debug, Clone, Copy)]
pub(crate) enum CaseError {
    /// An error of a call on bytes, paths, digests or keys.
    Util(UtilError),
    /// An error of a call on entries.
    Entry(Error),
    /// An error of a call on files.
    File(FileError),
    /// A text that is no name of a language.
    Language,
    /// A line of the case that can't be read: that of the call or one before it.
    Line,
}

impl CaseError {
    /// Returns whether it is no result of the call.
    pub(crate) fn stops(&self) -> bool {
        self.is_memory() || matches!(self, CaseError::Line)
    }

    /// Returns whether it is lack of memory, which stops the run.
    pub(crate) fn is_memory(&self) -> bool {
        matches!(
            self,
            CaseError::Util(UtilError::Memory)
                | CaseError::Entry(Error::Memory)
                | CaseError::File(FileError::Memory)
        )
    }
}

impl From<UtilError> for CaseError {
    fn from(error: UtilError) -> CaseError {
        CaseError::Util(error)
    }
}

impl From<Error> for CaseError {
    fn from(error: Error) -> CaseError {
        CaseError::Entry(error)
    }
}

impl From<FileError> for CaseError {
    fn from(error: FileError) -> CaseError {
        CaseError::File(error)
    }
}

impl From<UnknownLanguage> for CaseError {
    fn from(_: UnknownLanguage) -> CaseError {
        CaseError::Language
    }
}

impl From<AllocError> for CaseError {
    fn from(_: AllocError) -> CaseError {
        CaseError::Util(UtilError::Memory)
    }
}

impl<T: Drop> From<AllocFailed<T>> for CaseError {
    fn from(_: AllocFailed<T>) -> CaseError {
        CaseError::Util(UtilError::Memory)
    }
}
