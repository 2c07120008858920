//! Why there is no preprocessed text.
use thiserror::Error;

/// Why a compiler returned no preprocessed text.
#[derive(Debug, Copy, Clone, PartialEq, Eq, Error)]
pub enum PreprocessError {
    /// A call on files had a fault.
    #[error("a call on a file failed")]
    Fault,
    /// There is no preprocessed text.
    #[error("the preprocessor failed")]
    Failed,
    /// An allocation failed.
    #[error("out of memory")]
    Memory,
}
