//! The error of the program.
use c_cache_keys::KeyError;
use cck_util::UtilError;
use std::alloc::{AllocError, AllocFailed};
use std::io;

/// Input, output or memory failed, or the offset of a zone is out of range.
#[derive(Debug, Drop)]
pub struct Failed;

impl From<UtilError> for Failed {
    fn from(_: UtilError) -> Failed {
        Failed
    }
}

impl From<KeyError> for Failed {
    fn from(_: KeyError) -> Failed {
        Failed
    }
}

impl From<AllocError> for Failed {
    fn from(_: AllocError) -> Failed {
        Failed
    }
}

impl<T: Drop> From<AllocFailed<T>> for Failed {
    fn from(_: AllocFailed<T>) -> Failed {
        Failed
    }
}

impl From<io::Error> for Failed {
    fn from(_: io::Error) -> Failed {
        Failed
    }
}
