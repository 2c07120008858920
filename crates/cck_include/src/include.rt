//! Files that were included.
ghost use Rattle.std.specs.Prelude.{◌≡◌, IfErr, IfOk};
ghost use Rattle.cck_include.specs.Include.{include_in, include_lent};

use cck_digest::Error;
use cck_path::Timestamp;
use std::alloc::Global;

/// The format of entries, and of the includes in them. It is their first byte, and the first byte of
/// the key material of a preprocessor key, so that keys of different formats differ.
///
/// Upstream's `FORMAT_VERSION`.
pub const FORMAT_VERSION: u8 = 2;

/// A file that was included when a result was recorded.
///
/// Upstream's `preprocessor_cache::IncludeEntry`.
#[derive(Debug, PartialEq, Eq, Drop)]
pub struct IncludeEntry {
    /// The path of the file, any bytes.
    pub path: Vec<u8>,
    /// The digest that was recorded of the file.
    pub digest: String,
    /// The number of bytes that the file had.
    pub file_size: u64,
    /// When its contents were last modified, if that is to be compared.
    pub mtime: Option<Timestamp>,
    /// When the file was last changed, if that is to be compared.
    pub ctime: Option<Timestamp>,
}

impl IncludeEntry {
    /// The same values by reference. It allocates no memory.
    pub fn lend(&self) -> IncludeRef<'_>
        ensures { include_lent result ≡ include_in self.now }
    {
        IncludeRef {
            path: &self.path,
            digest: &self.digest,
            file_size: self.file_size,
            mtime: self.mtime,
            ctime: self.ctime,
        }
    }

    /// A copy of the values.
    ///
    /// The only error is [`Error::Memory`].
    pub fn copy(&self, alloc: Global) -> Result<IncludeEntry, Error>
        ensures value { IfOk result (λ copy. include_in copy ≡ include_in self.now) }
        ensures err { IfErr result (λ e. e ≡ Error.Memory) }
    {
        self.lend().copy(alloc)
    }
}

/// A file that was included, whose path and digest are borrowed from an [`IncludeEntry`] or from
/// the bytes of an entry. The fields are those of an [`IncludeEntry`].
#[derive(Clone, Copy, Debug)]
pub struct IncludeRef<'a> {
    /// The path of the file, any bytes.
    pub path: &'a [u8],
    /// The digest that was recorded of the file.
    pub digest: &'a str,
    /// The number of bytes that the file had.
    pub file_size: u64,
    /// When its contents were last modified, if that is to be compared.
    pub mtime: Option<Timestamp>,
    /// When the file was last changed, if that is to be compared.
    pub ctime: Option<Timestamp>,
}

impl IncludeRef<'_> {
    /// A copy of the values.
    ///
    /// The only error is [`Error::Memory`].
    pub fn copy(&self, alloc: Global) -> Result<IncludeEntry, Error>
        ensures value { IfOk result (λ copy. include_in copy ≡ include_lent self.now) }
        ensures err { IfErr result (λ e. e ≡ Error.Memory) }
    {
        Ok(IncludeEntry {
            path: Vec::from_slice(alloc, self.path)?,
            digest: String::from_str(alloc, self.digest)?,
            file_size: self.file_size,
            mtime: self.mtime,
            ctime: self.ctime,
        })
    }
}
