//! Results added to an entry.
ghost use Rattle.std.specs.Prelude.{◌≡◌, IfErr, List, MatchResult, None, OnErr, OnOk, Some};
ghost use Rattle.cck_files.specs.Calls.{Keeps, Rose};
ghost use Rattle.cck_include.specs.Gathered.{digested_in, gathered};
ghost use Rattle.cck_include.specs.Include.{Include};
ghost use Rattle.cck_include.specs.Errors.{IsMissing};
ghost use Rattle.cck_entry.specs.Entry.{added};
ghost use Rattle.cck_entry.specs.Lent.{result_lent};

use crate::lent::copy_includes;
use crate::{PreprocessorCacheEntry, ResultRef};
use cck_digest::Error;
use cck_files::Files;
use cck_include::gather;
use cck_path::Timestamp;

impl PreprocessorCacheEntry {
    /// Adds the result of a key: the files that it included, each passed as a digest and a path.
    /// What is [recorded of them](gather) is read from the files first. The result replaces the one
    /// that the key had.
    ///
    /// All results are cleared first if there are more than 100, or if their includes and the new
    /// ones are more than 10000 together; the includes that the key had count too. So afterwards
    /// there are at most 101 results, and at most 10000 includes unless there is only one result.
    ///
    /// The errors are [`Error::Io`] with [`NotFound`](cck_digest::FileError::NotFound) only where
    /// there is no node at one of the paths, or with [`Fault`](cck_digest::FileError::Fault) only
    /// where the count of faults rose, and [`Error::Memory`]. An error leaves the entry unchanged.
    ///
    /// Upstream's `PreprocessorCacheEntry::add_result`.
    pub fn add_result<F: Files>(
        &mut self,
        files: &mut F,
        moment: Timestamp,
        key: &str,
        included: &[(String, Vec<u8>)],
    ) -> Result<(), Error>
        ensures keeps { Keeps F.file_map F.faults F.is_quiet files.old files.new }
        ensures outcome { let found = gathered (F.file_map files.old) moment (digested_in included.now) in
            MatchResult result
            (λ _. (includes : List Include) × (found ≡ Some includes) × (self.new ≡ added self.old key.now includes))
            (λ e. (self.new ≡ self.old) × IsMissing (found ≡ None) (Rose (F.faults files.old) (F.faults files.new)) e) }
    {
        let alloc = self.allocator();
        let includes = gather(alloc, files, moment, included)?;
        let key = String::from_str(alloc, key)?;
        self.insert_result(key, includes)
    }

    /// Adds a result that is borrowed from the bytes of another entry, with what was recorded there.
    /// It replaces the one that the key had, within the limits of
    /// [`add_result`](PreprocessorCacheEntry::add_result).
    ///
    /// The only error is [`Error::Memory`], which leaves the entry unchanged.
    pub fn add_lent(&mut self, lent: &ResultRef<'_>) -> Result<(), Error>
        ensures ok { OnOk result (self.new
            ≡ added self.old (result_lent lent.now).0 (result_lent lent.now).1) }
        ensures err { OnErr result (self.new ≡ self.old) }
        ensures memory { IfErr result (λ e. e ≡ Error.Memory) }
    {
        let alloc = self.allocator();
        let includes = copy_includes(alloc, lent.count, lent.includes)?;
        let key = String::from_str(alloc, lent.key)?;
        self.insert_result(key, includes)
    }
}
