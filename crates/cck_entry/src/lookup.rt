//! The look-up of the result of an entry whose files are unchanged.
ghost use Rattle.std.specs.Prelude.{◌≡◌, IfOk, IsOkUnless, map};
ghost use Rattle.std.specs.FinMap.{entries};
ghost use Rattle.std.specs.List.{list_all};
ghost use Rattle.std.specs.Option.{option_map};
ghost use Rattle.cck_files.specs.Calls.{Keeps, Rose};
ghost use Rattle.cck_include.specs.JudgeContext.{setting_of};
ghost use Rattle.cck_entry.specs.Known.{AreKnown};
ghost use Rattle.cck_entry.specs.Matching.{MayMiss, matches};
ghost use Rattle.cck_include.specs.Setting.{setting_in};
ghost use Rattle.jiff.specs.Words.{plain_zone};
ghost use Rattle.cck_entry.specs.Find.{IsLookup};
ghost use Rattle.cck_entry.specs.Lent.{result_lent};
ghost use Rattle.cck_entry.specs.Results.{result_in};
ghost use Rattle.cck_entry.specs.Statuses.{matches_with};

use crate::result_ref::ResultRef;
use crate::results::Results;
use crate::statuses::include_matches_with;
use crate::{EntryView, KnownFiles, PreprocessorCacheEntry, includes_match};
use cck_digest::{Error, HashState};
use cck_files::Files;
use cck_include::{JudgeContext, PreprocessorCacheModeConfig};
use cck_path::{Metadata, PathMap, Timestamp};
use jiff::tz::TimeZone;
use std::alloc::{AllocError, Global};

impl PreprocessorCacheEntry {
    /// Returns the key of the result whose included files are all unchanged, if there is one: of
    /// several the greatest by its bytes. A result that included nothing always matches.
    ///
    /// No file that could be read is read twice. A file that can't be read, for whatever cause,
    /// counts as changed. So if the count of faults rose, the result may be `None`, or another key
    /// whose files are all unchanged.
    ///
    /// The only error is [`Error::Memory`].
    ///
    /// Upstream's `PreprocessorCacheEntry::lookup_result_digest`, which changes the entry.
    pub fn lookup_result_digest<H: HashState, F: Files>(
        &self,
        alloc: Global,
        files: &mut F,
        moment: Timestamp,
        zone: &TimeZone<'_>,
        vars: &[(Vec<u8>, Vec<u8>)],
        config: PreprocessorCacheModeConfig,
    ) -> Result<Option<&str>, Error>
        ensures keeps { Keeps F.file_map F.faults F.is_quiet files.old files.new }
        ensures outcome { IfOk result (λ key. IsLookup
            (matches (setting_in H.hash config moment (plain_zone zone.now) vars.now) (F.file_map files.old))
            (entries self.now) (Rose (F.faults files.old) (F.faults files.new)) (option_map (λ k. k.now) key)) }
        ensures errors { IsOkUnless result Error.Memory }
    {
        let context = JudgeContext {
            moment,
            zone,
            vars,
            config,
        };
        match find_result::<H, F>(alloc, self.results(), files, &context) {
            Ok(found) => Ok(found),
            Err(_) => Err(Error::Memory),
        }
    }
}

impl<'a> EntryView<'a> {
    /// Returns the key of the result whose included files are all unchanged, if there is one: of
    /// several the greatest by its bytes. The key is borrowed from the bytes that were read.
    ///
    /// It is what [`PreprocessorCacheEntry::lookup_result_digest`] finds, by the same calls on the
    /// files: if the count of faults rose, the result may be `None`, or another key whose files are
    /// all unchanged.
    ///
    /// The only error is [`Error::Memory`].
    pub fn lookup_result_digest<H: HashState, F: Files>(
        &self,
        alloc: Global,
        files: &mut F,
        moment: Timestamp,
        zone: &TimeZone<'_>,
        vars: &[(Vec<u8>, Vec<u8>)],
        config: PreprocessorCacheModeConfig,
    ) -> Result<Option<&'a str>, Error>
        ensures keeps { Keeps F.file_map F.faults F.is_quiet files.old files.new }
        ensures outcome { IfOk result (λ key. IsLookup
            (matches (setting_in H.hash config moment (plain_zone zone.now) vars.now) (F.file_map files.old))
            (entries self.now) (Rose (F.faults files.old) (F.faults files.new)) (option_map (λ k. k.now) key)) }
        ensures errors { IsOkUnless result Error.Memory }
    {
        let context = JudgeContext {
            moment,
            zone,
            vars,
            config,
        };
        let statuses = PathMap::new(alloc);
        match self.lookup_with_statuses::<H, F>(alloc, &statuses, files, &context) {
            Ok(found) => Ok(found),
            Err(_) => Err(Error::Memory),
        }
    }

    /// Returns the key of the result whose included files are all unchanged or are accepted by their
    /// statuses, if there is one: of several the greatest by its bytes. The files are not asked for one
    /// whose status is known and [accepted](crate::status_accepts).
    ///
    /// If the count of faults rose, the result may be `None`, or another such key.
    ///
    /// The only error is lack of memory.
    pub fn lookup_with_statuses<H: HashState, F: Files>(
        &self,
        alloc: Global,
        statuses: &PathMap<Metadata>,
        files: &mut F,
        context: &JudgeContext<'_>,
    ) -> Result<Option<&'a str>, AllocError>
        ensures keeps { Keeps F.file_map F.faults F.is_quiet files.old files.new }
        ensures outcome { IfOk result (λ key. IsLookup
            (matches_with statuses.now (setting_of H.hash context.now) (F.file_map files.old))
            (entries self.now) (Rose (F.faults files.old) (F.faults files.new)) (option_map (λ k. k.now) key)) }
    {
        find_lent::<H, F>(alloc, statuses, self.results(), files, context)
    }
}

// The same in the map of results, from the greatest key down.
fn find_result<'a, H: HashState, F: Files>(
    alloc: Global,
    results: &'a Results,
    files: &mut F,
    context: &JudgeContext<'_>,
) -> Result<Option<&'a str>, AllocError>
    ensures keeps { Keeps F.file_map F.faults F.is_quiet files.old files.new }
    ensures outcome { IfOk result (λ key. IsLookup
        (matches (setting_of H.hash context.now) (F.file_map files.old))
        (map result_in results.now.entries) (Rose (F.faults files.old) (F.faults files.new)) (option_map (λ k. k.now) key)) }
{
    let mut known = KnownFiles::new(alloc);
    for (key, includes) in results.iter().rev() {
        let matches = includes_match::<H, F>(alloc, files, &mut known, includes, context)?;
        if matches {
            return Ok(Some(key.as_str()));
        }
    }
    Ok(None)
}

// The same in the results of a view.
fn find_lent<'a, H: HashState, F: Files>(
    alloc: Global,
    statuses: &PathMap<Metadata>,
    results: &[ResultRef<'a>],
    files: &mut F,
    context: &JudgeContext<'_>,
) -> Result<Option<&'a str>, AllocError>
    ensures keeps { Keeps F.file_map F.faults F.is_quiet files.old files.new }
    ensures outcome { IfOk result (λ key. IsLookup
        (matches_with statuses.now (setting_of H.hash context.now) (F.file_map files.old))
        (map result_lent results.now) (Rose (F.faults files.old) (F.faults files.new)) (option_map (λ k. k.now) key)) }
{
    let mut known = KnownFiles::new(alloc);
    for lent in results.iter().rev() {
        let matches = lent_matches::<H, F>(alloc, statuses, files, &mut known, lent, context)?;
        if matches {
            return Ok(Some(lent.key()));
        }
    }
    Ok(None)
}

// Returns whether the includes of a view's result are all unchanged or accepted.
fn lent_matches<H: HashState, F: Files>(
    alloc: Global,
    statuses: &PathMap<Metadata>,
    files: &mut F,
    known: &mut KnownFiles,
    lent: &ResultRef<'_>,
    context: &JudgeContext<'_>,
) -> Result<bool, AllocError>
    ensures keeps { Keeps F.file_map F.faults F.is_quiet files.old files.new }
    ensures known { let s = setting_of H.hash context.now in
        AreKnown s (F.file_map files.old) known.old → AreKnown s (F.file_map files.old) known.new }
    ensures outcome { let s = setting_of H.hash context.now in
        AreKnown s (F.file_map files.old) known.old
        → IfOk result (λ is_match. MayMiss (Rose (F.faults files.old) (F.faults files.new)) is_match
        (list_all (matches_with statuses.now s (F.file_map files.old)) (result_lent lent.now).1)) }
{
    for include in lent.includes() {
        let matches = include_matches_with::<H, F>(
            alloc, statuses, files, known, &include, context,
        )?;
        if !matches {
            return Ok(false);
        }
    }
    Ok(true)
}
