//! How an included file differs from what was recorded of it.
ghost use Rattle.std.specs.Prelude.{◌≡◌, IfOk, IfSome, is_none};
ghost use Rattle.cck_files.specs.Calls.{Keeps, Rose};
ghost use Rattle.cck_files.specs.FileMap.{contents_at};
ghost use Rattle.cck_include.specs.Include.{include_lent};
ghost use Rattle.cck_include.specs.JudgeContext.{setting_of};
ghost use Rattle.cck_entry.specs.Known.{AreKnown};
ghost use Rattle.cck_entry.specs.Matching.{MayMiss, matches};
ghost use Rattle.cck_include.specs.Recorded.{has_date, has_timestamp};
ghost use Rattle.cck_path.specs.Path.{components};
ghost use Rattle.cck_explain.specs.Difference.{IsChange, IsDifference};
ghost use Rattle.cck_explain.specs.Note.{difference_word};

use cck_digest::{Digest, FileError, HashState, TimeMacroFinder};
use cck_entry::{KnownFiles, include_matches};
use cck_files::{Files, read_contents};
use cck_include::{IncludeRef, JudgeContext};
use std::alloc::{AllocError, Global};

/// How a file differs from what was recorded of it.
#[derive(Clone, Copy)]
pub enum Difference {
    /// There is no regular file that can be read.
    Missing,
    /// The contents are others.
    Contents,
    /// The contents are the same, and have `__DATE__` but not `__TIMESTAMP__`.
    Day,
    /// The contents are the same, and have `__TIMESTAMP__` but not `__DATE__`.
    Second,
    /// The contents are the same, and have both macros or, after a fault, neither.
    DayOrSecond,
}

impl Difference {
    /// The difference in words.
    pub fn as_str(self) -> &'static str
        ensures { result.now ≡ difference_word self }
    {
        match self {
            Difference::Missing => "missing",
            Difference::Contents => "contents",
            Difference::Day => "day",
            Difference::Second => "second",
            Difference::DayOrSecond => "day or second",
        }
    }
}

// Whether these contents have `__DATE__`, and whether they have `__TIMESTAMP__`.
fn found_macros(contents: &[u8]) -> (bool, bool)
    ensures date { result.0 ≡ has_date contents.now }
    ensures timestamp { result.1 ≡ has_timestamp contents.now }
{
    let mut finder = TimeMacroFinder::new();
    finder.find_time_macros(contents);
    (finder.found_date(), finder.found_timestamp())
}

// How a file with these contents differs, by the digest that was recorded of it.
fn change_of<H: HashState>(
    alloc: Global,
    contents: &[u8],
    recorded: &str,
) -> Result<Difference, AllocError>
    ensures { IfOk result (IsChange H.hash contents.now recorded.now) }
{
    let mut digest = Digest::<H>::new();
    digest.update(contents);
    let text = match digest.finish(alloc) {
        Ok(text) => text,
        Err(_) => return Err(AllocError),
    };
    if !recorded.as_bytes().starts_with(text.as_bytes()) {
        return Ok(Difference::Contents);
    }
    match found_macros(contents) {
        (true, false) => Ok(Difference::Day),
        (false, true) => Ok(Difference::Second),
        (true, true) | (false, false) => Ok(Difference::DayOrSecond),
    }
}

// How an included file differs that does not match what was recorded of it.
fn difference_at<H: HashState, F: Files>(
    alloc: Global,
    files: &mut F,
    include: &IncludeRef<'_>,
) -> Result<Difference, AllocError>
    ensures keeps { Keeps F.file_map F.faults F.is_quiet files.old files.new }
    ensures difference { let found = contents_at (F.file_map files.old) (components include.now.path.now) in
        IfOk result (IsDifference H.hash (Rose (F.faults files.old) (F.faults files.new)) found include.now.digest.now) }
{
    match read_contents(alloc, files, include.path) {
        Ok(contents) => Ok(change_of::<H>(alloc, &contents, include.digest)?),
        Err(FileError::Memory) => Err(AllocError),
        Err(_) => Ok(Difference::Missing),
    }
}

/// Returns how an included file differs from what was recorded of it, or `None` if it
/// [matches](include_matches). `known` is that of [`include_matches`].
///
/// The only error is lack of memory.
pub fn difference_of<H: HashState, F: Files>(
    alloc: Global,
    files: &mut F,
    known: &mut KnownFiles,
    include: &IncludeRef<'_>,
    context: &JudgeContext<'_>,
) -> Result<Option<Difference>, AllocError>
    ensures keeps { Keeps F.file_map F.faults F.is_quiet files.old files.new }
    ensures known { let s = setting_of H.hash context.now in
        AreKnown s (F.file_map files.old) known.old → AreKnown s (F.file_map files.old) known.new }
    ensures matching { let s = setting_of H.hash context.now in
        AreKnown s (F.file_map files.old) known.old
        → IfOk result (λ seen. MayMiss (Rose (F.faults files.old) (F.faults files.new)) (is_none seen)
        (matches s (F.file_map files.old) (include_lent include.now))) }
    ensures difference { let found = contents_at (F.file_map files.old) (components include.now.path.now) in
        IfOk result (λ seen. IfSome seen
        (IsDifference H.hash (Rose (F.faults files.old) (F.faults files.new)) found include.now.digest.now)) }
{
    if include_matches::<H, F>(alloc, files, known, include, context)? {
        return Ok(None);
    }
    Ok(Some(difference_at::<H, F>(alloc, files, include)?))
}
