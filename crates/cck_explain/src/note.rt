//! What a call did, but for its result.
ghost use Rattle.std.specs.Prelude.{◌≡◌, ◌∷◌, ◌++◌, [], List, Option, OnOk, map, reverse, string_bytes};
ghost use Rattle.std.specs.List.{AllByRecursion, AllZip, flat_map};
ghost use Rattle.cck_entry.specs.Results.{result_in};
ghost use Rattle.cck_files.specs.Calls.{Keeps};
ghost use Rattle.cck_include.specs.Include.{include_in, includes_in};
ghost use Rattle.cck_include.specs.JudgeContext.{setting_of};
ghost use Rattle.cck_entry.specs.Known.{AreKnown};
ghost use Rattle.cck_path.specs.Bytes.{Bytes};
ghost use Rattle.cck_util.specs.Store.{returned_by};
ghost use Rattle.cck_explain.specs.declared.difference.Difference.{Difference as DifferenceValue};
ghost use Rattle.cck_explain.specs.Judged.{AreJudged, AreJudgedResults, IsCalm, IsJudged, Judged, JudgedResult};
ghost use Rattle.cck_explain.specs.Note.{AreCallsNoted, IsCallNoted, IsEntryNoted, IsReturnedNoted, change_word, failure_word, head_line, include_line, key_of, not_asked_line, put_line, result_lines, store_call};

use crate::difference::{Difference, difference_of};
use crate::watched_store::WatchedCall;
use cck_digest::{Error, HashState};
use cck_entry::{KnownFiles, PreprocessorCacheEntry};
use cck_explain_listing::push_quoted;
use cck_files::Files;
use cck_include::{IncludeEntry, JudgeContext};
use cck_util::StoreError;
use std::alloc::{AllocError, Global};
use std::collections::BTreeMap;

// A store failure in words.
fn failure(error: StoreError) -> &'static [u8]
    ensures { result.now ≡ failure_word error }
{
    match error {
        StoreError::Fault => b"failed",
        StoreError::Memory => b"out of memory",
    }
}

// Whether the included files of a result are unchanged, in words.
fn change(is_unchanged: bool) -> &'static [u8]
    ensures { result.now ≡ change_word is_unchanged }
{
    if is_unchanged {
        b"unchanged"
    } else {
        b"changed"
    }
}

// Appends the line of an include that differs, and nothing for one that matches.
fn push_difference(
    lines: &mut Vec<u8>,
    include: &IncludeEntry,
    difference: Option<Difference>,
) -> Result<(), AllocError>
    ensures { OnOk result (lines.new.items ≡ lines.old.items ++ include_line (include_in include.now, difference)) }
{
    let Some(difference) = difference else {
        return Ok(());
    };
    lines.extend_from_slice(b"include ")?;
    push_quoted(lines, &include.path)?;
    lines.extend_from_slice(b" ")?;
    lines.extend_from_slice(difference.as_str().as_bytes())?;
    lines.push(b'\n')?;
    Ok(())
}

// Appends the line of an include, if it does not match.
fn push_include<H: HashState, F: Files>(
    alloc: Global,
    lines: &mut Vec<u8>,
    include: &IncludeEntry,
    files: &mut F,
    known: &mut KnownFiles,
    context: &JudgeContext<'_>,
) -> Result<(), AllocError>
    ensures keeps { Keeps F.file_map F.faults F.is_quiet files.old files.new }
    ensures known { let s = setting_of H.hash context.now in
        AreKnown s (F.file_map files.old) known.old → AreKnown s (F.file_map files.old) known.new }
    ensures lines { let s = setting_of H.hash context.now in
        IsCalm F.faults F.is_quiet files.old → AreKnown s (F.file_map files.old) known.old
        → OnOk result ((seen : Option DifferenceValue) × IsJudged s (F.file_map files.old) (include_in include.now, seen)
        × (lines.new.items ≡ lines.old.items ++ include_line (include_in include.now, seen))) }
{
    let difference = difference_of::<H, F>(alloc, files, known, &include.lend(), context)?;
    push_difference(lines, include, difference)?;
    Ok(())
}

// Appends the line of each include that does not match.
fn push_includes<H: HashState, F: Files>(
    alloc: Global,
    lines: &mut Vec<u8>,
    includes: &[IncludeEntry],
    files: &mut F,
    known: &mut KnownFiles,
    context: &JudgeContext<'_>,
) -> Result<(), AllocError>
    ensures keeps { Keeps F.file_map F.faults F.is_quiet files.old files.new }
    ensures known { let s = setting_of H.hash context.now in
        AreKnown s (F.file_map files.old) known.old → AreKnown s (F.file_map files.old) known.new }
    ensures lines { let s = setting_of H.hash context.now in
        IsCalm F.faults F.is_quiet files.old → AreKnown s (F.file_map files.old) known.old
        → OnOk result ((judged : List Judged) × AreJudged s (F.file_map files.old) (includes_in includes.now) judged
        × (lines.new.items ≡ lines.old.items ++ flat_map include_line judged)) }
{
    for include in includes {
        push_include::<H, F>(alloc, lines, include, files, known, context)?;
    }
    Ok(())
}

// Appends the lines of a result of an entry.
fn push_result<H: HashState, F: Files>(
    alloc: Global,
    lines: &mut Vec<u8>,
    key: &str,
    includes: &[IncludeEntry],
    files: &mut F,
    known: &mut KnownFiles,
    context: &JudgeContext<'_>,
) -> Result<(), AllocError>
    ensures keeps { Keeps F.file_map F.faults F.is_quiet files.old files.new }
    ensures known { let s = setting_of H.hash context.now in
        AreKnown s (F.file_map files.old) known.old → AreKnown s (F.file_map files.old) known.new }
    ensures lines { let s = setting_of H.hash context.now in
        IsCalm F.faults F.is_quiet files.old → AreKnown s (F.file_map files.old) known.old
        → OnOk result ((judged : List Judged) × AreJudged s (F.file_map files.old) (includes_in includes.now) judged
        × (lines.new.items ≡ lines.old.items ++ result_lines (key.now, judged))) }
{
    let mut differences = Vec::new(alloc);
    push_includes::<H, F>(alloc, &mut differences, includes, files, known, context)?;
    lines.extend_from_slice(b"result ")?;
    push_quoted(lines, key.as_bytes())?;
    lines.extend_from_slice(b" ")?;
    lines.extend_from_slice(change(differences.is_empty()))?;
    lines.push(b'\n')?;
    lines.extend_from_slice(&differences)?;
    Ok(())
}

// Appends the lines of the results of an entry, from the greatest key down.
fn push_results<H: HashState, F: Files>(
    alloc: Global,
    lines: &mut Vec<u8>,
    results: &BTreeMap<String, Vec<IncludeEntry>>,
    files: &mut F,
    context: &JudgeContext<'_>,
) -> Result<(), AllocError>
    ensures keeps { Keeps F.file_map F.faults F.is_quiet files.old files.new }
    ensures lines { let s = setting_of H.hash context.now in
        IsCalm F.faults F.is_quiet files.old
        → OnOk result ((judged : List JudgedResult)
        × AreJudgedResults s (F.file_map files.old) (reverse (map result_in results.now.entries)) judged
        × (lines.new.items ≡ lines.old.items ++ flat_map result_lines judged)) }
{
    let mut known = KnownFiles::new(alloc);
    for (key, includes) in results.iter().rev() {
        push_result::<H, F>(
            alloc,
            lines,
            key.as_str(),
            includes,
            files,
            &mut known,
            context,
        )?;
    }
    Ok(())
}

// Appends the lines of bytes that the store returned.
fn push_entry<H: HashState, F: Files>(
    alloc: Global,
    lines: &mut Vec<u8>,
    bytes: &[u8],
    files: &mut F,
    context: &JudgeContext<'_>,
) -> Result<(), AllocError>
    ensures keeps { Keeps F.file_map F.faults F.is_quiet files.old files.new }
    ensures lines { let s = setting_of H.hash context.now in
        IsCalm F.faults F.is_quiet files.old
        → OnOk result ((text : Bytes) × IsEntryNoted s (F.file_map files.old) bytes.now text
        × (lines.new.items ≡ lines.old.items ++ text)) }
{
    match PreprocessorCacheEntry::read(alloc, bytes) {
        Ok(entry) => {
            lines.extend_from_slice(b"store entry\n")?;
            push_results::<H, F>(alloc, lines, entry.results(), files, context)?;
            Ok(())
        }
        Err(Error::Memory) | Err(Error::Io(_)) => Err(AllocError),
        Err(Error::Deserialization) | Err(Error::UnknownFormat(_)) => {
            lines.extend_from_slice(b"store no entry\n")?;
            Ok(())
        }
    }
}

// Appends a store failure.
fn push_failure(lines: &mut Vec<u8>, error: StoreError) -> Result<(), AllocError>
    ensures { OnOk result (lines.new.items ≡ lines.old.items ++ failure_word error ++ 10 ∷ []) }
{
    lines.extend_from_slice(failure(error))?;
    lines.push(b'\n')?;
    Ok(())
}

// Appends the lines of what a get returned.
fn push_returned<H: HashState, F: Files>(
    alloc: Global,
    lines: &mut Vec<u8>,
    returned: &Result<Option<Vec<u8>>, StoreError>,
    files: &mut F,
    context: &JudgeContext<'_>,
) -> Result<(), AllocError>
    ensures keeps { Keeps F.file_map F.faults F.is_quiet files.old files.new }
    ensures lines { let s = setting_of H.hash context.now in
        IsCalm F.faults F.is_quiet files.old
        → OnOk result ((text : Bytes) × IsReturnedNoted s (F.file_map files.old) (returned_by returned.now) text
        × (lines.new.items ≡ lines.old.items ++ text)) }
{
    match returned {
        Ok(Some(bytes)) => push_entry::<H, F>(alloc, lines, bytes, files, context),
        Ok(None) => lines.extend_from_slice(b"store nothing\n"),
        Err(error) => {
            lines.extend_from_slice(b"store ")?;
            push_failure(lines, *error)
        }
    }
}

// Appends the line of a put.
fn push_put(lines: &mut Vec<u8>, returned: &Result<(), StoreError>) -> Result<(), AllocError>
    ensures { OnOk result (lines.new.items ≡ lines.old.items ++ put_line returned.now) }
{
    match returned {
        Ok(()) => lines.extend_from_slice(b"put done\n"),
        Err(error) => {
            lines.extend_from_slice(b"put ")?;
            push_failure(lines, *error)
        }
    }
}

// Appends the lines of a get or a put.
fn push_call<H: HashState, F: Files>(
    alloc: Global,
    lines: &mut Vec<u8>,
    call: &WatchedCall,
    files: &mut F,
    context: &JudgeContext<'_>,
) -> Result<(), AllocError>
    ensures keeps { Keeps F.file_map F.faults F.is_quiet files.old files.new }
    ensures lines { let s = setting_of H.hash context.now in
        IsCalm F.faults F.is_quiet files.old
        → OnOk result ((text : Bytes) × IsCallNoted s (F.file_map files.old) (store_call call.now) text
        × (lines.new.items ≡ lines.old.items ++ text)) }
{
    match call {
        WatchedCall::Get { returned, .. } => {
            push_returned::<H, F>(alloc, lines, returned, files, context)
        }
        WatchedCall::Put { returned, .. } => push_put(lines, returned),
    }
}

// The key of the first of these calls.
fn key_of<'a>(calls: &'a [WatchedCall]) -> &'a [u8]
    ensures { result.now ≡ key_of (map store_call calls.now) }
{
    match calls {
        [
            WatchedCall::Get { key, .. } | WatchedCall::Put { key, .. },
            ..
        ] => key.as_bytes(),
        [] => b"-",
    }
}

// The line that says that the store was not asked, if the first of these calls is no get.
fn not_asked_line(calls: &[WatchedCall]) -> &'static [u8]
    ensures { result.now ≡ not_asked_line (map store_call calls.now) }
{
    match calls {
        [WatchedCall::Get { .. }, ..] => b"",
        [] | [WatchedCall::Put { .. }, ..] => b"store not asked\n",
    }
}

/// Appends what a call did, from its calls on the store: a line with the preprocessor key, or `-`
/// where the store was not called; what the store returned, and for an entry each result with the
/// includes that do not match; and what was put.
///
/// The only error is lack of memory. What was appended is then unspecified.
pub(crate) fn push_note<H: HashState, F: Files>(
    alloc: Global,
    lines: &mut Vec<u8>,
    calls: &[WatchedCall],
    files: &mut F,
    context: &JudgeContext<'_>,
) -> Result<(), AllocError>
    ensures { let s = setting_of H.hash context.now in
        IsCalm F.faults F.is_quiet files.old
        → OnOk result ((text : Bytes) × AreCallsNoted s (F.file_map files.old) (map store_call calls.now) text
        × (lines.new.items ≡ lines.old.items ++ text)) }
{
    lines.extend_from_slice(b"preprocessor_key ")?;
    lines.extend_from_slice(key_of(calls))?;
    lines.push(b'\n')?;
    lines.extend_from_slice(not_asked_line(calls))?;
    for call in calls {
        push_call::<H, F>(alloc, lines, call, files, context)?;
    }
    Ok(())
}

/// Appends the first line of a call: its number and its input.
///
/// The only error is lack of memory. What was appended is then unspecified.
pub(crate) fn push_head(
    alloc: Global,
    lines: &mut Vec<u8>,
    number: u64,
    input: &[u8],
) -> Result<(), AllocError>
    ensures { OnOk result (lines.new.items ≡ lines.old.items ++ head_line number input.now) }
{
    let head = format!(in alloc; "call {number} ")?;
    lines.extend_from_slice(head.as_bytes())?;
    push_quoted(lines, input)?;
    lines.push(b'\n')?;
    Ok(())
}
