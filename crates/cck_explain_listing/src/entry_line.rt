//! The lines of an entry.
ghost use Rattle.std.specs.Prelude.{◌≡◌, ◌++◌, IfOk, OnOk, map};
ghost use Rattle.std.specs.Fmt.{signed_decimal};
ghost use Rattle.std.specs.List.{flat_map};
ghost use Rattle.std.specs.String.{string_bytes};
ghost use Rattle.cck_entry.specs.Results.{result_in};
ghost use Rattle.cck_include.specs.Include.{include_in, includes_in};
ghost use Rattle.cck_explain_listing.specs.EntryListing.{entry_lines, include_line, moment_text, result_lines, time_text};

use crate::push_quoted;
use cck_entry::PreprocessorCacheEntry;
use cck_include::IncludeEntry;
use cck_path::Timestamp;
use std::alloc::{AllocError, Global};
use std::collections::BTreeMap;

// Returns the decimal text of seconds.
fn seconds_text(alloc: Global, seconds: i64) -> Result<String, AllocError>
    ensures { IfOk result (λ text. string_bytes text ≡ signed_decimal seconds) }
{
    let text = format!(in alloc; "{seconds}")?;
    Ok(text)
}

/// Appends a time: its seconds, `s`, its nanoseconds, and `ns`.
///
/// The only error is lack of memory. What was appended is then unspecified.
pub fn push_moment(alloc: Global, lines: &mut Vec<u8>, time: Timestamp) -> Result<(), AllocError>
    ensures { OnOk result (lines.new.items ≡ lines.old.items ++ moment_text time) }
{
    let seconds = seconds_text(alloc, time.seconds())?;
    lines.extend_from_slice(seconds.as_bytes())?;
    let nanoseconds = time.nanoseconds();
    let nanoseconds = format!(in alloc; "s{nanoseconds}ns")?;
    lines.extend_from_slice(nanoseconds.as_bytes())
}

// Appends a time, or that there is none.
fn push_time(alloc: Global, lines: &mut Vec<u8>, time: Option<Timestamp>) -> Result<(), AllocError>
    ensures { OnOk result (lines.new.items ≡ lines.old.items ++ time_text time) }
{
    match time {
        None => lines.extend_from_slice(b"-"),
        Some(time) => push_moment(alloc, lines, time),
    }
}

// Appends the line of an include.
fn push_include(
    alloc: Global,
    lines: &mut Vec<u8>,
    include: &IncludeEntry,
) -> Result<(), AllocError>
    ensures { OnOk result (lines.new.items ≡ lines.old.items ++ include_line (include_in include.now)) }
{
    lines.extend_from_slice(b"include ")?;
    push_quoted(lines, &include.path)?;
    lines.extend_from_slice(b" ")?;
    push_quoted(lines, include.digest.as_bytes())?;
    let size = include.file_size;
    let size = format!(in alloc; " {size} ")?;
    lines.extend_from_slice(size.as_bytes())?;
    push_time(alloc, lines, include.mtime)?;
    lines.extend_from_slice(b" ")?;
    push_time(alloc, lines, include.ctime)?;
    lines.push(b'\n')?;
    Ok(())
}

// Appends the line of each include.
fn push_includes(
    alloc: Global,
    lines: &mut Vec<u8>,
    includes: &[IncludeEntry],
) -> Result<(), AllocError>
    ensures { OnOk result (lines.new.items ≡ lines.old.items ++ flat_map include_line (includes_in includes.now)) }
{
    for include in includes {
        push_include(alloc, lines, include)?;
    }
    Ok(())
}

// Appends the lines of a result.
fn push_result(
    alloc: Global,
    lines: &mut Vec<u8>,
    key: &String,
    includes: &Vec<IncludeEntry>,
) -> Result<(), AllocError>
    ensures { OnOk result (lines.new.items ≡ lines.old.items
        ++ result_lines (string_bytes key.now, includes_in includes.now.items)) }
{
    let includes = includes.as_slice();
    let count = includes.len();
    lines.extend_from_slice(b"result ")?;
    push_quoted(lines, key.as_bytes())?;
    let count = format!(in alloc; " {count}\n")?;
    lines.extend_from_slice(count.as_bytes())?;
    push_includes(alloc, lines, includes)
}

// Appends the lines of each result.
fn push_results(
    alloc: Global,
    lines: &mut Vec<u8>,
    results: &BTreeMap<String, Vec<IncludeEntry>>,
) -> Result<(), AllocError>
    ensures { OnOk result (lines.new.items ≡ lines.old.items
        ++ flat_map result_lines (map result_in results.now.entries)) }
{
    for (key, includes) in results {
        push_result(alloc, lines, key, includes)?;
    }
    Ok(())
}

/// Returns the lines of an entry: for each result, in the order of the keys, a line with its key and
/// the number of its includes, and a line for each include with its path, digest, size in bytes, and
/// the times of its last modification and last change, or `-` for none.
///
/// The only error is lack of memory.
pub(crate) fn entry_lines(
    alloc: Global,
    entry: &PreprocessorCacheEntry,
) -> Result<Vec<u8>, AllocError>
    ensures { IfOk result (λ lines. lines.items ≡ entry_lines entry.now) }
{
    let mut lines = Vec::new(alloc);
    push_results(alloc, &mut lines, entry.results())?;
    Ok(lines)
}
