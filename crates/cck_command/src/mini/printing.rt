//! The whole text.
ghost use Rattle.std.specs.Prelude.{◌≡◌, ◌++◌, Some, IfOk, IsSomeAnd, MatchResult, OnOk};
ghost use Rattle.cck_files.specs.Calls.{Keeps, Rose};
ghost use Rattle.cck_path.specs.Text.{join_path};
ghost use Rattle.cck_command.specs.MiniPrinted.{include_name, included_text, line_text, lines_in, lines_text, marker, printed_input};
ghost use Rattle.cck_command.specs.MiniErrors.{IsPrintError};
ghost use Rattle.cck_command.specs.MiniSeen.{macros_seen};

use crate::mini::error::PrintError;
use crate::mini::expand::expand;
use crate::mini::file::read_file;
use crate::mini::line::{CutLine, cut_line, include_name, is_empty_or_ends_in_lf};
use crate::mini::macros::{Macros, macros_for};
use cck_files::Files;
use cck_path::{Timestamp, join_path};
use itoa::Buffer;
use std::alloc::{AllocError, Global};

/// Returns the text that is printed at the call time `moment` for an input in the directory `cwd`.
/// The zone's offset is in seconds east of UTC.
///
/// The text begins with the marker `# 1 "IN"`, where IN is the input as seen from `cwd`. A line
/// `#include "NAME"` is printed as the file of that name, as seen from `cwd`, between markers. An
/// inclusion within an included file is not followed. In all other lines, and in included files,
/// the macros are replaced.
///
/// Errors:
///
/// - [`PrintError::Failed`] only where the input or a file that it includes is no regular file,
/// - [`PrintError::Fault`] only where the count of faults rose,
/// - [`PrintError::Memory`] for lack of memory.
pub fn print_input<F: Files>(
    alloc: Global,
    files: &mut F,
    zone_offset: i32,
    moment: Timestamp,
    cwd: &[u8],
    input: &[u8],
) -> Result<Vec<u8>, PrintError>
    ensures keeps { Keeps F.file_map F.faults F.is_quiet files.old files.new }
    ensures outcome { let text = printed_input zone_offset moment (F.file_map files.old) cwd.now input.now in
        MatchResult result (λ out. text ≡ Some out.items)
        (IsPrintError text (Rose (F.faults files.old) (F.faults files.new))) }
{
    let path = joined(alloc, cwd, input)?;
    let file = read_file(alloc, files, &path)?;
    let macros = macros_for(alloc, zone_offset, moment, file.modified)?;
    let mut out = Vec::new(alloc);
    print_marker(&mut out, 1, &path, b"")?;
    // Without macros and inclusions this is all that is printed, so nothing is copied as it grows.
    out.reserve(file.contents.len())?;
    let job = Job {
        zone_offset,
        moment,
        cwd,
        path: &path,
    };
    print_lines(alloc, files, &mut out, &job, &macros, &file.contents)?;
    Ok(out)
}

// What is asked for: a zone and a call time, the working directory from which names are seen, and
// the input's path.
#[derive(Clone, Copy)]
struct Job<'a> {
    zone_offset: i32,
    moment: Timestamp,
    cwd: &'a [u8],
    path: &'a [u8],
}

// Appends the lines of an input to what is printed so far.
fn print_lines<F: Files>(
    alloc: Global,
    files: &mut F,
    out: &mut Vec<u8>,
    job: &Job<'_>,
    macros: &Macros,
    contents: &[u8],
) -> Result<(), PrintError>
    ensures keeps { Keeps F.file_map F.faults F.is_quiet files.old files.new }
    ensures outcome { let map = F.file_map files.old in
        let text = lines_text job.now.zone_offset job.now.moment map job.now.cwd.now job.now.path.now
        (macros_seen macros.now) 2 (lines_in contents.now) in
        MatchResult result (λ _. IsSomeAnd text (λ text. out.new.items ≡ out.old.items ++ text))
        (IsPrintError text (Rose (F.faults files.old) (F.faults files.new))) }
{
    let mut number: u64 = 2;
    let mut left = contents;
    while left.len() > 0 {
        let line = cut_line(left);
        print_line(alloc, files, out, job, macros, line, number)?;
        number += 1;
        left = line.rest;
    }
    Ok(())
}

// Prints one line, where the line after it has this number.
fn print_line<F: Files>(
    alloc: Global,
    files: &mut F,
    out: &mut Vec<u8>,
    job: &Job<'_>,
    macros: &Macros,
    line: CutLine<'_>,
    number: u64,
) -> Result<(), PrintError>
    ensures keeps { Keeps F.file_map F.faults F.is_quiet files.old files.new }
    ensures outcome { let map = F.file_map files.old in
        let front = line.entry.front.now in
        let text = line_text job.now.zone_offset job.now.moment map job.now.cwd.now job.now.path.now
        (macros_seen macros.now) (include_name front) (front, line.entry.ending.now) number in
        MatchResult result (λ _. IsSomeAnd text (λ text. out.new.items ≡ out.old.items ++ text))
        (IsPrintError text (Rose (F.faults files.old) (F.faults files.new))) }
{
    let Some(name) = include_name(line.front) else {
        expand(out, macros, line.front)?;
        out.extend_from_slice(line.ending)?;
        return Ok(());
    };
    let named = joined(alloc, job.cwd, name)?;
    let file = read_file(alloc, files, &named)?;
    let inside = macros_for(alloc, job.zone_offset, job.moment, file.modified)?;
    print_included(out, &inside, &named, &file.contents, number, job.path)?;
    Ok(())
}

// Prints an included file between its markers.
#[tactic(auto, unfolding(crate::specs::MiniPrinted::included_text))]
fn print_included(
    out: &mut Vec<u8>,
    macros: &Macros,
    name: &[u8],
    contents: &[u8],
    number: u64,
    path: &[u8],
) -> Result<(), AllocError>
    ensures { OnOk result (out.new.items ≡ out.old.items
        ++ included_text (macros_seen macros.now) contents.now name.now number path.now) }
{
    print_marker(out, 1, name, b" 1")?;
    expand(out, macros, contents)?;
    if !is_empty_or_ends_in_lf(contents) {
        out.push(b'\n')?;
    }
    print_marker(out, number, path, b" 2")
}

// Prints a line marker.
#[tactic(auto, unfolding(crate::specs::MiniPrinted::marker))]
fn print_marker(out: &mut Vec<u8>, number: u64, path: &[u8], flag: &[u8]) -> Result<(), AllocError>
    ensures { OnOk result
        (out.new.items ≡ out.old.items ++ marker number path.now flag.now) }
{
    let mut buffer = Buffer::new();
    out.extend_from_slice(b"# ")?;
    out.extend_from_slice(buffer.format(number).as_bytes())?;
    out.extend_from_slice(b" \"")?;
    out.extend_from_slice(path)?;
    out.extend_from_slice(b"\"")?;
    out.extend_from_slice(flag)?;
    out.push(b'\n')?;
    Ok(())
}

// A path as seen from the working directory.
fn joined(alloc: Global, cwd: &[u8], path: &[u8]) -> Result<Vec<u8>, AllocError>
    ensures { IfOk result (λ whole. whole.items ≡ join_path cwd.now path.now) }
{
    match join_path(alloc, cwd, path) {
        Ok(whole) => Ok(whole),
        Err(_) => Err(AllocError),
    }
}
