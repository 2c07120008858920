//! What is printed of the files of a store.
ghost use Rattle.std.specs.Prelude.{◌≡◌, ◌++◌, IfErr, IfOk, OnOk, codes};
ghost use Rattle.std.specs.Fmt.{decimal};
ghost use Rattle.std.specs.List.{flat_map};
ghost use Rattle.cck_cache_rules.specs.Files.{entry_fields, object_fields};
ghost use Rattle.cck_cache_rules.specs.PathStatus.{status_of, statuses_of};
ghost use Rattle.cck_cache_rules.specs.PathTest.{test_of, tests_of};
ghost use Rattle.cck_cache_store.specs.Listing.{IsEntryFileListing, object_file_listing, status_line, test_line, text_line};
ghost use Rattle.cck_explain_listing.specs.Bytes.{IsErrorFor};

use cck_cache_rules::{EntryFile, ObjectFile, PathStatus, PathTest};
use cck_explain_listing::{EntryError, entry_listing, push_moment, push_quoted};
use std::alloc::{AllocError, Global};

// Appends a word and a text in quotation marks, and ends the line.
fn push_text_line(lines: &mut Vec<u8>, word: &[u8], text: &[u8]) -> Result<(), AllocError>
    ensures { OnOk result (lines.new.items ≡ lines.old.items ++ text_line word.now text.now) }
{
    lines.extend_from_slice(word)?;
    push_quoted(lines, text)?;
    lines.push(b'\n')?;
    Ok(())
}

// Appends the line of a status.
fn push_status(alloc: Global, lines: &mut Vec<u8>, status: &PathStatus) -> Result<(), AllocError>
    ensures { OnOk result (lines.new.items ≡ lines.old.items ++ status_line (status_of status.now)) }
{
    lines.extend_from_slice(b"status ")?;
    push_quoted(lines, &status.path)?;
    let (device, inode) = (status.device, status.inode);
    let numbers = format!(in alloc; " {device} {inode} ")?;
    lines.extend_from_slice(numbers.as_bytes())?;
    push_moment(alloc, lines, status.modified)?;
    lines.extend_from_slice(b" ")?;
    push_moment(alloc, lines, status.changed)?;
    lines.push(b'\n')?;
    Ok(())
}

// Appends the line of each status.
fn push_statuses(
    alloc: Global,
    lines: &mut Vec<u8>,
    statuses: &[PathStatus],
) -> Result<(), AllocError>
    ensures { OnOk result (lines.new.items ≡ lines.old.items ++ flat_map status_line (statuses_of statuses.now)) }
{
    for status in statuses {
        push_status(alloc, lines, status)?;
    }
    Ok(())
}

// Appends the line of the test of a directory that is searched.
fn push_searched(
    alloc: Global,
    lines: &mut Vec<u8>,
    path: &[u8],
    place: usize,
) -> Result<(), AllocError>
    ensures { OnOk result (lines.new.items ≡ lines.old.items ++ text_line (codes "searched " ++ decimal place ++ codes " ") path.now) }
{
    let word = format!(in alloc; "searched {place} ")?;
    push_text_line(lines, word.as_bytes(), path)
}

// Appends the line of a test.
fn push_test(alloc: Global, lines: &mut Vec<u8>, test: &PathTest) -> Result<(), AllocError>
    ensures { OnOk result (lines.new.items ≡ lines.old.items ++ test_line (test_of test.now)) }
{
    match test {
        PathTest::Absent(path) => push_text_line(lines, b"absent ", path),
        PathTest::File(path) => push_text_line(lines, b"file ", path),
        PathTest::Directory(path) => push_text_line(lines, b"directory ", path),
        PathTest::Searched { path, place } => push_searched(alloc, lines, path, *place),
        PathTest::Plain(path) => push_text_line(lines, b"plain ", path),
        PathTest::Real { path, real } => {
            lines.extend_from_slice(b"real ")?;
            push_quoted(lines, path)?;
            push_text_line(lines, b" ", real)
        }
    }
}

// Appends the line of each test.
fn push_tests(alloc: Global, lines: &mut Vec<u8>, tests: &[PathTest]) -> Result<(), AllocError>
    ensures { OnOk result (lines.new.items ≡ lines.old.items ++ flat_map test_line (tests_of tests.now)) }
{
    for test in tests {
        push_test(alloc, lines, test)?;
    }
    Ok(())
}

/// The lines of an entry file: the preprocessor key, the lines of [`entry_listing`], a line for each status, with
/// the path, the device, the inode and the times of the last modification and the last change, and a line for each test
/// of a path.
///
/// The error is that of [`entry_listing`]: of bytes that are no entry, or lack of memory.
pub fn entry_file_listing(alloc: Global, file: &EntryFile) -> Result<Vec<u8>, EntryError>
    ensures listed { IfOk result (λ listing. IsEntryFileListing (entry_fields file.now) listing.items) }
    ensures errors { IfErr result (λ error. IsErrorFor file.now.entry.items error) }
{
    let entry = entry_listing(alloc, &file.entry)?;
    let mut lines = Vec::new(alloc);
    push_text_line(&mut lines, b"preprocessor_key ", &file.preprocessor_key)?;
    lines.extend_from_slice(&entry)?;
    push_statuses(alloc, &mut lines, &file.statuses)?;
    push_tests(alloc, &mut lines, &file.tests)?;
    Ok(lines)
}

/// The lines of an object file: the name of the object, the number of its bytes, the messages, and the contents
/// of the dependency file.
///
/// The only error is lack of memory.
pub fn object_file_listing(alloc: Global, file: &ObjectFile) -> Result<Vec<u8>, AllocError>
    ensures { IfOk result (λ listing. listing.items ≡ object_file_listing (object_fields file.now)) }
{
    let mut lines = Vec::new(alloc);
    push_text_line(&mut lines, b"name ", &file.key)?;
    let size = file.object.len();
    let size = format!(in alloc; "object {size}\n")?;
    lines.extend_from_slice(size.as_bytes())?;
    push_text_line(&mut lines, b"messages ", &file.messages)?;
    push_text_line(&mut lines, b"dependencies ", &file.dependencies)?;
    Ok(lines)
}
