//! A compiler's list of directories for headers.
ghost use Rattle.std.specs.Prelude.{◌≡◌, ◌≤◌, Bool, IfOk, List, length, map, ℕ};
ghost use Rattle.std.specs.List.{after_first, position_or_len};
ghost use Rattle.std.specs.Option.{option_map};
ghost use Rattle.cck_cache_rules.specs.Reading.{AreRead, ReadsBack, byte_lists};
ghost use Rattle.cck_cache_text.specs.SearchList.{IsSearchList, ReadsLines, TestsLines, begins_list, duplicate_line, ends_list, is_file_line, listed_line, missing_line, quoted_line, search_fields, text_lines};

use std::alloc::{AllocError, Global};

/// Where a compiler looks for headers, in the form in which `gcc -v` prints it.
pub struct SearchList {
    /// The directories, in the order in which they are searched: first those for `"..."` alone.
    pub directories: Vec<Vec<u8>>,
    /// How many of them are searched for `"..."` alone.
    pub quoted: usize,
    /// The directories that were left out because they do not exist.
    pub missing: Vec<Vec<u8>>,
    /// The directories that were left out because another one is the same.
    pub duplicates: Vec<Vec<u8>>,
}

impl Drop for SearchList {
    fn drop(self) {
        let SearchList {
            directories: _,
            quoted: _,
            missing: _,
            duplicates: _,
        } = self;
    }
}

// What is in quotes at the end of a line, after these bytes.
fn quoted_after<'a>(front: &[u8], line: &'a [u8]) -> Option<&'a [u8]>
    ensures { ReadsBack (quoted_line front.now) line.now (option_map (λ d. d.now) result) }
{
    line.strip_prefix(front)?.strip_suffix(b"\"".as_slice())
}

// The directory in the line of one that does not exist.
fn missing_directory(line: &[u8]) -> Option<&[u8]>
    ensures { ReadsBack missing_line line.now (option_map (λ d. d.now) result) }
{
    quoted_after(b"ignoring nonexistent directory \"", line)
}

// The directory in the line of one that is the same as another.
fn duplicate_directory(line: &[u8]) -> Option<&[u8]>
    ensures { ReadsBack duplicate_line line.now (option_map (λ d. d.now) result) }
{
    quoted_after(b"ignoring duplicate directory \"", line)
}

// Whether a line says of something that it is no directory.
fn is_file_line(line: &[u8]) -> bool
    ensures { result ≡ is_file_line line.now }
{
    line.ends_with(b": not a directory")
}

// The directory in the line of one that is searched.
fn listed_directory(line: &[u8]) -> Option<&[u8]>
    ensures { ReadsBack listed_line line.now (option_map (λ d. d.now) result) }
{
    line.strip_prefix(b" ".as_slice())
}

// Whether a line begins one of the two lists.
fn begins_list(line: &[u8]) -> bool
    ensures { result ≡ begins_list line.now }
{
    line == b"#include \"...\" search starts here:".as_slice()
        || line == b"#include <...> search starts here:".as_slice()
}

// Whether a line ends the last list.
fn ends_list(line: &[u8]) -> bool
    ensures { result ≡ ends_list line.now }
{
    line == b"End of search list.".as_slice()
}

// The lines of a text.
pub fn text_lines<'a>(alloc: Global, text: &'a [u8]) -> Result<Vec<&'a [u8]>, AllocError>
    ensures { IfOk result (λ lines. map (λ line. line.now) lines.items ≡ text_lines text.now) }
{
    text.split(|byte| *byte == b'\n').collect(alloc)
}

// The directories that are read from these lines.
fn directories_in<F: Fn(&[u8]) -> Option<&[u8]>>(
    alloc: Global,
    lines: &[&[u8]],
    directory_of: F,
) -> Result<Vec<Vec<u8>>, AllocError>
    requires { F.IsAlwaysCallable directory_of }
    ensures { (write : List ℕ → List ℕ) → ReadsLines (F.post directory_of) write
        → IfOk result (λ found. AreRead write (map (λ line. line.now) lines.now) (byte_lists found)) }
{
    let mut found = Vec::new(alloc);
    for line in lines {
        if let Some(directory) = directory_of(line) {
            found.push(directory.to_vec(alloc)?)?;
        }
    }
    Ok(found)
}

// The place of the first line that passes this test, or the number of lines.
fn place_of<F: Fn(&[u8]) -> bool>(lines: &[&[u8]], is_wanted: F) -> usize
    requires { (state : F) (line : _) → F.pre state line }
    ensures place { (test : List ℕ → Bool) → TestsLines (F.post is_wanted) test
        → result ≡ position_or_len test (map (λ line. line.now) lines.now) }
    ensures within { result ≤ length lines.now }
{
    lines
        .iter()
        .position(|line| is_wanted(line))
        .unwrap_or(lines.len())
}

// The lines after the first that begins a list.
fn listing_in<'a, 'b>(lines: &'b [&'a [u8]]) -> &'b [&'a [u8]]
    ensures { map (λ line. line.now) result.now ≡ after_first begins_list (map (λ line. line.now) lines.now) }
{
    let begin = place_of(lines, begins_list);
    &lines[(begin + 1).min(lines.len())..]
}

impl SearchList {
    /// The list in what `gcc -v` printed in the locale `C`. `None` where it prints no whole list, or
    /// says before it of something that it is no directory: a file that was left out of the list,
    /// though a directory in its place would be in it.
    ///
    /// The only error is lack of memory.
    pub fn read(alloc: Global, printed: &[u8]) -> Result<Option<SearchList>, AllocError>
        ensures { IfOk result (λ found. IsSearchList printed.now (option_map search_fields found)) }
    {
        let lines = text_lines(alloc, printed)?;
        let end = place_of(&lines, ends_list);
        if end >= lines.len() {
            return Ok(None);
        }
        let front = &lines[..end];
        if place_of(front, is_file_line) < front.len() {
            return Ok(None);
        }
        let listing = listing_in(front);
        let quotes = &listing[..place_of(listing, begins_list)];
        Ok(Some(SearchList {
            directories: directories_in(alloc, listing, listed_directory)?,
            quoted: directories_in(alloc, quotes, listed_directory)?.len(),
            missing: directories_in(alloc, front, missing_directory)?,
            duplicates: directories_in(alloc, front, duplicate_directory)?,
        }))
    }
}
