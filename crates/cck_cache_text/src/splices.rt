//! A source without its splices.
ghost use Rattle.std.specs.Prelude.{◌≡◌, ◌++◌, IfOk, OnOk, length, reverse, take};
ghost use Rattle.std.specs.Option.{option_map};
ghost use Rattle.cck_cache_text.specs.Splices.{before_blanks, before_return, ends_in_trigraph, has_doubtful_lines, is_blank, is_doubtful_line, may_be_doubtful, run_length, spliced, unspliced, unspliced_line};
ghost use Rattle.cck_digest.specs.TimeMacros.{has};

use crate::search_list::text_lines;
use memchr::memmem;
use std::alloc::{AllocError, Global};

// Whether a text has this word.
pub fn has(text: &[u8], word: &[u8]) -> bool
    ensures { result ≡ has text.now word.now }
{
    memmem::find(text, word).is_some()
}

// Whether a byte is white space within a line.
pub fn is_blank(byte: u8) -> bool
    ensures { result ≡ is_blank byte }
{
    matches!(byte, b' ' | b'\t' | b'\x0b' | b'\x0c' | b'\r' | b'\0')
}

// The number of blanks at the end of a text.
fn blanks_at_end(text: &[u8]) -> usize
    ensures { result ≡ run_length is_blank (reverse text.now) }
{
    text.iter()
        .rev()
        .take_while(|byte| is_blank(**byte))
        .count()
}

// A text without the blanks at its end.
pub fn before_blanks(text: &[u8]) -> &[u8]
    ensures { result.now ≡ before_blanks text.now }
{
    &text[..text.len().saturating_sub(blanks_at_end(text))]
}

// A line without the splice at its end. `None` where there is none.
fn spliced(line: &[u8]) -> Option<&[u8]>
    ensures { option_map (λ front. front.now) result ≡ spliced line.now }
{
    before_blanks(line).strip_suffix(b"\\")
}

// Appends a line that a newline ends.
fn push_line(text: &mut Vec<u8>, line: &[u8]) -> Result<(), AllocError>
    ensures { OnOk result (text.new.items ≡ text.old.items ++ unspliced_line line.now) }
{
    match spliced(line) {
        Some(front) => text.extend_from_slice(front)?,
        None => {
            text.extend_from_slice(line)?;
            text.push(b'\n')?;
        }
    }
    Ok(())
}

/// The contents of a source without its splices: a backslash, the blanks after it and the end of the
/// line. A blank is a space, a tab, a form feed, a vertical tab, a carriage return or a zero byte.
///
/// The only error is lack of memory.
///
/// Source: phase 2 of the translation, in "Initial processing" of the manual of GCC's preprocessor,
/// and gcc 12, which passes over blanks after the backslash. What [`has_doubtful_lines`] is `true` of
/// has others.
pub fn unspliced(alloc: Global, contents: &[u8]) -> Result<Vec<u8>, AllocError>
    ensures { IfOk result (λ text. text.items ≡ unspliced contents.now) }
{
    let lines = text_lines(alloc, contents)?;
    let mut text = Vec::new(alloc);
    if let Some((last, front)) = lines.split_last() {
        for line in front {
            push_line(&mut text, line)?;
        }
        text.extend_from_slice(last)?;
    }
    Ok(text)
}

// A line without the carriage return at its end.
fn before_return(line: &[u8]) -> &[u8]
    ensures { result.now ≡ before_return line.now }
{
    match line.strip_suffix(b"\r") {
        Some(front) => front,
        None => line,
    }
}

// Whether a line ends in the trigraph of a backslash, and blanks.
fn ends_in_trigraph(line: &[u8]) -> bool
    ensures { result ≡ ends_in_trigraph line.now }
{
    before_blanks(line).ends_with(b"??/")
}

// Whether gcc may end this line elsewhere, or join it with the next one.
fn is_doubtful_line(line: &[u8]) -> bool
    ensures { result ≡ is_doubtful_line line.now }
{
    has(line, b"\0") || has(before_return(line), b"\r") || ends_in_trigraph(line)
}

// Whether a text has what makes lines doubtful.
fn may_be_doubtful(text: &[u8]) -> bool
    ensures { result ≡ may_be_doubtful text.now }
{
    has(text, b"\0") || has(text, b"\r") || has(text, b"??/")
}

/// Whether gcc may divide the contents of a source into other lines than a line feed does: one has a zero
/// byte, a carriage return that no line feed follows, or at its end the trigraph of a backslash, which
/// is one only with `-trigraphs` or a `-std=` of C itself.
///
/// Source: "Initial processing" of the manual of GCC's preprocessor, and gcc 12, for which a carriage
/// return alone ends a line.
pub fn has_doubtful_lines(contents: &[u8]) -> bool
    ensures { result ≡ has_doubtful_lines contents.now }
{
    may_be_doubtful(contents)
        && contents
            .split(|byte| *byte == b'\n')
            .any(|line| is_doubtful_line(line))
}
