//! Pragmas that compare the times of files.
ghost use Rattle.std.specs.Prelude.{◌≡◌};
ghost use Rattle.cck_cache_text.specs.DependencyPragma.{ends_dependency, from_comment, has_dependency, has_dependency_word, has_directive, has_quote, is_before_name, is_dependency_line, is_dependency_word, is_directive_line, is_end_byte, is_end_of_word, without_comment};

use crate::condition::is_end;
use crate::identifier::{after_blanks, first_byte};
use crate::splices::{has, is_blank};

// Whether a quote, a bracket or a comment is next, after blanks: the name of a file may follow.
fn is_before_name(rest: &[u8]) -> bool
    ensures { result ≡ is_before_name rest.now }
{
    let next = after_blanks(rest);
    next.starts_with(b"\"") || next.starts_with(b"<") || next.starts_with(b"/*")
}

// Whether a word of a pragma ends at this byte: a blank, a parenthesis, a comma, a backslash, or one of
// an operator of macros or a trigraph.
fn is_end_byte(byte: u8) -> bool
    ensures { result ≡ is_end_byte byte }
{
    is_blank(byte) || matches!(byte, b'#' | b'%' | b')' | b',' | b'?' | b'\\')
}

// The same, or the word ends at such a byte, at a comment, or with the line.
fn is_end_of_word(rest: &[u8]) -> bool
    ensures { result ≡ is_end_of_word rest.now }
{
    is_before_name(rest)
        || rest.is_empty()
        || is_end_byte(first_byte(rest))
        || rest.starts_with(b"//")
}

// Whether the word `dependency` begins here, and ends, or ends before a name alone.
fn is_dependency_word(is_named: bool, line: &[u8]) -> bool
    ensures { result ≡ is_dependency_word is_named line.now }
{
    match line.strip_prefix(b"dependency") {
        Some(rest) if is_named => is_before_name(rest),
        Some(rest) => is_end_of_word(rest),
        None => false,
    }
}

// Whether such a word is in a line.
fn has_dependency_word(is_named: bool, line: &[u8]) -> bool
    ensures { result ≡ has_dependency_word is_named line.now }
{
    let mut rest = line;
    while let [_, after @ ..] = rest {
        if is_dependency_word(is_named, rest) {
            return true;
        }
        rest = after;
    }
    false
}

// Whether the word `dependency` ends in a line as one of a pragma.
pub fn ends_dependency(line: &[u8]) -> bool
    ensures { result ≡ ends_dependency line.now }
{
    has_dependency_word(false, line)
}

// Whether a line has a directive, or a part of the name of a pragma.
fn has_directive(line: &[u8]) -> bool
    ensures { result ≡ has_directive line.now }
{
    has(line, b"#")
        || has(line, b"%:")
        || has(line, b"??=")
        || has(line, b"GCC")
        || has(line, b"clang")
        || has(line, b"ragma")
}

// What follows the front of a line before the first beginning of a comment.
fn from_comment(line: &[u8]) -> &[u8]
    ensures { result.now ≡ from_comment line.now }
{
    let mut rest = line;
    while let [_, after @ ..] = rest {
        if rest.starts_with(b"/*") {
            return rest;
        }
        rest = after;
    }
    rest
}

// Whether a string or a character may begin or end in a line.
fn has_quote(line: &[u8]) -> bool
    ensures { result ≡ has_quote line.now }
{
    has(line, b"\"") || has(line, b"'")
}

// A line without the comment with which it ends. In a line with a quote what begins a comment may be in a string.
fn without_comment(line: &[u8]) -> &[u8]
    ensures { result.now ≡ without_comment line.now }
{
    let comment = from_comment(line);
    if has_quote(line) || !is_end(comment) {
        return line;
    }
    &line[..line.len().saturating_sub(comment.len())]
}

// Whether a line has a directive, and the word before a comment with which it ends.
fn is_directive_line(line: &[u8]) -> bool
    ensures { result ≡ is_directive_line line.now }
{
    ends_dependency(without_comment(line)) && has_directive(line)
}

// Whether a line may be of a pragma that compares the times of files, or of a macro that makes one, by
// itself or with others.
pub fn is_dependency_line(line: &[u8]) -> bool
    ensures { result ≡ is_dependency_line line.now }
{
    is_directive_line(line) || has_dependency_word(true, line)
}

/// Whether a source without its splices may have a pragma that compares the times of files, also by
/// macros of several files.
///
/// Source: "Pragmas" of the manual of GCC's preprocessor. clang has the pragma as its own too.
pub fn has_dependency_pragma(text: &[u8]) -> bool
    ensures { result ≡ has_dependency text.now }
{
    has(text, b"dependency")
        && text
            .split(|byte| *byte == b'\n')
            .any(|line| is_dependency_line(line))
}
