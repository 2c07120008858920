//! Tests of a source for the existence of a header.
ghost use Rattle.std.specs.Prelude.{◌≡◌, ◌≤◌, IfOk, length};
ghost use Rattle.std.specs.Option.{option_map};
ghost use Rattle.cck_cache_text.specs.HeaderTests.{AreTests, GainsLine, before_parenthesis, begins_word, ends_defined, is_no_test, is_operand, is_passed_over, is_test, may_be_open, test_fields, tested};
ghost use Rattle.cck_cache_text.specs.TestName.{lent_fields};

use crate::condition::is_read;
use crate::directive::{asks_for_definition, is_harmless};
use crate::identifier::{ends_in_word, is_start, word_of};
use crate::search_list::text_lines;
use crate::splices::before_blanks;
use crate::test_macro::{is_alias, is_defined, macro_test, names_class};
use crate::test_name::{is_judged_word, is_test_word_at, may_have_test, test_in};
use std::alloc::{AllocError, Global};

/// A test for the existence of a header whose name is written out.
#[derive(Drop)]
pub struct HeaderTest {
    /// The name, without its quotes or brackets.
    pub name: Vec<u8>,
    /// Whether the name is in quotes.
    pub is_quoted: bool,
}

// A text without a parenthesis at its end, and blanks.
fn before_parenthesis(text: &[u8]) -> &[u8]
    ensures { result.now ≡ before_parenthesis text.now }
{
    match text.strip_suffix(b"(") {
        Some(front) => before_blanks(front),
        None => text,
    }
}

// Whether this front of a line ends in `defined` in a condition that is known.
fn ends_defined(is_open: bool, line: &[u8], front: &[u8]) -> bool
    requires { length front.now ≤ length line.now }
    ensures { result ≡ ends_defined is_open line.now front.now }
{
    ends_in_word(front, b"defined") && is_read(is_open, line, front.len().saturating_sub(7))
}

// Whether a name at this place of a line is only asked whether it is defined.
fn is_operand(is_open: bool, line: &[u8], place: usize) -> bool
    requires { place ≤ length line.now }
    ensures { result ≡ is_operand is_open line.now place }
{
    let before = &line[..place];
    asks_for_definition(before)
        || ends_defined(is_open, line, before_parenthesis(before_blanks(before)))
}

// Whether what is between these texts on a line is harmless, or is defined, or stands for a test in a
// macro, or is a part of the name of a class.
fn is_passed_over(before: &[u8], after: &[u8]) -> bool
    ensures { result ≡ is_passed_over before.now after.now }
{
    is_harmless(before)
        || is_defined(before, after)
        || is_alias(before, after)
        || names_class(before)
}

// Whether an identifier begins at this place of a line that is a name of a test, or a part of one.
fn begins_word(line: &[u8], place: usize) -> bool
    requires { place ≤ length line.now }
    ensures { result ≡ begins_word line.now place }
{
    is_test_word_at(line, place) && is_start(&line[..place])
}

// Whether what is at this place of a line is an operand, or is passed over.
fn is_no_test(is_open: bool, line: &[u8], place: usize) -> bool
    requires { place ≤ length line.now }
    ensures { result ≡ is_no_test is_open line.now place }
{
    is_operand(is_open, line, place) || is_passed_over(&line[..place], &line[place..])
}

// Whether there is a test for a header at this place of a line, or a part of the name of one.
fn is_test(is_open: bool, line: &[u8], place: usize) -> bool
    requires { place ≤ length line.now }
    ensures { result ≡ is_test is_open line.now place }
{
    begins_word(line, place) && !is_no_test(is_open, line, place)
}

// The name that is written out at this place of a line.
fn tested(is_open: bool, line: &[u8], place: usize) -> Option<(&[u8], bool)>
    requires { place ≤ length line.now }
    ensures { option_map lent_fields result ≡ tested is_open line.now place }
{
    let after = &line[place..];
    if is_judged_word(word_of(after)) && is_read(is_open, line, place) {
        test_in(after)
    } else {
        macro_test(&line[..place], after)
    }
}

// Adds the tests of a line, which may begin in a comment. Returns `false` where there is one that can't
// be judged.
fn add_tests(
    alloc: Global,
    tests: &mut Vec<HeaderTest>,
    is_open: bool,
    line: &[u8],
) -> Result<bool, AllocError>
    ensures { IfOk result
        (GainsLine is_open line.now (test_fields tests.old.items) (test_fields tests.new.items)) }
{
    if !may_have_test(line) {
        return Ok(true);
    }
    for place in 0..line.len() {
        if !is_test(is_open, line, place) {
            continue;
        }
        let Some((name, is_quoted)) = tested(is_open, line, place) else {
            return Ok(false);
        };
        tests.push(HeaderTest {
            name: name.to_vec(alloc)?,
            is_quoted,
        })?;
    }
    Ok(true)
}

// Whether a comment may be open after a line, by whether one may be before it. Where none is, gcc is in
// none: the signs of comments in strings, and after others, count too.
fn may_be_open(is_open: bool, line: &[u8]) -> bool
    ensures { result ≡ may_be_open is_open 0 line.now }
{
    let mut is_open = is_open;
    let mut last = 0;
    let mut rest = line;
    while let [byte, after @ ..] = rest {
        if last == b'/' && *byte == b'*' {
            is_open = true;
            last = 0;
        } else {
            if last == b'*' && *byte == b'/' {
                is_open = false;
            }
            last = *byte;
        }
        rest = after;
    }
    is_open
}

/// The tests for headers in a source without its splices. `None` where there is one that can't be
/// judged.
///
/// The only error is lack of memory.
///
/// Source: "`__has_include`" of the manual of GCC's preprocessor.
pub fn header_tests(alloc: Global, text: &[u8]) -> Result<Option<Vec<HeaderTest>>, AllocError>
    ensures { IfOk result (λ found. AreTests text.now (option_map (λ t. test_fields t.items) found)) }
{
    let mut tests = Vec::new(alloc);
    if !may_have_test(text) {
        return Ok(Some(tests));
    }
    let lines = text_lines(alloc, text)?;
    let mut is_open = false;
    for line in &lines {
        if !add_tests(alloc, &mut tests, is_open, line)? {
            return Ok(None);
        }
        is_open = may_be_open(is_open, line);
    }
    Ok(Some(tests))
}
