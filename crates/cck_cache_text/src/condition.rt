//! Conditions that are known piece by piece, in which no macro is called before a test.
ghost use Rattle.std.specs.Prelude.{◌≡◌, ◌≤◌, ◌<◌, ◌==◌, length, not, reverse};
ghost use Rattle.std.specs.Option.{option_map};
ghost use Rattle.cck_cache_text.specs.Condition.{after_closed_word, after_comment, after_comments, after_identifier, after_name, after_operand, after_parenthesis, after_piece, after_token, depth_after, depth_of, is_apart, is_closed_list, is_cut_off, is_end, is_finished, is_in_condition, is_known, is_operator, is_plain_byte, is_plain_front, is_read};
ghost use Rattle.cck_cache_text.specs.Splices.{run_length};

use crate::directive::condition_of;
use crate::identifier::{after_blanks, after_word, first_byte, rest_of_word, stripped, word_of};
use crate::splices::{has, is_blank};
use crate::test_name::{is_judged_word, length_before, name_in};

// Whether a byte of a condition stands by itself: a blank, `!`, `&`, `|` or a parenthesis.
fn is_operator(byte: u8) -> bool
    ensures { result ≡ is_operator byte }
{
    is_blank(byte) || matches!(byte, b'!' | b'&' | b'|' | b'(' | b')')
}

// What follows the first end of a comment.
fn after_comment(text: &[u8]) -> Option<&[u8]>
    ensures { option_map (λ rest. rest.now) result ≡ after_comment text.now }
{
    let mut rest = text;
    while let [byte, after @ ..] = rest {
        if *byte == b'*' && after.starts_with(b"/") {
            return Some(&after[1..]);
        }
        rest = after;
    }
    None
}

// What follows an identifier and a closing parenthesis.
pub fn after_closed_word(text: &[u8]) -> Option<&[u8]>
    ensures { option_map (λ rest. rest.now) result ≡ after_closed_word text.now }
{
    stripped(after_blanks(after_word(after_blanks(text))?), b')')
}

// What follows the operand of `defined`, which may be in parentheses.
fn after_operand(text: &[u8]) -> Option<&[u8]>
    ensures { option_map (λ rest. rest.now) result ≡ after_operand text.now }
{
    match stripped(after_blanks(text), b'(') {
        Some(inner) => after_closed_word(inner),
        None => after_word(after_blanks(text)),
    }
}

// What follows a comment at the front of a text: `//` begins none in C89.
fn after_comments(text: &[u8]) -> Option<&[u8]>
    ensures { option_map (λ rest. rest.now) result ≡ after_comments text.now }
{
    match text.strip_prefix(b"/*") {
        Some(comment) => after_comment(comment),
        None => None,
    }
}

// Whether no more than a comment follows on the line.
pub fn is_end(text: &[u8]) -> bool
    ensures { result ≡ is_end text.now }
{
    match after_comments(text) {
        Some(rest) => after_blanks(rest).is_empty(),
        None => false,
    }
}

// Whether no parenthesis follows, which could be of the arguments of a macro, and no comment, unless the
// line ends after it.
fn is_apart(text: &[u8]) -> bool
    ensures { result ≡ is_apart text.now }
{
    let next = after_blanks(text);
    if next.starts_with(b"/") {
        return is_end(next);
    }
    !next.starts_with(b"(")
}

// What follows the first closing parenthesis.
pub fn after_parenthesis(text: &[u8]) -> &[u8]
    ensures { result.now ≡ after_parenthesis text.now }
{
    &text[length_before(text, b')').saturating_add(1).min(text.len())..]
}

// What follows the parentheses with the name of a test, in which there are no others.
fn after_name(text: &[u8]) -> Option<&[u8]>
    ensures { option_map (λ rest. rest.now) result ≡ after_name text.now }
{
    let rest = after_parenthesis(text);
    if name_in(text).is_some() && is_apart(rest) {
        Some(rest)
    } else {
        None
    }
}

// What follows an identifier of a condition that no macro changes: `defined` with its operand, or a
// test for a header.
fn after_identifier(text: &[u8]) -> Option<&[u8]>
    ensures { option_map (λ rest. rest.now) result ≡ after_identifier text.now }
{
    if word_of(text) == b"defined".as_slice() {
        return after_operand(rest_of_word(text));
    }
    if is_judged_word(word_of(text)) {
        return after_name(rest_of_word(text));
    }
    None
}

// What follows a number, a comment or such an identifier.
fn after_token(text: &[u8]) -> Option<&[u8]>
    ensures { option_map (λ rest. rest.now) result ≡ after_token text.now }
{
    let first = first_byte(text);
    if first.is_ascii_digit() {
        return after_word(text);
    }
    if first == b'/' {
        return after_comments(text);
    }
    after_identifier(text)
}

// What follows the first piece of a condition: an operator, or one of these.
fn after_piece(text: &[u8]) -> Option<&[u8]>
    ensures { option_map (λ rest. rest.now) result ≡ after_piece text.now }
{
    if is_operator(first_byte(text)) {
        return Some(&text[text.len().min(1)..]);
    }
    after_token(text)
}

// How many parentheses are open after a piece that begins with this byte. `None` if it closes one that
// is not open.
fn depth_after(byte: u8, depth: usize) -> Option<usize>
    requires { depth < 18446744073709551615 }
    ensures { result ≡ depth_after byte depth }
{
    match byte {
        b'(' => Some(depth + 1),
        b')' => depth.checked_sub(1),
        _ => Some(depth),
    }
}

// How many parentheses are open after a list of such pieces. `None` where the text is no such list, or
// closes one that is not open.
fn depth_of(text: &[u8]) -> Option<usize>
    ensures { result ≡ depth_of text.now }
{
    let mut rest = text;
    let mut depth = 0;
    for _ in 0..text.len() {
        if rest.is_empty() {
            return Some(depth);
        }
        depth = depth_after(first_byte(rest), depth)?;
        rest = after_piece(rest)?;
    }
    if rest.is_empty() { Some(depth) } else { None }
}

// Whether the condition of this text is known: it is a list of such pieces, in which no macro is called.
fn is_known(before: &[u8]) -> bool
    ensures { result ≡ is_known before.now }
{
    match condition_of(before) {
        Some(condition) => depth_of(condition).is_some(),
        None => false,
    }
}

// Whether a byte is of no string, character, comment, trigraph or splice.
fn is_plain_byte(byte: u8) -> bool
    ensures { result ≡ is_plain_byte byte }
{
    !matches!(byte, b'"' | b'\'' | b'/' | b'?' | b'\\')
}

// Whether a condition begins in this text, which ends in no string, character or comment.
fn is_plain_front(front: &[u8]) -> bool
    ensures { result ≡ is_plain_front front.now }
{
    condition_of(front).is_some() && front.iter().all(|byte| is_plain_byte(*byte))
}

// Whether a text is a list of such pieces, which opens each parenthesis that it closes and closes each
// that it opens.
fn is_closed_list(text: &[u8]) -> bool
    ensures { result ≡ is_closed_list text.now }
{
    match depth_of(text) {
        Some(depth) => depth == 0,
        None => false,
    }
}

// The number of bytes after the last byte like this.
fn length_after(text: &[u8], byte: u8) -> usize
    ensures { result ≡ run_length (λ other. not (other == byte)) (reverse text.now) }
{
    text.iter()
        .rev()
        .take_while(|other| **other != byte)
        .count()
}

// Whether what follows the last byte like this before a place is such a list, to the end of the line: if
// a macro before it opens arguments, nothing closes them, which is an error.
fn is_cut_off(byte: u8, line: &[u8], place: usize) -> bool
    requires { place ≤ length line.now }
    ensures { result ≡ is_cut_off byte line.now place }
{
    let start = place.saturating_sub(length_after(&line[..place], byte));
    is_plain_front(&line[..start]) && is_closed_list(&line[start..])
}

// Whether what is at this place of a line is in a condition, and in no argument of a macro, if the line
// does not begin in a comment.
fn is_in_condition(line: &[u8], place: usize) -> bool
    requires { place ≤ length line.now }
    ensures { result ≡ is_in_condition line.now place }
{
    is_known(&line[..place]) || is_cut_off(b'|', line, place) || is_cut_off(b'&', line, place)
}

// The same of a line that may begin in a comment: a directive before it may go on after that, so no
// comment ends before the place.
pub fn is_read(is_open: bool, line: &[u8], place: usize) -> bool
    requires { place ≤ length line.now }
    ensures { result ≡ is_read is_open line.now place }
{
    if is_open && has(&line[..place], b"*/") {
        return false;
    }
    is_in_condition(line, place)
}

// Whether no more than blanks and a comment follow on the line.
pub fn is_finished(text: &[u8]) -> bool
    ensures { result ≡ is_finished text.now }
{
    let next = after_blanks(text);
    next.is_empty() || is_end(next)
}
