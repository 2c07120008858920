//! Names of tests for headers, and of the headers that they look for.
ghost use Rattle.std.specs.Prelude.{◌≡◌, ◌≤◌, ◌==◌, drop, length, not};
ghost use Rattle.std.specs.Option.{option_map};
ghost use Rattle.cck_cache_text.specs.Splices.{run_length};
ghost use Rattle.cck_cache_text.specs.TestName.{as_tokens, begins_test, closed_name, has_comment, has_low_word, is_beginning, is_closed, is_include_word, is_judged_word, is_macro_word, is_name_byte, is_plain_name, is_test_name, is_test_word, is_token_byte, is_token_name, lent_fields, may_have_test, name_in, named, test_in};

use crate::identifier::{after_blanks, rest_of_word, stripped, word_of};
use crate::splices::has;

// Whether an identifier ends as a name of a test for a header: the name, a part of it that is pasted, or
// a macro that stands for it.
fn is_test_name(word: &[u8]) -> bool
    ensures { result ≡ is_test_name word.now }
{
    word.ends_with(b"as_include")
        || word.ends_with(b"HAS_INCLUDE")
        || word.ends_with(b"as_include_next")
        || word.ends_with(b"as_embed")
}

// Whether an identifier is a name of a test, or the beginning of one, which may be pasted together with
// the rest.
fn is_beginning(word: &[u8]) -> bool
    ensures { result ≡ is_beginning word.now }
{
    b"__has_include_next".starts_with(word) || b"__has_embed".starts_with(word)
}

// The same of what begins here, if it is no shorter than `__ha`: the rest of a pasted name counts too.
fn begins_test(after: &[u8]) -> bool
    ensures { result ≡ begins_test after.now }
{
    after.starts_with(b"__ha") && is_beginning(word_of(after))
}

// Whether what begins here is such a name or beginning, or an identifier that ends as one.
fn is_test_word(after: &[u8]) -> bool
    ensures { result ≡ is_test_word after.now }
{
    begins_test(after) || is_test_name(word_of(after))
}

// Whether a text may have such an identifier or such a beginning.
pub fn may_have_test(text: &[u8]) -> bool
    ensures { result ≡ may_have_test text.now }
{
    has(text, b"__ha")
        || has(text, b"as_include")
        || has(text, b"HAS_INCLUDE")
        || has(text, b"as_embed")
}

// Whether there is a name of a test, or a beginning of one, at a place of a text.
pub fn is_test_word_at(text: &[u8], place: usize) -> bool
    requires { place ≤ length text.now }
    ensures { result ≡ is_test_word (drop place text.now) }
{
    is_test_word(&text[place..])
}

// The number of bytes before the first that is this one.
pub fn length_before(text: &[u8], close: u8) -> usize
    ensures { result ≡ run_length (λ byte. not (byte == close)) text.now }
{
    text.iter().take_while(|byte| **byte != close).count()
}

// Whether a text begins with blanks and a closing parenthesis.
fn is_closed(text: &[u8]) -> bool
    ensures { result ≡ is_closed text.now }
{
    stripped(after_blanks(text), b')').is_some()
}

// Whether a byte of a name is read in one way, in an argument of a macro too: it is no quote, no
// parenthesis, and none of a backslash or a trigraph.
fn is_name_byte(byte: u8) -> bool
    ensures { result ≡ is_name_byte byte }
{
    !matches!(byte, b'"' | b'\'' | b'(' | b')' | b'?' | b'\\')
}

// Whether a text has a sign at which a comment begins.
fn has_comment(text: &[u8]) -> bool
    ensures { result ≡ has_comment text.now }
{
    has(text, b"/*") || has(text, b"//")
}

// Whether a name has at least one byte, each is read in one way, and none begins a comment.
fn is_plain_name(name: &[u8]) -> bool
    ensures { result ≡ is_plain_name name.now }
{
    !name.is_empty() && !has_comment(name) && name.iter().all(|byte| is_name_byte(*byte))
}

// The name up to this byte, which a closing parenthesis follows. `None` for one that can't be judged.
fn closed_name(text: &[u8], close: u8) -> Option<&[u8]>
    ensures { option_map (λ name. name.now) result ≡ closed_name text.now close }
{
    let (name, rest) = text.split_at(length_before(text, close).min(text.len()));
    match stripped(rest, close) {
        Some(rest) if is_closed(rest) && is_plain_name(name) => Some(name),
        _ => None,
    }
}

// The name in quotes or in brackets at the front of a text, with whether it is in quotes.
fn named(text: &[u8]) -> Option<(&[u8], bool)>
    ensures { option_map lent_fields result ≡ named text.now }
{
    if let Some(rest) = stripped(text, b'"') {
        return Some((closed_name(rest, b'"')?, true));
    }
    Some((closed_name(stripped(text, b'<')?, b'>')?, false))
}

// The same in parentheses.
pub fn name_in(text: &[u8]) -> Option<(&[u8], bool)>
    ensures { option_map lent_fields result ≡ name_in text.now }
{
    named(after_blanks(stripped(after_blanks(text), b'(')?))
}

// Whether a byte is one of a name in brackets that an argument of a macro has as tokens, which gcc puts
// together to this name again.
fn is_token_byte(byte: u8) -> bool
    ensures { result ≡ is_token_byte byte }
{
    byte.is_ascii_alphanumeric() || matches!(byte, b'_' | b'.' | b'/' | b'+' | b'-')
}

// Whether an identifier of such a name may begin with `_`, as each macro that the compiler has and no text
// shows.
fn has_low_word(name: &[u8]) -> bool
    ensures { result ≡ has_low_word name.now }
{
    name.starts_with(b"_")
        || has(name, b"._")
        || has(name, b"/_")
        || has(name, b"+_")
        || has(name, b"-_")
}

// Whether no identifier of a name begins so, and it is made of such bytes.
fn is_token_name(name: &[u8]) -> bool
    ensures { result ≡ is_token_name name.now }
{
    !has_low_word(name) && name.iter().all(|byte| is_token_byte(*byte))
}

// The test, if its name is in quotes or made of tokens.
fn as_tokens(found: Option<(&[u8], bool)>) -> Option<(&[u8], bool)>
    ensures { option_map lent_fields result ≡ as_tokens (option_map lent_fields found.entry) }
{
    match found {
        Some((name, is_quoted)) if is_quoted || is_token_name(name) => Some((name, is_quoted)),
        _ => None,
    }
}

// Whether this is a name of a test for a header, as a whole.
pub fn is_include_word(word: &[u8]) -> bool
    ensures { result ≡ is_include_word word.now }
{
    word == b"__has_include".as_slice() || word == b"__has_include_next".as_slice()
}

// Whether this is the name of a test for a header, or of a macro that may stand for it.
pub fn is_judged_word(word: &[u8]) -> bool
    ensures { result ≡ is_judged_word word.now }
{
    word.ends_with(b"has_include")
        || word.ends_with(b"HAS_INCLUDE")
        || word == b"__has_include_next".as_slice()
}

// Whether this is the name of a macro that may stand for a test, and of no test.
pub fn is_macro_word(word: &[u8]) -> bool
    ensures { result ≡ is_macro_word word.now }
{
    is_judged_word(word) && !is_include_word(word)
}

// The test whose name begins here. The name of a header may be an argument of a macro that stands for a
// test.
pub fn test_in(text: &[u8]) -> Option<(&[u8], bool)>
    ensures { option_map lent_fields result ≡ test_in text.now }
{
    let found = name_in(rest_of_word(text));
    if is_include_word(word_of(text)) {
        found
    } else {
        as_tokens(found)
    }
}
