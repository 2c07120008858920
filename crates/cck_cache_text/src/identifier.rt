//! Identifiers and blanks at the ends of a text.
ghost use Rattle.std.specs.Prelude.{◌≡◌, get_or, reverse};
ghost use Rattle.std.specs.Option.{option_map};
ghost use Rattle.cck_cache_text.specs.Identifier.{after_blanks, after_word, ends_in_word, is_part_byte, is_start, is_word_byte, rest_of_word, stripped, word_of};
ghost use Rattle.cck_cache_text.specs.Splices.{is_blank, run_length};

use crate::splices::is_blank;

// Whether a byte is one of an identifier, in which gcc allows a dollar sign.
pub fn is_word_byte(byte: u8) -> bool
    ensures { result ≡ is_word_byte byte }
{
    byte.is_ascii_alphanumeric() || byte == b'_' || byte == b'$'
}

// The length of the identifier at the front of a text.
fn word_length(text: &[u8]) -> usize
    ensures { result ≡ run_length is_word_byte text.now }
{
    text.iter().take_while(|byte| is_word_byte(**byte)).count()
}

// The identifier at the front of a text, which may be empty.
pub fn word_of(text: &[u8]) -> &[u8]
    ensures { result.now ≡ word_of text.now }
{
    &text[..word_length(text).min(text.len())]
}

// What follows the identifier at the front of a text.
pub fn rest_of_word(text: &[u8]) -> &[u8]
    ensures { result.now ≡ rest_of_word text.now }
{
    &text[word_length(text).min(text.len())..]
}

// The number of blanks at the front of a text.
fn blanks_at_front(text: &[u8]) -> usize
    ensures { result ≡ run_length is_blank text.now }
{
    text.iter().take_while(|byte| is_blank(**byte)).count()
}

// A text without the blanks at its front.
pub fn after_blanks(text: &[u8]) -> &[u8]
    ensures { result.now ≡ after_blanks text.now }
{
    &text[blanks_at_front(text).min(text.len())..]
}

// A text without this byte at its front. `None` where it is not there.
pub fn stripped(text: &[u8], first: u8) -> Option<&[u8]>
    ensures { option_map (λ rest. rest.now) result ≡ stripped first text.now }
{
    match text {
        [byte, rest @ ..] if *byte == first => Some(rest),
        _ => None,
    }
}

// The length of the identifier at the end of a text, without characters that are no ASCII.
fn last_word_length(text: &[u8]) -> usize
    ensures { result ≡ run_length is_word_byte (reverse text.now) }
{
    text.iter()
        .rev()
        .take_while(|byte| is_word_byte(**byte))
        .count()
}

// Whether a byte may be a part of an identifier, in which gcc also allows characters that are no ASCII.
fn is_part_byte(byte: u8) -> bool
    ensures { result ≡ is_part_byte byte }
{
    is_word_byte(byte) || byte >= 128
}

// The length of the identifier at the end of a text.
fn last_identifier_length(text: &[u8]) -> usize
    ensures { result ≡ run_length is_part_byte (reverse text.now) }
{
    text.iter()
        .rev()
        .take_while(|byte| is_part_byte(**byte))
        .count()
}

// Whether an identifier may begin after this text.
pub fn is_start(before: &[u8]) -> bool
    ensures { result ≡ is_start before.now }
{
    last_word_length(before) == 0
}

// Whether a text ends in this identifier.
pub fn ends_in_word(text: &[u8], word: &[u8]) -> bool
    ensures { result ≡ ends_in_word text.now word.now }
{
    last_identifier_length(text) == word.len() && text.ends_with(word)
}

// What follows an identifier of at least one byte.
pub fn after_word(text: &[u8]) -> Option<&[u8]>
    ensures { option_map (λ rest. rest.now) result ≡ after_word text.now }
{
    if word_length(text) == 0 {
        return None;
    }
    Some(rest_of_word(text))
}

// The first byte of a text, or zero where it has none.
pub fn first_byte(text: &[u8]) -> u8
    ensures { result ≡ get_or text.now 0 0 }
{
    match text {
        [byte, ..] => *byte,
        [] => 0,
    }
}
