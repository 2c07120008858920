//! Macros whose names are read as those of tests.
ghost use Rattle.std.specs.Prelude.{◌≡◌, ◌==◌, drop, false, length};
ghost use Rattle.std.specs.Option.{option_map, option_map_or};
ghost use Rattle.cck_cache_text.specs.Splices.{run_length};
ghost use Rattle.cck_cache_text.specs.Identifier.{after_blanks};
ghost use Rattle.cck_cache_text.specs.Condition.{is_finished};
ghost use Rattle.cck_cache_text.specs.TestMacro.{after_enclosed, after_parameters, defined_parameter, defines_call, defines_judged, defines_name, enclosed, is_alias, is_call, is_defined, is_number, is_number_byte, is_parameter_byte, is_plain_definition, is_plain_macro, is_test_alone, is_test_of, is_test_of_parameter, macro_test, names_class, stands_for_test};
ghost use Rattle.cck_cache_text.specs.TestName.{lent_fields};

use crate::condition::{after_closed_word, after_parenthesis, is_finished};
use crate::directive::{directive, directive_words};
use crate::identifier::{
    after_blanks, ends_in_word, is_word_byte, rest_of_word, stripped, word_of,
};
use crate::splices::{before_blanks, is_blank};
use crate::test_name::{is_include_word, is_judged_word, is_macro_word, name_in};

// Whether a byte is one of the parameters of a macro.
fn is_parameter_byte(byte: u8) -> bool
    ensures { result ≡ is_parameter_byte byte }
{
    is_word_byte(byte) || is_blank(byte) || matches!(byte, b',' | b'.')
}

// The number of such bytes at the front of a text.
fn parameters_length(text: &[u8]) -> usize
    ensures { result ≡ run_length is_parameter_byte text.now }
{
    text.iter()
        .take_while(|byte| is_parameter_byte(**byte))
        .count()
}

// What follows the parameters of a macro, after a parenthesis.
fn after_parameters(text: &[u8]) -> Option<&[u8]>
    ensures { option_map (λ rest. rest.now) result ≡ after_parameters text.now }
{
    stripped(&text[parameters_length(text).min(text.len())..], b')')
}

// Whether a byte is one of a number, or a blank.
fn is_number_byte(byte: u8) -> bool
    ensures { result ≡ is_number_byte byte }
{
    byte.is_ascii_digit() || is_blank(byte)
}

// The number of such bytes at the front of a text.
fn number_length(text: &[u8]) -> usize
    ensures { result ≡ run_length is_number_byte text.now }
{
    text.iter()
        .take_while(|byte| is_number_byte(**byte))
        .count()
}

// Whether a macro stands for no more than a number.
fn is_number(text: &[u8]) -> bool
    ensures { result ≡ is_number text.now }
{
    is_finished(&text[number_length(text).min(text.len())..])
}

// Whether a macro stands for the name of a test alone.
fn is_test_alone(text: &[u8]) -> bool
    ensures { result ≡ is_test_alone text.now }
{
    is_include_word(word_of(text)) && is_finished(rest_of_word(text))
}

// Whether a macro with parameters, of which this follows the parenthesis, stands for a number.
fn is_number_of_parameters(inner: &[u8]) -> bool
    ensures { result ≡ option_map_or is_number (after_parameters inner.now) false }
{
    match after_parameters(inner) {
        Some(body) => is_number(body),
        None => false,
    }
}

// Whether a macro of which this follows the name opens no parenthesis, and calls no other: it stands for
// a number, with parameters or without, or for the name of a test.
fn is_plain_macro(text: &[u8]) -> bool
    ensures { result ≡ is_plain_macro text.now }
{
    match stripped(text, b'(') {
        Some(inner) => is_number_of_parameters(inner),
        None => is_number(text) || is_test_alone(after_blanks(text)),
    }
}

// What follows an identifier in parentheses.
fn after_enclosed(text: &[u8]) -> Option<&[u8]>
    ensures { option_map (λ rest. rest.now) result ≡ after_enclosed text.now }
{
    after_closed_word(stripped(text, b'(')?)
}

// The identifier after a parenthesis.
fn enclosed(text: &[u8]) -> &[u8]
    ensures { result.now ≡ enclosed text.now }
{
    word_of(after_blanks(&text[text.len().min(1)..]))
}

// Whether no more follows an identifier in parentheses than a comment.
fn is_enclosed_alone(text: &[u8]) -> bool
    ensures { result ≡ option_map_or is_finished (after_enclosed text.now) false }
{
    match after_enclosed(text) {
        Some(rest) => is_finished(rest),
        None => false,
    }
}

// Whether here is a test for the header that this parameter names, and no more.
fn is_test_of(parameter: &[u8], text: &[u8]) -> bool
    ensures { result ≡ is_test_of parameter.now text.now }
{
    let inner = after_blanks(rest_of_word(text));
    is_include_word(word_of(text)) && enclosed(inner) == parameter && is_enclosed_alone(inner)
}

// Whether a macro of which this follows the name has one parameter, and stands for a test for the header
// that it names, and for no more.
fn is_test_of_parameter(text: &[u8]) -> bool
    ensures { result ≡ is_test_of_parameter text.now }
{
    match after_enclosed(text) {
        Some(body) => is_test_of(enclosed(text), after_blanks(body)),
        None => false,
    }
}

// Whether the name here is read as one of a test, and so are its uses, or it is not.
fn is_plain_definition(after: &[u8]) -> bool
    ensures { result ≡ is_plain_definition after.now }
{
    let (name, rest) = (word_of(after), rest_of_word(after));
    !is_judged_word(name)
        || is_plain_macro(rest)
        || (is_macro_word(name) && is_test_of_parameter(rest))
}

// Whether the name between these texts is the one that a directive undefines, or defines as such a
// macro.
pub fn is_defined(before: &[u8], after: &[u8]) -> bool
    ensures { result ≡ is_defined before.now after.now }
{
    let words = directive_words(before);
    words == b"undef".as_slice() || (words == b"define".as_slice() && is_plain_definition(after))
}

// What follows the name of the directive `define`, and blanks.
fn defined_name(words: &[u8]) -> &[u8]
    ensures { result.now ≡ after_blanks (drop 6 words.now) }
{
    after_blanks(&words[words.len().min(6)..])
}

// Whether what follows `define` is no more than a name, without parameters.
fn defines_name(words: &[u8]) -> bool
    ensures { result ≡ defines_name words.now }
{
    let name = defined_name(words);
    word_of(words) == b"define".as_slice() && word_of(name) == name && !name.is_empty()
}

// Whether this name is one of a test, or of a macro for one.
fn defines_judged(words: &[u8]) -> bool
    ensures { result ≡ defines_judged words.now }
{
    defines_name(words) && is_judged_word(defined_name(words))
}

// Whether an identifier in parentheses is all of a text.
fn is_enclosed(text: &[u8]) -> bool
    ensures { result ≡ option_map_or (λ rest. length rest == 0) (after_enclosed text.now) false }
{
    match after_enclosed(text) {
        Some(rest) => rest.is_empty(),
        None => false,
    }
}

// Whether what follows `define` is the name of a macro that may stand for a test, with one parameter.
fn defines_call(words: &[u8]) -> bool
    ensures { result ≡ defines_call words.now }
{
    let name = defined_name(words);
    word_of(words) == b"define".as_slice()
        && is_macro_word(word_of(name))
        && is_enclosed(rest_of_word(name))
}

// This parameter.
fn defined_parameter(words: &[u8]) -> &[u8]
    ensures { result.now ≡ defined_parameter words.now }
{
    enclosed(rest_of_word(defined_name(words)))
}

// Whether a directive between these texts defines a macro of such a name that is no more than a test for
// the header that its parameter names.
fn is_call(before: &[u8], after: &[u8]) -> bool
    ensures { result ≡ is_call before.now after.now }
{
    let words = directive_words(before);
    defines_call(words) && is_test_of(defined_parameter(words), after)
}

// Whether the name of a test, or a test with its parameter, is all that a macro of such a name stands for.
pub fn is_alias(before: &[u8], after: &[u8]) -> bool
    ensures { result ≡ is_alias before.now after.now }
{
    (is_test_alone(after) && defines_judged(directive_words(before))) || is_call(before, after)
}

// Whether a directive between these texts defines a macro that is no more than a test for a header.
fn stands_for_test(before: &[u8], after: &[u8]) -> bool
    ensures { result ≡ stands_for_test before.now after.now }
{
    is_include_word(word_of(after))
        && defines_name(directive_words(before))
        && is_finished(after_parenthesis(rest_of_word(after)))
}

// The test for a name in brackets for which a macro stands, and for no more. Where the macro is used, a
// word of the name may be a macro.
pub fn macro_test<'a>(before: &[u8], after: &'a [u8]) -> Option<(&'a [u8], bool)>
    ensures { option_map lent_fields result ≡ macro_test before.now after.now }
{
    if !stands_for_test(before, after) {
        return None;
    }
    match name_in(rest_of_word(after)) {
        Some((name, false)) => Some((name, false)),
        _ => None,
    }
}

// Whether a definition names a class after this text, which ends in `> struct`: a condition with that is an
// error, where `struct` is not a macro.
pub fn names_class(before: &[u8]) -> bool
    ensures { result ≡ names_class before.now }
{
    let front = before_blanks(before);
    directive(before) == b"define".as_slice()
        && ends_in_word(front, b"struct")
        && before_blanks(&front[..front.len().saturating_sub(6)]).ends_with(b">")
}
