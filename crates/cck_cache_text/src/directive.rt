//! Directives at the front of a line.
ghost use Rattle.std.specs.Prelude.{◌≡◌};
ghost use Rattle.std.specs.Option.{option_map};
ghost use Rattle.cck_cache_text.specs.Directive.{asks_for_definition, condition_of, directive, directive_words, is_harmless, may_be_directive};

use crate::identifier::{after_blanks, rest_of_word, stripped, word_of};
use crate::splices::{before_blanks, has};

// What is between a `#` at the front of a line and the end of this text, without blanks around it.
pub fn directive_words(before: &[u8]) -> &[u8]
    ensures { result.now ≡ directive_words before.now }
{
    match stripped(after_blanks(before), b'#') {
        Some(rest) => before_blanks(after_blanks(rest)),
        None => b"",
    }
}

// Whether a text ends in `ifdef` or `ifndef` as a directive.
pub fn asks_for_definition(before: &[u8]) -> bool
    ensures { result ≡ asks_for_definition before.now }
{
    let words = directive_words(before);
    words == b"ifdef".as_slice() || words == b"ifndef".as_slice()
}

// The name of the directive of a line. Empty where the line has none, or where a comment ends in it.
pub fn directive(before: &[u8]) -> &[u8]
    ensures { result.now ≡ directive before.now }
{
    if has(before, b"*/") {
        return b"";
    }
    match stripped(after_blanks(before), b'#') {
        Some(rest) => word_of(after_blanks(rest)),
        None => b"",
    }
}

// What follows the name of a directive at the front of a line, if it is `if` or `elif`.
pub fn condition_of(before: &[u8]) -> Option<&[u8]>
    ensures { option_map (λ rest. rest.now) result ≡ condition_of before.now }
{
    let words = after_blanks(stripped(after_blanks(before), b'#')?);
    if word_of(words) == b"if".as_slice() || word_of(words) == b"elif".as_slice() {
        Some(rest_of_word(words))
    } else {
        None
    }
}

// Whether a line may be a directive, which begins with `#`, `%:` or `??=`, after comments.
fn may_be_directive(before: &[u8]) -> bool
    ensures { result ≡ may_be_directive before.now }
{
    has(before, b"#") || has(before, b"%:") || has(before, b"??=") || has(before, b"*/")
}

// Whether what is after this text on its line is no part of a condition or of a macro.
pub fn is_harmless(before: &[u8]) -> bool
    ensures { result ≡ is_harmless before.now }
{
    if !may_be_directive(before) {
        return true;
    }
    let name = directive(before);
    name == b"else".as_slice() || name == b"endif".as_slice()
}
