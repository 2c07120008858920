//! Arguments that define macros, and how the preprocessor shows macros in its text.
ghost use Rattle.std.specs.Prelude.{◌≡◌, map};
ghost use Rattle.std.specs.List.{list_all};
ghost use Rattle.cck_cache_options.specs.Call.{keyed_argument};
ghost use Rattle.cck_cache_options.specs.Definition.{are_shown_by_use, ends_string, has_debug_macros, is_definition, is_macro_name_byte, is_shown_by_use, is_definition_without_warning, is_value_without_warning, is_string, is_string_byte, is_value_byte, macro_option, macro_name_length, macro_name, macro_value, without_option};

use crate::call::Keyed;
use crate::table::Class;

/// Whether an option of this class defines or undefines a macro.
pub fn is_definition(class: Class) -> bool
    ensures { result ≡ is_definition class }
{
    matches!(class, Class::Definition)
}

// Whether a byte is one of the name of a macro.
fn is_macro_name_byte(byte: u8) -> bool
    ensures { result ≡ is_macro_name_byte byte }
{
    byte.is_ascii_alphanumeric() || byte == b'_'
}

// Whether a byte is one of a value that is read without a warning.
fn is_value_byte(byte: u8) -> bool
    ensures { result ≡ is_value_byte byte }
{
    is_macro_name_byte(byte) || matches!(byte, b'.' | b'-' | b'+' | b'(' | b')')
}

// Whether a byte is one of a string that is read without a warning: no quote, trigraph or escape begins with it.
fn is_string_byte(byte: u8) -> bool
    ensures { result ≡ is_string_byte byte }
{
    byte >= b' ' && byte <= b'~' && !matches!(byte, b'"' | b'?' | b'\\')
}

// Whether all bytes are those of a name.
fn are_macro_name_bytes(text: &[u8]) -> bool
    ensures { result ≡ list_all is_macro_name_byte text.now }
{
    text.iter().all(|byte| is_macro_name_byte(*byte))
}

// Whether all bytes are those of a value.
fn are_value_bytes(text: &[u8]) -> bool
    ensures { result ≡ list_all is_value_byte text.now }
{
    text.iter().all(|byte| is_value_byte(*byte))
}

// Whether all bytes are those of a string.
fn are_string_bytes(text: &[u8]) -> bool
    ensures { result ≡ list_all is_string_byte text.now }
{
    text.iter().all(|byte| is_string_byte(*byte))
}

// Whether a text has bytes of such a string, and after them the quote that ends it.
fn ends_string(text: &[u8]) -> bool
    ensures { result ≡ ends_string text.now }
{
    match text.strip_suffix(b"\"") {
        Some(inner) => are_string_bytes(inner),
        None => false,
    }
}

// Whether a text is a string.
fn is_string(text: &[u8]) -> bool
    ensures { result ≡ is_string text.now }
{
    match text.strip_prefix(b"\"") {
        Some(rest) => ends_string(rest),
        None => false,
    }
}

// Whether the preprocessor reads the value of a macro without a warning.
fn is_value_without_warning(value: &[u8]) -> bool
    ensures { result ≡ is_value_without_warning value.now }
{
    are_value_bytes(value) || is_string(value)
}

// An argument without the option at its front.
fn without_option(argument: &[u8]) -> &[u8]
    ensures { result.now ≡ without_option argument.now }
{
    if argument.starts_with(b"-D") || argument.starts_with(b"-U") {
        &argument[argument.len().min(2)..]
    } else {
        argument
    }
}

// The length of the name of a macro, which ends before an equals sign.
fn macro_name_length(text: &[u8]) -> usize
    ensures { result ≡ macro_name_length text.now }
{
    text.iter().take_while(|byte| **byte != b'=').count()
}

// The name of a macro.
fn macro_name(text: &[u8]) -> &[u8]
    ensures { result.now ≡ macro_name text.now }
{
    &text[..macro_name_length(text).min(text.len())]
}

// What follows the name and an equals sign.
fn macro_value(text: &[u8]) -> &[u8]
    ensures { result.now ≡ macro_value text.now }
{
    &text[macro_name_length(text).saturating_add(1).min(text.len())..]
}

// Whether the preprocessor reads a definition without a warning, where the macro is not used.
fn is_definition_without_warning(argument: &[u8]) -> bool
    ensures { result ≡ is_definition_without_warning argument.now }
{
    let text = without_option(argument);
    are_macro_name_bytes(macro_name(text)) && is_value_without_warning(macro_value(text))
}

// Whether an argument may ask for debug information with all macros, as `-g3` does.
fn has_debug_macros(argument: &[u8]) -> bool
    ensures { result ≡ has_debug_macros argument.now }
{
    argument.starts_with(b"-g") && argument.contains(&b'3')
}

// Whether a text that shows the macros that are used shows all that an argument does by macros.
fn is_shown_by_use(keyed: &Keyed<'_>) -> bool
    ensures { result ≡ is_shown_by_use (keyed_argument keyed.now) }
{
    if is_definition(keyed.class) {
        is_definition_without_warning(keyed.argument)
    } else {
        !has_debug_macros(keyed.argument)
    }
}

// The same of all these arguments.
fn are_shown_by_use(arguments: &[Keyed<'_>]) -> bool
    ensures { result ≡ are_shown_by_use (map keyed_argument arguments.now) }
{
    let mut rest = arguments;
    while let [first, others @ ..] = rest {
        if !is_shown_by_use(first) {
            return false;
        }
        rest = others;
    }
    true
}

/// The option with which the text of a preprocessor shows the macros of a call: `-dU`, with which it shows
/// each macro that is used or tested, with its definition; or `-dD`, with which it shows all definitions, where
/// an object or its messages may depend on one that is not used.
///
/// Source: "`-d`" of the manual of GCC's preprocessor.
pub fn macro_option(arguments: &[Keyed<'_>]) -> &'static [u8]
    ensures { result.now ≡ macro_option (map keyed_argument arguments.now) }
{
    if are_shown_by_use(arguments) {
        b"-dU"
    } else {
        b"-dD"
    }
}
