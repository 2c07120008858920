//! The base directory of a compilation, by its words.
ghost use Rattle.std.specs.Prelude.{◌↔◌, IsTrue, map};
ghost use Rattle.std.specs.Option.{option_map};
ghost use Rattle.cck_cache_rules.specs.Base.{AllPortable, AskForDebug, BaseOf, HidesBase, IsBelow, IsPlain, MapDebug, word_lists};

use crate::argument::{asks_for_debug, is_portable, maps_debug};

/// The words of a request that its base directory depends on.
#[derive(Clone, Copy)]
pub struct Words<'a> {
    /// The base directory that was given, if objects are shared between checkouts.
    pub base: Option<&'a str>,
    /// The working directory.
    pub directory: &'a str,
    /// The compiler's arguments without the output.
    pub arguments: &'a [Vec<u8>],
}

// Whether a path is absolute, is not the root, and has only bytes that stay as they are in a line
// marker and in an option.
fn is_plain(base: &[u8]) -> bool
    ensures { IsTrue result ↔ IsPlain base.now }
{
    base.starts_with(b"/")
        && !base.ends_with(b"/")
        && base.iter().all(|byte| byte.is_ascii_graphic() && !matches!(*byte, b'=' | b'"' | b'\\'))
}

// Whether a path is the base directory or below it.
fn is_below(path: &[u8], base: &[u8]) -> bool
    ensures { IsTrue result ↔ IsBelow path.now base.now }
{
    match path.strip_prefix(base) {
        Some(rest) => rest.is_empty() || rest.starts_with(b"/"),
        None => false,
    }
}

// Whether each of these arguments may be in a portable compilation.
fn all_portable(arguments: &[Vec<u8>], base: &[u8]) -> bool
    ensures { IsTrue result ↔ AllPortable (map (λ a. a.items) arguments.now) base.now }
{
    for argument in arguments {
        if !is_portable(argument, base) {
            return false;
        }
    }
    true
}

// Whether one of these arguments asks for debug information.
fn ask_for_debug(arguments: &[Vec<u8>]) -> bool
    ensures { IsTrue result ↔ AskForDebug (map (λ a. a.items) arguments.now) }
{
    arguments.iter().any(|argument| asks_for_debug(argument))
}

// Whether one of these arguments maps exactly the base directory in debug information.
fn map_debug(arguments: &[Vec<u8>], base: &[u8]) -> bool
    ensures { IsTrue result ↔ MapDebug (map (λ a. a.items) arguments.now) base.now }
{
    arguments.iter().any(|argument| maps_debug(argument, base))
}

// Whether debug information, if these arguments ask for it, has another name in place of the base
// directory.
fn hides_base(arguments: &[Vec<u8>], base: &[u8]) -> bool
    ensures { IsTrue result ↔ HidesBase (map (λ a. a.items) arguments.now) base.now }
{
    map_debug(arguments, base) || !ask_for_debug(arguments)
}

/// Returns the base directory of a request, if its words are those of a portable compilation.
pub fn base_of<'a>(words: &Words<'a>) -> Option<&'a str>
    ensures { BaseOf (word_lists words.now) (option_map (λ base. base.now) result) }
{
    let base = words.base?;
    let bytes = base.as_bytes();
    if !is_plain(bytes) || !is_below(words.directory.as_bytes(), bytes) {
        return None;
    }
    if !all_portable(words.arguments, bytes) {
        return None;
    }
    if hides_base(words.arguments, bytes) {
        Some(base)
    } else {
        None
    }
}
