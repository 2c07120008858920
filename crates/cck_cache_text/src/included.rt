//! The headers that a text and the arguments of a call include.
ghost use Rattle.std.specs.Prelude.{◌≡◌, ◌<◌, IfOk, OnOk, length, map, true, false};
ghost use Rattle.cck_cache_text.specs.Included.{AddsLines, AreIncluded, IncludesHeader, IsAfter, IsClosedBy, IsGiven, IsGivenTo, may_include};
ghost use Rattle.cck_cache_text.specs.Sets.{Adds};

use crate::absent::add;
use crate::search_list::text_lines;
use std::alloc::{AllocError, Global};
use std::collections::BTreeSet;

/// The names of headers that are included.
#[derive(Drop)]
pub struct Included {
    /// Those in quotes, and those of arguments.
    pub quoted: BTreeSet<Vec<u8>>,
    /// Those in brackets.
    pub bracketed: BTreeSet<Vec<u8>>,
}

// Adds the names that begin a text, each up to what may close it.
fn add_closed(
    alloc: Global,
    names: &mut BTreeSet<Vec<u8>>,
    text: &[u8],
    close: &[u8],
) -> Result<(), AllocError>
    ensures { OnOk result (Adds (IsClosedBy close.now text.now) names.old names.new) }
{
    for place in 0..text.len() + 1 {
        if text[place..].starts_with(close) {
            add(names, text[..place].to_vec(alloc)?)?;
        }
    }
    Ok(())
}

/// Adds the names in a line that begins with this, each up to what may close it.
///
/// The only error is lack of memory.
pub fn add_after(
    alloc: Global,
    names: &mut BTreeSet<Vec<u8>>,
    line: &[u8],
    front: &[u8],
    close: &[u8],
) -> Result<(), AllocError>
    ensures { OnOk result (Adds (IsAfter front.now close.now line.now) names.old names.new) }
{
    if let Some(rest) = line.strip_prefix(front) {
        add_closed(alloc, names, rest, close)?;
    }
    Ok(())
}

// Whether a line begins as one that includes a header.
fn may_include(line: &[u8]) -> bool
    ensures { result ≡ may_include line.now }
{
    line.starts_with(b"#i")
}

// Adds the names of the headers that a line includes in quotes.
fn add_quoted(alloc: Global, names: &mut BTreeSet<Vec<u8>>, line: &[u8]) -> Result<(), AllocError>
    ensures { OnOk result (Adds (λ name. IncludesHeader line.now name true) names.old names.new) }
{
    if !may_include(line) {
        return Ok(());
    }
    add_after(alloc, names, line, b"#include \"", b"\"")?;
    add_after(alloc, names, line, b"#include_next \"", b"\"")?;
    add_after(alloc, names, line, b"#import \"", b"\"")?;
    Ok(())
}

// Adds the names of the headers that a line includes in brackets.
fn add_bracketed(
    alloc: Global,
    names: &mut BTreeSet<Vec<u8>>,
    line: &[u8],
) -> Result<(), AllocError>
    ensures { OnOk result (Adds (λ name. IncludesHeader line.now name false) names.old names.new) }
{
    if !may_include(line) {
        return Ok(());
    }
    add_after(alloc, names, line, b"#include <", b">")?;
    add_after(alloc, names, line, b"#include_next <", b">")?;
    add_after(alloc, names, line, b"#import <", b">")?;
    Ok(())
}

// Adds the names of the headers that these lines include.
fn add_lines(alloc: Global, included: &mut Included, lines: &[&[u8]]) -> Result<(), AllocError>
    ensures { OnOk result
        (AddsLines (map (λ line. line.now) lines.now) included.old included.new) }
{
    for line in lines {
        add_quoted(alloc, &mut included.quoted, line)?;
        add_bracketed(alloc, &mut included.bracketed, line)?;
    }
    Ok(())
}

// Adds the name that the argument at this place, or the next one, gives to an option.
fn add_given_to(
    alloc: Global,
    names: &mut BTreeSet<Vec<u8>>,
    arguments: &[Vec<u8>],
    place: usize,
    option: &[u8],
) -> Result<(), AllocError>
    requires { place < length arguments.now }
    ensures { OnOk result
        (Adds (IsGivenTo option.now (map (λ a. a.items) arguments.now) place) names.old names.new) }
{
    let Some(rest) = arguments[place].strip_prefix(option) else {
        return Ok(());
    };
    let next = place + 1;
    if !rest.is_empty() {
        add(names, rest.to_vec(alloc)?)?;
    } else if next < arguments.len() {
        add(names, arguments[next].to_vec(alloc)?)?;
    }
    Ok(())
}

// Adds the names of the files that arguments include.
fn add_given(
    alloc: Global,
    names: &mut BTreeSet<Vec<u8>>,
    arguments: &[Vec<u8>],
) -> Result<(), AllocError>
    ensures { OnOk result
        (Adds (IsGiven (map (λ a. a.items) arguments.now)) names.old names.new) }
{
    for place in 0..arguments.len() {
        add_given_to(alloc, names, arguments, place, b"-include")?;
        add_given_to(alloc, names, arguments, place, b"-imacros")?;
    }
    Ok(())
}

/// The names of the headers that a text includes, by the lines that gcc writes of them with `-dI`:
/// a directive's word, a space, and the name in quotes or in brackets, which nothing escapes. A name
/// ends at each byte that may close it, since such a byte may be in the name and in a comment after
/// it. Those of the files that arguments include count as names in quotes.
///
/// The only error is lack of memory.
pub fn included_in(
    alloc: Global,
    text: &[u8],
    arguments: &[Vec<u8>],
) -> Result<Included, AllocError>
    ensures { IfOk result (AreIncluded text.now (map (λ a. a.items) arguments.now)) }
{
    let mut included = Included {
        quoted: BTreeSet::new(alloc),
        bracketed: BTreeSet::new(alloc),
    };
    let lines = text_lines(alloc, text)?;
    add_lines(alloc, &mut included, &lines)?;
    add_given(alloc, &mut included.quoted, arguments)?;
    Ok(included)
}
