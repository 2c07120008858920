//! Whether a program read other files than those that a text was made of.
ghost use Rattle.std.specs.Prelude.{◌≡◌, ◌↔◌, IfOk, IsTrue, List, map, true};
ghost use Rattle.std.specs.Char.{is_ascii_alphanumeric};
ghost use Rattle.std.specs.List.{list_all};
ghost use Rattle.cck_include.specs.Marks as spec;
ghost use Rattle.cck_include.specs.Marks.{Marks};
ghost use Rattle.cck_cache_text.specs.ReadFiles.{AreNamesOf, IsAssembledRule, IsOpenedRule, file_of, is_made_file, is_name_of, is_of_compiler, without_dots};

use crate::names::{MarkedText, directory_of};
use crate::rule::rule_names;
use std::alloc::{AllocError, Global};
use std::collections::BTreeSet;

/// The name that the assembler has for standard input.
const STANDARD_INPUT: &[u8] = b"{standard input}";

// A name without its directory.
fn file_of(name: &[u8]) -> &[u8]
    ensures { result.now ≡ file_of name.now }
{
    let (_, file) = name.split_at(directory_of(name).len());
    file
}

// Whether each byte is a letter or a digit.
fn are_alphanumeric(bytes: &[u8]) -> bool
    ensures { result ≡ list_all is_ascii_alphanumeric bytes.now }
{
    bytes.iter().all(|byte| byte.is_ascii_alphanumeric())
}

// Whether gcc makes a file of this name for the assembler.
fn is_made_file(file: &[u8]) -> bool
    ensures { result ≡ is_made_file file.now }
{
    file.len() == 10
        && file.starts_with(b"cc")
        && file.ends_with(b".s")
        && are_alphanumeric(&file[2..8])
}

// Whether the assembler has this name for what it reads of the compiler.
fn is_of_compiler(input: &[u8], name: &[u8]) -> bool
    ensures { result ≡ is_of_compiler input.now name.now }
{
    name == STANDARD_INPUT || is_made_file(file_of(name)) || name == file_of(input)
}

// Whether the assembler has each of these names for what it reads of the compiler.
fn are_of_compiler(input: &[u8], read: &[Vec<u8>]) -> bool
    ensures { result ≡ list_all (is_of_compiler input.now) (map (λ name. name.items) read.now) }
{
    read.iter().all(|name| is_of_compiler(input, name))
}

// A name without each `./` that it begins with.
fn without_dots(name: &[u8]) -> &[u8]
    ensures { result.now ≡ without_dots name.now }
{
    let mut rest = name;
    while let [b'.', b'/', after @ ..] = rest {
        rest = after;
    }
    rest
}

// Whether a set has this name, or has it with `./` before it.
fn is_name_of(names: &BTreeSet<Vec<u8>>, name: &[u8]) -> bool
    ensures { result ≡ is_name_of names.now name.now }
{
    names.contains(name) || names.iter().any(|of| without_dots(of) == name)
}

// Whether a preprocessed text names each of these files.
fn names_all(text: &MarkedText<'_>, read: &[Vec<u8>]) -> bool
    ensures { (marks : List spec.Mark) → Marks true text.now marks
        → (IsTrue result ↔ AreNamesOf marks (map (λ name. name.items) read.now)) }
{
    let named = text.named();
    read.iter().all(|name| is_name_of(&named.names, name))
}

/// Whether the assembler read nothing but what the compiler made of this input, by the dependency file
/// that it wrote (`as --MD`): the rule's names are each `{standard input}`, a file such as
/// `/tmp/ccABCDEF.s`, or the last part of the input's name, which gcc gives the assembler by `.file`.
/// `false` where the file has no rule that can be read.
///
/// The only error is lack of memory.
pub fn assembles_alone(alloc: Global, input: &[u8], rule: &[u8]) -> Result<bool, AllocError>
    ensures { IfOk result (λ alone. IsTrue alone ↔ IsAssembledRule input.now rule.now) }
{
    match rule_names(alloc, rule)? {
        Some(names) => Ok(are_of_compiler(input, &names)),
        None => Ok(false),
    }
}

/// Whether the compiler opened no file but those that this preprocessed text names, by the dependency
/// file that it wrote (`gcc -MD`, or the variable `SUNPRO_DEPENDENCIES`). Where there is no name gcc
/// writes nothing, or no file: an empty file has no names. In a name the `./` that it begins with are
/// left out. `false` where the file has no rule that can be read.
///
/// The only error is lack of memory.
pub fn opens_named_alone(
    alloc: Global,
    text: &MarkedText<'_>,
    rule: &[u8],
) -> Result<bool, AllocError>
    ensures { IfOk result (λ alone. IsTrue alone ↔ IsOpenedRule text.now rule.now) }
{
    if rule.is_empty() {
        return Ok(true);
    }
    match rule_names(alloc, rule)? {
        Some(names) => Ok(names_all(text, &names)),
        None => Ok(false),
    }
}
