//! Languages, and keys of objects.
use crate::cases::{CaseError, Given, Value};
use crate::value_cases::texts::text_of;
use cck_util::{CACHE_VERSION, HashKeyParams, Language, Sha256State};
use std::alloc::{AllocError, Global};

#[derive(Clone, Copy)]
pub(crate) enum KeyCall {
    Languages,
    Language,
    NeedsPreprocessing,
    Version,
    Key,
}

pub(crate) const CALLS: [(&str, KeyCall); 5] = [
    ("all_languages", KeyCall::Languages),
    ("language_of", KeyCall::Language),
    ("needs_c_preprocessing", KeyCall::NeedsPreprocessing),
    ("cache_version", KeyCall::Version),
    ("key", KeyCall::Key),
];

pub(crate) fn call<'a>(
    call: KeyCall,
    given: &'a Given,
    bytes: &'a [u8],
) -> Result<Value<'a>, CaseError> {
    match call {
        KeyCall::Languages => languages(given.alloc),
        KeyCall::Language => Ok(Value::Word(language_of(bytes)?.as_str())),
        KeyCall::NeedsPreprocessing => {
            Ok(Value::Flag(language_of(bytes)?.needs_c_preprocessing()))
        }
        KeyCall::Version => Ok(Value::Slice(CACHE_VERSION)),
        KeyCall::Key => key(given, bytes),
    }
}

fn language_of(name: &[u8]) -> Result<Language, CaseError> {
    Ok(text_of(name)?.parse::<Language>()?)
}

// The variant and the name of each language, a line each.
fn languages<'a>(alloc: Global) -> Result<Value<'a>, CaseError> {
    let mut lines = String::new(alloc);
    for language in Language::ALL {
        add_language(alloc, &mut lines, language)?;
    }
    Ok(Value::Text(lines))
}

fn add_language(alloc: Global, lines: &mut String, language: Language) -> Result<(), AllocError> {
    if !lines.is_empty() {
        lines.push('\n')?;
    }
    let name = language.as_str();
    lines.push_str(&format!(in alloc; "{language:?} {name}")?)
}

fn key<'a>(given: &Given, text: &[u8]) -> Result<Value<'a>, CaseError> {
    let params = HashKeyParams::new(given.compiler(), given.language, &given.arguments, text)
        .with_extra_hashes(&given.extra_hashes)
        .with_env_vars(&given.variables)
        .with_plusplus(given.plusplus)
        .with_basedirs(&given.basedirs)
        .with_assembler_digest(given.assembler());
    Ok(Value::Text(params.compute::<Sha256State>(given.alloc)?))
}
