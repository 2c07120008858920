//! The key of an object.
ghost use Rattle.std.specs.Prelude.{◌≡◌, ◌≢◌, ◌∷◌, [], IfOk, IfSome, IsUtf8, MatchBool, MatchOption, MatchResult, map, pos, string_bytes};
ghost use Rattle.std.specs.Option.{option_map};
ghost use Rattle.sha2.specs.Sha256.{sha256};
ghost use Rattle.cck_util.specs.Key.{object_key};
ghost use Rattle.cck_util.specs.Language.{language_name};
ghost use Rattle.cck_c.specs.Bytes.{AreUtf8};
ghost use Rattle.cck_c.specs.Key.{CopiesStrings, HasKey, IsKey, LacksADigest, MakesKey, NamesNone, assembler_of, passed_params};
ghost use Rattle.cck_c.specs.Status.{IsOneOf};

use crate::bytes::{Bytes, Variable, copy_texts, copy_variables};
use crate::status;
use cck_digest::laws::text_has_64_characters;
use cck_util::{HashKeyParams, Language, Sha256State, UtilError};
use std::alloc::Global;

/// The parts of which the key of an object is made.
#[repr(C)]
#[derive(Clone, Copy)]
pub struct KeyParams<'a> {
    pub compiler_digest: &'a [u8],
    pub language: &'a [u8],
    pub arguments: &'a [Bytes<'a>],
    pub extra_hashes: &'a [Bytes<'a>],
    pub variables: &'a [Variable<'a>],
    pub basedirs: &'a [Bytes<'a>],
    pub text: &'a [u8],
    pub assembler_digest: &'a [u8],
    pub has_assembler: u8,
    pub plusplus: u8,
}

/// Why there is no key.
#[derive(Clone, Copy, PartialEq, Eq)]
pub(crate) enum ParamsError {
    /// Memory is lacking.
    Memory,
    /// No language has this name.
    NoLanguage,
    /// A digest is not UTF-8.
    NoText,
}

/// Writes the key of an object, 64 digits.
///
/// It returns [`status::LANGUAGE`] exactly if no language has the name, else [`status::DIGEST`]
/// exactly if a digest is not UTF-8, else it may return [`status::MEMORY`], and writes nothing then.
#[unsafe(no_mangle)]
pub extern "C" fn cck_object_key(alloc: Global, params: &KeyParams<'_>, key: &mut [u8; 64]) -> i32
    ensures done { result ≡ pos 0 → IsKey params.now key.new }
    ensures language { result ≡ pos 3 → NamesNone params.now.language.now }
    ensures digest { result ≡ pos 4 → LacksADigest params.now }
    ensures memory { result ≡ pos 1 → HasKey params.now }
    ensures only { IsOneOf result (0 ∷ 1 ∷ 3 ∷ 4 ∷ []) }
    ensures kept { result ≢ pos 0 → key.new ≡ key.old }
{
    match key_of(alloc, params) {
        Ok(text) => {
            text_has_64_characters::<Sha256State>();
            key.copy_from_slice(text.as_bytes());
            status::DONE
        }
        Err(ParamsError::Memory) => status::MEMORY,
        Err(ParamsError::NoLanguage) => status::LANGUAGE,
        Err(ParamsError::NoText) => status::DIGEST,
    }
}

// Returns the key.
fn key_of(alloc: Global, params: &KeyParams<'_>) -> Result<String, ParamsError>
    ensures { MakesKey params.now result }
{
    let Some(language) = language_named(params.language) else {
        return Err(ParamsError::NoLanguage);
    };
    let Ok(digest) = std::str::from_utf8(params.compiler_digest) else {
        return Err(ParamsError::NoText);
    };
    let Ok(assembler) = assembler_digest(params) else {
        return Err(ParamsError::NoText);
    };
    let extra_hashes = match copy_strings(alloc, params.extra_hashes) {
        Ok(strings) => strings,
        Err(error) => return Err(error),
    };
    match compute(alloc, params, language, digest, &extra_hashes, assembler) {
        Ok(key) => Ok(key),
        Err(_) => Err(ParamsError::Memory),
    }
}

// Returns the key, with these digests.
fn compute(
    alloc: Global,
    params: &KeyParams<'_>,
    language: Language,
    digest: &str,
    extra_hashes: &[String],
    assembler: Option<&str>,
) -> Result<String, UtilError>
    ensures { IfOk result (λ key. string_bytes key ≡ object_key sha256 (record (passed_params language params.now) {
      compiler_digest = digest.now;
      extra_hashes = map string_bytes extra_hashes.now;
      assembler_digest = option_map (λ d. d.now) assembler.entry;
    })) }
{
    let arguments = copy_texts(alloc, params.arguments)?;
    let variables = copy_variables(alloc, params.variables)?;
    let basedirs = copy_texts(alloc, params.basedirs)?;
    HashKeyParams::new(digest, language, &arguments, params.text)
        .with_extra_hashes(extra_hashes)
        .with_env_vars(&variables)
        .with_plusplus(params.plusplus != 0)
        .with_basedirs(&basedirs)
        .with_assembler_digest(assembler)
        .compute::<Sha256State>(alloc)
}

// Returns the language of this name.
fn language_named(name: &[u8]) -> Option<Language>
    ensures { MatchOption result (NamesNone name.now) (λ language. language_name language ≡ name.now) }
{
    let Ok(text) = std::str::from_utf8(name) else {
        return None;
    };
    match text.parse::<Language>() {
        Ok(language) => Some(language),
        Err(_) => None,
    }
}

// Returns the digest of the assembler, if one is passed.
fn assembler_digest<'a>(params: &KeyParams<'a>) -> Result<Option<&'a str>, ParamsError>
    ensures { MatchResult result
        (λ digest. (option_map (λ d. d.now) digest ≡ assembler_of params.now) × IfSome (assembler_of params.now) IsUtf8)
        (λ _. IfSome (assembler_of params.now) IsUtf8 → ⊥) }
{
    if params.has_assembler == 0 {
        return Ok(None);
    }
    match std::str::from_utf8(params.assembler_digest) {
        Ok(digest) => Ok(Some(digest)),
        Err(_) => Err(ParamsError::NoText),
    }
}

// Returns whether each text is UTF-8.
fn are_utf8(all: &[Bytes<'_>]) -> bool
    ensures { MatchBool result (AreUtf8 all.now) (AreUtf8 all.now → ⊥) }
{
    for one in all {
        let Ok(_) = std::str::from_utf8(one.bytes) else {
            return false;
        };
    }
    true
}

// Copies the texts as strings, if each is UTF-8.
fn copy_strings(alloc: Global, all: &[Bytes<'_>]) -> Result<Vec<String>, ParamsError>
    ensures { CopiesStrings all.now result }
{
    // All texts are tested before one is copied, so that lack of memory hides no text that is not UTF-8.
    if !are_utf8(all) {
        return Err(ParamsError::NoText);
    }
    let mut strings = Vec::new(alloc);
    for one in all {
        let Ok(text) = std::str::from_utf8(one.bytes) else {
            return Err(ParamsError::NoText);
        };
        let Ok(string) = String::from_str(alloc, text) else {
            return Err(ParamsError::Memory);
        };
        let Ok(()) = strings.push(string) else {
            return Err(ParamsError::Memory);
        };
    }
    Ok(strings)
}
