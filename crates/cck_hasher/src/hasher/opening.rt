//! The first part of a call: the digests of the extra files, and the preprocessor key.
ghost use Rattle.std.specs.Prelude.{◌≡◌, ◌&&◌, IfErr, IfOk, MatchResult, None, if◌then◌else◌, is_none, map, option_map, string_bytes};
ghost use Rattle.std.specs.Str.{str_eq_ignore_ascii_case};
ghost use Rattle.cck_compiler.specs.Seen.{arguments_of};
ghost use Rattle.cck_path.specs.Bytes.{variables_of};
ghost use Rattle.cck_files.specs.Calls.{Keeps, Rose};
ghost use Rattle.cck_compiler.specs.PreprocessorKey.{preprocessor_key};
ghost use Rattle.cck_util.specs.Language.{is_preprocessed_first};
ghost use Rattle.cck_hasher.specs.Conditions.{call_under, given_of, request_under, world_under};
ghost use Rattle.cck_hasher.specs.Keys.{is_direct, is_off, request_parts};
ghost use Rattle.cck_hasher.specs.Opening.{IsInputDigest, IsInputError, IsKeyOfInput, IsOpening, text_and_digest};
ghost use Rattle.cck_hasher.specs.Reasons.{IsFileReason};
ghost use Rattle.cck_hasher.specs.Seen.{why_of};
ghost use Rattle.cck_hasher.specs.Step.{StopsOpening};
ghost use Rattle.cck_hasher.specs.Walk.{input_path};

use super::CCompilerHasher;
use crate::conditions::Conditions;
use crate::errors::key_error_of;
use cck_compiler::{CCompilerImpl, KeyError, PreprocessorKeyRequest, hashed_directory};
use cck_digest::HashState;
use cck_files::{Files, hash_all};
use cck_include::recorded_digest;
use cck_path::{first_value, join_path};
use std::alloc::{AllocError, Global};

/// A preprocessor key.
#[derive(Debug, Drop)]
pub struct PreprocessorKey {
    /// Its text: the hex digest of its key material.
    pub text: String,
    /// The recorded digest of the input, which is part of the key material.
    pub input_digest: String,
}

/// The results of the first part of a call.
#[derive(Drop)]
pub(crate) struct Opening {
    /// The hex digests of the extra files, in their order.
    pub(crate) extra_hashes: Vec<String>,
    /// The preprocessor key, if there is one.
    pub(crate) key: Option<PreprocessorKey>,
}

// Whether these are the same bytes but for the case of ASCII letters.
fn is_same_word(value: &[u8], word: &[u8]) -> bool
    ensures { result ≡ str_eq_ignore_ascii_case value.now word.now }
{
    value.eq_ignore_ascii_case(word)
}

// Whether a value switches something off.
fn is_off(value: &[u8]) -> bool
    ensures { result ≡ is_off value.now }
{
    is_same_word(value, b"false") || is_same_word(value, b"off") || is_same_word(value, b"0")
}

// Whether the variables don't switch the preprocessor cache off.
#[tactic(auto, unfolding(crate::specs::Keys::is_direct))]
fn is_direct(vars: &[(Vec<u8>, Vec<u8>)]) -> bool
    ensures { result ≡ is_direct (variables_of vars.now) }
{
    match first_value(vars, b"SCCACHE_DIRECT") {
        Some(value) => !is_off(value),
        None => true,
    }
}

impl<I: CCompilerImpl> CCompilerHasher<I> {
    /// The hex digest of the assembler, if the assembler is a program of its own.
    pub(crate) fn assembler_digest(&self) -> Option<&str>
        ensures { option_map (λ d. d.now) result
            ≡ (if self.now.parsed_args.uses_external_assembler then I.compiler.assembler_digest (I.value self.now.compiler) else None) }
    {
        if self.parsed_args.uses_external_assembler {
            self.compiler.assembler_digest()
        } else {
            None
        }
    }

    /// Whether the preprocessor cache is used.
    #[tactic(auto, using(crate::proofs::Opened::is_none_map))]
    fn uses_cache(&self, conditions: &Conditions<'_>) -> bool
        ensures { let asked = arguments_of self.now.parsed_args in
            result ≡ (is_preprocessed_first asked.language && (conditions.now.config.use_preprocessor_cache_mode
            && (is_none asked.too_hard_for_preprocessor_cache_mode && is_direct (variables_of conditions.now.vars.now)))) }
    {
        self.parsed_args.language.needs_c_preprocessing()
            && conditions.config.use_preprocessor_cache_mode
            && self
                .parsed_args
                .too_hard_for_preprocessor_cache_mode
                .is_none()
            && is_direct(conditions.vars)
    }

    /// Computes the hex digests of the extra files, and the preprocessor key.
    pub(crate) fn open<H: HashState, F: Files>(
        &self,
        alloc: Global,
        files: &mut F,
        conditions: &Conditions<'_>,
    ) -> Result<Opening, KeyError>
        ensures keeps { Keeps F.file_map F.faults F.is_quiet files.old files.new }
        ensures outcome { let given = given_of conditions.now in
            let w = world_under H.hash I.compiler given in
            let c = call_under I.value (F.file_map files.old) self.now given in
            MatchResult result (IsOpening w c)
            (λ e. StopsOpening w c (Rose (F.faults files.old) (F.faults files.new)) (why_of e)) }
        ensures reason { let given = given_of conditions.now in
            IfErr result (IsFileReason (world_under H.hash I.compiler given) (call_under I.value (F.file_map files.old) self.now given)
            (Rose (F.faults files.old) (F.faults files.new))) }
    {
        let extra_hashes = hash_all::<H, F>(alloc, files, &self.parsed_args.extra_hash_files)?;
        if !self.uses_cache(conditions) {
            return Ok(Opening {
                extra_hashes,
                key: None,
            });
        }
        match self.key_of_input::<H, F>(alloc, files, conditions, &extra_hashes) {
            Ok(key) => Ok(Opening { extra_hashes, key }),
            Err(error) => Err(error),
        }
    }

    // The preprocessor key, where the preprocessor cache is used.
    fn key_of_input<H: HashState, F: Files>(
        &self,
        alloc: Global,
        files: &mut F,
        conditions: &Conditions<'_>,
        extra_hashes: &[String],
    ) -> Result<Option<PreprocessorKey>, KeyError>
        ensures keeps { Keeps F.file_map F.faults F.is_quiet files.old files.new }
        ensures outcome { let given = given_of conditions.now in
            let w = world_under H.hash I.compiler given in
            let c = call_under I.value (F.file_map files.old) self.now given in
            MatchResult result (λ key. IsKeyOfInput w c (map string_bytes extra_hashes.now) (option_map text_and_digest key))
            (IsInputError w c (Rose (F.faults files.old) (F.faults files.new))) }
    {
        let input = join_path(alloc, conditions.cwd, &self.parsed_args.input)?;
        let digest = match self.input_digest::<H, F>(alloc, files, conditions, &input) {
            Ok(digest) => digest,
            Err(error) => return Err(error),
        };
        let Some(input_digest) = digest else {
            return Ok(None);
        };
        let digest = input_digest.as_str();
        let text = self.key_text::<H>(alloc, conditions, &input, extra_hashes, digest)?;
        Ok(Some(PreprocessorKey { text, input_digest }))
    }

    // The recorded digest of the input at this path, if it has one.
    fn input_digest<H: HashState, F: Files>(
        &self,
        alloc: Global,
        files: &mut F,
        conditions: &Conditions<'_>,
        input: &[u8],
    ) -> Result<Option<String>, KeyError>
        ensures keeps { Keeps F.file_map F.faults F.is_quiet files.old files.new }
        ensures outcome { let given = given_of conditions.now in
            let w = world_under H.hash I.compiler given in
            let c = call_under I.value (F.file_map files.old) self.now given in
            input.now ≡ input_path c → MatchResult result (λ digest. IsInputDigest w c (option_map string_bytes digest))
            (IsInputError w c (Rose (F.faults files.old) (F.faults files.new))) }
    {
        let (moment, zone) = (conditions.moment, conditions.zone);
        let (vars, config) = (conditions.vars, conditions.config);
        match recorded_digest::<H, F>(alloc, files, input, moment, zone, vars, config) {
            Ok(digest) => Ok(digest),
            Err(error) => Err(key_error_of(error)),
        }
    }

    // The text of the preprocessor key, by the path of the input, the hex digests of the extra files and the
    // recorded digest of the input.
    fn key_text<H: HashState>(
        &self,
        alloc: Global,
        conditions: &Conditions<'_>,
        input: &[u8],
        extra_hashes: &[String],
        recorded: &str,
    ) -> Result<String, AllocError>
        ensures { let given = given_of conditions.now in
            let w = world_under H.hash I.compiler given in
            IfOk result (λ text. string_bytes text
            ≡ preprocessor_key H.hash (request_parts w (request_under I.value self.now given) input.now) (map string_bytes extra_hashes.now) recorded.now) }
    {
        let args = &self.parsed_args;
        let request = PreprocessorKeyRequest {
            compiler_digest: self.executable_digest.as_str(),
            plusplus: self.compiler.plusplus(),
            language: args.language,
            multiarch: args.is_multiarch(),
            preprocessor_args: &args.preprocessor_args,
            arch_args: &args.arch_args,
            common_args: &args.common_args,
            assembler_digest: self.assembler_digest(),
            env_vars: conditions.vars,
            input_file: input,
            directory: hashed_directory(conditions.config, conditions.cwd),
        };
        match request.compute::<H>(alloc, extra_hashes, recorded) {
            Ok(text) => Ok(text),
            Err(_) => Err(AllocError),
        }
    }
}
