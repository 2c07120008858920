//! Computing a key without the store.
ghost use Rattle.std.specs.Prelude.{◌≡◌, IfErr, IfOk, map, string_bytes};
ghost use Rattle.cck_digest.specs.Digest.{digest_text};
ghost use Rattle.cck_files.specs.Calls.{Keeps, Rose};
ghost use Rattle.cck_util.specs.Key.{material};
ghost use Rattle.cck_hasher.specs.Conditions.{call_under, given_of, request_under, world_under};
ghost use Rattle.cck_hasher.specs.Keys.{plain_parts};
ghost use Rattle.cck_hasher.specs.Making.{IsPreprocessed, made_of};
ghost use Rattle.cck_hasher.specs.Opening.{IsOpening};
ghost use Rattle.cck_hasher.specs.Reasons.{IsFileReason};
ghost use Rattle.cck_hasher.specs.Step.{Makes};

use super::CCompilerHasher;
use super::opening::Opening;
use super::storing::put_result;
use crate::conditions::Conditions;
use crate::errors::{input_error, text_error};
use crate::included::included_of;
use crate::{Walk, process_preprocessed_file};
use cck_compiler::{CCompilerImpl, KeyError, push_copies};
use cck_digest::HashState;
use cck_files::{Files, read_contents};
use cck_path::join_path;
use cck_util::{HashKeyParams, PreprocessorStore};
use std::alloc::{AllocError, Global};

/// An input that was preprocessed, and what its key and the entry of that key are made of.
#[derive(Clone, Copy)]
pub(crate) struct PreprocessedInput<'a> {
    /// The path of the input, joined to the working directory.
    pub(crate) path: &'a [u8],
    /// The preprocessor key.
    pub(crate) key: &'a str,
    /// The hex digests of the extra files, in their order.
    pub(crate) extra_hashes: &'a [String],
    /// The preprocessed text.
    pub(crate) text: &'a [u8],
}

impl<I: CCompilerImpl> CCompilerHasher<I> {
    /// Computes the key, and puts an entry of it if one can be made.
    pub(crate) fn make<H: HashState, F: Files, S: PreprocessorStore>(
        &self,
        alloc: Global,
        files: &mut F,
        store: &mut S,
        opening: &Opening,
        conditions: &Conditions<'_>,
    ) -> Result<String, KeyError>
        requires { let given = given_of conditions.now in
            IsOpening (world_under H.hash I.compiler given) (call_under I.value (F.file_map files.old) self.now given) opening.now }
        ensures keeps { Keeps F.file_map F.faults F.is_quiet files.old files.new }
        ensures makes { let given = given_of conditions.now in
            Makes (world_under H.hash I.compiler given) S.store (call_under I.value (F.file_map files.old) self.now given)
            (Rose (F.faults files.old) (F.faults files.new)) store.old (made_of result) store.new }
        ensures reason { let given = given_of conditions.now in
            IfErr result (IsFileReason (world_under H.hash I.compiler given) (call_under I.value (F.file_map files.old) self.now given)
            (Rose (F.faults files.old) (F.faults files.new))) }
    {
        let input = join_path(alloc, conditions.cwd, &self.parsed_args.input)?;
        if !self.parsed_args.language.needs_c_preprocessing() {
            let text = match read_contents(alloc, files, &input) {
                Ok(text) => text,
                Err(error) => return Err(input_error(error)),
            };
            return Ok(self.plain_key::<H>(alloc, &opening.extra_hashes, conditions, &text)?);
        }
        let text = match self.compiler.preprocess(
            alloc,
            files,
            &self.executable,
            &self.parsed_args,
            conditions.cwd,
            conditions.vars,
            conditions.moment,
        ) {
            Ok(text) => text,
            Err(error) => return Err(text_error(error)),
        };
        let Some(key) = &opening.key else {
            return Ok(self.plain_key::<H>(alloc, &opening.extra_hashes, conditions, &text)?);
        };
        let input = PreprocessedInput {
            path: &input,
            key: key.text.as_str(),
            extra_hashes: &opening.extra_hashes,
            text: &text,
        };
        self.walk_and_put::<H, F, S>(alloc, files, store, conditions, &input)
    }

    // The plain key for a text.
    fn plain_key<H: HashState>(
        &self,
        alloc: Global,
        extra_hashes: &[String],
        conditions: &Conditions<'_>,
        text: &[u8],
    ) -> Result<String, AllocError>
        ensures { let given = given_of conditions.now in
            let w = world_under H.hash I.compiler given in
            IfOk result (λ key. string_bytes key
            ≡ digest_text H.hash (material (plain_parts w (request_under I.value self.now given) (map string_bytes extra_hashes.now) text.now))) }
    {
        let args = &self.parsed_args;
        let mut arguments = Vec::new(alloc);
        push_copies(alloc, &mut arguments, &args.common_args)?;
        push_copies(alloc, &mut arguments, &args.arch_args)?;
        let params = HashKeyParams::new(
            self.executable_digest.as_str(),
            args.language,
            &arguments,
            text,
        )
        .with_extra_hashes(extra_hashes)
        .with_env_vars(conditions.vars)
        .with_plusplus(self.compiler.plusplus())
        .with_basedirs(conditions.basedirs)
        .with_assembler_digest(self.assembler_digest());
        match params.compute::<H>(alloc) {
            Ok(key) => Ok(key),
            Err(_) => Err(AllocError),
        }
    }

    // The key of an input that was preprocessed. The walk judges its text; if it accepts the text
    // and records files, the entry of the key is put.
    fn walk_and_put<H: HashState, F: Files, S: PreprocessorStore>(
        &self,
        alloc: Global,
        files: &mut F,
        store: &mut S,
        conditions: &Conditions<'_>,
        input: &PreprocessedInput<'_>,
    ) -> Result<String, KeyError>
        requires { let given = given_of conditions.now in
            IsPreprocessed (world_under H.hash I.compiler given) (call_under I.value (F.file_map files.old) self.now given) input.now }
        ensures keeps { Keeps F.file_map F.faults F.is_quiet files.old files.new }
        ensures makes { let given = given_of conditions.now in
            Makes (world_under H.hash I.compiler given) S.store (call_under I.value (F.file_map files.old) self.now given)
            (Rose (F.faults files.old) (F.faults files.new)) store.old (made_of result) store.new }
        ensures reason { let given = given_of conditions.now in
            IfErr result (IsFileReason (world_under H.hash I.compiler given) (call_under I.value (F.file_map files.old) self.now given)
            (Rose (F.faults files.old) (F.faults files.new))) }
    {
        let walk = process_preprocessed_file::<H, F>(
            alloc,
            files,
            input.path,
            conditions.cwd,
            input.text,
            conditions.config,
            conditions.moment,
            conditions.zone,
            conditions.vars,
        )?;
        let key = self.plain_key::<H>(alloc, input.extra_hashes, conditions, input.text)?;
        let records = match walk {
            Walk::Accepted(records) => records,
            Walk::Refused => return Ok(key),
        };
        let included = included_of(alloc, records)?;
        let included: &[(String, Vec<u8>)] = &included;
        if included.is_empty() {
            return Ok(key);
        }
        put_result(
            alloc,
            files,
            store,
            input.key,
            key.as_str(),
            included,
            conditions.moment,
        )?;
        Ok(key)
    }
}
