//! The key of one compilation.
ghost use Rattle.std.specs.Prelude.{◌≡◌, IfErr, IfOk, IsOkUnless, string_bytes};
ghost use Rattle.cck_compiler.specs.Seen.{arguments_of};
ghost use Rattle.cck_compiler.specs.Arguments.{output_name};
ghost use Rattle.cck_path.specs.Bytes.{lists_of, variables_of};
ghost use Rattle.cck_files.specs.Calls.{Keeps, Rose};
ghost use Rattle.jiff.specs.Words.{plain_zone};
ghost use Rattle.cck_hasher.specs.Conditions.{call_under, given_by, given_of, world_under};
ghost use Rattle.cck_hasher.specs.Hasher.{toolchain_key};
ghost use Rattle.cck_hasher.specs.Opening.{IsPreprocessorKey};
ghost use Rattle.cck_hasher.specs.Reasons.{IsReason};
ghost use Rattle.cck_hasher.specs.Seen.{result_of, why_of};
ghost use Rattle.cck_hasher.specs.Step.{Step, StopsOpening};

mod asking;
mod making;
mod opening;
mod storing;

use crate::call::{CacheControl, HashResult};
use crate::conditions::Conditions;
use asking::find;
use bstr::ByteSlice;
use cck_compiler::{CCompilerImpl, ColorMode, KeyError, ParsedArguments};
use cck_digest::HashState;
use cck_files::Files;
use cck_include::PreprocessorCacheModeConfig;
use cck_path::Timestamp;
use cck_util::{Language, PreprocessorStore};
use jiff::tz::TimeZone;
pub use opening::PreprocessorKey;
use std::alloc::{AllocError, Global};

/// A compilation whose keys can be computed: a compiler and a parsed command line.
///
/// Upstream's `compiler::c::CCompilerHasher`.
pub struct CCompilerHasher<I> {
    /// The compiler.
    pub compiler: I,
    /// The path of its executable.
    pub executable: Vec<u8>,
    /// The hex digest of its executable.
    pub executable_digest: String,
    /// The parsed command line.
    pub parsed_args: ParsedArguments,
}

impl<I: Drop> Drop for CCompilerHasher<I> {
    fn drop(self) {
        let CCompilerHasher {
            compiler: _,
            executable: _,
            executable_digest: _,
            parsed_args: _,
        } = self;
    }
}

impl<I: CCompilerImpl> CCompilerHasher<I> {
    /// Returns the key of the compilation, from the store or computed.
    ///
    /// First the digests of the extra files are computed, then the preprocessor key. There is one
    /// if the language is preprocessed, the options and the variable `SCCACHE_DIRECT` allow the
    /// cache, the arguments don't forbid it, and the input has a recorded digest. Unless `control`
    /// forbids it, the store is then asked once under that key. If it returns an entry with a key
    /// whose included files are all unchanged, the greatest such key is returned. This look-up has
    /// no access to the compiler, so it can't preprocess.
    ///
    /// Otherwise the input is preprocessed, or read where its language needs no preprocessor. Its
    /// text, the compiler and the arguments give the key. If there is a preprocessor key, and the
    /// walk accepts the text and records files, an entry that has this result alone is put into the
    /// store. Whether the put succeeds doesn't change the result.
    ///
    /// Errors:
    ///
    /// - [`KeyError::Extra`]: an extra file has no digest.
    /// - [`KeyError::Input`]: the input is no regular file, and the preprocessor cache is used or
    ///   no preprocessor is needed.
    /// - [`KeyError::Store`]: the store failed.
    /// - [`KeyError::Entry`]: what the store returned is no entry.
    /// - [`KeyError::Preprocess`]: there is no preprocessed text.
    /// - [`KeyError::Marker`]: there is a preprocessor key, and the text has a malformed line
    ///   marker before anything else stops the walk.
    /// - [`KeyError::Memory`]: memory is lacking.
    ///
    /// A fault of the files can also cause the errors `Extra`, `Input` and `Preprocess`, and can
    /// keep an entry from being used or put. A call that returns an error puts nothing.
    ///
    /// Upstream's `CCompilerHasher::generate_hash_key`.
    pub fn generate_hash_key<H: HashState, F: Files, S: PreprocessorStore>(
        &self,
        alloc: Global,
        files: &mut F,
        store: &mut S,
        cwd: &[u8],
        vars: &[(Vec<u8>, Vec<u8>)],
        moment: Timestamp,
        zone: &TimeZone<'_>,
        config: PreprocessorCacheModeConfig,
        basedirs: &[Vec<u8>],
        control: CacheControl,
    ) -> Result<HashResult, KeyError>
        ensures keeps { Keeps F.file_map F.faults F.is_quiet files.old files.new }
        ensures step { let given = given_by cwd.now (variables_of vars.now) moment (plain_zone zone.now) config (lists_of basedirs.now) control in
            Step (world_under H.hash I.compiler given) S.store (call_under I.value (F.file_map files.old) self.now given)
            (Rose (F.faults files.old) (F.faults files.new)) store.old (result_of result) store.new }
        ensures reason { let given = given_by cwd.now (variables_of vars.now) moment (plain_zone zone.now) config (lists_of basedirs.now) control in
            IfErr result (IsReason (world_under H.hash I.compiler given) S.store (call_under I.value (F.file_map files.old) self.now given)
            (Rose (F.faults files.old) (F.faults files.new)) store.old store.new) }
        ensures toolchain { IfOk result (λ r. string_bytes r.weak_toolchain_key
            ≡ toolchain_key self.now.executable.items (string_bytes self.now.executable_digest)) }
    {
        let weak_toolchain_key = self.weak_toolchain_key(alloc)?;
        let conditions = Conditions {
            cwd,
            vars,
            moment,
            zone,
            config,
            basedirs,
            control,
        };
        let opening = self.open::<H, F>(alloc, files, &conditions)?;
        let found = find::<H, F, S>(alloc, files, store, &opening, &conditions)?;
        if let Some(key) = found {
            return Ok(HashResult {
                key,
                weak_toolchain_key,
                is_locally_preprocessed: false,
            });
        }
        let key = self.make::<H, F, S>(alloc, files, store, &opening, &conditions)?;
        Ok(HashResult {
            key,
            weak_toolchain_key,
            is_locally_preprocessed: true,
        })
    }

    /// Returns the preprocessor key of a call under these conditions, or `None`. No store is asked.
    ///
    /// There is none if the language of the input needs no preprocessor, the options, the arguments or
    /// the variable `SCCACHE_DIRECT` don't allow the preprocessor cache, or the input has no recorded
    /// digest. The control of the conditions decides nothing here.
    ///
    /// Errors:
    ///
    /// - [`KeyError::Extra`]: an extra file has no digest.
    /// - [`KeyError::Input`]: the input is no regular file, and the preprocessor cache is used.
    /// - [`KeyError::Memory`]: memory is lacking.
    ///
    /// A fault of the files can also cause `Extra` and `Input`.
    pub fn preprocessor_key<H: HashState, F: Files>(
        &self,
        alloc: Global,
        files: &mut F,
        conditions: &Conditions<'_>,
    ) -> Result<Option<PreprocessorKey>, KeyError>
        ensures keeps { Keeps F.file_map F.faults F.is_quiet files.old files.new }
        ensures key { let given = given_of conditions.now in
            IfOk result (IsPreprocessorKey (world_under H.hash I.compiler given) (call_under I.value (F.file_map files.old) self.now given)) }
        ensures errors { let given = given_of conditions.now in
            IfErr result (λ e. StopsOpening (world_under H.hash I.compiler given) (call_under I.value (F.file_map files.old) self.now given)
            (Rose (F.faults files.old) (F.faults files.new)) (why_of e)) }
    {
        match self.open::<H, F>(alloc, files, conditions) {
            Ok(opening) => Ok(opening.key),
            Err(error) => Err(error),
        }
    }

    /// The language of the input. It allocates no memory.
    pub fn language(&self) -> Language
        ensures { result ≡ self.now.parsed_args.language }
    {
        self.parsed_args.language
    }

    /// Whether diagnostics are coloured. It allocates no memory.
    pub fn color_mode(&self) -> ColorMode
        ensures { result ≡ self.now.parsed_args.color_mode }
    {
        self.parsed_args.color_mode
    }

    /// Returns the file name of the output `obj` for display, or `Unknown filename`, as
    /// [`ParsedArguments::output_pretty`] does.
    ///
    /// Upstream's `CCompilerHasher::output_pretty`. The only error is [`KeyError::Memory`].
    pub fn output_pretty(&self, alloc: Global) -> Result<String, KeyError>
        ensures name { IfOk result (λ name.
            string_bytes name ≡ output_name (arguments_of self.now.parsed_args)) }
        ensures errors { IsOkUnless result KeyError.Memory }
    {
        self.parsed_args.output_pretty(alloc)
    }

    /// A copy of the compilation, in memory of its own.
    ///
    /// The only error is [`KeyError::Memory`].
    pub fn copy(&self, alloc: Global) -> Result<CCompilerHasher<I>, KeyError>
        ensures compiler { IfOk result (λ copy. I.value copy.compiler ≡ I.value self.now.compiler) }
        ensures executable { IfOk result (λ copy. copy.executable.items ≡ self.now.executable.items) }
        ensures digest { IfOk result (λ copy.
            string_bytes copy.executable_digest ≡ string_bytes self.now.executable_digest) }
        ensures arguments { IfOk result (λ copy.
            arguments_of copy.parsed_args ≡ arguments_of self.now.parsed_args) }
        ensures errors { IsOkUnless result KeyError.Memory }
    {
        let executable = self.executable.to_vec(alloc)?;
        let executable_digest = self.executable_digest.clone()?;
        let parsed_args = self.parsed_args.copy(alloc)?;
        Ok(CCompilerHasher {
            compiler: self.compiler.copy(alloc)?,
            executable,
            executable_digest,
            parsed_args,
        })
    }

    // The path of the executable with U+FFFD for what is not UTF-8, a `-`, and the hex digest of
    // the executable.
    #[tactic(auto, unfolding(crate::specs::Hasher::toolchain_key))]
    fn weak_toolchain_key(&self, alloc: Global) -> Result<String, AllocError>
        ensures { IfOk result (λ key. string_bytes key
            ≡ toolchain_key self.now.executable.items (string_bytes self.now.executable_digest)) }
    {
        let executable = self.executable.as_slice().to_str_lossy(alloc)?;
        let digest = self.executable_digest.as_str();
        Ok(format!(in alloc; "{executable}-{digest}")?)
    }
}
