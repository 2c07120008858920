//! The preprocessor key of a request whose input is a file.
ghost use Rattle.std.specs.Prelude.{◌≡◌, IsOkAnd, MatchResult, map, string_bytes};
ghost use Rattle.std.specs.Option.{option_map};
ghost use Rattle.cck_compiler.specs.PreprocessorKey.{RequestParts, hashed_directory, preprocessor_key};
ghost use Rattle.cck_files.specs.Calls.{Keeps, Rose};
ghost use Rattle.cck_files.specs.FileMap.{file_at};
ghost use Rattle.cck_include.specs.Errors.{IsIoError};
ghost use Rattle.cck_include.specs.Recorded.{recorded};
ghost use Rattle.cck_include.specs.Setting.{setting_in};
ghost use Rattle.cck_path.specs.Bytes.{lists_of, variables_of};
ghost use Rattle.cck_path.specs.Path.{components};
ghost use Rattle.cck_util.specs.Variables.{request_variables};
ghost use Rattle.jiff.specs.Words.{plain_zone};

use cck_compiler::{PreprocessorKeyRequest, hashed_directory};
use cck_digest::{Error, HashState};
use cck_files::Files;
use cck_include::{PreprocessorCacheModeConfig, recorded_digest};
use cck_path::Timestamp;
use cck_util::Language;
use jiff::tz::TimeZone;
use std::alloc::Global;

/// Returns the preprocessor key of a request, as [`PreprocessorKeyRequest::compute`] does, with the recorded
/// digest of the input. The working directory is part of the key material if
/// [`hash_working_directory`](PreprocessorCacheModeConfig::hash_working_directory) is on.
///
/// On success, returns `None` exactly if a regular file without a [recorded
/// digest](recorded_digest) is the input. The errors are [`Error::Io`] with
///
/// - [`NotFound`](cck_digest::FileError::NotFound) where there is no node at the input's path,
/// - [`OtherKind`](cck_digest::FileError::OtherKind) where the node at the input's path is no
///   regular file,
/// - [`Fault`](cck_digest::FileError::Fault) only where the count of faults rose,
///
/// and [`Error::Memory`].
///
/// Upstream's `preprocessor_cache::preprocessor_cache_entry_hash_key`.
pub fn preprocessor_cache_entry_hash_key<H: HashState, F: Files>(
    alloc: Global,
    compiler_digest: &str,
    language: Language,
    preprocessor_args: &[Vec<u8>],
    arch_args: &[Vec<u8>],
    common_args: &[Vec<u8>],
    extra_hashes: &[String],
    assembler_digest: Option<&str>,
    env_vars: &[(Vec<u8>, Vec<u8>)],
    input_file: &[u8],
    cwd: &[u8],
    plusplus: bool,
    multiarch: bool,
    config: PreprocessorCacheModeConfig,
    files: &mut F,
    moment: Timestamp,
    zone: &TimeZone<'_>,
) -> Result<Option<String>, Error>
    ensures keeps { Keeps F.file_map F.faults F.is_quiet files.old files.new }
    ensures outcome { let found = file_at (F.file_map files.old) (components input_file.now) in
        let parts : RequestParts = record {
          compiler_digest = compiler_digest.now;
          plusplus = plusplus;
          language = language;
          multiarch = multiarch;
          preprocessor_args = lists_of preprocessor_args.now;
          arch_args = lists_of arch_args.now;
          common_args = lists_of common_args.now;
          assembler_digest = option_map (λ d. d.now) assembler_digest.entry;
          variables = request_variables (variables_of env_vars.now);
          input_file = input_file.now;
          directory = hashed_directory config cwd.now;
        } in
        MatchResult result (λ key. IsOkAnd found (λ file. option_map string_bytes key
        ≡ option_map (preprocessor_key H.hash parts (map string_bytes extra_hashes.now))
        (recorded (setting_in H.hash config moment (plain_zone zone.now) env_vars.now) file)))
        (IsIoError found (Rose (F.faults files.old) (F.faults files.new))) }
{
    let recorded = recorded_digest::<H, F>(
        alloc, files, input_file, moment, zone, env_vars, config,
    )?;
    let Some(recorded) = recorded else {
        return Ok(None);
    };
    let request = PreprocessorKeyRequest {
        compiler_digest,
        plusplus,
        language,
        multiarch,
        preprocessor_args,
        arch_args,
        common_args,
        assembler_digest,
        env_vars,
        input_file,
        directory: hashed_directory(config, cwd),
    };
    match request.compute::<H>(alloc, extra_hashes, &recorded) {
        Ok(key) => Ok(Some(key)),
        Err(_) => Err(Error::Memory),
    }
}
