//! The compiler of `run`.
ghost use Rattle.std.specs.Prelude.{◌≡◌, IfOk, IsOkUnless, map};
ghost use Rattle.cck_compiler.specs.Seen.{arguments_of, output_of};
ghost use Rattle.cck_path.specs.Bytes.{lists_of};
ghost use Rattle.cck_command.specs.MiniCompiler.{compilation_of, language_of, outputs as outputs_seen};

use crate::{PrintError, print_input};
use c_cache_keys::{
    ArtifactDescriptor, CCompilerImpl, CCompilerKind, CompilerArguments, KeyError, ParsedArguments,
    PreprocessError,
};
use cck_compiler::copy_lists;
use cck_files::Files;
use cck_path::Timestamp;
use cck_util::Language;
use std::alloc::Global;
use std::collections::BTreeMap;

/// A compiler whose preprocessor is [`print_input`].
///
/// It is of GCC's family, compiles C alone, and has neither a version nor an assembler of its own.
/// The first argument of a command line is its input, and is preprocessed already if it ends in
/// `.i`; all others are common arguments. Its output `obj` is `out.o`.
#[derive(Drop)]
pub struct MiniCompiler {
    /// The offset of the zone that it prints times in, in seconds east of UTC.
    pub zone_offset: i32,
}

impl CCompilerImpl for MiniCompiler {
    ghost use Rattle.std.specs.Prelude.{ℤ};
    ghost use Rattle.cck_command.specs.MiniCompiler.{mini_compiler};

    ghost Value = { ℤ };

    ghost value = { λ c. c.zone_offset };

    ghost compiler = { mini_compiler };

    fn kind(&self) -> CCompilerKind {
        CCompilerKind::Gcc
    }

    fn plusplus(&self) -> bool {
        false
    }

    fn version(&self) -> Option<&str> {
        None
    }

    fn assembler_digest(&self) -> Option<&str> {
        None
    }

    fn parse_arguments(
        &self,
        alloc: Global,
        arguments: &[Vec<u8>],
        _cwd: &[u8],
        _vars: &[(Vec<u8>, Vec<u8>)],
    ) -> Result<CompilerArguments<ParsedArguments>, KeyError> {
        let [input, common_args @ ..] = arguments else {
            return Ok(CompilerArguments::NotCompilation);
        };
        Ok(CompilerArguments::Ok(parsed_arguments(alloc, input, common_args)?))
    }

    fn preprocess<F: Files>(
        &self,
        alloc: Global,
        files: &mut F,
        _executable: &[u8],
        parsed_args: &ParsedArguments,
        cwd: &[u8],
        _vars: &[(Vec<u8>, Vec<u8>)],
        moment: Timestamp,
    ) -> Result<Vec<u8>, PreprocessError> {
        match print_input(
            alloc,
            files,
            self.zone_offset,
            moment,
            cwd,
            &parsed_args.input,
        ) {
            Ok(text) => Ok(text),
            Err(PrintError::Fault) => Err(PreprocessError::Fault),
            Err(PrintError::Failed) => Err(PreprocessError::Failed),
            Err(PrintError::Memory) => Err(PreprocessError::Memory),
        }
    }

    fn copy(&self, _alloc: Global) -> Result<MiniCompiler, KeyError> {
        Ok(MiniCompiler {
            zone_offset: self.zone_offset,
        })
    }
}

// The parsed form of a command line with this input and these arguments.
fn parsed_arguments(
    alloc: Global,
    input: &[u8],
    common_args: &[Vec<u8>],
) -> Result<ParsedArguments, KeyError>
    ensures value { IfOk result (λ parsed.
        arguments_of parsed ≡ compilation_of input.now (lists_of common_args.now)) }
    ensures errors { IsOkUnless result KeyError.Memory }
{
    let mut parsed = ParsedArguments::new(alloc, input.to_vec(alloc)?, language_of(input));
    parsed.outputs = one_output(alloc)?;
    parsed.common_args = copy_lists(alloc, common_args)?;
    Ok(parsed)
}

// The language of an input.
fn language_of(input: &[u8]) -> Language
    ensures { result ≡ language_of input.now }
{
    if input.ends_with(b".i") {
        Language::CPreprocessed
    } else {
        Language::C
    }
}

// The output `obj` alone.
fn one_output(alloc: Global) -> Result<BTreeMap<String, ArtifactDescriptor>, KeyError>
    ensures value { IfOk result (λ outputs.
        map output_of outputs.entries ≡ outputs_seen) }
    ensures errors { IsOkUnless result KeyError.Memory }
{
    let mut outputs = BTreeMap::new(alloc);
    let object = ArtifactDescriptor {
        path: b"out.o".to_vec(alloc)?,
        optional: false,
    };
    outputs.insert(String::from_str(alloc, "obj")?, object)?;
    Ok(outputs)
}
