//! The compiler of scripts.
use crate::cases::{CaseError, GivenFiles, words_of};
use crate::script_cases::commands::{write_bracketed, write_list};
use cck_command::MiniCompiler;
use cck_compiler::{CCompilerImpl, ColorMode, CompilerArguments, ParsedArguments, PreprocessError};
use cck_util::UtilError;
use std::alloc::{AllocError, Global};

#[derive(Clone, Copy)]
pub(crate) enum CompilerCall {
    Facts,
    CommandLine,
    Preprocess,
}

pub(crate) const CALLS: [(&str, CompilerCall); 3] = [
    ("compiler", CompilerCall::Facts),
    ("command_line", CompilerCall::CommandLine),
    ("preprocess", CompilerCall::Preprocess),
];

/// Makes a call on a copy of the compiler, over the command line of this text, and writes its
/// result.
pub(crate) fn write(
    call: CompilerCall,
    out: &mut Vec<u8>,
    given_files: &mut GivenFiles,
    cwd: &[u8],
    rest: &str,
) -> Result<(), CaseError> {
    let alloc = given_files.alloc;
    let made = MiniCompiler {
        zone_offset: given_files.zone,
    };
    let Ok(compiler) = made.copy(alloc) else {
        return Err(CaseError::Util(UtilError::Memory));
    };
    if let CompilerCall::Facts = call {
        return Ok(write_facts(alloc, out, &compiler)?);
    }
    let arguments = parsed_as(alloc, &compiler, cwd, rest)?;
    write_arguments(call, out, given_files, &compiler, &arguments, cwd)
}

// What the compiler says of the command line of this text.
fn parsed_as(
    alloc: Global,
    compiler: &MiniCompiler,
    cwd: &[u8],
    rest: &str,
) -> Result<CompilerArguments<ParsedArguments>, CaseError> {
    let words = words_of(alloc, rest)?;
    match compiler.parse_arguments(alloc, &words, cwd, &[]) {
        Ok(arguments) => Ok(arguments),
        Err(_) => Err(CaseError::Util(UtilError::Memory)),
    }
}

// Writes a command line, or what is printed for it where it is a compilation.
fn write_arguments(
    call: CompilerCall,
    out: &mut Vec<u8>,
    given_files: &mut GivenFiles,
    compiler: &MiniCompiler,
    arguments: &CompilerArguments<ParsedArguments>,
    cwd: &[u8],
) -> Result<(), CaseError> {
    let parsed = match arguments {
        CompilerArguments::Ok(parsed) => parsed,
        CompilerArguments::NotCompilation => return Ok(out.extend_from_slice(b"NotCompilation")?),
        CompilerArguments::CannotCache(_, _) => return Ok(out.extend_from_slice(b"CannotCache")?),
    };
    if let CompilerCall::Preprocess = call {
        return write_printed(out, given_files, compiler, parsed, cwd);
    }
    Ok(write_parsed(given_files.alloc, out, parsed)?)
}

fn write_facts(
    alloc: Global,
    out: &mut Vec<u8>,
    compiler: &MiniCompiler,
) -> Result<(), AllocError> {
    let (kind, plusplus) = (compiler.kind(), compiler.plusplus());
    let text = format!(in alloc; "{kind:?}, plusplus {plusplus}")?;
    out.extend_from_slice(text.as_bytes())?;
    write_optional(alloc, out, ", version ", compiler.version())?;
    write_optional(alloc, out, ", assembler ", compiler.assembler_digest())
}

fn write_optional(
    alloc: Global,
    out: &mut Vec<u8>,
    text: &str,
    value: Option<&str>,
) -> Result<(), AllocError> {
    out.extend_from_slice(format!(in alloc; "{text}{value:?}")?.as_bytes())
}

fn write_parsed(
    alloc: Global,
    out: &mut Vec<u8>,
    parsed: &ParsedArguments,
) -> Result<(), AllocError> {
    out.extend_from_slice(b"input")?;
    write_bracketed(out, &parsed.input)?;
    out.extend_from_slice(b"\nlanguage ")?;
    out.extend_from_slice(parsed.language.as_str().as_bytes())?;
    out.extend_from_slice(b"\ncommon")?;
    write_list(out, &parsed.common_args)?;
    write_outputs(alloc, out, parsed)?;
    if has_others(parsed) {
        out.extend_from_slice(b"\nothers")?;
    }
    Ok(())
}

fn write_outputs(
    alloc: Global,
    out: &mut Vec<u8>,
    parsed: &ParsedArguments,
) -> Result<(), AllocError> {
    for (name, output) in parsed.outputs.iter() {
        out.extend_from_slice(format!(in alloc; "\noutput {name}")?.as_bytes())?;
        write_bracketed(out, &output.path)?;
    }
    Ok(())
}

// Whether a part of the command line has something that isn't written.
fn has_others(parsed: &ParsedArguments) -> bool {
    has_other_lists(parsed)
        || has_flags(parsed)
        || parsed.depfile.is_some()
        || parsed.too_hard_for_preprocessor_cache_mode.is_some()
        || parsed.color_mode != ColorMode::Auto
}

fn has_other_lists(parsed: &ParsedArguments) -> bool {
    !parsed.compilation_flag.is_empty()
        || !parsed.dependency_args.is_empty()
        || !parsed.preprocessor_args.is_empty()
        || !parsed.arch_args.is_empty()
        || !parsed.unhashed_args.is_empty()
        || !parsed.extra_dist_files.is_empty()
        || !parsed.extra_hash_files.is_empty()
}

fn has_flags(parsed: &ParsedArguments) -> bool {
    parsed.double_dash_input
        || parsed.uses_external_assembler
        || parsed.msvc_show_includes
        || parsed.msvc_explicit_language
        || parsed.profile_generate
        || parsed.suppress_rewrite_includes_only
}

// Writes what the preprocessor prints.
fn write_printed(
    out: &mut Vec<u8>,
    given_files: &mut GivenFiles,
    compiler: &MiniCompiler,
    parsed: &ParsedArguments,
    cwd: &[u8],
) -> Result<(), CaseError> {
    match printed_of(given_files, compiler, parsed, cwd) {
        Ok(text) => Ok(out.extend_from_slice(&text)?),
        Err(PreprocessError::Memory) => Err(CaseError::Util(UtilError::Memory)),
        Err(error) => Ok(write_error(given_files.alloc, out, error)?),
    }
}

fn printed_of(
    given_files: &mut GivenFiles,
    compiler: &MiniCompiler,
    parsed: &ParsedArguments,
    cwd: &[u8],
) -> Result<Vec<u8>, PreprocessError> {
    let (alloc, moment) = (given_files.alloc, given_files.moment);
    let files = &mut given_files.files;
    compiler.preprocess(alloc, files, b"/cc", parsed, cwd, &[], moment)
}

fn write_error(alloc: Global, out: &mut Vec<u8>, error: PreprocessError) -> Result<(), AllocError> {
    out.extend_from_slice(format!(in alloc; "error {error:?}")?.as_bytes())
}
