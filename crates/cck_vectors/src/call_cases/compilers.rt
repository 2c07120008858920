//! Compilers with their executables, and parsed command lines.
use crate::call_cases::fixed_compiler::FixedCompiler;
use crate::call_cases::request::GivenRequest;
use crate::call_cases::shown::{
    error_value, or_out_of_memory, write_arguments, write_word, write_words,
};
use crate::cases::{CaseError, Given, Value};
use c_cache_keys::{
    CCompiler, CCompilerHasher, CCompilerImpl, CCompilerKind, CompilerArguments, KeyError,
    ParsedArguments,
};
use cck_util::{MapFiles, Sha256State};
use std::alloc::Global;

#[derive(Clone, Copy)]
pub(crate) enum CompilerCall {
    New,
    Parse,
    ParsedFiles,
    ParsedShown,
    Copy,
    LanguageColorOutput,
    Archs,
    IsMultiarch,
    OutputPretty,
}

pub(crate) const CALLS: [(&str, CompilerCall); 9] = [
    ("new_compiler", CompilerCall::New),
    ("parse", CompilerCall::Parse),
    ("parsed_files", CompilerCall::ParsedFiles),
    ("parsed_shown", CompilerCall::ParsedShown),
    ("copy", CompilerCall::Copy),
    ("language_color_output", CompilerCall::LanguageColorOutput),
    ("archs", CompilerCall::Archs),
    ("is_multiarch", CompilerCall::IsMultiarch),
    ("output_pretty", CompilerCall::OutputPretty),
];

pub(crate) fn call<'a>(
    call: CompilerCall,
    request: &mut GivenRequest,
    given: &Given,
    files: &mut MapFiles,
) -> Result<Value<'a>, CaseError> {
    let alloc = request.alloc;
    let args = &request.hasher.parsed_args;
    match call {
        CompilerCall::New => new_compiler(request, files),
        CompilerCall::Parse => parse(request, given, files, false),
        CompilerCall::ParsedFiles => parse(request, given, files, true),
        CompilerCall::ParsedShown => parsed_shown(request, given),
        CompilerCall::Copy => copy(request),
        CompilerCall::LanguageColorOutput => language_color_output(request),
        CompilerCall::Archs => archs(alloc, args),
        CompilerCall::IsMultiarch => Ok(Value::Flag(args.is_multiarch())),
        CompilerCall::OutputPretty => output_pretty(alloc, args),
    }
}

// The family of the compiler and the hex digest of its executable.
fn new_compiler<'a>(request: &GivenRequest, files: &mut MapFiles) -> Result<Value<'a>, CaseError> {
    let alloc = request.alloc;
    let copy = or_out_of_memory(made_compiler(request, files)?.copy(alloc))?;
    kind_and_digest(alloc, copy.kind(), &copy.executable_digest)
}

fn made_compiler(
    request: &GivenRequest,
    files: &mut MapFiles,
) -> Result<CCompiler<FixedCompiler>, CaseError> {
    let alloc = request.alloc;
    let executable = request.hasher.executable.to_vec(alloc)?;
    let compiler = or_out_of_memory(request.hasher.compiler.copy(alloc))?;
    let made = CCompiler::new::<Sha256State, MapFiles>(alloc, compiler, executable, files);
    Ok(made?)
}

fn kind_and_digest<'a>(
    alloc: Global,
    kind: CCompilerKind,
    digest: &str,
) -> Result<Value<'a>, CaseError> {
    Ok(Value::Text(format!(in alloc; "{kind:?} {digest}")?))
}

// The compiler that parses each command line into the arguments that are given.
fn compiler_of(request: &mut GivenRequest) -> Result<CCompiler<FixedCompiler>, KeyError> {
    let alloc = request.alloc;
    request.hasher.compiler.parsed = request.hasher.parsed_args.copy(alloc)?;
    let executable = request.hasher.executable.to_vec(alloc)?;
    let executable_digest = String::from_str(alloc, &request.hasher.executable_digest)?;
    Ok(CCompiler {
        compiler: request.hasher.compiler.copy(alloc)?,
        executable,
        executable_digest,
    })
}

// What a compiler of its own, which is then freed, parses the command line as.
fn parsed(
    request: &mut GivenRequest,
    given: &Given,
    files: &mut MapFiles,
) -> Result<CompilerArguments<CCompilerHasher<FixedCompiler>>, KeyError> {
    let compiler = compiler_of(request)?;
    compiler.parse_arguments::<MapFiles>(
        request.alloc,
        files,
        &given.arguments,
        &request.cwd,
        &given.variables,
    )
}

// What the command line is parsed as: all that it says, or the extra files alone.
fn parse<'a>(
    request: &mut GivenRequest,
    given: &Given,
    files: &mut MapFiles,
    files_alone: bool,
) -> Result<Value<'a>, CaseError> {
    let alloc = request.alloc;
    match parsed(request, given, files) {
        Ok(CompilerArguments::Ok(hasher)) => parsed_value(alloc, &hasher, files_alone),
        Ok(CompilerArguments::CannotCache(reason, detail)) => {
            cannot_cache_value(alloc, reason, &detail)
        }
        Ok(CompilerArguments::NotCompilation) => Ok(Value::Word("no compilation")),
        Err(error) => error_value(alloc, error),
    }
}

fn cannot_cache_value<'a>(
    alloc: Global,
    reason: &str,
    detail: &Option<String>,
) -> Result<Value<'a>, CaseError> {
    Ok(Value::Text(format!(in alloc; "cannot cache {reason} {detail:?}")?))
}

fn parsed_value<'a>(
    alloc: Global,
    hasher: &CCompilerHasher<FixedCompiler>,
    files_alone: bool,
) -> Result<Value<'a>, CaseError> {
    let mut out = Vec::new(alloc);
    if files_alone {
        out.extend_from_slice(b"files")?;
        write_words(&mut out, &hasher.parsed_args.extra_hash_files)?;
    } else {
        write_hasher(alloc, &mut out, hasher)?;
    }
    Ok(Value::Bytes(out))
}

fn write_hasher(
    alloc: Global,
    out: &mut Vec<u8>,
    hasher: &CCompilerHasher<FixedCompiler>,
) -> Result<(), CaseError> {
    out.extend_from_slice(b"compilation ")?;
    out.extend_from_slice(&hasher.executable)?;
    out.push(b' ')?;
    out.extend_from_slice(hasher.executable_digest.as_bytes())?;
    write_arguments(alloc, out, &hasher.parsed_args)
}

// What the compiler itself says of the command line, as `Debug` prints it.
fn parsed_shown<'a>(request: &mut GivenRequest, given: &Given) -> Result<Value<'a>, CaseError> {
    let alloc = request.alloc;
    let parsed = or_out_of_memory(parsed_itself(request, given))?;
    Ok(Value::Text(format!(in alloc; "{parsed:?}")?))
}

fn parsed_itself(
    request: &mut GivenRequest,
    given: &Given,
) -> Result<CompilerArguments<ParsedArguments>, KeyError> {
    let compiler = compiler_of(request)?;
    compiler.compiler.parse_arguments(
        request.alloc,
        &given.arguments,
        &request.cwd,
        &given.variables,
    )
}

// All that a copy of the compilation says.
fn copy<'a>(request: &GivenRequest) -> Result<Value<'a>, CaseError> {
    let copy = or_out_of_memory(request.hasher.copy(request.alloc))?;
    parsed_value(request.alloc, &copy, false)
}

// The language, the color mode and the name of the output of the compilation.
fn language_color_output<'a>(request: &GivenRequest) -> Result<Value<'a>, CaseError> {
    let alloc = request.alloc;
    let name = or_out_of_memory(request.hasher.output_pretty(alloc))?;
    let (language, color) = (request.hasher.language(), request.hasher.color_mode());
    Ok(Value::Text(format!(in alloc; "{language:?} {color:?} {name}")?))
}

fn output_pretty<'a>(alloc: Global, args: &ParsedArguments) -> Result<Value<'a>, CaseError> {
    Ok(Value::Text(or_out_of_memory(args.output_pretty(alloc))?))
}

fn archs<'a>(alloc: Global, args: &ParsedArguments) -> Result<Value<'a>, CaseError> {
    let archs = or_out_of_memory(args.archs(alloc))?;
    let mut out = Vec::new(alloc);
    out.extend_from_slice(b"archs")?;
    for arch in &archs {
        out.push(b' ')?;
        write_word(&mut out, arch)?;
    }
    Ok(Value::Bytes(out))
}
