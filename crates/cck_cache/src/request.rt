//! The compilation of a request.
ghost use Rattle.std.specs.Prelude.{◌≡◌, ◌&&◌, ◌++◌, ◌∷◌, [], Bool, IfOk, OnOk, flat_map, string_bytes};
ghost use Rattle.std.specs.List.{after_first, before_first, slice_split};
ghost use Rattle.std.specs.Option.{option_map};
ghost use Rattle.cck_cache_rules.specs.Base.{word_lists};
ghost use Rattle.cck_cache.specs.Input.{IsInput};
ghost use Rattle.cck_cache.specs.Request.{AreKeyed, HasPreprocessorKey, IsCompilerDigest, IsHasher, IsRequest, given_arguments, compiles_plusplus, is_clang, is_colon, is_plusplus, kind_of, language_of, other_program, programs_for, proper_program, request_words};
ghost use Rattle.cck_cache_files.specs.declared.request.Request as words;
ghost use Rattle.cck_cache_options.specs.Call.{call_of};
ghost use Rattle.cck_compiler.specs.Seen.{arguments_of};
ghost use Rattle.cck_path.specs.Bytes.{lists_of};

use crate::environment::Environment;
use crate::store::store_in;
use anyhow::{Context, Result};
use c_cache_keys::{
    CCompilerHasher, CCompilerKind, ExternalCompiler, ParsedArguments, SnapshotRequest,
    preprocessor_key,
};
use cck_cache_files::{Request, compiler_digest, shared_compiler_digest};
use cck_cache_options::{Call, is_assembler, is_cplusplus};
use cck_cache_rules::{Words, base_of};
use cck_compiler::copy_lists;
use cck_files::MapFiles;
use cck_path::Timestamp;
use cck_util::{Language, Sha256State};
use std::alloc::{AllocError, Global};
use std::rt::Files;

/// The words of a request that its base directory depends on. Definitions of macros are none: the text shows those
/// that count.
pub fn base_words<'a>(request: &'a Request<'_>) -> Words<'a>
    ensures { word_lists result ≡ request_words request.now }
{
    Words {
        base: request.base,
        directory: request.directory,
        arguments: &request.arguments,
    }
}

/// Appends an argument: a name and its value.
///
/// The error is lack of memory.
pub fn push_argument(
    alloc: Global,
    all: &mut Vec<Vec<u8>>,
    name: &[u8],
    value: &[u8],
) -> Result<(), AllocError>
    ensures { OnOk result
        (lists_of all.new.items ≡ lists_of all.old.items ++ (name.now ++ value.now) ∷ []) }
{
    let mut argument = name.to_vec(alloc)?;
    argument.extend_from_slice(value)?;
    all.push(argument)?;
    Ok(())
}

// A copy of the arguments that define no macros, and after them the working directory and the compiler's
// variables. Debug information has the working directory, so it is part of each key. What is portable has its base
// directory there too, which its key is without.
fn keyed_arguments(
    alloc: Global,
    environment: &Environment<'_>,
    request: &Request<'_>,
) -> Result<Vec<Vec<u8>>, AllocError>
    ensures { IfOk result (λ all.
        AreKeyed (request_words request.now) environment.entry.now.compiler_variables.items (lists_of all.items)) }
{
    let mut all = copy_lists(alloc, &request.arguments)?;
    push_argument(alloc, &mut all, b"directory=", request.directory.as_bytes())?;
    push_argument(
        alloc,
        &mut all,
        b"variables=",
        &environment.compiler_variables,
    )?;
    if let Some(base) = base_of(&base_words(request)) {
        push_argument(alloc, &mut all, b"base=", base.as_bytes())?;
    }
    Ok(all)
}

// What is before the first colon of a text, or all.
fn before_colon(text: &str) -> &str
    ensures { result.now ≡ before_first is_colon text.now }
{
    match text.split_once(':') {
        Some((front, _)) => front,
        None => text,
    }
}

// What is after the first colon of a text, or nothing.
fn after_colon(text: &str) -> &str
    ensures { result.now ≡ after_first is_colon text.now }
{
    match text.split_once(':') {
        Some((_, rest)) => rest,
        None => "",
    }
}

// The second of these programs, which have colons between them: that which compiles.
fn proper_program(programs: &str) -> &str
    ensures { result.now ≡ proper_program programs.now }
{
    before_colon(after_colon(programs))
}

// Whether the compiler with these programs takes a source in C for one in C++.
fn is_plusplus(programs: &str) -> bool
    ensures { result ≡ is_plusplus programs.now }
{
    let program = proper_program(programs).as_bytes();
    program.ends_with(b"/cc1plus") || program.ends_with(b"/clang++")
}

// The end of the path of the program of gcc that compiles C++.
const PLUSPLUS: &[u8] = b"/cc1plus";

// Whether the compiler with these programs takes this input for one in C++.
fn compiles_plusplus(programs: &str, input: &[u8]) -> bool
    ensures { result ≡ compiles_plusplus programs.now input.now }
{
    is_plusplus(programs) || is_cplusplus(input)
}

// Appends a colon and a program, unless it is that of gcc for C++.
fn push_other(others: &mut String, program: &str) -> Result<(), AllocError>
    ensures { OnOk result
        (string_bytes others.new ≡ string_bytes others.old ++ other_program program.now) }
{
    if program.as_bytes().ends_with(PLUSPLUS) {
        return Ok(());
    }
    others.push_str(":")?;
    others.push_str(program)?;
    Ok(())
}

// A colon and a program for each of these, without that of gcc for C++.
fn other_programs(alloc: Global, programs: &str) -> Result<String, AllocError>
    ensures { IfOk result (λ others.
        string_bytes others ≡ flat_map other_program (slice_split is_colon programs.now)) }
{
    let mut others = String::new(alloc);
    for program in programs.split(':') {
        push_other(&mut others, program)?;
    }
    Ok(others)
}

/// The programs that a compilation of this input runs: those of its compiler, with colons between them, and that of gcc for
/// C++ only where the input is in C++.
///
/// The error is lack of memory.
pub fn programs_for(alloc: Global, programs: &str, input: &[u8]) -> Result<String, AllocError>
    ensures { IfOk result (λ text. string_bytes text ≡ programs_for programs.now input.now) }
{
    if compiles_plusplus(programs, input) {
        return String::from_str(alloc, programs);
    }
    let others = other_programs(alloc, programs)?;
    String::from_str(alloc, after_colon(others.as_str()))
}

/// Whether an option of a call says that the input is in C, and the compiler with these programs is one for C++: then
/// another program compiles.
pub fn is_foreign(asked: &Call<'_>, programs: &str) -> bool
    ensures { result ≡ ((call_of asked.now).as_c && is_plusplus programs.now) }
{
    asked.as_c && is_plusplus(programs)
}

/// Whether the compiler with these programs is clang, and not gcc.
pub fn is_clang(programs: &str) -> bool
    ensures { result ≡ is_clang programs.now }
{
    let program = proper_program(programs).as_bytes();
    program.ends_with(b"/clang") || program.ends_with(b"/clang++")
}

// The kind of the compiler with these programs.
fn kind_of(programs: &str) -> CCompilerKind
    ensures { result ≡ kind_of programs.now }
{
    if is_clang(programs) {
        CCompilerKind::Clang
    } else {
        CCompilerKind::Gcc
    }
}

// The language of the input of a request.
fn language_of(request: &Request<'_>) -> Language
    ensures { result ≡ language_of request.now }
{
    let input = request.input.as_bytes();
    if is_assembler(input) {
        Language::AssemblerToPreprocess
    } else if compiles_plusplus(request.compiler.as_str(), input) {
        Language::Cxx
    } else {
        Language::C
    }
}

// A parsed command line with this input of this language, these definitions of macros and these arguments, and
// nothing else.
fn parsed(
    alloc: Global,
    input: Vec<u8>,
    language: Language,
    definitions: Vec<Vec<u8>>,
    common_args: Vec<Vec<u8>>,
) -> ParsedArguments
    ensures { arguments_of result
        ≡ given_arguments input.items language (lists_of definitions.items) (lists_of common_args.items) }
{
    let mut arguments = ParsedArguments::new(alloc, input, language);
    arguments.preprocessor_args = definitions;
    arguments.common_args = common_args;
    arguments
}

// What the errors of programs say.
const PROGRAM: &str = "a program of the compiler";

// The digest of the programs of a request. The error names the store, or says that it is of a program.
fn digest_of<R: Files + AllocGlobal>(
    rt: &R,
    environment: &Environment<'_>,
    request: &Request<'_>,
) -> Result<String>
    ensures { IfOk result (λ digest.
        IsCompilerDigest request.now.digests (string_bytes request.now.compiler) (string_bytes digest)) }
{
    let programs = request.compiler.as_str();
    let Some(directory) = request.digests else {
        return Ok(compiler_digest(rt, programs).context(PROGRAM)?);
    };
    let store = store_in(rt, environment, directory)?;
    Ok(shared_compiler_digest(rt, &store, programs).context(PROGRAM)?)
}

/// The compilation of a request. The compiler's digest is also that of its version and its assembler.
///
/// The error is of a program of the compiler that can't be read, of a store of digests that can't be
/// opened, or lack of memory.
pub fn hasher_of<R: Files + AllocGlobal>(
    rt: &R,
    environment: &Environment<'_>,
    request: &Request<'_>,
) -> Result<CCompilerHasher<ExternalCompiler>>
    ensures { IfOk result (IsHasher environment.entry.now request.now) }
{
    let alloc = rt.alloc();
    let executable_digest = digest_of(rt, environment, request)?;
    let input = request.input.as_bytes().to_vec(alloc)?;
    let definitions = copy_lists(alloc, &request.definitions)?;
    let arguments = keyed_arguments(alloc, environment, request)?;
    Ok(CCompilerHasher {
        compiler: ExternalCompiler {
            kind: kind_of(request.compiler.as_str()),
            plusplus: is_plusplus(request.compiler.as_str()),
            version: None,
            assembler_digest: None,
        },
        executable: Vec::new(alloc),
        executable_digest,
        parsed_args: parsed(alloc, input, language_of(request), definitions, arguments),
    })
}

/// The request of a compilation over a snapshot, at this time. These base directories are cut out of
/// what is hashed for the key of the object.
pub fn snapshot_request<'a>(
    environment: &'a Environment<'a>,
    hasher: &'a CCompilerHasher<ExternalCompiler>,
    directory: &'a str,
    moment: Timestamp,
    basedirs: &'a [Vec<u8>],
) -> SnapshotRequest<'a>
    ensures { (request : words.Request) → request.directory.now ≡ directory.now
        → IsHasher environment.entry.now request hasher.now
        → IsRequest environment.entry.now request moment (lists_of basedirs.now) result }
{
    SnapshotRequest {
        hasher,
        cwd: directory.as_bytes(),
        vars: &environment.variables,
        moment,
        zone: &environment.zone,
        config: environment.config(),
        basedirs,
    }
}

// The preprocessor key of a request of this compilation over a snapshot.
fn key_by(
    alloc: Global,
    environment: &Environment<'_>,
    request: &Request<'_>,
    hasher: &CCompilerHasher<ExternalCompiler>,
    files: &mut MapFiles,
) -> Result<Option<String>>
    ensures { IfOk result (λ key. IsHasher environment.entry.now request.now hasher.now → IsInput request.now files.old.files
        → HasPreprocessorKey environment.entry.now request.now (option_map string_bytes key)) }
{
    let (directory, now) = (request.directory, environment.now);
    let asked = snapshot_request(environment, hasher, directory, now, &[]);
    match preprocessor_key::<Sha256State, MapFiles>(alloc, files, &asked)? {
        Some(key) => Ok(Some(key.text)),
        None => Ok(None),
    }
}

/// The preprocessor key of a request over a snapshot of its input. `None` where it has none.
///
/// The error is of an input that is no regular file that can be read, of a program of the compiler that
/// can't be read, of a store of digests that can't be opened, or lack of memory.
pub fn request_key<R: Files + AllocGlobal>(
    rt: &R,
    environment: &Environment<'_>,
    request: &Request<'_>,
    files: &mut MapFiles,
) -> Result<Option<String>>
    ensures { IfOk result (λ key. IsInput request.now files.old.files
        → HasPreprocessorKey environment.entry.now request.now (option_map string_bytes key)) }
{
    let hasher = hasher_of(rt, environment, request)?;
    key_by(rt.alloc(), environment, request, &hasher, files)
}
