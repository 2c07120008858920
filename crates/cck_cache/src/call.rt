//! The compilation that a call of a compiler asks for, and the paths of its files.
ghost use Rattle.std.specs.Prelude.{◌≡◌, ◌++◌, IfOk, IsUtf8, MatchOption, OnOk, flat_map, string_bytes};
ghost use Rattle.std.specs.Option.{option_map};
ghost use Rattle.cck_cache.specs.Call.{AreDependencies, ArePaths, AreTexts, AreUtf8, HasNoPaths, IsCallRequest, IsOutput, call_lines, call_paths, counted_arguments, definitions_of, is_among, one_among};
ghost use Rattle.cck_cache_options.specs.Quote.{command};
ghost use Rattle.cck_cache_options.specs.Call.{call_of};
ghost use Rattle.cck_path.specs.Bytes.{lists_of};

use crate::request::push_argument;
use anyhow::Result;
use cck_cache_files::Request;
use cck_cache_options::{
    Call, Class, CompilerCall, Keyed, dependency_path, is_definition, macro_option, object_path,
    push_preprocessor_arguments, push_word,
};
use std::alloc::{AllocError, Global};
use std::io::Write;

/// The paths of a compilation, as its call has them or as the compiler chooses them.
#[derive(Drop)]
pub struct CallPaths<'a> {
    /// The input.
    pub input: &'a str,
    /// The object.
    pub output: String,
    /// The dependency file, if one is written.
    pub dependencies: Option<String>,
}

// The path of the object.
fn output_of(alloc: Global, asked: &Call<'_>, input: &[u8]) -> Result<Vec<u8>, AllocError>
    ensures { IfOk result (λ path. IsOutput (call_of asked.now).output input.now path.items) }
{
    match asked.output {
        Some(path) => path.to_vec(alloc),
        None => object_path(alloc, input),
    }
}

// The path of the dependency file of a call that writes one.
fn dependencies_of(
    alloc: Global,
    asked: &Call<'_>,
    output: &[u8],
) -> Result<Option<Vec<u8>>, AllocError>
    ensures { IfOk result (λ path.
        AreDependencies (call_of asked.now) output.now (option_map (λ bytes. bytes.items) path)) }
{
    match asked.dependency_file {
        Some(path) => Ok(Some(path.to_vec(alloc)?)),
        None if asked.depends => Ok(Some(dependency_path(alloc, output)?)),
        None => Ok(None),
    }
}

// A text of these bytes. `None` where they are not UTF-8.
fn text_of(bytes: Vec<u8>) -> Option<String>
    ensures { MatchOption result (¬ (IsUtf8 bytes.items)) (λ text. string_bytes text ≡ bytes.items) }
{
    match String::from_utf8(bytes) {
        Ok(text) => Some(text),
        Err(_) => None,
    }
}

// The texts of the paths of a call. `None` where one of them is not UTF-8.
fn texts_of<'a>(
    input: &'a [u8],
    output: Vec<u8>,
    dependencies: Option<Vec<u8>>,
) -> Option<CallPaths<'a>>
    ensures { MatchOption result
        (¬ (AreUtf8 input.now output.items (option_map (λ bytes. bytes.items) dependencies)))
        (AreTexts input.now output.items (option_map (λ bytes. bytes.items) dependencies)) }
{
    let Ok(input) = std::str::from_utf8(input) else {
        return None;
    };
    let output = text_of(output)?;
    let dependencies = match dependencies {
        Some(path) => Some(text_of(path)?),
        None => None,
    };
    Some(CallPaths {
        input,
        output,
        dependencies,
    })
}

/// The paths of a call. `None` where there is no input, or a path is not UTF-8.
///
/// The error is lack of memory.
pub fn paths_of<'a>(alloc: Global, asked: &Call<'a>) -> Result<Option<CallPaths<'a>>, AllocError>
    ensures { IfOk result (λ paths.
        MatchOption paths (HasNoPaths (call_of asked.now)) (ArePaths (call_of asked.now))) }
{
    let Some(input) = asked.input else {
        return Ok(None);
    };
    let output = output_of(alloc, asked, input)?;
    let dependencies = dependencies_of(alloc, asked, &output)?;
    Ok(texts_of(input, output, dependencies))
}

// Whether an option of this class is one of those that define or undefine macros, or one of the others.
fn is_among(defines: bool, class: Class) -> bool
    ensures { result ≡ is_among defines class }
{
    if defines {
        is_definition(class)
    } else {
        !is_definition(class)
    }
}

// Appends a copy of an argument, if its option is among these.
fn push_one(
    alloc: Global,
    all: &mut Vec<Vec<u8>>,
    defines: bool,
    one: &Keyed<'_>,
) -> Result<(), AllocError>
    ensures { OnOk result
        (lists_of all.new.items ≡ lists_of all.old.items ++ one_among defines one.now) }
{
    if is_among(defines, one.class) {
        push_argument(alloc, all, b"", one.argument)?;
    }
    Ok(())
}

// Appends copies of the arguments that define or undefine macros, or of the others.
fn push_keyed(
    alloc: Global,
    all: &mut Vec<Vec<u8>>,
    defines: bool,
    keyed: &[Keyed<'_>],
) -> Result<(), AllocError>
    ensures { OnOk result
        (lists_of all.new.items ≡ lists_of all.old.items ++ flat_map (one_among defines) keyed.now) }
{
    for one in keyed {
        push_one(alloc, all, defines, one)?;
    }
    Ok(())
}

// The arguments of a call that define or undefine macros.
fn definitions_of(alloc: Global, asked: &Call<'_>) -> Result<Vec<Vec<u8>>, AllocError>
    ensures { IfOk result (λ all. lists_of all.items ≡ definitions_of asked.now) }
{
    let mut all = Vec::new(alloc);
    push_keyed(alloc, &mut all, true, &asked.keyed)?;
    Ok(all)
}

// The other arguments of a call that count in keys. The path of the object is the target of the rule in a
// dependency file, where no option says another one.
fn counted_arguments(
    alloc: Global,
    asked: &Call<'_>,
    paths: &CallPaths<'_>,
) -> Result<Vec<Vec<u8>>, AllocError>
    ensures { IfOk result (λ all.
        lists_of all.items ≡ counted_arguments asked.now (string_bytes paths.now.output)) }
{
    let mut all = Vec::new(alloc);
    push_keyed(alloc, &mut all, false, &asked.keyed)?;
    if asked.depends && !asked.targets {
        push_argument(alloc, &mut all, b"-MQ", b"")?;
        push_argument(alloc, &mut all, b"", paths.output.as_bytes())?;
    }
    Ok(all)
}

/// The compilation that a call asks for, which runs these programs.
///
/// The error is lack of memory.
pub fn request_of<'a>(
    alloc: Global,
    call: &CompilerCall<'a>,
    programs: String,
    asked: &Call<'_>,
    paths: &CallPaths<'a>,
) -> Result<Request<'a>, AllocError>
    ensures { IfOk result (IsCallRequest call.now (string_bytes programs) asked.now paths.now) }
{
    Ok(Request {
        compiler: programs,
        directory: call.directory,
        input: paths.input,
        arguments: counted_arguments(alloc, asked, paths)?,
        definitions: definitions_of(alloc, asked)?,
        digests: call.digests,
        base: call.base,
    })
}

// Appends the paths of a call, and of the programs that it runs, as words for a shell. That of no dependency
// file is empty.
fn push_paths(words: &mut Vec<u8>, paths: &CallPaths<'_>, programs: &str) -> Result<(), AllocError>
    ensures { OnOk result
        (words.new.items ≡ words.old.items ++ command (call_paths paths.now programs.now)) }
{
    let dependencies = match &paths.dependencies {
        Some(path) => path.as_str(),
        None => "",
    };
    push_word(words, paths.input.as_bytes())?;
    push_word(words, paths.output.as_bytes())?;
    push_word(words, dependencies.as_bytes())?;
    push_word(words, programs.as_bytes())
}

/// The paths of a call, the programs that it runs and the option by which the preprocessor shows
/// macros on one line, and the arguments that the preprocessor has on another. A shell reads them back. Where
/// no dependency file is written its path is empty.
///
/// The only error is lack of memory.
pub fn call_lines(
    alloc: Global,
    asked: &Call<'_>,
    paths: &CallPaths<'_>,
    programs: &str,
) -> Result<Vec<u8>, AllocError>
    ensures { IfOk result (λ lines.
        lines.items ≡ call_lines (call_of asked.now) paths.now programs.now) }
{
    let mut lines = Vec::new(alloc);
    push_paths(&mut lines, paths, programs)?;
    push_word(&mut lines, macro_option(&asked.keyed))?;
    lines.push(b'\n')?;
    push_preprocessor_arguments(&mut lines, &asked.keyed)?;
    lines.push(b'\n')?;
    Ok(lines)
}
