//! The parsed command line of a compiler.
ghost use Rattle.std.specs.Prelude.{◌≡◌, ◌&&◌, codes, map, not, IfOk, IsOkUnless, string_bytes};
ghost use Rattle.std.specs.List.{find, list_any};
ghost use Rattle.std.specs.Option.{option_map};
ghost use Rattle.std.specs.Str.{bytes_eq};
ghost use Rattle.cck_path.specs.Bytes.{lists_of};
ghost use Rattle.cck_files.specs.FolderText.{lossy};
ghost use Rattle.cck_compiler.specs.Arguments.{archs, is_arch, is_multiarch, only_input, output_name};
ghost use Rattle.cck_compiler.specs.Seen.{arguments_of};

use bstr::ByteSlice;
use cck_digest::KeyError;
use cck_path::file_name;
use cck_util::Language;
use std::alloc::{AllocError, Global};
use std::collections::BTreeMap;

/// A file that a compilation writes.
///
/// Upstream's `compiler::ArtifactDescriptor`.
#[derive(Debug, PartialEq, Eq, Drop)]
pub struct ArtifactDescriptor {
    /// Its path.
    pub path: Vec<u8>,
    /// Whether it may be left out.
    pub optional: bool,
}

/// Whether diagnostics are coloured.
///
/// Upstream's `compiler::ColorMode`.
#[derive(Debug, Copy, Clone, PartialEq, Eq)]
pub enum ColorMode {
    /// They are not.
    Off,
    /// They are.
    On,
    /// They are if they go to a terminal.
    Auto,
}

/// A command line of a compiler, parsed.
///
/// Upstream's `compiler::c::ParsedArguments`.
#[derive(Debug, PartialEq, Eq)]
pub struct ParsedArguments {
    /// The file that is compiled.
    pub input: Vec<u8>,
    /// Whether a `--` precedes the input.
    pub double_dash_input: bool,
    /// The language of the input.
    pub language: Language,
    /// The flag that asks for a compilation, as `-c`.
    pub compilation_flag: Vec<u8>,
    /// The file of dependencies, if one is asked for.
    pub depfile: Option<Vec<u8>>,
    /// The outputs by their names, as `obj`.
    pub outputs: BTreeMap<String, ArtifactDescriptor>,
    /// The arguments about dependencies.
    pub dependency_args: Vec<Vec<u8>>,
    /// The arguments that only the preprocessor looks at.
    pub preprocessor_args: Vec<Vec<u8>>,
    /// The arguments that preprocessor and compiler look at.
    pub common_args: Vec<Vec<u8>>,
    /// The arguments about architectures, each after its `-arch`.
    pub arch_args: Vec<Vec<u8>>,
    /// The arguments that are part of no key.
    pub unhashed_args: Vec<Vec<u8>>,
    /// The files that a compilation on another machine needs in addition.
    pub extra_dist_files: Vec<Vec<u8>>,
    /// Extra files and directories, whose digests are part of the keys.
    pub extra_hash_files: Vec<Vec<u8>>,
    /// Whether the assembler is a separate program.
    pub uses_external_assembler: bool,
    /// Whether includes are shown in Visual C's form.
    pub msvc_show_includes: bool,
    /// Whether the language was given to Visual C explicitly.
    pub msvc_explicit_language: bool,
    /// Whether a profile is written.
    pub profile_generate: bool,
    /// Whether diagnostics are coloured.
    pub color_mode: ColorMode,
    /// Whether includes must not be left in a text that is preprocessed for another machine.
    pub suppress_rewrite_includes_only: bool,
    /// The argument that keeps the request out of the preprocessor cache, if there is one.
    pub too_hard_for_preprocessor_cache_mode: Option<Vec<u8>>,
}

impl Drop for ParsedArguments {
    fn drop(self) {
        let ParsedArguments {
            input: _,
            double_dash_input: _,
            language: _,
            compilation_flag: _,
            depfile: _,
            outputs: _,
            dependency_args: _,
            preprocessor_args: _,
            common_args: _,
            arch_args: _,
            unhashed_args: _,
            extra_dist_files: _,
            extra_hash_files: _,
            uses_external_assembler: _,
            msvc_show_includes: _,
            msvc_explicit_language: _,
            profile_generate: _,
            color_mode: _,
            suppress_rewrite_includes_only: _,
            too_hard_for_preprocessor_cache_mode: _,
        } = self;
    }
}

impl ParsedArguments {
    /// Returns the command line with this input alone: it has no other argument and no output, all its
    /// flags are `false`, and diagnostics are coloured if they go to a terminal.
    pub fn new(alloc: Global, input: Vec<u8>, language: Language) -> ParsedArguments
        ensures { arguments_of result ≡ only_input input.items language }
    {
        ParsedArguments {
            input,
            double_dash_input: false,
            language,
            compilation_flag: Vec::new(alloc),
            depfile: None,
            outputs: BTreeMap::new(alloc),
            dependency_args: Vec::new(alloc),
            preprocessor_args: Vec::new(alloc),
            common_args: Vec::new(alloc),
            arch_args: Vec::new(alloc),
            unhashed_args: Vec::new(alloc),
            extra_dist_files: Vec::new(alloc),
            extra_hash_files: Vec::new(alloc),
            uses_external_assembler: false,
            msvc_show_includes: false,
            msvc_explicit_language: false,
            profile_generate: false,
            color_mode: ColorMode::Auto,
            suppress_rewrite_includes_only: false,
            too_hard_for_preprocessor_cache_mode: None,
        }
    }

    /// Returns whether two or more architectures are asked for. It allocates no memory.
    ///
    /// Upstream's `ParsedArguments::is_multiarch`.
    pub fn is_multiarch(&self) -> bool
        ensures { result ≡ is_multiarch (arguments_of self.now) }
    {
        match first_arch(&self.arch_args) {
            Some(first) => has_other_arch(&self.arch_args, first),
            None => false,
        }
    }

    /// Returns the architectures that are asked for, each once, in the order of their first places.
    ///
    /// Upstream's `ParsedArguments::archs`. The only error is [`KeyError::Memory`].
    pub fn archs(&self, alloc: Global) -> Result<Vec<&[u8]>, KeyError>
        ensures archs { IfOk result (λ found.
            map (λ arch. arch.now) found.items ≡ archs (arguments_of self.now)) }
        ensures errors { IsOkUnless result KeyError.Memory }
    {
        let mut found: Vec<&[u8]> = Vec::new(alloc);
        for arg in &self.arch_args {
            let arch = arg.as_slice();
            if is_arch(arch) && !found.contains(&arch) {
                found.push(arch)?;
            }
        }
        Ok(found)
    }

    /// Returns the file name of the output `obj` for display, with U+FFFD for what is no UTF-8. It
    /// is `Unknown filename` if there is no such output or if its path has no file name.
    ///
    /// Upstream's `ParsedArguments::output_pretty`. The only error is [`KeyError::Memory`].
    pub fn output_pretty(&self, alloc: Global) -> Result<String, KeyError>
        ensures name { IfOk result (λ name.
            string_bytes name ≡ output_name (arguments_of self.now)) }
        ensures errors { IsOkUnless result KeyError.Memory }
    {
        let Some(output) = self.outputs.get("obj") else {
            return Ok(unknown_name(alloc)?);
        };
        match file_name(&output.path) {
            Some(name) => Ok(shown_name(alloc, name)?),
            None => Ok(unknown_name(alloc)?),
        }
    }
}

// Whether an argument names an architecture.
fn is_arch(arg: &[u8]) -> bool
    ensures { result ≡ is_arch arg.now }
{
    arg != b"-arch".as_slice()
}

// The first of the arguments that names an architecture.
fn first_arch(args: &[Vec<u8>]) -> Option<&[u8]>
    ensures { option_map (λ arch. arch.now) result ≡ find is_arch (lists_of args.now) }
{
    for arg in args {
        if is_arch(arg) {
            return Some(arg.as_slice());
        }
    }
    None
}

// Whether an argument names another architecture than this one.
fn has_other_arch(args: &[Vec<u8>], arch: &[u8]) -> bool
    ensures { result
        ≡ list_any (λ arg. is_arch arg && not (bytes_eq arg arch.now)) (lists_of args.now) }
{
    for arg in args {
        if is_arch(arg) && arg.as_slice() != arch {
            return true;
        }
    }
    false
}

// A name as text, with U+FFFD for what is no UTF-8.
#[tactic(auto, unfolding(cck_files::specs::FolderText::lossy))]
fn shown_name(alloc: Global, name: &[u8]) -> Result<String, AllocError>
    ensures { IfOk result (λ text. string_bytes text ≡ lossy name.now) }
{
    let text = name.to_str_lossy(alloc)?;
    format!(in alloc; "{text}")
}

// What is shown if there is no name.
fn unknown_name(alloc: Global) -> Result<String, AllocError>
    ensures { IfOk result (λ text. string_bytes text ≡ codes "Unknown filename") }
{
    String::from_str(alloc, "Unknown filename")
}
