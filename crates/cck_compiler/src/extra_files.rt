//! Extra files: no command line names them, but their digests are part of the keys.
ghost use Rattle.std.specs.Prelude.{◌≡◌, ◌++◌, ◌==◌, ◌⊎◌, true, None, Some, drop, filter, if◌then◌else◌, length, map, IfErr, IfOk, OnOk};
ghost use Rattle.std.specs.List.{slice_split};
ghost use Rattle.std.specs.Option.{option_map, option_or};
ghost use Rattle.std.specs.Str.{is_utf8};
ghost use Rattle.cck_files.specs.Calls.{Keeps, Rose};
ghost use Rattle.cck_digest.specs.KeyError.{IsFileFault};
ghost use Rattle.cck_path.specs.Bytes.{lists_of, variables_of};
ghost use Rattle.cck_path.specs.Text.{join_path as joined_text};
ghost use Rattle.cck_compiler.specs.ExtraFiles.{flag_value, has_flag, is_hip, is_library, libraries, library_folder, named_files, text_value, with_extra_files};
ghost use Rattle.cck_compiler.specs.Seen.{arguments_of};

use crate::arguments::ParsedArguments;
use cck_digest::{FileError, KeyError, UtilError};
use cck_files::{Files, sorted_names};
use cck_path::{extension, join_path};
use cck_util::Language;
use std::alloc::{AllocError, Global};

/// Appends the paths of extra files to `extra_hash_files` of the arguments:
///
/// - the parts between the colons of each variable `SCCACHE_EXTRAFILES`, where an empty value gives
///   one empty path,
/// - for HIP the device libraries, in path order: the direct children with the extension `bc` of
///   one directory. The first of these that is given names it: the argument
///   `--hip-device-lib-path=`, the variable `HIP_DEVICE_LIB_PATH`, the argument `--rocm-path=`, the
///   variable `ROCM_PATH`, the last two with `amdgcn/bitcode` after them. Without any it is
///   `/opt/rocm/amdgcn/bitcode`. Arguments and values of variables that are no UTF-8 don't count.
///   If there is no such directory, there are no libraries.
///
/// The errors are
///
/// - [`KeyError::Extra`] of a fault, only for HIP and if the files' count of faults rose,
/// - [`KeyError::Memory`].
///
/// After an error some of the paths may have been appended. This is what upstream's
/// `CCompiler::parse_arguments` does after a compiler has parsed the arguments.
pub fn add_extra_files<F: Files>(
    alloc: Global,
    files: &mut F,
    args: &mut ParsedArguments,
    vars: &[(Vec<u8>, Vec<u8>)],
) -> Result<(), KeyError>
    ensures keeps { Keeps F.file_map F.faults F.is_quiet files.old files.new }
    ensures added { OnOk result (arguments_of args.new
        ≡ with_extra_files (F.file_map files.old) (variables_of vars.now) (arguments_of args.old)) }
    ensures errors { IfErr result (λ e. (e ≡ KeyError.Memory)
        ⊎ ((is_hip args.old.language ≡ true) × IsFileFault e (Rose (F.faults files.old) (F.faults files.new)))) }
{
    push_named_files(alloc, &mut args.extra_hash_files, vars)?;
    if is_hip(args.language) {
        let folder = library_folder(alloc, &args.common_args, vars)?;
        push_libraries(alloc, files, &mut args.extra_hash_files, &folder)?;
    }
    Ok(())
}

// Whether a language is HIP.
fn is_hip(language: Language) -> bool
    ensures { result ≡ is_hip language }
{
    matches!(language, Language::Hip)
}

// Appends the paths that the variables name.
#[tactic(auto, unfolding(crate::specs::ExtraFiles::named_files))]
fn push_named_files(
    alloc: Global,
    all: &mut Vec<Vec<u8>>,
    vars: &[(Vec<u8>, Vec<u8>)],
) -> Result<(), AllocError>
    ensures { OnOk result
        (lists_of all.new.items ≡ lists_of all.old.items ++ named_files (variables_of vars.now)) }
{
    for (name, value) in vars {
        if name.as_slice() == b"SCCACHE_EXTRAFILES".as_slice() {
            push_parts(alloc, all, value)?;
        }
    }
    Ok(())
}

// Appends the parts between the colons.
fn push_parts(alloc: Global, all: &mut Vec<Vec<u8>>, value: &[u8]) -> Result<(), AllocError>
    ensures { OnOk result
        (lists_of all.new.items ≡ lists_of all.old.items ++ slice_split (λ c. c == 58) value.now) }
{
    for part in value.split(|byte| *byte == b':') {
        all.push(part.to_vec(alloc)?)?;
    }
    Ok(())
}

// The directory of the device libraries.
#[tactic(auto, unfolding(crate::specs::ExtraFiles::library_folder))]
fn library_folder(
    alloc: Global,
    args: &[Vec<u8>],
    vars: &[(Vec<u8>, Vec<u8>)],
) -> Result<Vec<u8>, AllocError>
    ensures { IfOk result (λ folder.
        folder.items ≡ library_folder (lists_of args.now) (variables_of vars.now)) }
{
    if let Some(folder) = flag_or_variable(
        args,
        b"--hip-device-lib-path=",
        vars,
        b"HIP_DEVICE_LIB_PATH",
    ) {
        return folder.to_vec(alloc);
    }
    match flag_or_variable(args, b"--rocm-path=", vars, b"ROCM_PATH") {
        Some(release) => joined(alloc, release, b"amdgcn/bitcode"),
        None => b"/opt/rocm/amdgcn/bitcode".to_vec(alloc),
    }
}

// What follows a flag, or without that flag the value of a variable.
fn flag_or_variable<'a>(
    args: &'a [Vec<u8>],
    flag: &[u8],
    vars: &'a [(Vec<u8>, Vec<u8>)],
    name: &[u8],
) -> Option<&'a [u8]>
    ensures { option_map (λ value. value.now) result
        ≡ option_or (flag_value flag.now (lists_of args.now)) (text_value name.now (variables_of vars.now)) }
{
    match flag_value(args, flag) {
        Some(value) => Some(value),
        None => text_value(vars, name),
    }
}

// What follows a flag, in the first argument that is text and begins with it.
#[tactic(auto, unfolding(crate::specs::ExtraFiles::flag_value))]
fn flag_value<'a>(args: &'a [Vec<u8>], flag: &[u8]) -> Option<&'a [u8]>
    ensures { option_map (λ value. value.now) result ≡ flag_value flag.now (lists_of args.now) }
{
    for arg in args {
        if let Some(value) = value_after_flag(arg, flag) {
            return Some(value);
        }
    }
    None
}

// What follows a flag in an argument, if that is text and begins with it.
fn value_after_flag<'a>(arg: &'a [u8], flag: &[u8]) -> Option<&'a [u8]>
    ensures { option_map (λ value. value.now) result
        ≡ (if has_flag flag.now arg.now then Some (drop (length flag.now) arg.now) else None) }
{
    if !is_text(arg) {
        return None;
    }
    arg.strip_prefix(flag)
}

// The value of the first variable of a name whose value is text.
#[tactic(auto, unfolding(crate::specs::ExtraFiles::text_value))]
fn text_value<'a>(vars: &'a [(Vec<u8>, Vec<u8>)], name: &[u8]) -> Option<&'a [u8]>
    ensures { option_map (λ value. value.now) result ≡ text_value name.now (variables_of vars.now) }
{
    for (known, value) in vars {
        if known.as_slice() == name && is_text(value) {
            return Some(value.as_slice());
        }
    }
    None
}

// Whether these bytes are UTF-8.
fn is_text(bytes: &[u8]) -> bool
    ensures { result ≡ is_utf8 bytes.now }
{
    str::from_utf8(bytes).is_ok()
}

// Appends the paths of the device libraries in a directory. There are none if it can't be listed
// for another reason than a fault or lack of memory.
fn push_libraries<F: Files>(
    alloc: Global,
    files: &mut F,
    all: &mut Vec<Vec<u8>>,
    folder: &[u8],
) -> Result<(), KeyError>
    ensures keeps { Keeps F.file_map F.faults F.is_quiet files.old files.new }
    ensures pushed { OnOk result (lists_of all.new.items
        ≡ lists_of all.old.items ++ libraries (F.file_map files.old) folder.now) }
    ensures errors { IfErr result (λ e. (e ≡ KeyError.Memory)
        ⊎ IsFileFault e (Rose (F.faults files.old) (F.faults files.new))) }
{
    match sorted_names(alloc, files, folder) {
        Ok(names) => Ok(push_listed(alloc, all, folder, &names)?),
        Err(error) => match error {
            FileError::Memory => Err(KeyError::Memory),
            FileError::Fault => Err(KeyError::Extra(UtilError::File(FileError::Fault))),
            _ => Ok(()),
        },
    }
}

// Appends the paths of those of these names in a directory that are libraries.
fn push_listed(
    alloc: Global,
    all: &mut Vec<Vec<u8>>,
    folder: &[u8],
    names: &[Vec<u8>],
) -> Result<(), AllocError>
    ensures { OnOk result (lists_of all.new.items
        ≡ lists_of all.old.items ++ map (joined_text folder.now) (filter is_library (lists_of names.now))) }
{
    for name in names {
        if is_library(name) {
            all.push(joined(alloc, folder, name)?)?;
        }
    }
    Ok(())
}

// Whether the extension of a name is `bc`.
#[tactic(auto, unfolding(crate::specs::ExtraFiles::is_library))]
fn is_library(name: &[u8]) -> bool
    ensures { result ≡ is_library name.now }
{
    match extension(name) {
        Some(extension) => extension == b"bc".as_slice(),
        None => false,
    }
}

// A path joined to another.
fn joined(alloc: Global, base: &[u8], path: &[u8]) -> Result<Vec<u8>, AllocError>
    ensures { IfOk result (λ whole. whole.items ≡ joined_text base.now path.now) }
{
    match join_path(alloc, base, path) {
        Ok(whole) => Ok(whole),
        Err(_) => Err(AllocError),
    }
}
