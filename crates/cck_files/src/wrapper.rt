//! Finds compilers that are called through wrappers.
ghost use Rattle.std.specs.Prelude.{◌≡◌, ◌∷◌, map, IfOk, IsOkUnless, IfSome, Contains, ◌⊎◌, true};
ghost use Rattle.std.specs.List.{find};
ghost use Rattle.std.specs.Option.{option_map};
ghost use Rattle.std.specs.Str.{str_eq_ignore_ascii_case};
ghost use Rattle.cck_files.specs.Calls.{Keeps, Rose};
ghost use Rattle.cck_files.specs.FileMap.{exists_at};
ghost use Rattle.cck_path.specs.Bytes.{variables_of};
ghost use Rattle.cck_path.specs.Components.{component_of};
ghost use Rattle.cck_path.specs.Path.{components};
ghost use Rattle.cck_path.specs.Text.{join_path as joined_text};
ghost use Rattle.cck_files.specs.Wrapper.{begins_with, is_wrapper_name, is_wrapper, leads_to_wrapper, has_wrapper_component, is_wrapper_component, kept_parts, candidates, is_compiler, is_settled, found_compiler, resolved};

use crate::files::Files;
use cck_digest::{FileError, UtilError};
use cck_path::{Component, Components, file_name, first_value, is_absolute, join_path};
use std::alloc::{AllocError, Global};

/// Returns the path of the compiler that `executable` names, past a wrapper such as `ccache`.
///
/// A path *leads to a wrapper* where its canonical path has the file name `ccache` or `sccache`, or
/// one that begins with either and a `.`, in any ASCII case. If there is no canonical path, or the
/// call for it meets a fault, the path doesn't lead to a wrapper.
///
/// The result is `executable` itself if it is absolute and doesn't lead to a wrapper. Otherwise its
/// file name is looked up in the directories of the first variable `PATH`, in order, except where
/// `ccache` or `sccache` is a component. The value is split at each `:`; for an empty part the name
/// is looked up alone. The result is the first of these paths at which something is, and which
/// leads to no wrapper. If there is none, or no file name, or no variable `PATH`, the result is
/// `executable` too. If the count of faults rose, the result may be another of these paths that
/// exists, or `executable`.
///
/// Upstream's `util::resolve_compiler_avoiding_wrapper`. The only error is [`UtilError::Memory`].
pub fn resolve_compiler_avoiding_wrapper<F: Files>(
    alloc: Global,
    files: &mut F,
    executable: &[u8],
    vars: &[(Vec<u8>, Vec<u8>)],
) -> Result<Vec<u8>, UtilError>
    ensures keeps { Keeps F.file_map F.faults F.is_quiet files.old files.new }
    ensures outcome { IfOk result (λ path.
        (path.items ≡ resolved (F.file_map files.old) executable.now
        (variables_of vars.now))
        ⊎ Rose (F.faults files.old) (F.faults files.new)) }
    ensures place { IfOk result (λ path. Contains
        (executable.now ∷ candidates executable.now (variables_of vars.now))
        path.items) }
    ensures judgement { IfOk result (λ path. (path.items ≡ executable.now)
        ⊎ (exists_at (F.file_map files.old) (components path.items) ≡ true)) }
    ensures errors { IsOkUnless result UtilError.Memory }
{
    match find_compiler(alloc, files, executable, vars)? {
        Some(compiler) => Ok(compiler),
        None => Ok(executable.to_vec(alloc)?),
    }
}

// Returns the path that replaces the executable, if there is one.
fn find_compiler<F: Files>(
    alloc: Global,
    files: &mut F,
    executable: &[u8],
    vars: &[(Vec<u8>, Vec<u8>)],
) -> Result<Option<Vec<u8>>, AllocError>
    ensures keeps { Keeps F.file_map F.faults F.is_quiet files.old files.new }
    ensures outcome { IfOk result (λ compiler.
        (option_map (λ path. path.items) compiler ≡ found_compiler (F.file_map files.old) executable.now
        (variables_of vars.now))
        ⊎ Rose (F.faults files.old) (F.faults files.new)) }
    ensures place { IfOk result (λ compiler. IfSome compiler (λ path. Contains
        (candidates executable.now (variables_of vars.now))
        path.items)) }
    ensures judgement { IfOk result (λ compiler. IfSome compiler (λ path.
        exists_at (F.file_map files.old) (components path.items) ≡ true)) }
{
    if is_settled(alloc, files, executable)? {
        return Ok(None);
    }
    let Some(name) = file_name(executable) else {
        return Ok(None);
    };
    let Some(path) = first_value(vars, b"PATH") else {
        return Ok(None);
    };
    let parts = kept_parts(alloc, path)?;
    first_compiler(alloc, files, &parts, name)
}

// Returns whether a path is absolute and doesn't lead to a wrapper.
fn is_settled<F: Files>(alloc: Global, files: &mut F, path: &[u8]) -> Result<bool, AllocError>
    ensures keeps { Keeps F.file_map F.faults F.is_quiet files.old files.new }
    ensures outcome { IfOk result (λ settled.
        (settled ≡ is_settled (F.file_map files.old) (components path.now))
        ⊎ Rose (F.faults files.old) (F.faults files.new)) }
{
    if !is_absolute(path) {
        return Ok(false);
    }
    let leads = leads_to_wrapper(alloc, files, path)?;
    Ok(!leads)
}

// Returns the parts of a search path that have no wrapper's component.
fn kept_parts(alloc: Global, path: &[u8]) -> Result<Vec<&[u8]>, AllocError>
    ensures { IfOk result (λ parts.
        map (λ part. part.now) parts.items ≡ kept_parts path.now) }
{
    path.split(|byte| *byte == b':')
        .filter(|part| !has_wrapper_component(part))
        .collect(alloc)
}

// Returns whether a path has a component `ccache` or `sccache`.
fn has_wrapper_component(path: &[u8]) -> bool
    ensures { result ≡ has_wrapper_component path.now }
{
    Components::new(path).any(|component| is_wrapper_component(component))
}

// Returns whether a component is `ccache` or `sccache`.
fn is_wrapper_component(component: Component<'_>) -> bool
    ensures { result ≡ is_wrapper_component (component_of component.entry) }
{
    match component {
        Component::Normal(name) => { name == b"ccache".as_slice() || name == b"sccache".as_slice() }
        _ => false,
    }
}

// Returns the first of the parts, joined with the name, that is the path of a compiler.
fn first_compiler<F: Files>(
    alloc: Global,
    files: &mut F,
    parts: &[&[u8]],
    name: &[u8],
) -> Result<Option<Vec<u8>>, AllocError>
    ensures keeps { Keeps F.file_map F.faults F.is_quiet files.old files.new }
    ensures outcome { IfOk result (λ compiler.
        (option_map (λ path. path.items) compiler
        ≡ find (λ path. is_compiler (F.file_map files.old) (components path))
        (map (λ part. joined_text part.now name.now) parts.now))
        ⊎ Rose (F.faults files.old) (F.faults files.new)) }
    ensures place { IfOk result (λ compiler. IfSome compiler (λ path. Contains
        (map (λ part. joined_text part.now name.now) parts.now) path.items)) }
    ensures judgement { IfOk result (λ compiler. IfSome compiler (λ path.
        exists_at (F.file_map files.old) (components path.items) ≡ true)) }
{
    for part in parts {
        let path = match join_path(alloc, part, name) {
            Ok(path) => path,
            Err(_) => return Err(AllocError),
        };
        if is_compiler(alloc, files, &path)? {
            return Ok(Some(path));
        }
    }
    Ok(None)
}

// Returns whether something is at a path, and the path leads to no wrapper.
fn is_compiler<F: Files>(alloc: Global, files: &mut F, path: &[u8]) -> Result<bool, AllocError>
    ensures keeps { Keeps F.file_map F.faults F.is_quiet files.old files.new }
    ensures outcome { IfOk result (λ compiler.
        (compiler ≡ is_compiler (F.file_map files.old) (components path.now))
        ⊎ Rose (F.faults files.old) (F.faults files.new)) }
    ensures judgement { IfOk result (λ compiler. compiler ≡ true
        → exists_at (F.file_map files.old) (components path.now) ≡ true) }
{
    if !files.exists(path) {
        return Ok(false);
    }
    let leads = leads_to_wrapper(alloc, files, path)?;
    Ok(!leads)
}

// Returns whether a path leads to a wrapper.
fn leads_to_wrapper<F: Files>(alloc: Global, files: &mut F, path: &[u8]) -> Result<bool, AllocError>
    ensures keeps { Keeps F.file_map F.faults F.is_quiet files.old files.new }
    ensures outcome { IfOk result (λ leads.
        (leads ≡ leads_to_wrapper (F.file_map files.old) (components path.now))
        ⊎ Rose (F.faults files.old) (F.faults files.new)) }
{
    match files.canonical(alloc, path) {
        Ok(canonical) => Ok(is_wrapper(&canonical)),
        Err(error) => match error {
            FileError::Memory => Err(AllocError),
            _ => Ok(false),
        },
    }
}

// Returns whether the file name of a path is a wrapper's.
fn is_wrapper(path: &[u8]) -> bool
    ensures { result ≡ is_wrapper (components path.now) }
{
    file_name(path).is_some_and(|name| is_wrapper_name(name))
}

// Returns whether a file name is a wrapper's.
#[tactic(auto, unfolding(crate::specs::Wrapper::is_wrapper_name, crate::specs::Wrapper::is_program))]
fn is_wrapper_name(name: &[u8]) -> bool
    ensures { result ≡ is_wrapper_name name.now }
{
    is_same_name(name, b"ccache")
        || begins_with(name, b"ccache.")
        || is_same_name(name, b"sccache")
        || begins_with(name, b"sccache.")
}

// Returns whether a name begins with these bytes, in any ASCII case.
fn begins_with(name: &[u8], beginning: &[u8]) -> bool
    ensures { result ≡ begins_with name.now beginning.now }
{
    match name.split_at_checked(beginning.len()) {
        Some((front, _)) => is_same_name(front, beginning),
        None => false,
    }
}

// Returns whether two names are equal in any ASCII case.
fn is_same_name(a: &[u8], b: &[u8]) -> bool
    ensures { result ≡ str_eq_ignore_ascii_case a.now b.now }
{
    a.eq_ignore_ascii_case(b)
}
