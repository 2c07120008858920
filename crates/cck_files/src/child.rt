//! The last names of a directory's children.
ghost use Rattle.std.specs.Prelude.{◌≡◌, ◌≢◌, ℕ, List, [], ◌∷◌, ◌++◌, IfOk, IsOkUnless, MatchOption, length, map, take, vec_items};
ghost use Rattle.std.specs.Ordering.{is_eq};
ghost use Rattle.cck_path.specs.Path.{IsName, Name, components, path_cmp};
ghost use Rattle.cck_files.specs.Children.{HasChildNames};

use cck_digest::FileError;
use cck_path::{Component, Components, PathMap, file_name};
use std::alloc::Global;
use std::iter;

// The last name of a path, if the path is that of a direct child of the directory.
fn child_name<'a>(folder: &[u8], path: &'a [u8]) -> Option<&'a [u8]>
    ensures { MatchOption result
        ((name : List ℕ) → components path.now ≢ components folder.now ++ Name name ∷ [])
        (λ name. IsName name.now
        × (components path.now ≡ components folder.now ++ Name name.now ∷ [])) }
{
    let name = file_name(path)?;
    if is_child(folder, name, path) {
        return Some(name);
    }
    None
}

/// Returns the last names of a path's direct children in a map, each once, in their order. A child
/// whose last component is no name has none.
///
/// The only error is [`FileError::Memory`].
pub(crate) fn child_names<V>(
    alloc: Global,
    paths: &PathMap<V>,
    folder: &[u8],
) -> Result<Vec<Vec<u8>>, FileError>
    ensures names { IfOk result (λ names.
        HasChildNames paths.now (components folder.now) (map vec_items names.items)) }
    ensures errors { IsOkUnless result FileError.Memory }
{
    let size = component_count(folder);
    let mut names = Vec::new(alloc);
    for entry in paths.entries_from(folder) {
        // The paths that begin with the directory's are consecutive.
        if !is_within(folder, size, &entry.path) {
            return Ok(names);
        }
        if let Some(name) = child_name(folder, &entry.path) {
            names.push(name.to_vec(alloc)?)?;
        }
    }
    Ok(names)
}

// The number of components of a path.
fn component_count(path: &[u8]) -> usize
    ensures { result ≡ length (components path.now) }
{
    Components::new(path).count()
}

// Whether a path begins with that of the directory, which has `size` components.
fn is_within(folder: &[u8], size: usize, path: &[u8]) -> bool
    ensures { result ≡ is_eq (path_cmp (take size (components path.now)) (components folder.now)) }
{
    let front = Components::new(path).take(size);
    front.cmp(Components::new(folder)).is_eq()
}

// Whether a path is the directory's followed by the name.
fn is_child(folder: &[u8], name: &[u8], path: &[u8]) -> bool
    ensures { result ≡ is_eq (path_cmp (components path.now)
        (components folder.now ++ Name name.now ∷ [])) }
{
    let child = Components::new(folder).chain(iter::once(Component::Normal(name)));
    Components::new(path).cmp(child).is_eq()
}
