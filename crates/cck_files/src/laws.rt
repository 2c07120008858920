//! Laws about the definitions. Each is the contract of a function with an empty body.
ghost use Rattle.std.specs.Prelude.{◌≡◌, ◌↔◌, IsTrue};
ghost use Rattle.cck_files.specs.ArmedCalls.{FailsAsArmed};
ghost use Rattle.cck_files.specs.Laws.{FileMaterial, FolderMaterial, ReachedTells, ErrorsTellNoMaterial};
ghost use Rattle.cck_files.specs.Node.{fields_of};

use crate::Node;

/// Two [`Node`]s are equal exactly if all their fields are the same, the contents byte for byte.
pub fn node_equality_is_exact()
    ensures { (a b : Node) →
        IsTrue (⟦<Node as PartialEq>⟧.eq a b) ↔ (fields_of a ≡ fields_of b) }
{}

/// After k calls the next one fails exactly if it is the one that [`fail_at`] armed, or if it is not
/// before the first of those that [`fail_after`] armed.
///
/// [`fail_at`]: crate::ArmedCalls::fail_at
/// [`fail_after`]: crate::ArmedCalls::fail_after
pub fn calls_fail_as_armed()
    ensures { FailsAsArmed }
{}

/// The nodes that are reached from a directory are exactly those to which a relative path of names
/// leads through directories. They are in strictly ascending path order, and so each is there once.
pub fn reached_tells()
    ensures { ReachedTells }
{}

/// The digest of a regular file is that of its contents alone.
pub fn file_material()
    ensures { FileMaterial }
{}

/// The digest of a directory is that of the name and the contents of each file that is reached.
pub fn folder_material()
    ensures { FolderMaterial }
{}

/// Where the error is neither a fault nor lack of memory, there is no digest.
pub fn errors_tell_no_material()
    ensures { ErrorsTellNoMaterial }
{}
