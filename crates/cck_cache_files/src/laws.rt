//! Laws about the definitions. Each is the contract of a function with an empty body.
ghost use Rattle.std.specs.Prelude.{◌≡◌, ◌↔◌, IsTrue};
ghost use Rattle.cck_cache_files.specs.EntryNames.{EntryNamesDiffer};
ghost use Rattle.cck_cache_files.specs.Paths.{DigestPathsDiffer, KeyPathsDiffer};
ghost use Rattle.cck_cache_files.specs.Programs.{ListPathsDiffer};

use crate::PathState;

/// In a store the files of two keys have one path only if they are of one kind and one key, and the
/// files of two digests only if they have one name. No digest has the path of a key.
pub fn key_paths_differ()
    ensures keys { KeyPathsDiffer }
    ensures digests { DigestPathsDiffer }
{}

/// Two entry files have one name only if they are at one place and of one preprocessor key, where all keys have
/// one length.
pub fn entry_names_differ()
    ensures { EntryNamesDiffer }
{}

/// In a store the lists of two compilers have one path only if the last parts of the names by which they are called are
/// the same, and the lengths of their first lines.
pub fn list_paths_differ()
    ensures { ListPathsDiffer }
{}

/// Two [`PathState`]s are equal exactly if they are the same.
pub fn path_state_equality_is_exact()
    ensures { (a b : PathState) → IsTrue (⟦<PathState as PartialEq>⟧.eq a b) ↔ (a ≡ b) }
{}
