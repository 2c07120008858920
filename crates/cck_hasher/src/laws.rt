//! Laws about the definitions, each the contract of a function that does nothing.
ghost use Rattle.std.specs.Prelude.{◌≡◌, ◌↔◌, IsTrue, List, ℕ};
ghost use Rattle.cck_files.specs.Calls.{AreCalls};
ghost use Rattle.cck_path.specs.Path.{Path};
ghost use Rattle.cck_hasher.specs.Decided.{IsAskedFor, Context, LooksForNone};
ghost use Rattle.cck_hasher.specs.WalkResult.{accepted_of};

use crate::{LineAction, Walk};
use cck_files::Files;

/// Two [`Walk`]s are equal exactly if both accepted a text with the same paths and digests, byte for
/// byte and in the same order, or both texts are refused.
pub fn walk_equality_is_exact()
    ensures { (a b : Walk) →
        IsTrue (⟦<Walk as PartialEq>⟧.eq a b) ↔ (accepted_of a ≡ accepted_of b) }
{}

/// Two [`LineAction`]s are equal exactly if they are the same, with the same fields.
pub fn line_action_equality_is_exact()
    ensures { (a b : LineAction) → IsTrue (⟦<LineAction as PartialEq>⟧.eq a b) ↔ (a ≡ b) }
{}

/// If no file is looked for by a name of a text, then no path is, and a walk over the text leaves
/// the files unchanged.
pub fn nothing_is_asked<F: Files>()
    ensures path { (c : Context) (text : List ℕ) → LooksForNone c text →
        (p : Path) → IsAskedFor c text p → ⊥ }
    ensures files { (c : Context) (text : List ℕ) → LooksForNone c text →
        (before after : F) → AreCalls F.is_call (IsAskedFor c text) before after → after ≡ before }
{}
