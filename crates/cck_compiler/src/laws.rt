//! Laws about the definitions, each the contract of a function that does nothing.
ghost use Rattle.std.specs.Prelude.{◌≡◌, ◌↔◌, IsTrue};
ghost use Rattle.cck_compiler.specs.PreprocessorKey.{PreprocessorMaterialTellsParts};
ghost use Rattle.cck_compiler.specs.Seen.{arguments_of};

use crate::{ArtifactDescriptor, CCompilerKind, ColorMode, ParsedArguments};

/// Two values of [`ParsedArguments`] are equal exactly if all their fields say the same, byte for
/// byte.
pub fn parsed_arguments_equality_is_exact()
    ensures { (a b : ParsedArguments) →
        IsTrue (⟦<ParsedArguments as PartialEq>⟧.eq a b) ↔ (arguments_of a ≡ arguments_of b) }
{}

/// Two [`ArtifactDescriptor`]s are equal exactly if both their fields are, the path byte for byte.
pub fn artifact_descriptor_equality_is_exact()
    ensures { (a b : ArtifactDescriptor) →
        IsTrue (⟦<ArtifactDescriptor as PartialEq>⟧.eq a b)
        ↔ ((a.path.items ≡ b.path.items) × (a.optional ≡ b.optional)) }
{}

/// Two values of [`CCompilerKind`] are equal exactly if they are the same.
pub fn c_compiler_kind_equality_is_exact()
    ensures { (a b : CCompilerKind) →
        IsTrue (⟦<CCompilerKind as PartialEq>⟧.eq a b) ↔ (a ≡ b) }
{}

/// Two [`ColorMode`]s are equal exactly if they are the same.
pub fn color_mode_equality_is_exact()
    ensures { (a b : ColorMode) → IsTrue (⟦<ColorMode as PartialEq>⟧.eq a b) ↔ (a ≡ b) }
{}

/// Two key materials are equal exactly if their parts are: the parts of the request that are
/// hashed, the hex digests of the extra files, and the recorded digest of the input.
///
/// Each length and each count is written before its bytes or items, so different parts never have
/// the same key material.
pub fn preprocessor_material_tells_parts()
    ensures { PreprocessorMaterialTellsParts }
{}
