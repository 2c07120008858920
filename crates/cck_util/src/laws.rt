//! Laws about the definitions. Each is the contract of a function that does nothing.
ghost use Rattle.std.specs.Prelude.{◌≡◌, ◌↔◌, IsTrue, count_by};
ghost use Rattle.cck_util.specs.Key.{cache_version};
ghost use Rattle.cck_util.specs.Laws.{EqualWithoutBasedirs, MaterialTellsParts};

use crate::{CACHE_VERSION, Language, StoreError, UnknownLanguage};
pub use cck_digest::laws::{
    file_error_equality_is_exact, has_is_tested, hex_tells_bytes, lengths_are_little_endian,
    text_has_64_characters, util_error_equality_is_exact,
};
pub use cck_files::laws::{
    calls_fail_as_armed, errors_tell_no_material, file_material, folder_material,
    node_equality_is_exact, reached_tells,
};
pub use cck_path::laws::{
    component_equality_is_exact, components_in_order, escape_is_undone,
    file_kind_equality_is_exact, metadata_equality_is_exact, names_that_lead, timestamps_by_nanos,
};
pub use cck_strip::laws::{
    arguments_have_cuts, cut_equality_is_exact, cuts_are_unique, cuts_exist, stripped_by_any_cuts,
    texts_have_cuts,
};

/// Two key materials are equal exactly if their parts are equal.
///
/// Each length and each count is written before its bytes or items, so different parts never have
/// the same key material.
pub fn material_tells_parts()
    ensures { MaterialTellsParts }
{}

/// If arguments and texts are equal after their base directories are cut out, and all other parts
/// are equal, then the keys are equal. So two checkouts share a key.
pub fn equal_without_basedirs()
    ensures { EqualWithoutBasedirs }
{}

/// Two [`Language`]s are equal exactly if they are the same.
pub fn language_equality_is_exact()
    ensures { (a b : Language) → IsTrue (⟦<Language as PartialEq>⟧.eq a b) ↔ (a ≡ b) }
{}

/// Two [`UnknownLanguage`]s are always equal, since the type has one value.
pub fn unknown_language_equality_is_exact()
    ensures { (a b : UnknownLanguage) →
        IsTrue (⟦<UnknownLanguage as PartialEq>⟧.eq a b) ↔ (a ≡ b) }
{}

/// [`Language::ALL`] has each language once.
pub fn each_language_once()
    ensures { (language : Language) →
        count_by (⟦<Language as PartialEq>⟧.eq language) Language.ALL ≡ 1 }
{}

/// [`CACHE_VERSION`] is the version in the definition of the key material.
pub fn version_in_the_material()
    ensures { CACHE_VERSION.now ≡ cache_version }
{}

/// Two [`StoreError`]s are equal exactly if they are the same.
pub fn store_error_equality_is_exact()
    ensures { (a b : StoreError) → IsTrue (⟦<StoreError as PartialEq>⟧.eq a b) ↔ (a ≡ b) }
{}
