//! Laws about the definitions. Each is the contract of a function with an empty body.
ghost use Rattle.std.specs.Int.{to_le_bytes, w64};
ghost use Rattle.std.specs.Prelude.{◌≡◌, ◌↔◌, ◌<◌, ◌^◌, ℕ, IsTrue, List, length};
ghost use Rattle.cck_digest.specs.Digest.{HexTellsBytes, digest_text};
ghost use Rattle.cck_digest.specs.Frames.{length_bytes};
ghost use Rattle.cck_digest.specs.TimeMacros.{HasIsTested};

use crate::{Error, FileError, HashState, KeyError, PreprocessError, UtilError};

/// Bytes with equal digits are equal, so a hex digest determines its digest.
pub fn hex_tells_bytes()
    ensures { HexTellsBytes }
{}

/// A hex digest has 64 characters, whatever the hash function is.
pub fn text_has_64_characters<H: HashState>()
    ensures { (fed : List ℕ) → length (digest_text H.hash fed) ≡ 64 }
{}

/// A length below 2^64, as every length and every count of a program is, is written as the bytes of
/// a 64-bit number, the lowest first.
pub fn lengths_are_little_endian()
    ensures { (n : ℕ) → n < 2 ^ 64 → length_bytes n ≡ to_le_bytes w64 n }
{}

/// The Boolean definition `has` is true exactly if the text contains the word.
pub fn has_is_tested()
    ensures { HasIsTested }
{}

/// Two [`FileError`]s are equal exactly if they are the same.
pub fn file_error_equality_is_exact()
    ensures { (a b : FileError) → IsTrue (⟦<FileError as PartialEq>⟧.eq a b) ↔ (a ≡ b) }
{}

/// Two [`UtilError`]s are equal exactly if they are the same error with the same cause.
pub fn util_error_equality_is_exact()
    ensures { (a b : UtilError) → IsTrue (⟦<UtilError as PartialEq>⟧.eq a b) ↔ (a ≡ b) }
{}

/// Two [`KeyError`]s are equal exactly if they are the same variant with the same cause.
pub fn key_error_equality_is_exact()
    ensures { (a b : KeyError) → IsTrue (⟦<KeyError as PartialEq>⟧.eq a b) ↔ (a ≡ b) }
{}

/// Two [`PreprocessError`]s are equal exactly if they are the same variant with the same cause.
pub fn preprocess_error_equality_is_exact()
    ensures { (a b : PreprocessError) →
        IsTrue (⟦<PreprocessError as PartialEq>⟧.eq a b) ↔ (a ≡ b) }
{}

/// Two [`Error`]s are equal exactly if they are the same error with the same cause.
pub fn error_equality_is_exact()
    ensures { (a b : Error) → IsTrue (⟦<Error as PartialEq>⟧.eq a b) ↔ (a ≡ b) }
{}
