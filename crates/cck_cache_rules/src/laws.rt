//! Laws about the definitions. Each is the contract of a function with an empty body.
ghost use Rattle.std.specs.Prelude.{◌≡◌, ◌↔◌, IsTrue};
ghost use Rattle.cck_cache_rules.specs.Checksum.{ChecksumTellsOneWord, ChecksumTellsTwoWords};
ghost use Rattle.cck_cache_rules.specs.ObjectName.{MaterialTellsObject, WithoutBaseTellsTests};
ghost use Rattle.cck_cache_rules.specs.PathTest.{test_of};

use crate::PathTest;

/// Bytes that differ in one of their words, of 4 bytes each, have different checksums.
pub fn checksum_tells_one_word()
    ensures { ChecksumTellsOneWord }
{}

/// Bytes that differ in two of their words have different checksums, if they have fewer than 2^32 words.
pub fn checksum_tells_two_words()
    ensures { ChecksumTellsTwoWords }
{}

/// What is hashed for the names of two objects is equal exactly if their keys, the recorded digests
/// of their inputs and of both groups of their files, and both groups of their tests are. Each length and each
/// count is written before its bytes or items.
pub fn material_tells_object()
    ensures { MaterialTellsObject }
{}

/// Two tests of paths that are those of one base directory or below it have one form without it in the name of an
/// object only if they are the same. No real path begins with a dot.
pub fn without_base_tells_tests()
    ensures { WithoutBaseTellsTests }
{}

/// Two [`PathTest`]s are equal exactly if they are of one kind, and their paths and places are equal.
pub fn path_test_equality_is_exact()
    ensures { (a b : PathTest) →
        IsTrue (⟦<PathTest as PartialEq>⟧.eq a b) ↔ (test_of a ≡ test_of b) }
{}
