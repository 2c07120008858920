//! The name under which a store keeps an object.
ghost use Rattle.std.specs.Prelude.{◌≡◌, IfOk, IsOkUnless, MatchOption, Some, false, map, string_bytes, true};
ghost use Rattle.std.specs.Option.{option_map};
ghost use Rattle.cck_include.specs.Include.{Include, include_lent};
ghost use Rattle.cck_cache_rules.specs.ObjectName.{after_base, digests_inside, digests_outside, is_inside, object_name, real_after, tests_inside, tests_outside};
ghost use Rattle.cck_cache_rules.specs.PathTest.{tests_of};
ghost use Rattle.cck_cache_rules.specs.Reading.{byte_lists};

use crate::front_coding::hash_front_coded;
use crate::path_test::{PathTest, joined};
use cck_digest::{Digest, HashState, UtilError, hash_len_prefixed};
use cck_include::IncludeRef;
use cck_util::hash_text_list;
use std::alloc::{AllocError, Global};

// What follows this base directory in the path of it or of what is below it. `None` for another path.
fn rest_after<'a>(base: &[u8], path: &'a [u8]) -> Option<&'a [u8]>
    ensures { MatchOption result (is_inside (Some base.now) path.now ≡ false)
        (λ rest. (is_inside (Some base.now) path.now ≡ true) × (rest.now ≡ after_base (Some base.now) path.now)) }
{
    let Some(rest) = path.strip_prefix(base) else {
        return None;
    };
    if rest.is_empty() {
        return Some(rest);
    }
    if rest.starts_with(b"/") {
        Some(rest)
    } else {
        None
    }
}

// The same, where there is a base directory. Without one, `None`.
fn after_base<'a>(base: Option<&str>, path: &'a [u8]) -> Option<&'a [u8]>
    ensures { MatchOption result (is_inside (option_map (λ b. b.now) base.entry) path.now ≡ false)
        (λ rest. (is_inside (option_map (λ b. b.now) base.entry) path.now ≡ true)
        × (rest.now ≡ after_base (option_map (λ b. b.now) base.entry) path.now)) }
{
    match base {
        Some(base) => rest_after(base.as_bytes(), path),
        None => None,
    }
}

// The recorded digests of included files in two groups.
#[derive(Drop)]
struct DigestGroups<'a> {
    // Those of the files that are not below the base directory.
    outside: Vec<&'a [u8]>,
    // Those of the files that are.
    inside: Vec<&'a [u8]>,
}

// The recorded digests of these files by groups, in the order of the files.
fn digest_groups<'a>(
    alloc: Global,
    includes: &[IncludeRef<'a>],
    base: Option<&str>,
) -> Result<DigestGroups<'a>, AllocError>
    ensures outside { IfOk result (λ groups. map (λ d. d.now) groups.outside.items
        ≡ digests_outside (option_map (λ b. b.now) base.entry) (map include_lent includes.now)) }
    ensures inside { IfOk result (λ groups. map (λ d. d.now) groups.inside.items
        ≡ digests_inside (option_map (λ b. b.now) base.entry) (map include_lent includes.now)) }
{
    let mut outside: Vec<&[u8]> = Vec::new(alloc);
    let mut inside: Vec<&[u8]> = Vec::new(alloc);
    for include in includes {
        let digest = include.digest.as_bytes();
        if after_base(base, include.path).is_some() {
            inside.push(digest)?;
        } else {
            outside.push(digest)?;
        }
    }
    Ok(DigestGroups { outside, inside })
}

// A real path, with a dot in the place of the base directory if it is inside.
fn real_after(alloc: Global, base: Option<&str>, real: &[u8]) -> Result<Vec<u8>, AllocError>
    ensures { IfOk result (λ all. all.items ≡ real_after (option_map (λ b. b.now) base.entry) real.now) }
{
    match after_base(base, real) {
        Some(rest) => joined(alloc, b".", rest),
        None => real.to_vec(alloc),
    }
}

// The bytes of tests in two groups.
#[derive(Drop)]
struct TestGroups {
    // Those of paths that are not those of the base directory and below it.
    outside: Vec<Vec<u8>>,
    // Those of paths that are, without the base directory, also in the paths that these lead to.
    inside: Vec<Vec<u8>>,
}

// The bytes of these tests by groups, in the order of the tests.
fn test_groups(
    alloc: Global,
    tests: &[PathTest],
    base: Option<&str>,
) -> Result<TestGroups, AllocError>
    ensures outside { IfOk result (λ groups. byte_lists groups.outside
        ≡ tests_outside (option_map (λ b. b.now) base.entry) (tests_of tests.now)) }
    ensures inside { IfOk result (λ groups. byte_lists groups.inside
        ≡ tests_inside (option_map (λ b. b.now) base.entry) (tests_of tests.now)) }
{
    let mut outside = Vec::new(alloc);
    let mut inside = Vec::new(alloc);
    for test in tests {
        match after_base(base, test.path()) {
            Some(rest) => {
                let real = real_after(alloc, base, test.real())?;
                inside.push(test.write_with(alloc, rest, &real)?)?;
            }
            None => outside.push(test.write(alloc)?)?,
        }
    }
    Ok(TestGroups { outside, inside })
}

/// The name of the object of this key: the hex digest of the key, of this recorded digest of the
/// input, of those of the included files, and of the tests of paths. So two states of a source that have one
/// preprocessed text, and with it one key, have objects of two names, and so have two states of the paths at
/// which headers are looked for.
///
/// The recorded digest of the input is the hex digest of its contents, 64 digits, and 64 more where they
/// show a date.
///
/// The files of the base directory are a group of their own, and so are the tests of paths there, which count
/// without it, also where they lead. Those of two checkouts lie among the system's at other places, as their paths do, and have one
/// order among themselves.
///
/// The only error is [`UtilError::Memory`].
#[tactic(auto, unfolding(crate::specs::ObjectName::object_name))]
pub fn object_name<H: HashState>(
    alloc: Global,
    key: &str,
    input: &str,
    includes: &[IncludeRef<'_>],
    tests: &[PathTest],
    base: Option<&str>,
) -> Result<String, UtilError>
    ensures name { IfOk result (λ name. string_bytes name ≡ object_name H.hash key.now input.now
        (option_map (λ b. b.now) base.entry) (map include_lent includes.now) (tests_of tests.now)) }
    ensures errors { IsOkUnless result UtilError.Memory }
{
    let digests = digest_groups(alloc, includes, base)?;
    let tested = test_groups(alloc, tests, base)?;
    let mut digest = Digest::<H>::new();
    hash_len_prefixed(&mut digest, key.as_bytes());
    hash_len_prefixed(&mut digest, input.as_bytes());
    hash_text_list(&mut digest, &digests.outside);
    hash_text_list(&mut digest, &digests.inside);
    hash_front_coded(&mut digest, &tested.outside);
    hash_front_coded(&mut digest, &tested.inside);
    digest.finish(alloc)
}
