//! The variables of the environment that change a compiler's output.
ghost use Rattle.std.specs.Prelude.{◌≡◌, ℕ, List, ◌++◌, length, map};
ghost use Rattle.std.specs.List.{list_any};
ghost use Rattle.std.specs.Str.{bytes_eq};
ghost use Rattle.cck_digest.specs.Frames.{framed_list};
ghost use Rattle.cck_path.specs.Bytes.{variables_of};
ghost use Rattle.cck_util.specs.Variables.{include_path_names, object_variable_names, object_variables, request_variables, variable_frames, variables_named};

use cck_digest::{Digest, HashState, hash_len_prefixed, hash_length};

// The names of the variables that are part of the preprocessor key. The first are also part of an
// object's key; the others list the preprocessor's include directories.
const REQUEST_VARIABLES: [&[u8]; 12] = [
    b"SCCACHE_C_CUSTOM_CACHE_BUSTER",
    b"MACOSX_DEPLOYMENT_TARGET",
    b"IPHONEOS_DEPLOYMENT_TARGET",
    b"TVOS_DEPLOYMENT_TARGET",
    b"WATCHOS_DEPLOYMENT_TARGET",
    b"SDKROOT",
    b"CCC_OVERRIDE_OPTIONS",
    b"CPATH",
    b"C_INCLUDE_PATH",
    b"CPLUS_INCLUDE_PATH",
    b"OBJC_INCLUDE_PATH",
    b"OBJCPLUS_INCLUDE_PATH",
];

// The number of these that are part of an object's key.
const OBJECT_VARIABLES: usize = 7;

/// The names of the variables that are part of the preprocessor key: those of an object's key, and
/// those that list the preprocessor's include directories. A program that keeps objects passes the
/// variables of these names, in this order.
pub fn request_variable_names() -> &'static [&'static [u8]]
    ensures { map (λ name. name.now) result.now ≡ object_variable_names ++ include_path_names }
{
    &REQUEST_VARIABLES
}

// Returns whether the name is one of these, byte for byte.
fn is_one_of(name: &[u8], names: &[&[u8]]) -> bool
    ensures { result ≡ list_any (bytes_eq name.now) (map (λ n. n.now) names.now) }
{
    for known in names {
        if name == *known {
            return true;
        }
    }
    false
}

// Returns the number of variables that have one of these names.
fn count_named(variables: &[(Vec<u8>, Vec<u8>)], names: &[&[u8]]) -> usize
    ensures { result ≡ length (variables_named (map (λ n. n.now) names.now) (variables_of variables.now)) }
{
    let mut count = 0;
    for (name, _) in variables {
        if is_one_of(name, names) {
            count += 1;
        }
    }
    count
}

/// Feeds the count of the variables that have one of these names, then for each, in order, a frame
/// of its name and one of its value. A name that occurs twice is fed twice. It allocates no memory.
pub fn hash_variable_list<H: HashState>(
    digest: &mut Digest<H>,
    variables: &[(Vec<u8>, Vec<u8>)],
    names: &[&[u8]],
)
    ensures { (fed : List ℕ) → H.holds digest.old fed →
        H.holds digest.new (fed ++ framed_list variable_frames
        (variables_named (map (λ n. n.now) names.now) (variables_of variables.now))) }
{
    hash_length(digest, count_named(variables, names));
    for variable in variables {
        if is_one_of(&variable.0, names) {
            hash_len_prefixed(digest, &variable.0);
            hash_len_prefixed(digest, &variable.1);
        }
    }
}

// Feeds the variables that are part of an object's key.
pub(crate) fn hash_object_variables<H: HashState>(
    digest: &mut Digest<H>,
    variables: &[(Vec<u8>, Vec<u8>)],
)
    ensures { (fed : List ℕ) → H.holds digest.old fed →
        H.holds digest.new (fed ++ framed_list variable_frames
        (object_variables (variables_of variables.now))) }
{
    hash_variable_list(digest, variables, &REQUEST_VARIABLES[..OBJECT_VARIABLES]);
}

/// Feeds the variables that are part of the preprocessor key, as [`hash_variable_list`] does: those
/// of an object's key, and those that list the preprocessor's include directories. It takes no
/// memory.
pub fn hash_request_variables<H: HashState>(
    digest: &mut Digest<H>,
    variables: &[(Vec<u8>, Vec<u8>)],
)
    ensures { (fed : List ℕ) → H.holds digest.old fed →
        H.holds digest.new (fed ++ framed_list variable_frames
        (request_variables (variables_of variables.now))) }
{
    hash_variable_list(digest, variables, &REQUEST_VARIABLES);
}
