//! The names of objects.
ghost use Rattle.std.specs.Prelude.{◌≡◌, Contains, IfOk, List, MatchOption, map, string_bytes};
ghost use Rattle.std.specs.FinMap.{entries};
ghost use Rattle.cck_cache.specs.Naming.{IsName, IsNameIn};
ghost use Rattle.cck_cache_rules.specs.PathTest.{tests_of};
ghost use Rattle.cck_entry.specs.Lent.{result_lent};
ghost use Rattle.cck_include.specs.Include.{Include, include_lent};

use crate::request::base_words;
use anyhow::{Result, bail};
use cck_cache_files::Request;
use cck_cache_rules::{PathTest, base_of, object_name};
use cck_entry::{EntryView, IncludeRef, ResultRef};
use cck_util::Sha256State;
use std::alloc::{AllocError, Global};

// The result of a key in an entry, if it has one.
fn result_of<'a>(entry: &EntryView<'a>, key: &str) -> Option<ResultRef<'a>>
    ensures { MatchOption result ((includes : List Include) → Contains (entries entry.now) (key.now, includes) → ⊥)
        (λ r. Contains (entries entry.now) (key.now, (result_lent r).1)) }
{
    for result in entry.results() {
        if result.key() == key {
            return Some(*result);
        }
    }
    None
}

// The files that a result included.
fn includes_of<'a>(alloc: Global, found: &ResultRef<'a>) -> Result<Vec<IncludeRef<'a>>, AllocError>
    ensures { IfOk result (λ all. map include_lent all.items ≡ (result_lent found.now).1) }
{
    found.includes().collect(alloc)
}

/// The name of the object of a key that is a result of this entry, for an input of this recorded digest, and these
/// tests of paths. Two states of the paths at which headers are looked for may have one text, and objects that differ.
///
/// The error is of an entry without such a result, or lack of memory.
pub fn name_of(
    alloc: Global,
    request: &Request<'_>,
    input: &str,
    key: &str,
    entry: &EntryView<'_>,
    tests: &[PathTest],
) -> Result<String>
    ensures { IfOk result (λ name. IsName request.now input.now entry.now (tests_of tests.now) key.now (string_bytes name)) }
{
    let Some(found) = result_of(entry, key) else {
        bail!("the entry has no result of the key {key}");
    };
    let includes = includes_of(alloc, &found)?;
    let words = base_words(request);
    let base = base_of(&words);
    let name = object_name::<Sha256State>(alloc, key, input, &includes, tests, base)?;
    Ok(name)
}

/// The same by the bytes of an entry. The error may also be of bytes that are the text of no entry.
pub fn name_in(
    alloc: Global,
    request: &Request<'_>,
    input: &str,
    key: &str,
    bytes: &[u8],
    tests: &[PathTest],
) -> Result<String>
    ensures { IfOk result (λ name. IsNameIn request.now input.now bytes.now (tests_of tests.now) key.now (string_bytes name)) }
{
    if bytes.is_empty() {
        bail!("the entry is empty");
    }
    let entry = EntryView::read(alloc, bytes)?;
    name_of(alloc, request, input, key, &entry, tests)
}
