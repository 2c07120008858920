//! Results as borrowed from the bytes of an entry.
ghost use Rattle.std.specs.Prelude.{◌≡◌, ◌<◌, ◌^◌, IfErr, IfOk, IsSome, map, true};
ghost use Rattle.std.specs.BTreeMap.{IsOrdered};
ghost use Rattle.std.specs.FinMap.{is_sorted};
ghost use Rattle.std.specs.List.{AllByRecursion};
ghost use Rattle.std.specs.String.{string_cmp};
ghost use Rattle.cck_include.specs.Include.{includes_in};
ghost use Rattle.cck_path.specs.TextOrder.{text_cmp};
ghost use Rattle.cck_entry.specs.Lent.{IsWhole, counts, includes_begun, result_lent};
ghost use Rattle.cck_entry.specs.Reading.{comes_after, includes_at};
ghost use Rattle.cck_entry.specs.Results.{result_in};

use crate::reading::read_include_again;
use crate::result_ref::ResultRef;
use crate::results::{Results, put_last};
use cck_digest::Error;
use cck_include::IncludeEntry;
use std::alloc::Global;
use std::collections::BTreeMap;

/// Returns the number of includes of all results together.
pub(crate) fn total(results: &[ResultRef<'_>]) -> usize
    requires { counts results.now < 2 ^ 64 }
    ensures { result ≡ counts results.now }
{
    let mut count = 0;
    for lent in results {
        count += lent.count as usize;
    }
    count
}

/// Whether a key comes after those of results whose keys ascend.
pub(crate) fn comes_last(results: &[ResultRef<'_>], key: &str) -> bool
    requires { is_sorted text_cmp (map result_lent results.now) ≡ true }
    ensures { result ≡ comes_after (map result_lent results.now) key.now }
{
    match results.last() {
        None => true,
        Some(last) => last.key < key,
    }
}

/// Returns copies of the first `count` includes of the bytes.
pub(crate) fn copy_includes(
    alloc: Global,
    count: u64,
    bytes: &[u8],
) -> Result<Vec<IncludeEntry>, Error>
    requires { IsSome (includes_at count bytes.now) }
    ensures value { IfOk result (λ copy. includes_in copy.items ≡ includes_begun count bytes.now) }
    ensures err { IfErr result (λ e. e ≡ Error.Memory) }
{
    let mut copies = Vec::new(alloc);
    let mut rest = bytes;
    for _ in 0..count {
        let (include, after) = match read_include_again(rest) {
            Ok(read) => read,
            Err(error) => return Err(error)
        };
        copies.push(include.copy(alloc)?)?;
        rest = after;
    }
    Ok(copies)
}

/// Returns copies of the results.
pub(crate) fn copy_results(alloc: Global, results: &[ResultRef<'_>]) -> Result<Results, Error>
    requires { is_sorted text_cmp (map result_lent results.now) ≡ true }
    ensures value { IfOk result (λ copy.
        map result_in copy.entries ≡ map result_lent results.now) }
    ensures ordered { IfOk result (λ copy. IsOrdered string_cmp copy) }
    ensures err { IfErr result (λ e. e ≡ Error.Memory) }
{
    let mut copies = BTreeMap::new(alloc);
    for lent in results {
        let key = String::from_str(alloc, lent.key)?;
        put_last(
            &mut copies,
            key,
            copy_includes(alloc, lent.count, lent.includes)?,
        )?;
    }
    Ok(copies)
}
