//! The results of an entry, as a map holds them.
ghost use Rattle.std.specs.Prelude.{◌≡◌, ◌≤◌, ◌+◌, ◌++◌, ◌∷◌, [], length, map, true, IfErr, IfOk, OnErr, OnOk};
ghost use Rattle.std.specs.BTreeMap.{IsOrdered};
ghost use Rattle.std.specs.FinMap.{insert};
ghost use Rattle.std.specs.String.{string_bytes, string_cmp};
ghost use Rattle.cck_entry.specs.Entry.{entry_in, include_count};
ghost use Rattle.cck_entry.specs.Results.{result_in};
ghost use Rattle.cck_include.specs.Include.{includes_in};
ghost use Rattle.cck_entry.specs.Reading.{comes_after};

use cck_digest::Error;
use cck_include::IncludeEntry;
use std::alloc::Global;
use std::collections::BTreeMap;

/// Keys, and the files that the result of each included.
pub(crate) type Results = BTreeMap<String, Vec<IncludeEntry>>;

/// Puts a result at the end, whose key comes after all others.
pub(crate) fn put_last(
    results: &mut Results,
    key: String,
    includes: Vec<IncludeEntry>,
) -> Result<(), Error>
    requires { comes_after (map result_in results.old.entries) (string_bytes key) ≡ true }
    ensures ok { OnOk result (map result_in results.new.entries
        ≡ map result_in results.old.entries ++ (string_bytes key, includes_in includes.items) ∷ []) }
    ensures ordered { OnOk result (IsOrdered string_cmp results.new) }
    ensures err { IfErr result (λ e. e ≡ Error.Memory) }
{
    results.insert(key, includes)?;
    Ok(())
}

/// Inserts or replaces a key's result, and returns the number of includes that the key had before.
pub(crate) fn insert_counted(
    results: &mut Results,
    key: String,
    includes: Vec<IncludeEntry>,
) -> Result<usize, Error>
    ensures count { IfOk result (λ before. include_count (map result_in results.new.entries) + before
        ≡ include_count (map result_in results.old.entries) + length includes.items) }
    ensures bound { IfOk result (λ before.
        before ≤ include_count (map result_in results.old.entries)) }
    ensures entry { OnOk result (entry_in results.new.entries
        ≡ insert (entry_in results.old.entries) (string_bytes key) (includes_in includes.items)) }
    ensures ordered { IsOrdered string_cmp results.new }
    ensures err { OnErr result (results.new.entries ≡ results.old.entries) }
    ensures memory { IfErr result (λ e. e ≡ Error.Memory) }
{
    match results.insert(key, includes) {
        Ok(None) => Ok(0),
        Ok(Some(old)) => Ok(old.as_slice().len()),
        Err(_) => Err(Error::Memory),
    }
}

/// Returns a copy of the list.
fn copy_includes(alloc: Global, includes: &[IncludeEntry]) -> Result<Vec<IncludeEntry>, Error>
    ensures value { IfOk result (λ copy. includes_in copy.items ≡ includes_in includes.now) }
    ensures err { IfErr result (λ e. e ≡ Error.Memory) }
{
    let mut copies = Vec::new(alloc);
    for include in includes {
        copies.push(include.copy(alloc)?)?;
    }
    Ok(copies)
}

/// Returns a copy of the results.
pub(crate) fn copy_results(alloc: Global, results: &Results) -> Result<Results, Error>
    ensures value { IfOk result (λ copy.
        map result_in copy.entries ≡ map result_in results.now.entries) }
    ensures ordered { IfOk result (λ copy. IsOrdered string_cmp copy) }
    ensures err { IfErr result (λ e. e ≡ Error.Memory) }
{
    let mut copies = BTreeMap::new(alloc);
    for (key, includes) in results {
        let key = String::from_str(alloc, key)?;
        put_last(&mut copies, key, copy_includes(alloc, includes)?)?;
    }
    Ok(copies)
}
