//! Entries.
ghost use Rattle.std.specs.Prelude.{◌≡◌, ◌≢◌, ◌≤◌, ◌<◌, ◌∷◌, [], Ok, length, map, pos, slice_get, Some};
ghost use Rattle.std.specs.FinMap.{entries, len};
ghost use Rattle.cck_include.specs.Include.{include_lent};
ghost use Rattle.cck_entry.specs.Entry.{Entry, Reads, include_count};
ghost use Rattle.cck_entry.specs.Lent.{result_lent};
ghost use Rattle.cck_entry.specs.Results.{KeyResult};
ghost use Rattle.cck_c.specs.Entry.{IsFilled, IsDamaged, IsOtherFormat, IsStatusOf, MayLackMemory, include_fields, key_and_count, passed_include, passed_result, stored_time};
ghost use Rattle.cck_c.specs.Status.{IsOneOf};

use crate::status;
use cck_entry::{EntryView, Error, IncludeRef, Includes, ResultRef, Timestamp};
use std::alloc::Global;

/// How much an entry has.
#[repr(C)]
#[derive(Drop)]
pub struct EntryCounts {
    /// The number of its results.
    pub results: usize,
    /// The number of the includes of all results together.
    pub includes: usize,
}

/// A result of an entry.
#[repr(C)]
#[derive(Clone, Copy)]
pub struct EntryResult<'a> {
    /// Its key, a slice of the entry's bytes.
    pub key: &'a [u8],
    /// The number of its includes.
    pub includes: usize,
}

/// A time, or none.
#[repr(C)]
#[derive(Clone, Copy)]
pub struct EntryTime {
    /// The whole seconds since 1970-01-01T00:00:00Z.
    pub seconds: i64,
    /// The nanoseconds after them, at most 999999999.
    pub nanoseconds: u32,
    /// 1, or 0 if there is no time.
    pub is_known: u8,
}

/// What an entry records of a file that was included.
#[repr(C)]
#[derive(Clone, Copy)]
pub struct EntryInclude<'a> {
    /// The path of the file, a slice of the entry's bytes.
    pub path: &'a [u8],
    /// The digest that was recorded of the file, a slice of the entry's bytes.
    pub digest: &'a [u8],
    /// The number of bytes that the file had.
    pub size: u64,
    /// When its contents were last modified.
    pub modified: EntryTime,
    /// When the file was last changed.
    pub changed: EntryTime,
}

/// Writes the numbers of the results and includes of the entry whose text these bytes are. No bytes
/// are the entry without results.
///
/// It returns [`status::FORMAT`] if the first byte is not 2, [`status::ENTRY`] if the bytes begin
/// with 2 and are the text of no entry, or [`status::MEMORY`], and writes nothing then.
#[unsafe(no_mangle)]
pub extern "C" fn cck_entry_counts(alloc: Global, bytes: &[u8], counts: &mut EntryCounts) -> i32
    ensures done { result ≡ pos 0 → (e : Entry) × Reads (Ok e) bytes.now
        × (counts.new.results ≡ len e) × (counts.new.includes ≡ include_count (entries e)) }
    ensures format { result ≡ pos 5 → IsOtherFormat bytes.now }
    ensures text { result ≡ pos 6 → IsDamaged bytes.now }
    ensures memory { result ≡ pos 1 → MayLackMemory bytes.now }
    ensures only { IsOneOf result (0 ∷ 1 ∷ 5 ∷ 6 ∷ []) }
    ensures kept { result ≢ pos 0 → counts.new ≡ counts.old }
{
    match EntryView::read(alloc, bytes) {
        Ok(view) => {
            counts.results = view.result_count();
            counts.includes = view.number_of_entries();
            status::DONE
        }
        Err(error) => status_of(&error),
    }
}

/// Writes the results of the entry to the start of the array, in the order of their keys' bytes, and
/// their number. The rest of the array stays as it is.
///
/// It returns [`status::FORMAT`], [`status::ENTRY`] or [`status::MEMORY`] as [`cck_entry_counts`]
/// does, or [`status::LENGTH`] if the array is shorter than their number, and writes nothing then.
#[unsafe(no_mangle)]
pub extern "C" fn cck_entry_results<'a>(
    alloc: Global,
    bytes: &'a [u8],
    results: &mut [EntryResult<'a>],
    count: &mut usize,
) -> i32
    ensures done { result ≡ pos 0 → (e : Entry) × Reads (Ok e) bytes.now × (count.new ≡ len e)
        × IsFilled passed_result (map key_and_count (entries e)) results.old results.new }
    ensures short { result ≡ pos 2 → (e : Entry) × Reads (Ok e) bytes.now × (length results.old < len e) }
    ensures format { result ≡ pos 5 → IsOtherFormat bytes.now }
    ensures text { result ≡ pos 6 → IsDamaged bytes.now }
    ensures memory { result ≡ pos 1 → MayLackMemory bytes.now }
    ensures only { IsOneOf result (0 ∷ 1 ∷ 2 ∷ 5 ∷ 6 ∷ []) }
    ensures kept { result ≢ pos 0 → (results.new ≡ results.old) × (count.new ≡ count.old) }
{
    let view = match EntryView::read(alloc, bytes) {
        Ok(view) => view,
        Err(error) => return status_of(&error),
    };
    let all = view.results();
    if results.len() < all.len() {
        return status::LENGTH;
    }
    write_results(all, results);
    *count = all.len();
    status::DONE
}

/// Writes the includes of one result of the entry to the start of the array, in their order, and
/// their number. The index of the result is its place in the order of the keys' bytes, from 0 on. The
/// rest of the array stays as it is.
///
/// It returns [`status::FORMAT`], [`status::ENTRY`] or [`status::MEMORY`] as [`cck_entry_counts`]
/// does, [`status::INDEX`] if the entry has no result of this index, or [`status::LENGTH`] if the
/// array is shorter than the number of includes, and writes nothing then.
#[unsafe(no_mangle)]
pub extern "C" fn cck_entry_includes<'a>(
    alloc: Global,
    bytes: &'a [u8],
    index: usize,
    includes: &mut [EntryInclude<'a>],
    count: &mut usize,
) -> i32
    ensures done { result ≡ pos 0 → (e : Entry) × Reads (Ok e) bytes.now
        × ((r : KeyResult) × (slice_get (entries e) index ≡ Some r) × (count.new ≡ length r.1)
        × IsFilled passed_include (map include_fields (r.1)) includes.old includes.new) }
    ensures short { result ≡ pos 2 → (e : Entry) × Reads (Ok e) bytes.now
        × ((r : KeyResult) × (slice_get (entries e) index ≡ Some r) × (length includes.old < length r.1)) }
    ensures absent { result ≡ pos 8 → (e : Entry) × Reads (Ok e) bytes.now × (len e ≤ index) }
    ensures format { result ≡ pos 5 → IsOtherFormat bytes.now }
    ensures text { result ≡ pos 6 → IsDamaged bytes.now }
    ensures memory { result ≡ pos 1 → MayLackMemory bytes.now }
    ensures only { IsOneOf result (0 ∷ 1 ∷ 2 ∷ 5 ∷ 6 ∷ 8 ∷ []) }
    ensures kept { result ≢ pos 0 → (includes.new ≡ includes.old) × (count.new ≡ count.old) }
{
    let view = match EntryView::read(alloc, bytes) {
        Ok(view) => view,
        Err(error) => return status_of(&error),
    };
    let Some(one) = view.results().get(index) else {
        return status::INDEX;
    };
    let length = one.include_count();
    if includes.len() < length {
        return status::LENGTH;
    }
    write_includes(one.includes(), includes);
    *count = length;
    status::DONE
}

// Returns the status of an error of reading an entry.
fn status_of(error: &Error) -> i32
    ensures { IsStatusOf error.now result }
{
    match error {
        Error::Memory => status::MEMORY,
        Error::UnknownFormat(_) => status::FORMAT,
        Error::Deserialization | Error::Io(_) => status::ENTRY,
    }
}

// Writes the results to the start of the array.
fn write_results<'a>(all: &[ResultRef<'a>], results: &mut [EntryResult<'a>])
    requires { length all.now ≤ length results.old }
    ensures { IsFilled passed_result (map key_and_count (map result_lent all.now)) results.old results.new }
{
    for (index, one) in all.iter().enumerate() {
        results[index] = EntryResult {
            key: one.key().as_bytes(),
            includes: one.include_count(),
        };
    }
}

// Writes the includes to the start of the array.
fn write_includes<'a>(all: Includes<'a>, includes: &mut [EntryInclude<'a>])
    requires { length all ≤ length includes.old }
    ensures { IsFilled passed_include (map include_fields all.entry) includes.old includes.new }
{
    let mut index = 0;
    for include in all {
        includes[index] = passed(&include);
        index += 1;
    }
}

// Returns the include as it is passed to a caller.
fn passed<'a>(include: &IncludeRef<'a>) -> EntryInclude<'a>
    ensures { passed_include result ≡ include_fields (include_lent include.now) }
{
    EntryInclude {
        path: include.path,
        digest: include.digest.as_bytes(),
        size: include.file_size,
        modified: passed_time(include.mtime),
        changed: passed_time(include.ctime),
    }
}

// Returns the time as it is passed to a caller.
fn passed_time(time: Option<Timestamp>) -> EntryTime
    ensures { result ≡ stored_time time }
{
    match time {
        Some(time) => EntryTime {
            seconds: time.seconds(),
            nanoseconds: time.nanoseconds(),
            is_known: 1,
        },
        None => EntryTime {
            seconds: 0,
            nanoseconds: 0,
            is_known: 0,
        },
    }
}
