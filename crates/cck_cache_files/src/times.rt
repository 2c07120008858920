//! The times of real files.
ghost use Rattle.std.specs.Prelude.{◌≡◌, ◌<◌, ◌↔◌, IsTrue, MatchOption, pos, ℕ};
ghost use Rattle.cck_cache_files.specs.Times.{IsEarlier, IsSettled, IsSystemTime, IsTimeBefore};

use cck_path::Timestamp;
use std::fs::Metadata;
use std::os::unix::fs::MetadataExt;
use std::time::{Duration, SystemTime, UNIX_EPOCH};

// The time of these seconds and nanoseconds, where the nanoseconds are below a second.
fn time_of(seconds: i64, nanoseconds: i64) -> Option<Timestamp>
    ensures { MatchOption result ((n : ℕ) → n < 1_000_000_000 → nanoseconds ≡ pos n → ⊥)
        (λ time. (time.seconds ≡ seconds) × (nanoseconds ≡ pos time.nanoseconds)) }
{
    let nanoseconds = u32::try_from(nanoseconds).ok()?;
    if nanoseconds < 1_000_000_000 {
        Some(Timestamp::new(seconds, nanoseconds))
    } else {
        None
    }
}

/// When the contents of a file were last modified.
pub fn modified(metadata: &Metadata) -> Option<Timestamp> {
    time_of(metadata.mtime(), metadata.mtime_nsec())
}

/// When the contents or the status of a file last changed.
pub fn changed(metadata: &Metadata) -> Option<Timestamp> {
    time_of(metadata.ctime(), metadata.ctime_nsec())
}

// Whether a time is before this one. A time without a fraction may be one of whole seconds, which some
// file systems keep: it is before only if its second is.
fn is_earlier(time: Timestamp, since: Timestamp) -> bool
    ensures { IsTrue result ↔ IsEarlier time since }
{
    if time.nanoseconds() == 0 {
        time.seconds() < since.seconds()
    } else {
        time < since
    }
}

/// Whether a time is known, and before this one.
fn is_before(time: Option<Timestamp>, since: Timestamp) -> bool
    ensures { IsTrue result ↔ IsTimeBefore time since }
{
    match time {
        Some(time) => is_earlier(time, since),
        None => false,
    }
}

/// Whether a file last changed before this time, by when its contents and its status last did. On a
/// file system that keeps whole seconds, a file that changes within a second, after this time, has the
/// time of the second's begin: so a time without a fraction is before only if its second is.
pub fn changed_before(
    modified: Option<Timestamp>,
    changed: Option<Timestamp>,
    since: Timestamp,
) -> bool
    ensures { IsTrue result ↔ (IsTimeBefore modified since × IsTimeBefore changed since) }
{
    is_before(modified, since) && is_before(changed, since)
}

/// Whether what is at a path was not changed at this time or later, by when its contents and its status
/// last were. A name that comes or goes in a directory changes both times of the directory to one; a
/// change of the directory itself, as to another name, changes that of the status alone.
pub fn is_settled(
    is_directory: bool,
    modified: Option<Timestamp>,
    changed: Option<Timestamp>,
    since: Timestamp,
) -> bool
    ensures { IsTrue result ↔ IsSettled is_directory modified changed since }
{
    let (Some(modified), Some(changed)) = (modified, changed) else {
        return false;
    };
    if is_directory && modified == changed {
        return true;
    }
    is_earlier(modified, since) && is_earlier(changed, since)
}

/// A time as the system has it. `None` for a time before 1970.
pub fn system_time(time: Timestamp) -> Option<SystemTime>
    ensures { IsSystemTime time result }
{
    let seconds = u64::try_from(time.seconds()).ok()?;
    let since = Duration::from_secs(seconds).checked_add(Duration::from_nanos(u64::from(
        time.nanoseconds(),
    )))?;
    UNIX_EPOCH.checked_add(since)
}
