//! The ages of a store's files.
ghost use Rattle.std.specs.Prelude.{◌↔◌, ◌+ℤ◌, ◌<ℤ◌, IsTrue, pos};
ghost use Rattle.cck_cache_rules.specs.Age.{IsAbandoned};

use cck_path::Timestamp;

/// The seconds after which a file that was not renamed is left over.
const ABANDONED_SECONDS: i64 = 3600;

/// The seconds of a day.
const DAY_SECONDS: i64 = 86_400;

/// Whether a file was left by a recording that was killed: it was not renamed (`is_new`), and was last
/// written more than an hour before now, by whole seconds.
pub fn is_abandoned(is_new: bool, written: Timestamp, now: Timestamp) -> bool
    ensures { IsTrue result ↔ IsAbandoned is_new written.seconds now.seconds }
{
    is_new && written.seconds() < now.seconds().saturating_sub(ABANDONED_SECONDS)
}

/// Whether a file was last used more than a day before now, by whole seconds. One that was used after now, by
/// another clock, was not.
pub fn is_day_old(used: Timestamp, now: Timestamp) -> bool
    ensures { IsTrue result ↔ ((used.seconds +ℤ pos 86400) <ℤ now.seconds) }
{
    used.seconds() < now.seconds().saturating_sub(DAY_SECONDS)
}
