//! The time that a look-up printed.
ghost use Rattle.std.specs.Prelude.{MatchOption, ℕ, ℤ};
ghost use Rattle.cck_cache_options.specs.Stamp.{IsStamp};

use cck_path::Timestamp;

/// The time that a stamp says: seconds, a point and nanoseconds, below 1000000000. `None` for every
/// other text.
pub fn stamp_of(text: &str) -> Option<Timestamp>
    ensures { MatchOption result ((seconds : ℤ) (nanoseconds : ℕ) → IsStamp text.now seconds nanoseconds → ⊥)
        (λ time. IsStamp text.now time.seconds time.nanoseconds) }
{
    let (seconds, nanoseconds) = text.split_once('.')?;
    let seconds = seconds.parse::<i64>().ok()?;
    let nanoseconds = nanoseconds.parse::<u32>().ok()?;
    if nanoseconds < 1_000_000_000 {
        Some(Timestamp::new(seconds, nanoseconds))
    } else {
        None
    }
}
