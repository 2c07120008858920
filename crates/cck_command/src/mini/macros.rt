//! The texts of the macros.
ghost use Rattle.std.specs.Prelude.{◌≡◌, ◌+ℤ◌, IfOk, pos, string_bytes};
ghost use Rattle.std.specs.Fmt.{signed_decimal};
ghost use Rattle.std.specs.Int.{int_div_euclid};
ghost use Rattle.cck_command.specs.MiniPrinted.{macros_of, second_of};
ghost use Rattle.cck_command.specs.MiniSeen.{macros_seen};

use cck_path::Timestamp;
use std::alloc::{AllocError, Global};

const SECONDS_IN_A_DAY: i128 = 86_400;

/// The texts of the three macros in one file.
#[derive(Drop)]
pub(crate) struct Macros {
    /// The text of `__DATE__`.
    pub(crate) date: String,
    /// The text of `__TIME__`.
    pub(crate) time: String,
    /// The text of `__TIMESTAMP__`.
    pub(crate) timestamp: String,
}

/// Returns the texts of the macros at a call time, in a file that was modified at this time, in a
/// zone with an offset in seconds east of UTC.
#[tactic(auto, unfolding(crate::specs::MiniPrinted::macros_of))]
pub(crate) fn macros_for(
    alloc: Global,
    zone_offset: i32,
    moment: Timestamp,
    modified: Option<Timestamp>,
) -> Result<Macros, AllocError>
    ensures { IfOk result (λ m. macros_seen m ≡ macros_of zone_offset moment modified) }
{
    let date = day_text(alloc, moment.seconds(), zone_offset)?;
    let time = second_text(alloc, moment.seconds(), zone_offset)?;
    let timestamp = modified_text(alloc, modified, zone_offset)?;
    Ok(Macros {
        date,
        time,
        timestamp,
    })
}

// The number of a local second.
fn second_text(alloc: Global, seconds: i64, zone_offset: i32) -> Result<String, AllocError>
    ensures { IfOk result (λ text. string_bytes text ≡ signed_decimal (seconds +ℤ zone_offset)) }
{
    let second = (seconds as i128) + (zone_offset as i128);
    format!(in alloc; "{second}")
}

// The number of the local day of a second.
fn day_text(alloc: Global, seconds: i64, zone_offset: i32) -> Result<String, AllocError>
    ensures { IfOk result (λ text. string_bytes text
        ≡ signed_decimal (int_div_euclid (seconds +ℤ zone_offset) (pos 86400))) }
{
    let second = (seconds as i128) + (zone_offset as i128);
    let day = second.div_euclid(SECONDS_IN_A_DAY);
    format!(in alloc; "{day}")
}

// The number of the local second of a modification, or `?`.
fn modified_text(
    alloc: Global,
    modified: Option<Timestamp>,
    zone_offset: i32,
) -> Result<String, AllocError>
    ensures { IfOk result (λ text. string_bytes text ≡ second_of zone_offset modified) }
{
    let Some(time) = modified else {
        return String::from_str(alloc, "?");
    };
    second_text(alloc, time.seconds(), zone_offset)
}
