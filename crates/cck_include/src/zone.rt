//! Time zones of a fixed offset.
ghost use Rattle.std.specs.Prelude.{◌≡◌, ◌↔◌, IfSome, IsSome};
ghost use Rattle.jiff.specs.Types.{Offset as PlainOffset};
ghost use Rattle.jiff.specs.Words.{fixed_zone, plain_zone};
ghost use Rattle.jiff_core.specs.Timestamp.{IsOffsetSeconds};

use jiff::tz::{Offset, TimeZone};

/// Returns the zone with a fixed offset of `seconds` seconds east of UTC, or `None` exactly for an
/// offset of more than 93599 seconds, 25:59:59, to either side.
pub fn zone_at(seconds: i32) -> Option<TimeZone<'static>>
    ensures offset { IsSome result ↔ IsOffsetSeconds seconds }
    ensures zone { IfSome result (λ zone. (offset : PlainOffset) × (offset.seconds ≡ seconds)
        × (plain_zone zone ≡ fixed_zone offset)) }
{
    match Offset::from_seconds(seconds) {
        Ok(offset) => Some(TimeZone::fixed(offset)),
        Err(_) => None,
    }
}
