//! The numbers of a script.
ghost use Rattle.std.specs.Prelude.{◌≡◌, ℕ, ◌+◌, ◌-◌, ◌*◌, ◌≤◌, ◌≤ℤ◌, pos, neg_ℤ, IsTrue, IfSome};
ghost use Rattle.cck_command.specs.ScriptNumbers.{capped, file_time, integer, is_digit, magnitude, ordinal, time, up_to, zone_offset};

use cck_path::Timestamp;

// The greatest offset of a zone: a second less than a day.
const GREATEST_OFFSET: u64 = 86_399;

// Whether the byte is a decimal digit.
fn is_digit(byte: u8) -> bool
    ensures { result ≡ is_digit byte }
{
    b'0' <= byte && byte <= b'9'
}

// The number with one more digit, as long as it fits.
#[tactic(auto, unfolding(crate::specs::ScriptNumbers::capped))]
fn with_digit(value: Option<u64>, byte: u8) -> Option<u64>
    requires { IsTrue (is_digit byte) }
    ensures { (n : ℕ) → value ≡ capped n → result ≡ capped (n * 10 + (byte - 48)) }
{
    let tens = value?.checked_mul(10)?;
    tens.checked_add((byte - b'0') as u64)
}

// The number that decimal digits write, if it fits.
#[tactic(auto, unfolding(crate::specs::ScriptNumbers::magnitude, crate::specs::ScriptNumbers::capped))]
fn magnitude(text: &[u8]) -> Option<u64>
    ensures { result ≡ magnitude text.now }
{
    if text.is_empty() {
        return None;
    }
    let mut value: Option<u64> = Some(0);
    for byte in text {
        if !is_digit(*byte) {
            return None;
        }
        value = with_digit(value, *byte);
    }
    value
}

// The number that decimal digits write, up to a bound.
fn number_up_to(most: u64, text: &[u8]) -> Option<u64>
    ensures value { result ≡ up_to most (magnitude text.now) }
    ensures within { IfSome result (λ n. n ≤ most) }
{
    let n = magnitude(text)?;
    if n <= most { Some(n) } else { None }
}

// The number that digits write, with one `-` before them where it is negative: up to one bound, and
// down to the other.
#[tactic(auto, unfolding(crate::specs::ScriptNumbers::integer))]
fn integer(least: u64, most: u64, text: &[u8]) -> Option<i128>
    ensures value { result ≡ integer least most text.now }
    ensures within { IfSome result (λ z. (neg_ℤ (pos least) ≤ℤ z) × (z ≤ℤ pos most)) }
{
    match text {
        [] => None,
        [b'-', digits @ ..] => Some(-(number_up_to(least, digits)? as i128)),
        _ => Some(number_up_to(most, text)? as i128),
    }
}

/// The number of a call of the store, which is counted from 1.
#[tactic(auto, unfolding(crate::specs::ScriptNumbers::ordinal))]
pub(crate) fn ordinal(text: &[u8]) -> Option<u64>
    ensures { result ≡ ordinal text.now }
{
    let n = magnitude(text)?;
    if n == 0 { None } else { Some(n) }
}

/// The offset of a zone, in seconds east of UTC: less than a day.
#[tactic(auto, unfolding(crate::specs::ScriptNumbers::zone_offset))]
pub(crate) fn zone_offset(text: &[u8]) -> Option<i32>
    ensures { result ≡ zone_offset text.now }
{
    let seconds = integer(GREATEST_OFFSET, GREATEST_OFFSET, text)?;
    Some(seconds as i32)
}

/// Returns the time at a number of nanoseconds since 1970-01-01T00:00:00Z. It is `None` if the text
/// is no such number or if it doesn't fit an `i64`.
#[tactic(auto, unfolding(crate::specs::ScriptNumbers::time))]
pub(crate) fn time(text: &[u8]) -> Option<Timestamp>
    ensures { result ≡ time text.now }
{
    let nanos = integer(1 << 63, (1 << 63) - 1, text)?;
    Some(Timestamp::from_nanos(nanos))
}

/// Returns the time of a file, or no time for a lone `-`.
#[tactic(auto, unfolding(crate::specs::ScriptNumbers::file_time))]
pub(crate) fn file_time(text: &[u8]) -> Option<Option<Timestamp>>
    ensures { result ≡ file_time text.now }
{
    match text {
        [b'-'] => Some(None),
        _ => Some(Some(time(text)?)),
    }
}
