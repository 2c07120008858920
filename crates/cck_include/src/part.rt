//! The time part of a file: what its time macros show at a call time, in a zone.
ghost use Rattle.std.specs.Prelude.{◌≡◌, ◌++◌, codes, IfOk, IfErr, OnOk, Some, option_map};
ghost use Rattle.cck_digest.specs.Frames.{framed_option, length_bytes};
ghost use Rattle.cck_path.specs.Bytes.{variables_of};
ghost use Rattle.jiff.specs.Words.{plain_zone};
ghost use Rattle.cck_include.specs.Calendar.{civil_date};
ghost use Rattle.cck_include.specs.TimePart.{IsAppended, date_bytes, date_part, delimiter, i32_bytes, i64_bytes, instant_nanos, local_date, local_second, source_date_epoch, timestamp_part, time_part, u32_bytes};

use cck_digest::Error;
use cck_path::{Timestamp, first_value};
use jiff::civil::Date;
use jiff::tz::TimeZone;
use std::alloc::{AllocError, Global};

// Returns the instant of the time `moment`, if it is in `jiff`'s range.
fn instant_of(moment: Timestamp) -> Option<jiff::Timestamp>
    ensures { option_map (λ t. t.nanosecond) result ≡ instant_nanos moment }
{
    let nanos = moment.seconds() as i128 * 1_000_000_000 + moment.nanoseconds() as i128;
    jiff::Timestamp::from_nanosecond(nanos).ok()
}

// Returns the date in the zone at the instant.
fn date_at(zone: &TimeZone<'_>, instant: jiff::Timestamp) -> Date
    ensures { local_date (plain_zone zone.now) instant.nanosecond
        ≡ Some (civil_date result) }
{
    zone.to_datetime(instant).date()
}

// Returns the civil second in the zone at the instant. Second 0 is the first of 1970.
fn second_at(zone: &TimeZone<'_>, instant: jiff::Timestamp) -> i64
    ensures { result ≡ local_second (plain_zone zone.now) instant.nanosecond }
{
    zone.to_datetime(instant).to_plain().to_second()
}

// Appends a delimiter with this name.
#[tactic(auto, unfolding(crate::specs::TimePart::delimiter))]
fn put_delimiter(part: &mut Vec<u8>, name: &[u8]) -> Result<(), AllocError>
    ensures { OnOk result (part.new.items ≡ part.old.items ++ delimiter name.now) }
{
    part.extend_from_slice(b"\0SCCACHE\0")?;
    part.extend_from_slice(name)?;
    part.push(0)?;
    Ok(())
}

// Appends the 4 bytes of a number, the lowest first.
#[tactic(auto, unfolding(crate::specs::TimePart::i32_bytes))]
fn put_i32(part: &mut Vec<u8>, number: i32) -> Result<(), AllocError>
    ensures { OnOk result (part.new.items ≡ part.old.items ++ i32_bytes number) }
{
    part.extend_from_slice(&number.to_le_bytes())?;
    Ok(())
}

// Appends the 4 bytes of a number, the lowest first.
#[tactic(auto, unfolding(crate::specs::TimePart::u32_bytes))]
fn put_u32(part: &mut Vec<u8>, number: u32) -> Result<(), AllocError>
    ensures { OnOk result (part.new.items ≡ part.old.items ++ u32_bytes number) }
{
    part.extend_from_slice(&number.to_le_bytes())?;
    Ok(())
}

// Appends the 8 bytes of a number, the lowest first.
#[tactic(auto, unfolding(crate::specs::TimePart::i64_bytes))]
fn put_i64(part: &mut Vec<u8>, number: i64) -> Result<(), AllocError>
    ensures { OnOk result (part.new.items ≡ part.old.items ++ i64_bytes number) }
{
    part.extend_from_slice(&number.to_le_bytes())?;
    Ok(())
}

// Appends a length as 8 bytes, the lowest first.
fn put_length(part: &mut Vec<u8>, length: usize) -> Result<(), AllocError>
    ensures { OnOk result (part.new.items ≡ part.old.items ++ length_bytes length) }
{
    let length = length as u64;
    part.extend_from_slice(&length.to_le_bytes())?;
    Ok(())
}

// Appends the byte 0 for none; else the byte 1, the length and the bytes.
fn put_option(part: &mut Vec<u8>, bytes: Option<&[u8]>) -> Result<(), AllocError>
    ensures { OnOk result (part.new.items ≡ part.old.items
        ++ framed_option (option_map (λ b. b.now) bytes.entry)) }
{
    match bytes {
        None => part.push(0)?,
        Some(bytes) => {
            part.push(1)?;
            put_length(part, bytes.len())?;
            part.extend_from_slice(bytes)?;
        }
    }
    Ok(())
}

// Appends the year, the month and the day.
fn put_year_month_day(part: &mut Vec<u8>, date: Date) -> Result<(), AllocError>
    ensures { OnOk result (part.new.items ≡ part.old.items
        ++ date_bytes (civil_date date)) }
{
    let date = date.to_plain();
    put_i32(part, i32::from(date.year))?;
    put_u32(part, u32::from(date.month))?;
    put_u32(part, u32::from(date.day))?;
    Ok(())
}

// Appends the delimiter of a date, the date and the first `SOURCE_DATE_EPOCH`.
fn put_date(part: &mut Vec<u8>, date: Date, vars: &[(Vec<u8>, Vec<u8>)]) -> Result<(), AllocError>
    ensures { OnOk result (part.new.items ≡ part.old.items ++ (delimiter (codes "date")
        ++ date_bytes (civil_date date)
        ++ framed_option (source_date_epoch (variables_of vars.now)))) }
{
    put_delimiter(part, b"date")?;
    put_year_month_day(part, date)?;
    put_option(part, first_value(vars, b"SOURCE_DATE_EPOCH"))?;
    Ok(())
}

// Appends the delimiter of a timestamp and the second.
fn put_second(part: &mut Vec<u8>, second: i64) -> Result<(), AllocError>
    ensures { OnOk result (part.new.items ≡ part.old.items
        ++ (delimiter (codes "timestamp") ++ i64_bytes second)) }
{
    put_delimiter(part, b"timestamp")?;
    put_i64(part, second)?;
    Ok(())
}

// Appends the date's part, and returns whether there is one.
#[tactic(auto, unfolding(crate::specs::TimePart::date_part))]
fn put_date_part(
    part: &mut Vec<u8>,
    date: bool,
    moment: Timestamp,
    zone: &TimeZone<'_>,
    vars: &[(Vec<u8>, Vec<u8>)],
) -> Result<bool, AllocError>
    ensures { IfOk result (λ there. IsAppended part.old.items part.new.items there
        (date_part date moment (plain_zone zone.now)
        (variables_of vars.now))) }
{
    if !date {
        return Ok(true);
    }
    let Some(instant) = instant_of(moment) else {
        return Ok(false);
    };
    put_date(part, date_at(zone, instant), vars)?;
    Ok(true)
}

// Appends the modification's part, and returns whether there is one.
#[tactic(auto, unfolding(crate::specs::TimePart::timestamp_part))]
fn put_timestamp_part(
    part: &mut Vec<u8>,
    timestamp: bool,
    modified: Option<Timestamp>,
    zone: &TimeZone<'_>,
) -> Result<bool, AllocError>
    ensures { IfOk result (λ there. IsAppended part.old.items part.new.items there
        (timestamp_part timestamp modified (plain_zone zone.now))) }
{
    if !timestamp {
        return Ok(true);
    }
    let Some(modified) = modified else {
        return Ok(false);
    };
    let Some(instant) = instant_of(modified) else {
        return Ok(false);
    };
    put_second(part, second_at(zone, instant))?;
    Ok(true)
}

/// Returns the time part of a file: bytes that encode what its time macros show at the call time
/// `moment`, in the zone. `date` says that the text has a `__DATE__`, and `timestamp` that it has a
/// `__TIMESTAMP__`.
///
/// For a date the bytes are the delimiter `date`; the civil year (an `i32`), month and day (`u32`
/// each, from 1) of the call time in the zone, lowest byte first; and `SOURCE_DATE_EPOCH`, which
/// compilers show in place of the date. Of several variables with this name the first counts: a byte
/// 1, the length of its value in 8 bytes, lowest byte first, and the value. If no variable has the
/// name, a byte 0 stands for it. For a timestamp the bytes are the delimiter `timestamp` and, as an
/// `i64`, the clock's second in the zone when the file was last modified. Seconds are counted as if
/// the zone were UTC, from the beginning of 1970, and rounded down. With neither there are no bytes.
///
/// Returns `None` exactly if a needed time is unknown, or is not among the instants of `jiff`, from
/// -9999-01-02T01:59:59Z to 9999-12-30T22:00:00.999999999Z. The call time is needed for a date
/// alone, the modification time for a timestamp alone.
///
/// The only error is [`Error::Memory`].
#[tactic(auto, unfolding(crate::specs::TimePart::time_part))]
pub fn local_time_part(
    alloc: Global,
    date: bool,
    timestamp: bool,
    modified: Option<Timestamp>,
    moment: Timestamp,
    zone: &TimeZone<'_>,
    vars: &[(Vec<u8>, Vec<u8>)],
) -> Result<Option<Vec<u8>>, Error>
    ensures value { IfOk result (λ part. option_map (λ v. v.items) part
        ≡ time_part date timestamp modified moment (plain_zone zone.now)
        (variables_of vars.now)) }
    ensures errors { IfErr result (λ e. e ≡ Error.Memory) }
{
    let mut part = Vec::new(alloc);
    if !put_date_part(&mut part, date, moment, zone, vars)? {
        return Ok(None);
    }
    if !put_timestamp_part(&mut part, timestamp, modified, zone)? {
        return Ok(None);
    }
    Ok(Some(part))
}
