//! Times, and the times of a file.
use crate::cases::{CaseError, Value, moment_of, number, optional_moment_of, parts_of};
use cck_util::{FileKind, Metadata, MetadataCtimeExt, Timestamp};

#[derive(Clone, Copy)]
pub(crate) enum TimeCall {
    New,
    FromNanos,
    FitsNanos,
    Compare,
    Changed,
}

pub(crate) const CALLS: [(&str, TimeCall); 5] = [
    ("moment_of_parts", TimeCall::New),
    ("moment_of_nanos", TimeCall::FromNanos),
    ("fits_nanos", TimeCall::FitsNanos),
    ("compare_moments", TimeCall::Compare),
    ("ctime_or_creation", TimeCall::Changed),
];

pub(crate) fn call<'a>(call: TimeCall, rest: &str) -> Result<Value<'a>, CaseError> {
    match call {
        TimeCall::New => of_parts(rest),
        TimeCall::FromNanos => Ok(Value::Moment(Some(moment_of(rest)?))),
        TimeCall::FitsNanos => Ok(Value::Flag(Timestamp::fits_nanos(number(rest)?))),
        TimeCall::Compare => compare(rest),
        TimeCall::Changed => changed(rest),
    }
}

fn of_parts<'a>(rest: &str) -> Result<Value<'a>, CaseError> {
    let (seconds, nanoseconds) = parts_of(rest)?;
    let (seconds, nanoseconds) = (number::<i64>(seconds)?, number::<u32>(nanoseconds)?);
    if nanoseconds >= 1_000_000_000 {
        return Err(CaseError::Line);
    }
    Ok(Value::Moment(Some(Timestamp::new(seconds, nanoseconds))))
}

fn compare<'a>(rest: &str) -> Result<Value<'a>, CaseError> {
    let (a, b) = parts_of(rest)?;
    Ok(Value::Order(moment_of(a)?.cmp(&moment_of(b)?)))
}

// The time of a file whose last change is at a given time or unknown.
fn changed<'a>(rest: &str) -> Result<Value<'a>, CaseError> {
    let metadata = Metadata {
        kind: FileKind::File,
        len: 3,
        modified: Some(Timestamp::new(5, 7)),
        changed: optional_moment_of(rest)?,
    };
    Ok(Value::Moment(metadata.ctime_or_creation()))
}
