//! The calls of a script as a list, and failures among them.
use crate::cases::{CaseError, end_line, find};
use crate::script_cases::broken_streams::{self, Broken};
use crate::script_cases::failures::{self, FailureCause};
use crate::script_cases::lists::{CallResult, List, write_call_result};
use crate::script_cases::streams::Streams;
use std::alloc::{AllocError, Global};

#[derive(Clone, Copy)]
pub(crate) enum ListCall {
    PlainKeys,
    Results,
    Checked,
    FailEach,
}

pub(crate) const CALLS: [(&str, ListCall); 4] = [
    ("plain_keys", ListCall::PlainKeys),
    ("results", ListCall::Results),
    ("checked_results", ListCall::Checked),
    ("fail_each", ListCall::FailEach),
];

const CAUSES: [(&str, FailureCause); 3] = [
    ("files", FailureCause::Files),
    ("store", FailureCause::Store),
    ("forget", FailureCause::Forgetting),
];

const BROKEN: [(&str, Broken); 3] = [
    ("reads", Broken::Reads),
    ("writes", Broken::Writes),
    ("flushes", Broken::Flushes),
];

const ONCE: [(&str, bool); 2] = [("once", true), ("on", false)];

/// What lines give to a list of calls.
#[derive(Clone, Copy)]
pub(crate) struct ListGiven<'a> {
    /// The reader and the writer of a run.
    pub(crate) streams: &'a Streams,
    /// From which get or put of the store on all fail, or 0.
    pub(crate) store_fail_after: u64,
    /// How many results the entry has that the store holds at first, beside that of the first call,
    /// or 0 where it holds none.
    pub(crate) other_results: u64,
    /// The path of the file that they include.
    pub(crate) path: &'a [u8],
}

/// Makes a call on the list of calls that the script of this text asks for, and writes its result.
pub(crate) fn write(
    call: ListCall,
    alloc: Global,
    out: &mut Vec<u8>,
    given: ListGiven<'_>,
    text: &[u8],
    rest: &str,
) -> Result<(), CaseError> {
    if let (ListCall::FailEach, Some((broken, is_once))) = (call, broken_of(rest)) {
        return broken_streams::write(alloc, out, given.streams, text, broken, is_once);
    }
    let mut list = List::of_text(alloc, text)?;
    if given.other_results > 0 {
        list.hold_entry(given.other_results, given.path)?;
    }
    write_of_list(call, &list, out, given.store_fail_after, rest)
}

fn write_of_list(
    call: ListCall,
    list: &List,
    out: &mut Vec<u8>,
    fail_after: u64,
    rest: &str,
) -> Result<(), CaseError> {
    match call {
        ListCall::PlainKeys => write_plain_keys(list, out),
        ListCall::Results => write_results(list, out, fail_after),
        ListCall::Checked => failures::write_checked(list, out),
        ListCall::FailEach => {
            let (cause, is_once) = cause_of(rest).ok_or(CaseError::Line)?;
            failures::write(list, out, cause, is_once)
        }
    }
}

// Makes each call alone, on an empty store.
fn write_plain_keys(list: &List, out: &mut Vec<u8>) -> Result<(), CaseError> {
    let each = list.each_alone()?;
    for alone in &each {
        write_result_line(list.alloc, out, &alone.call_result)?;
    }
    Ok(())
}

// Makes all calls at once, on one store, of whose gets and puts all from this one on fail.
fn write_results(list: &List, out: &mut Vec<u8>, fail_after: u64) -> Result<(), CaseError> {
    let mut store = list.store()?;
    store.fail_after(fail_after);
    let call_results = list.make_each(&mut store)?;
    for call_result in &call_results {
        write_result_line(list.alloc, out, call_result)?;
    }
    Ok(())
}

fn write_result_line(
    alloc: Global,
    out: &mut Vec<u8>,
    call_result: &CallResult,
) -> Result<(), AllocError> {
    end_line(out)?;
    write_call_result(alloc, out, call_result)
}

// `CAUSE once` and `CAUSE on`: a cause, and whether one call alone fails.
fn cause_of(rest: &str) -> Option<(FailureCause, bool)> {
    let (cause, how) = rest.split_once(' ')?;
    Some((find(&CAUSES, cause)?, find(&ONCE, how)?))
}

// The same of the reader and the writer of `cck run`.
fn broken_of(rest: &str) -> Option<(Broken, bool)> {
    let (cause, how) = rest.split_once(' ')?;
    Some((find(&BROKEN, cause)?, find(&ONCE, how)?))
}
