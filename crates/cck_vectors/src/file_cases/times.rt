//! Time parts, recorded digests, and the options.
use crate::cases::{CaseError, Value};
use crate::file_cases::cases::FileCases;
use cck_include::{PreprocessorCacheModeConfig, local_time_part, recorded_digest};
use cck_util::{MapFiles, Sha256State};
use std::alloc::Global;

#[derive(Clone, Copy)]
pub(crate) enum TimeCall {
    Part,
    Recorded,
    Options,
    DefaultOptions,
}

pub(crate) const CALLS: [(&str, TimeCall); 4] = [
    ("time_part", TimeCall::Part),
    ("recorded_digest", TimeCall::Recorded),
    ("options", TimeCall::Options),
    ("default_options", TimeCall::DefaultOptions),
];

pub(crate) fn call<'a>(
    call: TimeCall,
    cases: &'a mut FileCases,
    path: &[u8],
) -> Result<Value<'a>, CaseError> {
    match call {
        TimeCall::Part => part(cases),
        TimeCall::Recorded => recorded(cases, path),
        TimeCall::Options => options(cases.alloc, cases.given_files.config),
        TimeCall::DefaultOptions => options(cases.alloc, PreprocessorCacheModeConfig::default()),
    }
}

fn part<'a>(cases: &'a FileCases) -> Result<Value<'a>, CaseError> {
    let wanted = &cases.wanted;
    Ok(Value::Found(local_time_part(
        cases.alloc,
        wanted.shows_date,
        wanted.shows_timestamp,
        wanted.modified,
        cases.given_files.moment,
        &wanted.zone,
        &cases.given.variables,
    )?))
}

fn recorded<'a>(cases: &'a mut FileCases, path: &[u8]) -> Result<Value<'a>, CaseError> {
    let digest = recorded_digest::<Sha256State, MapFiles>(
        cases.alloc,
        &mut cases.given_files.files,
        path,
        cases.given_files.moment,
        &cases.wanted.zone,
        &cases.given.variables,
        cases.given_files.config,
    )?;
    Ok(found_text(digest))
}

/// `none`, or `some` and the text.
pub(crate) fn found_text<'a>(text: Option<String>) -> Value<'a> {
    match text {
        Some(text) => Value::Found(Some(text.into_bytes())),
        None => Value::Found(None),
    }
}

fn options<'a>(alloc: Global, config: PreprocessorCacheModeConfig) -> Result<Value<'a>, CaseError> {
    Ok(Value::Text(format!(in alloc; "{config:?}")?))
}
