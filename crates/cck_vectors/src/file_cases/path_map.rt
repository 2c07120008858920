//! Maps keyed by paths. The values are texts.
use crate::cases::{CaseError, Value};
use crate::file_cases::cases::FileCases;
use crate::file_cases::shown::write_pairs;

#[derive(Clone, Copy)]
pub(crate) enum MapCall {
    Insert,
    InsertAll,
    Remove,
    Get,
    Contains,
    Len,
    IsEmpty,
    Entries,
}

pub(crate) const CALLS: [(&str, MapCall); 8] = [
    ("map_insert", MapCall::Insert),
    ("map_insert_all", MapCall::InsertAll),
    ("map_remove", MapCall::Remove),
    ("map_get", MapCall::Get),
    ("map_contains", MapCall::Contains),
    ("map_len", MapCall::Len),
    ("map_is_empty", MapCall::IsEmpty),
    ("map_entries", MapCall::Entries),
];

pub(crate) fn call<'a>(
    call: MapCall,
    cases: &'a mut FileCases,
    path: &[u8],
) -> Result<Value<'a>, CaseError> {
    match call {
        MapCall::Insert => insert(cases, path),
        MapCall::InsertAll => insert_all(cases),
        MapCall::Remove => Ok(Value::Found(cases.map.remove(path))),
        MapCall::Get => Ok(get(cases, path)),
        MapCall::Contains => Ok(Value::Flag(cases.map.contains(path))),
        MapCall::Len => Ok(Value::Number(cases.map.len() as u64)),
        MapCall::IsEmpty => Ok(Value::Flag(cases.map.is_empty())),
        MapCall::Entries => entries(cases),
    }
}

// Gives the path what `base` says.
fn insert<'a>(cases: &'a mut FileCases, path: &[u8]) -> Result<Value<'a>, CaseError> {
    cases
        .map
        .insert(path, cases.given.base.to_vec(cases.alloc)?)?;
    Ok(Value::Word("set"))
}

// Gives each path the text that `variables` has for it, in their order.
fn insert_all<'a>(cases: &'a mut FileCases) -> Result<Value<'a>, CaseError> {
    for (path, value) in &cases.given.variables {
        cases.map.insert(path, value.to_vec(cases.alloc)?)?;
    }
    Ok(Value::Word("set"))
}

fn get<'a>(cases: &'a FileCases, path: &[u8]) -> Value<'a> {
    match cases.map.get(path) {
        Some(value) => Value::Part(Some(value)),
        None => Value::Part(None),
    }
}

fn entries<'a>(cases: &'a FileCases) -> Result<Value<'a>, CaseError> {
    let mut text = Vec::new(cases.alloc);
    write_pairs(&mut text, cases.map.entries())?;
    Ok(Value::Bytes(text))
}
