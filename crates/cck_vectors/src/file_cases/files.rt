//! Files in memory.
use crate::cases::{CaseError, Value};
use crate::file_cases::cases::FileCases;
use crate::file_cases::shown::{write_metadata, write_names};
use cck_util::{FileKind, Files, Node};
use std::mem::swap;

#[derive(Clone, Copy)]
pub(crate) enum FileCall {
    Metadata,
    Read,
    Children,
    Exists,
    Canonical,
    Count,
    Save,
    Swap,
    PutMade,
}

pub(crate) const CALLS: [(&str, FileCall); 9] = [
    ("metadata", FileCall::Metadata),
    ("read_at", FileCall::Read),
    ("read_dir", FileCall::Children),
    ("exists", FileCall::Exists),
    ("canonical", FileCall::Canonical),
    ("file_calls", FileCall::Count),
    ("copy_saved", FileCall::Save),
    ("swap_saved", FileCall::Swap),
    ("put_made", FileCall::PutMade),
];

pub(crate) fn call<'a>(
    call: FileCall,
    cases: &'a mut FileCases,
    path: &[u8],
) -> Result<Value<'a>, CaseError> {
    match call {
        FileCall::Metadata => metadata(cases, path),
        FileCall::Read => read_at(cases, path),
        FileCall::Children => read_dir(cases, path),
        FileCall::Exists => Ok(Value::Flag(cases.given_files.files.exists(path))),
        FileCall::Canonical => Ok(Value::Bytes(
            cases.given_files.files.canonical(cases.alloc, path)?,
        )),
        FileCall::Count => Ok(Value::Number(cases.given_files.files.calls())),
        FileCall::Save => save(cases),
        FileCall::Swap => Ok(swap_saved(cases)),
        FileCall::PutMade => put_made(cases, path),
    }
}

fn metadata<'a>(cases: &'a mut FileCases, path: &[u8]) -> Result<Value<'a>, CaseError> {
    let metadata = cases.given_files.files.metadata(path)?;
    let mut text = Vec::new(cases.alloc);
    write_metadata(cases.alloc, &mut text, &metadata)?;
    Ok(Value::Bytes(text))
}

// What was read.
fn read_at<'a>(cases: &'a mut FileCases, path: &[u8]) -> Result<Value<'a>, CaseError> {
    let wanted = &mut cases.wanted;
    let count = cases
        .given_files
        .files
        .read_at(path, wanted.offset, &mut wanted.buffer)?;
    Ok(Value::Part(wanted.buffer.get(..count)))
}

// The names of the children, in the order of their bytes.
fn read_dir<'a>(cases: &'a mut FileCases, path: &[u8]) -> Result<Value<'a>, CaseError> {
    let mut names = cases.given_files.files.read_dir(cases.alloc, path)?;
    names.sort_unstable();
    let mut text = Vec::new(cases.alloc);
    write_names(&mut text, &names)?;
    Ok(Value::Bytes(text))
}

// Puts a copy of the files aside.
fn save<'a>(cases: &'a mut FileCases) -> Result<Value<'a>, CaseError> {
    cases.saved = cases.given_files.files.copy(cases.alloc)?;
    Ok(Value::Word("copied"))
}

// Takes the files that were put aside, and puts the others aside.
fn swap_saved<'a>(cases: &'a mut FileCases) -> Value<'a> {
    swap(&mut cases.given_files.files, &mut cases.saved);
    Value::Word("swapped")
}

// Puts a file of these contents at `base`, modified at `modified`. The result is its length.
fn put_made<'a>(cases: &'a mut FileCases, contents: &[u8]) -> Result<Value<'a>, CaseError> {
    let node = Node {
        kind: FileKind::File,
        contents: contents.to_vec(cases.alloc)?,
        modified: cases.wanted.modified,
        changed: None,
    };
    cases.given_files.files.put(&cases.given.base, node)?;
    Ok(Value::Number(contents.len() as u64))
}
