//! Paths: how they are read, compared, joined and written.
use crate::cases::{CaseError, Given, Value};
use crate::value_cases::streams::Streams;
use cck_util::{
    Component, Components, compare_paths, decode_path, encode_path, extension, file_name,
    is_absolute, join_path, normalize_path, normalize_win_path, same_path,
};

#[derive(Clone, Copy)]
pub(crate) enum PathCall {
    Components,
    Compare,
    Same,
    IsAbsolute,
    FileName,
    Extension,
    Join,
    Normalize,
    NormalizeWin,
    Encode,
    Decode,
}

pub(crate) const CALLS: [(&str, PathCall); 11] = [
    ("components", PathCall::Components),
    ("compare_paths", PathCall::Compare),
    ("same_path", PathCall::Same),
    ("is_absolute", PathCall::IsAbsolute),
    ("file_name", PathCall::FileName),
    ("extension", PathCall::Extension),
    ("join_path", PathCall::Join),
    ("normalize_path", PathCall::Normalize),
    ("normalize_win_path", PathCall::NormalizeWin),
    ("encode_path", PathCall::Encode),
    ("decode_path", PathCall::Decode),
];

pub(crate) fn call<'a>(
    call: PathCall,
    given: &'a Given,
    streams: Streams,
    bytes: &'a [u8],
) -> Result<Value<'a>, CaseError> {
    let (alloc, base) = (given.alloc, given.base.as_slice());
    match call {
        PathCall::Components => components(given, bytes),
        PathCall::Compare => Ok(Value::Order(compare_paths(base, bytes))),
        PathCall::Same => Ok(Value::Flag(same_path(base, bytes))),
        PathCall::IsAbsolute => Ok(Value::Flag(is_absolute(bytes))),
        PathCall::FileName => Ok(Value::Part(file_name(bytes))),
        PathCall::Extension => Ok(Value::Part(extension(bytes))),
        PathCall::Join => Ok(Value::Bytes(join_path(alloc, base, bytes)?)),
        PathCall::Normalize => Ok(Value::Bytes(normalize_path(alloc, bytes)?)),
        PathCall::NormalizeWin => Ok(Value::Bytes(normalize_win_path(alloc, bytes)?)),
        PathCall::Encode => encode(given, streams, bytes),
        PathCall::Decode => Ok(Value::Bytes(decode_path(alloc, bytes)?)),
    }
}

fn text_of(component: Component<'_>) -> &[u8] {
    match component {
        Component::RootDir => b"/",
        Component::CurDir => b".",
        Component::ParentDir => b"..",
        Component::Normal(name) => name,
    }
}

// The components, with a space between them. The root is written `/`.
fn components<'a>(given: &Given, path: &[u8]) -> Result<Value<'a>, CaseError> {
    let mut text = Vec::new(given.alloc);
    for component in Components::new(path) {
        if !text.is_empty() {
            text.push(b' ')?;
        }
        text.extend_from_slice(text_of(component))?;
    }
    Ok(Value::Bytes(text))
}

fn encode<'a>(given: &Given, streams: Streams, path: &[u8]) -> Result<Value<'a>, CaseError> {
    let mut writer = streams.writer(given.alloc, path.len())?;
    encode_path(&mut writer, path)?;
    Ok(Value::Bytes(writer.written))
}
