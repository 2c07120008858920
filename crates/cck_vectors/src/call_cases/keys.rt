//! Calls for keys.
use crate::call_cases::noting_files::NotingFiles;
use crate::call_cases::request::GivenRequest;
use crate::call_cases::shown::{error_value, write_result};
use crate::cases::{CaseError, Given, GivenFiles, Value, zone_of};
use c_cache_keys::{CCompilerImpl, HashResult, KeyError, PreprocessError, PreprocessorStore};
use cck_util::{Files, Sha256State, UtilError};
use std::alloc::Global;

/// What is returned of the result of a call for a key.
#[derive(Clone, Copy)]
pub(crate) enum ResultPart {
    Short,
    Toolchain,
    Shown,
}

#[derive(Clone, Copy)]
pub(crate) enum KeyCall {
    Compile(ResultPart),
    Control,
    Preprocess,
    Preprocessed,
    CallEach,
}

pub(crate) const CALLS: [(&str, KeyCall); 7] = [
    ("compile", KeyCall::Compile(ResultPart::Short)),
    ("toolchain", KeyCall::Compile(ResultPart::Toolchain)),
    ("compile_shown", KeyCall::Compile(ResultPart::Shown)),
    ("control", KeyCall::Control),
    ("preprocess", KeyCall::Preprocess),
    ("preprocessed", KeyCall::Preprocessed),
    ("call_each", KeyCall::CallEach),
];

/// Calls for the key of the compilation that is given.
pub(crate) fn key_of<S: PreprocessorStore>(
    request: &GivenRequest,
    given: &Given,
    given_files: &GivenFiles,
    files: &mut NotingFiles,
    store: &mut S,
) -> Result<Result<HashResult, KeyError>, CaseError> {
    let zone = zone_of(given_files.zone)?;
    Ok(
        request
            .hasher
            .generate_hash_key::<Sha256State, NotingFiles, S>(
                request.alloc,
                files,
                store,
                &request.cwd,
                &given.variables,
                given_files.moment,
                &zone,
                given_files.config,
                &given.basedirs,
                request.control,
            ),
    )
}

/// What is asked for of the result of a call for a key.
pub(crate) fn part_value<'a>(
    alloc: Global,
    part: ResultPart,
    returned: Result<HashResult, KeyError>,
) -> Result<Value<'a>, CaseError> {
    match part {
        ResultPart::Short => result_value(alloc, &returned),
        ResultPart::Toolchain => toolchain_value(alloc, returned),
        ResultPart::Shown => result_shown(alloc, &returned),
    }
}

// The result of a call for a key, in short.
fn result_value<'a>(
    alloc: Global,
    returned: &Result<HashResult, KeyError>,
) -> Result<Value<'a>, CaseError> {
    let mut out = Vec::new(alloc);
    write_result(alloc, &mut out, returned)?;
    Ok(Value::Bytes(out))
}

// The key of the toolchain that a call for a key returns.
fn toolchain_value<'a>(
    alloc: Global,
    returned: Result<HashResult, KeyError>,
) -> Result<Value<'a>, CaseError> {
    match returned {
        Ok(found) => Ok(Value::Text(found.weak_toolchain_key)),
        Err(error) => error_value(alloc, error),
    }
}

// The result of a call for a key, as `Debug` prints it.
fn result_shown<'a>(
    alloc: Global,
    returned: &Result<HashResult, KeyError>,
) -> Result<Value<'a>, CaseError> {
    if matches!(returned, Err(KeyError::Memory)) {
        return Err(CaseError::Util(UtilError::Memory));
    }
    Ok(Value::Text(format!(in alloc; "{returned:?}")?))
}

/// Whether a stored key may be returned, as `Debug` prints it.
pub(crate) fn control_shown<'a>(request: &GivenRequest) -> Result<Value<'a>, CaseError> {
    let control = request.control;
    Ok(Value::Text(format!(in request.alloc; "{control:?}")?))
}

/// The text that the compiler prints.
pub(crate) fn preprocessed_text<'a>(
    request: &GivenRequest,
    given: &Given,
    given_files: &GivenFiles,
    files: &mut NotingFiles,
) -> Result<Value<'a>, CaseError> {
    let printed = request.hasher.compiler.preprocess::<NotingFiles>(
        request.alloc,
        files,
        &request.hasher.executable,
        &request.hasher.parsed_args,
        &request.cwd,
        &given.variables,
        given_files.moment,
    );
    match printed {
        Ok(text) => Ok(Value::Bytes(text)),
        Err(PreprocessError::Memory) => Err(CaseError::Util(UtilError::Memory)),
        Err(PreprocessError::Fault) => Ok(Value::Word("error Fault")),
        Err(PreprocessError::Failed) => Ok(Value::Word("error Failed")),
    }
}

/// Makes each call on files once, on one path: the length, how many of 4 bytes are read from the
/// offset 5 on, whether it can be listed and whether something is there.
pub(crate) fn call_each<'a>(
    alloc: Global,
    files: &mut NotingFiles,
    path: &[u8],
) -> Result<Value<'a>, CaseError> {
    let length = files.metadata(path)?.len;
    let read = files.read_at(path, 5, &mut [0; 4])?;
    let is_listed = files.read_dir(alloc, path).is_ok();
    let present = files.exists(path);
    let is_canonical = files.canonical(alloc, path)?.as_slice() == path;
    Ok(Value::Text(format!(in alloc; "{length} {read} {is_listed} {present} {is_canonical}")?))
}
