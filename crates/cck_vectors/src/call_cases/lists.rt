//! Lists of calls for keys.
use crate::call_cases::fixed_compiler::{FixedCompiler, PREPROCESSED};
use crate::call_cases::noting_files::NotingFiles;
use crate::call_cases::request::GivenRequest;
use crate::call_cases::shown::{or_out_of_memory, write_result};
use crate::cases::{CaseError, Given, GivenFiles, Value, zone_of};
use c_cache_keys::{Call, HashResult, KeyError, PreprocessorStore, run_calls};
use cck_script::copy_variables;
use cck_util::Sha256State;
use std::alloc::Global;

/// A call for a key.
pub(crate) type FixedCall = Call<FixedCompiler, NotingFiles>;

/// The call for the key of the compilation that is given, over a copy of the files.
pub(crate) fn call_of(
    request: &GivenRequest,
    given: &Given,
    given_files: &GivenFiles,
    is_bytewise: bool,
) -> Result<FixedCall, CaseError> {
    let alloc = request.alloc;
    let cwd = request.cwd.to_vec(alloc)?;
    let vars = copy_variables(alloc, &given.variables)?;
    let files = noting(alloc, given_files, is_bytewise)?;
    Ok(Call {
        hasher: or_out_of_memory(request.hasher.copy(alloc))?,
        files,
        cwd,
        vars,
        moment: given_files.moment,
        control: request.control,
    })
}

fn noting(
    alloc: Global,
    given_files: &GivenFiles,
    is_bytewise: bool,
) -> Result<NotingFiles, CaseError> {
    let path = PREPROCESSED.to_vec(alloc)?;
    Ok(NotingFiles {
        files: given_files.files.copy(alloc)?,
        path,
        count: 0,
        is_bytewise,
    })
}

/// Makes the calls, and returns a line for each: its result, and how often it preprocessed.
pub(crate) fn run<'a, S: PreprocessorStore>(
    given: &Given,
    given_files: &GivenFiles,
    store: &mut S,
    calls: &mut [FixedCall],
) -> Result<Value<'a>, CaseError> {
    let alloc = given.alloc;
    let zone = zone_of(given_files.zone)?;
    let results = run_calls::<Sha256State, FixedCompiler, NotingFiles, S>(
        alloc,
        store,
        &zone,
        given_files.config,
        &given.basedirs,
        calls,
    )?;
    results_value(alloc, &results, calls)
}

fn results_value<'a>(
    alloc: Global,
    results: &[Result<HashResult, KeyError>],
    calls: &[FixedCall],
) -> Result<Value<'a>, CaseError> {
    let count = results.len();
    let mut out = Vec::new(alloc);
    out.extend_from_slice(format!(in alloc; "{count} results")?.as_bytes())?;
    for (result, call) in results.iter().zip(calls) {
        out.push(b'\n')?;
        write_result(alloc, &mut out, result)?;
        let times = call.files.count;
        out.extend_from_slice(format!(in alloc; ", preprocessed {times}")?.as_bytes())?;
    }
    Ok(Value::Bytes(out))
}
