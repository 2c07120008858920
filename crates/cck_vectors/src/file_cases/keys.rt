//! Preprocessor keys.
use crate::cases::{CaseError, Value};
use crate::file_cases::cases::FileCases;
use crate::file_cases::times::found_text;
use c_cache_keys::preprocessor_cache_entry_hash_key;
use cck_util::{MapFiles, Sha256State};

#[derive(Clone, Copy)]
pub(crate) enum KeyCall {
    Preprocessor,
}

pub(crate) const CALLS: [(&str, KeyCall); 1] = [("preprocessor_key", KeyCall::Preprocessor)];

pub(crate) fn call<'a>(
    call: KeyCall,
    cases: &'a mut FileCases,
    path: &[u8],
) -> Result<Value<'a>, CaseError> {
    match call {
        KeyCall::Preprocessor => key(cases, path),
    }
}

fn key<'a>(cases: &'a mut FileCases, input: &[u8]) -> Result<Value<'a>, CaseError> {
    let (given, wanted, given_files) = (&cases.given, &cases.wanted, &mut cases.given_files);
    let key = preprocessor_cache_entry_hash_key::<Sha256State, MapFiles>(
        cases.alloc,
        given.compiler(),
        given.language,
        &wanted.preprocessor_args,
        &wanted.arch_args,
        &given.arguments,
        &given.extra_hashes,
        given.assembler(),
        &given.variables,
        input,
        &wanted.cwd,
        given.plusplus,
        given.multiarch,
        given_files.config,
        &mut given_files.files,
        given_files.moment,
        &wanted.zone,
    )?;
    Ok(found_text(key))
}
