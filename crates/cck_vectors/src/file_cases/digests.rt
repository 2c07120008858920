//! Digests of files and of directories, contents of files, and the compilers that wrappers run.
use crate::cases::{CaseError, Value};
use crate::file_cases::cases::FileCases;
use crate::file_cases::shown::{write_names, write_texts};
use cck_files::sorted_names;
use cck_util::{
    Digest, DigestFiles, MapFiles, Sha256State, TimeMacroFinder, WatchedDigest, feed_file,
    hash_all, read_contents, resolve_compiler_avoiding_wrapper,
};

#[derive(Clone, Copy)]
pub(crate) enum DigestCall {
    File,
    Reader,
    All,
    Contents,
    Watched,
    Names,
    Compiler,
}

pub(crate) const CALLS: [(&str, DigestCall); 7] = [
    ("file_digest", DigestCall::File),
    ("reader_digest", DigestCall::Reader),
    ("hash_all", DigestCall::All),
    ("read_contents", DigestCall::Contents),
    ("watched_digest", DigestCall::Watched),
    ("sorted_names", DigestCall::Names),
    ("resolve_compiler", DigestCall::Compiler),
];

pub(crate) fn call<'a>(
    call: DigestCall,
    cases: &'a mut FileCases,
    path: &[u8],
) -> Result<Value<'a>, CaseError> {
    let alloc = cases.alloc;
    let files = &mut cases.given_files.files;
    match call {
        DigestCall::File => Ok(Value::Text(Digest::<Sha256State>::file(alloc, files, path)?)),
        DigestCall::Reader => Ok(Value::Text(Digest::<Sha256State>::reader(alloc, files, path)?)),
        DigestCall::All => all(cases),
        DigestCall::Contents => Ok(Value::Bytes(read_contents(alloc, files, path)?)),
        DigestCall::Watched => watched(cases, path),
        DigestCall::Names => names(cases, path),
        DigestCall::Compiler => compiler(cases, path),
    }
}

fn compiler<'a>(cases: &'a mut FileCases, path: &[u8]) -> Result<Value<'a>, CaseError> {
    Ok(Value::Bytes(resolve_compiler_avoiding_wrapper(
        cases.alloc,
        &mut cases.given_files.files,
        path,
        &cases.given.variables,
    )?))
}

// The digests of all `paths`.
fn all<'a>(cases: &'a mut FileCases) -> Result<Value<'a>, CaseError> {
    let texts = hash_all::<Sha256State, MapFiles>(
        cases.alloc,
        &mut cases.given_files.files,
        &cases.wanted.paths,
    )?;
    let mut text = Vec::new(cases.alloc);
    write_texts(&mut text, &texts)?;
    Ok(Value::Bytes(text))
}

// The digest of a file, and the macros that were found in the same pass.
fn watched<'a>(cases: &'a mut FileCases, path: &[u8]) -> Result<Value<'a>, CaseError> {
    let mut whole = WatchedDigest::<Sha256State>::new();
    feed_file(cases.alloc, &mut cases.given_files.files, path, &mut whole)?;
    let (mut text, finder) = whole.finish(cases.alloc)?;
    text.push_str(macros_word(&finder))?;
    Ok(Value::Text(text))
}

fn macros_word(finder: &TimeMacroFinder) -> &'static str {
    match (
        finder.found_time(),
        finder.found_date(),
        finder.found_timestamp(),
    ) {
        (false, false, false) => "",
        (true, false, false) => " time",
        (false, true, false) => " date",
        (false, false, true) => " timestamp",
        (true, true, false) => " time date",
        (true, false, true) => " time timestamp",
        (false, true, true) => " date timestamp",
        (true, true, true) => " time date timestamp",
    }
}

fn names<'a>(cases: &'a mut FileCases, path: &[u8]) -> Result<Value<'a>, CaseError> {
    let names = sorted_names(cases.alloc, &mut cases.given_files.files, path)?;
    let mut text = Vec::new(cases.alloc);
    write_names(&mut text, &names)?;
    Ok(Value::Bytes(text))
}
