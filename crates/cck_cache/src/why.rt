//! Says why a look-up misses.
use crate::environment::Environment;
use crate::included::add_entry_files;
use crate::input::input_snapshot;
use crate::look::{Kept, NO_KEY, read_entry};
use crate::request::request_key;
use anyhow::{Result, bail};
use cck_cache_files::{ENTRY_FILES, Kind, Request, StoreDirectory, entry_name, first_failing};
use cck_cache_rules::{EntryFile, PathTest};
use cck_cache_store::entry_view;
use cck_entry::{KnownFiles, PathMap, ResultRef, include_matches};
use cck_files::MapFiles;
use cck_include::JudgeContext;
use cck_util::Sha256State;
use std::alloc::AllocError;
use std::collections::HashMap;
use std::io::Write;
use std::rt::Files;

// Appends a line with a path, which may be any bytes.
fn print_path(lines: &mut Vec<u8>, word: &[u8], path: &[u8]) -> Result<(), AllocError> {
    lines.extend_from_slice(word)?;
    lines.extend_from_slice(path)?;
    lines.push(b'\n')?;
    Ok(())
}

// Appends a line for a test that fails.
fn print_test(lines: &mut Vec<u8>, test: &PathTest) -> Result<(), AllocError> {
    match test {
        PathTest::Absent(path) => print_path(lines, b"present ", path),
        PathTest::File(path) => print_path(lines, b"absent ", path),
        PathTest::Directory(path)
        | PathTest::Searched { path, .. }
        | PathTest::Plain(path)
        | PathTest::Real { path, .. } => print_path(lines, b"changed ", path),
    }
}

// Appends the path of each file that a result included and that does not match.
fn print_changed<R: AllocGlobal>(
    rt: &R,
    environment: &Environment<'_>,
    files: &mut MapFiles,
    known: &mut KnownFiles,
    found: &ResultRef<'_>,
    lines: &mut Vec<u8>,
) -> Result<()> {
    let context = JudgeContext {
        moment: environment.now,
        zone: &environment.zone,
        vars: &environment.variables,
        config: environment.config(),
    };
    for include in found.includes() {
        let matches = include_matches::<Sha256State, MapFiles>(
            rt.alloc(),
            files,
            known,
            &include,
            &context,
        )?;
        if !matches {
            print_path(lines, b"changed ", include.path)?;
        }
    }
    Ok(())
}

// Appends what of an entry does not match.
fn print_entry<R: Files + AllocGlobal>(
    rt: &R,
    environment: &Environment<'_>,
    files: &mut MapFiles,
    file: &EntryFile,
    lines: &mut Vec<u8>,
) -> Result<()> {
    let alloc = rt.alloc();
    let nothing_known = PathMap::new(alloc);
    if let Some(test) = first_failing(rt, &HashMap::new(alloc), &file.tests)? {
        print_test(lines, test)?;
    }
    let Some(entry) = entry_view(alloc, &file.entry)? else {
        bail!("the bytes of the entry are malformed");
    };
    add_entry_files(rt, files, &nothing_known, &entry)?;
    let mut known = KnownFiles::new(alloc);
    for result in entry.results() {
        writeln!(lines, "result {}", result.key())?;
        print_changed(rt, environment, files, &mut known, result, lines)?;
    }
    Ok(())
}

// Appends what the store has of a preprocessor key at a place. Returns whether there is a file.
fn print_place<R: Files + AllocGlobal>(
    rt: &R,
    environment: &Environment<'_>,
    store: &StoreDirectory,
    files: &mut MapFiles,
    key: &str,
    place: usize,
    lines: &mut Vec<u8>,
) -> Result<bool> {
    let name = entry_name(rt.alloc(), key, place)?;
    match read_entry(rt, store, key, name.as_str())? {
        Kept::Nothing => return Ok(false),
        Kept::Damaged => {
            let path = store.path_of(rt, Kind::Entry, name.as_str())?;
            writeln!(lines, "damaged {path}")?;
        }
        Kept::Entry(file) => print_entry(rt, environment, files, &file, lines)?,
    }
    Ok(true)
}

// Appends what the store has of a preprocessor key.
fn print_kept<R: Files + AllocGlobal>(
    rt: &R,
    environment: &Environment<'_>,
    store: &StoreDirectory,
    files: &mut MapFiles,
    key: &str,
    lines: &mut Vec<u8>,
) -> Result<()> {
    let mut has_file = false;
    for place in 0..ENTRY_FILES {
        has_file |= print_place(rt, environment, store, files, key, place, lines)?;
    }
    if !has_file {
        writeln!(lines, "no entry")?;
    }
    Ok(())
}

/// Appends what the store has of a request and which paths keep it from matching, a line each. `false` where the
/// request has no preprocessor key: then a line says that.
///
/// - `preprocessor-key KEY`;
/// - `no entry`, or for each entry file what follows;
/// - `damaged PATH`, of a file that is not an entry file of the key;
/// - for the first test of a path that does not hold now `present PATH`, if the path was absent when the entry was
///   recorded, `absent PATH`, if a file was there, or `changed PATH`, if a directory was;
/// - `result KEY`, and after it `changed PATH` for each included file that does not match.
///
/// The error is of an input that is no regular file that can be read, of a program of the compiler or
/// of an entry file that can't be read, of an entry that is malformed, or lack of memory. Some lines may
/// then be appended.
pub fn print_why<R: Files + AllocGlobal>(
    rt: &R,
    environment: &Environment<'_>,
    store: &StoreDirectory,
    request: &Request<'_>,
    lines: &mut Vec<u8>,
) -> Result<bool> {
    let mut files = input_snapshot(rt, request)?;
    let Some(key) = request_key(rt, environment, request, &mut files)? else {
        writeln!(lines, "{NO_KEY}")?;
        return Ok(false);
    };
    writeln!(lines, "preprocessor-key {key}")?;
    print_kept(rt, environment, store, &mut files, key.as_str(), lines)?;
    Ok(true)
}
