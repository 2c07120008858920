//! The program `cck_vectors`: makes the calls of vector files, and compares their results.
//!
//! The words after its name are vector files. The folder that a file is in says which module knows its
//! calls; `docs/TESTING.md` has a table of them, and the grammar of the files.
//! For each file the program prints each difference, and the number of results.
//!
//! The status is 0 if all results are the expected ones, and 1 if one differs or a line can't be
//! read. It is 2 if a file can't be read or memory is lacking.
#![tactic(auto)]

mod call_cases;
mod cases;
mod file_cases;
mod script_cases;
mod value_cases;

use std::process::ExitCode;
use std::{env, io};

// The name of the folder that a file is in, or nothing where its path has none.
fn folder_of(path: &str) -> &str {
    let (folders, _) = path.rsplit_once('/').unwrap_or(("", path));
    match folders.rsplit_once('/') {
        Some((_, folder)) => folder,
        None => folders,
    }
}

fn run_word(rt: &HostRuntime, name: &str) -> io::Result<bool> {
    match folder_of(name) {
        "values" => value_cases::run_file(rt, name),
        "files" => file_cases::run_file(rt, name),
        "walks" => file_cases::run_walk_file(rt, name),
        "calls" => call_cases::run_file(rt, name),
        "scripts" => script_cases::run_file(rt, name),
        _ => Err(io::Error::from(io::ErrorKind::NotFound)),
    }
}

fn run_all(rt: &HostRuntime) -> io::Result<bool> {
    let mut agree = true;
    for name in env::args(rt)?.skip(1) {
        agree = run_word(rt, &name)? && agree;
    }
    Ok(agree)
}

fn main(rt: HostRuntime) -> ExitCode {
    match run_all(&rt) {
        Ok(true) => ExitCode::from(0),
        Ok(false) => ExitCode::from(1),
        Err(_) => ExitCode::from(2),
    }
}
