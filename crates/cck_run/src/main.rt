//! The program `cck`: the keys of sccache's C compiler cache, from the command line.
//!
//! `cck key DIGEST LANGUAGE [ARG..]` reads a preprocessed text from standard input and prints the
//! key of the object that a compiler with this digest makes of it. `cck run` reads a script of
//! calls from standard input and makes them in their order, over files and a store in memory. For
//! each it prints one line, with its key or its error. All that is printed, errors too, goes to
//! standard output. `cck --version` prints the version; other words `main` only passes, with the
//! standard streams, to [`engine`], which is what the theorems are about.
#![tactic(auto)]

use cck_command::{Status, engine, print, refuse};
use cck_util::{Sha256State, VERSION};
use std::alloc::Global;
use std::env;
use std::io::{ErrorKind, Read, Write};
use std::process::ExitCode;

// Prints the version.
fn print_version<W: Write>(alloc: Global, writer: &mut W) -> Status {
    match format!(in alloc; "cck {VERSION}\n") {
        Ok(line) if print(writer, line.as_bytes()).is_ok() => Status::Done,
        _ => refuse(writer),
    }
}

// Does what these words ask for.
fn run<R: Read, W: Write>(
    alloc: Global,
    words: &[String],
    reader: &mut R,
    writer: &mut W,
) -> Status {
    if words.len() == 1 && words[0].as_str() == "--version" {
        return print_version(alloc, writer);
    }
    engine::<Sha256State, R, W>(alloc, words, reader, writer)
}

fn main(rt: HostRuntime) -> ExitCode {
    let alloc = rt.alloc();
    let mut reader = rt.stdin();
    let mut writer = rt.stdout();
    let words = match env::args(&rt) {
        Ok(all) => all.skip(1).collect::<Vec<String>>(alloc).ok(),
        // Words that are no UTF-8 ask for nothing, as an empty command line does.
        Err(error) if error.kind() != ErrorKind::OutOfMemory => Some(Vec::new(alloc)),
        Err(_) => None,
    };
    let status = match words {
        Some(words) => run(alloc, &words, &mut reader, &mut writer),
        None => refuse(&mut writer),
    };
    ExitCode::from(status.code())
}
