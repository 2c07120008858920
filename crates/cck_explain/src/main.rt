//! The program `cck_explain`: why two compilations did not share a key.
//!
//! `cck_explain key DIGEST LANGUAGE [ARG..]` reads a preprocessed text from standard input and
//! prints the parts of its key material, a line each, and its key. `cck_explain entry` reads an entry
//! of the store and prints its results and their includes. `cck_explain markers INPUT CWD` reads a
//! preprocessed text and prints its line markers. `cck_explain script` reads a script of `cck run` and
//! prints what each of its calls did. Errors go to standard error.
//!
//! `main` passes what the words ask for and the standard streams to [`run`](program::run), which is
//! over any reader and any writers.
//!
//! # Scripts
//!
//! [`script_listing`](script_calls::script_listing) makes the calls of a script, as [`cck_command`]
//! does, on a [`WatchedStore`](watched_store::WatchedStore), which keeps what is asked of it. For each
//! call the listing has the preprocessor key, what the store returned, which included files of a
//! stored result did not match and how, what was put, and the line that `cck run` prints.
//! [`difference_of`](difference::difference_of) says how an included file differs.
#![tactic(auto)]

mod buffer;
mod difference;
mod entry;
mod error;
mod key;
mod laws;
mod line;
mod markers;
mod note;
mod part;
mod program;
mod request;
mod script;
mod script_calls;
mod watched_store;
mod words;

use crate::program::{report, run};
use crate::words::{language_names, request_of};
use cck_util::Sha256State;
use std::env;
use std::io::ErrorKind;
use std::process::ExitCode;

fn main(rt: HostRuntime) -> ExitCode {
    let alloc = rt.alloc();
    let mut reader = rt.stdin();
    let mut writer = rt.stdout();
    let mut errors = rt.stderr();
    let words = match env::args(&rt) {
        Ok(all) => all.collect::<Vec<String>>(alloc).ok(),
        // Words that are no UTF-8 ask for nothing, as an empty command line does.
        Err(error) if error.kind() != ErrorKind::OutOfMemory => Some(Vec::new(alloc)),
        Err(_) => None,
    };
    let status = match (words, language_names(alloc)) {
        (Some(words), Ok(languages)) => run::<Sha256State, _, _, _>(
            alloc,
            &request_of(alloc, &languages, &words),
            &mut reader,
            &mut writer,
            &mut errors,
        ),
        _ => report(&mut errors, b"out of memory"),
    };
    ExitCode::from(status.code())
}
