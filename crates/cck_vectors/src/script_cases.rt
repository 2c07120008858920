//! Cases of the calls on scripts, on the small preprocessor and on the program `cck` as a function.
//!
//! [`Scripts`] is the subject of a vector file. `docs/TESTING.md` has the grammar. A script is made of the lines of
//! `line TEXT`, each as it is, and after them the bytes of a call.
//!
//! | call | what is called, and its result |
//! |---|---|
//! | `parse TEXT` | `Script::parse`: what each line says, in the words of a script, with brackets round paths, texts and arguments |
//! | `calls TEXT` | `Command::call`: each call that the script asks for; `recache` where no stored key may be returned |
//! | `options TEXT` | `Script::options` |
//! | `surroundings N PATH..` | `Surroundings` at the call N, counted from 0: what is at these paths, and the variables |
//! | `script_error_text TEXT` | what `Display` prints of the error of `Script::parse` |
//! | `run TEXT` | `engine` with the word `run`: what is written, and after it the status |
//! | `program WORD..` | `engine` with these words |
//! | `refuse` | `refuse` |
//! | `print_input INPUT` | `print_input`, over files, zone and call time, from the directory `cwd PATH` |
//! | `print_error_text INPUT` | what `Display` prints of its error |
//! | `command_line WORD..` | `MiniCompiler::parse_arguments` |
//! | `preprocess WORD..` | `MiniCompiler::preprocess`, of this command line |
//! | `compiler` | what else a `MiniCompiler` says of itself |
//! | `plain_keys TEXT` | the result of each call of a script, made alone on an empty store |
//! | `results TEXT` | `run_calls`, over all calls of a script as a list |
//! | `checked_results TEXT` | how many of these results are wrong, where a request for memory may have failed |
//! | `fail_each CAUSE HOW` | each call of a cause fails in turn (`failures.rt`, `broken_streams.rt`) |
//!
//! The causes are `files`, `store`, `forget`, `reads`, `writes` and `flushes`; a call fails `once`, or
//! with all later ones, `on`. `store_fail_after N` arms the store of `results`, and `other_results N
//! PATH` has it hold an entry at first.
//! `reader`, `writer`, `flush` and `written` are words of the streams of a run ([`Streams`]).
//! After `digested` the results of the case are written as their digest texts.
//!
//! [`Streams`]: crate::script_cases::streams::Streams

mod broken_streams;
mod commands;
mod compiler;
mod engine;
mod failing_calls;
mod failures;
mod lists;
mod mini;
mod places;
mod scripts;
mod streams;
mod subject;

use crate::script_cases::subject::Scripts;
use std::io;

/// Runs the cases of a file as [`run_file`](crate::cases::run_file) does.
///
/// # Errors
///
/// Those of [`run_file`](crate::cases::run_file).
pub(crate) fn run_file(rt: &HostRuntime, name: &str) -> io::Result<bool> {
    crate::cases::run_file::<Scripts>(rt, name)
}
