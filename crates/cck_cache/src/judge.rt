//! What a call of a compiler asks for, or why it is not cached, by its arguments.
ghost use Rattle.std.specs.Prelude.{◌≡◌, ◌↔◌, IfOk, IsTrue};
ghost use Rattle.cck_cache.specs.Judge.{AskForFile, IsJudged, NameArguments, passed_name};
ghost use Rattle.cck_cache_options.specs.Table.{entries};
ghost use Rattle.cck_path.specs.Bytes.{lists_of};

use crate::call::{CallPaths, paths_of};
use crate::response::may_name_arguments;
use cck_cache_options::{Call, Parsed, Reason, Row, parse};
use cck_cache_text::may_ask_for_file;
use std::alloc::{AllocError, Global};

/// Why a call is not cached.
#[derive(Clone, Copy)]
pub enum Passed {
    /// A variable is set with which no call is cached.
    Variable,
    /// The store keeps no programs of the compiler that count for the call.
    Programs,
    /// The compiler is not known.
    Compiler,
    /// What its arguments say is not cached.
    Arguments(Reason),
    /// An argument may make a source test for a header, or compare the times of files.
    HeaderTest,
    /// A program that the compiler runs may read a file of arguments.
    ResponseFile,
    /// A path is not UTF-8, or that of the directory is not that of the working directory.
    Path,
    /// What is at the path of an output, or at that of the input, is not as a hit needs it.
    Output,
}

impl Passed {
    /// The name under which it is counted.
    pub fn as_str(self) -> &'static str
        ensures { result.now ≡ passed_name self }
    {
        match self {
            Passed::Variable => "variable",
            Passed::Programs => "programs-unknown",
            Passed::Compiler => "compiler",
            Passed::Arguments(reason) => reason.as_str(),
            Passed::HeaderTest => "header-test",
            Passed::ResponseFile => "response-file",
            Passed::Path => "path",
            Passed::Output => "output",
        }
    }
}

/// What a call is found to be by its arguments.
#[derive(Drop)]
pub enum Judged<'a> {
    /// What the arguments say of a call that is cached, and the paths of its files.
    Asks(Call<'a>, CallPaths<'a>),
    /// The call is not cached.
    PassedOn(Passed),
}

// Whether an argument may make a source depend on a file that it does not include.
fn ask_for_file(arguments: &[Vec<u8>]) -> bool
    ensures { IsTrue result ↔ AskForFile (lists_of arguments.now) }
{
    for argument in arguments {
        if may_ask_for_file(argument) {
            return true;
        }
    }
    false
}

// Whether an argument may name a file of arguments of a program that the compiler runs.
fn name_arguments(arguments: &[Vec<u8>]) -> bool
    ensures { IsTrue result ↔ NameArguments (lists_of arguments.now) }
{
    arguments
        .iter()
        .any(|argument| may_name_arguments(argument))
}

/// Judges a call by its arguments and the rows of a table: what it asks for, or why it is not cached.
///
/// The error is lack of memory.
pub fn judge<'a>(
    alloc: Global,
    rows: &[Row<'_>],
    arguments: &'a [Vec<u8>],
) -> Result<Judged<'a>, AllocError>
    ensures { IfOk result (IsJudged (entries rows.now) (lists_of arguments.now)) }
{
    let asked = match parse(alloc, rows, arguments)? {
        Parsed::Asks(asked) => asked,
        Parsed::PassedOn(reason) => return Ok(Judged::PassedOn(Passed::Arguments(reason))),
    };
    if ask_for_file(arguments) {
        return Ok(Judged::PassedOn(Passed::HeaderTest));
    }
    if name_arguments(arguments) {
        return Ok(Judged::PassedOn(Passed::ResponseFile));
    }
    match paths_of(alloc, &asked)? {
        Some(paths) => Ok(Judged::Asks(asked, paths)),
        None => Ok(Judged::PassedOn(Passed::Path)),
    }
}
