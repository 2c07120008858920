//! The program, over any reader and any writers.
ghost use Rattle.std.specs.Prelude.{◌≡◌, ◌≢◌, IfErr, IfSome, MatchOption, MatchResult, OnErr, OnOk};
ghost use Rattle.clap.specs.Values.{kind_of};
ghost use Rattle.cck_command.specs.Printing.{AppendsBeginning};
ghost use Rattle.cck_explain.specs.Run.{HasOutcome, Lists, HasErrorLine, StatusOf, error_line};
ghost use Rattle.cck_explain.specs.Written.{BeginsOf, WritesOf};

use crate::entry::explain_entry;
use crate::error::{ExplainError, OUT_OF_MEMORY};
use crate::key::explain_key;
use crate::markers::explain_markers;
use crate::request::ExplainRequest;
use crate::script::explain_script;
use cck_command::{Failed, Status, print};
use cck_util::HashState;
use clap::Error;
use clap::error::ErrorKind;
use std::alloc::Global;
use std::io::{Read, Write};

// Writes a line with the program's name and this text.
fn print_error<E: Write>(errors: &mut E, why: &[u8]) -> Result<(), Failed>
    ensures { AppendsBeginning (E.contents errors.old) (E.contents errors.new) (error_line why.now) }
{
    print(errors, b"cck_explain: ")?;
    print(errors, why)?;
    print(errors, b"\n")
}

/// Tries once to write a line with the program's name and this text, and returns
/// [`Status::Failed`], whether or not the line could be written.
pub fn report<E: Write>(errors: &mut E, why: &[u8]) -> Status
    ensures status { result ≡ Status.Failed }
    ensures line { AppendsBeginning (E.contents errors.old) (E.contents errors.new) (error_line why.now) }
{
    let _ = print_error(errors, why);
    Status::Failed
}

// Writes this text, which was asked for in place of a listing.
fn show<W: Write, E: Write>(alloc: Global, text: &[u8], writer: &mut W, errors: &mut E) -> Status
    ensures status { result ≢ Status.Usage }
    ensures done { result ≡ Status.Done → errors.new ≡ errors.old }
    ensures errors { result ≡ Status.Failed → HasErrorLine (E.contents errors.old) (E.contents errors.new) }
{
    match print(writer, text) {
        Ok(()) => Status::Done,
        Err(Failed) => report_error(alloc, errors, ExplainError::Write),
    }
}

// Writes what the words ask for instead of a listing: help or the version to the writer, and what
// is wrong with the words to the errors.
fn write_text_of<W: Write, E: Write>(
    alloc: Global,
    error: &Error,
    writer: &mut W,
    errors: &mut E,
) -> Status
    ensures status { StatusOf (kind_of error.now) result }
    ensures usage { result ≡ Status.Usage → writer.new ≡ writer.old }
    ensures done { result ≡ Status.Done → errors.new ≡ errors.old }
    ensures errors { result ≡ Status.Failed → HasErrorLine (E.contents errors.old) (E.contents errors.new) }
{
    let Ok(text) = format!(in alloc; "{error}") else {
        return report(errors, OUT_OF_MEMORY.as_bytes());
    };
    match error.kind() {
        ErrorKind::OutOfMemory => report(errors, OUT_OF_MEMORY.as_bytes()),
        ErrorKind::DisplayHelp | ErrorKind::DisplayVersion => {
            show(alloc, text.as_bytes(), writer, errors)
        }
        _ => {
            let _ = print(errors, text.as_bytes());
            Status::Usage
        }
    }
}

// Tries once to write which error it was.
fn report_error<E: Write>(alloc: Global, errors: &mut E, error: ExplainError) -> Status
    ensures status { result ≡ Status.Failed }
    ensures line { HasErrorLine (E.contents errors.old) (E.contents errors.new) }
{
    match format!(in alloc; "{error}") {
        Ok(text) => report(errors, text.as_bytes()),
        Err(_) => report(errors, OUT_OF_MEMORY.as_bytes()),
    }
}

// Writes the listing that is asked for.
fn explain<H: HashState, R: Read, W: Write>(
    alloc: Global,
    request: &ExplainRequest<'_>,
    reader: &mut R,
    writer: &mut W,
) -> Result<(), ExplainError>
    ensures listed { OnOk result (IfSome (R.remaining reader.old) (λ bytes.
        WritesOf (Lists H.hash request.now bytes) (W.contents writer.old) (W.contents writer.new))) }
    ensures begun { OnErr result (IfSome (R.remaining reader.old) (λ bytes.
        BeginsOf (Lists H.hash request.now bytes) (W.contents writer.old) (W.contents writer.new))) }
{
    match request {
        ExplainRequest::Key(request) => explain_key::<H, R, W>(alloc, request, reader, writer),
        ExplainRequest::Entry => explain_entry(alloc, reader, writer),
        ExplainRequest::Markers(request) => explain_markers(alloc, *request, reader, writer),
        ExplainRequest::Script => explain_script::<H, R, W>(alloc, reader, writer),
    }
}

// Writes the listing that is asked for, or which error it was.
fn list<H: HashState, R: Read, W: Write, E: Write>(
    alloc: Global,
    request: &ExplainRequest<'_>,
    reader: &mut R,
    writer: &mut W,
    errors: &mut E,
) -> Status
    ensures outcome { HasOutcome H.hash request.now (R.remaining reader.old) result (W.contents writer.old) (W.contents writer.new) }
    ensures done { result ≡ Status.Done → errors.new ≡ errors.old }
    ensures errors { result ≡ Status.Failed → HasErrorLine (E.contents errors.old) (E.contents errors.new) }
{
    match explain::<H, R, W>(alloc, request, reader, writer) {
        Ok(()) => Status::Done,
        Err(error) => report_error(alloc, errors, error),
    }
}

/// Runs the program on what the words ask for, as [`request_of`](crate::words::request_of) returned it, and
/// writes its listing.
///
/// - A request: all of the input is read. [`Status::Done`] is returned after all of the listing was
///   written, and nothing to `errors`. [`Status::Failed`] is returned if a read, a write or an
///   allocation failed, the bytes are no entry, or a line of the script is wrong: a prefix of the
///   listing is then written, which may be empty or all of it.
/// - `None`: [`Status::Usage`] is returned. Nothing is read or written.
/// - Help and the version: the text is written, and [`Status::Done`] is returned.
/// - Any other error: what is wrong with the words is written to `errors`, and [`Status::Usage`] is
///   returned. Nothing is read or written.
/// - With [`Status::Failed`] there was one try to write a line to `errors` that says why.
pub fn run<H: HashState, R: Read, W: Write, E: Write>(
    alloc: Global,
    asked: &Result<Option<ExplainRequest<'_>>, Error>,
    reader: &mut R,
    writer: &mut W,
    errors: &mut E,
) -> Status
    ensures outcome { MatchResult asked.now
        (λ request. MatchOption request (result ≡ Status.Usage) (λ request.
        HasOutcome H.hash request (R.remaining reader.old) result (W.contents writer.old) (W.contents writer.new)))
        (λ error. StatusOf (kind_of error) result) }
    ensures unread { IfErr asked.now (λ _. reader.new ≡ reader.old) }
    ensures usage { result ≡ Status.Usage → writer.new ≡ writer.old }
    ensures done { result ≡ Status.Done → errors.new ≡ errors.old }
    ensures errors { result ≡ Status.Failed → HasErrorLine (E.contents errors.old) (E.contents errors.new) }
{
    match asked {
        Ok(Some(request)) => list::<H, R, W, E>(alloc, request, reader, writer, errors),
        Ok(None) => Status::Usage,
        Err(error) => write_text_of(alloc, error, writer, errors),
    }
}
