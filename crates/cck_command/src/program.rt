//! The program, over any reader and any writer.
ghost use Rattle.std.specs.Prelude.{◌≡◌, ◌≢◌, None, IfOk, IfSome, MatchResult, map, string_bytes};
ghost use Rattle.std.specs.Cow.{cow_slice_items};
ghost use Rattle.std.specs.Io.KnownBytes.{Appends};
ghost use Rattle.cck_path.specs.Bytes.{Bytes};
ghost use Rattle.cck_command.specs.Script.{IsScriptError, commands_of, wrong_line};
ghost use Rattle.cck_command.specs.ScriptSeen.{lines_of};
ghost use Rattle.cck_command.specs.Printing.{AppendsBeginning};
ghost use Rattle.cck_command.specs.Program.{IsCutShort, IsOutput, IsSomeOutput, key_line, failed_line};
ghost use Rattle.cck_command.specs.Request.{IsUsageError};
ghost use Rattle.cck_command.specs.Run.{Ran, wrong_text};

use crate::failed::Failed;
use crate::printing::print;
use crate::request::{KeyRequest, asks_to_run, bytes_of};
use crate::result_lines::wrong_text;
use crate::run::run_script;
use crate::script::{Script, ScriptError};
use crate::status::Status;
use cck_util::{HashKeyParams, HashState, read_all};
use std::alloc::Global;
use std::borrow::CowSlice;
use std::io::{Read, Write};

const USAGE: &[u8] = b"cck: usage: cck key DIGEST LANGUAGE [ARG..] | cck run\n";

const REFUSED: &[u8] = b"cck: refused\n";

// What the program prints, and the status that it then returns.
#[derive(Drop)]
struct Output {
    status: Status,
    text: CowSlice<'static, u8>,
}

// Reads a text to its end. The output is its key.
fn key_output<H: HashState, R: Read>(
    alloc: Global,
    request: &KeyRequest<'_>,
    reader: &mut R,
) -> Result<Output, Failed>
    ensures { IfOk result (λ output. (output.status ≡ Status.Done) × IfSome (R.remaining reader.old) (λ input.
        cow_slice_items output.text ≡ key_line H.hash request.now input)) }
{
    let arguments = bytes_of(alloc, request.arguments)?;
    let text = read_all(alloc, reader)?;
    let params = HashKeyParams::new(request.compiler_digest, request.language, &arguments, &text);
    let mut line = params.compute::<H>(alloc)?;
    line.push('\n')?;
    Ok(Output {
        status: Status::Done,
        text: CowSlice::Owned(line.into_bytes()),
    })
}

// Reads a script to the reader's end. Its text is freed when this returns.
fn read_script<R: Read>(
    alloc: Global,
    reader: &mut R,
) -> Result<Result<Script, ScriptError>, Failed>
    ensures { IfOk result (λ parsed. IfSome (R.remaining reader.old) (λ input. MatchResult parsed
        (λ script. (wrong_line input ≡ None) × (lines_of script ≡ commands_of input)) (IsScriptError input))) }
{
    let text = read_all(alloc, reader)?;
    Ok(Script::parse(alloc, &text))
}

// Reads a script to its end. The output is one line for each of its calls. If a line is wrong, the
// output is the number of the first such line, and no call is made.
fn run_output<H: HashState, R: Read>(alloc: Global, reader: &mut R) -> Result<Output, Failed>
    ensures ended { IfOk result (λ output. output.status ≢ Status.Failed) }
    ensures wrong { IfOk result (λ output. IfSome (R.remaining reader.old) (λ input. IfSome (wrong_line input) (λ number.
        (output.status ≡ Status.Usage) × (cow_slice_items output.text ≡ wrong_text number)))) }
    ensures ran { IfOk result (λ output. IfSome (R.remaining reader.old) (λ input. wrong_line input ≡ None →
        (output.status ≡ Status.Done) × Ran H.hash (commands_of input) (cow_slice_items output.text))) }
{
    match read_script(alloc, reader)? {
        Ok(script) => {
            let lines = run_script::<H>(alloc, script)?;
            Ok(Output {
                status: Status::Done,
                text: CowSlice::Owned(lines),
            })
        }
        Err(ScriptError::Line(number)) => {
            let line = wrong_text(alloc, number)?;
            Ok(Output {
                status: Status::Usage,
                text: CowSlice::Owned(line.into_bytes()),
            })
        }
        Err(ScriptError::Memory) => Err(Failed),
    }
}

// The output for these words. The words are checked before anything is read.
fn output_of<H: HashState, R: Read>(
    alloc: Global,
    words: &[String],
    reader: &mut R,
) -> Result<Output, Failed>
    ensures ended { IfOk result (λ output. output.status ≢ Status.Failed) }
    ensures output { IfOk result (λ output. IsOutput H.hash (map string_bytes words.now) (R.remaining reader.old)
        output.status (cow_slice_items output.text)) }
    ensures unread { IsUsageError (map string_bytes words.now) → reader.new ≡ reader.old }
{
    if asks_to_run(words) {
        return run_output::<H, R>(alloc, reader);
    }
    match KeyRequest::from_words(words) {
        Some(request) => key_output::<H, R>(alloc, &request, reader),
        None => Ok(Output {
            status: Status::Usage,
            text: CowSlice::Borrowed(USAGE),
        }),
    }
}

/// Tries once to write the line `cck: refused`, which says that input, output or memory failed.
///
/// [`Status::Failed`] is returned whether or not the line could be written. A prefix of the line
/// is written, which may be empty or the whole line.
///
/// [`engine`] ends so where it refuses. It is public for the `main` of the program `cck`, which ends
/// so where it can't read its words and so can't call [`engine`].
pub fn refuse<W: Write>(writer: &mut W) -> Status
    ensures status { result ≡ Status.Failed }
    ensures begun { AppendsBeginning (W.contents writer.old) (W.contents writer.new) failed_line }
{
    let _ = print(writer, REFUSED);
    Status::Failed
}

/// Runs the program on these words, without the program's name, and writes its output.
///
/// - Words that are neither of the two commands below: nothing is read, the usage line is written,
///   and [`Status::Usage`] is returned.
/// - `key DIGEST LANGUAGE [ARG..]`: a text is read to the reader's end. Its key and an LF are
///   written, and [`Status::Done`] is returned. No read is tried again.
/// - `run`: a script is read to the reader's end. If a line is wrong, `cck: line N` with the number
///   of the first such line is written, [`Status::Usage`] is returned, and no call is made. Else
///   its calls are made in their order, one line per call is written, and [`Status::Done`] is
///   returned. The line is `hit KEY` for a stored key, `miss KEY` for a computed key, and `error N`
///   for an error with the number N ([`KeyError::number`](c_cache_keys::KeyError::number)).
///   If the calls meet the premises of [`laws::headline`](c_cache_keys::laws::headline), each
///   printed key is the plain key of its call. Whether they do or not, each stored key that matches
///   is printed as a hit, if its call may use the store and isn't printed as `error 1`.
/// - If a read, a write or an allocation outside a call failed, [`Status::Failed`] is returned,
///   after one try to write `cck: refused`. The whole output is made before anything is written.
///   So what is written is a prefix of that line, or a prefix of the output and then a prefix of
///   that line. How much was read is unspecified.
pub fn engine<H: HashState, R: Read, W: Write>(
    alloc: Global,
    words: &[String],
    reader: &mut R,
    writer: &mut W,
) -> Status
    ensures printed { result ≢ Status.Failed → (text : Bytes)
        × IsOutput H.hash (map string_bytes words.now) (R.remaining reader.old) result text
        × Appends (W.contents writer.old) (W.contents writer.new) text }
    ensures errors { result ≡ Status.Failed →
        IsCutShort (IsSomeOutput H.hash (map string_bytes words.now) (R.remaining reader.old))
        (W.contents writer.old) (W.contents writer.new) }
    ensures unread { IsUsageError (map string_bytes words.now) → reader.new ≡ reader.old }
{
    match output_of::<H, R>(alloc, words, reader) {
        Ok(output) => match print(writer, output.text.as_slice()) {
            Ok(()) => output.status,
            Err(Failed) => refuse(writer),
        },
        Err(Failed) => refuse(writer),
    }
}
