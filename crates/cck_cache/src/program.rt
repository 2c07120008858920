//! The program, over any files, reader and writers.
ghost use Rattle.std.specs.Prelude.{◌≡◌, ◌++◌, [], IfOk, cond};
ghost use Rattle.cck_cache.specs.Judge.{IsJudged};
ghost use Rattle.cck_cache_options.specs.Table.{entries, table_of};
ghost use Rattle.cck_path.specs.Bytes.{lists_of};

use crate::call::{CallPaths, call_lines, request_of};
use crate::environment::Environment;
use crate::input::input_snapshot;
use crate::judge::{Judged, Passed, judge};
use crate::look::{Found, Missed, NO_KEY, keeps, look};
use crate::outputs::write_outputs;
use crate::places::are_free;
use crate::programs::{Named, programs_of};
use crate::record::{Outcome, record};
use crate::request::{is_clang, is_foreign, programs_for, request_key};
use crate::seal::seal;
use crate::store::store_in;
use crate::unpack::{Taken, unpack};
use crate::wanted::Look;
use crate::why::print_why;
use anyhow::{Context, Result, bail};
use cck_cache_files::{Kind, Request, StoreDirectory, entry_name, is_working_directory};
use cck_cache_options::{
    Action, CLANG, Call, Compilation, CompilerCall, Explanation, GCC, NATIVE, Outputs, Packed, Row,
    Server, Source, StoreAction, Task, rows_of, task_of,
};
use cck_cache_store::{
    Peer, RemotePeer, StreamPeer, address_in, clear_store, limit_shares, print_files, print_stats,
    prune_store, verify_store,
};
use cck_path::Timestamp;
use std::alloc::{AllocError, Global};
use std::io::{Read, Write};
use std::rt::Files;
use std::{fs, io, mem};

/// The exit status of a program that did what was asked for.
const DONE: u8 = 0;

/// The exit status after an error.
const FAILED: u8 = 1;

/// The exit status for wrong words.
const USAGE: u8 = 2;

/// The exit status where there is no key, no object or no recording, or where a call is not cached.
const MISS: u8 = 3;

/// The line before the answer where a request to a server took too long.
const LATE: &[u8] = b"late\n";

// What the program prints.
struct Printed {
    // On standard output, or to a file.
    answer: Vec<u8>,
    // On standard error: the compiler's messages, or what is wrong with the words.
    messages: Vec<u8>,
    // The path of a file to which the answer is written in place of standard output, if there is one.
    place: Option<String>,
}

impl Drop for Printed {
    fn drop(self) {
        let Printed {
            answer: _,
            messages: _,
            place: _,
        } = self;
    }
}

// What a call of a compiler asks for.
#[derive(Drop)]
struct Wanted<'a> {
    // What its arguments say.
    asked: Call<'a>,
    // The paths of its files.
    paths: CallPaths<'a>,
    // Its compilation.
    request: Request<'a>,
}

// What a call of a compiler is found to be.
#[derive(Drop)]
enum Asked<'a> {
    // A call that is cached.
    Cached(Wanted<'a>),
    // The call is not cached.
    PassedOn(Passed),
}

// Prints why a call is not cached.
fn print_passed(answer: &mut Vec<u8>, reason: Passed) -> Result<u8> {
    writeln!(answer, "passed {}", reason.as_str())?;
    Ok(MISS)
}

// Prints the preprocessor key, and the call.
fn run_preprocessor_key<R: Files + AllocGlobal>(
    rt: &R,
    environment: &Environment<'_>,
    wanted: &Wanted<'_>,
    answer: &mut Vec<u8>,
) -> Result<u8> {
    let mut files = input_snapshot(rt, &wanted.request)?;
    match request_key(rt, environment, &wanted.request, &mut files)? {
        Some(key) => {
            writeln!(answer, "{key}")?;
            let programs = wanted.request.compiler.as_str();
            let lines = call_lines(rt.alloc(), &wanted.asked, &wanted.paths, programs)?;
            answer.extend_from_slice(&lines)?;
            Ok(DONE)
        }
        None => {
            writeln!(answer, "{NO_KEY}")?;
            Ok(MISS)
        }
    }
}

// Prints a miss: the preprocessor key, the time at which the look-up ended, and the name of an object and
// what is damaged or forged, if there are such.
fn print_miss(
    answer: &mut Vec<u8>,
    preprocessor_key: &str,
    since: Timestamp,
    missed: &Missed,
) -> io::Result<()> {
    let (seconds, nanoseconds) = (since.seconds(), since.nanoseconds());
    write!(answer, "miss {preprocessor_key} {seconds}.{nanoseconds:09}")?;
    if let Some(object_name) = &missed.object_name {
        write!(answer, " object {object_name}")?;
    }
    if let Some(file) = &missed.damaged {
        write!(answer, " damaged {file}")?;
    }
    if let Some(value) = &missed.forged {
        write!(answer, " forged {value}")?;
    }
    writeln!(answer)
}

// Notes that the entry file of this name and the object file of that name were used, and counts a hit. An error changes no result: neither
// a time nor a count decides whether a look-up hits.
fn note_hit<R: Files + AllocGlobal>(
    rt: &R,
    environment: &Environment<'_>,
    store: &StoreDirectory,
    entry_name: &str,
    object_name: &str,
) {
    let _ = store.touch(rt, Kind::Object, object_name, environment.now);
    let _ = store.touch(rt, Kind::Entry, entry_name, environment.now);
    let _ = store.count(rt, "hit");
}

// Keeps the shares of an object and a preprocessor key within the limit of the store. An error changes no result: the next
// recording there tries again.
fn limit_store<R: Files + AllocGlobal + Clone + Drop>(
    rt: &R,
    environment: &Environment<'_>,
    store: &StoreDirectory,
    object_name: &str,
    key: &str,
) {
    if let Some(limit) = environment.max_size {
        let _ = limit_shares(rt, environment.now, limit, store, object_name, key);
    }
}

// Counts a miss, and a value of the server that is damaged or forged.
fn count_miss<R: Files + AllocGlobal>(
    rt: &R,
    store: &StoreDirectory,
    has_server: bool,
    missed: &Missed,
) {
    let _ = store.count(rt, "miss");
    if has_server && missed.damaged.is_some() {
        let _ = store.count(rt, "server-damaged");
    }
    if missed.forged.is_some() {
        let _ = store.count(rt, "server-forged");
    }
}

// Counts a hit by an object of the server, and keeps the store within its limit, if the object was kept there.
fn note_given<R: Files + AllocGlobal + Clone + Drop>(
    rt: &R,
    environment: &Environment<'_>,
    store: &StoreDirectory,
    keeps: bool,
    object_name: &str,
    key: &str,
) {
    let _ = store.count(rt, "server-hit");
    if keeps {
        limit_store(rt, environment, store, object_name, key);
    }
}

// Writes the object that was found, with the dependency file if there is a path for it, or prints that there is none.
fn print_found<R: Files + AllocGlobal + Clone + Drop>(
    rt: &R,
    environment: &Environment<'_>,
    store: &StoreDirectory,
    wanted: &Look<'_>,
    found: &Found,
    printed: &mut Printed,
) -> Result<u8> {
    match found {
        Found::Hit {
            preprocessor_key,
            place,
            object_name,
            object,
        } => {
            write_outputs(rt, store, &wanted.outputs, object, &mut printed.messages)?;
            let (name, key) = (object_name.as_str(), preprocessor_key.as_str());
            match *place {
                Some(place) => {
                    let entry_name = entry_name(rt.alloc(), key, place)?;
                    note_hit(rt, environment, store, &entry_name, name);
                }
                None => note_given(rt, environment, store, keeps(wanted), name, key),
            }
            writeln!(printed.answer, "hit {name} {}", wanted.request.input)?;
            Ok(DONE)
        }
        Found::Miss {
            preprocessor_key,
            since,
            missed,
        } => {
            count_miss(rt, store, wanted.server.is_some(), missed);
            print_miss(&mut printed.answer, preprocessor_key, *since, missed)?;
            Ok(MISS)
        }
        Found::NoKey => {
            let _ = store.count(rt, "no-key");
            writeln!(printed.answer, "{NO_KEY}")?;
            Ok(MISS)
        }
    }
}

// Prints how an object file was taken that is not damaged in a directory, and counts it.
fn print_taken<R: Files + AllocGlobal>(
    rt: &R,
    store: &StoreDirectory,
    packed: &Packed<'_>,
    taken: Taken,
    answer: &mut Vec<u8>,
) -> Result<u8> {
    let name = packed.name;
    match (taken, packed.source) {
        (Taken::Written, _) => {
            let _ = store.count(rt, "unpacked");
            writeln!(answer, "unpacked {name}")?;
            return Ok(DONE);
        }
        (Taken::Damaged, Source::Path(path)) => {
            let _ = store.count(rt, "damaged");
            writeln!(answer, "damaged {path}")?;
        }
        (Taken::Damaged, Source::Server(_)) => {
            let _ = store.count(rt, "server-damaged");
            writeln!(answer, "damaged object:{name}")?;
        }
        (Taken::Forged, _) => {
            let _ = store.count(rt, "server-forged");
            writeln!(answer, "forged object:{name}")?;
        }
        (Taken::Absent, _) => writeln!(answer, "absent {name}")?,
    }
    Ok(MISS)
}

// Writes the object of an object file, with the dependency file if there is a path for it.
fn run_unpack<R: Files + AllocGlobal, S: Peer>(
    rt: &R,
    environment: &Environment<'_>,
    store: &str,
    packed: &Packed<'_>,
    peer: &mut S,
    printed: &mut Printed,
) -> Result<u8> {
    let store = store_in(rt, environment, store)?;
    let taken = unpack(rt, &store, packed, peer, &mut printed.messages)?;
    print_taken(rt, &store, packed, taken, &mut printed.answer)
}

// Counts the outcome of a recording. That of an entry alone is not counted: the object of its text may be
// missing, and then the compilation is recorded too.
fn count_outcome<R: Files + AllocGlobal>(
    rt: &R,
    store: &StoreDirectory,
    compilation: &Compilation<'_>,
    name: &str,
) {
    if compilation.made.is_some() {
        let _ = store.count(rt, name);
    }
}

// Records a compilation, whose preprocessed text this is.
fn run_record<R: Files + AllocGlobal + Clone + Drop, S: Peer>(
    rt: &R,
    environment: &Environment<'_>,
    store: &str,
    request: &Request<'_>,
    compilation: &Compilation<'_>,
    peer: &mut S,
    answer: &mut Vec<u8>,
) -> Result<u8> {
    let text = peer.read_text(rt.alloc())?;
    let store = store_in(rt, environment, store)?;
    match record(rt, environment, &store, request, compilation, &text)? {
        Outcome::Recorded(object_name) => {
            count_outcome(rt, &store, compilation, "recorded");
            if compilation.entry_out.is_none() && compilation.object_out.is_none() {
                limit_store(rt, environment, &store, &object_name, compilation.key);
            }
            writeln!(answer, "recorded {object_name}")?;
            Ok(DONE)
        }
        Outcome::Refused(refusal) => {
            let name = refusal.as_str();
            count_outcome(rt, &store, compilation, name);
            writeln!(answer, "{name}")?;
            Ok(MISS)
        }
    }
}

// Prints why a look-up misses, or that the request has no preprocessor key.
fn run_why<R: Files + AllocGlobal>(
    rt: &R,
    environment: &Environment<'_>,
    store: &str,
    request: &Request<'_>,
    answer: &mut Vec<u8>,
) -> Result<u8> {
    let store = store_in(rt, environment, store)?;
    let has_key = print_why(rt, environment, &store, request, answer)?;
    Ok(if has_key { DONE } else { MISS })
}

// Where the files of a call are written.
fn outputs_of<'a>(paths: &'a CallPaths<'_>) -> Outputs<'a> {
    Outputs {
        object: paths.output.as_str(),
        dependencies: paths.dependencies.as_deref(),
    }
}

// Looks for an object, in the store or at the server, if one is asked, and prints what is found. The call is passed on where the
// path of the directory, by which files were looked at, is no longer that of the working directory.
fn print_look<R: Files + AllocGlobal + Clone + Drop, S: Peer>(
    rt: &R,
    environment: &Environment<'_>,
    wanted: &Look<'_>,
    peer: &mut S,
    printed: &mut Printed,
) -> Result<u8> {
    let store = store_in(rt, environment, wanted.store)?;
    let found = look(rt, environment, &store, wanted, peer)?;
    if !is_working_directory(rt, wanted.request.directory) {
        return print_passed(&mut printed.answer, Passed::Path);
    }
    print_found(rt, environment, &store, wanted, &found, printed)
}

// The same for a call, which is printed after a line for a miss.
fn print_look_of<R: Files + AllocGlobal + Clone + Drop, S: Peer>(
    rt: &R,
    environment: &Environment<'_>,
    wanted: &Look<'_>,
    asked: &Call<'_>,
    paths: &CallPaths<'_>,
    peer: &mut S,
    printed: &mut Printed,
) -> Result<u8> {
    let status = print_look(rt, environment, wanted, peer, printed)?;
    if status == MISS {
        let programs = wanted.request.compiler.as_str();
        let lines = call_lines(rt.alloc(), asked, paths, programs)?;
        printed.answer.extend_from_slice(&lines)?;
    }
    Ok(status)
}

// Looks for the object of a call, in the store of this path or at the server, if one is asked.
fn run_look<R: Files + AllocGlobal + Clone + Drop, S: Peer>(
    rt: &R,
    environment: &Environment<'_>,
    places: (&str, Option<Server<'_>>),
    wanted: Wanted<'_>,
    peer: &mut S,
    printed: &mut Printed,
) -> Result<u8> {
    let Wanted {
        asked,
        paths,
        request,
    } = wanted;
    let wanted = Look {
        store: places.0,
        server: places.1,
        outputs: outputs_of(&paths),
        request,
    };
    print_look_of(rt, environment, &wanted, &asked, &paths, peer, printed)
}

// Does what was asked for with a call that is cached.
fn run_action<R: Files + AllocGlobal + Clone + Drop, S: Peer>(
    rt: &R,
    environment: &Environment<'_>,
    action: &Action<'_>,
    wanted: Wanted<'_>,
    peer: &mut S,
    printed: &mut Printed,
) -> Result<u8> {
    let answer = &mut printed.answer;
    match action {
        Action::PreprocessorKey => run_preprocessor_key(rt, environment, &wanted, answer),
        Action::Look { store, server } => {
            run_look(rt, environment, (store, *server), wanted, peer, printed)
        }
        Action::Record { store, compilation } => {
            let request = &wanted.request;
            run_record(rt, environment, store, request, compilation, peer, answer)
        }
        Action::Why { store } => run_why(rt, environment, store, &wanted.request, answer),
    }
}

// The rows of a table of options. Those that are for the machine's processor come first where it is known.
fn options_of<'t>(
    alloc: Global,
    table: &'t [u8],
    native: &'t [u8],
    knows_native: bool,
) -> Result<Vec<Row<'t>>, AllocError>
    ensures { IfOk result (λ rows. entries rows.items
        ≡ cond knows_native (table_of native.now) [] ++ table_of table.now) }
{
    let rows = rows_of(alloc, table)?;
    if !knows_native {
        return Ok(rows);
    }
    let mut all = rows_of(alloc, native)?;
    all.extend_from_slice(&rows)?;
    Ok(all)
}

// What the arguments of a call say, by these tables of options. The only error is lack of memory.
fn judged<'a>(
    alloc: Global,
    table: &[u8],
    native: &[u8],
    knows_native: bool,
    arguments: &'a [Vec<u8>],
) -> Result<Judged<'a>, AllocError>
    ensures { IfOk result (IsJudged
        (cond knows_native (table_of native.now) [] ++ table_of table.now) (lists_of arguments.now)) }
{
    let rows = options_of(alloc, table, native, knows_native)?;
    judge(alloc, &rows, arguments)
}

// The table of options of the compiler with these programs.
fn table_for(programs: &str) -> &'static [u8] {
    if is_clang(programs) { CLANG } else { GCC }
}

// What a call of a compiler asks for whose programs these are, or why the call is not cached. The only error is
// lack of memory.
fn wanted_of<'a, R: Files + AllocGlobal>(
    rt: &R,
    environment: &Environment<'_>,
    call: &'a CompilerCall<'a>,
    programs: String,
) -> Result<Asked<'a>, AllocError> {
    let (alloc, knows_native) = (rt.alloc(), environment.knows_native);
    let table = table_for(programs.as_str());
    let (asked, paths) = match judged(alloc, table, NATIVE, knows_native, &call.arguments)? {
        Judged::Asks(asked, paths) => (asked, paths),
        Judged::PassedOn(reason) => return Ok(Asked::PassedOn(reason)),
    };
    if is_foreign(&asked, programs.as_str()) {
        return Ok(Asked::PassedOn(Passed::Compiler));
    }
    if !are_free(rt, &paths) {
        return Ok(Asked::PassedOn(Passed::Output));
    }
    let programs = programs_for(alloc, programs.as_str(), paths.input.as_bytes())?;
    let request = request_of(alloc, call, programs, &asked, &paths)?;
    Ok(Asked::Cached(Wanted {
        asked,
        paths,
        request,
    }))
}

// Does what was asked for with a call of a compiler, or prints why the call is not cached.
fn run_call<R: Files + AllocGlobal + Clone + Drop, S: Peer>(
    rt: &R,
    environment: &Environment<'_>,
    call: &CompilerCall<'_>,
    action: &Action<'_>,
    peer: &mut S,
    printed: &mut Printed,
) -> Result<u8> {
    let programs = match programs_of(rt, environment, call, action)? {
        Named::Paths(programs) => programs,
        Named::PassedOn(reason) => return print_passed(&mut printed.answer, reason),
    };
    match wanted_of(rt, environment, call, programs)? {
        Asked::Cached(wanted) => run_action(rt, environment, action, wanted, peer, printed),
        Asked::PassedOn(reason) => print_passed(&mut printed.answer, reason),
    }
}

// Does what was asked for with a store alone.
fn run_on_store<R: Files + AllocGlobal + Clone + Drop>(
    rt: &R,
    environment: &Environment<'_>,
    store: &StoreDirectory,
    action: &StoreAction<'_>,
    answer: &mut Vec<u8>,
) -> Result<()> {
    match *action {
        StoreAction::Stats => print_stats(rt, environment.max_size, store, answer),
        StoreAction::Prune { max_size } => {
            prune_store(rt, environment.now, store, max_size, answer)
        }
        StoreAction::Clear => clear_store(rt, store, answer),
        StoreAction::Verify => verify_store(rt, store, answer),
        StoreAction::Inspect { word } => print_files(rt, store, word, answer),
    }
}

// Does what was asked for.
fn run_task<R: Files + AllocGlobal + Clone + Drop, S: Peer>(
    rt: &R,
    environment: &Environment<'_>,
    task: &Task<'_>,
    peer: &mut S,
    printed: &mut Printed,
) -> Result<u8> {
    match task {
        Task::Call { call, action } => run_call(rt, environment, call, action, peer, printed),
        Task::Unpack { store, packed } => {
            run_unpack(rt, environment, store, packed, peer, printed)
        }
        Task::Seal(wanted) => {
            printed.answer = seal(rt, wanted, peer.read_text(rt.alloc())?)?;
            Ok(DONE)
        }
        Task::Store { store, action } => {
            let store = store_in(rt, environment, store)?;
            run_on_store(rt, environment, &store, action, &mut printed.answer)?;
            Ok(DONE)
        }
    }
}

// Prints why the words are wrong, the help, or the version. The only error is lack of memory.
fn explain(explanation: &Explanation, printed: &mut Printed) -> Result<u8> {
    let text = explanation.text.as_bytes();
    if explanation.is_error {
        printed.messages.extend_from_slice(text)?;
        Ok(USAGE)
    } else {
        printed.answer.extend_from_slice(text)?;
        Ok(DONE)
    }
}

// The path of the address of the server that a task asks, if it has one.
fn address_path<'a>(task: &Task<'a>) -> Option<&'a str> {
    let server = match task {
        Task::Call {
            action: Action::Look { server, .. },
            ..
        } => (*server)?,
        Task::Unpack { packed, .. } => match packed.source {
            Source::Server(server) => server,
            Source::Path(_) => return None,
        },
        _ => return None,
    };
    server.address
}

// Does what was asked for with the server whose address a file of this path has, and to which the two streams lead. The answer
// has the error, if there is one.
fn run_remote<R: Files + AllocGlobal + Clone + Drop, I: Read, W: Write>(
    rt: &R,
    environment: &Environment<'_>,
    task: &Task<'_>,
    path: &str,
    reader: &mut I,
    writer: &mut W,
    printed: &mut Printed,
) -> Result<u8> {
    let alloc = rt.alloc();
    let text = fs::read_to_string(rt, path).context("the address of the server")?;
    let Some(address) = address_in(&text) else {
        bail!("the address of the server has not the lines of one");
    };
    printed.place = Some(String::from_str(alloc, address.answer)?);
    let mut peer = RemotePeer::new(rt, &address, reader, writer)?;
    let status = match run_task(rt, environment, task, &mut peer, printed) {
        Ok(status) => status,
        Err(error) => {
            writeln!(printed.answer, "error: {error:#}")?;
            FAILED
        }
    };
    if peer.is_late() {
        let answer = mem::replace(&mut printed.answer, LATE.to_vec(alloc)?);
        printed.answer.extend_from_slice(&answer)?;
    }
    Ok(status)
}

// Does what was asked for, with the server of a task that has an address, or with a process that is asked by lines.
fn run_with_peer<R: Files + AllocGlobal + Clone + Drop, I: Read, W: Write>(
    rt: &R,
    environment: &Environment<'_>,
    task: &Task<'_>,
    reader: &mut I,
    writer: &mut W,
    printed: &mut Printed,
) -> Result<u8> {
    if let Some(path) = address_path(task) {
        return run_remote(rt, environment, task, path, reader, writer, printed);
    }
    let mut peer = StreamPeer { reader, writer };
    run_task(rt, environment, task, &mut peer, printed)
}

/// Does what these words ask for, of which the first is the program's name. Returns the exit
/// status. What is wrong with the words is written to `errors`.
///
/// The error is of what could not be read or written, of a malformed line marker, or lack of memory. What was to be written
/// before it is written. With the address of a server the two streams lead to it, and the answer, which then has the error, is
/// written to the file that the address names.
pub fn run<R: Files + AllocGlobal + Clone + Drop, I: Read, W: Write, E: Write>(
    rt: &R,
    environment: &Environment<'_>,
    words: &[String],
    reader: &mut I,
    writer: &mut W,
    errors: &mut E,
) -> Result<u8> {
    let alloc = rt.alloc();
    let mut printed = Printed {
        answer: Vec::new(alloc),
        messages: Vec::new(alloc),
        place: None,
    };
    let ended = match task_of(alloc, words)? {
        Ok(task) => run_with_peer(rt, environment, &task, reader, writer, &mut printed),
        Err(explanation) => explain(&explanation, &mut printed),
    };
    errors.write_all(&printed.messages).context("the messages")?;
    match &printed.place {
        Some(place) => fs::create(rt, place.as_str())?.write_all(&printed.answer)?,
        None => writer.write_all(&printed.answer)?,
    }
    ended
}
