//! What words ask for.
ghost use Rattle.std.specs.Prelude.{◌≡◌, MatchOption, ℕ, ℤ, None, Option, codes};
ghost use Rattle.std.specs.Option.{option_map};
ghost use Rattle.clap.specs.Matches.{first_value, found_of};
ghost use Rattle.cck_cache_options.specs.Task.{IsExpanded, IsMade, IsOutputs, IsPacked, IsServer, IsSince, IsSize, IsSource, MadeWords, OutputWords, PackedWords, SourceWords, made_words, output_words, packed_words, server_words, source_words};

use crate::command_line::program;
use crate::compiler_call::{CompilerCall, call_of};
use crate::stamp::stamp_of;
use cck_path::Timestamp;
use clap::error::ErrorKind;
use clap::{ArgMatches, Command, Error};
use std::alloc::{AllocError, Global};

// What is wrong with a time.
const WRONG_TIME: &str =
    "the value of --since is not a number of seconds, a point and a number of nanoseconds";

// What is wrong with a number of bytes.
const WRONG_NUMBER: &str =
    "the value of --max-size and of --expanded is a number of bytes, below 2 to the power of 64";

// What is wrong where an option of a server comes alone.
const NO_SERVER: &str = "--address and --verify-key come with --server";

// What is wrong where two options are given of which each is in place of the other.
const CONFLICT: &str = "--compiler comes without --driver, and --packed without --server";

// What is wrong where a word of a command is missing.
const MISSING: &str = "a word of the command is missing";

/// Where the parts of an object file are written.
#[derive(Clone, Copy)]
pub struct Outputs<'a> {
    /// The path to which the object is written.
    pub object: &'a str,
    /// The path to which the contents of the dependency file are written, if the compilation writes
    /// one.
    pub dependencies: Option<&'a str>,
}

/// A server that is asked for what a store lacks.
#[derive(Clone, Copy)]
pub struct Server<'a> {
    /// Whether the store is asked before the server, and keeps what the server has. Otherwise nothing of the store is used.
    pub keeps: bool,
    /// The path of the file with the address of the server, which the program then asks itself. Without one it asks by lines.
    pub address: Option<&'a str>,
    /// The path of the key of signatures. With one, a value without the signature of this key is not used.
    pub verify_key: Option<&'a str>,
}

/// What is recorded beside the compilation that was asked for.
#[derive(Clone, Copy)]
pub struct Compilation<'a> {
    /// The time at which the look-up ended, by the clock of the store's file system.
    pub since: Timestamp,
    /// The preprocessor key that the look-up printed.
    pub key: &'a str,
    /// The path of what the compiler printed of its directories.
    pub search: &'a str,
    /// What the compiler made. `None` where the object is there, and the entry alone is recorded.
    pub made: Option<Made<'a>>,
    /// The path to which the entry file is written in place of the store's.
    pub entry_out: Option<&'a str>,
    /// The path to which the object file is written in place of the store's.
    pub object_out: Option<&'a str>,
}

/// What a compiler made.
#[derive(Clone, Copy)]
pub struct Made<'a> {
    /// The path of the object.
    pub object: &'a str,
    /// The path of what the compiler printed when the object was made.
    pub messages: &'a str,
    /// The path of the dependency file, if the compiler wrote one.
    pub dependencies: Option<&'a str>,
    /// The path of the dependency file that the assembler wrote.
    pub assembled: Option<&'a str>,
    /// The path of a list of the files that the compiler opened, as a dependency file has it. Without it
    /// the compiler's own dependency file counts.
    pub opened: Option<&'a str>,
}

/// Where an object file is that is not in the store.
#[derive(Clone, Copy)]
pub enum Source<'a> {
    /// At this path.
    Path(&'a str),
    /// At a server.
    Server(Server<'a>),
}

/// An object file that is not in the store.
#[derive(Clone, Copy)]
pub struct Packed<'a> {
    /// The name of the object.
    pub name: &'a str,
    /// Where the object file is.
    pub source: Source<'a>,
    /// Where its parts are written.
    pub outputs: Outputs<'a>,
}

/// What a value of a server is made of, beside its bytes.
#[derive(Clone, Copy)]
pub struct Seal<'a> {
    /// The kind of the file, `entry` or `object`.
    pub kind: &'a str,
    /// The key or the name of the file.
    pub name: &'a str,
    /// The path of the key of signatures, if the value is signed.
    pub sign_key: Option<&'a str>,
    /// The number of bytes of the file, if the bytes are a frame of zstd.
    pub expanded: Option<u64>,
}

/// What is done for a call of a compiler.
#[derive(Drop)]
pub enum Action<'a> {
    /// The preprocessor key is printed.
    PreprocessorKey,
    /// The object is looked for in the store.
    Look {
        /// The path of the store.
        store: &'a str,
        /// The server, if one is asked.
        server: Option<Server<'a>>,
    },
    /// The compilation is recorded.
    Record {
        /// The path of the store.
        store: &'a str,
        /// What is recorded.
        compilation: Compilation<'a>,
    },
    /// It is printed why a look-up misses.
    Why {
        /// The path of the store.
        store: &'a str,
    },
}

/// What is done with a store alone.
#[derive(Clone, Copy)]
pub enum StoreAction<'a> {
    /// It is printed what the store has, and what was counted.
    Stats,
    /// Files are removed.
    Prune {
        /// The most bytes that its files may have together.
        max_size: u64,
    },
    /// All entries and objects are removed.
    Clear,
    /// All entries and objects are tested.
    Verify,
    /// It is printed what files say.
    Inspect {
        /// A preprocessor key, the name of an object, or the path of a file.
        word: &'a str,
    },
}

/// What the words ask for.
#[derive(Drop)]
pub enum Task<'a> {
    /// Something for a call of a compiler.
    Call {
        /// The call.
        call: CompilerCall<'a>,
        /// What is done.
        action: Action<'a>,
    },
    /// The object of an object file.
    Unpack {
        /// The path of the store.
        store: &'a str,
        /// The object file.
        packed: Packed<'a>,
    },
    /// A value of a server, of the bytes that are read.
    Seal(Seal<'a>),
    /// Something for a store alone.
    Store {
        /// The path of the store.
        store: &'a str,
        /// What is done.
        action: StoreAction<'a>,
    },
}

/// What is printed in place of what words ask for.
#[derive(Drop)]
pub struct Explanation {
    /// The text: what is wrong with the words, the help, or the version.
    pub text: String,
    /// Whether the words are wrong, so that the text belongs on standard error.
    pub is_error: bool,
}

// Where the parts of an object file are written, in the words of `unpack`.
fn outputs_of<'a>(matches: &ArgMatches<'a>) -> Option<Outputs<'a>>
    ensures { MatchOption result ((words : OutputWords) → IsOutputs (found_of matches.now) words → ⊥)
        (λ outputs. IsOutputs (found_of matches.now) (output_words outputs)) }
{
    Some(Outputs {
        object: matches.get_str("out")?,
        dependencies: matches.get_str("dependencies"),
    })
}

// The server in the words of `look` and `unpack`. `None` where they have none.
fn server_of<'a>(matches: &ArgMatches<'a>) -> Option<Server<'a>>
    ensures { MatchOption result (first_value (found_of matches.now) (codes "server") ≡ None)
        (λ server. IsServer (found_of matches.now) (server_words server)) }
{
    Some(Server {
        keeps: matches.get_str("server")? == "keep",
        address: matches.get_str("address"),
        verify_key: matches.get_str("verify-key"),
    })
}

// Where the object file is, in the words of `unpack`.
fn source_of<'a>(matches: &ArgMatches<'a>) -> Option<Source<'a>>
    ensures { MatchOption result ((words : SourceWords) → IsSource (found_of matches.now) words → ⊥)
        (λ source. IsSource (found_of matches.now) (source_words source)) }
{
    match matches.get_str("packed") {
        Some(path) => Some(Source::Path(path)),
        None => Some(Source::Server(server_of(matches)?)),
    }
}

// The object file in the words of `unpack`.
fn packed_of<'a>(matches: &ArgMatches<'a>) -> Option<Packed<'a>>
    ensures { MatchOption result ((words : PackedWords) → IsPacked (found_of matches.now) words → ⊥)
        (λ packed. IsPacked (found_of matches.now) (packed_words packed)) }
{
    Some(Packed {
        name: matches.get_str("name")?,
        source: source_of(matches)?,
        outputs: outputs_of(matches)?,
    })
}

// The number of bytes in the words of `seal`, if it is given.
fn expanded_of(matches: &ArgMatches<'_>) -> Option<Option<u64>>
    ensures { MatchOption result ((size : Option ℕ) → IsExpanded (found_of matches.now) size → ⊥)
        (IsExpanded (found_of matches.now)) }
{
    match matches.get_str("expanded") {
        Some(size) => Some(Some(size.parse::<u64>().ok()?)),
        None => Some(None),
    }
}

// What a value is made of, in the words of `seal`.
fn seal_of<'a>(matches: &ArgMatches<'a>) -> Option<Seal<'a>> {
    Some(Seal {
        kind: matches.get_str("KIND")?,
        name: matches.get_str("NAME")?,
        sign_key: matches.get_str("sign-key"),
        expanded: expanded_of(matches)?,
    })
}

// What the compiler made, in the words of `record`: the paths of the object and of the messages, and
// with them those of dependency files if they are given; or no path. `None` for all other words.
fn made_of<'a>(matches: &ArgMatches<'a>) -> Option<Option<Made<'a>>>
    ensures { MatchOption result ((words : Option MadeWords) → IsMade (found_of matches.now) words → ⊥)
        (λ made. IsMade (found_of matches.now) (option_map made_words made)) }
{
    match (
        matches.get_str("compiled"),
        matches.get_str("messages"),
        matches.get_str("dependencies"),
        matches.get_str("assembled"),
        matches.get_str("opened"),
    ) {
        (Some(object), Some(messages), dependencies, assembled, opened) => Some(Some(Made {
            object,
            messages,
            dependencies,
            assembled,
            opened,
        })),
        (None, None, None, None, None) => Some(None),
        _ => None,
    }
}

// The time in the words of `record`.
fn since_of(matches: &ArgMatches<'_>) -> Option<Timestamp>
    ensures { MatchOption result ((seconds : ℤ) (nanoseconds : ℕ) → IsSince (found_of matches.now) seconds nanoseconds → ⊥)
        (λ time. IsSince (found_of matches.now) time.seconds time.nanoseconds) }
{
    let text = matches.get_str("since")?;
    stamp_of(text)
}

// The size in the words of `prune`.
fn max_size_of(matches: &ArgMatches<'_>) -> Option<u64>
    ensures { MatchOption result ((size : ℕ) → IsSize (found_of matches.now) size → ⊥)
        (λ size. IsSize (found_of matches.now) size) }
{
    matches.get_str("max-size")?.parse::<u64>().ok()
}

// What `look` does.
fn look_action<'a>(matches: &ArgMatches<'a>) -> Option<Action<'a>> {
    Some(Action::Look {
        store: matches.get_str("STORE")?,
        server: server_of(matches),
    })
}

// What `record` does.
fn record_action<'a>(matches: &ArgMatches<'a>) -> Option<Action<'a>> {
    Some(Action::Record {
        store: matches.get_str("STORE")?,
        compilation: Compilation {
            since: since_of(matches)?,
            key: matches.get_str("preprocessor-key")?,
            search: matches.get_str("search")?,
            made: made_of(matches)?,
            entry_out: matches.get_str("entry-out"),
            object_out: matches.get_str("packed-out"),
        },
    })
}

// What `why` does.
fn why_action<'a>(matches: &ArgMatches<'a>) -> Option<Action<'a>> {
    Some(Action::Why {
        store: matches.get_str("STORE")?,
    })
}

// What a command of this name does for a call of a compiler.
fn action_of<'a>(name: &str, matches: &ArgMatches<'a>) -> Option<Action<'a>> {
    match name {
        "preprocessor-key" => Some(Action::PreprocessorKey),
        "look" => look_action(matches),
        "record" => record_action(matches),
        "why" => why_action(matches),
        _ => None,
    }
}

// The task in the words of a command that takes a call of a compiler.
fn call_task<'a>(
    alloc: Global,
    name: &str,
    matches: &ArgMatches<'a>,
) -> Result<Option<Task<'a>>, AllocError> {
    let Some(call) = call_of(alloc, matches)? else {
        return Ok(None);
    };
    Ok(match action_of(name, matches) {
        Some(action) => Some(Task::Call { call, action }),
        None => None,
    })
}

// The task in the words of a command without a call of a compiler.
fn store_task<'a>(name: &str, matches: &ArgMatches<'a>) -> Option<Task<'a>> {
    let store = matches.get_str("STORE")?;
    let action = match name {
        "stats" => StoreAction::Stats,
        "prune" => StoreAction::Prune {
            max_size: max_size_of(matches)?,
        },
        "clear" => StoreAction::Clear,
        "verify" => StoreAction::Verify,
        "inspect" => StoreAction::Inspect {
            word: matches.get_str("WORD")?,
        },
        _ => return None,
    };
    Some(Task::Store { store, action })
}

// The task in the words of `unpack`.
fn unpack_task<'a>(matches: &ArgMatches<'a>) -> Option<Task<'a>> {
    Some(Task::Unpack {
        store: matches.get_str("STORE")?,
        packed: packed_of(matches)?,
    })
}

// The task in these matches. `None` where one of its words is missing or has no meaning.
fn task_in<'a>(alloc: Global, matches: &ArgMatches<'a>) -> Result<Option<Task<'a>>, AllocError> {
    let Some((name, command)) = matches.subcommand() else {
        return Ok(None);
    };
    match name {
        "stats" | "prune" | "clear" | "verify" | "inspect" => Ok(store_task(name, command)),
        "unpack" => Ok(unpack_task(command)),
        "seal" => Ok(match seal_of(command) {
            Some(seal) => Some(Task::Seal(seal)),
            None => None,
        }),
        _ => call_task(alloc, name, command),
    }
}

// Whether both of these options are given.
fn has_both(command: &ArgMatches<'_>, option: &str, other: &str) -> bool {
    command.contains_id(option) && command.contains_id(other)
}

// Whether a number of bytes is given that is none.
fn has_wrong_number(command: &ArgMatches<'_>) -> bool {
    command.contains_id("max-size") && max_size_of(command).is_none()
        || expanded_of(command).is_none()
}

// Whether an option is given that comes with a server, and no server.
fn lacks_server(command: &ArgMatches<'_>) -> bool {
    !command.contains_id("server")
        && (command.contains_id("address") || command.contains_id("verify-key"))
}

// What is wrong with the options of a command, each of which may be given as it is.
fn wrong_in(command: &ArgMatches<'_>) -> Option<(ErrorKind, &'static str)> {
    if command.contains_id("since") && since_of(command).is_none() {
        Some((ErrorKind::ValueValidation, WRONG_TIME))
    } else if has_wrong_number(command) {
        Some((ErrorKind::ValueValidation, WRONG_NUMBER))
    } else if has_both(command, "compiler", "driver") || has_both(command, "packed", "server") {
        Some((ErrorKind::ArgumentConflict, CONFLICT))
    } else if lacks_server(command) {
        Some((ErrorKind::MissingRequiredArgument, NO_SERVER))
    } else {
        None
    }
}

// What is wrong with the options of the command in these matches.
fn wrong_of(matches: &ArgMatches<'_>) -> Option<(ErrorKind, &'static str)> {
    let (_, command) = matches.subcommand()?;
    wrong_in(command)
}

// What is found of the words of a command.
#[derive(Drop)]
enum Outcome<'a> {
    // They ask for this.
    Task(Task<'a>),
    // They are wrong in this way.
    Wrong(ErrorKind, &'static str),
}

// What is found of the words in these matches.
fn judged<'a>(alloc: Global, matches: &ArgMatches<'a>) -> Result<Outcome<'a>, AllocError> {
    if let Some((kind, text)) = wrong_of(matches) {
        return Ok(Outcome::Wrong(kind, text));
    }
    Ok(match task_in(alloc, matches)? {
        Some(task) => Outcome::Task(task),
        // The parse lets none of these words pass.
        None => Outcome::Wrong(ErrorKind::MissingRequiredArgument, MISSING),
    })
}

// What is printed for an error of clap, if it is not lack of memory.
fn explained(alloc: Global, error: &Error) -> Result<Explanation, AllocError> {
    if error.kind() == ErrorKind::OutOfMemory {
        return Err(AllocError);
    }
    Ok(Explanation {
        text: format!(in alloc; "{error}")?,
        is_error: error.use_stderr(),
    })
}

// What is printed for words that are wrong in this way.
fn refused(
    alloc: Global,
    program: &mut Command<'_>,
    kind: ErrorKind,
    text: &str,
) -> Result<Explanation, AllocError> {
    let error = program.error(kind, text)?;
    explained(alloc, &error)
}

// What is found of these words by a command line.
fn outcome_by<'a>(
    alloc: Global,
    program: &mut Command<'a>,
    words: &'a [String],
) -> Result<Outcome<'a>, Error> {
    let matches = program.try_get_matches_from_mut(words)?;
    Ok(judged(alloc, &matches)?)
}

// Reads what these words ask for by a command line, or returns what is printed in place of that.
fn task_by<'a>(
    alloc: Global,
    program: &mut Command<'a>,
    words: &'a [String],
) -> Result<Result<Task<'a>, Explanation>, AllocError> {
    match outcome_by(alloc, program, words) {
        Ok(Outcome::Task(task)) => Ok(Ok(task)),
        Ok(Outcome::Wrong(kind, text)) => Ok(Err(refused(alloc, program, kind, text)?)),
        Err(error) => Ok(Err(explained(alloc, &error)?)),
    }
}

/// Reads what these words ask for, or returns what is printed in place of that: for wrong words, among
/// them a stamp that is no time, for `--help` and for `--version`. The first word is the program's name.
///
/// The error is lack of memory.
pub fn task_of<'a>(
    alloc: Global,
    words: &'a [String],
) -> Result<Result<Task<'a>, Explanation>, AllocError> {
    let mut program = program(alloc)?;
    task_by(alloc, &mut program, words)
}
