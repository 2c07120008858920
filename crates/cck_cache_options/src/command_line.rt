//! The commands, their options and their words.
use cck_digest::VERSION;
use clap::builder::ValueParser;
use clap::{Arg, ArgAction, Command};
use std::alloc::{AllocError, Global};

// What an argument of a command line is.
#[derive(Clone, Copy)]
enum Kind<'a> {
    // A word that has to be given.
    Word,
    // An option that has to be given, whose value has this name.
    Required(&'a str),
    // An option that may be left out, whose value has this name.
    Optional(&'a str),
}

// What an argument is, its name, what its value is one of (anything where there is nothing), and its
// help.
type ArgumentWords<'a> = (Kind<'a>, &'a str, &'a [&'a str], &'a str);

// A list of arguments.
#[derive(Clone, Copy)]
enum Arguments {
    // No argument.
    Empty,
    // A store.
    Store,
    // Those of `look`.
    Look,
    // Those of `record`.
    Record,
    // Those of `unpack`.
    Unpack,
    // Those of `seal`.
    Seal,
    // Those of `prune`.
    Prune,
    // Those of `inspect`.
    Inspect,
}

// A command: its name, what it does, its arguments, and whether the words of a compiler's call come
// after them.
type CommandWords<'a> = (&'a str, &'a str, Arguments, bool);

const STORE: ArgumentWords<'static> = (Kind::Word, "STORE", &[], "The directory of the store");

static STORE_ALONE: [ArgumentWords<'static>; 1] = [STORE];

static INSPECT: [ArgumentWords<'static>; 2] = [
    STORE,
    (
        Kind::Word,
        "WORD",
        &[],
        "A preprocessor key, the name of an object, or a path with a slash",
    ),
];

static CALL: [ArgumentWords<'static>; 5] = [
    (
        Kind::Optional("PATHS"),
        "compiler",
        &[],
        "The programs that the compiler runs, with colons between them",
    ),
    (
        Kind::Optional("COMPILER"),
        "driver",
        &[],
        "The compiler as it is called, whose programs the store keeps; in place of --compiler",
    ),
    (
        Kind::Required("DIR"),
        "directory",
        &[],
        "The working directory",
    ),
    (
        Kind::Optional("STORE"),
        "digests",
        &[],
        "Counts the programs by their contents, whose digests this store keeps",
    ),
    (
        Kind::Optional("DIR"),
        "base",
        &[],
        "The base directory: an object that does not depend on it is shared with other base directories",
    ),
];

const SERVER: ArgumentWords<'static> = (
    Kind::Optional("MODE"),
    "server",
    &["keep", "only"],
    "Asks a server: after the store, which keeps what the server has (keep), or nothing but the server (only)",
);

const ADDRESS: ArgumentWords<'static> = (
    Kind::Optional("FILE"),
    "address",
    &[],
    "The address of the server; without it lines on standard output ask for what the server has, and its replies are read on standard input",
);

const VERIFY_KEY: ArgumentWords<'static> = (
    Kind::Optional("FILE"),
    "verify-key",
    &[],
    "The key without whose signature no value of the server is used",
);

static UNPACK: [ArgumentWords<'static>; 8] = [
    STORE,
    (
        Kind::Required("NAME"),
        "name",
        &[],
        "The name of the object",
    ),
    (
        Kind::Optional("FILE"),
        "packed",
        &[],
        "The object file; in place of --server",
    ),
    SERVER,
    ADDRESS,
    VERIFY_KEY,
    (
        Kind::Required("FILE"),
        "out",
        &[],
        "Where the object is written",
    ),
    (
        Kind::Optional("FILE"),
        "dependencies",
        &[],
        "Where the dependency file is written",
    ),
];

static LOOK: [ArgumentWords<'static>; 4] = [STORE, SERVER, ADDRESS, VERIFY_KEY];

static SEAL: [ArgumentWords<'static>; 4] = [
    (
        Kind::Word,
        "KIND",
        &["entry", "object"],
        "The kind of the file",
    ),
    (
        Kind::Word,
        "NAME",
        &[],
        "The preprocessor key, or the name of the object",
    ),
    (
        Kind::Optional("FILE"),
        "sign-key",
        &[],
        "The key with which the value is signed",
    ),
    (
        Kind::Optional("BYTES"),
        "expanded",
        &[],
        "The number of bytes of the file of which standard input is a frame of zstd",
    ),
];

static RECORD: [ArgumentWords<'static>; 11] = [
    STORE,
    (
        Kind::Required("STAMP"),
        "since",
        &[],
        "The time that the look-up printed",
    ),
    (
        Kind::Required("PKEY"),
        "preprocessor-key",
        &[],
        "The preprocessor key that the look-up printed",
    ),
    (
        Kind::Required("FILE"),
        "search",
        &[],
        "What `-E -v` printed on standard error",
    ),
    (
        Kind::Optional("FILE"),
        "compiled",
        &[],
        "The object that the compiler wrote; without it the entry alone is recorded",
    ),
    (
        Kind::Optional("FILE"),
        "messages",
        &[],
        "What the compilation printed on standard error",
    ),
    (
        Kind::Optional("FILE"),
        "dependencies",
        &[],
        "The dependency file that the compilation wrote",
    ),
    (
        Kind::Optional("FILE"),
        "assembled",
        &[],
        "The dependency file that the assembler wrote",
    ),
    (
        Kind::Optional("FILE"),
        "opened",
        &[],
        "What the compiler opened, as a dependency file has it; without it --dependencies counts",
    ),
    (
        Kind::Optional("FILE"),
        "entry-out",
        &[],
        "Where the entry file is written in place of the store's",
    ),
    (
        Kind::Optional("FILE"),
        "packed-out",
        &[],
        "Where the object file is written in place of the store's",
    ),
];

static PRUNE: [ArgumentWords<'static>; 2] = [
    STORE,
    (
        Kind::Required("BYTES"),
        "max-size",
        &[],
        "The most bytes that the files may have together",
    ),
];

static COMMANDS: [CommandWords<'static>; 11] = [
    (
        "preprocessor-key",
        "Prints the preprocessor key",
        Arguments::Empty,
        true,
    ),
    (
        "look",
        "Writes the object from the store",
        Arguments::Look,
        true,
    ),
    (
        "record",
        "Records a compilation, whose preprocessed text is read from standard input",
        Arguments::Record,
        true,
    ),
    (
        "why",
        "Prints which paths keep an entry from matching",
        Arguments::Store,
        true,
    ),
    (
        "unpack",
        "Writes the object that an object file has",
        Arguments::Unpack,
        false,
    ),
    (
        "seal",
        "Writes a value of a server, of the bytes that are read from standard input",
        Arguments::Seal,
        false,
    ),
    (
        "stats",
        "Prints what a store has, and what was counted",
        Arguments::Store,
        false,
    ),
    (
        "prune",
        "Removes the files that were used longest ago",
        Arguments::Prune,
        false,
    ),
    (
        "clear",
        "Removes all entries and objects",
        Arguments::Store,
        false,
    ),
    (
        "verify",
        "Tests all entries and objects, and removes those that are damaged",
        Arguments::Store,
        false,
    ),
    (
        "inspect",
        "Prints what files of a store say",
        Arguments::Inspect,
        false,
    ),
];

impl Arguments {
    // The arguments of this list.
    fn listed(self) -> &'static [ArgumentWords<'static>] {
        match self {
            Self::Empty => &[],
            Self::Store => &STORE_ALONE,
            Self::Look => &LOOK,
            Self::Record => &RECORD,
            Self::Unpack => &UNPACK,
            Self::Seal => &SEAL,
            Self::Prune => &PRUNE,
            Self::Inspect => &INSPECT,
        }
    }
}

// What a value may be: one of these names, or anything where there are none.
fn parser_of<'a>(names: &'a [&'a str]) -> ValueParser<'a> {
    if names.is_empty() {
        ValueParser::string()
    } else {
        ValueParser::from(names)
    }
}

// The argument of these words.
fn argument_of<'a>(alloc: Global, words: ArgumentWords<'a>) -> Arg<'a> {
    let (kind, name, names, help) = words;
    let argument = Arg::new(alloc, name)
        .help(help)
        .required(!matches!(kind, Kind::Optional(_)))
        .value_parser(parser_of(names));
    match kind {
        Kind::Word => argument,
        Kind::Required(value) | Kind::Optional(value) => argument
            .long(name)
            .value_name(value)
            .action(ArgAction::Set),
    }
}

// Adds the arguments of these words.
fn push_arguments<'a>(
    alloc: Global,
    arguments: &mut Vec<Arg<'a>>,
    words: &[ArgumentWords<'a>],
) -> Result<(), AllocError> {
    for argument in words {
        arguments.push(argument_of(alloc, *argument))?;
    }
    Ok(())
}

// The compiler's arguments.
fn compiler_arguments<'a>(alloc: Global) -> Arg<'a> {
    Arg::new(alloc, "ARG")
        .num_args(0..)
        .trailing_var_arg(true)
        .allow_hyphen_values(true)
        .help("The compiler's arguments")
}

// Adds the words of a compiler's call, which come after a command's own.
fn push_call<'a>(alloc: Global, arguments: &mut Vec<Arg<'a>>) -> Result<(), AllocError> {
    push_arguments(alloc, arguments, &CALL)?;
    Ok(arguments.push(compiler_arguments(alloc))?)
}

// The command of these words.
fn command_of<'a>(alloc: Global, words: CommandWords<'a>) -> Result<Command<'a>, AllocError> {
    let (name, about, listed, has_call) = words;
    let mut arguments = Vec::new(alloc);
    push_arguments(alloc, &mut arguments, listed.listed())?;
    if has_call {
        push_call(alloc, &mut arguments)?;
    }
    Command::new(alloc, name).about(about).args(arguments)
}

// All commands.
fn commands<'a>(alloc: Global) -> Result<Vec<Command<'a>>, AllocError> {
    let mut commands = Vec::new(alloc);
    for words in &COMMANDS {
        commands.push(command_of(alloc, *words)?)?;
    }
    Ok(commands)
}

/// The whole command line.
///
/// The error is lack of memory.
pub(crate) fn program<'a>(alloc: Global) -> Result<Command<'a>, AllocError> {
    let commands = commands(alloc)?;
    Command::new(alloc, "cck_cache")
        .version(VERSION)
        .about("Keeps the objects of compilations")
        .subcommand_required(true)
        .subcommands(commands)
}
