//! The words of the command line.
use crate::request::{ExplainKeyRequest, ExplainRequest, MarkersRequest};
use cck_util::{Language, VERSION};
use clap::{Arg, ArgAction, ArgMatches, Command, Error};
use std::alloc::{AllocError, Global};

// The command `key`, whose language is one of these names.
fn key_command<'a>(alloc: Global, languages: &'a [&'a str]) -> Result<Command<'a>, AllocError> {
    Command::new(alloc, "key")
        .about("Lists the key material of a preprocessed text, which is read from standard input")
        .arg(
            Arg::new(alloc, "full")
                .long("full")
                .action(ArgAction::SetTrue)
                .help("Lists each part whole, in rows of 256 bytes"),
        )?
        .arg(
            Arg::new(alloc, "basedir")
                .long("basedir")
                .value_name("DIR")
                .action(ArgAction::Append)
                .help("A directory that is cut out of the arguments and the text"),
        )?
        .arg(
            Arg::new(alloc, "DIGEST")
                .required(true)
                .help("The compiler's digest"),
        )?
        .arg(
            Arg::new(alloc, "LANGUAGE")
                .required(true)
                .value_parser(languages)
                .help("The language of the text"),
        )?
        .arg(
            Arg::new(alloc, "ARG")
                .num_args(0..)
                .trailing_var_arg(true)
                .allow_hyphen_values(true)
                .help("The arguments that are part of the key"),
        )
}

// The command `entry`.
fn entry_command<'a>(alloc: Global) -> Command<'a> {
    Command::new(alloc, "entry").about(
        "Lists an entry of the store, which is read from standard input",
    )
}

// The command `markers`.
fn markers_command<'a>(alloc: Global) -> Result<Command<'a>, AllocError> {
    Command::new(alloc, "markers")
        .about("Lists the line markers of a preprocessed text, which is read from standard input")
        .arg(
            Arg::new(alloc, "INPUT")
                .required(true)
                .help("The path of the input"),
        )?
        .arg(
            Arg::new(alloc, "CWD")
                .required(true)
                .help("The working directory"),
        )
}

// The command `script`.
fn script_command<'a>(alloc: Global) -> Command<'a> {
    Command::new(alloc, "script").about(
        "Makes the calls of a script of `cck run`, which is read from standard input, and lists what each did",
    )
}

// The whole command line.
fn program<'a>(alloc: Global, languages: &'a [&'a str]) -> Result<Command<'a>, AllocError> {
    Command::new(alloc, "cck_explain")
        .version(VERSION)
        .about("Explains why two compilations did not share a key")
        .subcommand_required(true)
        .subcommand(key_command(alloc, languages)?)?
        .subcommand(entry_command(alloc))?
        .subcommand(markers_command(alloc)?)?
        .subcommand(script_command(alloc))
}

// The bytes of each value of this argument.
fn values_of(
    alloc: Global,
    matches: &ArgMatches<'_>,
    id: &str,
) -> Result<Vec<Vec<u8>>, AllocError> {
    let mut all = Vec::new(alloc);
    if let Some(values) = matches.get_strs(id) {
        for value in values {
            all.push(value.as_bytes().to_vec(alloc)?)?;
        }
    }
    Ok(all)
}

// The request for a key, or `None` for a language that has no such name.
fn key_request<'a>(
    alloc: Global,
    key: &ArgMatches<'a>,
) -> Result<Option<ExplainKeyRequest<'a>>, AllocError> {
    let (Some(compiler_digest), Some(name)) = (key.get_str("DIGEST"), key.get_str("LANGUAGE"))
    else {
        return Ok(None);
    };
    let Ok(language) = name.parse::<Language>() else {
        return Ok(None);
    };
    Ok(Some(ExplainKeyRequest {
        compiler_digest,
        language,
        arguments: values_of(alloc, key, "ARG")?,
        basedirs: values_of(alloc, key, "basedir")?,
        is_full: key.get_flag("full"),
    }))
}

// The request for line markers.
fn markers_request<'a>(markers: &ArgMatches<'a>) -> Option<MarkersRequest<'a>> {
    Some(MarkersRequest {
        input: markers.get_str("INPUT")?.as_bytes(),
        cwd: markers.get_str("CWD")?.as_bytes(),
    })
}

/// Returns the name of each language, for [`request_of`]. The only error is lack of memory.
pub fn language_names(alloc: Global) -> Result<Vec<&'static str>, AllocError> {
    let mut names = Vec::new(alloc);
    for language in &Language::ALL {
        names.push(language.as_str())?;
    }
    Ok(names)
}

/// Reads what these words ask for. The first is the program's name.
///
/// The error is clap's: for wrong words, for `--help` and for `--version`, with the text to be
/// printed, or for lack of memory. `None` is returned where clap accepts words without one of the
/// commands or of the required arguments, or with a language that has no such name; there are none.
pub fn request_of<'a>(
    alloc: Global,
    languages: &'a [&'a str],
    words: &'a [String],
) -> Result<Option<ExplainRequest<'a>>, Error> {
    let matches = program(alloc, languages)?.try_get_matches_from(words)?;
    let Some((name, of_command)) = matches.subcommand() else {
        return Ok(None);
    };
    match name {
        "key" => Ok(key_request(alloc, of_command)?.map(ExplainRequest::Key)),
        "entry" => Ok(Some(ExplainRequest::Entry)),
        "markers" => Ok(markers_request(of_command).map(ExplainRequest::Markers)),
        "script" => Ok(Some(ExplainRequest::Script)),
        _ => Ok(None),
    }
}
