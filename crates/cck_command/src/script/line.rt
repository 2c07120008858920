//! One line of a script.
ghost use Rattle.std.specs.Prelude.{◌≡◌, IfOk};
ghost use Rattle.std.specs.Option.{option_map};
ghost use Rattle.cck_path.specs.Bytes.{lists_of};
ghost use Rattle.cck_command.specs.ScriptLines.{basedir_line, call_line, command_line, ended, file_line, folder_line, gone_line, read, store_line, variable_line, zone_line};
ghost use Rattle.cck_script.specs.Lines.{Clear, Compile, Recache};
ghost use Rattle.cck_command.specs.ScriptSeen.{reading_of};
ghost use Rattle.cck_script.specs.Seen.{line_of};

use crate::script::number::{file_time, ordinal, time, zone_offset};
use crate::script::word::{last_text, next_word, words};
use cck_path::Timestamp;
use cck_script::Command;
use std::alloc::{AllocError, Global};

/// What a line is.
#[derive(Drop)]
pub(crate) enum Reading {
    /// Wrong: it says nothing.
    Wrong,
    /// Empty, or one that begins with `#`.
    Skipped,
    /// One that says this.
    Says(Command),
}

/// Reads a line, without the LF that ends it.
#[tactic(auto, unfolding(crate::specs::ScriptLines::read))]
pub(crate) fn read_line(alloc: Global, line: &[u8]) -> Result<Reading, AllocError>
    ensures { IfOk result (λ reading. reading_of reading ≡ read line.now) }
{
    match line {
        [] => Ok(Reading::Skipped),
        [b'#', ..] => Ok(Reading::Skipped),
        _ => {
            let Some(first) = next_word(alloc, Some(line))? else {
                return Ok(Reading::Wrong);
            };
            match command_line(alloc, &first.word, first.rest)? {
                Some(command) => Ok(Reading::Says(command)),
                None => Ok(Reading::Wrong),
            }
        }
    }
}

// What a line of this name says.
#[tactic(auto, unfolding(crate::specs::ScriptLines::command_line))]
fn command_line(
    alloc: Global,
    name: &[u8],
    rest: Option<&[u8]>,
) -> Result<Option<Command>, AllocError>
    ensures { IfOk result (λ found. option_map line_of found
        ≡ command_line name.now (option_map (λ r. r.now) rest.entry)) }
{
    if name == b"zone".as_slice() {
        return zone_line(alloc, rest);
    }
    if name == b"basedir".as_slice() {
        return basedir_line(alloc, rest);
    }
    if name == b"store".as_slice() {
        return store_line(alloc, rest);
    }
    if name == b"file".as_slice() {
        return file_line(alloc, rest);
    }
    if name == b"dir".as_slice() {
        return folder_line(alloc, rest);
    }
    if name == b"gone".as_slice() {
        return gone_line(alloc, rest);
    }
    if name == b"var".as_slice() {
        return variable_line(alloc, rest);
    }
    if name == b"clear".as_slice() {
        return Ok(clear_line(rest));
    }
    if name == b"compile".as_slice() {
        return compile_line(alloc, rest);
    }
    if name == b"recache".as_slice() {
        return recache_line(alloc, rest);
    }
    Ok(None)
}

// What a line `zone` says.
fn zone_line(alloc: Global, rest: Option<&[u8]>) -> Result<Option<Command>, AllocError>
    ensures { IfOk result (λ found. option_map line_of found
        ≡ zone_line (option_map (λ r. r.now) rest.entry)) }
{
    let Some(taken) = next_word(alloc, rest)? else {
        return Ok(None);
    };
    let Some(offset) = zone_offset(&taken.word) else {
        return Ok(None);
    };
    if taken.rest.is_some() {
        return Ok(None);
    }
    Ok(Some(Command::Zone { offset }))
}

// What a line `basedir` says.
fn basedir_line(alloc: Global, rest: Option<&[u8]>) -> Result<Option<Command>, AllocError>
    ensures { IfOk result (λ found. option_map line_of found
        ≡ basedir_line (option_map (λ r. r.now) rest.entry)) }
{
    let Some(text) = last_text(alloc, rest)? else {
        return Ok(None);
    };
    Ok(Some(Command::Basedir { text }))
}

// What a line `store` says.
fn store_line(alloc: Global, rest: Option<&[u8]>) -> Result<Option<Command>, AllocError>
    ensures { IfOk result (λ found. option_map line_of found
        ≡ store_line (option_map (λ r. r.now) rest.entry)) }
{
    let Some(kind) = next_word(alloc, rest)? else {
        return Ok(None);
    };
    let Some(taken) = next_word(alloc, kind.rest)? else {
        return Ok(None);
    };
    let Some(call) = ordinal(&taken.word) else {
        return Ok(None);
    };
    if taken.rest.is_some() {
        return Ok(None);
    }
    if kind.word.as_slice() == b"forget".as_slice() {
        return Ok(Some(Command::StoreForget { call }));
    }
    if kind.word.as_slice() == b"fail".as_slice() {
        return Ok(Some(Command::StoreFail { call }));
    }
    Ok(None)
}

// What a line `file` says.
fn file_line(alloc: Global, rest: Option<&[u8]>) -> Result<Option<Command>, AllocError>
    ensures { IfOk result (λ found. option_map line_of found
        ≡ file_line (option_map (λ r. r.now) rest.entry)) }
{
    let Some(path) = next_word(alloc, rest)? else {
        return Ok(None);
    };
    let Some(first) = next_word(alloc, path.rest)? else {
        return Ok(None);
    };
    let Some(second) = next_word(alloc, first.rest)? else {
        return Ok(None);
    };
    let Some(modified) = file_time(&first.word) else {
        return Ok(None);
    };
    let Some(changed) = file_time(&second.word) else {
        return Ok(None);
    };
    let Some(contents) = last_text(alloc, second.rest)? else {
        return Ok(None);
    };
    Ok(Some(Command::File {
        path: path.word,
        modified,
        changed,
        contents,
    }))
}

// What a line `dir` says.
fn folder_line(alloc: Global, rest: Option<&[u8]>) -> Result<Option<Command>, AllocError>
    ensures { IfOk result (λ found. option_map line_of found
        ≡ folder_line (option_map (λ r. r.now) rest.entry)) }
{
    let Some(path) = next_word(alloc, rest)? else {
        return Ok(None);
    };
    if path.rest.is_some() {
        return Ok(None);
    }
    Ok(Some(Command::Folder { path: path.word }))
}

// What a line `gone` says.
fn gone_line(alloc: Global, rest: Option<&[u8]>) -> Result<Option<Command>, AllocError>
    ensures { IfOk result (λ found. option_map line_of found
        ≡ gone_line (option_map (λ r. r.now) rest.entry)) }
{
    let Some(path) = next_word(alloc, rest)? else {
        return Ok(None);
    };
    if path.rest.is_some() {
        return Ok(None);
    }
    Ok(Some(Command::Gone { path: path.word }))
}

// What a line `var` says.
fn variable_line(alloc: Global, rest: Option<&[u8]>) -> Result<Option<Command>, AllocError>
    ensures { IfOk result (λ found. option_map line_of found
        ≡ variable_line (option_map (λ r. r.now) rest.entry)) }
{
    let Some(name) = next_word(alloc, rest)? else {
        return Ok(None);
    };
    let Some(value) = last_text(alloc, name.rest)? else {
        return Ok(None);
    };
    Ok(Some(Command::Variable {
        name: name.word,
        value,
    }))
}

// What a line `clear` says.
fn clear_line(rest: Option<&[u8]>) -> Option<Command>
    ensures { option_map line_of result ≡ ended (option_map (λ r. r.now) rest.entry) Clear }
{
    if rest.is_some() {
        return None;
    }
    Some(Command::Clear)
}

// A call that a line asks for.
#[derive(Drop)]
struct Asked {
    moment: Timestamp,
    arguments: Vec<Vec<u8>>,
}

// The call that a line `compile` or `recache` asks for.
fn call_line(alloc: Global, rest: Option<&[u8]>) -> Result<Option<Asked>, AllocError>
    ensures { IfOk result (λ found.
        option_map (λ a. (a.moment, lists_of a.arguments.items)) found
        ≡ call_line (option_map (λ r. r.now) rest.entry)) }
{
    let Some(taken) = next_word(alloc, rest)? else {
        return Ok(None);
    };
    let Some(moment) = time(&taken.word) else {
        return Ok(None);
    };
    let Some(arguments) = words(alloc, taken.rest)? else {
        return Ok(None);
    };
    Ok(Some(Asked { moment, arguments }))
}

// What a line `compile` says.
fn compile_line(alloc: Global, rest: Option<&[u8]>) -> Result<Option<Command>, AllocError>
    ensures { IfOk result (λ found. option_map line_of found
        ≡ option_map (λ a. Compile a.0 a.1) (call_line (option_map (λ r. r.now) rest.entry))) }
{
    let Some(asked) = call_line(alloc, rest)? else {
        return Ok(None);
    };
    Ok(Some(Command::Compile {
        moment: asked.moment,
        arguments: asked.arguments,
    }))
}

// What a line `recache` says.
fn recache_line(alloc: Global, rest: Option<&[u8]>) -> Result<Option<Command>, AllocError>
    ensures { IfOk result (λ found. option_map line_of found
        ≡ option_map (λ a. Recache a.0 a.1) (call_line (option_map (λ r. r.now) rest.entry))) }
{
    let Some(asked) = call_line(alloc, rest)? else {
        return Ok(None);
    };
    Ok(Some(Command::Recache {
        moment: asked.moment,
        arguments: asked.arguments,
    }))
}
