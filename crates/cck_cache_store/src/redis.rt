//! Requests to a Redis server, by its protocol (RESP2).
ghost use Rattle.std.specs.Prelude.{◌≡◌, ◌++◌, IfOk, MatchOption, map, string_bytes};
ghost use Rattle.cck_cache_store.specs.Redis.{AreCommands, SaysLength, SaysNoLength, bulk_string, login, redis_command, redis_name, selection};

use crate::address::Address;
use crate::connection::Connection;
use crate::number::number_in;
use crate::peer::kind_word;
use cck_cache_files::Kind;
use std::alloc::{AllocError, Global};
use std::io;
use std::io::{ErrorKind, Read, Write};

/// The reply to a command that was done.
const DONE: &[u8] = b"+OK";

/// The reply of a server that has no value under a name.
const ABSENT: &[u8] = b"$-1";

// A word of a command.
fn bulk_string(alloc: Global, word: &str) -> Result<String, AllocError>
    ensures { IfOk result (λ text. string_bytes text ≡ bulk_string word.now) }
{
    let length = word.len();
    Ok(format!(in alloc; "${length}\r\n{word}\r\n")?)
}

// A command of these words.
fn command(alloc: Global, words: &[&str]) -> Result<String, AllocError>
    ensures { IfOk result (λ text. string_bytes text ≡ redis_command (map (λ word. word.now) words.now)) }
{
    let count = words.len();
    let mut text = format!(in alloc; "*{count}\r\n")?;
    for word in words {
        text.push_str(bulk_string(alloc, word)?.as_str())?;
    }
    Ok(text)
}

// What a value of a kind and a name has as its name at a server, with the number of the formats.
fn name_of(alloc: Global, formats: &str, kind: Kind, name: &str) -> Result<String, AllocError>
    ensures { IfOk result (λ text. string_bytes text ≡ redis_name formats.now kind name.now) }
{
    let word = kind_word(kind);
    Ok(format!(in alloc; "cck:{formats}:{word}:{name}")?)
}

// The commands by which a server is told the user, if there is a secret.
fn login(alloc: Global, user: &str, secret: &str) -> Result<(String, u32), AllocError>
    ensures { IfOk result (AreCommands (login user.now secret.now)) }
{
    if secret.is_empty() {
        Ok((String::new(alloc), 0))
    } else if user.is_empty() {
        Ok((command(alloc, &["AUTH", secret])?, 1))
    } else {
        Ok((command(alloc, &["AUTH", user, secret])?, 1))
    }
}

// The commands by which a server is told the database, unless it is the default one.
fn selection(alloc: Global, database: &str) -> Result<(String, u32), AllocError>
    ensures { IfOk result (AreCommands (selection database.now)) }
{
    if database.is_empty() || database == "0" {
        Ok((String::new(alloc), 0))
    } else {
        Ok((command(alloc, &["SELECT", database])?, 1))
    }
}

// The commands that come first on a connection, and their number.
fn first_commands(alloc: Global, address: &Address<'_>) -> Result<(String, u32), AllocError>
    ensures { IfOk result (AreCommands (login address.now.user.now address.now.secret.now
        ++ selection address.now.place.now)) }
{
    let (mut commands, count) = login(alloc, address.user, address.secret)?;
    let (others, other_count) = selection(alloc, address.place)?;
    commands.push_str(others.as_str())?;
    Ok((commands, count + other_count))
}

// The number of bytes that a reply says. `None` for a line that is another reply.
fn length_of(line: &[u8]) -> Option<u64>
    ensures { MatchOption result (SaysNoLength line.now) (SaysLength line.now) }
{
    match line {
        [b'$', digits @ ..] => number_in(digits),
        _ => None,
    }
}

// Reads the value that a reply has, or `None` where it says that there is none.
fn read_value<I: Read, W: Write>(
    connection: &mut Connection<'_, I, W>,
    alloc: Global,
    max_size: u64,
) -> io::Result<Option<Vec<u8>>> {
    let line = connection.read_line(alloc)?;
    if line.as_slice() == ABSENT {
        return Ok(None);
    }
    match length_of(&line) {
        Some(length) if length <= max_size => {
            let value = connection.read_bytes(alloc, length)?;
            if connection.read_line(alloc)?.is_empty() {
                Ok(Some(value))
            } else {
                Err(io::Error::from(ErrorKind::InvalidData))
            }
        }
        _ => Err(io::Error::from(ErrorKind::InvalidData)),
    }
}

/// Asks for the value of a kind and a name. `None` if there is none. On a new connection the server is told the user and the
/// database first.
///
/// The error is of a failed read or write, of a reply that is not as it has to be, or lack of memory.
pub fn get_redis<I: Read, W: Write>(
    connection: &mut Connection<'_, I, W>,
    alloc: Global,
    address: &Address<'_>,
    is_new: bool,
    kind: Kind,
    name: &str,
) -> io::Result<Option<Vec<u8>>> {
    let (mut request, count) = if is_new {
        first_commands(alloc, address)?
    } else {
        (String::new(alloc), 0)
    };
    let key = name_of(alloc, address.formats, kind, name)?;
    request.push_str(command(alloc, &["GET", key.as_str()])?.as_str())?;
    connection.send(request.as_bytes())?;
    for _ in 0..count {
        if connection.read_line(alloc)?.as_slice() != DONE {
            return Err(io::Error::from(ErrorKind::PermissionDenied));
        }
    }
    read_value(connection, alloc, address.max_size)
}
