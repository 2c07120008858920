//! Requests to an HTTP server (RFC 9112).
ghost use Rattle.std.specs.Prelude.{◌≡◌, ℕ, IfOk, List, string_bytes};
ghost use Rattle.cck_cache_store.specs.Http.{IsShare, authorization, http_directory, http_path, http_request, named_port};

use crate::address::Address;
use crate::connection::Connection;
use crate::number::number_in;
use crate::peer::kind_word;
use cck_cache_files::Kind;
use httparse::{EMPTY_HEADER, Header, Response, Status};
use std::alloc::{AllocError, Global};
use std::io;
use std::io::{ErrorKind, Read, Write};

/// The most lines of a reply before its body.
const LONGEST_HEAD: usize = 66;

/// The most header fields of a reply.
const FIELDS: usize = 64;

/// The port that is not named in a request.
const HTTP_PORT: u16 = 80;

/// What the head of a reply says of what follows.
#[derive(Clone, Copy)]
struct Head {
    // Whether there is a value. Otherwise the server has none.
    has_value: bool,
    // The number of bytes that follow.
    length: u64,
    // Whether the server closes the connection after these.
    closes: bool,
}

// What the path of a name has before the name: its first two digits.
fn share_of(name: &str) -> &str
    ensures { IsShare name.now result.now }
{
    match name.get(..2) {
        Some(share) => share,
        None => name,
    }
}

// The directory of a kind, below a place.
fn directory_of(alloc: Global, place: &str, formats: &str, kind: Kind) -> Result<String, AllocError>
    ensures { IfOk result (λ path. string_bytes path ≡ http_directory place.now formats.now kind) }
{
    let word = kind_word(kind);
    Ok(format!(in alloc; "{place}/{formats}/{word}")?)
}

// The path of a name in a directory.
fn path_of(alloc: Global, directory: &str, name: &str) -> Result<String, AllocError>
    ensures { IfOk result (λ path. (share : List ℕ) × IsShare name.now share
        × (string_bytes path ≡ http_path directory.now share name.now)) }
{
    let share = share_of(name);
    Ok(format!(in alloc; "{directory}/{share}/{name}")?)
}

// The port as it comes after the name of a host.
fn named_port(alloc: Global, port: u16) -> Result<String, AllocError>
    ensures { IfOk result (λ text. string_bytes text ≡ named_port port) }
{
    if port == HTTP_PORT {
        return Ok(String::new(alloc));
    }
    Ok(format!(in alloc; ":{port}")?)
}

// The header field that has a token, if there is one.
fn authorization(alloc: Global, token: &str) -> Result<String, AllocError>
    ensures { IfOk result (λ text. string_bytes text ≡ authorization token.now) }
{
    if token.is_empty() {
        return Ok(String::new(alloc));
    }
    ["Authorization: Bearer ", token, "\r\n"].concat(alloc)
}

// A request for what is at a path.
fn request_of(alloc: Global, address: &Address<'_>, path: &str) -> Result<String, AllocError>
    ensures { IfOk result (λ text. string_bytes text ≡ http_request address.now path.now) }
{
    let port = named_port(alloc, address.port)?;
    let authorization = authorization(alloc, address.secret)?;
    let request = [
        "GET ",
        path,
        " HTTP/1.1\r\nHost: ",
        address.host,
        port.as_str(),
        "\r\nAccept: */*\r\n",
        authorization.as_str(),
        "\r\n",
    ]
    .concat(alloc)?;
    Ok(request)
}

// Whether a header field has this name.
fn is_named(header: &Header<'_>, name: &str) -> bool {
    header.name.eq_ignore_ascii_case(name)
}

// Whether a header field says that the server closes the connection.
fn says_close(header: &Header<'_>) -> bool {
    is_named(header, "Connection")
        && header
            .value
            .split(|byte| *byte == b',')
            .any(|word| word.trim_ascii().eq_ignore_ascii_case(b"close"))
}

// The number of bytes of a body. `None` where the head does not say it exactly once.
fn length_in(headers: &[Header<'_>]) -> Option<u64> {
    let mut named = headers
        .iter()
        .filter(|header| is_named(header, "Content-Length"));
    let length = number_in(named.next()?.value)?;
    match named.next() {
        Some(_) => None,
        None => Some(length),
    }
}

// What a head says. `None` where it is not one of a value, or of none, whose length it says once. An element of `headers` that
// is not filled has an empty name.
fn head_in(head: &[u8]) -> Option<Head> {
    let mut headers = [EMPTY_HEADER; FIELDS];
    let mut response = Response::new(&mut headers);
    let Ok(Status::Complete(_)) = response.parse(head) else {
        return None;
    };
    let (code, version) = (response.code?, response.version?);
    let has_value = match code {
        200 => true,
        404 => false,
        _ => return None,
    };
    if headers
        .iter()
        .any(|header| is_named(header, "Transfer-Encoding"))
    {
        return None;
    }
    Some(Head {
        has_value,
        length: length_in(&headers)?,
        closes: version == 0 || headers.iter().any(says_close),
    })
}

// Reads the lines before the body of a reply.
fn read_head<I: Read, W: Write>(
    connection: &mut Connection<'_, I, W>,
    alloc: Global,
) -> io::Result<Vec<u8>> {
    let mut head = Vec::new(alloc);
    for _ in 0..LONGEST_HEAD {
        let line = connection.read_line(alloc)?;
        head.extend_from_slice(&line)?;
        head.extend_from_slice(b"\r\n")?;
        if line.is_empty() {
            break;
        }
    }
    Ok(head)
}

/// Asks for the value of a kind and a name, and whether the server closes the connection. There is `None` in place of a
/// value if there is none.
///
/// The error is of a failed read or write, of a reply that is not as it has to be, or lack of memory.
pub fn get_http<I: Read, W: Write>(
    connection: &mut Connection<'_, I, W>,
    alloc: Global,
    address: &Address<'_>,
    kind: Kind,
    name: &str,
) -> io::Result<(Option<Vec<u8>>, bool)> {
    let directory = directory_of(alloc, address.place, address.formats, kind)?;
    let path = path_of(alloc, directory.as_str(), name)?;
    connection.send(request_of(alloc, address, path.as_str())?.as_bytes())?;
    let head = read_head(connection, alloc)?;
    match head_in(&head) {
        Some(head) if head.length <= address.max_size => {
            let body = connection.read_bytes(alloc, head.length)?;
            Ok((if head.has_value { Some(body) } else { None }, head.closes))
        }
        _ => Err(io::Error::from(ErrorKind::InvalidData)),
    }
}
