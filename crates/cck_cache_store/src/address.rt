//! The address of a server, as lines of a file.

/// How a server is asked.
#[derive(Clone, Copy)]
pub enum Scheme {
    /// By commands of Redis.
    Redis,
    /// By requests of HTTP.
    Http,
}

/// A server to which the process is connected, and what else the process has for it.
#[derive(Clone, Copy)]
pub struct Address<'a> {
    /// How the server is asked.
    pub scheme: Scheme,
    /// The name or the address of its host, which an HTTP server is told.
    pub host: &'a str,
    /// The port of the host, which an HTTP server is told.
    pub port: u16,
    /// The database of a Redis server, or what the path of each name at an HTTP server begins with.
    pub place: &'a str,
    /// The user of a Redis server. The default one where it is empty.
    pub user: &'a str,
    /// The password of a Redis server, or the token of an HTTP server. None where it is empty.
    pub secret: &'a str,
    /// The number that the names at the server have, as text.
    pub formats: &'a str,
    /// The most bytes that a value may have.
    pub max_size: u64,
    /// The path to which the answer is written.
    pub answer: &'a str,
    /// The path to which frames of zstd are written, after a line that asks for what they expand to. None where it is empty.
    pub frames: &'a str,
    /// The path from which the replies to these lines are read.
    pub expanded: &'a str,
}

// The scheme of this name.
fn scheme_of(name: &str) -> Option<Scheme> {
    match name {
        "redis" | "redis+unix" => Some(Scheme::Redis),
        "http" => Some(Scheme::Http),
        _ => None,
    }
}

/// The address in a text whose lines are, in the order of its fields, what they say: the scheme by its name, the numbers in
/// decimal digits. `None` for a text of other lines. Lines after these do not count.
///
/// It allocates no memory.
pub fn address_in(text: &str) -> Option<Address<'_>> {
    let mut lines = text.split('\n');
    Some(Address {
        scheme: scheme_of(lines.next()?)?,
        host: lines.next()?,
        port: lines.next()?.parse::<u16>().ok()?,
        place: lines.next()?,
        user: lines.next()?,
        secret: lines.next()?,
        formats: lines.next()?,
        max_size: lines.next()?.parse::<u64>().ok()?,
        answer: lines.next()?,
        frames: lines.next()?,
        expanded: lines.next()?,
    })
}
