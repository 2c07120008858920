//! A server that the program asks itself.
use crate::address::{Address, Scheme};
use crate::connection::{Connection, is_late};
use crate::http::get_http;
use crate::peer::Peer;
use crate::redis::get_redis;
use crate::stream_peer::StreamPeer;
use cck_cache_files::Kind;
use std::alloc::Global;
use std::io::{ErrorKind, Read, Write};
use std::rt::Files;
use std::{fs, io};

// Whether a server can be asked.
#[derive(Clone, Copy)]
enum State {
    // It can, and was not asked yet.
    New,
    // It can.
    Used,
    // It closed the connection.
    Closed,
    // A request took too long.
    Late,
}

/// A Redis server, or an HTTP server, that is asked on two streams.
#[derive(Drop)]
pub struct RemotePeer<'a, R, I, W> {
    rt: &'a R,
    address: &'a Address<'a>,
    connection: Connection<'a, I, W>,
    state: State,
}

impl<'a, R: AllocGlobal, I: Read, W: Write> RemotePeer<'a, R, I, W> {
    /// A server of this address, whose replies are read from one stream, and to which requests are written by the other one.
    ///
    /// The only error is lack of memory.
    pub fn new(
        rt: &'a R,
        address: &'a Address<'a>,
        reader: &'a mut I,
        writer: &'a mut W,
    ) -> io::Result<RemotePeer<'a, R, I, W>> {
        Ok(RemotePeer {
            rt,
            address,
            connection: Connection::new(rt.alloc(), reader, writer)?,
            state: State::New,
        })
    }

    /// Whether a request took too long. Then the server is not asked again.
    pub fn is_late(&self) -> bool {
        matches!(self.state, State::Late)
    }

    // Asks for the value of a kind and a name.
    fn ask(&mut self, alloc: Global, kind: Kind, name: &str) -> io::Result<Option<Vec<u8>>> {
        let is_new = matches!(self.state, State::New);
        self.state = State::Used;
        match self.address.scheme {
            Scheme::Redis => get_redis(
                &mut self.connection,
                alloc,
                self.address,
                is_new,
                kind,
                name,
            ),
            Scheme::Http => {
                let (value, closes) = get_http(
                    &mut self.connection,
                    alloc,
                    self.address,
                    kind,
                    name,
                )?;
                if closes {
                    self.state = State::Closed;
                }
                Ok(value)
            }
        }
    }
}

impl<'a, R: Files + AllocGlobal, I: Read, W: Write> Peer for RemotePeer<'a, R, I, W> {
    // What a server sends may be any bytes.
    ghost has = { λ peer kind name value. Unit {0} };

    fn read_text(&mut self, alloc: Global) -> io::Result<Vec<u8>> {
        Ok(Vec::new(alloc))
    }

    fn get(&mut self, alloc: Global, kind: Kind, name: &str) -> io::Result<Option<Vec<u8>>> {
        match self.state {
            State::Late => return Ok(None),
            State::Closed => return Err(io::Error::from(ErrorKind::NotConnected)),
            State::New | State::Used => {}
        }
        match self.ask(alloc, kind, name) {
            Err(error) if is_late(&error) => {
                self.state = State::Late;
                Ok(None)
            }
            // An empty value is that of no file.
            asked => Ok(asked?.filter(|value| !value.is_empty())),
        }
    }

    fn expand(&mut self, alloc: Global, size: u64, frame: &[u8]) -> io::Result<Option<Vec<u8>>> {
        if size > self.address.max_size {
            return Ok(None);
        }
        let mut writer = fs::create(self.rt, self.address.frames)?;
        let mut reader = fs::open(self.rt, self.address.expanded)?;
        let mut peer = StreamPeer {
            reader: &mut reader,
            writer: &mut writer,
        };
        peer.expand(alloc, size, frame)
    }
}
