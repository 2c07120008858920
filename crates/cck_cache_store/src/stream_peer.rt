//! A process that is asked by lines: what a store lacks is asked for on standard output, and each reply is read from
//! standard input.
use crate::number::number_in;
use crate::peer::{Peer, kind_word};
use cck_cache_files::Kind;
use std::alloc::Global;
use std::io;
use std::io::{Read, Write};

/// The most bytes of the line with the length of a reply: the digits of the greatest length.
const LONGEST_LINE: usize = 20;

/// A process that is asked by lines, of which each reply is read.
#[derive(Drop)]
pub struct StreamPeer<'a, I, W> {
    /// The stream that is read.
    pub reader: &'a mut I,
    /// The stream to which lines are written.
    pub writer: &'a mut W,
}

impl<'a, I: Read, W: Write> StreamPeer<'a, I, W> {
    // Reads a line without its end. What is too long for a length is cut.
    fn read_line(&mut self, alloc: Global) -> io::Result<Vec<u8>> {
        let mut line = Vec::new(alloc);
        for byte in self.reader.by_ref().bytes() {
            let byte = byte?;
            if byte == b'\n' || line.len() > LONGEST_LINE {
                break;
            }
            line.push(byte)?;
        }
        Ok(line)
    }

    // Reads a reply: a line with its length, and so many bytes. `None` where the line is another one, or the bytes are
    // fewer.
    fn read_reply(&mut self, alloc: Global) -> io::Result<Option<Vec<u8>>> {
        let line = self.read_line(alloc)?;
        let Some(length) = number_in(&line) else {
            return Ok(None);
        };
        let mut bytes = Vec::new(alloc);
        self.reader.by_ref().take(length).read_to_end(&mut bytes)?;
        Ok(if bytes.len() as u64 == length {
            Some(bytes)
        } else {
            None
        })
    }
}

impl<'a, I: Read, W: Write> Peer for StreamPeer<'a, I, W> {
    // What is read may be any bytes.
    ghost has = { λ peer kind name value. Unit {0} };

    fn read_text(&mut self, alloc: Global) -> io::Result<Vec<u8>> {
        let mut text = Vec::new(alloc);
        self.reader.read_to_end(&mut text)?;
        Ok(text)
    }

    fn get(&mut self, alloc: Global, kind: Kind, name: &str) -> io::Result<Option<Vec<u8>>> {
        let word = kind_word(kind);
        writeln!(self.writer, "get {word} {name}")?;
        self.writer.flush()?;
        self.read_reply(alloc)
    }

    fn expand(&mut self, alloc: Global, size: u64, frame: &[u8]) -> io::Result<Option<Vec<u8>>> {
        let length = frame.len();
        writeln!(self.writer, "expand {size} {length}")?;
        self.writer.write_all(frame)?;
        self.writer.flush()?;
        let Some(expanded) = self.read_reply(alloc)? else {
            return Ok(None);
        };
        Ok(if expanded.len() as u64 == size {
            Some(expanded)
        } else {
            None
        })
    }
}
