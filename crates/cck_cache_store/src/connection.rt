//! A connection to a server, on two streams.
use std::alloc::Global;
use std::io;
use std::io::{BufRead, BufReader, ErrorKind, Read, Write};

/// The most bytes of a line of a reply, with its end.
const LONGEST_LINE: u64 = 65_536;

/// A connection to a server.
#[derive(Drop)]
pub struct Connection<'a, I, W> {
    reader: BufReader<&'a mut I>,
    writer: &'a mut W,
}

/// Whether an error says that nothing came, or could be sent, for as long as a stream waits.
pub fn is_late(error: &io::Error) -> bool {
    matches!(error.kind(), ErrorKind::TimedOut | ErrorKind::WouldBlock)
}

impl<'a, I: Read, W: Write> Connection<'a, I, W> {
    /// A connection whose replies are read from one stream, and whose requests are written to the other one.
    ///
    /// The only error is lack of memory.
    pub fn new(
        alloc: Global,
        reader: &'a mut I,
        writer: &'a mut W,
    ) -> io::Result<Connection<'a, I, W>> {
        let reader = BufReader::new(alloc, reader)?;
        Ok(Connection { reader, writer })
    }

    /// Sends a request.
    ///
    /// The error is of a failed write.
    pub fn send(&mut self, request: &[u8]) -> io::Result<()> {
        self.writer.write_all(request)?;
        self.writer.flush()
    }

    /// Reads a line that ends in a carriage return and a line feed, and returns it without them.
    ///
    /// The error is of a failed read, or lack of memory; [`ErrorKind::InvalidData`] is of another line.
    pub fn read_line(&mut self, alloc: Global) -> io::Result<Vec<u8>> {
        let mut line = Vec::new(alloc);
        self.reader
            .by_ref()
            .take(LONGEST_LINE)
            .read_until(b'\n', &mut line)?;
        match line.strip_suffix(b"\r\n") {
            Some(text) => Ok(text.to_vec(alloc)?),
            None => Err(io::Error::from(ErrorKind::InvalidData)),
        }
    }

    /// Reads so many bytes.
    ///
    /// The error is of a failed read, or lack of memory; [`ErrorKind::UnexpectedEof`] is of less bytes.
    pub fn read_bytes(&mut self, alloc: Global, count: u64) -> io::Result<Vec<u8>> {
        let mut bytes = Vec::new(alloc);
        self.reader.by_ref().take(count).read_to_end(&mut bytes)?;
        if bytes.len() as u64 == count {
            Ok(bytes)
        } else {
            Err(io::Error::from(ErrorKind::UnexpectedEof))
        }
    }
}
