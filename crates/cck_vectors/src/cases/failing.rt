//! A reader and a writer over memory, of which calls fail.
use std::alloc::Global;
use std::io;
use std::io::{Read, Write};

/// Which calls fail: the first `passing` calls pass, the next `failing` calls fail, and all others
/// pass.
#[derive(Debug, Clone, Copy)]
pub(crate) struct Failures {
    /// How many calls pass before the first one that fails.
    pub(crate) passing: u64,
    /// How many calls fail.
    pub(crate) failing: u64,
}

impl Failures {
    /// All calls pass.
    pub(crate) fn none() -> Failures {
        Failures {
            passing: 0,
            failing: 0,
        }
    }

    /// The first `passing` calls pass, and all later ones fail.
    pub(crate) fn after(passing: u64) -> Failures {
        Failures {
            passing,
            failing: u64::MAX,
        }
    }

    // Counts a call, and says whether it fails.
    fn begin(&mut self) -> bool {
        if self.passing > 0 {
            self.passing -= 1;
            return false;
        }
        if self.failing == 0 {
            return false;
        }
        self.failing -= 1;
        true
    }
}

/// Reads its bytes `step` at a time. The reads that `reads` names fail.
#[derive(Drop)]
pub(crate) struct FailReader<'a> {
    /// The bytes that are left.
    pub(crate) bytes: &'a [u8],
    /// How many bytes one read returns at most.
    pub(crate) step: usize,
    /// Which reads fail.
    pub(crate) reads: Failures,
    /// The kind of the error.
    pub(crate) kind: io::ErrorKind,
}

impl Read for FailReader<'_> {
    fn read(&mut self, buffer: &mut [u8]) -> io::Result<usize> {
        if self.reads.begin() {
            return Err(io::Error::from(self.kind));
        }
        let count = self.bytes.len().min(buffer.len()).min(self.step);
        let (piece, rest) = self.bytes.split_at(count);
        buffer[..count].copy_from_slice(piece);
        self.bytes = rest;
        Ok(count)
    }
}

/// Keeps what is written, `step` bytes at a time. The writes and flushes that `writes` and
/// `flushes` name fail.
#[derive(Drop)]
pub(crate) struct FailWriter {
    /// What was written.
    pub(crate) written: Vec<u8>,
    /// How many bytes one write takes at most.
    pub(crate) step: usize,
    /// Which writes fail.
    pub(crate) writes: Failures,
    /// Which flushes fail.
    pub(crate) flushes: Failures,
    /// Whether nothing was written after the last flush.
    pub(crate) is_flushed: bool,
}

impl FailWriter {
    /// A writer to which nothing was written. A write takes all that it is given. The first
    /// `passing` writes pass, and all later ones fail.
    pub(crate) fn new(alloc: Global, passing: u64) -> FailWriter {
        FailWriter {
            written: Vec::new(alloc),
            step: usize::MAX,
            writes: Failures::after(passing),
            flushes: Failures::none(),
            is_flushed: false,
        }
    }
}

impl Write for FailWriter {
    fn write(&mut self, bytes: &[u8]) -> io::Result<usize> {
        if self.writes.begin() {
            return Err(io::Error::from(io::ErrorKind::BrokenPipe));
        }
        let count = bytes.len().min(self.step);
        self.is_flushed = self.is_flushed && count == 0;
        match self.written.extend_from_slice(&bytes[..count]) {
            Ok(()) => Ok(count),
            Err(_) => Err(io::Error::from(io::ErrorKind::OutOfMemory)),
        }
    }

    fn flush(&mut self) -> io::Result<()> {
        if self.flushes.begin() {
            return Err(io::Error::from(io::ErrorKind::BrokenPipe));
        }
        self.is_flushed = true;
        Ok(())
    }
}
