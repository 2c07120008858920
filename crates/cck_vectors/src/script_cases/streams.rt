//! The reader and the writer of a run of the program.
use crate::cases::{CaseError, FailReader, FailWriter, Failures, bytes_of, find, number};
use std::alloc::Global;
use std::io;

#[derive(Clone, Copy)]
enum Word {
    Reader,
    Writer,
    Flush,
    Written,
}

const WORDS: [(&str, Word); 4] = [
    ("reader", Word::Reader),
    ("writer", Word::Writer),
    ("flush", Word::Flush),
    ("written", Word::Written),
];

const KINDS: [(&str, io::ErrorKind); 4] = [
    ("Interrupted", io::ErrorKind::Interrupted),
    ("BrokenPipe", io::ErrorKind::BrokenPipe),
    ("UnexpectedEof", io::ErrorKind::UnexpectedEof),
    ("OutOfMemory", io::ErrorKind::OutOfMemory),
];

/// What lines give to the reader and the writer of a run.
pub(crate) struct Streams {
    alloc: Global,
    read_step: usize,
    reads: Failures,
    kind: io::ErrorKind,
    write_step: usize,
    writes: Failures,
    flushes: Failures,
    written: Vec<u8>,
}

impl Drop for Streams {
    fn drop(self) {
        let Streams {
            alloc: _,
            read_step: _,
            reads: _,
            kind: _,
            write_step: _,
            writes: _,
            flushes: _,
            written: _,
        } = self;
    }
}

impl Streams {
    /// Nothing is given: all reads and writes pass.
    pub(crate) fn new(alloc: Global) -> Streams {
        Streams {
            alloc,
            read_step: usize::MAX,
            reads: Failures::none(),
            kind: io::ErrorKind::Interrupted,
            write_step: usize::MAX,
            writes: Failures::none(),
            flushes: Failures::none(),
            written: Vec::new(alloc),
        }
    }

    /// Takes what a line gives, and returns whether it knows the line's word:
    ///
    /// - `reader STEP PASSING KIND`: a read returns at most STEP bytes, and after PASSING reads all
    ///   others fail,
    /// - `writer STEP PASSING FAILING`: a write takes at most STEP bytes, and after PASSING writes
    ///   FAILING writes fail, and all others pass,
    /// - `flush FAILING`: the first FAILING flushes fail,
    /// - `written TEXT`: what the writer holds before the run.
    pub(crate) fn give(&mut self, name: &str, rest: &str) -> Result<bool, CaseError> {
        let Some(word) = find(&WORDS, name) else {
            return Ok(false);
        };
        match word {
            Word::Reader => self.set_reader(rest)?,
            Word::Writer => self.set_writer(rest)?,
            Word::Flush => self.flushes.failing = number(rest)?,
            Word::Written => self.written = bytes_of(self.alloc, rest)?,
        }
        Ok(true)
    }

    fn set_reader(&mut self, rest: &str) -> Result<(), CaseError> {
        let (step, rest) = rest.split_once(' ').ok_or(CaseError::Line)?;
        let (passing, kind) = rest.split_once(' ').ok_or(CaseError::Line)?;
        self.read_step = number(step)?;
        self.reads = Failures::after(number(passing)?);
        self.kind = find(&KINDS, kind).ok_or(CaseError::Line)?;
        Ok(())
    }

    fn set_writer(&mut self, rest: &str) -> Result<(), CaseError> {
        let (step, rest) = rest.split_once(' ').ok_or(CaseError::Line)?;
        let (passing, failing) = rest.split_once(' ').ok_or(CaseError::Line)?;
        self.write_step = number(step)?;
        self.writes.passing = number(passing)?;
        self.writes.failing = number(failing)?;
        Ok(())
    }

    /// The reader of a run over these bytes.
    pub(crate) fn reader<'a>(&self, bytes: &'a [u8]) -> FailReader<'a> {
        FailReader {
            bytes,
            step: self.read_step,
            reads: self.reads,
            kind: self.kind,
        }
    }

    /// The writer of a run.
    pub(crate) fn writer(&self) -> Result<FailWriter, CaseError> {
        Ok(FailWriter {
            written: self.written.to_vec(self.alloc)?,
            step: self.write_step,
            writes: self.writes,
            flushes: self.flushes,
            is_flushed: true,
        })
    }
}
