//! The lines that configure a reader and a writer.
use crate::cases::{CaseError, FailReader, FailWriter, Failures, number, parts_of};
use std::alloc::Global;
use std::io;

/// What a reader and a writer do.
#[derive(Clone, Copy)]
pub(crate) struct Streams {
    step: usize,
    passing_reads: u64,
    kind: io::ErrorKind,
    passing_writes: u64,
}

fn kind_of(name: &str) -> Result<io::ErrorKind, CaseError> {
    match name {
        "interrupted" => Ok(io::ErrorKind::Interrupted),
        "other" => Ok(io::ErrorKind::Other),
        _ => Err(CaseError::Line),
    }
}

impl Streams {
    /// Nothing fails, and a reader gives as much as it is asked for.
    pub(crate) fn new() -> Streams {
        Streams {
            step: usize::MAX,
            passing_reads: u64::MAX,
            kind: io::ErrorKind::Other,
            passing_writes: u64::MAX,
        }
    }

    /// Applies a line, and returns whether its word is known here.
    pub(crate) fn give(&mut self, word: &str, rest: &str) -> Result<bool, CaseError> {
        match word {
            "reader" => self.set_reader(rest)?,
            "writer" => self.passing_writes = number(rest)?,
            _ => return Ok(false),
        }
        Ok(true)
    }

    fn set_reader(&mut self, rest: &str) -> Result<(), CaseError> {
        let (step, rest) = parts_of(rest)?;
        let (passing, kind) = parts_of(rest)?;
        self.step = number(step)?;
        self.passing_reads = number(passing)?;
        self.kind = kind_of(kind)?;
        Ok(())
    }

    /// Returns a reader of these bytes.
    pub(crate) fn reader<'a>(&self, bytes: &'a [u8]) -> FailReader<'a> {
        FailReader {
            bytes,
            step: self.step,
            reads: Failures::after(self.passing_reads),
            kind: self.kind,
        }
    }

    /// Returns an empty writer with room for `room` bytes, so that writing these can't fail for
    /// lack of memory.
    pub(crate) fn writer(&self, alloc: Global, room: usize) -> Result<FailWriter, CaseError> {
        let mut writer = FailWriter::new(alloc, self.passing_writes);
        writer.written.reserve(room)?;
        Ok(writer)
    }
}
