//! Bytes that lines make before a call.
use crate::cases::case_error::CaseError;
use crate::cases::table::find;
use crate::cases::text::{byte_of, bytes_of, number, parts_of};
use std::alloc::Global;

#[derive(Clone, Copy)]
enum Word {
    Repeat,
    Hex,
    Put,
    Cut,
    Save,
    Use,
    Append,
}

const WORDS: [(&str, Word); 7] = [
    ("repeat", Word::Repeat),
    ("hex", Word::Hex),
    ("put", Word::Put),
    ("cut", Word::Cut),
    ("save", Word::Save),
    ("use", Word::Use),
    ("append", Word::Append),
];

/// The bytes that lines made, and those that they saved under a name.
pub(crate) struct MadeBytes {
    alloc: Global,
    bytes: Vec<u8>,
    saved: Vec<(String, Vec<u8>)>,
}

impl Drop for MadeBytes {
    fn drop(self) {
        let MadeBytes {
            alloc: _,
            bytes: _,
            saved: _,
        } = self;
    }
}

impl MadeBytes {
    /// Returns the state in which no bytes are made or saved.
    pub(crate) fn new(alloc: Global) -> MadeBytes {
        MadeBytes {
            alloc,
            bytes: Vec::new(alloc),
            saved: Vec::new(alloc),
        }
    }

    /// Removes the bytes that were made, and keeps those that were saved.
    pub(crate) fn begin(&mut self) {
        self.bytes.clear();
    }

    /// Writes the bytes of a call into `out`: those that were made, and then those of the line's
    /// rest unless it is raw.
    pub(crate) fn write(
        &self,
        rest: &str,
        is_raw: bool,
        out: &mut Vec<u8>,
    ) -> Result<(), CaseError> {
        out.extend_from_slice(&self.bytes)?;
        if !is_raw {
            out.extend_from_slice(&bytes_of(self.alloc, rest)?)?;
        }
        Ok(())
    }

    /// Applies a line, and returns whether its word is known here.
    pub(crate) fn give(&mut self, name: &str, rest: &str) -> Result<bool, CaseError> {
        let Some(word) = find(&WORDS, name) else {
            return Ok(false);
        };
        match word {
            Word::Repeat => self.repeat(rest)?,
            Word::Hex => self.hex(rest)?,
            Word::Put => self.put(rest)?,
            Word::Cut => self.cut(rest)?,
            Word::Save => self.save(rest)?,
            Word::Use => self.take(rest)?,
            Word::Append => self.append(rest)?,
        }
        Ok(true)
    }

    fn repeat(&mut self, rest: &str) -> Result<(), CaseError> {
        let (count, text) = parts_of(rest)?;
        let count = number::<usize>(count)?;
        let piece = bytes_of(self.alloc, text)?;
        self.add_often(count, &piece)
    }

    fn add_often(&mut self, count: usize, piece: &[u8]) -> Result<(), CaseError> {
        for _ in 0..count {
            self.bytes.extend_from_slice(piece)?;
        }
        Ok(())
    }

    fn hex(&mut self, rest: &str) -> Result<(), CaseError> {
        for digits in rest.split_whitespace() {
            self.bytes.push(byte_of(digits)?)?;
        }
        Ok(())
    }

    fn put(&mut self, rest: &str) -> Result<(), CaseError> {
        let (at, digits) = parts_of(rest)?;
        let byte = byte_of(digits)?;
        match self.bytes.get_mut(number::<usize>(at)?) {
            Some(place) => *place = byte,
            None => return Err(CaseError::Line),
        }
        Ok(())
    }

    fn cut(&mut self, length: &str) -> Result<(), CaseError> {
        self.bytes.truncate(number::<usize>(length)?);
        Ok(())
    }

    fn save(&mut self, name: &str) -> Result<(), CaseError> {
        let bytes = Vec::from_slice(self.alloc, &self.bytes)?;
        self.saved
            .push((String::from_str(self.alloc, name)?, bytes))?;
        Ok(())
    }

    fn take(&mut self, name: &str) -> Result<(), CaseError> {
        self.bytes.clear();
        self.append(name)
    }

    fn append(&mut self, name: &str) -> Result<(), CaseError> {
        for (other, bytes) in self.saved.iter().rev() {
            if other.as_str() == name {
                self.bytes.extend_from_slice(bytes)?;
                return Ok(());
            }
        }
        Err(CaseError::Line)
    }
}
