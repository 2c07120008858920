//! Walks over texts and over single line markers.
use crate::cases::{
    CaseError, CaseLine, Given, GivenFiles, Value, bytes_of, find, number, write_numbers, zone_of,
};
use cck_digest::{Digest, FileError, KeyError, Sha256State, UtilError};
use cck_files::{Files, MapFiles};
use cck_hasher::{LineAction, Records, Walk, process_preprocessed_file, process_preprocessor_line};
use std::alloc::{AllocError, Global};

#[derive(Clone, Copy)]
enum Word {
    Input,
    Cwd,
}

const WORDS: [(&str, Word); 2] = [("input", Word::Input), ("cwd", Word::Cwd)];

#[derive(Clone, Copy)]
pub(crate) enum WalkCall {
    Walk,
    WalksOfTexts,
    Line,
    Records,
    Record,
    IsArmed,
    ErrorText,
}

pub(crate) const CALLS: [(&str, WalkCall); 7] = [
    ("walk", WalkCall::Walk),
    ("walks_of_texts", WalkCall::WalksOfTexts),
    ("line", WalkCall::Line),
    ("records", WalkCall::Records),
    ("record", WalkCall::Record),
    ("is_armed", WalkCall::IsArmed),
    ("error_text", WalkCall::ErrorText),
];

const ERRORS: [(&str, KeyError); 2] = [("Memory", KeyError::Memory), ("Marker", KeyError::Marker)];

/// What lines give to walks, and what single line markers recorded.
pub(crate) struct Walks {
    alloc: Global,
    given: Given,
    given_files: GivenFiles,
    /// `input TEXT`: the path of the input. Empty at first.
    input: Vec<u8>,
    /// `cwd TEXT`: the working directory. Empty at first.
    cwd: Vec<u8>,
    /// The records that `line` adds to. None at first.
    records: Records,
}

impl Drop for Walks {
    fn drop(self) {
        let Walks {
            alloc: _,
            given: _,
            given_files: _,
            input: _,
            cwd: _,
            records: _,
        } = self;
    }
}

/// Makes a call. For generated texts it returns one digest: that of all results, each with an LF
/// after it.
pub(crate) fn call<'a>(
    call: WalkCall,
    walks: &'a mut Walks,
    texts: &[Vec<u8>],
    line: CaseLine<'a>,
) -> Result<Value<'a>, CaseError> {
    match call {
        WalkCall::Walk => walks.walk(line.bytes),
        WalkCall::WalksOfTexts => walks.walk_each(texts),
        WalkCall::Line => walks.process_line(line.rest),
        WalkCall::Records => Ok(Value::Number(walks.records.len() as u64)),
        WalkCall::Record => Ok(Value::Part(walks.record(line.bytes))),
        WalkCall::IsArmed => Ok(Value::Flag(
            walks.given_files.files.metadata(b"/") == Err(FileError::Fault),
        )),
        WalkCall::ErrorText => Ok(Value::Text(error_text(walks.alloc, line.rest)?)),
    }
}

fn error_text(alloc: Global, name: &str) -> Result<String, CaseError> {
    let error = find(&ERRORS, name).ok_or(CaseError::Line)?;
    Ok(format!(in alloc; "{error}")?)
}

impl Walks {
    /// Returns the state in which nothing is given or recorded.
    pub(crate) fn new(alloc: Global) -> Walks {
        Walks {
            alloc,
            given: Given::new(alloc),
            given_files: GivenFiles::new(alloc),
            input: Vec::new(alloc),
            cwd: Vec::new(alloc),
            records: Records::new(alloc),
        }
    }

    /// Applies a line, and returns whether its word is known here.
    pub(crate) fn give(&mut self, name: &str, rest: &str) -> Result<bool, CaseError> {
        let Some(word) = find(&WORDS, name) else {
            return Ok(self.given_files.give(name, rest)? || self.given.give(name, rest)?);
        };
        match word {
            Word::Input => self.input = bytes_of(self.alloc, rest)?,
            Word::Cwd => self.cwd = bytes_of(self.alloc, rest)?,
        }
        Ok(true)
    }

    fn walk<'a>(&mut self, text: &[u8]) -> Result<Value<'a>, CaseError> {
        let mut out = Vec::new(self.alloc);
        self.write_walk(&mut out, text)?;
        Ok(Value::Bytes(out))
    }

    fn walk_each<'a>(&mut self, texts: &[Vec<u8>]) -> Result<Value<'a>, CaseError> {
        let mut digest = Digest::<Sha256State>::new();
        let mut out = Vec::new(self.alloc);
        for text in texts {
            out.clear();
            self.write_walk(&mut out, text)?;
            out.push(b'\n')?;
            digest.update(&out);
        }
        Ok(Value::Text(digest.finish(self.alloc)?))
    }

    // Writes what a walk over a text returns.
    fn write_walk(&mut self, out: &mut Vec<u8>, text: &[u8]) -> Result<(), CaseError> {
        let zone = zone_of(self.given_files.zone)?;
        let walk = process_preprocessed_file::<Sha256State, MapFiles>(
            self.alloc,
            &mut self.given_files.files,
            &self.input,
            &self.cwd,
            text,
            self.given_files.config,
            self.given_files.moment,
            &zone,
            &self.given.variables,
        );
        write_result(out, walk)
    }

    // `line START HASH_START TEXT`: the result for the line marker at a place of a text.
    fn process_line<'a>(&mut self, rest: &str) -> Result<Value<'a>, CaseError> {
        let (start, rest) = rest.split_once(' ').ok_or(CaseError::Line)?;
        let (hash_start, text) = rest.split_once(' ').ok_or(CaseError::Line)?;
        let text = bytes_of(self.alloc, text)?;
        self.process(&text, number(start)?, number(hash_start)?)
    }

    fn process<'a>(
        &mut self,
        text: &[u8],
        start: usize,
        hash_start: usize,
    ) -> Result<Value<'a>, CaseError> {
        if hash_start > start || start >= text.len() {
            return Err(CaseError::Line);
        }
        let zone = zone_of(self.given_files.zone)?;
        let action = process_preprocessor_line::<Sha256State, MapFiles>(
            self.alloc,
            &mut self.given_files.files,
            &self.input,
            &self.cwd,
            &mut self.records,
            text,
            start,
            hash_start,
            self.given_files.config,
            self.given_files.moment,
            &zone,
            &self.given.variables,
        );
        match action {
            Ok(action) => Ok(Value::Bytes(action_text(self.alloc, action)?)),
            Err(error) => Ok(Value::Word(error_word(error)?)),
        }
    }

    // The recorded digest of the file at a path, if it was recorded.
    fn record(&self, path: &[u8]) -> Option<&[u8]> {
        let digest = self.records.get(path)?;
        Some(digest.as_bytes())
    }
}

// The text of an error that is a result. A walk returns no other errors than these two.
fn error_word(error: KeyError) -> Result<&'static str, CaseError> {
    match error {
        KeyError::Memory => Err(CaseError::Util(UtilError::Memory)),
        KeyError::Marker => Ok("error Marker"),
        _ => Err(CaseError::Line),
    }
}

fn write_result(out: &mut Vec<u8>, walk: Result<Walk, KeyError>) -> Result<(), CaseError> {
    match walk {
        Ok(Walk::Accepted(files)) => write_files(out, &files)?,
        Ok(Walk::Refused) => out.extend_from_slice(b"refused")?,
        Err(error) => out.extend_from_slice(error_word(error)?.as_bytes())?,
    }
    Ok(())
}

// Writes the recorded files, each with its digest in a line of its own.
fn write_files(out: &mut Vec<u8>, files: &[(Vec<u8>, String)]) -> Result<(), AllocError> {
    out.extend_from_slice(b"accepted")?;
    for (path, digest) in files {
        out.push(b'\n')?;
        out.extend_from_slice(path)?;
        out.push(b' ')?;
        out.extend_from_slice(digest.as_bytes())?;
    }
    Ok(())
}

fn action_text(alloc: Global, action: LineAction) -> Result<Vec<u8>, AllocError> {
    let mut out = Vec::new(alloc);
    match action {
        LineAction::Continue((next, also)) => {
            out.extend_from_slice(b"Continue")?;
            write_numbers(alloc, &mut out, &[next, also])?;
        }
        LineAction::Break((next, from, goes_on)) => {
            out.extend_from_slice(b"Break")?;
            write_numbers(alloc, &mut out, &[next, from])?;
            out.extend_from_slice(if goes_on { b" true" } else { b" false" })?;
        }
    }
    Ok(out)
}
