//! Line markers and marks of texts.
use crate::cases::{CaseError, Value, end_line, write_numbers};
use cck_digest::{Digest, Sha256State};
use cck_include::{Line, Mark, Markers, read_line};
use std::alloc::{AllocError, Global};

#[derive(Clone, Copy)]
pub(crate) enum MarkerCall {
    Marks,
    DigestOfMarks,
    Line,
    MarksOfTexts,
    LinesOfTexts,
}

pub(crate) const CALLS: [(&str, MarkerCall); 5] = [
    ("marks", MarkerCall::Marks),
    ("digest_of_marks", MarkerCall::DigestOfMarks),
    ("read_line", MarkerCall::Line),
    ("marks_of_texts", MarkerCall::MarksOfTexts),
    ("lines_of_texts", MarkerCall::LinesOfTexts),
];

/// Makes a call. For generated texts it returns one digest: that of all results, each with an LF
/// after it.
pub(crate) fn call<'a>(
    call: MarkerCall,
    alloc: Global,
    texts: &[Vec<u8>],
    text: &[u8],
) -> Result<Value<'a>, CaseError> {
    let mut out = Vec::new(alloc);
    match call {
        MarkerCall::Marks => write_marks(&mut out, text)?,
        MarkerCall::DigestOfMarks => {
            write_marks(&mut out, text)?;
            let mut digest = Digest::<Sha256State>::new();
            digest.update(&out);
            return Ok(Value::Text(digest.finish(alloc)?));
        }
        MarkerCall::Line => write_line(alloc, &mut out, text)?,
        MarkerCall::MarksOfTexts => return Ok(Value::Text(digest_of_marks(alloc, texts)?)),
        MarkerCall::LinesOfTexts => return Ok(Value::Text(digest_of_lines(alloc, texts)?)),
    }
    Ok(Value::Bytes(out))
}

fn digest_of_marks(alloc: Global, texts: &[Vec<u8>]) -> Result<String, CaseError> {
    let mut digest = Digest::<Sha256State>::new();
    let mut out = Vec::new(alloc);
    for text in texts {
        out.clear();
        write_marks(&mut out, text)?;
        out.push(b'\n')?;
        digest.update(&out);
    }
    Ok(digest.finish(alloc)?)
}

fn digest_of_lines(alloc: Global, texts: &[Vec<u8>]) -> Result<String, CaseError> {
    let mut digest = Digest::<Sha256State>::new();
    let mut out = Vec::new(alloc);
    for text in texts {
        out.clear();
        write_line(alloc, &mut out, text)?;
        out.push(b'\n')?;
        digest.update(&out);
    }
    Ok(digest.finish(alloc)?)
}

// Writes the marks of a text, one in each line.
fn write_marks(out: &mut Vec<u8>, text: &[u8]) -> Result<(), AllocError> {
    for mark in Markers::new(text) {
        end_line(out)?;
        match mark {
            Mark::Name { name, is_system } => {
                out.extend_from_slice(if is_system { b"system " } else { b"name " })?;
                out.extend_from_slice(name)?;
            }
            Mark::Refusal => out.extend_from_slice(b"refusal")?,
            Mark::Malformed => out.extend_from_slice(b"malformed")?,
        }
    }
    Ok(())
}

// Writes what a line marker says, and its places.
fn write_line(alloc: Global, out: &mut Vec<u8>, text: &[u8]) -> Result<(), AllocError> {
    match read_line(text) {
        Line::Unnamed { end } => {
            out.extend_from_slice(b"unnamed")?;
            write_numbers(alloc, out, &[end])
        }
        Line::Named {
            begin,
            end,
            name,
            is_system,
        } => {
            out.extend_from_slice(if is_system { b"system" } else { b"name" })?;
            write_numbers(alloc, out, &[begin, end])?;
            out.push(b' ')?;
            out.extend_from_slice(name)
        }
        Line::Malformed => out.extend_from_slice(b"malformed"),
    }
}
