//! Escaped bytes.
ghost use Rattle.std.specs.Prelude.{◌≡◌, ◌++◌, OnOk};
ghost use Rattle.std.specs.List.{position};
ghost use Rattle.cck_path.specs.Escape.{escaped, escaped_byte};
ghost use Rattle.cck_explain_listing.specs.Escaped.{is_escaped};
ghost use Rattle.cck_explain_listing.specs.Quoted.{quoted};

use cck_digest::hex_digit;
use std::alloc::AllocError;

// Appends the escape of a byte.
#[tactic(auto, unfolding(cck_path::specs::Escape::escape_letter))]
fn push_escaped_byte(line: &mut Vec<u8>, byte: u8) -> Result<(), AllocError>
    ensures { OnOk result (line.new.items ≡ line.old.items ++ escaped_byte byte) }
{
    match byte {
        b'\t' => line.extend_from_slice(b"\\t"),
        b'\r' => line.extend_from_slice(b"\\r"),
        b'\n' => line.extend_from_slice(b"\\n"),
        b'\'' | b'"' | b'\\' => line.extend_from_slice(&[b'\\', byte]),
        b' '..=b'~' => line.extend_from_slice(&[byte]),
        _ => line.extend_from_slice(&[b'\\', b'x', hex_digit(byte / 16), hex_digit(byte % 16)]),
    }
}

// Whether the escape of a byte is not this byte itself.
#[tactic(auto, unfolding(cck_path::specs::Escape::escape_letter))]
fn is_escaped(byte: u8) -> bool
    ensures { result ≡ is_escaped byte }
{
    match byte {
        b'\'' | b'"' | b'\\' => true,
        b' '..=b'~' => false,
        _ => true,
    }
}

// The index of the first byte that is escaped.
fn first_escaped(bytes: &[u8]) -> Option<usize>
    ensures { result ≡ position is_escaped bytes.now }
{
    bytes.iter().position(|byte| is_escaped(*byte))
}

/// Appends the escape of these bytes, which [`ascii_unescape_default`](cck_path::ascii_unescape_default)
/// undoes: the bytes from 32 to 126 as themselves, but for a `\` before `'`, `"` and `\`; `\t`,
/// `\r` and `\n`; and all others as `\x` and their two hexadecimal digits.
///
/// The only error is lack of memory. What was appended is then unspecified.
pub fn push_escaped(line: &mut Vec<u8>, bytes: &[u8]) -> Result<(), AllocError>
    ensures { OnOk result (line.new.items ≡ line.old.items ++ escaped bytes.now) }
{
    let mut rest = bytes;
    while let Some(at) = first_escaped(rest) {
        line.extend_from_slice(&rest[..at])?;
        push_escaped_byte(line, rest[at])?;
        rest = &rest[at + 1..];
    }
    line.extend_from_slice(rest)?;
    Ok(())
}

/// Appends the escape of these bytes between quotation marks.
///
/// The only error is lack of memory. What was appended is then unspecified.
pub fn push_quoted(line: &mut Vec<u8>, bytes: &[u8]) -> Result<(), AllocError>
    ensures { OnOk result (line.new.items ≡ line.old.items ++ quoted bytes.now) }
{
    line.push(b'"')?;
    push_escaped(line, bytes)?;
    line.push(b'"')?;
    Ok(())
}
