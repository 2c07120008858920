//! Writing bytes, and what is written after an error.
ghost use Rattle.std.specs.Prelude.{OnErr, OnOk};
ghost use Rattle.std.specs.Io.KnownBytes.{Appends};
ghost use Rattle.cck_command.specs.Printing.{AppendsBeginning};

use crate::failed::Failed;
use std::io::{ErrorKind, Write};

/// Writes all of these bytes and flushes the writer. An interrupted write is tried again.
///
/// [`Failed`] is returned if a write or the flush failed, or if a write took no bytes. A prefix of
/// the bytes is then written, which may be empty or all of them.
///
/// [`engine`](crate::engine) writes so, and it is public for the program `cck_explain`, which writes
/// its listings and its messages so too.
pub fn print<W: Write>(writer: &mut W, bytes: &[u8]) -> Result<(), Failed>
    ensures whole { OnOk result (Appends (W.contents writer.old) (W.contents writer.new) bytes.now) }
    ensures begun { AppendsBeginning (W.contents writer.old) (W.contents writer.new) bytes.now }
{
    write_bytes(writer, bytes)?;
    match writer.flush() {
        Ok(()) => Ok(()),
        Err(_) => Err(Failed),
    }
}

// Writes all of these bytes, as `write_all` does. The contract of `write_all` doesn't say what is
// written after an error.
fn write_bytes<W: Write>(writer: &mut W, bytes: &[u8]) -> Result<(), Failed>
    ensures whole { OnOk result (Appends (W.contents writer.old) (W.contents writer.new) bytes.now) }
    ensures begun { OnErr result (AppendsBeginning (W.contents writer.old) (W.contents writer.new) bytes.now) }
{
    let mut written = 0;
    for _ in 0..u64::MAX {
        if written == bytes.len() {
            return Ok(());
        }
        match writer.write(&bytes[written..]) {
            Ok(0) => return Err(Failed),
            Ok(taken) => written += taken,
            Err(error) => {
                if error.kind() != ErrorKind::Interrupted {
                    return Err(Failed);
                }
            }
        }
    }
    Err(Failed)
}
