//! A buffer before a writer.
ghost use Rattle.std.specs.Prelude.{[], OnErr, OnOk};
ghost use Rattle.cck_command.specs.Printing.{AppendsBeginning};
ghost use Rattle.cck_explain.specs.Buffer.{PutsWaiting};

use crate::error::ExplainError;
use cck_command::print;
use std::io::Write;

// The number of bytes from which on a buffer is written.
const BUFFER_SIZE: usize = 65536;

/// Writes what the buffer holds and empties it, where it holds 65536 bytes or more.
///
/// The only error is [`ExplainError::Write`]. A prefix of what the buffer holds is then written.
pub fn spill<W: Write>(writer: &mut W, buffer: &mut Vec<u8>) -> Result<(), ExplainError>
    ensures put { OnOk result (PutsWaiting (W.contents writer.old) buffer.old.items
        (W.contents writer.new) buffer.new.items []) }
    ensures begun { OnErr result (AppendsBeginning (W.contents writer.old) (W.contents writer.new) buffer.old.items) }
{
    if buffer.len() >= BUFFER_SIZE {
        print(writer, buffer)?;
        buffer.clear();
    }
    Ok(())
}
