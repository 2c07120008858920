//! Arguments as a POSIX shell reads them back.
ghost use Rattle.std.specs.Prelude.{◌≡◌, ◌++◌, OnOk, map};
ghost use Rattle.cck_cache_options.specs.Call.{keyed_argument};
ghost use Rattle.cck_cache_options.specs.Quote.{preprocessor_argument, preprocessor_command, quoted, quoted_and_space, quoted_byte};

use crate::call::{Keyed, is_preprocessed};
use std::alloc::AllocError;

// Appends what is written for a byte between single quotes.
fn push_byte(out: &mut Vec<u8>, byte: u8) -> Result<(), AllocError>
    ensures { OnOk result (out.new.items ≡ out.old.items ++ quoted_byte byte) }
{
    if byte == b'\'' {
        out.extend_from_slice(b"'\\''")
    } else {
        Ok(out.push(byte)?)
    }
}

// Appends an argument between single quotes, each single quote of its own as `'\''`.
fn push_quoted(out: &mut Vec<u8>, argument: &[u8]) -> Result<(), AllocError>
    ensures { OnOk result (out.new.items ≡ out.old.items ++ quoted argument.now) }
{
    out.push(b'\'')?;
    for byte in argument {
        push_byte(out, *byte)?;
    }
    Ok(out.push(b'\'')?)
}

/// Appends a word of a shell's command line, as POSIX has it: an argument between single quotes, each
/// single quote of its own as `'\''`, and a space.
///
/// The only error is lack of memory.
pub fn push_word(out: &mut Vec<u8>, argument: &[u8]) -> Result<(), AllocError>
    ensures { OnOk result (out.new.items ≡ out.old.items ++ quoted_and_space argument.now) }
{
    push_quoted(out, argument)?;
    Ok(out.push(b' ')?)
}

// Appends an argument if the preprocessor has those of its option.
fn push_preprocessor_argument(out: &mut Vec<u8>, keyed: &Keyed<'_>) -> Result<(), AllocError>
    ensures { OnOk result (out.new.items ≡ out.old.items ++ preprocessor_argument (keyed_argument keyed.now)) }
{
    if is_preprocessed(keyed.class) {
        push_word(out, keyed.argument)?;
    }
    Ok(())
}

/// Appends those arguments that the preprocessor has, each as [`push_word`] does. They are all that count
/// in a key, but for those of a dependency file and those of the compiler's messages alone.
///
/// The only error is lack of memory.
pub fn push_preprocessor_arguments(
    out: &mut Vec<u8>,
    arguments: &[Keyed<'_>],
) -> Result<(), AllocError>
    ensures { OnOk result (out.new.items ≡ out.old.items ++ preprocessor_command (map keyed_argument arguments.now)) }
{
    for argument in arguments {
        push_preprocessor_argument(out, argument)?;
    }
    Ok(())
}
