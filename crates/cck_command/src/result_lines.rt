//! The lines that are printed for the results of calls and for wrong scripts.
ghost use Rattle.std.specs.Prelude.{◌≡◌, ◌++◌, IfOk, OnOk, map, string_bytes};
ghost use Rattle.std.specs.List.{flat_map};
ghost use Rattle.cck_hasher.specs.Call.{Keyed, ReturnsError};
ghost use Rattle.cck_hasher.specs.Seen.{result_of, why_of};
ghost use Rattle.cck_command.specs.Run.{result_line, wrong_text};

use crate::failed::Failed;
use c_cache_keys::{HashResult, KeyError};
use std::alloc::Global;

/// Appends one line for each result of a call, in their order: `hit KEY` for a stored key,
/// `miss KEY` for a computed key, and `error N` for an error with the number N.
///
/// [`Failed`] is returned for lack of memory; what was appended is then unspecified.
pub fn add_result_lines(
    alloc: Global,
    lines: &mut Vec<u8>,
    call_results: &[Result<HashResult, KeyError>],
) -> Result<(), Failed>
    ensures { OnOk result (lines.new.items
        ≡ lines.old.items ++ flat_map result_line (map result_of call_results.now)) }
{
    for call_result in call_results {
        match call_result {
            Ok(found) => push_key(lines, found)?,
            Err(error) => push_error(alloc, lines, *error)?,
        }
    }
    Ok(())
}

// Appends the line of a key.
fn push_key(lines: &mut Vec<u8>, found: &HashResult) -> Result<(), Failed>
    ensures { OnOk result
        (lines.new.items ≡ lines.old.items ++ result_line (Keyed (string_bytes found.now.key) found.now.is_locally_preprocessed)) }
{
    if found.is_locally_preprocessed {
        lines.extend_from_slice(b"miss ")?;
    } else {
        lines.extend_from_slice(b"hit ")?;
    }
    lines.extend_from_slice(found.key.as_bytes())?;
    lines.push(b'\n')?;
    Ok(())
}

// Appends the line of an error.
fn push_error(alloc: Global, lines: &mut Vec<u8>, error: KeyError) -> Result<(), Failed>
    ensures { OnOk result
        (lines.new.items ≡ lines.old.items ++ result_line (ReturnsError (why_of error))) }
{
    let number = error.number();
    let line = format!(in alloc; "error {number}\n")?;
    lines.extend_from_slice(line.as_bytes())?;
    Ok(())
}

/// Returns the line for a script whose first wrong line has this number: `cck: line N`.
///
/// [`Failed`] is returned for lack of memory.
pub fn wrong_text(alloc: Global, number: u64) -> Result<String, Failed>
    ensures { IfOk result (λ line. string_bytes line ≡ wrong_text number) }
{
    Ok(format!(in alloc; "cck: line {number}\n")?)
}
