//! Scripts.
use crate::cases::{CaseError, end_line, number};
use crate::script_cases::commands::{
    write_call, write_command, write_list, write_number, write_offset,
};
use crate::script_cases::places::write_surroundings;
use cck_command::{RunOptions, Script, ScriptError};
use cck_script::Surroundings;
use cck_util::UtilError;
use std::alloc::{AllocError, Global};

#[derive(Clone, Copy)]
pub(crate) enum ScriptTextCall {
    Parse,
    Calls,
    Options,
    Surroundings,
    ErrorText,
}

pub(crate) const CALLS: [(&str, ScriptTextCall); 5] = [
    ("parse", ScriptTextCall::Parse),
    ("calls", ScriptTextCall::Calls),
    ("options", ScriptTextCall::Options),
    ("surroundings", ScriptTextCall::Surroundings),
    ("script_error_text", ScriptTextCall::ErrorText),
];

/// Makes a call on the script of this text, and writes its result.
pub(crate) fn write(
    call: ScriptTextCall,
    alloc: Global,
    out: &mut Vec<u8>,
    text: &[u8],
    rest: &str,
) -> Result<(), CaseError> {
    match Script::parse(alloc, text) {
        Ok(script) => write_of_script(call, alloc, out, script, rest),
        Err(ScriptError::Memory) => Err(CaseError::Util(UtilError::Memory)),
        Err(error) => Ok(write_error(call, alloc, out, error)?),
    }
}

fn write_of_script(
    call: ScriptTextCall,
    alloc: Global,
    out: &mut Vec<u8>,
    script: Script,
    rest: &str,
) -> Result<(), CaseError> {
    if let ScriptTextCall::Surroundings = call {
        return write_at_call(alloc, out, script, rest);
    }
    Ok(write_lines(call, alloc, out, &script)?)
}

fn write_lines(
    call: ScriptTextCall,
    alloc: Global,
    out: &mut Vec<u8>,
    script: &Script,
) -> Result<(), AllocError> {
    match call {
        ScriptTextCall::Calls => write_calls(alloc, out, script),
        ScriptTextCall::Options => write_options(alloc, out, &script.options(alloc)?),
        _ => write_commands(alloc, out, script),
    }
}

fn write_error(
    call: ScriptTextCall,
    alloc: Global,
    out: &mut Vec<u8>,
    error: ScriptError,
) -> Result<(), AllocError> {
    let text = match call {
        ScriptTextCall::ErrorText => format!(in alloc; "{error}")?,
        _ => format!(in alloc; "error {error:?}")?,
    };
    out.extend_from_slice(text.as_bytes())
}

fn write_commands(alloc: Global, out: &mut Vec<u8>, script: &Script) -> Result<(), AllocError> {
    for command in script.commands() {
        end_line(out)?;
        write_command(alloc, out, command)?;
    }
    Ok(())
}

fn write_calls(alloc: Global, out: &mut Vec<u8>, script: &Script) -> Result<(), AllocError> {
    for command in script.commands() {
        if let Some(call) = command.call() {
            end_line(out)?;
            let name: &[u8] = if call.is_recache {
                b"recache"
            } else {
                b"cached"
            };
            write_call(alloc, out, name, call.moment, call.arguments)?;
        }
    }
    Ok(())
}

fn write_options(alloc: Global, out: &mut Vec<u8>, options: &RunOptions) -> Result<(), AllocError> {
    out.extend_from_slice(b"zone")?;
    write_offset(alloc, out, options.zone_offset)?;
    out.extend_from_slice(b"\nbasedirs")?;
    write_list(out, &options.basedirs)?;
    if let Some(count) = options.forget_at {
        out.push(b'\n')?;
        write_number(alloc, out, "forget ", count)?;
    }
    if let Some(count) = options.fail_at {
        out.push(b'\n')?;
        write_number(alloc, out, "fail ", count)?;
    }
    Ok(())
}

// `surroundings N PATH..`: what is at these paths, and the variables, at the call of this
// number, counted from 0, or after all lines.
fn write_at_call(
    alloc: Global,
    out: &mut Vec<u8>,
    script: Script,
    rest: &str,
) -> Result<(), CaseError> {
    let (before, paths) = rest.split_once(' ').unwrap_or((rest, ""));
    let mut surroundings = surroundings_at(alloc, script, number(before)?)?;
    write_surroundings(alloc, out, paths, &mut surroundings)
}

// The surroundings after so many calls, or after all lines.
fn surroundings_at(alloc: Global, script: Script, before: u64) -> Result<Surroundings, AllocError> {
    let mut surroundings = Surroundings::new(alloc)?;
    follow(alloc, script, before, &mut surroundings)?;
    Ok(surroundings)
}

fn follow(
    alloc: Global,
    script: Script,
    before: u64,
    surroundings: &mut Surroundings,
) -> Result<(), AllocError> {
    let mut left = before;
    for command in script.into_commands() {
        if command.call().is_some() {
            if left == 0 {
                break;
            }
            left -= 1;
        }
        surroundings.follow(alloc, command)?;
    }
    Ok(())
}
