//! The calls of a script, ready to be made.
ghost use Rattle.std.specs.Prelude.{◌≡◌, ◌++◌, List, IfOk, OnOk};
ghost use Rattle.std.specs.List.{AllZip};
ghost use Rattle.std.specs.Option.{option_to_list};
ghost use Rattle.cck_files.specs.ArmedCalls.{IsUnarmed};
ghost use Rattle.cck_path.specs.Bytes.{variables_of};
ghost use Rattle.cck_script.specs.Calls.{ScriptCallValue, script_calls, call_after, call_of_command};
ghost use Rattle.cck_script.specs.Lines.{Line};
ghost use Rattle.cck_command.specs.ScriptSeen.{lines_of};
ghost use Rattle.cck_script.specs.Seen.{line_of};
ghost use Rattle.cck_script.specs.Surroundings.{AreAfter, AreFiles, variables};
ghost use Rattle.cck_command.specs.Run.{control_of};
ghost use Rattle.cck_command.specs.Made.{IsReady, IsRunCompiler};

use crate::failed::Failed;
use crate::mini_compiler::MiniCompiler;
use crate::script::Script;
use c_cache_keys::{CCompiler, CacheControl, Call, CompilerArguments};
use cck_files::MapFiles;
use cck_script::{
    Command, EXECUTABLE, ScriptCall, Surroundings, WORKING_DIRECTORY, copy_variables, first_files,
};
use cck_util::HashState;
use std::alloc::Global;

/// Returns the compiler of a script whose zone has this offset, in seconds east of UTC. Its digest
/// is that of the executable before any line of the script.
///
/// [`Failed`] is returned for lack of memory.
pub fn compiler_of<H: HashState>(
    alloc: Global,
    zone_offset: i32,
) -> Result<CCompiler<MiniCompiler>, Failed>
    ensures { IfOk result (IsRunCompiler H.hash zone_offset) }
{
    let mut files = first_files(alloc)?;
    let executable = EXECUTABLE.to_vec(alloc)?;
    let compiler = MiniCompiler { zone_offset };
    Ok(CCompiler::new::<H, MapFiles>(alloc, compiler, executable, &mut files)?)
}

/// Returns the calls that a script asks for, in their order, ready for
/// [`run_calls`](c_cache_keys::run_calls). Each has its own files and variables, as they are at its
/// line. No call on the files is armed to fail.
///
/// [`Failed`] is returned for lack of memory.
pub fn ready_calls(
    alloc: Global,
    compiler: &CCompiler<MiniCompiler>,
    script: Script,
) -> Result<Vec<Call<MiniCompiler, MapFiles>>, Failed>
    ensures { IfOk result (λ calls. AllZip (IsReady compiler.now) (script_calls (lines_of script)) calls.items) }
{
    let mut surroundings = Surroundings::new(alloc)?;
    let mut calls = Vec::new(alloc);
    for command in script.into_commands() {
        push_call(alloc, compiler, &surroundings, &command, &mut calls)?;
        surroundings.follow(alloc, command)?;
    }
    Ok(calls)
}

// Appends the call that a line asks for, if any.
fn push_call(
    alloc: Global,
    compiler: &CCompiler<MiniCompiler>,
    surroundings: &Surroundings,
    command: &Command,
    calls: &mut Vec<Call<MiniCompiler, MapFiles>>,
) -> Result<(), Failed>
    ensures { OnOk result ((earlier : List Line) (asked : List ScriptCallValue) → AreAfter earlier surroundings.now
        → AllZip (IsReady compiler.now) asked calls.old.items
        → AllZip (IsReady compiler.now) (asked ++ option_to_list (call_of_command earlier (line_of command.now))) calls.new.items) }
{
    let Some(asked) = command.call() else {
        return Ok(());
    };
    let files = surroundings.files.copy(alloc)?;
    let vars = copy_variables(alloc, &surroundings.variables)?;
    calls.push(ready_call(alloc, compiler, files, vars, &asked)?)?;
    Ok(())
}

// The call that a script asks for, over these files and variables, ready to be made.
pub(crate) fn ready_call(
    alloc: Global,
    compiler: &CCompiler<MiniCompiler>,
    files: MapFiles,
    vars: Vec<(Vec<u8>, Vec<u8>)>,
    asked: &ScriptCall<'_>,
) -> Result<Call<MiniCompiler, MapFiles>, Failed>
    ensures call { IfOk result (λ ready. (earlier : List Line) → AreFiles earlier files.files
        → files.faults ≡ 0 → IsUnarmed files.armed → variables_of vars.items ≡ variables earlier
        → IsReady compiler.now (call_after earlier asked.now) ready) }
    ensures vars { IfOk result (λ ready. ready.vars ≡ vars) }
{
    let mut files = files;
    let parsed = compiler.parse_arguments(
        alloc,
        &mut files,
        asked.arguments,
        WORKING_DIRECTORY,
        &vars,
    )?;
    // The first argument is the input, so it is a compilation.
    let CompilerArguments::Ok(hasher) = parsed else {
        return Err(Failed);
    };
    Ok(Call {
        hasher,
        files,
        cwd: WORKING_DIRECTORY.to_vec(alloc)?,
        vars,
        moment: asked.moment,
        control: control_of(asked.is_recache),
    })
}

// Whether the call may return a stored key.
fn control_of(is_recache: bool) -> CacheControl
    ensures { result ≡ control_of is_recache }
{
    if is_recache {
        CacheControl::ForceRecache
    } else {
        CacheControl::Default
    }
}
