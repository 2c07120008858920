//! The calls of a script, made one after another.
ghost use Rattle.std.specs.Prelude.{◌≡◌, ◌∷◌, [], List, ℤ, IfOk};
ghost use Rattle.std.specs.Option.{option_to_list, unwrap_or};
ghost use Rattle.cck_files.specs.ArmedCalls.{new_armed};
ghost use Rattle.cck_path.specs.Bytes.{lists_of};
ghost use Rattle.cck_util.specs.MapStore.{empty_state};
ghost use Rattle.jiff.specs.Words.{plain_zone};
ghost use Rattle.cck_script.specs.Calls.{call_after, call_of_command};
ghost use Rattle.cck_script.specs.Lines.{Line};
ghost use Rattle.cck_command.specs.ScriptSeen.{lines_of};
ghost use Rattle.cck_script.specs.Seen.{line_of};
ghost use Rattle.cck_script.specs.Surroundings.{AreAfter};
ghost use Rattle.cck_include.specs.Config.{activated};
ghost use Rattle.cck_hasher.specs.World.{world_of};
ghost use Rattle.cck_command.specs.MiniCompiler.{mini_compiler};
ghost use Rattle.cck_command.specs.Run.{Ran};
ghost use Rattle.cck_command.specs.Made.{AreMade, IsRunCompiler};

use crate::calls::{compiler_of, ready_call};
use crate::failed::Failed;
use crate::mini_compiler::MiniCompiler;
use crate::result_lines::add_result_lines;
use crate::script::Script;
use c_cache_keys::{CCompiler, Call, MapStore, run_calls};
use cck_files::MapFiles;
use cck_include::{PreprocessorCacheModeConfig, zone_at};
use cck_script::{Command, ScriptCall, Surroundings};
use cck_util::HashState;
use jiff::tz::TimeZone;
use std::alloc::Global;

/// Makes the calls of a script in their order, on a store that is empty at first. Returns one line
/// for each call, as [`add_result_lines`] writes it.
///
/// One map of files and one list of variables follow the script line by line. Each call is made
/// over them as they are at its line. What a line puts or sets is moved from the script to them.
/// [`Failed`] is returned for lack of memory.
///
/// The theorem [`laws::headline`](c_cache_keys::laws::headline) holds for all these calls together,
/// since the store is empty at first. The contract of [`run_calls`] gives it only for the one call
/// of a line.
pub fn run_script<H: HashState>(alloc: Global, script: Script) -> Result<Vec<u8>, Failed>
    ensures { IfOk result (λ printed. Ran H.hash (lines_of script) printed.items) }
{
    let options = script.options(alloc)?;
    let mut store = store_of(alloc, options.forget_at, options.fail_at);
    let compiler = compiler_of::<H>(alloc, options.zone_offset)?;
    let Some(zone) = zone_at(options.zone_offset) else {
        return Err(Failed);
    };
    let context = RunContext {
        compiler,
        zone,
        basedirs: options.basedirs,
    };
    let mut surroundings = Surroundings::new(alloc)?;
    let mut printed = Vec::new(alloc);
    for command in script.into_commands() {
        surroundings = follow_line::<H>(
            alloc,
            &context,
            &mut store,
            surroundings,
            command,
            &mut printed,
        )?;
    }
    Ok(printed)
}

// What is the same for all calls of a run.
#[derive(Drop)]
struct RunContext {
    compiler: CCompiler<MiniCompiler>,
    zone: TimeZone<'static>,
    basedirs: Vec<Vec<u8>>,
}

// Makes the call that a line asks for, if any, and then applies the line to the files and
// variables.
fn follow_line<H: HashState>(
    alloc: Global,
    context: &RunContext,
    store: &mut MapStore,
    surroundings: Surroundings,
    command: Command,
    printed: &mut Vec<u8>,
) -> Result<Surroundings, Failed>
    ensures after { IfOk result (λ after. (earlier : List Line) → AreAfter earlier surroundings
        → AreAfter (line_of command ∷ earlier) after) }
    ensures made { IfOk result (λ after. (zone : ℤ) (earlier : List Line) → IsRunCompiler H.hash zone context.now.compiler
        → AreAfter earlier surroundings
        → AreMade H.hash zone (world_of H.hash mini_compiler (plain_zone context.now.zone) activated (lists_of context.now.basedirs.items))
        (option_to_list (call_of_command earlier (line_of command))) store.old store.new printed.old.items printed.new.items) }
{
    let mut after = match command.call() {
        Some(asked) => make_call::<H>(alloc, context, store, surroundings, &asked, printed)?,
        None => surroundings,
    };
    after.follow(alloc, command)?;
    Ok(after)
}

// Makes a call over these files and variables and appends its line to `printed`. Returns the files
// and variables.
fn make_call<H: HashState>(
    alloc: Global,
    context: &RunContext,
    store: &mut MapStore,
    surroundings: Surroundings,
    asked: &ScriptCall<'_>,
    printed: &mut Vec<u8>,
) -> Result<Surroundings, Failed>
    ensures after { IfOk result (λ after. (earlier : List Line) → AreAfter earlier surroundings → AreAfter earlier after) }
    ensures made { IfOk result (λ after. (zone : ℤ) (earlier : List Line) → IsRunCompiler H.hash zone context.now.compiler
        → AreAfter earlier surroundings
        → AreMade H.hash zone (world_of H.hash mini_compiler (plain_zone context.now.zone) activated (lists_of context.now.basedirs.items))
        (call_after earlier asked.now ∷ []) store.old store.new printed.old.items printed.new.items) }
{
    let Surroundings {
        files,
        variables,
        places,
    } = surroundings;
    let ready = ready_call(alloc, &context.compiler, files, variables, asked)?;
    let mut calls = Vec::new(alloc);
    calls.push(ready)?;
    let config = PreprocessorCacheModeConfig::activated();
    let call_results = run_calls::<H, MiniCompiler, MapFiles, MapStore>(
        alloc,
        store,
        &context.zone,
        config,
        &context.basedirs,
        &mut calls,
    )?;
    add_result_lines(alloc, printed, &call_results)?;
    // `calls` holds the one call that was pushed.
    let Some(made) = calls.pop() else {
        return Err(Failed);
    };
    let Call { files, vars, .. } = made;
    Ok(Surroundings {
        files,
        variables: vars,
        places,
    })
}

/// Returns an empty store that loses all that it holds when the get or put whose number is `forget_at`
/// begins, and fails at the one whose number is `fail_at`, both counted from 1. It allocates no memory.
pub fn store_of(alloc: Global, forget_at: Option<u64>, fail_at: Option<u64>) -> MapStore
    ensures { result ≡ record empty_state {
      forget = unwrap_or forget_at 0;
      armed = record new_armed { one = unwrap_or fail_at 0 };
    } }
{
    let mut store = MapStore::new(alloc);
    if let Some(n) = forget_at {
        store.forget_at(n);
    }
    if let Some(n) = fail_at {
        store.fail_at(n);
    }
    store
}
