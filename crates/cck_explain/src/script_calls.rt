//! The calls of a script, made one after another, and what each did.
ghost use Rattle.std.specs.Prelude.{◌≡◌, ◌+◌, ◌∷◌, ◌++◌, [], ℤ, List, IfErr, IfOk, None, OnOk, length};
ghost use Rattle.cck_path.specs.Bytes.{lists_of};
ghost use Rattle.cck_files.specs.FileState.{IsQuiet, fault_count};
ghost use Rattle.cck_include.specs.Setting.{setting_in};
ghost use Rattle.cck_util.specs.MapStore.{State};
ghost use Rattle.cck_util.specs.Store.{counted};
ghost use Rattle.jiff.specs.Words.{plain_zone};
ghost use Rattle.cck_script.specs.Calls.{ScriptCallValue};
ghost use Rattle.cck_command.specs.Script.{IsScriptError, commands_of, wrong_line};
ghost use Rattle.cck_command.specs.ScriptSeen.{lines_of};
ghost use Rattle.cck_include.specs.Config.{activated};
ghost use Rattle.cck_hasher.specs.World.{world_of};
ghost use Rattle.cck_command.specs.MiniCompiler.{mini_compiler};
ghost use Rattle.cck_command.specs.Made.{IsReady, IsRunCompiler};
ghost use Rattle.c_cache_keys.specs.declared.c_compiler.CCompiler.{CCompiler};
ghost use Rattle.cck_command.specs.declared.mini_compiler.MiniCompiler.{MiniCompiler as MiniCompilerValue};
ghost use Rattle.cck_explain.specs.Judged.{IsCalm};
ghost use Rattle.cck_explain.specs.ScriptListing.{AreNoted, IsScriptListing};
ghost use Rattle.cck_explain.specs.Note.{IsNote};

use crate::note::{push_head, push_note};
use crate::watched_store::WatchedStore;
use c_cache_keys::{Call, run_calls};
use cck_command::{
    Failed, MiniCompiler, Script, ScriptError, add_result_lines, compiler_of, ready_calls, store_of,
};
use cck_files::MapFiles;
use cck_include::{JudgeContext, PreprocessorCacheModeConfig, zone_at};
use cck_util::HashState;
use jiff::tz::TimeZone;
use std::alloc::{AllocError, Global};

// What is the same for all calls of a run.
#[derive(Drop)]
struct ListingContext {
    zone: TimeZone<'static>,
    basedirs: Vec<Vec<u8>>,
}

// Returns the note of a call that was made on this store.
fn note_of<H: HashState>(
    alloc: Global,
    context: &ListingContext,
    store: &mut WatchedStore,
    number: u64,
    made: &mut Call<MiniCompiler, MapFiles>,
) -> Result<Vec<u8>, AllocError>
    ensures store { store.new ≡ store.old }
    ensures note { let s = setting_in H.hash activated made.old.moment (plain_zone context.now.zone) made.old.vars.items in
        IsCalm fault_count IsQuiet made.old.files
        → IfOk result (λ note. IsNote s made.old.files.files number made.old.hasher.parsed_args.input.items note.items) }
{
    let calls = store.take_calls(alloc)?;
    let mut note = Vec::new(alloc);
    push_head(alloc, &mut note, number, &made.hasher.parsed_args.input)?;
    let judge_context = JudgeContext {
        moment: made.moment,
        zone: &context.zone,
        vars: &made.vars,
        config: PreprocessorCacheModeConfig::activated(),
    };
    push_note::<H, MapFiles>(alloc, &mut note, &calls, &mut made.files, &judge_context)?;
    Ok(note)
}

// Makes a call, and appends what it did and its result.
fn explain_call<H: HashState>(
    alloc: Global,
    context: &ListingContext,
    store: &mut WatchedStore,
    number: u64,
    call: Call<MiniCompiler, MapFiles>,
    listing: &mut Vec<u8>,
) -> Result<(), Failed>
    ensures { OnOk result ((zone : ℤ) (compiler : CCompiler MiniCompilerValue) (front : List ScriptCallValue) (asked : ScriptCallValue)
        (start : State) → IsRunCompiler H.hash zone compiler → IsReady compiler asked call → number ≡ counted (length front + 1) →
        let w = world_of H.hash mini_compiler (plain_zone context.now.zone) activated (lists_of context.now.basedirs.items) in
        AreNoted H.hash zone w front start store.old listing.old.items
        → AreNoted H.hash zone w (front ++ asked ∷ []) start store.new listing.new.items) }
{
    let mut calls = Vec::new(alloc);
    calls.push(call)?;
    let config = PreprocessorCacheModeConfig::activated();
    let call_results = run_calls::<H, MiniCompiler, MapFiles, WatchedStore>(
        alloc,
        store,
        &context.zone,
        config,
        &context.basedirs,
        &mut calls,
    )?;
    // `calls` holds the one call that was pushed.
    let Some(mut made) = calls.pop() else {
        return Err(Failed);
    };
    let note = note_of::<H>(alloc, context, store, number, &mut made)?;
    listing.extend_from_slice(&note)?;
    add_result_lines(alloc, listing, &call_results)?;
    Ok(())
}

// Makes the calls of a script in their order, and returns what each did.
fn explain_calls<H: HashState>(alloc: Global, script: Script) -> Result<Vec<u8>, Failed>
    ensures { IfOk result (λ listing. IsScriptListing H.hash (lines_of script) listing.items) }
{
    let options = script.options(alloc)?;
    let mut store = WatchedStore::new(alloc, store_of(alloc, options.forget_at, options.fail_at));
    let compiler = compiler_of::<H>(alloc, options.zone_offset)?;
    let Some(zone) = zone_at(options.zone_offset) else {
        return Err(Failed);
    };
    let context = ListingContext {
        zone,
        basedirs: options.basedirs,
    };
    let calls = ready_calls(alloc, &compiler, script)?;
    let mut listing = Vec::new(alloc);
    let mut number: u64 = 0;
    for call in calls {
        number = number.saturating_add(1);
        explain_call::<H>(alloc, &context, &mut store, number, call, &mut listing)?;
    }
    Ok(listing)
}

/// Reads a script, makes its calls in their order, and returns what each did: its number and input; its
/// preprocessor key, or `-` where the store was not called; what the store returned; for each result of
/// a returned entry, from the greatest key down, whether all its includes match, and each that does
/// not with its [difference](crate::difference::Difference); what was put; and the line that `cck run` prints for
/// the call.
///
/// The errors are those of [`Script::parse`]: a wrong line, or lack of memory.
pub fn script_listing<H: HashState>(alloc: Global, text: &[u8]) -> Result<Vec<u8>, ScriptError>
    ensures listed { IfOk result (λ listing.
        (wrong_line text.now ≡ None) × IsScriptListing H.hash (commands_of text.now) listing.items) }
    ensures errors { IfErr result (IsScriptError text.now) }
{
    let script = Script::parse(alloc, text)?;
    match explain_calls::<H>(alloc, script) {
        Ok(listing) => Ok(listing),
        Err(Failed) => Err(ScriptError::Memory),
    }
}
