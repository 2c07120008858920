//! Calls for keys, in order on one store.
ghost use Rattle.std.specs.Prelude.{◌≡◌, IfOk, IsOkUnless, OnErr, length, map};
ghost use Rattle.std.specs.List.{AllZip};
ghost use Rattle.cck_path.specs.Bytes.{lists_of};
ghost use Rattle.jiff.specs.Words.{plain_zone};
ghost use Rattle.cck_hasher.specs.Call.{calls_of};
ghost use Rattle.c_cache_keys.specs.Calls.{AreReturned, IsAfter, done_all};
ghost use Rattle.c_cache_keys.specs.Laws.{AllReturnStored, IsTransparent};
ghost use Rattle.c_cache_keys.specs.Premises.{Premises};
ghost use Rattle.cck_hasher.specs.Seen.{result_of};
ghost use Rattle.cck_hasher.specs.Step.{IsEmpty, Run};
ghost use Rattle.cck_hasher.specs.World.{world_of};

use cck_compiler::{CCompilerImpl, KeyError};
use cck_digest::{HashState, UtilError};
use cck_files::Files;
use cck_hasher::{CCompilerHasher, CacheControl, HashResult};
use cck_include::PreprocessorCacheModeConfig;
use cck_path::Timestamp;
use cck_util::PreprocessorStore;
use jiff::tz::TimeZone;
use std::alloc::Global;

/// A call for the key of a compilation.
#[derive(Drop)]
pub struct Call<I, F> {
    /// The compilation.
    pub hasher: CCompilerHasher<I>,
    /// The files of the call.
    pub files: F,
    /// The working directory.
    pub cwd: Vec<u8>,
    /// The variables of the environment, as pairs of a name and a value.
    pub vars: Vec<(Vec<u8>, Vec<u8>)>,
    /// The call time: when the call begins.
    pub moment: Timestamp,
    /// Whether a stored key may be returned.
    pub control: CacheControl,
}

/// Makes these calls in order on one store, and returns their results in the same order.
///
/// The headline has two halves. First: on a store that is empty at first, each key that is
/// returned, from the store or computed, is the plain key of its call. And no call returns an error
/// because of what the store returned. This holds if
///
/// - no two different strings that may be hashed have one digest;
/// - a preprocessor prints the same text again for a later call that agrees with the first one, on
///   the same input and the same included files. Calls agree in all that the preprocessor key has
///   of a request, and in the working directory;
/// - the options that let a changed file count as unchanged are off;
/// - calls with one preprocessor key are of one request, if
///   [`hash_working_directory`](PreprocessorCacheModeConfig::hash_working_directory) is off. If it
///   is on, this is not asked;
/// - the store returns only what was put under the key. The store's interface demands it, so it is
///   no extra condition here. The store may lose entries, fail and run out of memory at any time.
///
/// Second: on any store, whether these hold or not, a stored key that matches is returned, whatever
/// a preprocessor would print, if
///
/// - the call can hit: it may use the store, has a preprocessor key, met no fault and had enough
///   memory;
/// - the store returned an entry with a key whose included files are all unchanged. The greatest
///   such key is returned, and nothing is put.
///
/// Such a call asks the store once. If the store returned nothing, the call computes its key, and if
/// the store failed, the call returns that error.
///
/// A call comes back as it was passed, but for its files: these are in the state that the calls on
/// them left. Each result is that of [`generate_hash_key`](CCompilerHasher::generate_hash_key) on the
/// store that the calls before it left. The only error is [`UtilError::Memory`], and then no call was
/// made.
pub fn run_calls<H: HashState, I: CCompilerImpl, F: Files, S: PreprocessorStore>(
    alloc: Global,
    store: &mut S,
    zone: &TimeZone<'_>,
    config: PreprocessorCacheModeConfig,
    basedirs: &[Vec<u8>],
    calls: &mut [Call<I, F>],
) -> Result<Vec<Result<HashResult, KeyError>>, UtilError>
    ensures results_returned { IfOk result (λ call_results.
        let w = world_of H.hash I.compiler (plain_zone zone.now) config (lists_of basedirs.now) in
        AreReturned I.value F.file_map F.faults w S.store store.old calls.old calls.new call_results.items store.new) }
    ensures run { IfOk result (λ call_results.
        let w = world_of H.hash I.compiler (plain_zone zone.now) config (lists_of basedirs.now) in
        Run w S.store store.old (done_all I.value F.file_map F.faults calls.old calls.new) (map result_of call_results.items) store.new) }
    ensures headline { IfOk result (λ call_results.
        let w = world_of H.hash I.compiler (plain_zone zone.now) config (lists_of basedirs.now) in
        let made = calls_of (done_all I.value F.file_map F.faults calls.old calls.new) in
        IsEmpty w S.store store.old → Premises w made → AllZip (IsTransparent w) made (map result_of call_results.items)) }
    ensures returned { IfOk result (λ call_results.
        let w = world_of H.hash I.compiler (plain_zone zone.now) config (lists_of basedirs.now) in
        AllReturnStored w S.store store.old (done_all I.value F.file_map F.faults calls.old calls.new) (map result_of call_results.items) store.new) }
    ensures each { IfOk result (λ call_results. length call_results.items ≡ length calls.old) }
    ensures keeps { AllZip (IsAfter F.file_map F.faults F.is_quiet) calls.old calls.new }
    ensures errors { IsOkUnless result UtilError.Memory }
    ensures untouched { OnErr result ((calls.new ≡ calls.old) × (store.new ≡ store.old)) }
{
    let mut call_results = Vec::with_capacity(alloc, calls.len())?;
    for call in calls.iter_mut() {
        let call_result = call.hasher.generate_hash_key::<H, F, S>(
            alloc,
            &mut call.files,
            store,
            &call.cwd,
            &call.vars,
            call.moment,
            zone,
            config,
            basedirs,
            call.control,
        );
        call_results.push(call_result)?;
    }
    Ok(call_results)
}
