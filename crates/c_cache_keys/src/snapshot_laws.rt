//! Laws about look-ups and recordings. Each is the contract of a function with an empty body, and
//! holds for every hash function, every store and whatever a preprocessor prints.
ghost use Rattle.std.specs.Prelude.{ℕ, List};
ghost use Rattle.cck_include.specs.declared.config.PreprocessorCacheModeConfig.{PreprocessorCacheModeConfig};
ghost use Rattle.jiff.specs.Types.{TimeZone};
ghost use Rattle.c_cache_keys.specs.Laws.{Headline};
ghost use Rattle.cck_hasher.specs.World.{world_of};
ghost use Rattle.c_cache_keys.specs.External.{Prints, external_compiler};
ghost use Rattle.c_cache_keys.specs.SnapshotLaws.{HeadlineByStatuses, HitOnAnyStore, HitOverAll, HonestTimesCanHold, NoStatusesIsStep, NothingOnAnyStore, OldIsAccepted, RecordingOnAnyStore, RecordingOverAll, StatusesAreMatches, StepIsStep};

use crate::PreprocessorStore;
use cck_digest::HashState;

/// A hit of [`look_up`](crate::look_up), which is one on a store that holds one pair, is a hit on
/// each store that returns the pair's bytes.
pub fn hit_on_any_store<H: HashState, S: PreprocessorStore>()
    ensures { (prints : Prints) (zone : TimeZone) (config : PreprocessorCacheModeConfig) (basedirs : List (List ℕ)) →
        HitOnAnyStore (world_of H.hash (external_compiler prints) zone config basedirs) S.store }
{}

/// A call that asks a store with no statuses is a step: each included file that it accepts is unchanged
/// by its contents.
pub fn no_statuses_is_step<H: HashState, S: PreprocessorStore>()
    ensures { (prints : Prints) (zone : TimeZone) (config : PreprocessorCacheModeConfig) (basedirs : List (List ℕ)) →
        NoStatusesIsStep (world_of H.hash (external_compiler prints) zone config basedirs) S.store }
{}

/// If times are honest, a call that asks a store with right statuses is a step, where the store holds
/// nothing but own pairs of earlier calls.
pub fn step_is_step<H: HashState, S: PreprocessorStore>()
    ensures { (prints : Prints) (zone : TimeZone) (config : PreprocessorCacheModeConfig) (basedirs : List (List ℕ)) →
        StepIsStep (world_of H.hash (external_compiler prints) zone config basedirs) S.store }
{}

/// So of a file that an earlier call recorded a right status accepts no other contents.
pub fn statuses_are_matches<H: HashState>()
    ensures { (prints : Prints) (zone : TimeZone) (config : PreprocessorCacheModeConfig) (basedirs : List (List ℕ)) →
        StatusesAreMatches (world_of H.hash (external_compiler prints) zone config basedirs) }
{}

/// And the headline holds for calls in order that are such hits and recordings: under the premises and
/// honest times, from a store that holds nothing, each key that is returned is the plain key of its call.
pub fn headline_by_statuses<H: HashState, S: PreprocessorStore>()
    ensures { (prints : Prints) (zone : TimeZone) (config : PreprocessorCacheModeConfig) (basedirs : List (List ℕ)) →
        HeadlineByStatuses (world_of H.hash (external_compiler prints) zone config basedirs) S.store }
{}

/// What a call recorded of a file is accepted by the status that the file had, if it has both times and
/// holds no `__DATE__` and no `__TIMESTAMP__`: while the file stays as it is, it is not read.
pub fn old_is_accepted<H: HashState>()
    ensures { (prints : Prints) (zone : TimeZone) (config : PreprocessorCacheModeConfig) (basedirs : List (List ℕ)) →
        OldIsAccepted (world_of H.hash (external_compiler prints) zone config basedirs) }
{}

/// Times can be honest where the premises hold: those of the calls of
/// [`premises_can_hold`](crate::laws::premises_can_hold) are.
pub fn honest_times_can_hold()
    ensures { HonestTimesCanHold }
{}

/// A recording, which is one on a store that holds nothing,
/// is a recording on each store that the entry is put into.
pub fn recording_on_any_store<H: HashState, S: PreprocessorStore>()
    ensures { (prints : Prints) (zone : TimeZone) (config : PreprocessorCacheModeConfig) (basedirs : List (List ℕ)) →
        RecordingOnAnyStore (world_of H.hash (external_compiler prints) zone config basedirs) S.store }
{}

/// A recording that gives no entry is a step on each store, which stays as it is.
pub fn nothing_on_any_store<H: HashState, S: PreprocessorStore>()
    ensures { (prints : Prints) (zone : TimeZone) (config : PreprocessorCacheModeConfig) (basedirs : List (List ℕ)) →
        NothingOnAnyStore (world_of H.hash (external_compiler prints) zone config basedirs) S.store }
{}

/// The headline, for calls in order that are such recordings, and hits with no statuses: under the
/// premises, from a store that holds nothing, each key that is returned is the plain key of its call.
pub fn headline<H: HashState, S: PreprocessorStore>()
    ensures { (prints : Prints) (zone : TimeZone) (config : PreprocessorCacheModeConfig) (basedirs : List (List ℕ)) →
        Headline (world_of H.hash (external_compiler prints) zone config basedirs) S.store }
{}

/// A hit over a snapshot of files, in an entry of one result, is a hit over all of the files. They
/// agree with the snapshot at its paths, and the extra files have the same hex digests.
pub fn hit_over_all<H: HashState>()
    ensures { (prints : Prints) (zone : TimeZone) (config : PreprocessorCacheModeConfig) (basedirs : List (List ℕ)) →
        HitOverAll (world_of H.hash (external_compiler prints) zone config basedirs) }
{}

/// A recording of an entry over a snapshot is a recording of the same entry over all of the files,
/// if the same text is printed over them.
pub fn recording_over_all<H: HashState>()
    ensures { (prints : Prints) (zone : TimeZone) (config : PreprocessorCacheModeConfig) (basedirs : List (List ℕ)) →
        RecordingOverAll (world_of H.hash (external_compiler prints) zone config basedirs) }
{}
