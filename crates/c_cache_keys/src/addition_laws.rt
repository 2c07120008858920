//! Laws about recordings whose result is added to a held entry, and about look-ups in entries of several
//! results. Each is the contract of a function with an empty body, and holds for every hash function, every
//! store and whatever a preprocessor prints.
ghost use Rattle.std.specs.Prelude.{ℕ, List};
ghost use Rattle.cck_include.specs.declared.config.PreprocessorCacheModeConfig.{PreprocessorCacheModeConfig};
ghost use Rattle.jiff.specs.Types.{TimeZone};
ghost use Rattle.cck_hasher.specs.World.{world_of};
ghost use Rattle.c_cache_keys.specs.AdditionLaws.{AdditionOnAnyStore, AdditionToEarlier, HeadlineByStatusesKeeping, HeadlineByStatusesOnEarlier, HeldIsKeeping, HitIsKeeping, HitOverAllEach, ReturnedIsEarlier};
ghost use Rattle.c_cache_keys.specs.External.{Prints, external_compiler};

use crate::PreprocessorStore;
use cck_digest::HashState;

/// A recording whose result was added by [`add_to_entry`](crate::add_to_entry) to what a store holds under its
/// preprocessor key adds its result to the held entry of each such store that the bytes are put into.
pub fn addition_on_any_store<H: HashState, S: PreprocessorStore>()
    ensures { (prints : Prints) (zone : TimeZone) (config : PreprocessorCacheModeConfig) (basedirs : List (List ℕ)) →
        AdditionOnAnyStore (world_of H.hash (external_compiler prints) zone config basedirs) S.store }
{}

/// Such a call is one of those of [`headline_by_statuses_keeping`].
pub fn held_is_keeping<H: HashState, S: PreprocessorStore>()
    ensures { (prints : Prints) (zone : TimeZone) (config : PreprocessorCacheModeConfig) (basedirs : List (List ℕ)) →
        HeldIsKeeping (world_of H.hash (external_compiler prints) zone config basedirs) S.store }
{}

/// A recording whose result was added to an entry of results of earlier calls is a call that may add to these,
/// whatever the store holds when the bytes are put.
pub fn addition_to_earlier<H: HashState, S: PreprocessorStore>()
    ensures { (prints : Prints) (zone : TimeZone) (config : PreprocessorCacheModeConfig) (basedirs : List (List ℕ)) →
        AdditionToEarlier (world_of H.hash (external_compiler prints) zone config basedirs) S.store }
{}

/// What a store returned that holds nothing but results of earlier calls is such an entry, also for later calls.
pub fn returned_is_earlier<H: HashState, S: PreprocessorStore>()
    ensures { (prints : Prints) (zone : TimeZone) (config : PreprocessorCacheModeConfig) (basedirs : List (List ℕ)) →
        ReturnedIsEarlier (world_of H.hash (external_compiler prints) zone config basedirs) S.store }
{}

/// A hit on a store, which puts nothing, is one of the calls of [`headline_by_statuses_keeping`].
pub fn hit_is_keeping<H: HashState, S: PreprocessorStore>()
    ensures { (prints : Prints) (zone : TimeZone) (config : PreprocessorCacheModeConfig) (basedirs : List (List ℕ)) →
        HitIsKeeping (world_of H.hash (external_compiler prints) zone config basedirs) S.store }
{}

/// The headline holds for calls in order that are such hits, and such recordings that add to held entries: under
/// the premises and honest times, from a store that holds nothing, each key that is returned is the plain key of
/// its call.
pub fn headline_by_statuses_keeping<H: HashState, S: PreprocessorStore>()
    ensures { (prints : Prints) (zone : TimeZone) (config : PreprocessorCacheModeConfig) (basedirs : List (List ℕ)) →
        HeadlineByStatusesKeeping (world_of H.hash (external_compiler prints) zone config basedirs) S.store }
{}

/// It also holds where each recording may add to any results of calls before it, as where the store changed since
/// it returned them.
pub fn headline_by_statuses_on_earlier<H: HashState, S: PreprocessorStore>()
    ensures { (prints : Prints) (zone : TimeZone) (config : PreprocessorCacheModeConfig) (basedirs : List (List ℕ)) →
        HeadlineByStatusesOnEarlier (world_of H.hash (external_compiler prints) zone config basedirs) S.store }
{}

/// Under the premises and honest times, a hit over a snapshot of files, in an entry of several results, is a hit
/// over all of the files, and its key is the plain key over all of them.
pub fn hit_over_all_each<H: HashState>()
    ensures { (prints : Prints) (zone : TimeZone) (config : PreprocessorCacheModeConfig) (basedirs : List (List ℕ)) →
        HitOverAllEach (world_of H.hash (external_compiler prints) zone config basedirs) }
{}
