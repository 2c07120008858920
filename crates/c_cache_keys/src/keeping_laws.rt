//! Laws about calls that add their results to entries that a store holds. Each is the contract of a
//! function with an empty body, and holds for every hash function, compiler and store.
ghost use Rattle.std.specs.Prelude.{ℕ, List};
ghost use Rattle.cck_include.specs.declared.config.PreprocessorCacheModeConfig.{PreprocessorCacheModeConfig};
ghost use Rattle.jiff.specs.Types.{TimeZone};
ghost use Rattle.cck_hasher.specs.World.{world_of};
ghost use Rattle.c_cache_keys.specs.KeepingLaws.{HeadlineKeeping, HeadlineOnEarlier, HitIsPlainEach, MatchIsPlain, MatchesAreOne, NewIsHeld, ResultIsReturned, ResultStays, RunIsKeeping, SoundIsEach, StaysSoundEach, StaysSoundOnto, StepIsFirst, StoredIsHitEach};

use crate::{CCompilerImpl, PreprocessorStore};
use cck_digest::HashState;

/// A step is one that adds its result to the empty entry alone, and conversely.
pub fn step_is_first<H: HashState, I: CCompilerImpl, S: PreprocessorStore>()
    ensures { (zone : TimeZone) (config : PreprocessorCacheModeConfig) (basedirs : List (List ℕ)) →
        StepIsFirst (world_of H.hash I.compiler zone config basedirs) S.store }
{}

/// So each run is one of calls that may add their results to held entries.
pub fn run_is_keeping<H: HashState, I: CCompilerImpl, S: PreprocessorStore>()
    ensures { (zone : TimeZone) (config : PreprocessorCacheModeConfig) (basedirs : List (List ℕ)) →
        RunIsKeeping (world_of H.hash I.compiler zone config basedirs) S.store }
{}

/// And a store that holds nothing but own pairs of earlier calls holds nothing but their results.
pub fn sound_is_each<H: HashState, I: CCompilerImpl, S: PreprocessorStore>()
    ensures { (zone : TimeZone) (config : PreprocessorCacheModeConfig) (basedirs : List (List ℕ)) →
        SoundIsEach (world_of H.hash I.compiler zone config basedirs) S.store }
{}

/// A call that adds its result to any results of earlier calls leaves a store that holds nothing but such
/// results. The store need not hold the former when the call is made.
pub fn stays_sound_onto<H: HashState, I: CCompilerImpl, S: PreprocessorStore>()
    ensures { (zone : TimeZone) (config : PreprocessorCacheModeConfig) (basedirs : List (List ℕ)) →
        StaysSoundOnto (world_of H.hash I.compiler zone config basedirs) S.store }
{}

/// So does a call that adds its result to a held entry.
pub fn stays_sound_each<H: HashState, I: CCompilerImpl, S: PreprocessorStore>()
    ensures { (zone : TimeZone) (config : PreprocessorCacheModeConfig) (basedirs : List (List ℕ)) →
        StaysSoundEach (world_of H.hash I.compiler zone config basedirs) S.store }
{}

/// Under the premises, each result of such a store whose included files are all unchanged has the plain
/// key of the call.
pub fn match_is_plain<H: HashState, I: CCompilerImpl, S: PreprocessorStore>()
    ensures { (zone : TimeZone) (config : PreprocessorCacheModeConfig) (basedirs : List (List ℕ)) →
        MatchIsPlain (world_of H.hash I.compiler zone config basedirs) S.store }
{}

/// So any two of them have one key: which of them is found does not matter.
pub fn matches_are_one<H: HashState, I: CCompilerImpl, S: PreprocessorStore>()
    ensures { (zone : TimeZone) (config : PreprocessorCacheModeConfig) (basedirs : List (List ℕ)) →
        MatchesAreOne (world_of H.hash I.compiler zone config basedirs) S.store }
{}

/// Under the premises, a key that is returned from such a store is the plain key.
pub fn hit_is_plain_each<H: HashState, I: CCompilerImpl, S: PreprocessorStore>()
    ensures { (zone : TimeZone) (config : PreprocessorCacheModeConfig) (basedirs : List (List ℕ)) →
        HitIsPlainEach (world_of H.hash I.compiler zone config basedirs) S.store }
{}

/// The headline, for calls in order that add their results to held entries: on a store that starts empty,
/// under the premises, each key that is returned is the plain key of its call, and no call returns an error
/// because of what the store returned. On any store a call that can hit returns a stored key that matches.
pub fn headline_keeping<H: HashState, I: CCompilerImpl, S: PreprocessorStore>()
    ensures { (zone : TimeZone) (config : PreprocessorCacheModeConfig) (basedirs : List (List ℕ)) →
        HeadlineKeeping (world_of H.hash I.compiler zone config basedirs) S.store }
{}

/// Its first half, where each call may add its result to any results of calls before it, held or not.
pub fn headline_on_earlier<H: HashState, I: CCompilerImpl, S: PreprocessorStore>()
    ensures { (zone : TimeZone) (config : PreprocessorCacheModeConfig) (basedirs : List (List ℕ)) →
        HeadlineOnEarlier (world_of H.hash I.compiler zone config basedirs) S.store }
{}

/// After a miss whose key can be stored, and without a store failure, an entry that is held has the new
/// result.
pub fn new_is_held<H: HashState, I: CCompilerImpl, S: PreprocessorStore>()
    ensures { (zone : TimeZone) (config : PreprocessorCacheModeConfig) (basedirs : List (List ℕ)) →
        NewIsHeld (world_of H.hash I.compiler zone config basedirs) S.store }
{}

/// If a call adds its result to the entry that is held, a held result is held after it. The exceptions are
/// a store failure, a computed key that is the same, and an entry that exceeds a limit.
pub fn result_stays<H: HashState, I: CCompilerImpl, S: PreprocessorStore>()
    ensures { (zone : TimeZone) (config : PreprocessorCacheModeConfig) (basedirs : List (List ℕ)) →
        ResultStays (world_of H.hash I.compiler zone config basedirs) S.store }
{}

/// Where a held result matches, a call that can hit returns the greatest key that matches, if there is no
/// store failure.
pub fn result_is_returned<H: HashState, I: CCompilerImpl, S: PreprocessorStore>()
    ensures { (zone : TimeZone) (config : PreprocessorCacheModeConfig) (basedirs : List (List ℕ)) →
        ResultIsReturned (world_of H.hash I.compiler zone config basedirs) S.store }
{}

/// After a miss whose key can be stored, a later call with the same preprocessor key and the same included
/// files returns a stored key, whatever results calls between added: two branches that alternate both hit.
/// The exceptions are a store failure, and a call between that displaced the result.
pub fn stored_is_hit_each<H: HashState, I: CCompilerImpl, S: PreprocessorStore>()
    ensures { (zone : TimeZone) (config : PreprocessorCacheModeConfig) (basedirs : List (List ℕ)) →
        StoredIsHitEach (world_of H.hash I.compiler zone config basedirs) S.store }
{}
