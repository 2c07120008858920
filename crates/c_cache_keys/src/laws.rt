//! Laws about calls and runs, over the definitions alone. Each is the contract of a function with
//! an empty body. All but the last three hold for every hash, compiler and store.
ghost use Rattle.std.specs.Prelude.{◌≡◌, ◌↔◌, ℕ, IsTrue, List};
ghost use Rattle.cck_include.specs.declared.config.PreprocessorCacheModeConfig.{PreprocessorCacheModeConfig};
ghost use Rattle.jiff.specs.Types.{TimeZone};
ghost use Rattle.c_cache_keys.specs.Hits.{FreshIsHeld, HeldKeyIsReturned, ErrorsHaveCauses, MapStoreReturnsStored, StoredIsHit};
ghost use Rattle.c_cache_keys.specs.Laws.{FreshIsPlain, StoredKeyIsReturned, Headline, HitIsPlain, KeepsOldOrOwn, NothingDamaged, RecacheIsFresh, RunReturnsStored, RunsHeadline, RunsJoin, StaysSound};
ghost use Rattle.cck_hasher.specs.Walked.{VerdictIsDecided};
ghost use Rattle.c_cache_keys.specs.Witness.{PremisesCanHold};
ghost use Rattle.cck_hasher.specs.World.{world_of};

use crate::{CCompilerImpl, CacheControl, PreprocessorStore};
pub use cck_compiler::laws::{
    artifact_descriptor_equality_is_exact, c_compiler_kind_equality_is_exact,
    color_mode_equality_is_exact, parsed_arguments_equality_is_exact,
};
use cck_digest::HashState;
pub use cck_digest::laws::{key_error_equality_is_exact, preprocess_error_equality_is_exact};
pub use cck_hasher::laws::{
    line_action_equality_is_exact, nothing_is_asked, walk_equality_is_exact,
};
pub use cck_include::laws::{
    line_equality_is_exact, mark_equality_is_exact, nothing_after_the_last_mark, one_list_of_marks,
    one_name_at_one_place,
};
pub use cck_util::laws::store_error_equality_is_exact;

/// A run over one list and then over another is a run over both lists joined, and conversely.
pub fn runs_join<H: HashState, I: CCompilerImpl, S: PreprocessorStore>()
    ensures { (zone : TimeZone) (config : PreprocessorCacheModeConfig) (basedirs : List (List ℕ)) →
        RunsJoin (world_of H.hash I.compiler zone config basedirs) S.store }
{}

/// A computed key is the plain key, whatever the store holds.
pub fn fresh_is_plain<H: HashState, I: CCompilerImpl, S: PreprocessorStore>()
    ensures { (zone : TimeZone) (config : PreprocessorCacheModeConfig) (basedirs : List (List ℕ)) →
        FreshIsPlain (world_of H.hash I.compiler zone config basedirs) S.store }
{}

/// If a store holds nothing but own pairs of earlier calls, so it does after one more call.
pub fn stays_sound<H: HashState, I: CCompilerImpl, S: PreprocessorStore>()
    ensures { (zone : TimeZone) (config : PreprocessorCacheModeConfig) (basedirs : List (List ℕ)) →
        StaysSound (world_of H.hash I.compiler zone config basedirs) S.store }
{}

/// Under the premises, a key that is returned from such a store is the plain key.
pub fn hit_is_plain<H: HashState, I: CCompilerImpl, S: PreprocessorStore>()
    ensures { (zone : TimeZone) (config : PreprocessorCacheModeConfig) (basedirs : List (List ℕ)) →
        HitIsPlain (world_of H.hash I.compiler zone config basedirs) S.store }
{}

/// Such a store returns nothing that is no entry.
pub fn nothing_damaged<H: HashState, I: CCompilerImpl, S: PreprocessorStore>()
    ensures { (zone : TimeZone) (config : PreprocessorCacheModeConfig) (basedirs : List (List ℕ)) →
        NothingDamaged (world_of H.hash I.compiler zone config basedirs) S.store }
{}

/// The **headline**, over calls in order. On a store that starts empty, under the premises, every
/// key that is returned, from the store or computed, is the plain key of its call. And no call
/// returns an error because of what the store returned. On any store, under none of these premises,
/// a call that can hit returns a stored key that matches, whatever a preprocessor would print.
pub fn headline<H: HashState, I: CCompilerImpl, S: PreprocessorStore>()
    ensures { (zone : TimeZone) (config : PreprocessorCacheModeConfig) (basedirs : List (List ℕ)) →
        Headline (world_of H.hash I.compiler zone config basedirs) S.store }
{}

/// The headline for several runs in turn on one store.
pub fn runs_headline<H: HashState, I: CCompilerImpl, S: PreprocessorStore>()
    ensures { (zone : TimeZone) (config : PreprocessorCacheModeConfig) (basedirs : List (List ℕ)) →
        RunsHeadline (world_of H.hash I.compiler zone config basedirs) S.store }
{}

/// A call that can hit asks the store once, and what the store returned determines what the call
/// does next. If the store returns an entry with a key whose included files are all unchanged, the
/// call returns the greatest such key and puts nothing. So it does whatever a preprocessor would
/// print.
pub fn stored_key_is_returned<H: HashState, I: CCompilerImpl, S: PreprocessorStore>()
    ensures { (zone : TimeZone) (config : PreprocessorCacheModeConfig) (basedirs : List (List ℕ)) →
        StoredKeyIsReturned (world_of H.hash I.compiler zone config basedirs) S.store }
{}

/// Each call of a run does so, whatever the store holds at first: the second half of the headline.
pub fn run_returns_stored<H: HashState, I: CCompilerImpl, S: PreprocessorStore>()
    ensures { (zone : TimeZone) (config : PreprocessorCacheModeConfig) (basedirs : List (List ℕ)) →
        RunReturnsStored (world_of H.hash I.compiler zone config basedirs) S.store }
{}

/// What a store holds after a call it held before, or it is the call's own pair and the call
/// returned its key as a computed one. So a call that returns an error or a stored key puts
/// nothing.
pub fn keeps_old_or_own<H: HashState, I: CCompilerImpl, S: PreprocessorStore>()
    ensures { (zone : TimeZone) (config : PreprocessorCacheModeConfig) (basedirs : List (List ℕ)) →
        KeepsOldOrOwn (world_of H.hash I.compiler zone config basedirs) S.store }
{}

/// A call that may not return a stored key returns none.
pub fn recache_is_fresh<H: HashState, I: CCompilerImpl, S: PreprocessorStore>()
    ensures { (zone : TimeZone) (config : PreprocessorCacheModeConfig) (basedirs : List (List ℕ)) →
        RecacheIsFresh (world_of H.hash I.compiler zone config basedirs) S.store }
{}

/// After a miss the store holds that one result under the call's key, if something can be recorded
/// and there was no fault and no store failure.
pub fn fresh_is_held<H: HashState, I: CCompilerImpl, S: PreprocessorStore>()
    ensures { (zone : TimeZone) (config : PreprocessorCacheModeConfig) (basedirs : List (List ℕ)) →
        FreshIsHeld (world_of H.hash I.compiler zone config basedirs) S.store }
{}

/// Let a call be able to hit, and let something be held under its key, all of it entries with a key
/// that matches. If there is no store failure, the call returns such a key.
pub fn held_key_is_returned<H: HashState, I: CCompilerImpl, S: PreprocessorStore>()
    ensures { (zone : TimeZone) (config : PreprocessorCacheModeConfig) (basedirs : List (List ℕ)) →
        HeldKeyIsReturned (world_of H.hash I.compiler zone config basedirs) S.store }
{}

/// After a miss of which something can be recorded, a later call that can hit, with the same
/// preprocessor key, returns the same key from the store. The recorded files must be the same, and
/// no call between may have returned a computed key with that preprocessor key. There must be no
/// fault in the first call and no store failure.
pub fn stored_is_hit<H: HashState, I: CCompilerImpl, S: PreprocessorStore>()
    ensures { (zone : TimeZone) (config : PreprocessorCacheModeConfig) (basedirs : List (List ℕ)) →
        StoredIsHit (world_of H.hash I.compiler zone config basedirs) S.store }
{}

/// Each error without a fault has its cause in the call, or is lack of memory. That of the store
/// occurs only with a store failure.
pub fn errors_have_causes<H: HashState, I: CCompilerImpl, S: PreprocessorStore>()
    ensures { (zone : TimeZone) (config : PreprocessorCacheModeConfig) (basedirs : List (List ℕ)) →
        ErrorsHaveCauses (world_of H.hash I.compiler zone config basedirs) S.store }
{}

/// The verdict on a text is what its marks decide, read once from the front with the digests that
/// were found so far. An accepted text has the digests of all regular files that it names.
pub fn verdict_is_decided<H: HashState, I: CCompilerImpl>()
    ensures { (zone : TimeZone) (config : PreprocessorCacheModeConfig) (basedirs : List (List ℕ)) →
        VerdictIsDecided (world_of H.hash I.compiler zone config basedirs) }
{}

/// On a store in memory, a call that can hit returns the held key that matches, if there is no store
/// failure. It leaves the store as its one get leaves it.
pub fn map_store_returns_stored<H: HashState, I: CCompilerImpl>()
    ensures { (zone : TimeZone) (config : PreprocessorCacheModeConfig) (basedirs : List (List ℕ)) →
        MapStoreReturnsStored (world_of H.hash I.compiler zone config basedirs) }
{}

/// The premises can hold, and a stored key can be returned. Two calls of two requests, which write
/// their objects to two places, meet all that [`headline`] takes. They run on a store in memory
/// that holds nothing at first, with no fault and no store failure. The first computes a key, and
/// the second returns it from the store.
pub fn premises_can_hold()
    ensures { PremisesCanHold }
{}

/// Two values of [`CacheControl`] are equal exactly if they are the same.
pub fn cache_control_equality_is_exact()
    ensures { (a b : CacheControl) → IsTrue (⟦<CacheControl as PartialEq>⟧.eq a b) ↔ (a ≡ b) }
{}
