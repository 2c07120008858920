//! Preprocessor keys.
ghost use Rattle.std.specs.Prelude.{IfErr, IfOk};
ghost use Rattle.cck_files.specs.Calls.{Keeps, Rose};
ghost use Rattle.cck_hasher.specs.Opening.{IsPreprocessorKey};
ghost use Rattle.cck_hasher.specs.Seen.{why_of};
ghost use Rattle.cck_hasher.specs.Step.{StopsOpening};
ghost use Rattle.cck_hasher.specs.declared.call.CacheControl.TheVariants.{Default};
ghost use Rattle.c_cache_keys.specs.External.{no_text};
ghost use Rattle.c_cache_keys.specs.Requests.{call_for, world_for};

use crate::requests::{SnapshotRequest, conditions_of};
use crate::{KeyError, PreprocessorKey};
use cck_digest::HashState;
use cck_files::Files;
use std::alloc::Global;

/// Returns the preprocessor key of a request over a snapshot, or `None`.
///
/// There is none if the language of the input needs no preprocessor, the options, the arguments or
/// the variable `SCCACHE_DIRECT` don't allow the preprocessor cache, or the input has no recorded
/// digest.
///
/// Errors:
///
/// - [`KeyError::Extra`]: an extra file has no digest.
/// - [`KeyError::Input`]: the input is no regular file of the snapshot, and the preprocessor cache
///   is used.
/// - [`KeyError::Memory`]: memory is lacking.
///
/// A fault of the snapshot can also cause `Extra` and `Input`.
pub fn preprocessor_key<H: HashState, F: Files>(
    alloc: Global,
    snapshot: &mut F,
    request: &SnapshotRequest<'_>,
) -> Result<Option<PreprocessorKey>, KeyError>
    ensures keeps { Keeps F.file_map F.faults F.is_quiet snapshot.old snapshot.new }
    ensures key { IfOk result (IsPreprocessorKey (world_for H.hash no_text request.now)
        (call_for Default (F.file_map snapshot.old) request.now)) }
    ensures errors { IfErr result (λ e.
        StopsOpening (world_for H.hash no_text request.now) (call_for Default (F.file_map snapshot.old) request.now)
        (Rose (F.faults snapshot.old) (F.faults snapshot.new)) (why_of e)) }
{
    request
        .hasher
        .preprocessor_key::<H, F>(alloc, snapshot, &conditions_of(request))
}
