//! Recordings.
ghost use Rattle.std.specs.Prelude.{◌≡◌, ◌⊎◌, IfErr, IfOk, Some, string_bytes};
ghost use Rattle.cck_files.specs.Calls.{Keeps, Rose};
ghost use Rattle.cck_hasher.specs.Call.{ReturnsError};
ghost use Rattle.cck_hasher.specs.Seen.{result_of, why_of};
ghost use Rattle.c_cache_keys.specs.Recordings.{HasText, IsRecording, IsRecordingError, given_text, key_of};

use crate::last_put::LastPut;
use crate::requests::SnapshotRequest;
use crate::text_compiler::text_hasher;
use crate::{CacheControl, HashResult, KeyError};
use cck_digest::HashState;
use cck_files::Files;
use std::alloc::Global;

/// An entry, and the key under which a store holds it.
#[derive(Debug, Drop)]
pub struct RecordedEntry {
    /// The preprocessor key.
    pub preprocessor_key: String,
    /// The bytes of the entry.
    pub bytes: Vec<u8>,
}

/// The result of a recording.
#[derive(Debug, Drop)]
pub struct Recording {
    /// The object key.
    pub key: String,
    /// What is to be put into a store, if anything is.
    pub put: Option<RecordedEntry>,
}

/// Computes the object key of a request over a snapshot, from the text that its preprocessor
/// printed, and the entry that a store is to hold of it. No store is asked.
///
/// There is an entry if the request has a preprocessor key over this snapshot, and the walk accepts
/// the text and records files. A file that the text names and that is missing from the snapshot
/// leaves the key without an entry.
///
/// In each world in which the preprocessor prints this text, the result is a step of a run.
///
/// Errors:
///
/// - [`KeyError::Extra`]: an extra file has no digest.
/// - [`KeyError::Input`]: the input is no regular file of the snapshot, and the preprocessor cache
///   is used or no preprocessor is needed.
/// - [`KeyError::Marker`]: there is a preprocessor key, and the text has a malformed line marker
///   before anything else stops the walk.
/// - [`KeyError::Memory`]: memory is lacking.
///
/// A fault of the snapshot can also cause `Extra` and `Input`, and can leave a key without an entry.
pub fn record_text<H: HashState, F: Files>(
    alloc: Global,
    snapshot: &mut F,
    request: &SnapshotRequest<'_>,
    text: &[u8],
) -> Result<Recording, KeyError>
    ensures keeps { Keeps F.file_map F.faults F.is_quiet snapshot.old snapshot.new }
    ensures recorded { IfOk result (IsRecording H.hash (F.file_map snapshot.old) request.now
        (Rose (F.faults snapshot.old) (F.faults snapshot.new)) text.now) }
    ensures errors { IfErr result (IsRecordingError H.hash (F.file_map snapshot.old) request.now
        (Rose (F.faults snapshot.old) (F.faults snapshot.new)) text.now) }
{
    let hasher = match text_hasher(alloc, request.hasher, text) {
        Ok(hasher) => hasher,
        Err(error) => return Err(error),
    };
    let mut store = LastPut::new();
    let found = hasher.generate_hash_key::<H, F, LastPut>(
        alloc,
        snapshot,
        &mut store,
        request.cwd,
        request.vars,
        request.moment,
        request.zone,
        request.config,
        request.basedirs,
        CacheControl::ForceRecache,
    );
    let key = match computed_key(found) {
        Ok(key) => key,
        Err(error) => return Err(error),
    };
    match store.into_entry() {
        Ok(put) => Ok(Recording { key, put }),
        Err(_) => Err(KeyError::Memory),
    }
}

// The key that was computed. There is a text, so where it is missing memory is lacking.
#[tactic(auto, using(crate::proofs::GivenLemmas::text_missing, crate::proofs::GivenLemmas::text_given))]
fn computed_key(found: Result<HashResult, KeyError>) -> Result<String, KeyError>
    ensures key { IfOk result (λ key. key_of (result_of found) ≡ Some (string_bytes key)) }
    ensures errors { IfErr result (λ e. (e ≡ KeyError.Memory) ⊎ ((result_of found ≡ ReturnsError (why_of e)) × HasText (why_of e))) }
    ensures cause { IfErr result (λ e. given_text (result_of found) ≡ ReturnsError (why_of e)) }
{
    match found {
        Ok(found) => Ok(found.key),
        Err(KeyError::Preprocess(_)) => Err(KeyError::Memory),
        Err(error) => Err(error),
    }
}
