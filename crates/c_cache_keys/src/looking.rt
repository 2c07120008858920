//! Look-ups.
ghost use Rattle.std.specs.Prelude.{IfOk};
ghost use Rattle.std.specs.Option.{option_map};
ghost use Rattle.cck_files.specs.Calls.{Keeps, Rose};
ghost use Rattle.c_cache_keys.specs.Snapshot.{IsLookedUp};

use crate::requests::SnapshotRequest;
use cck_digest::HashState;
use cck_entry::{EntryView, JudgeContext};
use cck_files::Files;
use cck_path::{Metadata, PathMap};
use std::alloc::{AllocError, Global};

/// Looks a key up in a stored entry, over a snapshot.
///
/// Returns the key of a hit: the greatest object key in the entry whose included files are all unchanged.
/// A file is unchanged if its status is among `statuses` and
/// [shows it](cck_entry::status_accepts), or by its contents in the snapshot. Returns `None` for a miss.
/// A file that is missing from both counts as changed.
///
/// Let a store hold the entry under the preprocessor key of the request. Whatever a preprocessor prints, a
/// hit is a call that asks the store with these statuses. It is a step of a run if they are those of the
/// files and times are honest ([`step_is_step`](crate::snapshot_laws::step_is_step)). The preprocessor key may be
/// that over a part of the snapshot.
///
/// The only error is lack of memory. A fault of the snapshot can also cause a miss.
pub fn look_up<'a, H: HashState, F: Files>(
    alloc: Global,
    snapshot: &mut F,
    statuses: &PathMap<Metadata>,
    request: &SnapshotRequest<'_>,
    entry: &EntryView<'a>,
) -> Result<Option<&'a str>, AllocError>
    ensures keeps { Keeps F.file_map F.faults F.is_quiet snapshot.old snapshot.new }
    ensures found { IfOk result (λ key. IsLookedUp H.hash (F.file_map snapshot.old) request.now
        (Rose (F.faults snapshot.old) (F.faults snapshot.new)) statuses.now entry.now (option_map (λ k. k.now) key)) }
{
    let context = JudgeContext {
        moment: request.moment,
        zone: request.zone,
        vars: request.vars,
        config: request.config,
    };
    entry.lookup_with_statuses::<H, F>(alloc, statuses, snapshot, &context)
}
