//! The files that the entry of a look-up names.
ghost use Rattle.std.specs.Prelude.{OnOk};
ghost use Rattle.cck_cache.specs.Included.{IsIncludeOf, IsIncluded};
ghost use Rattle.cck_cache_files.specs.Snapshot.{SnapshotGrows};
ghost use Rattle.cck_entry.specs.Lent.{result_lent};

use cck_cache_files::add_included;
use cck_digest::UtilError;
use cck_entry::{EntryView, Metadata, PathMap, ResultRef};
use cck_files::MapFiles;
use std::rt::Files;

// Adds what a look-up needs of the files that a result included.
fn add_includes<R: Files + AllocGlobal>(
    rt: &R,
    files: &mut MapFiles,
    known: &PathMap<Metadata>,
    included: &ResultRef<'_>,
) -> Result<(), UtilError>
    ensures { OnOk result (SnapshotGrows (IsIncludeOf (result_lent included.now).1) files.old files.new) }
{
    for include in included.includes() {
        add_included(rt, files, known, &include)?;
    }
    Ok(())
}

/// Adds to the snapshot the files that an entry names, but for those of which what is known shows that they
/// are unchanged.
///
/// The only error is lack of memory. Some of the files may then be in the snapshot.
pub fn add_entry_files<R: Files + AllocGlobal>(
    rt: &R,
    files: &mut MapFiles,
    known: &PathMap<Metadata>,
    entry: &EntryView<'_>,
) -> Result<(), UtilError>
    ensures { OnOk result (SnapshotGrows (IsIncluded entry.now) files.old files.new) }
{
    for result in entry.results() {
        add_includes(rt, files, known, result)?;
    }
    Ok(())
}
