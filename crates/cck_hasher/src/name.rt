//! Takes the name of a line marker.
ghost use Rattle.std.specs.Prelude.{◌≡◌, IfOk, false};
ghost use Rattle.std.specs.Ordering.{eq_by_cmp};
ghost use Rattle.cck_files.specs.Calls.{AreCalls, Keeps, Rose};
ghost use Rattle.cck_path.specs.Path.{components, joined, normal, path_cmp};
ghost use Rattle.cck_hasher.specs.Decided.{IsLookedFor, is_angled, is_passed};
ghost use Rattle.cck_hasher.specs.Line.{IsNameResult};
ghost use Rattle.cck_hasher.specs.WalkContext.{context_of};

use crate::Records;
use crate::judge::{Judged, judge};
use crate::walk_context::WalkContext;
use cck_digest::HashState;
use cck_files::Files;
use cck_path::{compare_paths, join_path, normalize_path};
use std::alloc::{AllocError, Global};

// Whether a name is enclosed in `<` and `>`.
#[tactic(auto, unfolding(crate::specs::Decided::is_angled))]
fn is_angled(name: &[u8]) -> bool
    ensures { result ≡ is_angled name.now }
{
    name.len() >= 2 && name[0] == b'<' && name[name.len() - 1] == b'>'
}

// Whether no file is looked for by this name.
#[tactic(auto, unfolding(crate::specs::Decided::is_passed))]
fn is_passed(name: &[u8], is_system: bool, skips: bool) -> bool
    ensures { result ≡ is_passed skips name.now is_system }
{
    name.is_empty() || is_angled(name) || skips && is_system
}

// Whether two paths have the same components.
fn is_same(a: &[u8], b: &[u8]) -> bool
    ensures { result ≡ eq_by_cmp path_cmp (components a.now) (components b.now) }
{
    compare_paths(a, b).is_eq()
}

// The path that a name means, relative to the working directory. It is joined before it is
// normalised, so that a leading `..` leads out of that directory.
fn path_named(alloc: Global, cwd: &[u8], name: &[u8]) -> Result<Vec<u8>, AllocError>
    ensures { IfOk result (λ path.
        components path.items ≡ normal (joined (components cwd.now) (components name.now))) }
{
    let Ok(path) = join_path(alloc, cwd, name) else {
        return Err(AllocError);
    };
    match normalize_path(alloc, &path) {
        Ok(path) => Ok(path),
        Err(_) => Err(AllocError),
    }
}

/// Records the file that a name means, or passes it over. It returns `false` if the text is refused
/// for the name.
///
/// After an error, and with `false`, the records are unchanged.
/// Calls on files are made only at the path that the name means. There are none for a name that is
/// passed over, or for the path of the input or of a record.
#[tactic(auto, unfolding(crate::specs::Decided::outcome, crate::specs::Decided::is_known, crate::specs::Decided::is_looked_for))]
pub(crate) fn take_name<H: HashState, F: Files>(
    alloc: Global,
    files: &mut F,
    context: &WalkContext<'_>,
    records: &mut Records,
    name: &[u8],
    is_system: bool,
) -> Result<bool, AllocError>
    ensures keeps { Keeps F.file_map F.faults F.is_quiet files.old files.new }
    ensures calls { AreCalls F.is_call (IsLookedFor (context_of H.hash context.now
        (F.file_map files.old)) records.old name.now is_system) files.old files.new }
    ensures outcome { IsNameResult (context_of H.hash context.now (F.file_map files.old)) (Rose (F.faults files.old) (F.faults files.new))
        records.old records.new name.now is_system result }
{
    if is_passed(name, is_system, context.judge.config.skip_system_headers) {
        return Ok(true);
    }
    let path = path_named(alloc, context.cwd, name)?;
    if records.contains(&path) || is_same(&path, context.input_file) {
        return Ok(true);
    }
    match judge::<H, F>(alloc, files, &path, &context.judge)? {
        Judged::Folder => Ok(true),
        Judged::Bad => Ok(false),
        Judged::Regular(digest) => {
            records.insert(&path, digest)?;
            Ok(true)
        }
    }
}
