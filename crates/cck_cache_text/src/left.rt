//! The directories that names leave by `..`.
ghost use Rattle.std.specs.Prelude.{◌<◌, IfOk, IsOkUnless, IsTrue, List, MatchBool, OnOk, length, true, ℕ};
ghost use Rattle.cck_include.specs.Marks as spec;
ghost use Rattle.cck_include.specs.Marks.{Marks};
ghost use Rattle.cck_path.specs.Text.{join_path};
ghost use Rattle.cck_cache_text.specs.Left.{IsLeft, IsLeftAt, IsLeftOn};
ghost use Rattle.cck_cache_text.specs.Sets.{Adds, IsSetOf, has_key};

use crate::absent::add;
use crate::names::MarkedText;
use cck_digest::UtilError;
use cck_path::join_path;
use memchr::memmem;
use std::alloc::{AllocError, Global};
use std::collections::BTreeSet;

// Whether a slash at this place ends a directory's path, and a `..` comes after it.
fn is_left_at(path: &[u8], place: usize) -> bool
    requires { place < length path.now }
    ensures { MatchBool result (IsLeftAt path.now place) (¬ (IsLeftAt path.now place)) }
{
    if place == 0 || path[place] != b'/' {
        return false;
    }
    memmem::find(&path[place..], b"/../").is_some()
}

/// Adds the directories on the way of a path up to its last `..`.
///
/// The only error is lack of memory.
pub fn add_left(alloc: Global, left: &mut BTreeSet<Vec<u8>>, path: &[u8]) -> Result<(), AllocError>
    ensures { OnOk result (Adds (IsLeftOn path.now) left.old left.new) }
{
    for place in 0..path.len() {
        if is_left_at(path, place) {
            add(left, path[..place].to_vec(alloc)?)?;
        }
    }
    Ok(())
}

// The directories on the way of these names up to their last `..`, each name joined to a directory.
fn left_by(
    alloc: Global,
    directory: &[u8],
    names: &BTreeSet<Vec<u8>>,
) -> Result<BTreeSet<Vec<u8>>, UtilError>
    ensures left { IfOk result (IsSetOf (λ front. (name : List ℕ) × IsTrue (has_key names.now name)
        × IsLeftOn (join_path directory.now name) front)) }
    ensures errors { IsOkUnless result UtilError.Memory }
{
    let mut left = BTreeSet::new(alloc);
    for name in names {
        let path = join_path(alloc, directory, name)?;
        add_left(alloc, &mut left, &path)?;
    }
    Ok(left)
}

/// The directories on the way of a name of this preprocessed text up to its last `..`, the name
/// joined to the working directory. Where one of them becomes a link, the name leads elsewhere than
/// its path without `..`.
///
/// The only error is [`UtilError::Memory`].
pub fn left_directories(
    alloc: Global,
    directory: &[u8],
    text: &MarkedText<'_>,
) -> Result<BTreeSet<Vec<u8>>, UtilError>
    ensures left { IfOk result (λ left. (marks : List spec.Mark) → Marks true text.now marks
        → IsSetOf (IsLeft directory.now marks) left) }
    ensures errors { IsOkUnless result UtilError.Memory }
{
    left_by(alloc, directory, &text.named().names)
}
