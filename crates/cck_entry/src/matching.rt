//! Whether included files still match what was recorded of them.
ghost use Rattle.std.specs.Prelude.{◌≡◌, ◌≢◌, ◌⊎◌, ◌&&◌, IfOk, IsSome, OnOk, MatchBool, string_bytes};
ghost use Rattle.std.specs.List.{list_all};
ghost use Rattle.std.specs.Option.{option_map};
ghost use Rattle.cck_files.specs.Calls.{Keeps, Rose};
ghost use Rattle.cck_files.specs.FileMap.{file_at};
ghost use Rattle.cck_path.specs.Path.{components};
ghost use Rattle.cck_include.specs.Include.{include_lent, includes_in};
ghost use Rattle.cck_include.specs.JudgeContext.{setting_of};
ghost use Rattle.cck_entry.specs.Known.{AreKnown, IsRight, known_path};
ghost use Rattle.cck_entry.specs.Matching.{MayMiss, digest_found, is_digest, is_moment, matches, times_agree};

use crate::KnownFiles;
use crate::known::{KnownFile, place_for};
use cck_digest::{Error, HashState};
use cck_files::Files;
use cck_include::{
    IncludeEntry, IncludeRef, JudgeContext, PreprocessorCacheModeConfig, digest_with_metadata,
};
use cck_path::{FileKind, Metadata, Timestamp};
use std::alloc::{AllocError, Global};

// Whether this is the metadata of a regular file.
fn is_file(metadata: &Metadata) -> bool
    ensures { MatchBool result (metadata.now.kind ≡ FileKind.File) (metadata.now.kind ≢ FileKind.File) }
{
    match metadata.kind {
        FileKind::File => true,
        FileKind::Folder | FileKind::Other => false,
    }
}

// Whether a time is known and is this one.
fn is_moment(time: Option<Timestamp>, expected: Timestamp) -> bool
    ensures { result ≡ is_moment time expected }
{
    match time {
        Some(time) => time == expected,
        None => false,
    }
}

/// Whether the recorded times are those of the file: both, where both were recorded and the time of the
/// change counts; or that of the modification, where it alone was recorded.
pub fn times_agree(include: &IncludeRef<'_>, metadata: &Metadata, uses_changed: bool) -> bool
    ensures { result ≡ times_agree uses_changed include.now.mtime include.now.ctime
        metadata.now.modified metadata.now.changed }
{
    match (include.mtime, include.ctime) {
        (Some(modified), Some(changed)) => {
            uses_changed
                && is_moment(metadata.modified, modified)
                && is_moment(metadata.changed, changed)
        }
        (Some(modified), None) => is_moment(metadata.modified, modified),
        _ => false,
    }
}

// Whether the times alone suffice, by these options.
fn times_accept(
    include: &IncludeRef<'_>,
    metadata: &Metadata,
    config: PreprocessorCacheModeConfig,
) -> bool
    ensures { result ≡ (config.file_stat_matches && times_agree config.use_ctime_for_stat
        include.now.mtime include.now.ctime metadata.now.modified metadata.now.changed) }
{
    config.file_stat_matches && times_agree(include, metadata, config.use_ctime_for_stat)
}

// Whether there is a digest and it is this one.
fn is_digest(digest: &Option<String>, expected: &str) -> bool
    ensures { result ≡ is_digest (option_map string_bytes digest.now) expected.now }
{
    match digest {
        Some(digest) => digest.as_str() == expected,
        None => false,
    }
}

// Whether a known file has this recorded digest. With a fault the result may be `false` although it
// has. A known digest is not computed again, and a computed one becomes known.
fn is_recorded<H: HashState, F: Files>(
    alloc: Global,
    files: &mut F,
    file: &mut KnownFile,
    expected: &str,
    context: &JudgeContext<'_>,
) -> Result<bool, AllocError>
    ensures keeps { Keeps F.file_map F.faults F.is_quiet files.old files.new }
    ensures known { let s = setting_of H.hash context.now in
        IsRight s (F.file_map files.old) file.old → IsRight s (F.file_map files.old) file.new }
    ensures path { file.new.path ≡ file.old.path }
    ensures remembered { let s = setting_of H.hash context.now in
        OnOk result (IsRight s (F.file_map files.old) file.old
        → IfOk (file_at (F.file_map files.old) (known_path file.old)) (λ _. IsSome file.new.digest)
        ⊎ Rose (F.faults files.old) (F.faults files.new)) }
    ensures unasked { IsSome file.old.digest → files.new ≡ files.old }
    ensures outcome { let s = setting_of H.hash context.now in
        IsRight s (F.file_map files.old) file.old
        → IfOk result (λ is_match. MayMiss (Rose (F.faults files.old) (F.faults files.new)) is_match
        (digest_found s expected.now (file_at (F.file_map files.old) (known_path file.old)))) }
{
    if let Some(digest) = &file.digest {
        return Ok(is_digest(digest, expected));
    }
    let found = digest_with_metadata::<H, F>(alloc, files, &file.path, file.metadata, context);
    let digest = match found {
        Ok(digest) => digest,
        Err(Error::Memory) => return Err(AllocError),
        Err(_) => return Ok(false),
    };
    let is_match = is_digest(&digest, expected);
    file.digest = Some(digest);
    Ok(is_match)
}

// Whether an included file still matches, by what is known of the file at its path. With a fault the
// result may be `false` although it does.
fn known_matches<H: HashState, F: Files>(
    alloc: Global,
    files: &mut F,
    file: &mut KnownFile,
    include: &IncludeRef<'_>,
    context: &JudgeContext<'_>,
) -> Result<bool, AllocError>
    ensures keeps { Keeps F.file_map F.faults F.is_quiet files.old files.new }
    ensures known { let s = setting_of H.hash context.now in
        IsRight s (F.file_map files.old) file.old → IsRight s (F.file_map files.old) file.new }
    ensures path { file.new.path ≡ file.old.path }
    ensures outcome { let s = setting_of H.hash context.now in
        IsRight s (F.file_map files.old) file.old → known_path file.old ≡ components include.now.path.now
        → IfOk result (λ is_match. MayMiss (Rose (F.faults files.old) (F.faults files.new)) is_match
        (matches s (F.file_map files.old) (include_lent include.now))) }
{
    if !is_file(&file.metadata) {
        return Ok(false);
    }
    if file.metadata.len != include.file_size {
        return Ok(false);
    }
    if times_accept(include, &file.metadata, context.config) {
        return Ok(true);
    }
    is_recorded::<H, F>(alloc, files, file, include.digest, context)
}

/// Whether this included file still matches, as [`includes_match`] says of several. Where there was
/// a fault, the result may be `false` although it does. `known` is that of [`includes_match`]. The only
/// error is lack of memory.
pub fn include_matches<H: HashState, F: Files>(
    alloc: Global,
    files: &mut F,
    known: &mut KnownFiles,
    include: &IncludeRef<'_>,
    context: &JudgeContext<'_>,
) -> Result<bool, AllocError>
    ensures keeps { Keeps F.file_map F.faults F.is_quiet files.old files.new }
    ensures known { let s = setting_of H.hash context.now in
        AreKnown s (F.file_map files.old) known.old → AreKnown s (F.file_map files.old) known.new }
    ensures outcome { let s = setting_of H.hash context.now in
        AreKnown s (F.file_map files.old) known.old
        → IfOk result (λ is_match. MayMiss (Rose (F.faults files.old) (F.faults files.new)) is_match
        (matches s (F.file_map files.old) (include_lent include.now))) }
{
    let Some(place) = place_for::<F>(alloc, files, known, include.path)? else {
        return Ok(false);
    };
    let file = &mut known.files[place];
    known_matches::<H, F>(alloc, files, file, include, context)
}

/// Whether all of these included files still match what was recorded of them. What
/// matches is a regular file of the recorded size, if its times or its recorded digest show that it is the
/// same. The times do so only with
/// [`file_stat_matches`](PreprocessorCacheModeConfig::file_stat_matches). A file that cannot be
/// read, for any cause, does not match. Where there was a fault, the result may be `false` although
/// all match. The only error is lack of memory.
///
/// `known` keeps the metadata and the recorded digests that were found, so that no file's metadata
/// is asked for twice and no file is read twice. The result is right if what was known before is:
/// if nothing was, or if calls with the same files and an equal context found it.
pub fn includes_match<H: HashState, F: Files>(
    alloc: Global,
    files: &mut F,
    known: &mut KnownFiles,
    includes: &[IncludeEntry],
    context: &JudgeContext<'_>,
) -> Result<bool, AllocError>
    ensures keeps { Keeps F.file_map F.faults F.is_quiet files.old files.new }
    ensures known { let s = setting_of H.hash context.now in
        AreKnown s (F.file_map files.old) known.old → AreKnown s (F.file_map files.old) known.new }
    ensures outcome { let s = setting_of H.hash context.now in
        AreKnown s (F.file_map files.old) known.old
        → IfOk result (λ is_match. MayMiss (Rose (F.faults files.old) (F.faults files.new)) is_match
        (list_all (matches s (F.file_map files.old)) (includes_in includes.now))) }
{
    for include in includes {
        let matches = include_matches::<H, F>(alloc, files, known, &include.lend(), context)?;
        if !matches {
            return Ok(false);
        }
    }
    Ok(true)
}
