//! The bytes of a file of the store: its kind, a checksum of the frames, and frames.
ghost use Rattle.std.specs.Prelude.{◌≡◌, IfOk, map};
ghost use Rattle.std.specs.Option.{option_map};
ghost use Rattle.cck_cache_rules.specs.Reading.{ReadsBack, lent_lists};
ghost use Rattle.cck_cache_rules.specs.Stored.{IsCut, stored_file};

use crate::checksum::checksum;
use crate::frames::{push_frame, read_frames};
use std::alloc::{AllocError, Global};

/// The number of bytes of a checksum.
const CHECKSUM_LENGTH: usize = 32;

/// The bytes of a file of this kind with these parts: the kind, the checksum of the frames, and a
/// frame for each part.
///
/// The only error is lack of memory.
pub fn write_stored(alloc: Global, kind: &[u8], parts: &[&[u8]]) -> Result<Vec<u8>, AllocError>
    ensures { IfOk result (λ file. file.items ≡ stored_file kind.now (map (λ p. p.now) parts.now)) }
{
    let mut frames = Vec::new(alloc);
    for part in parts {
        push_frame(&mut frames, part)?;
    }
    let sums = checksum(&frames);
    let mut bytes = Vec::new(alloc);
    bytes.extend_from_slice(kind)?;
    bytes.extend_from_slice(sums.as_flattened())?;
    bytes.extend_from_slice(&frames)?;
    Ok(bytes)
}

/// The 32 bytes of a checksum or a signature after a kind, and the bytes after them. `None` where the bytes are too
/// few, or of another kind.
pub(crate) fn cut_stored<'a>(kind: &[u8], bytes: &'a [u8]) -> Option<(&'a [u8], &'a [u8])>
    ensures { IsCut kind.now bytes.now (option_map (λ r. (r.0.now, r.1.now)) result) }
{
    let rest = bytes.strip_prefix(kind)?;
    if rest.len() < CHECKSUM_LENGTH {
        return None;
    }
    Some(rest.split_at(CHECKSUM_LENGTH))
}

/// The parts of a file of this kind. `None` where these are not the bytes of one.
///
/// The only error is lack of memory.
pub fn read_stored<'a>(
    alloc: Global,
    kind: &[u8],
    bytes: &'a [u8],
) -> Result<Option<Vec<&'a [u8]>>, AllocError>
    ensures { IfOk result (λ found. ReadsBack (stored_file kind.now) bytes.now (option_map lent_lists found)) }
{
    let Some((written, frames)) = cut_stored(kind, bytes) else {
        return Ok(None);
    };
    let sums = checksum(frames);
    if sums.as_flattened() != written {
        return Ok(None);
    }
    read_frames(alloc, frames)
}
