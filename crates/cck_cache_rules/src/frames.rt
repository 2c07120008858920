//! Frames: bytes after their length, which is 8 bytes, the lowest first.
ghost use Rattle.std.specs.Prelude.{◌≡◌, ◌++◌, ◌<◌, IfOk, MatchOption, OnOk, length};
ghost use Rattle.std.specs.List.{flat_map};
ghost use Rattle.std.specs.Option.{option_map};
ghost use Rattle.cck_digest.specs.Frames.{frame, length_bytes};
ghost use Rattle.cck_cache_rules.specs.Frames.{frame_before};
ghost use Rattle.cck_cache_rules.specs.Reading.{ReadsBack, lent_lists};

use std::alloc::{AllocError, Global};

/// The 8 bytes of a number, the lowest first.
pub fn number_bytes(number: u64) -> [u8; 8]
    ensures { result ≡ length_bytes number }
{
    number.to_le_bytes()
}

/// Appends a frame of these bytes.
pub fn push_frame(all: &mut Vec<u8>, bytes: &[u8]) -> Result<(), AllocError>
    ensures { OnOk result (all.new.items ≡ all.old.items ++ frame bytes.now) }
{
    all.extend_from_slice(&number_bytes(bytes.len() as u64))?;
    all.extend_from_slice(bytes)?;
    Ok(())
}

/// The number in the first 8 bytes, and the bytes after it. `None` where there are fewer than 8.
pub fn read_number(bytes: &[u8]) -> Option<(u64, &[u8])>
    ensures { MatchOption result (length bytes.now < 8) (λ r. bytes.now ≡ length_bytes r.0 ++ r.1.now) }
{
    if bytes.len() < 8 {
        return None;
    }
    let (front, rest) = bytes.split_at(8);
    let number = u64::from_le_bytes([
        front[0], front[1], front[2], front[3], front[4], front[5], front[6], front[7],
    ]);
    Some((number, rest))
}

/// The bytes of the frame at the beginning, and what is after it. `None` where there is no frame.
pub fn read_frame(bytes: &[u8]) -> Option<(&[u8], &[u8])>
    ensures { ReadsBack frame_before bytes.now (option_map (λ r. (r.0.now, r.1.now)) result) }
{
    let (length, rest) = read_number(bytes)?;
    if (rest.len() as u64) < length {
        return None;
    }
    Some(rest.split_at(length as usize))
}

/// The bytes of all frames, of which these bytes consist. `None` where they do not.
pub fn read_frames<'a>(alloc: Global, bytes: &'a [u8]) -> Result<Option<Vec<&'a [u8]>>, AllocError>
    ensures { IfOk result (λ found. ReadsBack (flat_map frame) bytes.now (option_map lent_lists found)) }
{
    let mut all = Vec::new(alloc);
    let mut rest = bytes;
    while !rest.is_empty() {
        let Some((frame, after)) = read_frame(rest) else {
            return Ok(None);
        };
        all.push(frame)?;
        rest = after;
    }
    Ok(Some(all))
}
