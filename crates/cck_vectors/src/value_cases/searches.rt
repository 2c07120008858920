//! Cuts base directories out of a text by one search for each of them. `strip_basedirs`, which
//! takes all in one pass, is compared with this.
use cck_util::UtilError;
use std::alloc::{AllocError, Global};
use std::borrow::CowSlice;

fn is_separator(byte: u8) -> bool {
    matches!(byte, b' ' | b'\t' | b'\n' | b'\x0c' | b'\r' | b'"' | b'<')
}

// Whether the place is the start of the text, or directly after a separator.
fn is_boundary(text: &[u8], at: usize) -> bool {
    match at.checked_sub(1) {
        Some(before) => is_separator(text.get(before).copied().unwrap_or_default()),
        None => true,
    }
}

// Adds the boundaries of the text at which this base directory occurs.
fn add_places(text: &[u8], basedir: &[u8], places: &mut Vec<usize>) -> Result<(), UtilError> {
    for at in 0..text.len() {
        if text[at..].starts_with(basedir) && is_boundary(text, at) {
            places.push(at)?;
        }
    }
    Ok(())
}

// The length of the longest of these base directories with which the text begins, and 0 if there
// is none.
fn longest_prefix(text: &[u8], basedirs: &[Vec<u8>]) -> usize {
    let mut longest = 0;
    for basedir in basedirs {
        if text.starts_with(basedir) {
            longest = longest.max(basedir.len());
        }
    }
    longest
}

/// Returns what `strip_basedirs` has to return.
pub(crate) fn strip_by_searches<'a>(
    alloc: Global,
    text: &'a [u8],
    basedirs: &[Vec<u8>],
) -> Result<CowSlice<'a, u8>, UtilError> {
    let mut places = Vec::new(alloc);
    for basedir in basedirs {
        if !basedir.is_empty() {
            add_places(text, basedir, &mut places)?;
        }
    }
    if places.is_empty() {
        return Ok(CowSlice::Borrowed(text));
    }
    places.sort()?;
    let mut kept = Vec::new(alloc);
    keep_between(text, basedirs, &places, &mut kept)?;
    Ok(CowSlice::Owned(kept))
}

// Adds what remains of the text if the base directories at these places are cut.
fn keep_between(
    text: &[u8],
    basedirs: &[Vec<u8>],
    places: &[usize],
    kept: &mut Vec<u8>,
) -> Result<(), AllocError> {
    let mut copied = 0;
    for place in places {
        // A place inside the last cut is skipped.
        if *place >= copied {
            kept.extend_from_slice(text.get(copied..*place).unwrap_or_default())?;
            let rest = text.get(*place..).unwrap_or_default();
            copied = place.saturating_add(longest_prefix(rest, basedirs));
        }
    }
    kept.extend_from_slice(text.get(copied..).unwrap_or_default())
}
