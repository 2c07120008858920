//! Places of a word among 64 places of a text, a bit for each.
ghost use Rattle.std.specs.Prelude.{◌≡◌, ◌≢◌, ℕ, ◌+◌, ◌<◌, ◌≤◌, length, slice_index};
ghost use Rattle.std.specs.Int.{bit_at};
ghost use Rattle.cck_strip.specs.Lanes.{MarksWord};

use std::simd::prelude::*;

// The 64 bytes of the text from this place on.
#[inline(always)]
fn load(text: &[u8], at: usize) -> u8x64
    requires { at + 64 ≤ length text.now }
    ensures long { length result ≡ 64 }
    ensures each { (k : ℕ) → k < 64 → slice_index result k ≡ slice_index text.now (at + k) }
{
    u8x64::from_slice(&text[at..])
}

// At which places of the two vectors both these bytes are, one in each.
#[inline(always)]
fn both_equal(firsts: u8x64, first: u8, lasts: u8x64, last: u8) -> u64
    ensures { (k : ℕ) → k < 64 → slice_index firsts k ≡ first → slice_index lasts k ≡ last → bit_at result k ≡ 1 }
{
    (firsts.simd_eq(u8x64::splat(first)) & lasts.simd_eq(u8x64::splat(last))).to_bitmask()
}

/// At which of the 64 places from this one on the first and the last byte of the word are where the
/// word has them. The lowest bit is for the first place.
#[inline(always)]
pub fn word_marks(text: &[u8], at: usize, word: &[u8]) -> u64
    requires some { 0 < length word.now }
    requires room { at + 64 + length word.now ≤ length text.now }
    ensures { MarksWord text.now word.now at result }
{
    let last = word.len() - 1;
    both_equal(load(text, at), word[0], load(text, at + last), word[last])
}

/// The lowest bit that is set.
#[inline(always)]
pub fn lowest(marks: u64) -> usize
    requires { marks ≢ 0 }
    ensures bound { result < 64 }
    ensures below { (k : ℕ) → k < result → bit_at marks k ≡ 0 }
{
    marks.trailing_zeros() as usize
}
