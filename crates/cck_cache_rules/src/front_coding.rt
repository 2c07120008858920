//! Front coding: texts of which each is written without the beginning that it shares with the one before.
ghost use Rattle.std.specs.Prelude.{ℕ, List, ◌++◌};
ghost use Rattle.cck_cache_rules.specs.FrontCoding.{framed_front_coded, short_frame, short_length};
ghost use Rattle.cck_path.specs.Bytes.{lists_of};

use cck_digest::{Digest, HashState, hash_length};
use cck_path::common_prefix_len;

// Feeds a number below 255 as one byte, and another one as the byte 255 and its 8 bytes.
fn hash_short_length<H: HashState>(digest: &mut Digest<H>, length: usize)
    ensures { (fed : List ℕ) → H.holds digest.old fed → H.holds digest.new (fed ++ short_length length) }
{
    if length < 255 {
        digest.update(&[length as u8]);
        return;
    }
    digest.update(&[255]);
    hash_length(digest, length);
}

// Feeds the length of these bytes, and then the bytes.
fn hash_short_frame<H: HashState>(digest: &mut Digest<H>, bytes: &[u8])
    ensures { (fed : List ℕ) → H.holds digest.old fed → H.holds digest.new (fed ++ short_frame bytes.now) }
{
    hash_short_length(digest, bytes.len());
    digest.update(bytes);
}

/// Feeds the count of these texts, then of each how many bytes at its beginning are those of the one before, and the
/// rest after its length. It allocates no memory.
pub fn hash_front_coded<H: HashState>(digest: &mut Digest<H>, texts: &[Vec<u8>])
    ensures { (fed : List ℕ) → H.holds digest.old fed →
        H.holds digest.new (fed ++ framed_front_coded (lists_of texts.now)) }
{
    hash_length(digest, texts.len());
    let mut before: &[u8] = b"";
    for text in texts {
        let shared = common_prefix_len(before, text);
        hash_short_length(digest, shared);
        hash_short_frame(digest, &text[shared..]);
        before = text;
    }
}
