//! Lists and options as key material, from which the end of each part is known.
ghost use Rattle.std.specs.Prelude.{ℕ, List, ◌++◌, OnOk, map};
ghost use Rattle.std.specs.Option.{option_map};
ghost use Rattle.cck_digest.specs.Frames.{framed_list, frame, framed_option};
ghost use Rattle.cck_path.specs.Bytes.{lists_of};
ghost use Rattle.cck_strip.specs.Argument.{stripped_argument};

use cck_digest::{Digest, HashState, hash_len_prefixed, hash_length};
use cck_strip::strip_basedirs_from_arg;
use std::alloc::{AllocError, Global};
use std::convert::AsSlice;

/// Feeds the count of these texts, then a frame of each, in order. It allocates no memory.
pub fn hash_text_list<H: HashState, T: AsSlice<u8>>(digest: &mut Digest<H>, texts: &[T])
    ensures { (fed : List ℕ) → H.holds digest.old fed →
        H.holds digest.new (fed ++ framed_list frame (map T.items texts.now)) }
{
    hash_length(digest, texts.len());
    for text in texts {
        hash_len_prefixed(digest, text.as_slice());
    }
}

/// Feeds a byte 0 for `None`, and otherwise a byte 1 and a frame of the text. It allocates no memory.
pub fn hash_option<H: HashState, T: AsSlice<u8> + Copy>(digest: &mut Digest<H>, text: Option<T>)
    ensures { (fed : List ℕ) → H.holds digest.old fed →
        H.holds digest.new (fed ++ framed_option (option_map T.items text)) }
{
    match text {
        None => digest.update(&[0]),
        Some(text) => {
            digest.update(&[1]);
            hash_len_prefixed(digest, text.as_slice());
        }
    }
}

// Feeds the count of the arguments, then a frame of each without its base directories, in order.
pub(crate) fn hash_argument_list<H: HashState>(
    alloc: Global,
    digest: &mut Digest<H>,
    arguments: &[Vec<u8>],
    basedirs: &[Vec<u8>],
) -> Result<(), AllocError>
    ensures { OnOk result ((fed : List ℕ) → H.holds digest.old fed → H.holds digest.new
        (fed ++ framed_list frame (map (stripped_argument (lists_of basedirs.now)) (lists_of arguments.now)))) }
{
    hash_length(digest, arguments.len());
    for argument in arguments {
        let stripped = match strip_basedirs_from_arg(alloc, argument, basedirs) {
            Ok(stripped) => stripped,
            Err(_) => return Err(AllocError),
        };
        hash_len_prefixed(digest, stripped.as_slice());
    }
    Ok(())
}
