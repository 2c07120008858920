//! Digests and hex digests.
ghost use Rattle.std.specs.Prelude.{◌≡◌, ◌<◌, ℕ, List, [], ◌++◌, length, IfOk, IsOkUnless, string_bytes};
ghost use Rattle.cck_digest.specs.Digest.{delimiter_bytes, digest_text, hex_digit, hex_text};
ghost use Rattle.cck_digest.specs.Frames.{frame, length_bytes};

use crate::{HashState, UtilError};
use std::alloc::Global;
use std::marker::Model;

/// A digest that is computed incrementally. It depends on the bytes that were fed, in their order,
/// and not on how they were cut into pieces.
///
/// Upstream's `util::Digest`, with the hash function as a type parameter.
#[derive(Drop)]
pub struct Digest<H: HashState> {
    state: H,
}

impl<H: HashState> Model for Digest<H> {
    ghost Value = { H };

    ghost view = { λ digest. digest.state };
}

impl<H: HashState> Digest<H> {
    /// A digest that was fed no bytes. It allocates no memory.
    pub fn new() -> Digest<H>
        ensures { H.holds result [] }
    {
        Digest { state: H::start() }
    }

    /// Feeds these bytes. It allocates no memory.
    pub fn update(&mut self, bytes: &[u8])
        ensures { (fed : List ℕ) → H.holds self.old fed → H.holds self.new (fed ++ bytes.now) }
    {
        self.state.feed(bytes);
    }

    /// Feeds a zero byte, `SCCACHE`, a zero byte, the name and a zero byte. They separate what is
    /// fed after them from what was fed before. It allocates no memory.
    pub fn delimiter(&mut self, name: &[u8])
        ensures { (fed : List ℕ) → H.holds self.old fed → H.holds self.new (fed ++ delimiter_bytes name.now) }
    {
        self.update(b"\0SCCACHE\0");
        self.update(name);
        self.update(b"\0");
    }

    /// The hex digest of all that was fed: the 64 digits that [`hex`] writes for the output of the
    /// hash function.
    ///
    /// The only error is [`UtilError::Memory`].
    pub fn finish(self, alloc: Global) -> Result<String, UtilError>
        ensures text { IfOk result (λ text. (fed : List ℕ) → H.holds self fed → string_bytes text ≡ digest_text H.hash fed) }
        ensures digits { IfOk result (λ text. length (string_bytes text) ≡ 64) }
        ensures errors { IsOkUnless result UtilError.Memory }
    {
        let out = self.state.out();
        hex(alloc, &out)
    }
}

/// Feeds a length or a count as 8 bytes, the lowest first. It allocates no memory.
///
/// It replaces upstream's `HashToDigest`, whose lengths have the width of the machine's words.
pub fn hash_length<H: HashState>(digest: &mut Digest<H>, length: usize)
    ensures { (fed : List ℕ) → H.holds digest.old fed → H.holds digest.new (fed ++ length_bytes length) }
{
    let length = length as u64;
    digest.update(&length.to_le_bytes());
}

/// Feeds a frame: the length of these bytes, as [`hash_length`] feeds it, and then the bytes. It
/// allocates no memory.
pub fn hash_len_prefixed<H: HashState>(digest: &mut Digest<H>, bytes: &[u8])
    ensures { (fed : List ℕ) → H.holds digest.old fed → H.holds digest.new (fed ++ frame bytes.now) }
{
    hash_length(digest, bytes.len());
    digest.update(bytes);
}

/// The hexadecimal digit of half a byte, in lower case.
pub fn hex_digit(half: u8) -> u8
    requires { half < 16 }
    ensures { result ≡ hex_digit half }
{
    if half < 10 {
        b'0' + half
    } else {
        b'a' + (half - 10)
    }
}

/// Two hexadecimal digits for each byte, in lower case, that of the low half first.
///
/// The order of the halves is that of upstream's `util::hex`: the byte `0x1f` is written `f1`. The
/// only error is [`UtilError::Memory`].
pub fn hex(alloc: Global, bytes: &[u8]) -> Result<String, UtilError>
    ensures text { IfOk result (λ text. string_bytes text ≡ hex_text bytes.now) }
    ensures errors { IsOkUnless result UtilError.Memory }
{
    let mut text = String::new(alloc);
    for byte in bytes {
        text.push(char::from(hex_digit(*byte % 16)))?;
        text.push(char::from(hex_digit(*byte / 16)))?;
    }
    Ok(text)
}
