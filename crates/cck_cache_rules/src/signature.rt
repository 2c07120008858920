//! The code of bytes under a key, by which a bytes is signed.
ghost use Rattle.std.specs.Prelude.{◌≡◌, ◌≤◌, ℕ, List, ◌++◌, length, replicate};
ghost use Rattle.cck_cache_rules.specs.Signature.{hmac, pad, signed_text};

use cck_digest::HashState;

// The output for these bytes.
fn output<H: HashState>(bytes: &[u8]) -> [u8; 32]
    ensures { result ≡ H.hash bytes.now }
{
    let mut state = H::start();
    state.feed(bytes);
    state.out()
}

// Feeds a byte so many times.
fn feed_times<H: HashState>(state: &mut H, byte: u8, count: usize)
    requires { count ≤ 64 }
    ensures { (fed : List ℕ) → H.holds state.old fed → H.holds state.new (fed ++ replicate count byte) }
{
    let bytes = [byte; 64];
    state.feed(&bytes[..count]);
}

// A state that was fed the pad of a key with this byte.
fn padded<H: HashState>(key: &[u8], byte: u8) -> H
    requires { length key.now ≤ 64 }
    ensures { H.holds result (pad byte key.now) }
{
    let mut state = H::start();
    for digit in key {
        state.feed(&[*digit ^ byte]);
    }
    feed_times(&mut state, byte, 64 - key.len());
    state
}

// The code under a key of at most 64 bytes.
fn signature_by<H: HashState>(key: &[u8], kind: &[u8], name: &[u8], bytes: &[u8]) -> [u8; 32]
    requires { length key.now ≤ 64 }
    ensures { result ≡ H.hash (pad 92 key.now ++ H.hash (pad 54 key.now ++ signed_text kind.now name.now bytes.now)) }
{
    let mut inner = padded::<H>(key, 0x36);
    inner.feed(kind);
    inner.feed(b"\n");
    inner.feed(name);
    inner.feed(b"\n");
    inner.feed(bytes);
    let inner = inner.out();
    let mut outer = padded::<H>(key, 0x5c);
    outer.feed(&inner);
    outer.out()
}

/// The code of HMAC (RFC 2104) under a key for a kind, a line feed, a name, a line feed and bytes.
///
/// It allocates no memory.
pub(crate) fn signature<H: HashState>(
    key: &[u8],
    kind: &[u8],
    name: &[u8],
    bytes: &[u8],
) -> [u8; 32]
    ensures { result ≡ hmac H.hash key.now (signed_text kind.now name.now bytes.now) }
{
    if key.len() > 64 {
        let digest = output::<H>(key);
        signature_by::<H>(&digest, kind, name, bytes)
    } else {
        signature_by::<H>(key, kind, name, bytes)
    }
}
