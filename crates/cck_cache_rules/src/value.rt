//! The values that a server has: files of a store, which may be compressed, and signed.
ghost use Rattle.std.specs.Prelude.{◌≡◌, IfOk};
ghost use Rattle.std.specs.Option.{option_map};
ghost use Rattle.cck_cache_rules.specs.Reading.{ReadsBack};
ghost use Rattle.cck_cache_rules.specs.Value.{IsPayload, IsUnsigned, compressed_value, signed_value};

use crate::frames::{number_bytes, read_number};
use crate::signature::signature;
use crate::stored::cut_stored;
use cck_digest::HashState;
use std::alloc::{AllocError, Global};

/// How a signed value begins. The signature follows, and then what is signed.
const SIGNED: &[u8] = b"cck signed 1\n";

/// How compressed bytes begin. The number of bytes of the file follows, and then the frame.
const COMPRESSED: &[u8] = b"cck zstd 1\n";

/// What a value without its signature holds.
#[derive(Clone, Copy)]
pub enum Payload<'a> {
    /// The bytes of a file of a store.
    File(&'a [u8]),
    /// A file of a store that is compressed.
    Compressed {
        /// The number of bytes of the file.
        size: u64,
        /// The file, as a frame of zstd.
        frame: &'a [u8],
    },
}

/// Bytes that are signed with a key, as those of a kind and a name: `cck signed 1`, a line feed, the code of 32 bytes that
/// HMAC (RFC 2104) has for the kind, a line feed, the name, a line feed and the bytes, and then the bytes.
///
/// The only error is lack of memory.
pub fn sign_value<H: HashState>(
    alloc: Global,
    key: &[u8],
    kind: &[u8],
    name: &[u8],
    bytes: &[u8],
) -> Result<Vec<u8>, AllocError>
    ensures { IfOk result (λ value. value.items ≡ signed_value H.hash key.now kind.now name.now bytes.now) }
{
    let code = signature::<H>(key, kind, name, bytes);
    let mut value = Vec::new(alloc);
    value.extend_from_slice(SIGNED)?;
    value.extend_from_slice(&code)?;
    value.extend_from_slice(bytes)?;
    Ok(value)
}

/// The bytes that were [signed](sign_value) with this key, as those of this kind and name. `None` where the value is none
/// of such bytes: it was not made with the key, if codes of HMAC can't be made without it.
///
/// It allocates no memory.
pub fn verified_value<'a, H: HashState>(
    key: &[u8],
    kind: &[u8],
    name: &[u8],
    value: &'a [u8],
) -> Option<&'a [u8]>
    ensures { ReadsBack (signed_value H.hash key.now kind.now name.now) value.now (option_map (λ b. b.now) result) }
{
    let (code, bytes) = cut_stored(SIGNED, value)?;
    let own = signature::<H>(key, kind, name, bytes);
    if own.as_slice() != code {
        return None;
    }
    Some(bytes)
}

/// A value without its signature, which is not tested, or all of a value that has none.
///
/// It allocates no memory.
pub fn unsigned_value(value: &[u8]) -> &[u8]
    ensures { IsUnsigned value.now result.now }
{
    match cut_stored(SIGNED, value) {
        Some((_, bytes)) => bytes,
        None => value,
    }
}

/// A frame of zstd as a value, with the number of bytes of the file that it was made of.
///
/// The only error is lack of memory.
pub fn compress_value(alloc: Global, size: u64, frame: &[u8]) -> Result<Vec<u8>, AllocError>
    ensures { IfOk result (λ value. value.items ≡ compressed_value size frame.now) }
{
    let mut value = Vec::new(alloc);
    value.extend_from_slice(COMPRESSED)?;
    value.extend_from_slice(&number_bytes(size))?;
    value.extend_from_slice(frame)?;
    Ok(value)
}

/// What a value without its signature holds.
///
/// It allocates no memory.
pub fn payload_of(value: &[u8]) -> Payload<'_>
    ensures { IsPayload value.now result }
{
    let Some(rest) = value.strip_prefix(COMPRESSED) else {
        return Payload::File(value);
    };
    match read_number(rest) {
        Some((size, frame)) => Payload::Compressed { size, frame },
        None => Payload::File(value),
    }
}
