//! Makes a value of a server.
use anyhow::Result;
use cck_cache_options::Seal;
use cck_cache_rules::{compress_value, sign_value};
use cck_cache_store::read_key;
use cck_util::Sha256State;
use std::rt::Files;

/// The value of a server that is made of these bytes: with the number of bytes of the file, if they are a frame of zstd, and
/// then with a signature, if there is a key.
///
/// The error is of a key that can't be read or is too short, or lack of memory.
pub fn seal<R: Files + AllocGlobal>(rt: &R, wanted: &Seal<'_>, bytes: Vec<u8>) -> Result<Vec<u8>> {
    let alloc = rt.alloc();
    let value = match wanted.expanded {
        Some(size) => compress_value(alloc, size, &bytes)?,
        None => bytes,
    };
    let Some(path) = wanted.sign_key else {
        return Ok(value);
    };
    let key = read_key(rt, path)?;
    let (kind, name) = (wanted.kind.as_bytes(), wanted.name.as_bytes());
    Ok(sign_value::<Sha256State>(alloc, &key, kind, name, &value)?)
}
