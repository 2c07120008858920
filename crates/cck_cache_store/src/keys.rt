//! Keys of signatures.
ghost use Rattle.std.specs.Option.{option_map};
ghost use Rattle.cck_cache_store.specs.Keys.{IsKeyIn, IsSigningKey};

use anyhow::{Context, Result, bail};
use std::fs;
use std::rt::Files;

/// The least number of bytes of a key of signatures.
const SHORTEST_KEY: usize = 16;

// The key that a file of these bytes has.
fn key_in(bytes: &[u8]) -> &[u8]
    ensures { IsKeyIn bytes.now result.now }
{
    match bytes.split_last() {
        Some((b'\n', key)) => key,
        _ => bytes,
    }
}

// The key of signatures that a file of these bytes has. `None` where it is too short.
fn signing_key(bytes: &[u8]) -> Option<&[u8]>
    ensures { IsSigningKey bytes.now (option_map (λ k. k.now) result) }
{
    let key = key_in(bytes);
    if key.len() < SHORTEST_KEY {
        return None;
    }
    Some(key)
}

/// The key of signatures at a path: the file without a line feed at its end.
///
/// The error is of a file that can't be read or a key that is too short, or lack of memory.
pub fn read_key<R: Files + AllocGlobal>(rt: &R, path: &str) -> Result<Vec<u8>> {
    let bytes = fs::read(rt, path).context("the key of signatures")?;
    match signing_key(&bytes) {
        Some(key) => Ok(key.to_vec(rt.alloc())?),
        None => bail!("the key of signatures has less than {SHORTEST_KEY} bytes"),
    }
}
