//! Takes an object from an object file that is not in the store.
use crate::outputs::{has_outputs, write_outputs};
use crate::server_key::server_key;
use anyhow::{Context, Result};
use cck_cache_files::{Kind, StoreDirectory};
use cck_cache_options::{Packed, Source};
use cck_cache_rules::object_in;
use cck_cache_store::{Given, Peer, given_file};
use std::fs;
use std::rt::Files;

/// How an object file was taken.
#[derive(Clone, Copy, PartialEq, Eq)]
pub enum Taken {
    /// Its parts were written.
    Written,
    /// It is none of its name, or has no dependencies for a path that there is for them.
    Damaged,
    /// It has not the right signature.
    Forged,
    /// There is none.
    Absent,
}

// Writes the parts of an object file of these bytes.
fn write_parts<R: Files + AllocGlobal>(
    rt: &R,
    store: &StoreDirectory,
    packed: &Packed<'_>,
    bytes: &[u8],
    messages: &mut Vec<u8>,
) -> Result<Taken> {
    let Some(object) = object_in(rt.alloc(), packed.name, bytes)? else {
        return Ok(Taken::Damaged);
    };
    if !has_outputs(&object, &packed.outputs) {
        return Ok(Taken::Damaged);
    }
    write_outputs(rt, store, &packed.outputs, &object, messages)?;
    Ok(Taken::Written)
}

/// Writes the object that an object file has, the dependency file, if there is a path for it, and the
/// compiler's messages. In all other cases nothing is written. Where the store keeps what a server has, the object file is
/// written there, if it can be.
///
/// The error is of an object file that can't be read, a key of signatures that can't be read or is too short, lack of memory,
/// that of [`given_file`], or that of [`write_outputs`], which says what is then written.
pub fn unpack<R: Files + AllocGlobal, S: Peer>(
    rt: &R,
    store: &StoreDirectory,
    packed: &Packed<'_>,
    peer: &mut S,
    messages: &mut Vec<u8>,
) -> Result<Taken> {
    let server = match packed.source {
        Source::Path(path) => {
            let bytes = fs::read(rt, path).context("the object file")?;
            return write_parts(rt, store, packed, &bytes, messages);
        }
        Source::Server(server) => server,
    };
    let (alloc, key) = (rt.alloc(), server_key(rt, Some(server))?);
    let bytes = match given_file(alloc, peer, key.as_deref(), Kind::Object, packed.name)? {
        Given::File(bytes) => bytes,
        Given::Forged => return Ok(Taken::Forged),
        Given::Nothing => return Ok(Taken::Absent),
    };
    let taken = write_parts(rt, store, packed, &bytes, messages)?;
    if taken == Taken::Written && server.keeps {
        let _ = store.write(rt, Kind::Object, packed.name, &bytes);
    }
    Ok(taken)
}
