//! What is taken of the values of a server.
ghost use Rattle.std.specs.Prelude.{IfOk};
ghost use Rattle.std.specs.Option.{option_map};
ghost use Rattle.cck_cache_store.specs.Given.{IsGiven, IsTested};

use crate::peer::{Peer, kind_word};
use cck_cache_files::Kind;
use cck_cache_rules::{Payload, payload_of, unsigned_value, verified_value};
use cck_util::Sha256State;
use std::alloc::Global;
use std::io;

/// What a server has under a name.
#[derive(Drop)]
pub enum Given {
    /// The bytes of a file, which may be any.
    File(Vec<u8>),
    /// A value without the right signature.
    Forged,
    /// Nothing, or nothing that could be had.
    Nothing,
}

// What a value is a file of, tested by a key of signatures if there is one. `None` if the key did not sign it.
fn tested_value<'a>(key: Option<&[u8]>, kind: Kind, name: &str, value: &'a [u8]) -> Option<&'a [u8]>
    ensures { IsTested (option_map (λ k. k.now) key.entry) kind name.now value.now (option_map (λ b. b.now) result) }
{
    match key {
        Some(key) => verified_value::<Sha256State>(
            key,
            kind_word(kind).as_bytes(),
            name.as_bytes(),
            value,
        ),
        None => Some(unsigned_value(value)),
    }
}

/// Asks for the file of a kind and a name. With a key of signatures, a value that it did not sign is not used.
///
/// The error is that of [`Peer::get`] or [`Peer::expand`], or lack of memory.
pub fn given_file<S: Peer>(
    alloc: Global,
    peer: &mut S,
    key: Option<&[u8]>,
    kind: Kind,
    name: &str,
) -> io::Result<Given>
    ensures { IfOk result (IsGiven (S.has peer.old kind name.now) (option_map (λ k. k.now) key.entry) kind name.now) }
{
    let Some(value) = peer.get(alloc, kind, name)? else {
        return Ok(Given::Nothing);
    };
    let Some(bytes) = tested_value(key, kind, name, &value) else {
        return Ok(Given::Forged);
    };
    match payload_of(bytes) {
        Payload::File(file) => Ok(Given::File(file.to_vec(alloc)?)),
        Payload::Compressed { size, frame } => match peer.expand(alloc, size, frame)? {
            Some(file) => Ok(Given::File(file)),
            None => Ok(Given::Nothing),
        },
    }
}
