//! Digests of known bytes, and of what calls feed.
use crate::cases::{CaseError, Given, Value};
use cck_util::{
    Digest, HASH_BUFFER_SIZE, HashState, Sha256State, hash_arguments, hash_len_prefixed,
    hash_length, hash_option, hash_request_variables, hash_text_list, hash_variable_list, hex,
};
use std::alloc::Global;

#[derive(Clone, Copy)]
pub(crate) enum DigestCall {
    Hex,
    BufferSize,
    State,
    Digest,
    Pieces,
    Delimiter,
    Length,
    LengthPrefixed,
    TextList,
    Option,
    VariableList,
    RequestVariables,
    Arguments,
}

pub(crate) const CALLS: [(&str, DigestCall); 13] = [
    ("hex_digits", DigestCall::Hex),
    ("hash_buffer_size", DigestCall::BufferSize),
    ("state", DigestCall::State),
    ("digest", DigestCall::Digest),
    ("digest_of_pieces", DigestCall::Pieces),
    ("delimiter", DigestCall::Delimiter),
    ("hash_length", DigestCall::Length),
    ("hash_len_prefixed", DigestCall::LengthPrefixed),
    ("hash_text_list", DigestCall::TextList),
    ("hash_option", DigestCall::Option),
    ("hash_variable_list", DigestCall::VariableList),
    ("hash_request_variables", DigestCall::RequestVariables),
    ("hash_arguments", DigestCall::Arguments),
];

// If a call feeds a digest, the digest was fed `base` before.
pub(crate) fn call<'a>(
    call: DigestCall,
    given: &'a Given,
    pieces: &[Vec<u8>],
    bytes: &[u8],
) -> Result<Value<'a>, CaseError> {
    match call {
        DigestCall::Hex => Ok(Value::Text(hex(given.alloc, bytes)?)),
        DigestCall::BufferSize => Ok(Value::Number(HASH_BUFFER_SIZE as u64)),
        DigestCall::State => state(given.alloc, pieces),
        _ => {
            let mut digest = Digest::<Sha256State>::new();
            digest.update(&given.base);
            feed(call, given, pieces, bytes, &mut digest)?;
            Ok(Value::Text(digest.finish(given.alloc)?))
        }
    }
}

fn feed(
    call: DigestCall,
    given: &Given,
    pieces: &[Vec<u8>],
    bytes: &[u8],
    digest: &mut Digest<Sha256State>,
) -> Result<(), CaseError> {
    match call {
        DigestCall::Hex | DigestCall::BufferSize | DigestCall::State => {}
        DigestCall::Digest => digest.update(bytes),
        DigestCall::Pieces => update_each(digest, pieces),
        DigestCall::Delimiter => digest.delimiter(bytes),
        DigestCall::Length => hash_length(digest, bytes.len()),
        DigestCall::LengthPrefixed => hash_len_prefixed(digest, bytes),
        DigestCall::TextList => hash_text_list(digest, &given.extra_hashes),
        DigestCall::Option => hash_option(digest, given.assembler()),
        DigestCall::VariableList => feed_variable_list(given, digest)?,
        DigestCall::RequestVariables => hash_request_variables(digest, &given.variables),
        DigestCall::Arguments => feed_arguments(given, digest)?,
    }
    Ok(())
}

fn update_each(digest: &mut Digest<Sha256State>, pieces: &[Vec<u8>]) {
    for piece in pieces {
        digest.update(piece);
    }
}

fn state<'a>(alloc: Global, pieces: &[Vec<u8>]) -> Result<Value<'a>, CaseError> {
    let mut state = Sha256State::start();
    for piece in pieces {
        state.feed(piece);
    }
    Ok(Value::Text(hex(alloc, &state.out())?))
}

fn feed_arguments(given: &Given, digest: &mut Digest<Sha256State>) -> Result<(), CaseError> {
    hash_arguments(given.alloc, digest, &given.arguments, &given.basedirs)?;
    Ok(())
}

// Feeds the variables whose names are the arguments as one list.
fn feed_variable_list(given: &Given, digest: &mut Digest<Sha256State>) -> Result<(), CaseError> {
    hash_variable_list(digest, &given.variables, &names_of(given)?);
    Ok(())
}

// The arguments as names.
fn names_of(given: &Given) -> Result<Vec<&[u8]>, CaseError> {
    let mut names: Vec<&[u8]> = Vec::new(given.alloc);
    for name in &given.arguments {
        names.push(name)?;
    }
    Ok(names)
}
