//! The key of signatures of a server.
use anyhow::Result;
use cck_cache_options::Server;
use cck_cache_store::read_key;
use std::rt::Files;

/// The key of signatures of a server, if there is one whose values are tested.
///
/// The error is that of [`read_key`].
pub fn server_key<R: Files + AllocGlobal>(
    rt: &R,
    server: Option<Server<'_>>,
) -> Result<Option<Vec<u8>>> {
    match server.and_then(|server| server.verify_key) {
        Some(path) => Ok(Some(read_key(rt, path)?)),
        None => Ok(None),
    }
}
