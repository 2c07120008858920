//! The store of a command.
use crate::environment::Environment;
use anyhow::{Context, Result, bail};
use cck_cache_files::{StoreDirectory, open_store};
use std::io::ErrorKind;
use std::rt::Files;

/// The store in a directory, which is made if it is not there.
///
/// The error names the directory. It is of one with another `VERSION`, of a `VERSION` that can't be
/// read, of a directory or a `VERSION` that can't be made, or lack of memory.
pub fn store_in<R: Files + AllocGlobal>(
    rt: &R,
    environment: &Environment<'_>,
    directory: &str,
) -> Result<StoreDirectory> {
    match open_store(rt, directory, environment.id) {
        Err(error) if error.kind() == ErrorKind::InvalidData => {
            bail!("the store {directory} has another version")
        }
        opened => opened.context(format_args!("the store {directory}")),
    }
}
