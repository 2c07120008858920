//! What a hit writes.
ghost use Rattle.std.specs.Prelude.{◌≡◌};
ghost use Rattle.cck_cache.specs.Outputs.{has_outputs};

use anyhow::{Context, Result};
use cck_cache_files::StoreDirectory;
use cck_cache_options::Outputs;
use cck_cache_rules::ObjectFile;
use std::io::Write;
use std::rt::Files;
use std::{fs, io};

/// Whether an object file has what is to be written: some dependencies, if there is a path for them.
pub fn has_outputs(object: &ObjectFile, outputs: &Outputs<'_>) -> bool
    ensures { result ≡ has_outputs outputs.now object.now }
{
    outputs.dependencies.is_none() || !object.dependencies.is_empty()
}

// Writes a file at its path, as gcc writes a dependency file: one that is there keeps its mode and its
// other names.
fn write_in_place<R: Files>(rt: &R, path: &str, bytes: &[u8]) -> io::Result<()> {
    let mut file = fs::create(rt, path)?;
    file.write_all(bytes)
}

/// Writes the parts of an object file: the dependency file, if there is a path for it, and the object. The compiler's
/// messages are appended to `messages`. As gcc does, the dependency file is written in place and before the object,
/// and the object is made anew: an object that is there has its dependencies.
///
/// The error is of a file that can't be made, written or renamed, or lack of memory. What was written
/// before it stays: the dependency file then may have some of its bytes, as one of a compilation that
/// failed.
pub fn write_outputs<R: Files + AllocGlobal>(
    rt: &R,
    store: &StoreDirectory,
    outputs: &Outputs<'_>,
    object: &ObjectFile,
    messages: &mut Vec<u8>,
) -> Result<()> {
    if let Some(path) = outputs.dependencies {
        write_in_place(rt, path, &object.dependencies).context("the dependency file")?;
    }
    store
        .replace(rt, outputs.object, &object.object)
        .context("the object")?;
    messages.extend_from_slice(&object.messages)?;
    Ok(())
}
