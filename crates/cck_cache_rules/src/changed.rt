//! Whether bytes may be of an entry by which a file has its present contents.
ghost use Rattle.std.specs.Prelude.{◌↔◌, IfOk, IsTrue};
ghost use Rattle.cck_cache_rules.specs.Changed.{MayHaveDigest};

use crate::argument::contains;
use crate::frames::number_bytes;
use crate::path_test::joined;
use std::alloc::{AllocError, Global};

/// Whether the bytes of an entry file may be of an entry by which the file of this path has contents of this
/// hex digest. `false` only where they have the path, after its length, and not the digest.
///
/// The only error is lack of memory.
pub fn may_have_digest(
    alloc: Global,
    bytes: &[u8],
    path: &[u8],
    digest: &str,
) -> Result<bool, AllocError>
    ensures { IfOk result (λ may. IsTrue may ↔ MayHaveDigest bytes.now path.now digest.now) }
{
    let framed = joined(alloc, &number_bytes(path.len() as u64), path)?;
    Ok(!contains(bytes, &framed) || contains(bytes, digest.as_bytes()))
}
