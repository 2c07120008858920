//! The entry of an entry file.
ghost use Rattle.std.specs.Prelude.{IfOk, MatchOption};
ghost use Rattle.cck_entry.specs.Entry.{Entry, EntryText};

use cck_entry::{EntryView, Error};
use std::alloc::{AllocError, Global};

/// The entry whose text these bytes are. `None` where they are the text of none.
///
/// The only error is lack of memory.
pub fn entry_view(alloc: Global, bytes: &[u8]) -> Result<Option<EntryView<'_>>, AllocError>
    ensures { IfOk result (λ view. MatchOption view ((e : Entry) → EntryText e bytes.now → ⊥) (λ e. EntryText e bytes.now)) }
{
    if bytes.is_empty() {
        return Ok(None);
    }
    match EntryView::read(alloc, bytes) {
        Ok(view) => Ok(Some(view)),
        Err(Error::Memory) => Err(AllocError),
        Err(_) => Ok(None),
    }
}
