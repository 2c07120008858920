//! Files of a text that are copies of each other.
ghost use Rattle.std.specs.Prelude.{◌↔◌, IfOk, IsTrue};
ghost use Rattle.cck_cache_files.specs.TextCopies.{IsCopiesVerdict, MayImport};
ghost use Rattle.cck_files.specs.Calls.{Keeps};
ghost use Rattle.cck_files.specs.FileState.{IsQuiet, fault_count};

use crate::preprocessed::Preprocessed;
use crate::{compared_paths, has_copies};
use cck_digest::UtilError;
use cck_files::MapFiles;
use memchr::memmem;
use std::alloc::Global;

/// Whether a text may have a directive that imports a file.
pub fn may_import(text: &[u8]) -> bool
    ensures { IsTrue result ↔ MayImport text.now }
{
    memmem::find(text, b"#import ").is_some()
}

/// Whether two files of a text are copies, of which gcc may pass over one once they have the same time.
///
/// The error is of a file of the snapshot that can't be read, or lack of memory.
pub fn may_have_copies(
    alloc: Global,
    files: &mut MapFiles,
    preprocessed: &Preprocessed<'_>,
) -> Result<bool, UtilError>
    ensures keeps { IfOk result (λ _. Keeps (λ files. files.files) fault_count IsQuiet files.old files.new) }
    ensures found { IfOk result (IsCopiesVerdict files.old.files
        preprocessed.now.request.now preprocessed.now.text.now) }
{
    let (request, text) = (preprocessed.request, preprocessed.text);
    let directory = request.directory.as_bytes();
    let paths = compared_paths(alloc, directory, request.input.as_bytes(), text)?;
    let found = has_copies(alloc, files, &paths, may_import(text.bytes()))?;
    Ok(found)
}
