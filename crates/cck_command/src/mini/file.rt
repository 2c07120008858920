//! Regular files.
ghost use Rattle.std.specs.Prelude.{◌≡◌, Some, MatchResult};
ghost use Rattle.cck_files.specs.Calls.{Keeps, Rose};
ghost use Rattle.cck_command.specs.MiniPrinted.{file_text_at};
ghost use Rattle.cck_command.specs.MiniErrors.{IsPrintError};

use crate::mini::error::{PrintError, print_error};
use cck_files::{Files, read_contents_of_size};
use cck_path::Timestamp;
use std::alloc::Global;

/// A regular file.
#[derive(Drop)]
pub(crate) struct FileText {
    /// Its contents.
    pub(crate) contents: Vec<u8>,
    /// When it was last modified, where that is known.
    pub(crate) modified: Option<Timestamp>,
}

/// Reads the regular file at a path.
///
/// [`PrintError::Failed`] is returned only where no regular file is at the path,
/// [`PrintError::Fault`] only where the count of faults rose, and [`PrintError::Memory`] for lack
/// of memory. A file is returned only where one is at the path.
pub(crate) fn read_file<F: Files>(
    alloc: Global,
    files: &mut F,
    path: &[u8],
) -> Result<FileText, PrintError>
    ensures keeps { Keeps F.file_map F.faults F.is_quiet files.old files.new }
    ensures outcome { let found = file_text_at (F.file_map files.old) path.now in
        MatchResult result (λ f. found ≡ Some (f.contents.items, f.modified))
        (IsPrintError found (Rose (F.faults files.old) (F.faults files.new))) }
{
    let metadata = match files.metadata(path) {
        Ok(metadata) => metadata,
        Err(error) => return Err(print_error(error)),
    };
    match read_contents_of_size(alloc, files, path, metadata.len) {
        Ok(contents) => Ok(FileText {
            contents,
            modified: metadata.modified,
        }),
        Err(error) => Err(print_error(error)),
    }
}
