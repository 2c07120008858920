//! What is fed for a file or a directory.
ghost use Rattle.std.specs.Prelude.{◌≡◌, ℕ, List, ◌++◌, ◌≤◌, map, vec_items, true, Ok, IfOk, OnOk, MatchResult, IsOkAnd};
ghost use Rattle.std.specs.Option.{option_copied};
ghost use Rattle.cck_digest.specs.Stream.{IsPiece};
ghost use Rattle.cck_path.specs.Path.{components};
ghost use Rattle.cck_files.specs.FileMap.{contents_at, folder_at, exists_at};
ghost use Rattle.cck_files.specs.Calls.{Keeps, IsErrorOrMemory, Rose};
ghost use Rattle.cck_files.specs.Folder.{IsFedNodes, AreChildNames, child_name, child_names};
ghost use Rattle.cck_files.specs.FolderText.{lossy, opening, node_and_reached};
ghost use Rattle.cck_files.specs.Errors.{IsErrorAt};

use crate::Files;
use crate::contents::feed_contents;
use bstr::ByteSlice;
use cck_digest::{Digest, FileError, HashState, UtilError};
use cck_path::{FileKind, join_path};
use std::alloc::{AllocError, Global};

// The greatest level that a directory in a digest may have.
const FOLDER_LEVELS: u32 = 100;

// Feeds the delimiter of a name, if there is one.
#[tactic(auto, unfolding(crate::specs::FolderText::opening, crate::specs::FolderText::lossy))]
fn feed_name<H: HashState>(
    alloc: Global,
    name: Option<&[u8]>,
    digest: &mut Digest<H>,
) -> Result<(), AllocError>
    ensures { OnOk result ((fed : List ℕ) → H.holds digest.old fed
        → H.holds digest.new (fed ++ opening (option_copied name.entry))) }
{
    let Some(name) = name else {
        return Ok(());
    };
    let text = name.to_str_lossy(alloc)?;
    digest.delimiter(text.as_bytes());
    Ok(())
}

// Feeds the delimiter of a name, if there is one, and the contents of a regular file.
fn feed_named<H: HashState, F: Files>(
    alloc: Global,
    files: &mut F,
    path: &[u8],
    name: Option<&[u8]>,
    buffer: &mut [u8],
    digest: &mut Digest<H>,
) -> Result<(), FileError>
    requires { IsPiece buffer.old }
    ensures keeps { Keeps F.file_map F.faults F.is_quiet files.old files.new }
    ensures outcome { let found = contents_at (F.file_map files.old) (components path.now) in
        MatchResult result (λ _. IsOkAnd found (λ contents. (fed : List ℕ) → H.holds digest.old fed
        → H.holds digest.new (fed ++ (opening (option_copied name.entry) ++ contents))))
        (IsErrorOrMemory found (Rose (F.faults files.old) (F.faults files.new))) }
{
    feed_name(alloc, name, digest)?;
    feed_contents(files, path, buffer, digest)
}

/// The last names of a directory's direct children, in the order of their bytes. A child whose last
/// component is not a name is left out.
///
/// The error is
///
/// - [`FileError::NotFound`] where there is no node at the path,
/// - [`FileError::OtherKind`] where the node there is not a directory,
/// - [`FileError::Fault`] only where the count of faults rose,
/// - [`FileError::Memory`] where memory is lacking.
pub fn sorted_names<F: Files>(
    alloc: Global,
    files: &mut F,
    path: &[u8],
) -> Result<Vec<Vec<u8>>, FileError>
    ensures keeps { Keeps F.file_map F.faults F.is_quiet files.old files.new }
    ensures folder { OnOk result (folder_at (F.file_map files.old) (components path.now) ≡ Ok tt) }
    ensures names { IfOk result (λ names.
        map vec_items names.items ≡ child_names (F.file_map files.old).nodes (components path.now)) }
    ensures outcome { MatchResult result
        (λ names. AreChildNames (F.file_map files.old).nodes (components path.now) (map vec_items names.items))
        (IsErrorOrMemory (folder_at (F.file_map files.old) (components path.now))
        (Rose (F.faults files.old) (F.faults files.new))) }
{
    let mut names = files.read_dir(alloc, path)?;
    names.sort_unstable();
    Ok(names)
}

// The name under which a child is fed: that of its directory and a `/`, if the directory has one,
// and its own.
fn name_child(alloc: Global, folder: Option<&[u8]>, child: &[u8]) -> Result<Vec<u8>, AllocError>
    ensures { IfOk result (λ name. name.items ≡ child_name (option_copied folder.entry) child.now) }
{
    let Some(folder) = folder else {
        return child.to_vec(alloc);
    };
    let mut name = folder.to_vec(alloc)?;
    name.push(b'/')?;
    name.extend_from_slice(child)?;
    Ok(name)
}

/// Feeds the node at a path, which has this level. A file is fed after the delimiter of its name,
/// if it has one. Of a directory, all that is reached from it is fed, in path order.
pub(crate) fn feed_node<H: HashState, F: Files>(
    alloc: Global,
    files: &mut F,
    path: &[u8],
    name: Option<&[u8]>,
    level: u32,
    buffer: &mut [u8],
    digest: &mut Digest<H>,
) -> Result<(), UtilError>
    requires room { IsPiece buffer.old }
    requires level { level ≤ 101 }
    ensures keeps { Keeps F.file_map F.faults F.is_quiet files.old files.new }
    ensures outcome { let fm = F.file_map files.old in MatchResult result
        (λ _. (exists_at fm (components path.now) ≡ true)
        × IsFedNodes H.holds level (option_copied name.entry) (node_and_reached fm.nodes (components path.now)) digest.old digest.new)
        (IsErrorAt level fm (components path.now) (Rose (F.faults files.old) (F.faults files.new))) }
{
    match files.metadata(path)?.kind {
        FileKind::File => Ok(feed_named(alloc, files, path, name, buffer, digest)?),
        FileKind::Folder => {
            if level > FOLDER_LEVELS {
                return Err(UtilError::TooDeep);
            }
            let names = sorted_names(alloc, files, path)?;
            for child in &names {
                let child_path = join_path(alloc, path, child)?;
                let child_name = name_child(alloc, name, child)?;
                feed_node(
                    alloc,
                    files,
                    &child_path,
                    Some(&child_name),
                    level + 1,
                    buffer,
                    digest,
                )?;
            }
            Ok(())
        }
        FileKind::Other => Err(UtilError::File(FileError::OtherKind)),
    }
}
