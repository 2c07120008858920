//! Lists of byte strings and optional texts, copied.
ghost use Rattle.std.specs.Prelude.{◌≡◌, ◌++◌, IfOk, OnOk, string_bytes};
ghost use Rattle.std.specs.Option.{option_map};
ghost use Rattle.cck_path.specs.Bytes.{lists_of};

use std::alloc::{AllocError, Global};

/// Appends copies of these byte strings to a list. The only error is lack of memory, after which some of
/// them may have been appended.
///
/// It is public for the key of an object, into which two lists of [`ParsedArguments`] go as one.
///
/// [`ParsedArguments`]: crate::ParsedArguments
pub fn push_copies(
    alloc: Global,
    all: &mut Vec<Vec<u8>>,
    more: &[Vec<u8>],
) -> Result<(), AllocError>
    ensures { OnOk result (lists_of all.new.items ≡ lists_of all.old.items ++ lists_of more.now) }
{
    for bytes in more {
        all.push(bytes.to_vec(alloc)?)?;
    }
    Ok(())
}

/// Returns copies of these byte strings, in memory of their own. The only error is lack of memory.
///
/// It is public for implementations of [`CCompilerImpl`](crate::CCompilerImpl), which make lists of
/// arguments out of those that they are given.
pub fn copy_lists(alloc: Global, lists: &[Vec<u8>]) -> Result<Vec<Vec<u8>>, AllocError>
    ensures { IfOk result (λ copies. lists_of copies.items ≡ lists_of lists.now) }
{
    let copies = lists.to_vec(alloc)?;
    Ok(copies)
}

/// Returns a copy of this text, or none. The only error is lack of memory.
///
/// It is public for implementations of [`CCompilerImpl`](crate::CCompilerImpl), whose copies have a
/// copy of the optional version and of the optional digest of the assembler.
pub fn copy_text(text: &Option<String>) -> Result<Option<String>, AllocError>
    ensures { IfOk result (λ copy. option_map string_bytes copy ≡ option_map string_bytes text.now) }
{
    match text {
        Some(text) => Ok(Some(text.clone()?)),
        None => Ok(None),
    }
}
