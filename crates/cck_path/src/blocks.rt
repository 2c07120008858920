//! Entries in the order of their paths, in blocks.
//!
//! A new entry and a removal move the entries of one block alone.
ghost use Rattle.std.specs.Prelude.{◌≡◌, ◌+◌, ◌<◌, IfErr, IfOk, IsOkUnless, OnErr, OnOk, length, slice_index_or, Ok};
ghost use Rattle.std.specs.List as list;
ghost use Rattle.cck_path.specs.Path.{components};
ghost use Rattle.cck_path.specs.PathMap.{IsGapFor, IsInOrder, IsPlaceOf};
ghost use Rattle.cck_path.specs.Blocks.{AreOrderedBlocks, IsBlockFor, HasNoEntry, IsPositionFor, IsWithin, NoneEmpty, entries_of, first_entry_path, place_of, start_of};

use crate::compare_paths;
use crate::path_map::Entry;
use cck_digest::UtilError;
use std::alloc::Global;

// A block with more entries than this is split into two.
const BLOCK_LIMIT: usize = 128;

// Returns the block and the place in it of a path's entry; if there is none, the error is the place
// where it would be inserted, or `None` where there is no block.
pub(crate) fn search<V>(
    blocks: &[Vec<Entry<V>>],
    path: &[u8],
) -> Result<(usize, usize), Option<(usize, usize)>>
    requires { AreOrderedBlocks blocks.now }
    ensures found { IfOk result (λ position.
        IsPositionFor (components path.now) blocks.now position.0 (Ok position.1)) }
    ensures missing { IfErr result (HasNoEntry (components path.now) blocks.now) }
{
    let [.., last_block] = blocks else {
        return Err(None);
    };
    // Paths often come in order: after all others.
    if let [.., last] = last_block.as_slice()
        && compare_paths(&last.path, path).is_lt()
    {
        return Err(Some((blocks.len() - 1, last_block.len())));
    }
    let block = block_for(blocks, path);
    match search_block(&blocks[block], path) {
        Ok(at) => Ok((block, at)),
        Err(at) => Err(Some((block, at))),
    }
}

// Returns the block that has a path's entry, or into which it would be inserted: the last block
// that begins with no higher path, or the first one.
fn block_for<V>(blocks: &[Vec<Entry<V>>], path: &[u8]) -> usize
    requires ordered { AreOrderedBlocks blocks.now }
    requires some { 0 < length blocks.now }
    ensures { IsBlockFor (components path.now) blocks.now result }
{
    let Some((_, later)) = blocks.split_first() else {
        return 0;
    };
    match later.binary_search_by(|block| compare_paths(first_path(block), path)) {
        Ok(at) => at + 1,
        Err(at) => at,
    }
}

// Returns the path of the first entry, or the empty path.
fn first_path<V>(entries: &[Entry<V>]) -> &[u8]
    ensures { components result.now ≡ first_entry_path entries.now }
{
    match entries {
        [first, ..] => &first.path,
        [] => &[],
    }
}

// Returns the place of a path's entry among ordered entries; if there is none, the error is the
// place where it would be inserted.
fn search_block<V>(entries: &[Entry<V>], path: &[u8]) -> Result<usize, usize>
    requires { IsInOrder entries.now }
    ensures place { IfOk result (IsPlaceOf (components path.now) entries.now) }
    ensures gap { IfErr result (IsGapFor (components path.now) entries.now) }
{
    entries.binary_search_by(|entry| compare_paths(&entry.path, path))
}

// Inserts a new entry at the place of its path. The only error is [`UtilError::Memory`], which
// leaves the entries unchanged.
pub(crate) fn insert_at<V: Drop>(
    alloc: Global,
    blocks: &mut Vec<Vec<Entry<V>>>,
    gap: Option<(usize, usize)>,
    entry: Entry<V>,
) -> Result<(), UtilError>
    requires ordered { AreOrderedBlocks blocks.old.items }
    requires missing { HasNoEntry (components entry.path.items) blocks.old.items gap }
    ensures inserted { OnOk result (entries_of blocks.new.items
        ≡ list.insert (entries_of blocks.old.items) (place_of blocks.old.items gap) entry) }
    ensures none_empty { NoneEmpty blocks.new.items }
    ensures kept { OnErr result
        (entries_of blocks.new.items ≡ entries_of blocks.old.items) }
    ensures errors { IsOkUnless result UtilError.Memory }
{
    match gap {
        Some((block, at)) => {
            blocks[block].insert(at, entry)?;
            if blocks[block].len() > BLOCK_LIMIT {
                split(alloc, blocks, block);
            }
        }
        None => {
            let mut first = Vec::new(alloc);
            first.push(entry)?;
            blocks.push(first)?;
        }
    }
    Ok(())
}

// Splits a block into two. Where memory is lacking the blocks are left unchanged.
fn split<V: Drop>(alloc: Global, blocks: &mut Vec<Vec<Entry<V>>>, block: usize)
    requires many { IsWithin blocks.old.items block 1 }
    requires none_empty { NoneEmpty blocks.old.items }
    ensures same { entries_of blocks.new.items ≡ entries_of blocks.old.items }
    ensures none_empty { NoneEmpty blocks.new.items }
{
    let middle = blocks[block].len() / 2;
    let Ok(()) = blocks.insert(block + 1, Vec::new(alloc)) else {
        return;
    };
    match blocks[block].split_off(middle) {
        Ok(rest) => blocks[block + 1] = rest,
        Err(_) => {
            blocks.remove(block + 1);
        }
    }
}

// Removes and returns the entry at a place of a block.
pub(crate) fn remove_at<V: Drop>(
    blocks: &mut Vec<Vec<Entry<V>>>,
    block: usize,
    at: usize,
) -> Entry<V>
    requires within { IsWithin blocks.old.items block at }
    requires none_empty { NoneEmpty blocks.old.items }
    ensures entry { result
        ≡ slice_index_or (entries_of blocks.old.items) (start_of blocks.old.items block + at) result }
    ensures rest { entries_of blocks.new.items
        ≡ list.remove (entries_of blocks.old.items) (start_of blocks.old.items block + at) }
    ensures none_empty { NoneEmpty blocks.new.items }
{
    let entry = blocks[block].remove(at);
    if blocks[block].is_empty() {
        blocks.remove(block);
    }
    entry
}
