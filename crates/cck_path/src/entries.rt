//! The entries of a map, one after another.
ghost use Rattle.std.specs.Prelude.{◌≡◌, ◌+◌, ◌<◌, ◌≤◌, ◌++◌, ◌∷◌, MatchOption, Vec, [], drop, length, slice_index_or};
ghost use Rattle.std.specs.Global.{Global};
ghost use Rattle.std.specs.Iterator.{YieldsFirstBy, at_most};
ghost use Rattle.cck_path.specs.Blocks.{entries_of, start_of};
ghost use Rattle.cck_path.specs.Entries.{entries_left, now_of};

use crate::path_map::Entry;

/// The entries of a [`PathMap`](crate::PathMap) that an iterator has not returned yet, in the order
/// of their paths.
#[derive(Debug, Drop)]
pub struct Entries<'a, V> {
    pub(crate) block: &'a [Entry<V>],
    pub(crate) blocks: &'a [Vec<Entry<V>>],
}

impl<'a, V> Iterator for Entries<'a, V> {
    type Item = &'a Entry<V>;

    ghost next_gives = { YieldsFirstBy now_of entries_left };

    ghost remaining = { λ e. at_most (length (entries_left e)) };

    fn next(&mut self) -> Option<&'a Entry<V>> {
        let (first, block, blocks) = take_first(self.block, self.blocks)?;
        self.block = block;
        self.blocks = blocks;
        Some(first)
    }
}

/// Returns the entries from a place of a block on.
pub(crate) fn entries_at<'a, V>(
    blocks: &'a [Vec<Entry<V>>],
    block: usize,
    at: usize,
) -> Entries<'a, V>
    requires block { block < length blocks.now }
    requires place { (d : Vec (Entry V) Global) → at ≤ length (slice_index_or blocks.now block d).items }
    ensures { entries_left result ≡ drop (start_of blocks.now block + at) (entries_of blocks.now) }
{
    Entries {
        block: &blocks[block][at..],
        blocks: &blocks[block + 1..],
    }
}

// Returns the first of these entries, and what follows it.
fn take_first<'a, V>(
    block: &'a [Entry<V>],
    blocks: &'a [Vec<Entry<V>>],
) -> Option<(&'a Entry<V>, &'a [Entry<V>], &'a [Vec<Entry<V>>])>
    ensures { MatchOption result (block.now ++ entries_of blocks.now ≡ []) (λ next.
        block.now ++ entries_of blocks.now
        ≡ next.0.now ∷ (next.1.now ++ entries_of next.2.now)) }
{
    let mut left = block;
    let mut others = blocks;
    while left.is_empty() {
        let (next, rest) = others.split_first()?;
        left = next;
        others = rest;
    }
    let (first, rest) = left.split_first()?;
    Some((first, rest, others))
}
