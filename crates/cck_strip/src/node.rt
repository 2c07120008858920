//! The nodes of a trie.

/// The name of a node: its place in the vector of nodes.
#[derive(Clone, Copy, Drop)]
pub struct NodeId(pub usize);

/// One byte of words, after the bytes that lead to it.
#[derive(Clone, Copy, Drop)]
pub struct TrieNode {
    /// The byte.
    pub byte: u8,
    /// Whether a word ends with this byte.
    pub ends: bool,
    /// The first of the nodes for the byte after this one.
    pub below: Option<NodeId>,
    /// The next of the nodes for other bytes in the place of this one.
    pub beside: Option<NodeId>,
}
