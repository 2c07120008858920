//! Base directories in a trie, a byte in each node.
ghost use Rattle.std.specs.Prelude.{◌≡◌, ◌++◌, ◌∷◌, [], ◌<◌, ◌≤◌, ◌↔◌, ℕ, List, Some, OnOk, IfOk, IsOkUnless, IsTrue, map, drop, length, nat_eq};
ghost use Rattle.std.specs.List.{starts_with};
ghost use Rattle.std.proofs.Common.{get_or};
ghost use Rattle.cck_strip.specs.Text.{longest_prefix};
ghost use Rattle.cck_strip.specs.Trie.{At, Found, Grows, HasRun, IsForward, IsRun, IsStraight, IsTrie, IsWord, leaf_of};
ghost use Rattle.cck_strip.specs.declared.node.TrieNode.{TrieNode};

use crate::node::{NodeId, TrieNode};
use cck_digest::UtilError;
use std::alloc::{AllocError, Global};
use std::marker::Model;

// Adds a node for this byte, which ends nothing and has no node below or beside it.
fn push_leaf(nodes: &mut Vec<TrieNode>, byte: u8) -> Result<NodeId, AllocError>
    ensures pushed { OnOk result (nodes.new.items ≡ nodes.old.items ++ leaf_of byte ∷ []) }
    ensures last { IfOk result (λ id. id.0 ≡ length nodes.old.items) }
{
    let id = NodeId(nodes.len());
    nodes.push(TrieNode {
        byte,
        ends: false,
        below: None,
        beside: None,
    })?;
    Ok(id)
}

// The node for this byte among the node `from` and those beside it. It is added where there is none.
fn node_beside(nodes: &mut Vec<TrieNode>, from: NodeId, byte: u8) -> Result<NodeId, AllocError>
    requires forward { IsForward nodes.old.items }
    requires within { from.0 < length nodes.old.items }
    ensures forward_still { OnOk result (IsForward nodes.new.items) }
    ensures grows { OnOk result (Grows nodes.old.items nodes.new.items) }
    ensures same { OnOk result ((words : List (List ℕ)) → IsTrie nodes.old.items words → IsTrie nodes.new.items words) }
    ensures found { IfOk result (λ id. Found nodes.new.items (from.0) byte (id.0)) }
{
    let mut at = from;
    loop {
        let node = nodes[at.0];
        if node.byte == byte {
            return Ok(at);
        }
        match node.beside {
            Some(id) => at = id,
            None => {
                let id = push_leaf(nodes, byte)?;
                nodes[at.0] = TrieNode {
                    beside: Some(id),
                    ..node
                };
                return Ok(id);
            }
        }
    }
}

// The first node below this one. It is added, for this byte, where there is none.
fn node_below(nodes: &mut Vec<TrieNode>, at: NodeId, byte: u8) -> Result<NodeId, AllocError>
    requires forward { IsForward nodes.old.items }
    requires within { at.0 < length nodes.old.items }
    ensures forward_still { OnOk result (IsForward nodes.new.items) }
    ensures grows { OnOk result (Grows nodes.old.items nodes.new.items) }
    ensures same { OnOk result ((words : List (List ℕ)) → IsTrie nodes.old.items words → IsTrie nodes.new.items words) }
    ensures found { IfOk result (λ id. (node : TrieNode) × At nodes.new.items (at.0) node × (node.below ≡ Some id)) }
{
    let node = nodes[at.0];
    if let Some(id) = node.below {
        return Ok(id);
    }
    let id = push_leaf(nodes, byte)?;
    nodes[at.0] = TrieNode {
        below: Some(id),
        ..node
    };
    Ok(id)
}

// Adds a word to the nodes.
fn insert(nodes: &mut Vec<TrieNode>, word: &[u8]) -> Result<(), AllocError>
    requires forward { IsForward nodes.old.items }
    requires some { 0 < length word.now }
    ensures forward_still { OnOk result (IsForward nodes.new.items) }
    ensures more { OnOk result ((words : List (List ℕ)) → IsTrie nodes.old.items words → IsTrie nodes.new.items (words ++ word.now ∷ [])) }
{
    let mut at = node_beside(nodes, NodeId(0), word[0])?;
    for byte in &word[1..] {
        let first = node_below(nodes, at, *byte)?;
        at = node_beside(nodes, first, *byte)?;
    }
    let node = nodes[at.0];
    nodes[at.0] = TrieNode { ends: true, ..node };
    Ok(())
}

// The byte for the first node. A word begins with it, mostly all of them, so the nodes of a single
// one are a run and its end.
fn byte_of_first(words: &[Vec<u8>]) -> u8 {
    for first in words {
        if !first.is_empty() {
            return first[0];
        }
    }
    0
}

/// Returns the nodes of a trie of these words, but for empty ones.
///
/// The only error is lack of memory.
pub fn word_nodes(alloc: Global, words: &[Vec<u8>]) -> Result<Vec<TrieNode>, AllocError>
    ensures forward { IfOk result (λ nodes. IsForward nodes.items) }
    ensures trie { IfOk result (λ nodes. IsTrie nodes.items (map (λ b. b.items) words.now)) }
{
    let mut nodes = Vec::new(alloc);
    push_leaf(&mut nodes, byte_of_first(words))?;
    for word in words {
        if !word.is_empty() {
            insert(&mut nodes, word)?;
        }
    }
    Ok(nodes)
}

// Whether this node ends nothing, has no node beside it, and has the node at this place below it.
fn is_straight(node: &TrieNode, next: usize) -> bool
    ensures { IsTrue result ↔ IsStraight node.now next }
{
    if node.ends || node.beside.is_some() {
        return false;
    }
    match node.below {
        Some(id) => id.0 == next,
        None => false,
    }
}

// For each node how many nodes from it on, one after the other in the vector, end nothing, have no
// node beside them, and have the next one below them.
fn run_lengths(alloc: Global, nodes: &[TrieNode]) -> Result<Vec<usize>, AllocError>
    ensures size { IfOk result (λ runs. length runs.items ≡ length nodes.now) }
    ensures each { IfOk result (λ runs. (i : ℕ) → i < length nodes.now → IsRun (get_or runs.items i 0) nodes.now i) }
{
    let mut runs = vec![in alloc; 0; nodes.len()]?;
    let mut run = 0;
    let mut at = nodes.len();
    while at > 0 {
        at -= 1;
        run = if is_straight(&nodes[at], at + 1) {
            run + 1
        } else {
            0
        };
        runs[at] = run;
    }
    Ok(runs)
}

// The bytes of the nodes, in their order.
fn node_bytes(alloc: Global, nodes: &[TrieNode]) -> Result<Vec<u8>, AllocError>
    ensures value { IfOk result (λ bytes. bytes.items ≡ map (λ node. node.byte) nodes.now) }
{
    let mut bytes = Vec::new(alloc);
    for node in nodes {
        bytes.push(node.byte)?;
    }
    Ok(bytes)
}

// Whether these nodes are as many as this run has, and one more, which ends a word.
fn is_word(nodes: &[TrieNode], run: usize) -> bool
    requires some { 0 < length nodes.now }
    ensures { IsTrue result ↔ IsWord nodes.now run }
{
    let last = nodes.len() - 1;
    run == last && nodes[last].ends
}

// Whether the text begins with these bytes. The last one is compared first: paths of a text begin alike
// more often than they end alike.
#[inline(always)]
fn begins_with(text: &[u8], bytes: &[u8]) -> bool
    requires { 0 < length bytes.now }
    ensures { result ≡ starts_with nat_eq text.now bytes.now }
{
    let last = bytes.len() - 1;
    if last >= text.len() || text[last] != bytes[last] {
        return false;
    }
    text.starts_with(bytes)
}

/// Base directories in a trie: a search at a place of a text continues only while one of them may
/// match there, however many there are.
///
/// The nodes are in one vector and name each other by their places in it. Equal base directories
/// are one word of the trie, and empty ones none.
pub struct BasedirTrie {
    nodes: Vec<TrieNode>,
    // Nodes that a search passes only one after the other are a run, whose bytes it compares at once:
    // for each node its byte, and how many nodes from it on are a run.
    bytes: Vec<u8>,
    runs: Vec<usize>,
    // Whether the nodes spell one word alone, whose bytes are those of all nodes.
    is_word: bool,
}

impl Drop for BasedirTrie {
    fn drop(self) {
        let BasedirTrie {
            nodes: _,
            bytes: _,
            runs: _,
            is_word: _,
        } = self;
    }
}

impl Model for BasedirTrie {
    ghost use Rattle.std.specs.Prelude.{List, IsTrue};
    ghost use Rattle.std.proofs.Common.{get_or};
    ghost use Rattle.cck_strip.specs.declared.node.TrieNode.{TrieNode};
    ghost use Rattle.cck_strip.specs.Trie.{HasRuns, IsForward, IsWord};

    ghost Value = { List TrieNode };

    ghost view = { λ a. a.nodes.items };

    ghost invariant = { λ a. IsForward a.nodes.items × HasRuns a.nodes.items a.bytes.items a.runs.items
        × (IsTrue a.is_word → IsWord a.nodes.items (get_or a.runs.items 0 0)) };
}

impl BasedirTrie {
    /// Returns the trie of these base directories, in any order. Empty ones are never found.
    ///
    /// The only error is [`UtilError::Memory`].
    pub fn new(alloc: Global, basedirs: &[Vec<u8>]) -> Result<BasedirTrie, UtilError>
        ensures trie { IfOk result (λ trie. IsTrie trie (map (λ b. b.items) basedirs.now)) }
        ensures errors { IsOkUnless result UtilError.Memory }
    {
        let nodes = word_nodes(alloc, basedirs)?;
        let bytes = node_bytes(alloc, &nodes)?;
        let runs = run_lengths(alloc, &nodes)?;
        let is_word = is_word(&nodes, runs[0]);
        Ok(BasedirTrie {
            nodes,
            bytes,
            runs,
            is_word,
        })
    }

    /// Returns the length in bytes of the longest base directory at this place of the text, and 0
    /// if there is none, as at its end and after it. The bytes before the place don't matter. It
    /// allocates no memory.
    // Inlined, it compares a single word without a call of its own.
    #[inline(always)]
    pub fn longest_at(&self, text: &[u8], at: usize) -> usize
        ensures { (words : List (List ℕ)) → IsTrie self.now words → result ≡ longest_prefix words (drop at text.now) }
    {
        if at > text.len() {
            return 0;
        }
        if self.is_word {
            return if text[at..].starts_with(&self.bytes) {
                self.bytes.len()
            } else {
                0
            };
        }
        self.longest_by_walk(text, at)
    }

    // The length of the longest base directory at this place of the text, by a walk along the nodes.
    // Inlined, it takes registers from the search of the text around it.
    #[inline(never)]
    fn longest_by_walk(&self, text: &[u8], at: usize) -> usize
        requires { at ≤ length text.now }
        ensures { (words : List (List ℕ)) → IsTrie self.now words → result ≡ longest_prefix words (drop at text.now) }
    {
        let rest = &text[at..];
        // All base directories begin with the first run. A search of the text has mostly found it at
        // this place, so it is compared only if one of them may follow.
        let shared = self.runs[0];
        let longest = self.longest_after(rest, shared);
        if longest > 0 && rest.starts_with(&self.bytes[..shared]) {
            return longest;
        }
        0
    }

    // The length of the longest base directory with which the text begins, if it begins with the
    // first run, which is not compared.
    fn longest_after(&self, text: &[u8], shared: usize) -> usize
        requires { IsRun shared self.now 0 }
        ensures { (words : List (List ℕ)) → IsTrie self.now words → HasRun shared self.now text.now → result ≡ longest_prefix words text.now }
    {
        let mut longest = 0;
        let mut depth = shared;
        let mut next = Some(NodeId(shared));
        while depth < text.len() {
            let current = match next {
                Some(id) => id,
                None => return longest,
            };
            let node = self.nodes[current.0];
            let run = self.runs[current.0];
            next = if node.byte != text[depth] {
                node.beside
            } else if run > 1 {
                let bytes = &self.bytes[current.0..current.0 + run];
                if !begins_with(&text[depth..], bytes) {
                    return longest;
                }
                depth += run;
                Some(NodeId(current.0 + run))
            } else {
                depth += 1;
                if node.ends {
                    longest = depth;
                }
                node.below
            };
        }
        longest
    }
}
