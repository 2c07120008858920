//! Endings of base directories, in a trie of the base directories turned round.
//!
//! A text is read from its end to its start. At each place the state is the longest ending of a base
//! directory with which the text begins there. So each byte of the text is read once, whatever the
//! base directories repeat.
ghost use Rattle.std.specs.Prelude.{◌≡◌, ◌≢◌, ◌<◌, ◌≤◌, ℕ, ◌+◌, List, [], ◌∷◌, MatchOption, IfOk, IfSome, None, OnOk, length, map, nat_eq, take, true, unwrap_or};
ghost use Rattle.std.specs.HashMap.{get};
ghost use Rattle.std.specs.List.{All};
ghost use Rattle.cck_strip.specs.Endings.{HasLinks, IsLink, IsLonger, IsLongest, IsNoLonger, IsNoNodeFor, IsNodeFor, IsRead, IsReached, IsWithin, ListsLengths, Reaches, known_length, turned};
ghost use Rattle.cck_strip.specs.Trie.{IsForward, IsTrie};
ghost use Rattle.cck_strip.specs.Text.{has_inner_separator, is_boundary, longest_prefix};

use crate::boundary::{has_inner_separator, is_boundary};
use crate::node::{NodeId, TrieNode};
use crate::trie::word_nodes;
use std::alloc::{AllocError, Global};
use std::collections::HashMap;

/// What is known of the ending of a node.
#[derive(Clone, Copy, Drop)]
pub struct Link {
    /// The longest ending of a base directory with which it begins, but for itself: its node, or none
    /// for the empty one.
    pub shorter: Option<NodeId>,
    /// The length of the longest base directory with which it begins, and 0 if there is none.
    pub length: usize,
}

// The node for this byte among the node `from` and those beside it.
fn node_for(nodes: &[TrieNode], from: Option<NodeId>, byte: u8) -> Option<NodeId>
    requires forward { IsForward nodes.now }
    requires within { IsWithin (length nodes.now) from }
    ensures { MatchOption result (IsNoNodeFor nodes.now from byte) (λ id. IsNodeFor nodes.now from byte (id.0)) }
{
    let mut next = from;
    while let Some(id) = next {
        let node = nodes[id.0];
        if node.byte == byte {
            return Some(id);
        }
        next = node.beside;
    }
    None
}

// The node for the ending of this state with this byte before it.
fn longer(nodes: &[TrieNode], state: Option<NodeId>, byte: u8) -> Option<NodeId>
    requires forward { IsForward nodes.now }
    requires within { IsWithin (length nodes.now) state }
    ensures within { IsWithin (length nodes.now) result }
    ensures longer { MatchOption result (IsNoLonger nodes.now state byte) (λ id. IsLonger nodes.now state byte (id.0)) }
{
    match state {
        None => node_for(nodes, Some(NodeId(0)), byte),
        Some(id) => {
            let node = nodes[id.0];
            node_for(nodes, node.below, byte)
        }
    }
}

// The state for the text with this byte before it. `None` if a link is needed that is not known.
fn next_state(
    nodes: &[TrieNode],
    links: &[Option<Link>],
    state: Option<NodeId>,
    byte: u8,
) -> Option<Option<NodeId>>
    requires forward { IsForward nodes.now }
    requires links { HasLinks nodes.now links.now }
    requires within { IsWithin (length nodes.now) state }
    ensures within { IfSome result (λ next. IsWithin (length nodes.now) next) }
    ensures longest { IfSome result (λ next. (words : List (List ℕ)) (text : List ℕ) → IsTrie nodes.now (turned words)
        → IsLongest nodes.now words state text → IsLongest nodes.now words next (byte ∷ text)) }
{
    let mut at = state;
    // Each link leads to a shorter ending, so this many rounds are enough.
    let mut left = nodes.len() + 1;
    while left > 0 {
        if let Some(id) = longer(nodes, at, byte) {
            return Some(Some(id));
        }
        let id = match at {
            Some(id) => id,
            None => return Some(None),
        };
        let link = match links[id.0] {
            Some(link) => link,
            None => return None,
        };
        at = link.shorter;
        left -= 1;
    }
    None
}

// The length of the longest base directory with which the ending of this state begins, if it is
// known.
fn length_of(links: &[Option<Link>], state: Option<NodeId>) -> Option<usize>
    requires { IsWithin (length links.now) state }
    ensures { result ≡ known_length links.now state }
{
    match state {
        None => Some(0),
        Some(id) => match links[id.0] {
            None => None,
            Some(link) => Some(link.length),
        },
    }
}

// The state for the longest ending, but for itself, with which the ending of this state with this byte
// before it begins. `None` if a link is needed that is not known.
fn shorter_of(
    nodes: &[TrieNode],
    links: &[Option<Link>],
    state: Option<NodeId>,
    byte: u8,
) -> Option<Option<NodeId>>
    requires forward { IsForward nodes.now }
    requires links { HasLinks nodes.now links.now }
    requires within { IsWithin (length nodes.now) state }
    ensures within { IfSome result (λ shorter. IsWithin (length nodes.now) shorter) }
    ensures longest { IfSome result (λ shorter. (words : List (List ℕ)) (ending : List ℕ) → IsTrie nodes.now (turned words)
        → Reaches nodes.now ending state → IsLongest nodes.now words shorter (take (length ending) (byte ∷ ending))) }
{
    let id = match state {
        Some(id) => id,
        None => return Some(None),
    };
    match links[id.0] {
        Some(link) => next_state(nodes, links, link.shorter, byte),
        None => None,
    }
}

// The link of the node `id`, whose ending is that of the state with a byte before it, and has this
// many bytes. `None` if a link is needed that is not known.
fn link_of(
    nodes: &[TrieNode],
    links: &[Option<Link>],
    state: Option<NodeId>,
    id: NodeId,
    depth: usize,
) -> Option<Link>
    requires forward { IsForward nodes.now }
    requires links { HasLinks nodes.now links.now }
    requires within { IsWithin (length nodes.now) state }
    requires id_within { id.0 < length nodes.now }
    ensures within { IfSome result (λ link. IsWithin (length nodes.now) link.shorter) }
    ensures is { IfSome result (λ link. (ending : List ℕ) (byte : ℕ) (words : List (List ℕ)) → IsTrie nodes.now (turned words)
        → Reaches nodes.now ending state → IsReached nodes.now (byte ∷ ending) (id.0) → depth ≡ length ending + 1
        → IsLink nodes.now words (id.0) link) }
{
    let node = nodes[id.0];
    let shorter = match shorter_of(nodes, links, state, node.byte) {
        Some(shorter) => shorter,
        None => return None,
    };
    if node.ends {
        return Some(Link {
            shorter,
            length: depth,
        });
    }
    match length_of(links, shorter) {
        Some(length) => Some(Link { shorter, length }),
        None => None,
    }
}

// Notes the link of the node `id`, whose ending is that of the state with a byte before it, and has
// this many bytes.
fn note_link(
    nodes: &[TrieNode],
    links: &mut [Option<Link>],
    state: Option<NodeId>,
    id: NodeId,
    depth: usize,
)
    requires forward { IsForward nodes.now }
    requires links { HasLinks nodes.now links.old }
    requires read { IsRead nodes.now state depth }
    requires id_within { id.0 < length nodes.now }
    requires longer { (byte : ℕ) × IsLonger nodes.now state byte (id.0) }
    ensures links { HasLinks nodes.now links.new }
{
    if links[id.0].is_none() {
        links[id.0] = link_of(nodes, links, state, id, depth);
    }
}

// What is still to be read of a base directory turned round, and the state of what was read.
#[derive(Clone, Copy, Drop)]
struct Cursor<'a> {
    rest: &'a [u8],
    state: Option<NodeId>,
}

// Reads a byte, the one of this number, and notes the link of its node. `None` at the end.
fn advanced<'a>(
    nodes: &[TrieNode],
    links: &mut [Option<Link>],
    cursor: &Cursor<'a>,
    depth: usize,
) -> Option<Cursor<'a>>
    requires forward { IsForward nodes.now }
    requires links { HasLinks nodes.now links.old }
    requires read { IsRead nodes.now cursor.now.state depth }
    ensures links { HasLinks nodes.now links.new }
    ensures read { IfSome result (λ next. IsRead nodes.now next.state (depth + 1)) }
{
    if cursor.rest.is_empty() {
        return None;
    }
    let id = match longer(nodes, cursor.state, cursor.rest[0]) {
        Some(id) => id,
        None => return None,
    };
    note_link(nodes, links, cursor.state, id, depth);
    Some(Cursor {
        rest: &cursor.rest[1..],
        state: Some(id),
    })
}

// Reads a byte of each base directory, and returns the cursors of those that have not ended before.
fn all_advanced<'a>(
    alloc: Global,
    nodes: &[TrieNode],
    links: &mut [Option<Link>],
    cursors: &[Cursor<'a>],
    depth: usize,
) -> Result<Vec<Cursor<'a>>, AllocError>
    requires forward { IsForward nodes.now }
    requires links { HasLinks nodes.now links.old }
    requires read { All (λ cursor. IsRead nodes.now cursor.state depth) cursors.now }
    ensures links { HasLinks nodes.now links.new }
    ensures read { IfOk result (λ next. All (λ cursor. IsRead nodes.now cursor.state (depth + 1)) next.items) }
{
    let mut all = Vec::new(alloc);
    for cursor in cursors {
        if let Some(next) = advanced(nodes, links, cursor, depth) {
            all.push(next)?;
        }
    }
    Ok(all)
}

// The cursors at the start of these words.
fn first_cursors<'a>(alloc: Global, words: &'a [Vec<u8>]) -> Result<Vec<Cursor<'a>>, AllocError>
    ensures { IfOk result (λ cursors. All (λ cursor. cursor.state ≡ None) cursors.items) }
{
    let mut cursors = Vec::new(alloc);
    for word in words {
        cursors.push(Cursor {
            rest: word,
            state: None,
        })?;
    }
    Ok(cursors)
}

// The links of the nodes of these words.
fn all_links(
    alloc: Global,
    nodes: &[TrieNode],
    words: &[Vec<u8>],
) -> Result<Vec<Option<Link>>, AllocError>
    requires { IsForward nodes.now }
    ensures { IfOk result (λ links. HasLinks nodes.now links.items) }
{
    let mut links = vec![in alloc; None; nodes.len()]?;
    let mut cursors = first_cursors(alloc, words)?;
    // The nodes of shorter endings come first, since the links of longer ones need theirs.
    for read in 0..nodes.len() {
        cursors = all_advanced(alloc, nodes, &mut links, &cursors, read + 1)?;
    }
    Ok(links)
}

// The words, each from its last byte to its first one.
fn turned(alloc: Global, words: &[Vec<u8>]) -> Result<Vec<Vec<u8>>, AllocError>
    ensures { IfOk result (λ all. map (λ b. b.items) all.items ≡ turned (map (λ b. b.items) words.now)) }
{
    let mut all = Vec::new(alloc);
    for word in words {
        let mut turned = word.as_slice().to_vec(alloc)?;
        turned.reverse();
        all.push(turned)?;
    }
    Ok(all)
}

// Notes the length that was found at this place, if it is a boundary and the length is not 0.
fn note_length(
    lengths: &mut HashMap<usize, usize>,
    text: &[u8],
    at: usize,
    found: usize,
) -> Result<(), AllocError>
    requires within { at ≤ length text.now }
    requires fresh { get nat_eq lengths.old at ≡ None }
    ensures others { OnOk result ((k : ℕ) → k ≢ at → get nat_eq lengths.new k ≡ get nat_eq lengths.old k) }
    ensures here { OnOk result (is_boundary text.now at ≡ true → unwrap_or (get nat_eq lengths.new at) 0 ≡ found) }
{
    if found > 0 && is_boundary(text, at) {
        lengths.insert(at, found)?;
    }
    Ok(())
}

// The lengths of the longest base directories at the boundaries of the text, where there are any.
// `None` if a link is needed that is not known.
fn lengths_of(
    alloc: Global,
    nodes: &[TrieNode],
    links: &[Option<Link>],
    text: &[u8],
) -> Result<Option<HashMap<usize, usize>>, AllocError>
    requires forward { IsForward nodes.now }
    requires links { HasLinks nodes.now links.now }
    ensures { IfOk result (λ known. IfSome known (λ lengths. (words : List (List ℕ)) → IsTrie nodes.now (turned words)
        → ListsLengths (λ k. get nat_eq lengths k) words text.now)) }
{
    let mut lengths = HashMap::new(alloc);
    let mut state = None;
    let mut at = text.len();
    while at > 0 {
        at -= 1;
        state = match next_state(nodes, links, state, text[at]) {
            Some(next) => next,
            None => return Ok(None),
        };
        let length = match length_of(links, state) {
            Some(length) => length,
            None => return Ok(None),
        };
        note_length(&mut lengths, text, at, length)?;
    }
    Ok(Some(lengths))
}

/// Returns the lengths of the longest base directories at the boundaries of the text, by their
/// places, if a base directory has a separator before its last byte. Otherwise it returns `None`: the
/// search of a trie from one boundary on then ends at the next one, so each byte is compared once. It
/// would also return `None` if a link were needed that is not known.
///
/// The only error is lack of memory.
pub fn listed_lengths(
    alloc: Global,
    text: &[u8],
    basedirs: &[Vec<u8>],
) -> Result<Option<HashMap<usize, usize>>, AllocError>
    ensures { IfOk result (λ known. IfSome known (λ lengths. ListsLengths (λ k. get nat_eq lengths k) (map (λ b. b.items) basedirs.now) text.now)) }
{
    if !has_inner_separator(basedirs) {
        return Ok(None);
    }
    let words = turned(alloc, basedirs)?;
    let nodes = word_nodes(alloc, &words)?;
    let links = all_links(alloc, &nodes, &words)?;
    let known = lengths_of(alloc, &nodes, &links, text)?;
    Ok(known)
}

/// Returns the length that is listed for this place, and 0 if none is.
#[inline]
pub fn listed_length(lengths: &HashMap<usize, usize>, at: usize) -> usize
    ensures { result ≡ unwrap_or (get nat_eq lengths.now at) 0 }
{
    match lengths.get(&at) {
        Some(length) => *length,
        None => 0,
    }
}
