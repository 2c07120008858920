//! Paths: byte strings that are read as lists of components.
ghost use Rattle.std.specs.Prelude.{◌≡◌, ◌≢◌, ◌++◌, ◌<◌, ◌≤◌, ◌∷◌, ◌+◌, [], drop, length, map, nat_eq, OnOk, IfOk, IsOkUnless, MatchOption, MatchBool, option_to_list, take, ⊤};
ghost use Rattle.std.specs.List.{common_prefix_len, join_with_byte};
ghost use Rattle.std.specs.Option.{option_copied, option_map, option_and_then};
ghost use Rattle.std.specs.Iterator.{YieldsFirstBy, at_most};
ghost use Rattle.std.specs.Io.KnownBytes.{Appends};
ghost use Rattle.cck_path.specs.Path.{components, beginning, inner_components, part_components, has_root, joined, normal, path_cmp};
ghost use Rattle.cck_path.specs.Text.{ends_in_slash, path_text, join_path as joined_text};
ghost use Rattle.cck_path.specs.Names.{file_name_of, extension_of};
ghost use Rattle.cck_path.specs.Components.{IsInName, component_of, components_after, components_left};

use cck_digest::UtilError;
use memchr::{memchr, memrchr};
use std::alloc::{AllocError, Global};
use std::cmp::Ordering;
use std::io::Write;

// The numbers of bytes that are compared at once while two texts are the same: first of long texts,
// and then of what follows.
const LONG_CHUNK: usize = 32;

const SHORT_CHUNK: usize = 8;

/// A component of a path, as `std::path::Component` on Unix. Components are ordered as listed here,
/// and names by their bytes.
#[derive(Debug, Copy, Clone, PartialEq, Eq, PartialOrd, Ord)]
pub enum Component<'a> {
    /// The root: a `/` that the path begins with.
    RootDir,
    /// A `.` with which a path begins. Any other `.` is left out.
    CurDir,
    /// `..`.
    ParentDir,
    /// A name: any other part that isn't empty.
    Normal(&'a [u8]),
}

/// The components of a path, in order, as `std::path::Components` on Unix.
///
/// `/` separates the parts of a path. Empty parts are left out, and so is a part `.`, but not one
/// with which a path without root begins. Two paths are the same if their components are.
///
/// ```rust
/// Components::new(b"/a//./b/") // the root, `a`, `b`
/// ```
#[derive(Debug, Clone, Drop)]
pub struct Components<'a> {
    rest: &'a [u8],
    has_started: bool,
}

impl<'a> Components<'a> {
    /// The components of this path. It allocates no memory.
    pub fn new(path: &'a [u8]) -> Components<'a>
        ensures { components_left result ≡ components path.now }
    {
        Components {
            rest: path,
            has_started: false,
        }
    }

    // The components of what follows a `/` in a path. It has no root, and a `.` at its beginning is
    // left out.
    fn after(rest: &'a [u8]) -> Components<'a>
        ensures { components_left result ≡ inner_components rest.now }
    {
        Components {
            rest,
            has_started: true,
        }
    }
}

impl<'a> Iterator for Components<'a> {
    type Item = Component<'a>;

    ghost next_gives = { YieldsFirstBy component_of components_left };

    ghost remaining = { λ c. at_most (length (components_left c)) };

    fn next(&mut self) -> Option<Component<'a>> {
        let (component, rest) = take_component(self.has_started, self.rest)?;
        self.rest = rest;
        self.has_started = true;
        Some(component)
    }
}

// The next component, and the text after it.
#[tactic(auto, unfolding(crate::specs::Path::components))]
fn take_component(has_started: bool, rest: &[u8]) -> Option<(Component<'_>, &[u8])>
    ensures { MatchOption result (components_after has_started rest.now ≡ []) (λ next.
        components_after has_started rest.now
        ≡ component_of next.0 ∷ inner_components next.1.now) }
{
    if has_started {
        return next_component(rest);
    }
    match first_component(rest) {
        Some(first) => Some((first, rest)),
        None => next_component(rest),
    }
}

// The root or the `.` that the path begins with, if it has one.
fn first_component(path: &[u8]) -> Option<Component<'_>>
    ensures { option_to_list (option_map component_of result) ≡ beginning path.now }
{
    match path {
        [b'/', ..] => Some(Component::RootDir),
        [b'.'] => Some(Component::CurDir),
        [b'.', b'/', ..] => Some(Component::CurDir),
        _ => None,
    }
}

// The first component after the beginning of a path, and the text after it.
fn next_component(path: &[u8]) -> Option<(Component<'_>, &[u8])>
    ensures { MatchOption result (inner_components path.now ≡ []) (λ next.
        inner_components path.now ≡ component_of next.0 ∷ inner_components next.1.now) }
{
    let mut left = path;
    while !left.is_empty() {
        let (part, rest) = cut_part(left);
        left = rest;
        if let Some(component) = part_component(part) {
            return Some((component, left));
        }
    }
    None
}

// The text before the first `/`, and the text after it.
fn cut_part(path: &[u8]) -> (&[u8], &[u8])
    requires { 0 < length path.now }
    ensures parts { inner_components path.now
        ≡ part_components result.0.now ++ inner_components result.1.now }
    ensures shorter { length result.1.now < length path.now }
{
    match memchr(b'/', path) {
        Some(end) => (&path[..end], &path[end + 1..]),
        None => (path, &[]),
    }
}

// The component of a part that comes after the beginning of a path.
fn part_component(part: &[u8]) -> Option<Component<'_>>
    ensures { option_to_list (option_map component_of result) ≡ part_components part.now }
{
    match part {
        [] | [b'.'] => None,
        [b'.', b'.'] => Some(Component::ParentDir),
        _ => Some(Component::Normal(part)),
    }
}

/// The lexicographic order of two paths as lists of components: a list comes before each longer
/// list that begins with it. It allocates no memory.
///
/// Equal bytes are not read as components. If the first different bytes are of two names, their order
/// is that of the paths. Otherwise components are read only from the part on that has these bytes.
#[tactic(auto, using(crate::proofs::CommonPrefixLemmas::same_bytes))]
pub fn compare_paths(a: &[u8], b: &[u8]) -> Ordering
    ensures { result ≡ path_cmp (components a.now) (components b.now) }
{
    let same = common_prefix_len(a, b);
    if same == a.len() && same == b.len() {
        return Ordering::Equal;
    }
    match memrchr(b'/', &a[..same]) {
        Some(slash) => {
            let part = slash + 1;
            if is_in_name(a, part, same) && is_in_name(b, part, same) {
                return a[same].cmp(&b[same]);
            }
            compare_components(Components::after(&a[part..]), Components::after(&b[part..]))
        }
        None => compare_components(Components::new(a), Components::new(b)),
    }
}

// Whether the byte at this position is of a name whose part starts at `part`. A part that starts with
// `.` counts as no name, since it may be `.` or `..`.
fn is_in_name(path: &[u8], part: usize, at: usize) -> bool
    requires { part ≤ at }
    ensures { MatchBool result (IsInName path.now part at) (IsInName path.now part at → ⊥) }
{
    at < path.len() && path[part] != b'.' && path[at] != b'/'
}

// The order of two lists of components.
fn compare_components(a: Components<'_>, b: Components<'_>) -> Ordering
    ensures { result ≡ path_cmp (components_left a.entry) (components_left b.entry) }
{
    a.cmp(b)
}

/// The number of bytes at the beginning that are the same in both texts. It allocates no memory.
pub fn common_prefix_len(a: &[u8], b: &[u8]) -> usize
    ensures count { result ≡ common_prefix_len nat_eq a.now b.now }
    ensures in_first { result ≤ length a.now }
    ensures in_second { result ≤ length b.now }
{
    let mut at = same_chunks_len::<LONG_CHUNK>(a, b);
    at += same_chunks_len::<SHORT_CHUNK>(&a[at..], &b[at..]);
    while at < a.len() && at < b.len() && a[at] == b[at] {
        at += 1;
    }
    at
}

// The number of bytes in the chunks of N bytes at the beginning that are the same in both texts.
fn same_chunks_len<const N: usize>(a: &[u8], b: &[u8]) -> usize
    requires some { 0 < N }
    requires few { N ≤ 32 }
    ensures in_first { result ≤ length a.now }
    ensures in_second { result ≤ length b.now }
    ensures counted { common_prefix_len nat_eq a.now b.now
        ≡ result + common_prefix_len nat_eq (drop result a.now) (drop result b.now) }
{
    let mut at = 0;
    while is_same_chunk::<N>(&a[at..], &b[at..]) {
        at += N;
    }
    at
}

// Whether both texts begin with the same N bytes.
fn is_same_chunk<const N: usize>(a: &[u8], b: &[u8]) -> bool
    requires { N ≤ 32 }
    ensures { MatchBool result ((N ≤ length a.now) × (N ≤ length b.now) × (take N a.now ≡ take N b.now)) ⊤ }
{
    match (a.first_chunk::<N>(), b.first_chunk::<N>()) {
        (Some(a), Some(b)) => a == b,
        _ => false,
    }
}

/// Whether two paths have the same components. It allocates no memory.
pub fn same_path(a: &[u8], b: &[u8]) -> bool
    ensures { MatchBool result (components a.now ≡ components b.now)
        (components a.now ≢ components b.now) }
{
    compare_paths(a, b).is_eq()
}

/// Whether a path begins at the root. It allocates no memory.
#[tactic(auto, using(crate::proofs::PartLemmas::root_by_slash))]
pub fn is_absolute(path: &[u8]) -> bool
    ensures { result ≡ has_root (components path.now) }
{
    match path {
        [first, ..] => *first == b'/',
        [] => false,
    }
}

/// The file name of a path: its last component, if that is a name.
///
/// As `std::path::Path::file_name` on Unix. It allocates no memory.
pub fn file_name(path: &[u8]) -> Option<&[u8]>
    ensures { option_copied result ≡ file_name_of (components path.now) }
{
    let mut name: Option<&[u8]> = None;
    for component in Components::new(path) {
        name = match component {
            Component::Normal(name) => Some(name),
            _ => None,
        };
    }
    name
}

/// The extension of a path: what follows the last `.` of its file name. There is none where that
/// `.` is missing or is the first byte.
///
/// As `std::path::Path::extension` on Unix. It allocates no memory.
pub fn extension(path: &[u8]) -> Option<&[u8]>
    ensures { option_copied result
        ≡ option_and_then extension_of (file_name_of (components path.now)) }
{
    let name = file_name(path)?;
    let dot = memrchr(b'.', name)?;
    if dot == 0 {
        return None;
    }
    Some(&name[dot + 1..])
}

/// `path` resolved against `base`: `path` itself if it is absolute or `base` is empty, and else
/// `base`, a `/` unless `base` ends in one, and `path`.
///
/// The only error is [`UtilError::Memory`].
pub fn join_path(alloc: Global, base: &[u8], path: &[u8]) -> Result<Vec<u8>, UtilError>
    ensures bytes { IfOk result (λ whole. whole.items ≡ joined_text base.now path.now) }
    ensures components { IfOk result (λ whole.
        components whole.items ≡ joined (components base.now) (components path.now)) }
    ensures errors { IsOkUnless result UtilError.Memory }
{
    if base.is_empty() || is_absolute(path) {
        return Ok(path.to_vec(alloc)?);
    }
    let mut whole = base.to_vec(alloc)?;
    if !ends_in_slash(base) {
        whole.push(b'/')?;
    }
    whole.extend_from_slice(path)?;
    Ok(whole)
}

// Whether a path ends in a `/`.
#[tactic(auto, using(crate::proofs::JoinLemmas::ends_by_last))]
fn ends_in_slash(path: &[u8]) -> bool
    ensures { result ≡ ends_in_slash path.now }
{
    match path {
        [.., last] => *last == b'/',
        [] => false,
    }
}

/// The path without `.`, `..` and doubled slashes: its root, if it has one, and the names that
/// remain. A `..` removes the name before it, if there is one.
///
/// Upstream's `util::normalize_path`. Symbolic links are not followed. The only error is
/// [`UtilError::Memory`].
pub fn normalize_path(alloc: Global, path: &[u8]) -> Result<Vec<u8>, UtilError>
    ensures bytes { IfOk result (λ text. text.items ≡ path_text (normal (components path.now))) }
    ensures components { IfOk result (λ text.
        components text.items ≡ normal (components path.now)) }
    ensures errors { IsOkUnless result UtilError.Memory }
{
    let mut names: Vec<&[u8]> = Vec::new(alloc);
    for component in Components::new(path) {
        match component {
            Component::Normal(name) => names.push(name)?,
            Component::ParentDir => {
                names.pop();
            }
            Component::RootDir | Component::CurDir => {}
        }
    }
    let mut text = Vec::new(alloc);
    if is_absolute(path) {
        text.push(b'/')?;
    }
    push_names(&mut text, &names)?;
    Ok(text)
}

// Appends the names, separated by `/`.
fn push_names(text: &mut Vec<u8>, names: &[&[u8]]) -> Result<(), AllocError>
    ensures { OnOk result
        (text.new.items ≡ text.old.items ++ join_with_byte 47 (map (λ n. n.now) names.now)) }
{
    let Some((first, others)) = names.split_first() else {
        return Ok(());
    };
    text.extend_from_slice(first)?;
    for name in others {
        text.push(b'/')?;
        text.extend_from_slice(name)?;
    }
    Ok(())
}

/// Writes the bytes of a path.
///
/// Upstream's `util::encode_path`. The only error is [`UtilError::Write`], where the writer fails.
/// The number of bytes that were written is not known then. It allocates no memory.
pub fn encode_path<W: Write>(writer: &mut W, path: &[u8]) -> Result<(), UtilError>
    ensures written { OnOk result
        (Appends (W.contents writer.old) (W.contents writer.new) path.now) }
    ensures errors { IsOkUnless result UtilError.Write }
{
    match writer.write_all(path) {
        Ok(()) => Ok(()),
        Err(_) => Err(UtilError::Write),
    }
}

/// The path of these bytes: the bytes themselves.
///
/// Upstream's `util::decode_path`. The only error is [`UtilError::Memory`].
pub fn decode_path(alloc: Global, bytes: &[u8]) -> Result<Vec<u8>, UtilError>
    ensures path { IfOk result (λ path. path.items ≡ bytes.now) }
    ensures errors { IsOkUnless result UtilError.Memory }
{
    Ok(bytes.to_vec(alloc)?)
}
