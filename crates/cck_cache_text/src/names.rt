//! The files that a preprocessed text names.
ghost use Rattle.std.specs.Prelude.{◌≡◌, ◌∷◌, ◌++◌, [], IfOk, List, OnOk, false, map, true, ℕ};
ghost use Rattle.cck_include.specs.Marks as spec;
ghost use Rattle.cck_include.specs.Marks.{Marks};
ghost use Rattle.cck_cache_text.specs.Names.{AreNames, IsEnteredBy, IsSystem, directory_of, is_named, is_no_file};
ghost use Rattle.cck_cache_text.specs.Sets.{Adds, IsSetOf, has_key};

use crate::included::add_after;
use crate::search_list::text_lines;
use cck_include::{Mark, Markers};
use memchr::memrchr;
use std::alloc::{AllocError, Global};
use std::collections::BTreeSet;
use std::marker::Model;

/// The names of the files that a text was made of.
#[derive(Drop)]
pub struct Named {
    /// All names.
    pub names: BTreeSet<Vec<u8>>,
    /// Those of system headers.
    pub systems: BTreeSet<Vec<u8>>,
    /// The working directory, which is empty, and the directories of all names, each empty or ending
    /// in a slash.
    pub directories: BTreeSet<Vec<u8>>,
}

// The name that a compiler gives to the macros that it defines itself.
const BUILT_IN: &[u8] = b"<built-in>";

// Those that GCC and clang give to the macros of their arguments.
const COMMAND_LINE: &[u8] = b"<command-line>";

const CLANG_COMMAND_LINE: &[u8] = b"<command line>";

// Whether a name is of no file: one of these, or a working directory.
fn is_no_file(name: &[u8]) -> bool
    ensures { result ≡ is_no_file name.now }
{
    name.is_empty()
        || name == BUILT_IN
        || name == COMMAND_LINE
        || name == CLANG_COMMAND_LINE
        || name.ends_with(b"//")
}

// A name up to its last slash, which is part of it.
pub fn directory_of(name: &[u8]) -> &[u8]
    ensures { result.now ≡ directory_of name.now }
{
    match memrchr(b'/', name) {
        Some(at) => &name[..=at],
        None => b"",
    }
}

impl Named {
    // Adds the name of a mark that follows others.
    fn add(&mut self, alloc: Global, name: &[u8], is_system: bool) -> Result<(), AllocError>
        ensures { OnOk result ((marks : List spec.Mark) → AreNames marks self.old
            → AreNames (marks ++ spec.Name name.now is_system ∷ []) self.new) }
    {
        if is_no_file(name) || self.names.contains(name) {
            return Ok(());
        }
        self.names.insert(name.to_vec(alloc)?)?;
        self.directories.insert(directory_of(name).to_vec(alloc)?)?;
        if is_system {
            self.systems.insert(name.to_vec(alloc)?)?;
        }
        Ok(())
    }
}

// No names. The working directory is always among the directories.
fn no_names(alloc: Global) -> Result<Named, AllocError>
    ensures { IfOk result (λ named. AreNames [] named) }
{
    let mut directories = BTreeSet::new(alloc);
    directories.insert(Vec::new(alloc))?;
    Ok(Named {
        names: BTreeSet::new(alloc),
        systems: BTreeSet::new(alloc),
        directories,
    })
}

// The names in a text.
fn names_in(alloc: Global, text: &[u8]) -> Result<Named, AllocError>
    ensures { IfOk result (λ named.
        (marks : List spec.Mark) → Marks true text.now marks → AreNames marks named) }
{
    let mut named = no_names(alloc)?;
    let mut last: &[u8] = b"";
    for mark in Markers::new(text) {
        if let Mark::Name { name, is_system } = mark
            && name != last
        {
            named.add(alloc, name, is_system)?;
            last = name;
        }
    }
    Ok(named)
}

/// A preprocessed text, with the names of the files that it names.
#[derive(Drop)]
pub struct MarkedText<'a> {
    bytes: &'a [u8],
    named: Named,
}

impl<'a> Model for MarkedText<'a> {
    ghost use Rattle.std.specs.Prelude.{ℕ, List, true};
    ghost use Rattle.cck_include.specs.Marks.{Mark, Marks};
    ghost use Rattle.cck_cache_text.specs.Names.{AreNames};

    ghost Value = { List ℕ };

    ghost view = { λ a. a.bytes.now };

    ghost invariant = { λ a.
        (marks : List Mark) → Marks true a.bytes.now marks → AreNames marks a.named };
}

impl<'a> MarkedText<'a> {
    /// Returns the text of these bytes, with the names in it.
    ///
    /// The only error is lack of memory.
    pub fn new(alloc: Global, bytes: &'a [u8]) -> Result<MarkedText<'a>, AllocError>
        ensures { IfOk result (λ text. text ≡ bytes.now) }
    {
        let named = names_in(alloc, bytes)?;
        Ok(MarkedText { bytes, named })
    }

    /// Returns the bytes of the text.
    pub fn bytes(&self) -> &[u8]
        ensures { result.now ≡ self.now }
    {
        self.bytes
    }

    // The names, those of system headers and the directories.
    pub(crate) fn named(&self) -> &Named
        ensures { (marks : List spec.Mark) → Marks true self.now marks → AreNames marks result.now }
    {
        &self.named
    }

    /// Returns the names of the files that the text names, in order and each once: no name of no file,
    /// which are `<built-in>`, `<command-line>` and `<command line>`, and no working directory.
    pub fn names(&self) -> &BTreeSet<Vec<u8>>
        ensures { (marks : List spec.Mark) → Marks true self.now marks
            → (name : List ℕ) → has_key result.now name ≡ is_named marks name }
    {
        &self.named.names
    }
}

// Adds the names of the files that these lines enter as system headers.
fn add_entered(
    alloc: Global,
    systems: &mut BTreeSet<Vec<u8>>,
    lines: &[&[u8]],
) -> Result<(), AllocError>
    ensures { OnOk result (Adds (IsEnteredBy (map (λ line. line.now) lines.now)) systems.old systems.new) }
{
    for line in lines {
        add_after(alloc, systems, line, b"# 1 \"", b"\" 1 3")?;
    }
    Ok(())
}

/// The names of the system headers of this preprocessed text, in order and each once: those of the files that it names
/// first as one, and those that it enters as one later. Another mark does not count: GCC also marks a token so that a
/// macro of a system header makes.
///
/// The only error is lack of memory.
pub fn system_names(alloc: Global, text: &MarkedText<'_>) -> Result<BTreeSet<Vec<u8>>, AllocError>
    ensures { IfOk result (λ names. (marks : List spec.Mark) → Marks true text.now marks
        → IsSetOf (IsSystem marks text.now) names) }
{
    let mut systems = text.named().systems.clone()?;
    add_entered(alloc, &mut systems, &text_lines(alloc, text.bytes())?)?;
    Ok(systems)
}
