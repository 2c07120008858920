//! The base directories that are cut from the key of a compilation with a text.
ghost use Rattle.std.specs.Prelude.{◌↔◌, IfOk, IsTrue};
ghost use Rattle.cck_cache_rules.specs.Base.{word_lists};
ghost use Rattle.cck_cache_rules.specs.Text.{AreBases, IsDirectoryMarker, IsPortableText};
ghost use Rattle.cck_path.specs.Bytes.{lists_of};

use crate::base::{Words, base_of};
use memchr::memmem::Finder;
use std::alloc::{AllocError, Global};

// Whether the line marker of the working directory, as `-g` makes it, has the directory between
// these parts of a text.
fn is_directory_marker(before: &[u8], after: &[u8], directory: &[u8]) -> bool
    ensures { IsTrue result ↔ IsDirectoryMarker before.now after.now directory.now }
{
    match after.strip_prefix(directory) {
        Some(end) => before.ends_with(b"\n# 1 \"") && end.starts_with(b"//\"\n"),
        None => false,
    }
}

// Whether a text names the base directory in the line marker of the working directory alone. Each
// occurrence counts, also one that overlaps another.
fn is_portable_text(text: &[u8], base: &[u8], directory: &[u8]) -> bool
    ensures { IsTrue result ↔ IsPortableText text.now base.now directory.now }
{
    let finder = Finder::new(base);
    let mut from = 0;
    while from <= text.len() {
        let Some(distance) = finder.find(&text[from..]) else {
            return true;
        };
        let (before, after) = text.split_at(from + distance);
        if !is_directory_marker(before, after, directory) {
            return false;
        }
        from += distance + 1;
    }
    true
}

/// Returns the base directories that are cut from the key of a request with this text: one if the
/// compilation is portable, and else none. The only error is lack of memory.
pub fn bases_of(alloc: Global, words: &Words<'_>, text: &[u8]) -> Result<Vec<Vec<u8>>, AllocError>
    ensures { IfOk result (λ bases. AreBases (word_lists words.now) text.now (lists_of bases.items)) }
{
    let mut bases = Vec::new(alloc);
    if let Some(base) = base_of(words) {
        let (base, directory) = (base.as_bytes(), words.directory.as_bytes());
        if is_portable_text(text, base, directory) {
            bases.push(base.to_vec(alloc)?)?;
        }
    }
    Ok(bases)
}
