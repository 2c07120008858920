//! Texts and arguments without their cuts, written to a buffer of the caller.
ghost use Rattle.std.specs.Prelude.{◌≡◌, ◌+◌, ◌++◌, ◌≤◌, IfOk, OnErr, drop, length, map, take};
ghost use Rattle.cck_strip.specs.Argument.{stripped_argument};
ghost use Rattle.cck_strip.specs.Cuts.{stripped};
ghost use Rattle.cck_strip.specs.Into.{IsWritten};
ghost use Rattle.cck_strip.specs.Search.{Finds};
ghost use Rattle.cck_strip.specs.Text.{stripped_text, text_site};

use crate::argument::{ArgumentSites, PositionSearch};
use crate::cuts::{Progress, Search, Sites, next_piece};
use crate::endings::listed_lengths;
use crate::search::{TextSearch, text_search};
use crate::text::TextSites;
use crate::trie::BasedirTrie;
use std::alloc::{AllocError, Global};
use std::convert::AsSlice;

// Writes the piece to the buffer at the place `written`, and returns the place after it.
fn write_piece(buffer: &mut [u8], written: usize, piece: &[u8]) -> usize
    requires { written + length piece.now ≤ length buffer.old }
    ensures place { result ≡ written + length piece.now }
    ensures piece { take result buffer.new ≡ take written buffer.old ++ piece.now }
    ensures rest { drop result buffer.new ≡ drop result buffer.old }
{
    let end = written + piece.len();
    buffer[written..end].copy_from_slice(piece);
    end
}

// Writes the text without its cuts to the start of the buffer, and returns its length. Returns
// `None` if nothing is cut, and writes nothing then.
fn cut_into<S: Sites, F: Search<S>>(
    text: &[u8],
    sites: &S,
    search: &F,
    buffer: &mut [u8],
) -> Option<usize>
    requires text_is { S.text sites.now ≡ text.now }
    requires finds { F.finds search.now sites.now }
    requires room { length text.now ≤ length buffer.old }
    ensures { IsWritten (stripped (S.site sites.now) text.now) text.now buffer.old buffer.new result }
{
    let mut written = 0;
    let mut progress = Progress::new();
    while let Some(piece) = next_piece(text, sites, search, &mut progress) {
        written = write_piece(buffer, written, piece);
    }
    if !progress.is_cut {
        return None;
    }
    Some(written)
}

// Writes the text without its cuts, as `cut_into` does, by a search of this kind.
fn sites_cut_into(
    text: &[u8],
    sites: &TextSites<'_>,
    search: &TextSearch<'_>,
    buffer: &mut [u8],
) -> Option<usize>
    requires text_is { sites.now.text.now ≡ text.now }
    requires finds { Finds search.now (map (λ b. b.items) sites.now.basedirs.now) }
    requires room { length text.now ≤ length buffer.old }
    ensures { IsWritten (stripped (text_site (map (λ b. b.items) sites.now.basedirs.now) sites.now.text.now) text.now)
        text.now buffer.old buffer.new result }
{
    match search {
        TextSearch::FirstBytes(search) => cut_into(text, sites, search, buffer),
        TextSearch::Byte(search) => cut_into(text, sites, search, buffer),
        TextSearch::Word(search) => cut_into(text, sites, search, buffer),
    }
}

/// Writes what [`strip_basedirs`](crate::strip_basedirs) returns of this text to the start of the
/// buffer, and returns its length in bytes. The rest of the buffer stays as it is. Returns `None` if
/// nothing is cut out, and writes nothing then: the text is its own result.
///
/// The only error is lack of memory. Nothing is written then.
pub fn strip_basedirs_into(
    alloc: Global,
    text: &[u8],
    basedirs: &[Vec<u8>],
    buffer: &mut [u8],
) -> Result<Option<usize>, AllocError>
    requires { length text.now ≤ length buffer.old }
    ensures written { IfOk result (λ written.
        IsWritten (stripped_text (map (λ b. b.items) basedirs.now) text.now) text.now buffer.old buffer.new written) }
    ensures kept { OnErr result (buffer.new ≡ buffer.old) }
{
    let search = match text_search(basedirs) {
        Some(search) => search,
        None => return Ok(None),
    };
    let Ok(trie) = BasedirTrie::new(alloc, basedirs) else {
        return Err(AllocError);
    };
    let listed = listed_lengths(alloc, text, basedirs)?;
    let sites = TextSites {
        text,
        basedirs,
        trie: &trie,
        listed: &listed,
    };
    Ok(sites_cut_into(text, &sites, &search, buffer))
}

/// Writes what [`strip_basedirs_from_arg`](crate::strip_basedirs_from_arg) returns of this argument
/// to the start of the buffer, and returns its length in bytes. The rest of the buffer stays as it
/// is. Returns `None` if nothing is cut out, and writes nothing then: the argument is its own result.
///
/// It allocates no memory.
pub fn strip_basedirs_from_arg_into<B: AsSlice<u8>>(
    argument: &[u8],
    basedirs: &[B],
    buffer: &mut [u8],
) -> Option<usize>
    requires { length argument.now ≤ length buffer.old }
    ensures { IsWritten (stripped_argument (map B.items basedirs.now) argument.now)
        argument.now buffer.old buffer.new result }
{
    let sites = ArgumentSites::new(argument, basedirs);
    cut_into(argument, &sites, &PositionSearch, buffer)
}
