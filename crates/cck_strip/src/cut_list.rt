//! The cuts of a text and of an argument, listed.
ghost use Rattle.std.specs.Prelude.{◌≡◌, ◌+◌, ◌<◌, IfOk, length, map};
ghost use Rattle.cck_strip.specs.Argument.{argument_site};
ghost use Rattle.cck_strip.specs.CutList.{cuts_of};
ghost use Rattle.cck_strip.specs.Text.{text_site};

use crate::argument::ArgumentSites;
use crate::cuts::Sites;
use crate::endings::listed_lengths;
use crate::text::TextSites;
use crate::trie::BasedirTrie;
use std::alloc::{AllocError, Global};

/// A base directory that is cut out.
#[derive(Clone, Copy, Debug, PartialEq, Eq)]
pub struct Cut {
    /// The number of bytes before it.
    pub offset: usize,
    /// The number of bytes that are cut out.
    pub length: usize,
}

// Returns the cuts of these sites of the text, in ascending order: each site whose start
// is in no earlier cut.
fn cuts_in<S: Sites>(alloc: Global, text: &[u8], sites: &S) -> Result<Vec<Cut>, AllocError>
    requires { S.text sites.now ≡ text.now }
    ensures { IfOk result (λ cuts. cuts.items ≡ cuts_of (S.site sites.now) (length text.now)) }
{
    let mut cuts = Vec::new(alloc);
    let mut at = 0;
    while at < text.len() {
        let length = sites.length_at(at);
        if length > 0 {
            cuts.push(Cut { offset: at, length })?;
            at += length;
        } else {
            at += 1;
        }
    }
    Ok(cuts)
}

/// Returns where [`strip_basedirs`](crate::strip_basedirs) cuts base directories out of this text,
/// in ascending order.
///
/// The only error is lack of memory.
pub fn text_cuts(alloc: Global, text: &[u8], basedirs: &[Vec<u8>]) -> Result<Vec<Cut>, AllocError>
    ensures { IfOk result (λ cuts. cuts.items
        ≡ cuts_of (text_site (map (λ b. b.items) basedirs.now) text.now) (length text.now)) }
{
    let Ok(trie) = BasedirTrie::new(alloc, basedirs) else {
        return Err(AllocError);
    };
    let listed = listed_lengths(alloc, text, basedirs)?;
    let sites = TextSites {
        text,
        basedirs,
        trie: &trie,
        listed: &listed,
    };
    cuts_in(alloc, text, &sites)
}

/// Returns where [`strip_basedirs_from_arg`](crate::strip_basedirs_from_arg) cuts base directories
/// out of this argument, in ascending order.
///
/// The only error is lack of memory.
pub fn argument_cuts(
    alloc: Global,
    argument: &[u8],
    basedirs: &[Vec<u8>],
) -> Result<Vec<Cut>, AllocError>
    ensures { IfOk result (λ cuts. cuts.items
        ≡ cuts_of (argument_site (map (λ b. b.items) basedirs.now) argument.now) (length argument.now)) }
{
    let sites = ArgumentSites::new(argument, basedirs);
    cuts_in(alloc, argument, &sites)
}
