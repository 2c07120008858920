//! Digests of what a reader gives: upstream's `Digest::reader_sync` and its variants, with the
//! allocator as a parameter.
ghost use Rattle.std.specs.Prelude.{◌≡◌, ◌++◌, ◌⊎◌, ℕ, List, [], All, length, IfOk, IfSome, IfErr, IsOkUnless, OnOk, string_bytes};
ghost use Rattle.std.specs.Fn.{CalledAt};
ghost use Rattle.std.specs.Io.KnownBytes.{IsAtEnd};
ghost use Rattle.std.specs.List.{FoldsTo};
ghost use Rattle.cck_digest.specs.Digest.{digest_text};
ghost use Rattle.cck_digest.specs.Stream.{IsPiece, concatenation};
ghost use Rattle.cck_digest.specs.TimeMacros.{Follows};

use crate::stream::{OpenSink, read_through};
use crate::{Digest, HashState, Sink, TimeMacroFinder, UtilError, new_hash_buffer, read_to_end};
use std::alloc::{AllocError, Global};
use std::io::Read;

/// Feeds each piece to the digest.
impl<H: HashState> Sink for Digest<H> {
    ghost takes = { λ before piece after. (fed : List ℕ) → H.holds before fed → H.holds after (fed ++ piece) };

    fn take(&mut self, piece: &[u8]) -> Result<(), AllocError> {
        self.update(piece);
        Ok(())
    }
}

/// A digest and a finder of time macros that are fed one stream in one pass.
///
/// As a [`Sink`] it passes each piece to both.
#[derive(Drop)]
pub struct WatchedDigest<H: HashState> {
    /// The digest of the stream so far.
    pub digest: Digest<H>,
    /// The finder after the stream so far.
    pub finder: TimeMacroFinder,
}

impl<H: HashState> WatchedDigest<H> {
    /// A digest that was fed no bytes, and a finder of an empty stream. It allocates no memory.
    pub fn new() -> WatchedDigest<H>
        ensures digest { H.holds result.digest [] }
        ensures finder { Follows result.finder [] }
    {
        WatchedDigest {
            digest: Digest::<H>::new(),
            finder: TimeMacroFinder::new(),
        }
    }

    /// The hex digest of all that was fed, and the finder.
    ///
    /// The only error is [`UtilError::Memory`].
    pub fn finish(self, alloc: Global) -> Result<(String, TimeMacroFinder), UtilError>
        ensures text { IfOk result (λ pair. (fed : List ℕ) → H.holds self.digest fed
            → string_bytes pair.0 ≡ digest_text H.hash fed) }
        ensures digits { IfOk result (λ pair. length (string_bytes pair.0) ≡ 64) }
        ensures finder { IfOk result (λ pair. pair.1 ≡ self.finder) }
        ensures errors { IsOkUnless result UtilError.Memory }
    {
        let WatchedDigest { digest, finder } = self;
        Ok((digest.finish(alloc)?, finder))
    }
}

impl<H: HashState> Sink for WatchedDigest<H> {
    ghost takes = { λ before piece after.
        ((fed : List ℕ) → H.holds before.digest fed → H.holds after.digest (fed ++ piece))
        × ((fed : List ℕ) → Follows before.finder fed → Follows after.finder (fed ++ piece)) };

    fn take(&mut self, piece: &[u8]) -> Result<(), AllocError> {
        self.digest.update(piece);
        self.finder.find_time_macros(piece);
        Ok(())
    }
}

// A digest that passes each piece to a closure before the piece is fed.
#[derive(Drop)]
struct Each<H: HashState, F: Drop> {
    digest: Digest<H>,
    each: F,
}

impl<H: HashState, F: FnMut(&[u8]) + Drop> OpenSink for Each<H, F> {
    ghost is_open = { λ shown. F.IsAlwaysCallable shown.each };

    ghost takes = { λ before piece after.
        CalledAt F.FnMut before.each piece tt after.each
        × ((fed : List ℕ) → H.holds before.digest fed → H.holds after.digest (fed ++ piece)) };

    fn take_open(&mut self, piece: &[u8]) -> Result<(), AllocError> {
        (self.each)(piece);
        self.digest.update(piece);
        Ok(())
    }
}

impl<H: HashState> Digest<H> {
    /// The hex digest of all that the reader gives. The errors are those of [`read_to_end`]; after
    /// one there is no digest.
    pub fn reader_sync<R: Read>(alloc: Global, reader: &mut R) -> Result<String, UtilError>
        ensures text { IfOk result (λ text. IfSome (R.remaining reader.old) (λ stream.
            string_bytes text ≡ digest_text H.hash stream)) }
        ensures digits { IfOk result (λ text. length (string_bytes text) ≡ 64) }
        ensures end { OnOk result (IsAtEnd (R.remaining reader.new)) }
        ensures errors { IfErr result (λ e. (e ≡ UtilError.Memory) ⊎ (e ≡ UtilError.Read)) }
    {
        let mut digest = Digest::<H>::new();
        read_to_end(alloc, reader, &mut digest)?;
        digest.finish(alloc)
    }

    /// A digest that was fed all that the reader gives. `each` is called with each piece before the
    /// piece is fed. A piece has at least one byte and at most
    /// [`HASH_BUFFER_SIZE`](crate::HASH_BUFFER_SIZE) bytes. The errors are those of
    /// [`read_to_end`].
    pub fn reader_sync_with<R: Read, F: FnMut(&[u8]) + Drop>(
        alloc: Global,
        reader: &mut R,
        each: F,
    ) -> Result<Digest<H>, UtilError>
        requires { F.IsAlwaysCallable each }
        ensures fed { IfOk result (λ digest. (pieces : List (List ℕ)) × (last : F)
            × FoldsTo (λ before piece after. CalledAt F.FnMut before piece tt after) each pieces last
            × All IsPiece pieces × H.holds digest (concatenation pieces)
            × IfSome (R.remaining reader.old) (λ stream. stream ≡ concatenation pieces)) }
        ensures end { OnOk result (IsAtEnd (R.remaining reader.new)) }
        ensures errors { IfErr result (λ e. (e ≡ UtilError.Memory) ⊎ (e ≡ UtilError.Read)) }
    {
        let mut shown = Each {
            digest: Digest::<H>::new(),
            each,
        };
        let mut buffer = new_hash_buffer(alloc)?;
        read_through(&mut buffer, reader, &mut shown)?;
        Ok(shown.digest)
    }

    /// The hex digest of all that the reader gives, and a finder after the same stream. The errors
    /// are those of [`read_to_end`].
    pub fn reader_sync_time_macros<R: Read>(
        alloc: Global,
        reader: &mut R,
    ) -> Result<(String, TimeMacroFinder), UtilError>
        ensures text { IfOk result (λ pair. IfSome (R.remaining reader.old) (λ stream.
            string_bytes pair.0 ≡ digest_text H.hash stream)) }
        ensures digits { IfOk result (λ pair. length (string_bytes pair.0) ≡ 64) }
        ensures macros { IfOk result (λ pair. IfSome (R.remaining reader.old) (λ stream. Follows pair.1 stream)) }
        ensures end { OnOk result (IsAtEnd (R.remaining reader.new)) }
        ensures errors { IfErr result (λ e. (e ≡ UtilError.Memory) ⊎ (e ≡ UtilError.Read)) }
    {
        let mut watched = WatchedDigest::<H>::new();
        read_to_end(alloc, reader, &mut watched)?;
        watched.finish(alloc)
    }
}
