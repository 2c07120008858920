//! Streams: consumers of pieces, and the loop that reads a reader to its end.
ghost use Rattle.std.specs.Prelude.{◌≡◌, ◌++◌, ◌⊎◌, ℕ, List, All, length, ⊤, IfOk, IfSome, IfErr, IsErrOf, OnErr, OnOk, vec_len};
ghost use Rattle.std.specs.List.{FoldsTo};
ghost use Rattle.std.specs.Io.KnownBytes.{IsAtEnd};
ghost use Rattle.cck_digest.specs.Stream.{HasTaken, IsPiece, TakesBeginning, buffer_size, concatenation};

use crate::UtilError;
use std::alloc::{AllocError, Global};
use std::io::Read;

/// The number of bytes that one read requests. Upstream's `util::HASH_BUFFER_SIZE`.
pub const HASH_BUFFER_SIZE: usize = 131072;

/// A buffer of [`HASH_BUFFER_SIZE`] bytes, 131072, to read a stream through. The only error is lack
/// of memory.
pub fn new_hash_buffer(alloc: Global) -> Result<Vec<u8>, AllocError>
    ensures room { IfOk result (λ buffer. vec_len buffer ≡ HASH_BUFFER_SIZE) }
    ensures size { HASH_BUFFER_SIZE ≡ buffer_size }
{
    Ok(vec![in alloc; 0u8; HASH_BUFFER_SIZE]?)
}

/// A consumer of a stream's pieces.
pub trait Sink {
    // Taking this piece may change the first state to the second.
    ghost takes: { Self → List ℕ → Self → Type 0 };

    /// Takes the next piece. The only error is lack of memory. After an error the sink has taken a
    /// beginning of the piece, which may be empty.
    fn take(&mut self, piece: &[u8]) -> Result<(), AllocError>
        ensures taken { OnOk result (takes self.old piece.now self.new) }
        ensures begun { OnErr result (TakesBeginning takes self.old piece.now self.new) };
}

/// Appends each piece, or nothing of it where memory is lacking.
impl Sink for Vec<u8> {
    ghost takes = { λ before piece after. after.items ≡ before.items ++ piece };

    fn take(&mut self, piece: &[u8]) -> Result<(), AllocError> {
        self.extend_from_slice(piece)
    }
}

// A consumer of a stream's pieces that takes them only while it is open, as one that calls a
// closure. A [`Sink`] is always open.
pub(crate) trait OpenSink {
    // A piece may be passed.
    ghost is_open: { Self → Type 0 };

    // Taking this piece may change the first state to the second.
    ghost takes: { Self → List ℕ → Self → Type 0 };

    // Takes the next piece, as [`Sink::take`] does. After a success it is open.
    fn take_open(&mut self, piece: &[u8]) -> Result<(), AllocError>
        requires { is_open self.old }
        ensures taken { OnOk result (takes self.old piece.now self.new × is_open self.new) }
        ensures begun { OnErr result (TakesBeginning takes self.old piece.now self.new) };
}

impl<S: Sink> OpenSink for S {
    ghost is_open = { λ _. ⊤ };

    ghost takes = { S.takes };

    fn take_open(&mut self, piece: &[u8]) -> Result<(), AllocError> {
        self.take(piece)
    }
}

// Reads the reader to its end through this buffer, and passes each piece to the sink.
pub(crate) fn read_through<S: OpenSink, R: Read>(
    buffer: &mut [u8],
    reader: &mut R,
    sink: &mut S,
) -> Result<(), UtilError>
    requires room { length buffer.old ≡ buffer_size }
    requires ready { S.is_open sink.old }
    ensures taken { OnOk result ((pieces : List (List ℕ)) × FoldsTo S.takes sink.old pieces sink.new
        × All IsPiece pieces × IfSome (R.remaining reader.old) (λ stream. stream ≡ concatenation pieces)) }
    ensures end { OnOk result (IsAtEnd (R.remaining reader.new)) }
    ensures stopped { IsErrOf result UtilError.Read
        → HasTaken S.takes sink.old sink.new (R.remaining reader.old) (R.remaining reader.new) }
    ensures begun { OnErr result (IfSome (R.remaining reader.old) (λ stream.
        TakesBeginning S.takes sink.old stream sink.new)) }
    ensures errors { IfErr result (λ e. (e ≡ UtilError.Memory) ⊎ (e ≡ UtilError.Read)) }
{
    for _ in 0..u64::MAX {
        let count = match reader.read(buffer) {
            Ok(count) => count,
            Err(_) => return Err(UtilError::Read),
        };
        if count == 0 {
            return Ok(());
        }
        sink.take_open(&buffer[..count])?;
    }
    Err(UtilError::Read)
}

/// Reads the reader to its end, and passes each piece to the sink. A piece has at least one byte
/// and at most [`HASH_BUFFER_SIZE`] bytes. A failed read is not repeated.
///
/// The error is [`UtilError::Read`] where a read fails, an interrupted one too, or where `u64::MAX`
/// reads do not reach the end. It is [`UtilError::Memory`] where memory is lacking.
///
/// After [`UtilError::Read`] the sink has taken what the reader gave so far, so that a second call
/// continues where this one stopped. After [`UtilError::Memory`] the sink has taken a beginning of
/// the stream, and the reader may have given more.
pub fn read_to_end<S: Sink, R: Read>(
    alloc: Global,
    reader: &mut R,
    sink: &mut S,
) -> Result<(), UtilError>
    ensures taken { OnOk result ((pieces : List (List ℕ)) × FoldsTo S.takes sink.old pieces sink.new
        × All IsPiece pieces × IfSome (R.remaining reader.old) (λ stream. stream ≡ concatenation pieces)) }
    ensures end { OnOk result (IsAtEnd (R.remaining reader.new)) }
    ensures stopped { IsErrOf result UtilError.Read
        → HasTaken S.takes sink.old sink.new (R.remaining reader.old) (R.remaining reader.new) }
    ensures begun { OnErr result (IfSome (R.remaining reader.old) (λ stream.
        TakesBeginning S.takes sink.old stream sink.new)) }
    ensures errors { IfErr result (λ e. (e ≡ UtilError.Memory) ⊎ (e ≡ UtilError.Read)) }
{
    let mut buffer = new_hash_buffer(alloc)?;
    read_through(&mut buffer, reader, sink)
}

/// All that the reader gives, up to its end. The errors are those of [`read_to_end`].
pub fn read_all<R: Read>(alloc: Global, reader: &mut R) -> Result<Vec<u8>, UtilError>
    ensures text { IfOk result (λ text. IfSome (R.remaining reader.old) (λ stream. text.items ≡ stream)) }
    ensures end { OnOk result (IsAtEnd (R.remaining reader.new)) }
    ensures errors { IfErr result (λ e. (e ≡ UtilError.Memory) ⊎ (e ≡ UtilError.Read)) }
{
    let mut text = Vec::new(alloc);
    read_to_end(alloc, reader, &mut text)?;
    Ok(text)
}
