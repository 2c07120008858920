//! The hash function of every digest. It is a type parameter, so that no theorem depends on which
//! function it is.
ghost use Rattle.std.specs.Prelude.{◌≡◌, ℕ, List, [], ◌++◌, length};
ghost use Rattle.sha2.specs.Sha256.{sha256};
ghost use Rattle.sha2.specs.Hashers.{Holds256};

use sha2::{Digest as _, Sha256};

/// A hash function with an output of 32 bytes, whose input is fed piece by piece.
///
/// A state holds the list of bytes that it was fed. Feeding two pieces one after the other is the
/// same as feeding their concatenation. The output depends on the bytes that the state holds, and
/// on nothing else. No call allocates memory.
pub trait HashState: Drop {
    // The state was fed these bytes.
    ghost holds: { Self → List ℕ → Type 0 };

    // The output for these bytes.
    ghost hash: { List ℕ → List ℕ };

    /// A state that was fed no bytes.
    fn start() -> Self
        ensures { holds result [] };

    /// Feeds a piece after what was fed before.
    fn feed(&mut self, bytes: &[u8])
        ensures { (fed : List ℕ) → holds self.old fed → holds self.new (fed ++ bytes.now) };

    /// The output for all that was fed.
    fn out(self) -> [u8; 32]
        ensures { (fed : List ℕ) → holds self fed → result ≡ hash fed };

    // An output has 32 bytes.
    ghost length_hash: { (fed : List ℕ) → length (hash fed) ≡ 32 };
}

/// SHA-256, of FIPS 180-4.
#[derive(Drop)]
pub struct Sha256State {
    hasher: Sha256,
}

impl HashState for Sha256State {
    ghost use Rattle.sha2.proofs.Facts256.{length-sha256};

    ghost holds = { λ state fed. Holds256 state.hasher fed };

    ghost hash = { sha256 };

    fn start() -> Sha256State {
        Sha256State {
            hasher: Sha256::new(),
        }
    }

    fn feed(&mut self, bytes: &[u8]) {
        self.hasher.update(bytes);
    }

    fn out(self) -> [u8; 32] {
        self.hasher.finalize()
    }

    ghost length_hash = { length-sha256 };
}
