//! Checksums.
ghost use Rattle.std.specs.Prelude.{◌≡◌};
ghost use Rattle.cck_explain_listing.specs.Checksum.{checksum};

/// The state before the first byte.
const OFFSET_BASIS: u64 = 0xcbf2_9ce4_8422_2325;

/// What the state is multiplied by after each byte.
const PRIME: u64 = 0x0000_0100_0000_01b3;

/// Returns a checksum of these bytes, the 64-bit FNV-1a. Bytes of one length that differ in one place
/// alone have different checksums; in general it is no digest, and others may have the same.
///
/// Fowler, Noll and Vo's hash, as draft-eastlake-fnv describes it. It allocates no memory.
#[tactic(auto, unfolding(crate::specs::Checksum::checksum))]
pub fn checksum(bytes: &[u8]) -> u64
    ensures { result ≡ checksum bytes.now }
{
    let mut state = OFFSET_BASIS;
    for byte in bytes {
        state = (state ^ u64::from(*byte)).wrapping_mul(PRIME);
    }
    state
}
