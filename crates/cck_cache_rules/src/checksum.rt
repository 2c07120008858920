//! A checksum that finds damage.
ghost use Rattle.std.specs.Prelude.{◌≡◌, ◌++◌, ◌∷◌, [], ℕ, List, slice_index};
ghost use Rattle.std.specs.List.{flat_map};
ghost use Rattle.cck_cache_rules.specs.Checksum.{checksum, sums_of, words};

// The four sums over words, modulo 2^64.
#[derive(Clone, Copy)]
struct Sums {
    first: u64,
    second: u64,
    third: u64,
    fourth: u64,
}

impl Sums {
    // The sums after one more word.
    fn with(self, word: u32) -> Sums
        ensures { (before : List ℕ) → self ≡ sums_of before → result ≡ sums_of (before ++ word ∷ []) }
    {
        let first = self.first.wrapping_add(u64::from(word));
        let second = self.second.wrapping_add(first);
        let third = self.third.wrapping_add(second);
        let fourth = self.fourth.wrapping_add(third);
        Sums {
            first,
            second,
            third,
            fourth,
        }
    }
}

// The byte at this place, and 0 past the end.
fn byte_at(bytes: &[u8], place: usize) -> u8
    ensures { result ≡ slice_index bytes.now place }
{
    bytes.get(place).copied().unwrap_or(0)
}

// The sums over the words of these bytes.
fn sums_over(bytes: &[u8]) -> Sums
    ensures { result ≡ sums_of (words bytes.now) }
{
    let (whole, rest) = bytes.as_chunks::<4>();
    let mut sums = Sums {
        first: 0,
        second: 0,
        third: 0,
        fourth: 0,
    };
    for word in whole {
        sums = sums.with(u32::from_le_bytes(*word));
    }
    if rest.is_empty() {
        return sums;
    }
    let last = [byte_at(rest, 0), byte_at(rest, 1), byte_at(rest, 2), 0];
    sums.with(u32::from_le_bytes(last))
}

/// Fletcher's checksum with four sums, as ZFS has it: 8 bytes of each sum, the lowest first. The words
/// have 4 bytes, the lowest first, and the last word is filled with zero bytes.
///
/// ZFS finds damaged blocks by it, as `fletcher_4` of `zfs_fletcher.c`. What it finds in any case is in
/// [`checksum_tells_one_word`](crate::laws::checksum_tells_one_word) and
/// [`checksum_tells_two_words`](crate::laws::checksum_tells_two_words). It is no protection from
/// somebody who makes bytes on purpose, as no digest without a key is.
///
/// It allocates no memory.
pub(crate) fn checksum(bytes: &[u8]) -> [[u8; 8]; 4]
    ensures { flat_map (λ sum. sum) result ≡ checksum bytes.now }
{
    let sums = sums_over(bytes);
    [
        sums.first.to_le_bytes(),
        sums.second.to_le_bytes(),
        sums.third.to_le_bytes(),
        sums.fourth.to_le_bytes(),
    ]
}
