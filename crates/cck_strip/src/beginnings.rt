//! What base directories begin with.
ghost use Rattle.std.specs.Prelude.{◌≡◌, ◌≤◌, ◌<◌, ℕ, MatchOption, map, length, slice_index};
ghost use Rattle.cck_strip.specs.Beginnings.{AllBegin, AllEmpty, FirstsMarked};

// The byte with which this word begins: a place in a table of all bytes.
fn first_byte(word: &[u8]) -> u8
    requires some { 0 < length word.now }
    ensures value { result ≡ slice_index word.now 0 }
    ensures within { result < 256 }
{
    word[0]
}

// For each byte whether one of these base directories begins with it.
pub fn first_bytes(basedirs: &[Vec<u8>]) -> [bool; 256]
    ensures { FirstsMarked (map (λ b. b.items) basedirs.now) result }
{
    let mut is_first = [false; 256];
    for basedir in basedirs {
        if !basedir.is_empty() {
            is_first[first_byte(basedir) as usize] = true;
        }
    }
    is_first
}

// Returns the length of the common beginning of the two.
fn shared_len(bytes: &[u8], others: &[u8]) -> usize
    ensures within { result ≤ length bytes.now }
    ensures within_others { result ≤ length others.now }
    ensures shared { (k : ℕ) → k < result → slice_index bytes.now k ≡ slice_index others.now k }
{
    let mut shared = 0;
    while shared < bytes.len() && shared < others.len() && bytes[shared] == others[shared] {
        shared += 1;
    }
    shared
}

// Returns the common beginning of all base directories that are not empty, at most 32 bytes. `None`
// if all are empty.
pub fn common_beginning<'a>(basedirs: &'a [Vec<u8>]) -> Option<&'a [u8]>
    ensures { MatchOption result (AllEmpty (map (λ b. b.items) basedirs.now))
        (λ common. AllBegin (map (λ b. b.items) basedirs.now) common.now) }
{
    let mut common = None;
    for basedir in basedirs {
        if !basedir.is_empty() {
            common = match common {
                // A search reads this number of bytes past the places that it looks at.
                None => Some(&basedir[..basedir.len().min(32)]),
                Some(bytes) => Some(&bytes[..shared_len(bytes, basedir)]),
            };
        }
    }
    common
}
