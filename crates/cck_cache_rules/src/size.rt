//! A number of bytes, as a text has it.
ghost use Rattle.std.specs.Prelude.{◌≡◌, ℕ, MatchOption};
ghost use Rattle.std.specs.List.{position, position_or_len};
ghost use Rattle.cck_cache_rules.specs.Size.{IsLimit, IsSize, IsUnit, is_other};

/// The limit of a store for which none was chosen, in bytes.
const DEFAULT_LIMIT: u64 = 5_000_000_000;

// The bytes of the unit with this suffix. `None` for every other text.
fn unit_of(suffix: &str) -> Option<u64>
    ensures { MatchOption result ((bytes : ℕ) → IsUnit suffix.now bytes → ⊥) (IsUnit suffix.now) }
{
    match suffix {
        "" => Some(1),
        "k" => Some(1_000),
        "M" => Some(1_000_000),
        "G" => Some(1_000_000_000),
        "T" => Some(1_000_000_000_000),
        "Ki" => Some(1 << 10),
        "Mi" => Some(1 << 20),
        "Gi" => Some(1 << 30),
        "Ti" => Some(1 << 40),
        _ => None,
    }
}

// The index of the first byte that is no decimal digit.
fn first_other(text: &[u8]) -> Option<usize>
    ensures { result ≡ position is_other text.now }
{
    text.iter().position(|byte| !byte.is_ascii_digit())
}

// The number of decimal digits at the start of a text.
fn digit_count(text: &[u8]) -> usize
    ensures { result ≡ position_or_len is_other text.now }
{
    first_other(text).unwrap_or(text.len())
}

/// The bytes that a text says: a number in decimal digits, with or without one of the suffixes `k`,
/// `M`, `G` and `T`, for powers of 1000, and `Ki`, `Mi`, `Gi` and `Ti`, for powers of 1024. `None` for
/// every other text, and where there are 2^64 bytes or more.
pub fn size_of(text: &str) -> Option<u64>
    ensures { MatchOption result ((size : ℕ) → IsSize text.now size → ⊥) (IsSize text.now) }
{
    let (number, suffix) = text.split_at_checked(digit_count(text.as_bytes()))?;
    let unit = unit_of(suffix)?;
    number.parse::<u64>().ok()?.checked_mul(unit)
}

/// The limit of a store that a text says, in bytes. `None`, which is no limit, for a size of 0, and
/// 5000000000 for a text that is no size.
pub fn limit_of(text: &str) -> Option<u64>
    ensures { IsLimit text.now result }
{
    match size_of(text) {
        Some(0) => None,
        Some(size) => Some(size),
        None => Some(DEFAULT_LIMIT),
    }
}
