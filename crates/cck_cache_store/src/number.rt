//! Numbers in decimal digits.
ghost use Rattle.std.specs.Prelude.{MatchOption};
ghost use Rattle.cck_cache_store.specs.Number.{Says, SaysNone};

/// The number that a text says, in decimal digits with or without a plus. `None` where it says none, or one of more than 64
/// bits.
pub(crate) fn number_in(text: &[u8]) -> Option<u64>
    ensures { MatchOption result (SaysNone text.now) (Says text.now) }
{
    let Ok(text) = str::from_utf8(text) else {
        return None;
    };
    match text.parse::<u64>() {
        Ok(number) => Some(number),
        Err(_) => None,
    }
}
