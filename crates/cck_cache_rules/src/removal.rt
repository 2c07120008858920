//! Which files go where there are too many bytes.
ghost use Rattle.std.specs.Prelude.{◌+◌, ◌≤◌};
ghost use Rattle.std.specs.Option.{SomeIff};
ghost use Rattle.cck_cache_rules.specs.Removal.{IsRemovedCount};

// The sum of two sizes, if it is no more than `most`.
fn sum_within(size: u64, other: u64, most: u64) -> Option<u64>
    ensures { SomeIff result (size + other ≤ most) (size + other) }
{
    match size.checked_add(other) {
        Some(sum) if sum <= most => Some(sum),
        _ => None,
    }
}

/// How many of these sizes go, from the first on, so that the others are together no more than `most`:
/// as few as will do.
pub fn removed_count(sizes: &[u64], most: u64) -> usize
    ensures { IsRemovedCount sizes.now most result }
{
    let mut count = sizes.len();
    let mut left = 0;
    while count > 0 {
        let Some(more) = sum_within(left, sizes[count - 1], most) else {
            return count;
        };
        left = more;
        count -= 1;
    }
    0
}
