//! Base directories in what a compilation made.
ghost use Rattle.std.specs.Prelude.{◌↔◌, IsTrue, map};
ghost use Rattle.cck_cache_rules.specs.Shown.{ShowsBase};

use crate::argument::contains;

/// Returns whether one of these base directories is in what a compilation made, which is then not the
/// same in each checkout.
pub fn shows_base(bases: &[Vec<u8>], made: &[u8]) -> bool
    ensures { IsTrue result ↔ ShowsBase (map (λ b. b.items) bases.now) made.now }
{
    bases.iter().any(|base| contains(made, base))
}
