//! The includes of a result, borrowed from the bytes of an entry.
ghost use Rattle.std.specs.Prelude.{◌≡◌, IsSome};
ghost use Rattle.std.specs.Iterator.{YieldsFirstBy, item_count};
ghost use Rattle.cck_include.specs.Include.{include_lent};
ghost use Rattle.cck_entry.specs.Lent.{includes_begun};
ghost use Rattle.cck_entry.specs.Reading.{includes_at};

use crate::reading::read_include_again;
use cck_include::IncludeRef;
use std::marker::Model;

/// The includes of a result, in their order. Each is read from the bytes of the entry when it is
/// yielded, and its path and its digest are borrowed from them. It allocates no memory.
#[derive(Drop)]
pub struct Includes<'a> {
    // The number of includes that are left.
    count: u64,
    // The bytes from the next of them on.
    rest: &'a [u8],
}

impl<'a> Model for Includes<'a> {
    ghost use Rattle.std.specs.Prelude.{IsSome, List};
    ghost use Rattle.cck_include.specs.Include.{Include};
    ghost use Rattle.cck_entry.specs.Lent.{includes_begun};
    ghost use Rattle.cck_entry.specs.Reading.{includes_at};

    ghost Value = { List Include };

    ghost view = { λ a. includes_begun a.count a.rest.now };

    ghost invariant = { λ a. IsSome (includes_at a.count a.rest.now) };
}

impl<'a> Includes<'a> {
    // The first `count` includes of the bytes.
    pub(crate) fn new(count: u64, bytes: &'a [u8]) -> Includes<'a>
        requires { IsSome (includes_at count bytes.now) }
        ensures { result ≡ includes_begun count bytes.now }
    {
        Includes { count, rest: bytes }
    }
}

impl<'a> Iterator for Includes<'a> {
    type Item = IncludeRef<'a>;

    ghost next_gives = { YieldsFirstBy include_lent (λ includes. includes) };

    ghost remaining = { item_count (λ includes. includes) };

    fn next(&mut self) -> Option<IncludeRef<'a>> {
        if self.count == 0 {
            return None;
        }
        match read_include_again(self.rest) {
            Ok((include, rest)) => {
                self.count -= 1;
                self.rest = rest;
                Some(include)
            }
            // All includes that are left can be read.
            Err(_) => None,
        }
    }
}
