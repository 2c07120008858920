//! A result, borrowed from the bytes of an entry.
ghost use Rattle.std.specs.Prelude.{IsSome};
ghost use Rattle.cck_entry.specs.Reading.{includes_at};

use crate::Includes;

/// A result of an entry, its key and the files that it included, borrowed from the entry's bytes.
#[derive(Clone, Copy)]
pub struct ResultRef<'a> {
    // Its key.
    pub(crate) key: &'a str,
    // The number of its includes.
    pub(crate) count: u64,
    // The bytes from the first of its includes on, to the end of the entry's.
    pub(crate) includes: &'a [u8],
    ghost whole: { IsSome (includes_at count includes.now) },
}

impl<'a> ResultRef<'a> {
    ghost use Rattle.std.specs.Prelude.{◌≡◌, length};
    ghost use Rattle.cck_entry.specs.Lent.{result_lent};

    /// Returns its key.
    pub fn key(&self) -> &'a str
        ensures { result.now ≡ (result_lent self.now).0 }
    {
        self.key
    }

    /// Returns the number of its includes, without iterating over them.
    pub fn include_count(&self) -> usize
        ensures { result ≡ length (result_lent self.now).1 }
    {
        self.count as usize
    }

    /// Returns its includes, in their order.
    pub fn includes(&self) -> Includes<'a>
        ensures { result ≡ (result_lent self.now).1 }
    {
        Includes::new(self.count, self.includes)
    }
}
