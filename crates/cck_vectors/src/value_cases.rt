//! Cases of the calls on bytes, paths, texts, times, digests, readers and keys.
//!
//! [`Values`] is the subject of a vector file. These words are known beside those of every file:
//!
//! | word | meaning |
//! |---|---|
//! | `basedirs_with N FIRST LETTER` | N base directories: the text FIRST, followed by no LETTER, by one, and so on |
//! | `pieces LIST` | the pieces that a digest or a finder is given in turn; none at first |
//! | `reader STEP PASSING KIND` | how the call's bytes are read: the number of bytes of one read, the number of reads that pass, and the error kind of the reads after them, `interrupted` or `other`; at first no read fails, and each gives as much as is asked for |
//! | `writer PASSING` | the number of writes that pass before a writer fails; all at first |

mod digests;
mod errors;
mod finder;
mod keys;
mod paths;
mod readers;
mod searches;
mod streams;
mod strip;
mod texts;
mod times;
mod values;

use crate::value_cases::values::Values;
use std::io;

/// Runs the cases of a file as [`run_file`](crate::cases::run_file) does.
///
/// # Errors
///
/// Those of [`run_file`](crate::cases::run_file).
pub(crate) fn run_file(rt: &HostRuntime, name: &str) -> io::Result<bool> {
    crate::cases::run_file::<Values>(rt, name)
}
