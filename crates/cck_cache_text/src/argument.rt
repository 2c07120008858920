//! Arguments that may make a source depend on a file that it does not include.
ghost use Rattle.std.specs.Prelude.{◌≡◌, ◌↔◌, IsTrue};
ghost use Rattle.cck_cache_text.specs.Argument.{MayAskForFile, is_dependency_argument};

use crate::dependency_pragma::{ends_dependency, is_dependency_line};
use crate::splices::has;
use crate::test_name::is_test_word_at;

// Whether an argument may have a pragma of dependency, or a part of one as the value of a macro.
fn is_dependency_argument(argument: &[u8]) -> bool
    ensures { result ≡ is_dependency_argument argument.now }
{
    is_dependency_line(argument) || (ends_dependency(argument) && has(argument, b"="))
}

/// Whether an argument may make a source depend on a file that it does not include: a name of a test
/// for a header, or the beginning of one, is in it, or a pragma that compares the times of files, or a
/// part of one as the value of a macro.
pub fn may_ask_for_file(argument: &[u8]) -> bool
    ensures { IsTrue result ↔ MayAskForFile argument.now }
{
    for place in 0..argument.len() {
        if is_test_word_at(argument, place) {
            return true;
        }
    }
    is_dependency_argument(argument)
}
