//! Whether what a compilation writes may be put at its paths.
ghost use Rattle.std.specs.Prelude.{◌≡◌};
ghost use Rattle.cck_cache.specs.Places.{has_room_beside};

use crate::call::CallPaths;
use cck_cache_files::Identity;
use cck_cache_text::directory_of;
use std::fs;
use std::fs::{Metadata, OpenOptions};
use std::io::ErrorKind;
use std::rt::Files;

// The longest name of an object beside which clang can make a temporary file: that has 13 bytes more, and at most 255.
const LONGEST_NAME: usize = 242;

// Whether clang can make a temporary file beside an object at this path. In its path each percent sign becomes a digit.
// Where it can't, it writes to an object that is there.
fn has_room_beside(path: &[u8]) -> bool
    ensures { result ≡ has_room_beside path.now }
{
    let directory = directory_of(path);
    !directory.contains(&b'%') && path.len() <= directory.len() + LONGEST_NAME
}

// Whether a file can be opened for writing. clang makes its object anew, but not in the place of one that can't.
fn is_writable<R: Files>(rt: &R, path: &str) -> bool {
    OpenOptions::new().write(true).open(rt, path).is_ok()
}

// Whether a file may be put at a path: there is nothing, or a regular file that is not the input, has at
// least so many bytes and may be written. A compiler writes through a link and to a device, and does not
// write to a directory or over its input.
fn is_free<R: Files>(rt: &R, input: &Metadata, path: &str, least: u64) -> bool {
    match fs::symlink_metadata(rt, path) {
        Ok(found) => {
            let is_input = Identity::of(&found).is(Identity::of(input));
            found.is_file() && !is_input && found.len() >= least && is_writable(rt, path)
        }
        Err(error) => error.kind() == ErrorKind::NotFound,
    }
}

// The descriptor of standard error, as the system names it.
const STANDARD_ERROR: &str = "/proc/self/fd/2";

// Whether standard error may be the file at a path. A compiler writes its messages there before the rule, which takes
// their place.
fn may_be_standard_error<R: Files>(rt: &R, path: &str) -> bool {
    let Ok(found) = fs::metadata(rt, path) else {
        return false;
    };
    match fs::metadata(rt, STANDARD_ERROR) {
        Ok(stream) => Identity::of(&found).is(Identity::of(&stream)),
        Err(_) => true,
    }
}

/// Whether the files of a compilation may be put at their paths: they are two files, and standard error is not
/// written to the dependency file. `-` is standard output. The assembler removes an object that is there, unless it
/// is empty: that it writes to. `false` where the input can't be looked at.
pub fn are_free<R: Files>(rt: &R, paths: &CallPaths<'_>) -> bool {
    let Ok(input) = fs::metadata(rt, paths.input) else {
        return false;
    };
    let output = paths.output.as_str();
    if output == "-" || !has_room_beside(output.as_bytes()) {
        return false;
    }
    if !is_free(rt, &input, output, 1) {
        return false;
    }
    match &paths.dependencies {
        Some(path) => {
            let path = path.as_str();
            path != "-"
                && path != output
                && is_free(rt, &input, path, 0)
                && !may_be_standard_error(rt, path)
        }
        None => true,
    }
}
