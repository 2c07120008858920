//! Which file is at a path.
ghost use Rattle.std.specs.Prelude.{◌≡◌, ◌≢◌, IsTrue, MatchBool, codes};

use std::fs::Metadata;
use std::os::unix::fs::{FileTypeExt, MetadataExt};

/// What the system knows a file or a directory by.
#[derive(Clone, Copy)]
pub struct Identity {
    /// The number of its device.
    pub device: u64,
    /// Its number on the device.
    pub inode: u64,
}

impl Identity {
    /// The identity of what was found at a path.
    pub fn of(found: &Metadata) -> Identity {
        Identity {
            device: found.dev(),
            inode: found.ino(),
        }
    }

    /// Whether this is also the identity of another one.
    pub fn is(self, other: Identity) -> bool
        ensures { MatchBool result (self ≡ other) (self ≢ other) }
    {
        self.device == other.device && self.inode == other.inode
    }
}

/// Whether what was found at a path is the null device, from which nothing is ever read: it counts as an empty file.
pub fn is_null_device(path: &str, found: &Metadata) -> bool
    ensures { IsTrue result → path.now ≡ codes "/dev/null" }
{
    path == "/dev/null" && found.file_type().is_char_device()
}
