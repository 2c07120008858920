//! The node at a path.
ghost use Rattle.std.specs.Prelude.{◌≡◌, IfOk, IsOkUnless};
ghost use Rattle.cck_files.specs.Node.{fields_of};

use cck_digest::UtilError;
use cck_path::{FileKind, Timestamp};
use std::alloc::Global;

/// The node at a path of [`MapFiles`](crate::MapFiles).
#[derive(Debug, PartialEq, Eq)]
pub struct Node {
    /// Its kind.
    pub kind: FileKind,
    /// The contents of a regular file. What a node of any other kind has here is in no map of files,
    /// and no call of [`MapFiles`](crate::MapFiles) shows it.
    pub contents: Vec<u8>,
    /// When the contents were last modified, where that is known.
    pub modified: Option<Timestamp>,
    /// When its contents or its status (its links and rights) last changed, as POSIX's `st_ctim`,
    /// where known.
    pub changed: Option<Timestamp>,
}

impl Drop for Node {
    fn drop(self) {
        let Node {
            kind: _,
            contents: _,
            modified: _,
            changed: _,
        } = self;
    }
}

impl Node {
    /// A copy of the node, equal to it in all fields.
    ///
    /// The only error is [`UtilError::Memory`].
    pub fn copy(&self, alloc: Global) -> Result<Node, UtilError>
        ensures same { IfOk result (λ copy. fields_of copy ≡ fields_of self.now) }
        ensures errors { IsOkUnless result UtilError.Memory }
    {
        Ok(Node {
            kind: self.kind,
            contents: self.contents.to_vec(alloc)?,
            modified: self.modified,
            changed: self.changed,
        })
    }
}
