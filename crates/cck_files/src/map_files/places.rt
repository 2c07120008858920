//! Places of files in memory.
ghost use Rattle.std.specs.Prelude.{◌≡◌};
ghost use Rattle.cck_path.specs.Path.{components};
ghost use Rattle.cck_path.specs.Text.{path_text};

use crate::Node;

// The node at a path, and its canonical path, which leads there without links.
#[derive(Debug, Drop)]
pub(super) struct Place {
    pub(super) node: Node,
    pub(super) canonical: Vec<u8>,
    // The canonical path is written as its components are, with no doubled slash.
    ghost written: { canonical.items ≡ path_text (components canonical.items) },
}
