//! What a look-up asks for what a store lacks.
ghost use Rattle.std.specs.Prelude.{◌≡◌, ℕ, List, IfOk, IfSome, length};
ghost use Rattle.cck_cache_files.specs.declared.store_directory.Kind.{Kind};
ghost use Rattle.cck_cache_store.specs.Peer.{kind_word};

use cck_cache_files::Kind;
use std::alloc::Global;
use std::io;

/// What has values of a server, and what is to be read.
pub trait Peer {
    // The server has this value of a kind and a name.
    ghost has: { Self → Kind → List ℕ → List ℕ → Type 0 };

    /// Reads all that there is to be read.
    ///
    /// The error is of a failed read, or lack of memory.
    fn read_text(&mut self, alloc: Global) -> io::Result<Vec<u8>>;

    /// Asks for the value of a kind and a name. `None` if there is none.
    ///
    /// The error is of a failed request, or lack of memory.
    fn get(&mut self, alloc: Global, kind: Kind, name: &str) -> io::Result<Option<Vec<u8>>>
        ensures { IfOk result (λ value. IfSome value (λ v. has self.old kind name.now v.items)) };

    /// Asks for the bytes that a frame of zstd expands to. `None` if they are not of this number.
    ///
    /// The error is of a failed request, or lack of memory.
    fn expand(&mut self, alloc: Global, size: u64, frame: &[u8]) -> io::Result<Option<Vec<u8>>>
        ensures { IfOk result (λ bytes. IfSome bytes (λ b. length b.items ≡ size)) };
}

/// The name of a kind at a server.
pub fn kind_word(kind: Kind) -> &'static str
    ensures { result.now ≡ kind_word kind }
{
    match kind {
        Kind::Entry => "entry",
        Kind::Object => "object",
    }
}
