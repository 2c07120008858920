//! Files as a map, files in memory, and the digests of files and directories.
//!
//! Every function here that reads files takes them by the trait [`Files`]. Its results are those of
//! one map from paths to nodes. The map never changes by a call, and links are followed in it.
//! Where a device fails, the count of faults shows it. So a result that depends on files is a
//! function of a map, and can be stated without a file system.
//!
//! [`MapFiles`] has such a map in memory. [`MapFiles::put`] and [`MapFiles::link`] fill it.
//! [`MapFiles::fail_at`] arms one call to fail, and [`MapFiles::fail_after`] all calls from one on.
//!
//! ```rust
//! let mut files = MapFiles::new(alloc);
//! files.put(b"/w/h.h", node)?; // a `Node` of kind `File`, with the contents `int y;`
//! files.link(b"/l", b"/w/h.h")?;
//! let mut buffer = [0; 4];
//! files.read_at(b"/l", 4, &mut buffer)?; // 2: the buffer begins with `y;`
//! files.canonical(alloc, b"/l")?; // `/w/h.h`
//! files.exists(b"/w"); // `false`: no directory was put there
//! files.fail_at(1);
//! files.metadata(b"/l"); // `Err(FileError::Fault)`, and the next call is right again
//! ```
//!
//! # Digests of files and directories
//!
//! The node at a path is a regular file, a directory, or something else. The digest of a file is
//! that of its contents, so it does not depend on its name or its times. The digest of a directory
//! is that of every regular file that is reached from it through directories. For each file it is
//! fed its name, between the bytes of a [delimiter](cck_digest::Digest::delimiter), and its
//! contents.
//!
//! - [`DigestFiles`] has the calls `file` and `reader` of a [`Digest`](cck_digest::Digest), and
//!   [`hash_all`] returns the hex digests of many paths.
//! - [`feed_file`] passes a file's contents to any [`Sink`](cck_digest::Sink), and
//!   [`read_contents`] returns them; [`feed_file_of_size`] and [`read_contents_of_size`] do so
//!   through a buffer for the size that the caller knows.
//! - [`sorted_names`] lists the children of a directory.
//! - [`resolve_compiler_avoiding_wrapper`] finds the compiler that a wrapper such as `ccache` wraps.
//!
//! Files are fed in path order: by components, and not by the bytes of the whole name. With the
//! files `/d/a/x` and `/d/a-b`, where `/d` and `/d/a` are directories,
//!
//! ```rust
//! let text = Digest::<Sha256State>::file(alloc, &mut files, b"/d")?;
//! ```
//!
//! is the digest of `a/x` first and then of `a-b`, since the component `a` comes before `a-b`. A
//! directory has at most 100 levels, counting the one at the path. What cannot be read is an error,
//! and no digest leaves it out.
#![tactic(auto)]

mod armed_calls;
mod child;
mod contents;
mod file_digest;
mod files;
mod folder;
pub mod laws;
mod map_files;
mod node;
mod wrapper;

pub use armed_calls::ArmedCalls;
pub use contents::{feed_file, feed_file_of_size, read_contents, read_contents_of_size};
pub use file_digest::{DigestFiles, hash_all};
pub use files::Files;
pub use folder::sorted_names;
pub use map_files::MapFiles;
pub use node::Node;
pub use wrapper::resolve_compiler_avoiding_wrapper;
