//! The files of a store as a whole, and a team's server.
//!
//! The store: what it has, its limit, which files are damaged, and what one file says.
//!
//! - [`print_stats`] prints what a store has, and what was counted.
//! - [`limit_shares`], [`prune_store`] and [`clear_store`] remove files.
//! - [`verify_store`] tests each file, and removes what is damaged.
//! - [`print_files`] prints what files say. [`entry_file_listing`] and [`object_file_listing`] are the lines of one.
//! - [`entry_view`] reads the entry of an entry file.
//!
//! The server: what is asked of it, and what is taken of its values.
//!
//! - [`Peer`] is what a look-up asks. A [`StreamPeer`] asks a process by lines, a [`RemotePeer`] a Redis server or an HTTP
//!   server of an [`Address`].
//! - [`given_file`] takes a file of what a peer has. With a key of signatures ([`read_key`]) a value that it did not sign is
//!   not used.
//!
//! No contract says what a disk or a server holds: those of the tests and the listings are on the bytes of files.
#![tactic(auto)]

mod address;
mod connection;
mod entry;
mod given;
mod http;
mod inspect;
mod keys;
mod limit;
mod listing;
mod number;
mod peer;
mod prune;
mod redis;
mod remote_peer;
mod stats;
mod stream_peer;
mod verify;

pub use address::{Address, Scheme, address_in};
pub use entry::entry_view;
pub use given::{Given, given_file};
pub use inspect::print_files;
pub use keys::read_key;
pub use limit::limit_shares;
pub use listing::{entry_file_listing, object_file_listing};
pub use peer::{Peer, kind_word};
pub use prune::{clear_store, prune_store};
pub use remote_peer::RemotePeer;
pub use stats::print_stats;
pub use stream_peer::StreamPeer;
pub use verify::{is_sound_entry, is_sound_object, verify_store};
