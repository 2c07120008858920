//! Listings: text, cuts, entries and line markers in lines that a person reads.
//!
//! - [`push_text_cuts`] and [`push_argument_cuts`] list the base directories that are cut out.
//! - [`entry_listing`] lists an entry of the store, or says why bytes are none.
//! - [`marker_lines`] lists the line markers of a preprocessed text.
//! - [`push_escaped`], [`push_quoted`] and [`checksum`] show bytes in such lines, and [`push_moment`] a time.
//! - [`laws`] has what is proved of the definitions alone.
//!
//! # Cuts
//!
//! [`push_text_cuts`] appends a line for each of the [`text_cuts`](cck_strip::text_cuts), and
//! [`push_argument_cuts`] one for each of the [`argument_cuts`](cck_strip::argument_cuts).
//!
//! # Entries
//!
//! [`entry_listing`] returns the format of an entry's text, a line for each of its results, and a line
//! for each of their includes. Its error says at which offset bytes stop being an entry, and why.
//!
//! # Line markers
//!
//! [`placed_marks`] returns the marks of a text, each with its line and column. [`marker_lines`]
//! returns a line for each of them: what its name counts as in a walk over the text, or that the
//! text can't be identified by the files that it names.
//!
//! # Escaped bytes and checksums
//!
//! [`push_escaped`] and [`push_quoted`] append escaped bytes. [`checksum`], for bytes that are too long
//! for a line, is their 64-bit FNV-1a.
#![tactic(auto)]

mod checksums;
mod cut_line;
mod entry_line;
mod entry_text;
mod escape;
mod fault;
pub mod laws;
mod marker_line;
mod place;

pub use checksums::checksum;
pub use cut_line::{push_argument_cuts, push_text_cuts};
pub use entry_line::push_moment;
pub use entry_text::{EntryError, entry_listing};
pub use escape::{push_escaped, push_quoted};
pub use fault::{Cause, Fault, fault_of};
pub use marker_line::marker_lines;
pub use place::{PlacedMark, Position, placed_marks};
