//! Base directories cut out of preprocessed text and out of arguments, after sccache's
//! `src/util.rs`.
//!
//! Two checkouts of one project share keys only if their directories are cut out of all that is
//! hashed for a key. A cache is sound only if nothing else is cut.
//!
//! - [`strip_basedirs`] cuts preprocessed text, [`strip_basedirs_from_arg`] an argument of a
//!   compiler.
//! - [`BasedirTrie`] finds the longest base directory at a place of a text.
//! - [`pathname_positions`] are the places of an argument where a path may begin.
//! - [`strip_basedirs_into`] and [`strip_basedirs_from_arg_into`] write what remains to a buffer of
//!   the caller.
//! - [`text_cuts`] and [`argument_cuts`] list what is cut out.
//! - [`hash_arguments`] feeds arguments to a digest, stripped.
//! - [`laws`] has what is proved of the definitions alone: there is exactly one way to cut.
//!
//! A *site* is a place where a base directory may be cut out, and how long it is there. Sites may
//! overlap. The *cuts* are those that are taken: they are disjoint, and each site starts inside one
//! of them. Texts and arguments differ only in what a site is.
//!
//! ```rust
//! // With `/home/me/` among the base directories this is `# 1 "main.c"`.
//! let kept = strip_basedirs(alloc, b"# 1 \"/home/me/main.c\"", &basedirs)?;
//! ```
#![tactic(auto)]

mod argument;
mod beginnings;
mod boundary;
mod cut_list;
mod cuts;
mod endings;
mod hashing;
mod into;
mod lanes;
pub mod laws;
mod node;
mod search;
mod text;
mod trie;

pub use argument::{pathname_positions, strip_basedirs_from_arg};
pub use cut_list::{Cut, argument_cuts, text_cuts};
pub use hashing::hash_arguments;
pub use into::{strip_basedirs_from_arg_into, strip_basedirs_into};
pub use text::strip_basedirs;
pub use trie::BasedirTrie;
