//! The layer for callers that are not written in Rattle: a static library, whose exports are the
//! functions of `include/cck.h`. That header is their reference page, and docs/C.md says how the
//! library is built and linked.
//!
//! Each export calls one function of a library below, and its contract states that function's
//! contract again, in terms of what the caller passes. A result is a status, of [`status`], and
//! what the call writes through its last parameters. After a status other than [`status::DONE`]
//! nothing is written.
#![tactic(auto)]

mod bytes;
mod entry;
mod finder;
mod key;
mod marks;
mod status;
mod strip;
