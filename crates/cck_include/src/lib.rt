//! Included files: the line markers that name them, what is recorded of them, what their time macros
//! show, and the options of the preprocessor cache mode.
//!
//! The digest of a file's contents does not determine the text that the file shows to a
//! preprocessor. A `__DATE__` in it shows another text tomorrow, and a `__TIMESTAMP__` once the
//! file was modified. So, unless the options ignore these macros, the *recorded digest* of a file
//! with one of the two continues with the digest of its time part. A file with `__TIME__` has no
//! recorded digest then, and files with equal recorded digests show the same text, if no two
//! digests collide.
//!
//! - [`recorded_digest`] returns that digest of one file.
//! - [`gather`] records each file that a result included as an [`IncludeEntry`]: its path, recorded
//!   digest and size, and its times where both are before the call time.
//!   An [`IncludeRef`] is the same with its path and digest borrowed from other bytes.
//!   [`FORMAT_VERSION`] is the format in which they are kept.
//! - [`JudgeContext`] is what a recorded digest depends on beside the file.
//! - [`laws`] states what equal recorded digests imply, and what equal time parts do: the same day,
//!   second and `SOURCE_DATE_EPOCH`; that each day has one date; when there is a time part; and that a text
//!   has one list of marks.
//!
//! ```rust
//! // `digest` is the recorded digest of `/w/h.h` at `moment`.
//! let includes = gather(alloc, &mut files, moment, &[(digest, path)])?;
//! ```
//!
//! # Time parts and options
//!
//! A source file with `__DATE__` or `__TIMESTAMP__` is compiled to a different object on another
//! day, or after it was modified, although its text is the same. The recorded digest of such a file
//! is therefore not of its text alone: the file's *time part* is hashed after the text. These bytes
//! encode what the macros show: if two time parts are equal, the macros show the same.
//!
//! - [`local_time_part`] returns the time part of a file, for a call time, a time zone and the
//!   variables of the environment, which are all passed.
//! - [`zone_at`] returns the time zone of a fixed offset.
//! - [`PreprocessorCacheModeConfig`] has the options.
//!
//! ```rust
//! // One hour east of UTC, 23:00:00 of 1 January 1970 in UTC is midnight of 2 January.
//! let zone = TimeZone::fixed(Offset::from_seconds(3600)?);
//! let moment = Timestamp::new(82_800, 0);
//! let part = local_time_part(alloc, true, false, None, moment, &zone, &[])?;
//! // `\0SCCACHE\0date\0`, the year 1970, the month 1, the day 2, and a byte 0: no `SOURCE_DATE_EPOCH`
//! ```
//!
//! # Line markers
//!
//! A C preprocessor leaves *line markers* in the text that it prints. `# 33 "stdio.h" 3 4` says
//! that the next line is the 33rd of `stdio.h`, and the `3` says that this is a system header. A
//! text was made of the files that its markers name, unless it makes the assembler include one
//! more. So a text is read as a list of marks:
//!
//! - a *name* that a line marker gives;
//! - a *refusal*: `.incbin` and a quote, with nothing, a space, or a space and a backslash between
//!   them, so the assembler may include a file that no marker names;
//! - a *malformed* marker, which neither has a name nor ends its line without one.
//!
//! [`Markers`] yields one after another, and ends with the first that is no name. [`read_line`]
//! reads a single marker and returns its name and the place of the name, as a [`Line`].
//! [`read_item`] returns what a text begins with and the length of that, as an [`Item`], so a caller
//! can find the place of each mark. None of them opens a file or allocates memory, and the time is
//! linear in the length of the text. Text is bytes, in no encoding.
//!
//! Marks begin at least 7 bytes before the end of the text: the last 6 places are passed over. A
//! line starts at the text's start and after each line feed. A marker starts a line with `# ` and a
//! digit, with `#line ` or with `#pragma GCC pch_preprocess`. A line that starts with ten
//! underscores is skipped.
//!
//! ```rust
//! let mut names = Vec::new(alloc);
//! for mark in Markers::new(b"# 1 \"a.c\"\n# 1 \"stdio.h\" 1 3 4\nint puts(const char *);\n") {
//!     match mark {
//!         Mark::Name { name, is_system } if !is_system => names.push(name)?,
//!         Mark::Name { .. } => {}
//!         Mark::Refusal | Mark::Malformed => return Ok(None),
//!     }
//! }
//! Ok(Some(names)) // `a.c`
//! ```
#![tactic(auto)]

mod config;
mod errors;
mod gathering;
mod include;
mod item;
mod judge_context;
pub mod laws;
mod line;
mod mark;
mod part;
mod recorded;
mod search;
mod zone;

pub use config::PreprocessorCacheModeConfig;
pub use gathering::gather;
pub use include::{FORMAT_VERSION, IncludeEntry, IncludeRef};
pub use item::{Item, read_item};
pub use judge_context::JudgeContext;
pub use line::{Line, read_line};
pub use mark::{Mark, Markers};
pub use part::local_time_part;
pub use recorded::{digest_with_metadata, recorded_digest};
pub use zone::zone_at;
