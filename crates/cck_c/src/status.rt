//! The statuses that the exports return.

/// The call has done what it says.
pub const DONE: i32 = 0;

/// Memory is lacking.
pub const MEMORY: i32 = 1;

/// The buffer or array that was passed is too short.
pub const LENGTH: i32 = 2;

/// No language has this name.
pub const LANGUAGE: i32 = 3;

/// A digest is not UTF-8.
pub const DIGEST: i32 = 4;

/// The bytes are an entry in another format.
pub const FORMAT: i32 = 5;

/// The bytes begin as an entry does, and are the text of no entry.
pub const ENTRY: i32 = 6;

/// Nothing is cut out of the argument or text: it is its own result.
pub const UNCHANGED: i32 = 7;

/// The entry has no result of this index.
pub const INDEX: i32 = 8;
