//! What a compiler made of an input before it compiled.
use crate::request::Request;
use cck_cache_text::MarkedText;
use cck_path::Timestamp;

/// What a compiler made of the input of a request before it compiled. By it the paths are judged at which
/// headers were looked for.
#[derive(Drop)]
pub struct Preprocessed<'a> {
    /// The request.
    pub request: &'a Request<'a>,
    /// The time at which the look-up ended, by the clock of the store's file system.
    pub since: Timestamp,
    /// The preprocessed text.
    pub text: &'a MarkedText<'a>,
    /// What the compiler printed of the directories that it searches for headers.
    pub printed: &'a [u8],
    /// Whether the compiler names a system header by its real path where that is shorter, as gcc does.
    pub renames: bool,
}
