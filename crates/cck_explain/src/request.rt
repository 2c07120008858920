//! What the words of a command line ask for.
use cck_util::Language;

/// The key that is explained, but for the text that is read.
pub struct ExplainKeyRequest<'a> {
    /// The compiler's digest.
    pub compiler_digest: &'a str,
    /// The language.
    pub language: Language,
    /// The arguments of the command line, which may be none.
    pub arguments: Vec<Vec<u8>>,
    /// The base directories.
    pub basedirs: Vec<Vec<u8>>,
    /// Whether a part of more than 256 bytes is listed whole, in rows, and not by its checksum.
    pub is_full: bool,
}

impl Drop for ExplainKeyRequest<'_> {
    fn drop(self) {
        let ExplainKeyRequest {
            compiler_digest: _,
            language: _,
            arguments: _,
            basedirs: _,
            is_full: _,
        } = self;
    }
}

/// The paths that the names of line markers are compared with and joined to.
#[derive(Clone, Copy)]
pub struct MarkersRequest<'a> {
    /// The path of the input.
    pub input: &'a [u8],
    /// The working directory.
    pub cwd: &'a [u8],
}

/// What is explained.
pub enum ExplainRequest<'a> {
    /// A key.
    Key(ExplainKeyRequest<'a>),
    /// An entry of the store.
    Entry,
    /// The line markers of a text.
    Markers(MarkersRequest<'a>),
    /// The calls of a script.
    Script,
}

impl Drop for ExplainRequest<'_> {
    fn drop(self) {
        match self {
            ExplainRequest::Key(_)
            | ExplainRequest::Entry
            | ExplainRequest::Markers(_)
            | ExplainRequest::Script => {}
        }
    }
}
