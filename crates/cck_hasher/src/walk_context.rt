//! What a walk goes by, besides its text and the files.
use cck_include::JudgeContext;

/// The input of a text, the directory that names are joined to, and what files are judged by.
#[derive(Clone, Copy)]
pub(crate) struct WalkContext<'a> {
    /// The path of the input.
    pub(crate) input_file: &'a [u8],
    /// The working directory.
    pub(crate) cwd: &'a [u8],
    /// What files are judged by.
    pub(crate) judge: JudgeContext<'a>,
}
