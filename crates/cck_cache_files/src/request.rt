//! The compilation that a call of a compiler asks for.

/// The compilation that a call of a compiler asks for.
pub struct Request<'a> {
    /// The paths of the programs that the compiler runs, with colons between them.
    pub compiler: String,
    /// The working directory.
    pub directory: &'a str,
    /// The input, as the call has it.
    pub input: &'a str,
    /// The arguments that count in keys, but for those that define or undefine macros.
    pub arguments: Vec<Vec<u8>>,
    /// Those that define or undefine macros. They count in the preprocessor key, and in the key of an object by
    /// the text, which shows the macros.
    pub definitions: Vec<Vec<u8>>,
    /// The store directory that keeps the digests of the programs' contents, if the programs count
    /// by their contents.
    pub digests: Option<&'a str>,
    /// The base directory, if objects are shared between checkouts.
    pub base: Option<&'a str>,
}

impl Drop for Request<'_> {
    fn drop(self) {
        let Request {
            compiler: _,
            directory: _,
            input: _,
            arguments: _,
            definitions: _,
            digests: _,
            base: _,
        } = self;
    }
}
