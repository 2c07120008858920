//! What a look-up is for.
use cck_cache_files::Request;
use cck_cache_options::{Outputs, Server};

/// What a look-up is for.
pub struct Look<'a> {
    /// The path of the store.
    pub store: &'a str,
    /// The server, if one is asked.
    pub server: Option<Server<'a>>,
    /// Where the parts of the object file are written.
    pub outputs: Outputs<'a>,
    /// The request.
    pub request: Request<'a>,
}

impl Drop for Look<'_> {
    fn drop(self) {
        let Look {
            store: _,
            server: _,
            outputs: _,
            request: _,
        } = self;
    }
}
