//! What the lines of a script say.
use cck_path::Timestamp;

/// What a line of a script says. Words and texts are unescaped.
#[derive(Drop)]
pub enum Command {
    /// The run's zone.
    Zone {
        /// Seconds east of UTC, from -86399 to 86399.
        offset: i32,
    },
    /// One base directory more for the run.
    Basedir {
        /// The directory.
        text: Vec<u8>,
    },
    /// The store drops all that it holds at the start of one of its calls.
    StoreForget {
        /// Which call, counted from 1 over gets and puts.
        call: u64,
    },
    /// One of the store's calls fails.
    StoreFail {
        /// Which call, counted from 1 over gets and puts.
        call: u64,
    },
    /// A regular file is at the path.
    File {
        /// The path.
        path: Vec<u8>,
        /// The time of its last modification; `None` for `-`.
        modified: Option<Timestamp>,
        /// The time of its last change; `None` for `-`.
        changed: Option<Timestamp>,
        /// Its contents.
        contents: Vec<u8>,
    },
    /// A directory without times is at the path.
    Folder {
        /// The path.
        path: Vec<u8>,
    },
    /// Nothing is at the path.
    Gone {
        /// The path.
        path: Vec<u8>,
    },
    /// The variable has this value.
    Variable {
        /// The name: not empty.
        name: Vec<u8>,
        /// The value, which may be empty.
        value: Vec<u8>,
    },
    /// There are no variables.
    Clear,
    /// A call.
    Compile {
        /// The time of the call.
        moment: Timestamp,
        /// The arguments, of which the first is the input.
        arguments: Vec<Vec<u8>>,
    },
    /// A call that may not return a stored key.
    Recache {
        /// The time of the call.
        moment: Timestamp,
        /// The arguments, of which the first is the input.
        arguments: Vec<Vec<u8>>,
    },
}
