//! The lines of a script, which say what is compiled, over which files and variables.
//!
//! A script is a text of lines, and a [`Command`] is what one of them says. Some lines put files or set
//! variables, and a line `compile` or `recache` asks for a call over the files and variables as they
//! then are. [`Surroundings`] are files and variables that follow a script line by line. A call
//! ([`Command::call`], a [`ScriptCall`]) is made over them as they are at its line, so one map of files
//! is enough for all calls. They begin with [`first_files`], which has the compiler at
//! [`EXECUTABLE`]. The working directory is [`WORKING_DIRECTORY`]. `cck_command` reads a text.
//!
//! | line | meaning |
//! |---|---|
//! | `zone S` | the run's zone is S seconds east of UTC, from -86399 to 86399 |
//! | `basedir TEXT` | one base directory more for the run |
//! | `store forget N` | the store drops all that it holds at the start of its Nth get or put |
//! | `store fail N` | the Nth get or put of the store fails |
//! | `file PATH MODIFIED CHANGED TEXT` | a regular file with this text and these times, or `-` for no time |
//! | `dir PATH` | a directory without times |
//! | `gone PATH` | nothing is at this path; other paths stay |
//! | `var NAME TEXT` | the value of a variable, which comes after the others if it is new |
//! | `clear` | there are no variables any more |
//! | `compile MOMENT INPUT ARG..` | a call |
//! | `recache MOMENT INPUT ARG..` | a call that may not return a stored key |
//!
//! ```rust
//! let mut surroundings = Surroundings::new(alloc)?;
//! for command in commands {
//!     command.call(); // at a line `compile 5000000000 a.c -O2` one, of `a.c` and `-O2`
//!     surroundings.follow(alloc, command)?;
//! }
//! ```
#![tactic(auto)]

mod call;
mod command;
pub mod laws;
mod surroundings;

pub use call::ScriptCall;
pub use command::Command;
pub use surroundings::{EXECUTABLE, Surroundings, WORKING_DIRECTORY, copy_variables, first_files};
