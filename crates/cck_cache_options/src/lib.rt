//! What `cck_cache` reads from arguments: those of a call of a compiler, by a table of the options that are
//! known, and its own, by `clap`.
//!
//! # Arguments of a compiler
//!
//! An argument that the table does not know, or that it knows as one of calls that are not cached, ends
//! the reading with a reason: the call then goes to the compiler as it came.
//!
//! - [`rows_of`] reads a table of options from its text. [`GCC`] is that of gcc and [`CLANG`] that of clang, and
//!   [`NATIVE`] has rows that may come before those of either.
//! - [`parse`] reads the arguments of a call by the rows of a table. [`is_cplusplus`] says which inputs are in
//!   C++, and [`is_assembler`] which are assembler code.
//! - [`push_word`] appends an argument as a POSIX shell reads it back, and
//!   [`push_preprocessor_arguments`] those of a call that the preprocessor has.
//! - [`is_definition`] says which arguments define macros, and [`macro_option`] how the preprocessor shows
//!   them.
//! - [`object_path`] and [`dependency_path`] are the paths that gcc chooses where a call says none.
//!
//! # The command line
//!
//! - [`task_of`] returns what the words ask for, a [`Task`], or an [`Explanation`] in place of that.
//! - [`stamp_of`] reads the time that a look-up printed.
#![tactic(auto)]

mod call;
mod clang;
mod command_line;
mod compiler_call;
mod definition;
mod gcc;
pub mod laws;
mod paths;
mod quote;
mod reason;
mod runs;
mod stamp;
mod table;
mod task;

pub use call::{Call, Keyed, Parsed, is_assembler, is_cplusplus, parse};
pub use clang::CLANG;
pub use compiler_call::{CompilerCall, Programs};
pub use definition::{is_definition, macro_option};
pub use gcc::{GCC, NATIVE};
pub use paths::{dependency_path, object_path};
pub use quote::{push_preprocessor_arguments, push_word};
pub use reason::Reason;
pub use stamp::stamp_of;
pub use table::{Cause, Class, Form, Row, rows_of};
pub use task::{
    Action, Compilation, Explanation, Made, Outputs, Packed, Seal, Server, Source, StoreAction,
    Task, task_of,
};
