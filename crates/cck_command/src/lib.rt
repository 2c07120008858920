//! The program `cck`: what it reads and writes for the words of its command line.
//!
//! [`engine`] is the whole program. It is generic over the reader, the writer and the hash
//! function, so it can be called without a process. The words select what is done, and the returned
//! [`Status`] says how it ended:
//!
//! | words | what is read | what is written |
//! |---|---|---|
//! | `key DIGEST LANGUAGE [ARG..]` | a preprocessed text | the key of the object that a compiler with this digest makes of the text |
//! | `run` | a script ([`Script`], whose lines are those of [`cck_script`]) | one line for each call, with its key or its error; or `cck: line N` of the wrong line that comes first |
//! | any others | nothing | the usage line |
//!
//! A key is computed by [`HashKeyParams::compute`](cck_util::HashKeyParams::compute) from the
//! digest, the language, the arguments and the text alone. The calls of a script are made one after
//! another by [`run_calls`](c_cache_keys::run_calls). Their files and variables are in memory and
//! follow the script line by line. They share one store, which is in memory and empty at first.
//! Their compiler is [`MiniCompiler`]. Its preprocessor is [`print_input`], which knows `#include`, one
//! level deep, and three macros.
//!
//! [`ready_calls`] returns the calls of a script as values, each with its own files. Calls on these
//! files can then be armed to fail before [`run_calls`](c_cache_keys::run_calls) makes the calls.
//!
//! The contract of [`engine`] fixes each byte that is written, for a reader and a writer whose
//! bytes are known. `key` writes the key of all that was read, by its definition, and an LF. `run`
//! writes the lines of a run over the calls that the script's lines ask for. The theorem
//! [`laws::headline`](c_cache_keys::laws::headline) holds for these calls: if they meet its
//! premises, each printed key is the plain key of its call. With or without the premises, each
//! stored key that matches is printed as a hit, if its call may use the store and doesn't fail for
//! lack of memory. All this excludes [`Status::Failed`]: input, output or memory then failed, and
//! [`refuse`] tried once to say so.
//!
//! ```rust
//! let mut words = Vec::new(alloc);
//! words.push(String::from_str(alloc, "run")?)?;
//! let mut reader = b"file /w/a.c 1 1 int x;\ncompile 5 a.c\n".as_slice();
//! let mut writer: Vec<u8> = Vec::new(alloc);
//! let status = engine::<Sha256State, _, _>(alloc, &words, &mut reader, &mut writer);
//! // `Status::Done`, whose code is 0, and `writer` holds the line
//! // miss d82c8e525b752081f93fd794bb5cd5dea4dec2aaff2de2b033ca0990706decf2
//! ```
#![tactic(auto)]

mod calls;
mod failed;
mod mini;
mod mini_compiler;
mod printing;
mod program;
mod request;
mod result_lines;
mod run;
mod script;
mod status;

pub use calls::{compiler_of, ready_calls};
pub use failed::Failed;
pub use mini::{PrintError, print_input};
pub use mini_compiler::MiniCompiler;
pub use printing::print;
pub use program::{engine, refuse};
pub use result_lines::add_result_lines;
pub use run::store_of;
pub use script::{RunOptions, Script, ScriptError};
pub use status::Status;
