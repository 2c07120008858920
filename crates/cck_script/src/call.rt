//! The calls of a script.
ghost use Rattle.std.specs.Prelude.{◌≡◌, List};
ghost use Rattle.std.specs.Option.{option_map};
ghost use Rattle.cck_script.specs.Calls.{call_after, call_of_command};
ghost use Rattle.cck_script.specs.Lines.{Line};
ghost use Rattle.cck_script.specs.Seen.{line_of};

use crate::command::Command;
use cck_path::Timestamp;

/// A call that a line asks for, over the files and variables as the lines before it left them. Its
/// working directory is [`WORKING_DIRECTORY`](crate::WORKING_DIRECTORY).
#[derive(Clone, Copy)]
pub struct ScriptCall<'a> {
    /// Its call time.
    pub moment: Timestamp,
    /// Its arguments, the input first.
    pub arguments: &'a [Vec<u8>],
    /// Whether it may not return a stored key.
    pub is_recache: bool,
}

impl Command {
    /// Returns the call that a line `compile` or `recache` asks for, and `None` for any other line.
    pub fn call(&self) -> Option<ScriptCall<'_>>
        ensures { (earlier : List Line) →
            option_map (call_after earlier) result ≡ call_of_command earlier (line_of self.now) }
    {
        match self {
            Command::Compile { moment, arguments } => Some(ScriptCall {
                moment: *moment,
                arguments,
                is_recache: false,
            }),
            Command::Recache { moment, arguments } => Some(ScriptCall {
                moment: *moment,
                arguments,
                is_recache: true,
            }),
            _ => None,
        }
    }
}
