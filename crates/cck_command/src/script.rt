//! A script, read.
//!
//! A script is a text of lines; [`cck_script`] says what each means. One space is before each word but
//! the first. TEXT is all that follows its space; it is empty where the line ends before the space.
//! Words and TEXT are unescaped by [`cck_path::ascii_unescape_default`]. MOMENT is a call time. Times are
//! whole nanoseconds that fit an `i64`. Empty lines and those that begin with `#` are skipped.
ghost use Rattle.std.specs.Prelude.{◌≡◌, ◌++◌, None, IfOk, MatchResult, OnOk, map};
ghost use Rattle.std.specs.Option.{option_to_list, unwrap_or};
ghost use Rattle.cck_path.specs.Bytes.{lists_of};
ghost use Rattle.cck_command.specs.Script.{IsScriptError, basedir_of_command, basedirs_of, fail_of, fail_of_command, forget_of, forget_of_command, commands_of, wrong_line, zone_of, zone_of_command};
ghost use Rattle.cck_command.specs.ScriptSeen.{lines_of};
ghost use Rattle.cck_script.specs.Seen.{line_of};

mod error;
mod line;
mod number;
mod word;

pub use crate::script::error::ScriptError;
use crate::script::line::{Reading, read_line};
use crate::script::word::cut;
use cck_script::Command;
use std::alloc::{AllocError, Global};

/// A script, read.
#[derive(Drop)]
pub struct Script {
    commands: Vec<Command>,
}

/// What holds for the whole run of a script, wherever its line is.
#[derive(Drop)]
pub struct RunOptions {
    /// The offset of the zone, in seconds east of UTC: less than a day. It is 0 where no line says
    /// one.
    pub zone_offset: i32,
    /// The base directories, in the order of their lines.
    pub basedirs: Vec<Vec<u8>>,
    /// At the start of which get or put the store drops all that it holds, counted from 1.
    pub forget_at: Option<u64>,
    /// Which get or put of the store fails, counted from 1.
    pub fail_at: Option<u64>,
}

impl Script {
    /// Reads a script.
    ///
    /// [`ScriptError::Line`] is returned only if a line is wrong, and says which one is the
    /// first. [`ScriptError::Memory`] is returned for lack of memory. A script that is
    /// returned has no wrong line.
    pub fn parse(alloc: Global, text: &[u8]) -> Result<Script, ScriptError>
        ensures { MatchResult result
            (λ script. (wrong_line text.now ≡ None) × (lines_of script ≡ commands_of text.now))
            (IsScriptError text.now) }
    {
        let mut commands = Vec::new(alloc);
        let mut number: u64 = 0;
        let mut left = Some(text);
        while let Some(lines) = left {
            let part = cut(b'\n', lines);
            number += 1;
            match read_line(alloc, part.front)? {
                Reading::Wrong => return Err(ScriptError::Line(number)),
                Reading::Skipped => {}
                Reading::Says(command) => commands.push(command)?,
            }
            left = part.rest;
        }
        Ok(Script { commands })
    }

    /// Returns what its lines say, in order: one command for each line that isn't skipped.
    pub fn commands(&self) -> &[Command]
        ensures { map line_of result.now ≡ lines_of self.now }
    {
        &self.commands
    }

    /// Returns the same commands as values.
    pub fn into_commands(self) -> Vec<Command>
        ensures { map line_of result.items ≡ lines_of self }
    {
        self.commands
    }

    /// Returns what holds for the whole run. Of several lines `zone`, `store forget` or
    /// `store fail` the last one counts.
    ///
    /// The only error is lack of memory.
    pub fn options(&self, alloc: Global) -> Result<RunOptions, AllocError>
        ensures zone { IfOk result (λ o. o.zone_offset ≡ zone_of (lines_of self.now)) }
        ensures basedirs { IfOk result (λ o.
            lists_of o.basedirs.items ≡ basedirs_of (lines_of self.now)) }
        ensures forget { IfOk result (λ o. o.forget_at ≡ forget_of (lines_of self.now)) }
        ensures fail { IfOk result (λ o. o.fail_at ≡ fail_of (lines_of self.now)) }
    {
        let mut options = RunOptions {
            zone_offset: 0,
            basedirs: Vec::new(alloc),
            forget_at: None,
            fail_at: None,
        };
        for command in &self.commands {
            options.take_in(alloc, command)?;
        }
        Ok(options)
    }
}

impl RunOptions {
    // Applies the next line.
    fn take_in(&mut self, alloc: Global, command: &Command) -> Result<(), AllocError>
        ensures zone { OnOk result (self.new.zone_offset
            ≡ unwrap_or (zone_of_command (line_of command.now)) self.old.zone_offset) }
        ensures basedirs { OnOk result (lists_of self.new.basedirs.items
            ≡ lists_of self.old.basedirs.items ++ option_to_list (basedir_of_command (line_of command.now))) }
        ensures forget { OnOk result (self.new.forget_at
            ≡ unwrap_or (forget_of_command (line_of command.now)) self.old.forget_at) }
        ensures fail { OnOk result (self.new.fail_at
            ≡ unwrap_or (fail_of_command (line_of command.now)) self.old.fail_at) }
    {
        match command {
            Command::Zone { offset } => self.zone_offset = *offset,
            Command::Basedir { text } => self.basedirs.push(text.to_vec(alloc)?)?,
            Command::StoreForget { call } => self.forget_at = Some(*call),
            Command::StoreFail { call } => self.fail_at = Some(*call),
            Command::File { .. }
            | Command::Folder { .. }
            | Command::Gone { .. }
            | Command::Variable { .. }
            | Command::Clear
            | Command::Compile { .. }
            | Command::Recache { .. } => {}
        }
        Ok(())
    }
}
