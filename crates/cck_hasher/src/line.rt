//! One line marker.
ghost use Rattle.std.specs.Prelude.{◌≤◌, ◌<◌, drop, length};
ghost use Rattle.cck_files.specs.Calls.{AreCalls, Keeps, Rose};
ghost use Rattle.jiff.specs.Words.{plain_zone};
ghost use Rattle.cck_hasher.specs.Decided.{context_in};
ghost use Rattle.cck_hasher.specs.Line.{IsLineResult, IsLineLookedFor};

use crate::Records;
use crate::name::take_name;
use crate::walk_context::WalkContext;
use cck_digest::{HashState, KeyError};
use cck_files::Files;
use cck_include::{JudgeContext, Line, PreprocessorCacheModeConfig, read_line};
use cck_path::Timestamp;
use jiff::tz::TimeZone;
use std::alloc::Global;

/// What to do after a line marker. Places are byte offsets from the text's start.
#[derive(Debug, Clone, Copy, PartialEq, Eq)]
pub enum LineAction {
    /// Its name was recorded or passed over. Go on at the first place. Both places are that after
    /// the name.
    Continue((usize, usize)),
    /// With `true` no name was looked at: go on at the first place. With `false` the text is
    /// refused for the name. The second place is that of the name's first byte, or the passed
    /// `hash_start` if the marker has no name.
    Break((usize, usize, bool)),
}

/// Reads the line marker that begins at `start`, and records the file that it names. `hash_start`
/// is the place of its `#`, which is returned for a marker without a name. Nothing before `start`
/// is read. The caller ensures that `hash_start <= start < text.len()`.
///
/// - The line ends before any quote: `Break` with the place of the line feed, `hash_start` and
///   `true`.
/// - The name is empty: `Break` with the places after it and of it, and `true`.
/// - The name is in angle brackets, or is that of a system header and the options skip these, or
///   means a directory, the input, or a path that was recorded: `Continue`.
/// - The name means a regular file with a recorded digest and with no time at `moment` or later:
///   `Continue`, and the file is recorded.
/// - The name means anything else, or a fault came: `Break` with the places after it and of it, and
///   `false`.
///
/// The error is [`KeyError::Marker`] exactly if there is neither a quote nor a line feed, or if the
/// first of them is a quote and the text's last byte. The only other error is [`KeyError::Memory`].
/// Records change only with `Continue`. Calls on files are made only at the path that the name
/// means. There are none for a marker without a name, for a name that is passed over by itself, or
/// for the path of the input or of a record.
///
/// Upstream's `compiler::c::process_preprocessor_line`.
pub fn process_preprocessor_line<H: HashState, F: Files>(
    alloc: Global,
    files: &mut F,
    input_file: &[u8],
    cwd: &[u8],
    records: &mut Records,
    text: &[u8],
    start: usize,
    hash_start: usize,
    config: PreprocessorCacheModeConfig,
    moment: Timestamp,
    zone: &TimeZone<'_>,
    vars: &[(Vec<u8>, Vec<u8>)],
) -> Result<LineAction, KeyError>
    requires hash { hash_start ≤ start }
    requires start { start < length text.now }
    ensures keeps { Keeps F.file_map F.faults F.is_quiet files.old files.new }
    ensures calls { AreCalls F.is_call (IsLineLookedFor (context_in H.hash config moment
        (plain_zone zone.now) vars.now (F.file_map files.old) input_file.now cwd.now) records.old
        (drop start text.now)) files.old files.new }
    ensures outcome { IsLineResult (context_in H.hash config moment (plain_zone zone.now) vars.now
        (F.file_map files.old) input_file.now cwd.now) (Rose (F.faults files.old) (F.faults files.new))
        (drop start text.now) start hash_start records.old records.new result }
{
    match read_line(&text[start..]) {
        Line::Unnamed { end } => Ok(LineAction::Break((start + end, hash_start, true))),
        Line::Malformed => Err(KeyError::Marker),
        Line::Named {
            begin,
            end,
            name,
            is_system,
        } => {
            let (begin, end) = (start + begin, start + end);
            if name.is_empty() {
                return Ok(LineAction::Break((end, begin, true)));
            }
            let judge = JudgeContext {
                moment,
                zone,
                vars,
                config,
            };
            let context = WalkContext {
                input_file,
                cwd,
                judge,
            };
            match take_name::<H, F>(alloc, files, &context, records, name, is_system) {
                Ok(true) => Ok(LineAction::Continue((end, end))),
                Ok(false) => Ok(LineAction::Break((end, begin, false))),
                Err(_) => Err(KeyError::Memory),
            }
        }
    }
}
