//! The walk over a text.
ghost use Rattle.cck_files.specs.Calls.{AreCalls, Keeps, Rose};
ghost use Rattle.jiff.specs.Words.{plain_zone};
ghost use Rattle.cck_hasher.specs.Decided.{IsAskedFor, context_in};
ghost use Rattle.cck_hasher.specs.WalkResult.{IsWalk};
ghost use Rattle.cck_hasher.specs.WalkContext.{context_of};

use crate::Records;
use crate::name::take_name;
use crate::seen::SeenNames;
use crate::walk_context::WalkContext;
use cck_digest::{HashState, KeyError};
use cck_files::Files;
use cck_include::{JudgeContext, Mark, Markers, PreprocessorCacheModeConfig};
use cck_path::Timestamp;
use jiff::tz::TimeZone;
use std::alloc::Global;

/// The result of a walk over a text.
#[derive(Debug, PartialEq, Eq, Drop)]
pub enum Walk {
    /// Each file that the text names is known: their normalised paths, in path order and each once,
    /// with their recorded digests. Directories and the input are left out.
    Accepted(Vec<(Vec<u8>, String)>),
    /// The text can't be identified by the files that it names.
    Refused,
}

/// Looks at each file that a preprocessed text names.
///
/// The text is refused at the first inclusion by the assembler, or at the first name that stops the
/// walk. Such a name is neither that of a directory nor of a regular file with a recorded digest
/// and with no time at `moment` or later. A malformed marker before these is an error. If there is
/// neither, the text is accepted.
///
/// Names are joined to the working directory and normalised. Empty names, names in angle brackets
/// and the input are passed over, and so are the names of system headers if the options skip these.
/// `input_file` is compared as it is, so the caller has to join and normalise it for the input to
/// be passed over. Calls on files are made only at the paths of names up to the deciding mark.
/// There are none for a name that is passed over, or for a path that has a digest already.
///
/// After a fault, if a path was looked for, the text may be refused. An accepted text and a
/// malformed marker are exact even then. The errors are
///
/// - [`KeyError::Marker`], exactly if a malformed marker decides,
/// - [`KeyError::Memory`].
///
/// Upstream's `compiler::c::process_preprocessed_file`.
pub fn process_preprocessed_file<H: HashState, F: Files>(
    alloc: Global,
    files: &mut F,
    input_file: &[u8],
    cwd: &[u8],
    text: &[u8],
    config: PreprocessorCacheModeConfig,
    moment: Timestamp,
    zone: &TimeZone<'_>,
    vars: &[(Vec<u8>, Vec<u8>)],
) -> Result<Walk, KeyError>
    ensures keeps { Keeps F.file_map F.faults F.is_quiet files.old files.new }
    ensures calls { AreCalls F.is_call (IsAskedFor (context_in H.hash config moment (plain_zone zone.now)
        vars.now (F.file_map files.old) input_file.now cwd.now) text.now) files.old files.new }
    ensures outcome { IsWalk (context_in H.hash config moment (plain_zone zone.now) vars.now
        (F.file_map files.old) input_file.now cwd.now) (Rose (F.faults files.old) (F.faults files.new))
        text.now result }
{
    let judge = JudgeContext {
        moment,
        zone,
        vars,
        config,
    };
    let context = WalkContext {
        input_file,
        cwd,
        judge,
    };
    walk_text::<H, F>(alloc, files, &context, text)
}

// The walk over a text in this context.
fn walk_text<H: HashState, F: Files>(
    alloc: Global,
    files: &mut F,
    context: &WalkContext<'_>,
    text: &[u8],
) -> Result<Walk, KeyError>
    ensures keeps { Keeps F.file_map F.faults F.is_quiet files.old files.new }
    ensures calls { AreCalls F.is_call
        (IsAskedFor (context_of H.hash context.now (F.file_map files.old)) text.now) files.old files.new }
    ensures outcome { IsWalk (context_of H.hash context.now (F.file_map files.old))
        (Rose (F.faults files.old) (F.faults files.new)) text.now result }
{
    let mut records = Records::new(alloc);
    let mut seen = SeenNames::new();
    for mark in Markers::new(text) {
        match mark {
            Mark::Refusal => return Ok(Walk::Refused),
            Mark::Malformed => return Err(KeyError::Marker),
            Mark::Name { name, is_system } if seen.contains(name, is_system) => {}
            Mark::Name { name, is_system } => {
                match take_name::<H, F>(alloc, files, context, &mut records, name, is_system) {
                    Ok(true) => seen.insert(name, is_system),
                    Ok(false) => return Ok(Walk::Refused),
                    Err(_) => return Err(KeyError::Memory),
                }
            }
        }
    }
    match records.to_list(alloc) {
        Ok(files) => Ok(Walk::Accepted(files)),
        Err(_) => Err(KeyError::Memory),
    }
}
