//! Each failure of the reader or the writer of a run of the program, in turn.
use crate::cases::{CaseError, Failures};
use crate::script_cases::commands::write_number;
use crate::script_cases::engine::{run_words, strings_of};
use crate::script_cases::failures::write_end;
use crate::script_cases::streams::Streams;
use cck_command::Status;
use cck_util::{Digest, Sha256State};
use std::alloc::Global;

/// What fails.
#[derive(Clone, Copy)]
pub(crate) enum Broken {
    Reads,
    Writes,
    Flushes,
}

const REFUSED: &[u8] = b"cck: refused\n";

// A script, the streams of its runs, and what of them fails.
#[derive(Clone, Copy)]
struct Runs<'a> {
    alloc: Global,
    streams: &'a Streams,
    script: &'a [u8],
    broken: Broken,
}

// What a run wrote, and how it ended.
#[derive(Drop)]
struct Ended {
    status: Status,
    written: Vec<u8>,
    // Whether a call failed.
    has_met: bool,
}

impl Runs<'_> {
    // Runs the script, of whose streams these calls fail.
    fn run(&self, failures: Failures) -> Result<Ended, CaseError> {
        let words = strings_of(self.alloc, "run")?;
        let mut reader = self.streams.reader(self.script);
        let mut writer = self.streams.writer()?;
        match self.broken {
            Broken::Reads => reader.reads = failures,
            Broken::Writes => writer.writes = failures,
            Broken::Flushes => writer.flushes = failures,
        }
        let status = run_words(self.alloc, &words, &mut reader, &mut writer);
        let left = match self.broken {
            Broken::Reads => reader.reads,
            Broken::Writes => writer.writes,
            Broken::Flushes => writer.flushes,
        };
        Ok(Ended {
            status,
            written: writer.written,
            has_met: left.failing < failures.failing,
        })
    }
}

// Whether this is a beginning of what is printed otherwise, and after it a beginning of the line
// `cck: refused`.
fn is_cut(written: &[u8], printed: &[u8]) -> bool {
    for (at, _) in written.iter().enumerate() {
        let (front, rest) = written.split_at(at);
        if printed.starts_with(front) && REFUSED.starts_with(rest) {
            return true;
        }
    }
    printed.starts_with(written)
}

// What was seen over all runs.
#[derive(Drop)]
struct Seen {
    count: u64,
    wrong: u64,
    digest: Digest<Sha256State>,
}

impl Seen {
    // Makes a run, and returns whether a call failed.
    fn take_in(
        &mut self,
        runs: &Runs<'_>,
        failures: Failures,
        whole: &Ended,
    ) -> Result<bool, CaseError> {
        let ended = runs.run(failures)?;
        let is_right = if ended.has_met {
            ended.status == Status::Failed && is_cut(&ended.written, &whole.written)
        } else {
            ended.status == whole.status && ended.written == whole.written
        };
        if !is_right {
            self.wrong = self.wrong.saturating_add(1);
        }
        if ended.has_met {
            self.count = self.count.saturating_add(1);
            self.digest.update(&ended.written);
        }
        Ok(ended.has_met)
    }
}

// Makes all runs, and returns what was seen.
fn run_all(runs: &Runs<'_>, failing: u64) -> Result<Seen, CaseError> {
    let whole = runs.run(Failures::none())?;
    let mut seen = Seen {
        count: 0,
        wrong: 0,
        digest: Digest::new(),
    };
    for passing in 0..u64::MAX {
        if !seen.take_in(runs, Failures { passing, failing }, &whole)? {
            break;
        }
    }
    Ok(seen)
}

/// Lets each call of a kind fail in turn, until a run meets no failure, and writes how many failures
/// there were, and how many runs were wrong: those that don't end with status 1, or that write another
/// text than a beginning of what the script prints and after it a beginning of the line `cck: refused`;
/// and the last one, where it isn't as without failures. The last line is the digest of all that was
/// written.
pub(crate) fn write(
    alloc: Global,
    out: &mut Vec<u8>,
    streams: &Streams,
    script: &[u8],
    broken: Broken,
    is_once: bool,
) -> Result<(), CaseError> {
    let runs = Runs {
        alloc,
        streams,
        script,
        broken,
    };
    let Seen {
        count,
        wrong,
        digest,
    } = run_all(&runs, if is_once { 1 } else { u64::MAX })?;
    let digest_text = digest.finish(alloc)?;
    write_number(alloc, out, "", count)?;
    out.extend_from_slice(b" failures")?;
    Ok(write_end(alloc, out, wrong, &digest_text)?)
}
