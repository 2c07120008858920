//! The run of a vector file.
use crate::cases::report::Report;
use crate::cases::session::run_lines;
use crate::cases::subject::Subject;
use std::{fs, io};

fn no_memory() -> io::Error {
    io::Error::from(io::ErrorKind::OutOfMemory)
}

/// Runs the cases of a file, and prints each difference and the number of results. Returns whether
/// all results are the expected ones and all lines can be read.
///
/// # Errors
///
/// - the error of the read or of the write that failed,
/// - [`OutOfMemory`] if memory is lacking. What was found until then is printed.
///
/// [`OutOfMemory`]: io::ErrorKind::OutOfMemory
pub(crate) fn run_file<S: Subject + Drop>(rt: &HostRuntime, name: &str) -> io::Result<bool> {
    let alloc = rt.alloc();
    let text = fs::read_to_string(rt, name)?;
    let mut report = Report::new(alloc, name);
    let is_run = run_lines::<S>(alloc, &text, &mut report).is_ok();
    end(rt, &mut report, is_run)
}

// Prints the report, and returns whether nothing differs.
fn end(rt: &HostRuntime, report: &mut Report<'_>, is_run: bool) -> io::Result<bool> {
    if report.end().is_err() {
        return Err(no_memory());
    }
    rt.print(report.text())?;
    if !is_run {
        return Err(no_memory());
    }
    Ok(report.agrees())
}
