//! The lines of a vector file, in their order.
use crate::cases::case_error::CaseError;
use crate::cases::made::MadeBytes;
use crate::cases::report::Report;
use crate::cases::subject::{CaseLine, Subject};
use crate::cases::text::bytes_of;
use crate::cases::value::write_error;
use std::alloc::Global;

// The result of a call, and the lines of the expected one so far.
#[derive(Drop)]
struct Returned {
    line: usize,
    result: Vec<u8>,
    expected: Vec<u8>,
    is_expected: bool,
}

struct Session<S: Drop> {
    alloc: Global,
    subject: S,
    made: MadeBytes,
    last: Option<Returned>,
}

impl<S: Drop> Drop for Session<S> {
    fn drop(self) {
        let Session {
            alloc: _,
            subject: _,
            made: _,
            last: _,
        } = self;
    }
}

/// Runs the cases of a text. The only error is lack of memory.
pub(crate) fn run_lines<S: Subject + Drop>(
    alloc: Global,
    text: &str,
    report: &mut Report<'_>,
) -> Result<(), CaseError> {
    let mut session = Session {
        alloc,
        subject: S::new(alloc),
        made: MadeBytes::new(alloc),
        last: None,
    };
    session.run(text, report)
}

impl<S: Subject + Drop> Session<S> {
    fn run(&mut self, text: &str, report: &mut Report<'_>) -> Result<(), CaseError> {
        let mut number: usize = 0;
        for line in text.split('\n') {
            number = number.saturating_add(1);
            self.read(number, line, report)?;
        }
        self.settle(report)
    }

    // Follows a line, or reports that it can't be read. The only error is lack of memory.
    fn read(
        &mut self,
        number: usize,
        line: &str,
        report: &mut Report<'_>,
    ) -> Result<(), CaseError> {
        match self.follow(number, line, report) {
            Err(error) if !error.is_memory() => {
                Ok(report.reject(number, "the line can't be read")?)
            }
            followed => followed,
        }
    }

    fn follow(
        &mut self,
        number: usize,
        line: &str,
        report: &mut Report<'_>,
    ) -> Result<(), CaseError> {
        let (name, rest) = line.split_once(' ').unwrap_or((line, ""));
        if name == "=>" {
            return self.expect(rest);
        }
        self.settle(report)?;
        if line.is_empty() || line.starts_with('#') {
            return Ok(());
        }
        if name == "case" {
            self.made.begin();
            self.subject = S::new(self.alloc);
            report.begin(rest)?;
            return Ok(());
        }
        if self.made.give(name, rest)? || self.subject.give(name, rest)? {
            return Ok(());
        }
        self.call(number, name, rest)
    }

    // Makes a call, and keeps its result. An error is a result too, except lack of memory and a
    // line that can't be read.
    fn call(&mut self, line: usize, name: &str, rest: &str) -> Result<(), CaseError> {
        let mut bytes = Vec::new(self.alloc);
        self.made.write(rest, S::is_raw(name), &mut bytes)?;
        let mut result = Vec::new(self.alloc);
        write_result(
            &mut self.subject,
            self.alloc,
            name,
            CaseLine {
                rest,
                bytes: &bytes,
            },
            &mut result,
        )?;
        self.last = Some(Returned {
            line,
            result,
            expected: Vec::new(self.alloc),
            is_expected: false,
        });
        Ok(())
    }

    // Takes one line of the expected result.
    fn expect(&mut self, rest: &str) -> Result<(), CaseError> {
        let Some(last) = &mut self.last else {
            return Err(CaseError::Line);
        };
        if last.is_expected {
            last.expected.push(b'\n')?;
        }
        last.is_expected = true;
        last.expected
            .extend_from_slice(&bytes_of(self.alloc, rest)?)?;
        Ok(())
    }

    // Compares the last result, if there is one that wasn't compared.
    fn settle(&mut self, report: &mut Report<'_>) -> Result<(), CaseError> {
        let Some(last) = self.last.take() else {
            return Ok(());
        };
        if last.is_expected {
            report.compare(last.line, &last.expected, &last.result)?;
        } else {
            report.reject(last.line, "the call has no expected result")?;
        }
        Ok(())
    }
}

fn write_result<S: Subject>(
    subject: &mut S,
    alloc: Global,
    name: &str,
    line: CaseLine<'_>,
    out: &mut Vec<u8>,
) -> Result<(), CaseError> {
    match subject.call(name, line) {
        Ok(value) => value.write(alloc, out)?,
        Err(error) if error.stops() => return Err(error),
        Err(error) => write_error(alloc, out, error)?,
    }
    Ok(())
}
