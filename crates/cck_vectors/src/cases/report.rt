//! What is printed of a vector file.
use std::alloc::{AllocError, Global};

/// What is printed of a vector file: each difference, each line that can't be read, and the counts.
#[derive(Drop)]
pub(crate) struct Report<'a> {
    alloc: Global,
    file: &'a str,
    text: String,
    case: String,
    results: u64,
    differences: u64,
}

// The byte as a vector file may write it.
fn push_byte(alloc: Global, text: &mut String, byte: u8) -> Result<(), AllocError> {
    match byte {
        b'\n' => text.push_str("\\n"),
        b'\\' => text.push_str("\\\\"),
        b' '..=b'~' => text.push(char::from(byte)),
        _ => push_hex(alloc, text, byte),
    }
}

fn push_hex(alloc: Global, text: &mut String, byte: u8) -> Result<(), AllocError> {
    text.push_str(&format!(in alloc; "\\x{byte:02x}")?)
}

// The bytes as a vector file may write them.
fn escaped(alloc: Global, bytes: &[u8]) -> Result<String, AllocError> {
    let mut text = String::new(alloc);
    for byte in bytes {
        push_byte(alloc, &mut text, *byte)?;
    }
    Ok(text)
}

impl<'a> Report<'a> {
    /// Returns the report on a file of which no line was read.
    pub(crate) fn new(alloc: Global, file: &'a str) -> Report<'a> {
        Report {
            alloc,
            file,
            text: String::new(alloc),
            case: String::new(alloc),
            results: 0,
            differences: 0,
        }
    }

    /// A case of this name begins.
    pub(crate) fn begin(&mut self, case: &str) -> Result<(), AllocError> {
        self.case.clear();
        self.case.push_str(case)
    }

    /// Reports a line, with the reason.
    pub(crate) fn reject(&mut self, line: usize, why: &str) -> Result<(), AllocError> {
        let (file, case) = (self.file, self.case.as_str());
        let text = format!(in self.alloc; "{file}:{line}: {case}: {why}\n")?;
        self.differences = self.differences.saturating_add(1);
        self.text.push_str(&text)
    }

    /// Counts the result of the call of this line, and reports it if it isn't the expected one.
    pub(crate) fn compare(
        &mut self,
        line: usize,
        expected: &[u8],
        returned: &[u8],
    ) -> Result<(), AllocError> {
        self.results = self.results.saturating_add(1);
        if expected == returned {
            return Ok(());
        }
        self.reject(line, "another result")?;
        self.add_field("expected", expected)?;
        self.add_field("got     ", returned)
    }

    fn add_field(&mut self, name: &str, bytes: &[u8]) -> Result<(), AllocError> {
        let shown = escaped(self.alloc, bytes)?;
        let text = format!(in self.alloc; "  {name} {shown}\n")?;
        self.text.push_str(&text)
    }

    /// Adds the counts.
    pub(crate) fn end(&mut self) -> Result<(), AllocError> {
        let (file, results, differences) = (self.file, self.results, self.differences);
        let text = format!(in self.alloc;
            "{file}: {results} results, {differences} differences\n"
        )?;
        self.text.push_str(&text)
    }

    /// Returns what is printed so far.
    pub(crate) fn text(&self) -> &str {
        &self.text
    }

    /// Returns whether nothing differs.
    pub(crate) fn agrees(&self) -> bool {
        self.differences == 0
    }
}
