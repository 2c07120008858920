//! The file that keeps an entry.
ghost use Rattle.std.specs.Prelude.{◌≡◌, ◌++◌, IfOk, map};
ghost use Rattle.std.specs.Option.{option_map};
ghost use Rattle.cck_cache_rules.specs.PathStatus.{status_bytes, statuses_of};
ghost use Rattle.cck_cache_rules.specs.Files.{IsEntryFile, entry_fields, entry_file, entry_parts};
ghost use Rattle.cck_cache_rules.specs.PathTest.{test_bytes, tests_of};
ghost use Rattle.cck_cache_rules.specs.Reading.{ReadsBackOf, byte_lists, lent_lists};

use crate::path_status::PathStatus;
use crate::path_test::PathTest;
use crate::stored::{read_stored, write_stored};
use std::alloc::{AllocError, Global};

/// How an entry file begins.
const KIND: &[u8] = b"cck entry 4\n";

/// What an entry file holds.
pub struct EntryFile {
    /// The preprocessor key that the entry belongs to.
    pub preprocessor_key: Vec<u8>,
    /// The bytes of the entry.
    pub entry: Vec<u8>,
    /// What the system said of included files, and of directories in which there was nothing at a path, when
    /// the entry was recorded.
    pub statuses: Vec<PathStatus>,
    /// What held of paths when the entry was recorded, and must hold before it is used.
    pub tests: Vec<PathTest>,
}

impl Drop for EntryFile {
    fn drop(self) {
        let EntryFile {
            preprocessor_key: _,
            entry: _,
            statuses: _,
            tests: _,
        } = self;
    }
}

// What these parts say. `None` where there are fewer than two, where another one is no status and no
// test, and where a status follows a test.
fn file_of(alloc: Global, parts: Vec<&[u8]>) -> Result<Option<EntryFile>, AllocError>
    ensures { IfOk result (λ found. ReadsBackOf IsEntryFile entry_parts (lent_lists parts.entry) (option_map entry_fields found)) }
{
    let mut parts = parts.into_iter();
    let (Some(preprocessor_key), Some(entry)) = (parts.next(), parts.next()) else {
        return Ok(None);
    };
    let mut statuses = Vec::new(alloc);
    let mut tests = Vec::new(alloc);
    for part in parts {
        if let Some(status) = PathStatus::read(alloc, part)? {
            if !tests.is_empty() {
                return Ok(None);
            }
            statuses.push(status)?;
            continue;
        }
        let Some(test) = PathTest::read(alloc, part)? else {
            return Ok(None);
        };
        tests.push(test)?;
    }
    Ok(Some(EntryFile {
        preprocessor_key: preprocessor_key.to_vec(alloc)?,
        entry: entry.to_vec(alloc)?,
        statuses,
        tests,
    }))
}

// The bytes of each status, and of each test.
fn parts_of(
    alloc: Global,
    statuses: &[PathStatus],
    tests: &[PathTest],
) -> Result<Vec<Vec<u8>>, AllocError>
    ensures { IfOk result (λ parts. byte_lists parts
        ≡ map status_bytes (statuses_of statuses.now) ++ map test_bytes (tests_of tests.now)) }
{
    let mut parts = Vec::new(alloc);
    for status in statuses {
        parts.push(status.write(alloc)?)?;
    }
    for test in tests {
        parts.push(test.write(alloc)?)?;
    }
    Ok(parts)
}

impl EntryFile {
    /// The bytes of the file.
    ///
    /// The only error is lack of memory.
    pub fn write(&self, alloc: Global) -> Result<Vec<u8>, AllocError>
        ensures { IfOk result (λ bytes. bytes.items ≡ entry_file (entry_fields self.now)) }
    {
        let others = parts_of(alloc, &self.statuses, &self.tests)?;
        let mut parts: Vec<&[u8]> = Vec::new(alloc);
        parts.push(&self.preprocessor_key)?;
        parts.push(&self.entry)?;
        for part in &others {
            parts.push(part)?;
        }
        write_stored(alloc, KIND, &parts)
    }

    /// The file that has these bytes when it is written. `None` where no file has.
    ///
    /// The only error is lack of memory.
    pub fn read(alloc: Global, bytes: &[u8]) -> Result<Option<EntryFile>, AllocError>
        ensures { IfOk result (λ found. ReadsBackOf IsEntryFile entry_file bytes.now (option_map entry_fields found)) }
    {
        let Some(parts) = read_stored(alloc, KIND, bytes)? else {
            return Ok(None);
        };
        file_of(alloc, parts)
    }
}
