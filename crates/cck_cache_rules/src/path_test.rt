//! What is tested of a path before an entry is used.
ghost use Rattle.std.specs.Prelude.{◌≡◌, ◌++◌, IfOk};
ghost use Rattle.std.specs.Option.{option_map};
ghost use Rattle.cck_cache_rules.specs.PathTest.{real_bytes, searched_bytes, test_bytes, test_of, test_path, test_real, with_path};
ghost use Rattle.cck_cache_rules.specs.Reading.{ReadsBack};

use crate::frames::{number_bytes, push_frame, read_frame, read_number};
use std::alloc::{AllocError, Global};

/// How the bytes of each test begin.
const ABSENT: &[u8] = b"absent ";

const FILE: &[u8] = b"file ";

const DIRECTORY: &[u8] = b"directory ";

const SEARCHED: &[u8] = b"searched ";

const PLAIN: &[u8] = b"plain ";

const REAL: &[u8] = b"real ";

/// What must hold of a path, so that a preprocessor finds what it found.
#[derive(PartialEq, Eq)]
pub enum PathTest {
    /// There is nothing at the path.
    Absent(Vec<u8>),
    /// A regular file is at the path, links followed.
    File(Vec<u8>),
    /// A directory is at the path, and no link to one.
    Directory(Vec<u8>),
    /// A directory is at the path, links followed: one of those that are searched, and the same as at
    /// this place.
    Searched {
        /// The path.
        path: Vec<u8>,
        /// The place of the first directory that is the same, counted over these tests in their order:
        /// the place of this one where no earlier one is.
        place: usize,
    },
    /// A regular file is at the path, and no link to one.
    Plain(Vec<u8>),
    /// The path leads to this one, all links followed.
    Real {
        /// The path.
        path: Vec<u8>,
        /// The path of the same file or directory on whose way there is no link.
        real: Vec<u8>,
    },
}

impl Drop for PathTest {
    fn drop(self) {
        match self {
            PathTest::Absent(_)
            | PathTest::File(_)
            | PathTest::Directory(_)
            | PathTest::Searched { path: _, place: _ }
            | PathTest::Plain(_)
            | PathTest::Real { path: _, real: _ } => {}
        }
    }
}

// These, one after the other.
pub(crate) fn joined(alloc: Global, front: &[u8], rest: &[u8]) -> Result<Vec<u8>, AllocError>
    ensures { IfOk result (λ all. all.items ≡ front.now ++ rest.now) }
{
    let mut all = Vec::new(alloc);
    all.reserve(front.len().saturating_add(rest.len()))?;
    all.extend_from_slice(front)?;
    all.extend_from_slice(rest)?;
    Ok(all)
}

/// What follows this word.
pub fn after<'a>(word: &[u8], bytes: &'a [u8]) -> Option<&'a [u8]>
    ensures { ReadsBack (λ rest. word.now ++ rest) bytes.now (option_map (λ rest. rest.now) result) }
{
    bytes.strip_prefix(word)
}

// The place and the path of the test of a directory that is searched.
fn read_searched(bytes: &[u8]) -> Option<(usize, &[u8])>
    ensures { ReadsBack searched_bytes bytes.now (option_map (λ r. (r.0, r.1.now)) result) }
{
    let (place, path) = read_number(after(SEARCHED, bytes)?)?;
    Some((place as usize, path))
}

// The real path and the path of the test of where a path leads.
fn read_real(bytes: &[u8]) -> Option<(&[u8], &[u8])>
    ensures { ReadsBack real_bytes bytes.now (option_map (λ r. (r.0.now, r.1.now)) result) }
{
    read_frame(after(REAL, bytes)?)
}

impl PathTest {
    /// The path that is tested.
    pub fn path(&self) -> &[u8]
        ensures { result.now ≡ test_path (test_of self.now) }
    {
        match self {
            PathTest::Absent(path)
            | PathTest::File(path)
            | PathTest::Directory(path)
            | PathTest::Plain(path) => path,
            PathTest::Searched { path, .. } | PathTest::Real { path, .. } => path,
        }
    }

    /// The path that it leads to. Empty where that is not tested.
    pub fn real(&self) -> &[u8]
        ensures { result.now ≡ test_real (test_of self.now) }
    {
        match self {
            PathTest::Real { real, .. } => real,
            _ => b"",
        }
    }

    /// The bytes of the same test of another path, which leads to this one if that is tested.
    ///
    /// The only error is lack of memory.
    pub fn write_with(
        &self,
        alloc: Global,
        path: &[u8],
        leads_to: &[u8],
    ) -> Result<Vec<u8>, AllocError>
        ensures { IfOk result (λ bytes. bytes.items ≡ test_bytes (with_path (test_of self.now) path.now leads_to.now)) }
    {
        match self {
            PathTest::Absent(_) => joined(alloc, ABSENT, path),
            PathTest::File(_) => joined(alloc, FILE, path),
            PathTest::Directory(_) => joined(alloc, DIRECTORY, path),
            PathTest::Searched { place, .. } => {
                let mut bytes = joined(alloc, SEARCHED, &number_bytes(*place as u64))?;
                bytes.extend_from_slice(path)?;
                Ok(bytes)
            }
            PathTest::Plain(_) => joined(alloc, PLAIN, path),
            PathTest::Real { .. } => {
                let mut bytes = REAL.to_vec(alloc)?;
                push_frame(&mut bytes, leads_to)?;
                bytes.extend_from_slice(path)?;
                Ok(bytes)
            }
        }
    }

    /// The bytes of the test in an entry file.
    ///
    /// The only error is lack of memory.
    pub fn write(&self, alloc: Global) -> Result<Vec<u8>, AllocError>
        ensures { IfOk result (λ bytes. bytes.items ≡ test_bytes (test_of self.now)) }
    {
        self.write_with(alloc, self.path(), self.real())
    }

    /// The test that has these bytes. `None` where no test has.
    ///
    /// The only error is lack of memory.
    pub fn read(alloc: Global, bytes: &[u8]) -> Result<Option<PathTest>, AllocError>
        ensures { IfOk result (λ found. ReadsBack test_bytes bytes.now (option_map test_of found)) }
    {
        if let Some(path) = after(ABSENT, bytes) {
            return Ok(Some(PathTest::Absent(path.to_vec(alloc)?)));
        }
        if let Some(path) = after(FILE, bytes) {
            return Ok(Some(PathTest::File(path.to_vec(alloc)?)));
        }
        if let Some(path) = after(DIRECTORY, bytes) {
            return Ok(Some(PathTest::Directory(path.to_vec(alloc)?)));
        }
        if let Some((place, path)) = read_searched(bytes) {
            return Ok(Some(PathTest::Searched {
                path: path.to_vec(alloc)?,
                place,
            }));
        }
        if let Some(path) = after(PLAIN, bytes) {
            return Ok(Some(PathTest::Plain(path.to_vec(alloc)?)));
        }
        let Some((real, path)) = read_real(bytes) else {
            return Ok(None);
        };
        Ok(Some(PathTest::Real {
            path: path.to_vec(alloc)?,
            real: real.to_vec(alloc)?,
        }))
    }
}
