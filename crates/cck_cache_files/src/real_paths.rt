//! The links on the way to files and directories.
//!
//! GCC names a system header by its real path, all links followed, where that is shorter than the path at which
//! it was found: in a dependency file and in debug information. So a link that comes, goes or leads elsewhere
//! changes what is compiled, though each header is found with its contents. clang knows a directory by its inode, and
//! calls it by the name by which it came first, also where it found nothing there.
//!
//! Source: `-fno-canonical-system-headers` of the manual of GCC's preprocessor.
ghost use Rattle.std.specs.Prelude.{◌≡◌, IfOk, IfSome, IsOkUnless, IsTrue, IsUtf8, MatchOption, [], false, true};
ghost use Rattle.cck_cache_rules.specs.PathTest.{Absent, test_of, tests_of};
ghost use Rattle.cck_cache_text.specs.Sets.{has_key};
ghost use Rattle.cck_cache_files.specs.RealPaths.{AreAbsentLinks, AreLinksOf, ArePlaced, GainsLink, GainsPlace, GainsReal, HasAbsent, HasReal, IsPathOf};
ghost use Rattle.cck_path.specs.Bytes.{Bytes};

use crate::identity::Identity;
use crate::path_states::{PathStates, is_plain_file};
use cck_cache_rules::PathTest;
use cck_cache_text::directory_of;
use cck_digest::UtilError;
use cck_path::join_path;
use std::alloc::{AllocError, Global};
use std::collections::BTreeSet;
use std::fs;
use std::rt::Files;

/// Tests of the links on the way to files.
#[derive(Drop)]
pub struct LinkTests {
    /// The tests that a file is no link itself.
    pub plain: Vec<PathTest>,
    /// The tests of where the directories of these files, and other paths, lead.
    pub real: Vec<PathTest>,
}

// The real path of what is at a path. `None` where it can't be known.
fn real_path<R: Files + AllocGlobal>(rt: &R, path: &[u8]) -> Result<Option<Vec<u8>>, AllocError>
    ensures { IfOk result (λ found. IfSome found (λ _. IsUtf8 path.now)) }
{
    let Ok(path) = std::str::from_utf8(path) else {
        return Ok(None);
    };
    match fs::canonicalize(rt, path) {
        Ok(real) => Ok(Some(real.into_string().into_bytes())),
        Err(_) => Ok(None),
    }
}

/// Whether a path leads to this one, all links followed. `false` where that can't be known. The path of a directory that
/// is written as it is, with a slash at its end, is looked at in the states, each part once.
///
/// The only error is lack of memory.
pub fn leads_to<R: Files + AllocGlobal>(
    rt: &R,
    states: &mut PathStates,
    path: &[u8],
    real: &[u8],
) -> Result<bool, AllocError>
    ensures { IfOk result (λ leads. IsTrue leads → IsUtf8 path.now) }
{
    let Ok(text) = std::str::from_utf8(path) else {
        return Ok(false);
    };
    let is_written = path.len() == real.len() + 1 && path.starts_with(real) && path.ends_with(b"/");
    if is_written && !states.has_other(rt, path)? {
        return Ok(true);
    }
    match fs::canonicalize(rt, text) {
        Ok(found) => Ok(found.as_str().as_bytes() == real),
        Err(_) => Ok(false),
    }
}

/// Whether a path is that of the working directory. A compiler reads files from the working directory, and this program by the
/// path of that. After a link on the way was turned, or a file system was mounted there, these are two directories; and where
/// one directory is at two paths, the directories above it differ. `false` where that can't be known.
pub fn is_working_directory<R: Files + AllocGlobal>(rt: &R, path: &str) -> bool {
    let (Ok(own), Ok(found)) = (fs::metadata(rt, "."), fs::metadata(rt, path)) else {
        return false;
    };
    if !Identity::of(&own).is(Identity::of(&found)) {
        return false;
    }
    let Ok(real) = fs::canonicalize(rt, ".") else {
        return false;
    };
    if real.as_str() == path {
        return true;
    }
    match fs::canonicalize(rt, path) {
        Ok(leads) => leads.as_str() == real.as_str(),
        Err(_) => false,
    }
}

// Whether a compiler that renames headers names the system header at a path by its real path in place of this name: that
// is shorter. `true` where that can't be known.
fn is_renamed<R: Files + AllocGlobal>(
    rt: &R,
    path: &[u8],
    name: &[u8],
    renames: bool,
) -> Result<bool, AllocError>
    ensures { IfOk result (λ renamed. renames ≡ true → renamed ≡ false → IsUtf8 path.now) }
{
    if !renames {
        return Ok(false);
    }
    match real_path(rt, path)? {
        Some(real) => Ok(real.len() < name.len()),
        None => Ok(true),
    }
}

// Whether the last of these tests is of where this path leads.
fn is_last(real: &[PathTest], path: &[u8]) -> bool
    ensures { IsTrue result → HasReal (tests_of real.now) path.now }
{
    match real.last() {
        Some(PathTest::Real { path: last, .. }) => last.as_slice() == path,
        _ => false,
    }
}

// The path at which nothing is by this test.
fn absent_path(test: &PathTest) -> Option<&[u8]>
    ensures { MatchOption result ((path : Bytes) → test_of test.now ≡ Absent path → ⊥)
        (λ path. test_of test.now ≡ Absent path.now) }
{
    match test {
        PathTest::Absent(path) => Some(path),
        _ => None,
    }
}

impl LinkTests {
    // No tests.
    fn new(alloc: Global) -> LinkTests
        ensures plain { result.plain.items ≡ [] }
        ensures real { result.real.items ≡ [] }
    {
        LinkTests {
            plain: Vec::new(alloc),
            real: Vec::new(alloc),
        }
    }

    // Adds the test of where a path leads, unless it is the last one. Returns `false` where that can't be known.
    fn add_real<R: Files + AllocGlobal>(&mut self, rt: &R, path: &[u8]) -> Result<bool, AllocError>
        ensures plain { self.new.plain ≡ self.old.plain }
        ensures real { IfOk result (λ known. IsTrue known
            → GainsReal (tests_of self.old.real.items) path.now (tests_of self.new.real.items)) }
    {
        if is_last(&self.real, path) {
            return Ok(true);
        }
        let Some(real) = real_path(rt, path)? else {
            return Ok(false);
        };
        self.real.push(PathTest::Real {
            path: path.to_vec(rt.alloc())?,
            real,
        })?;
        Ok(true)
    }

    // Adds the test of where the directory of a path leads, if nothing is at the path by this test. Returns `false` where
    // that can't be known.
    fn add_absent<R: Files + AllocGlobal>(
        &mut self,
        rt: &R,
        test: &PathTest,
    ) -> Result<bool, AllocError>
        ensures gained { IfOk result (λ known. IsTrue known
            → GainsLink (tests_of self.old.real.items) (test_of test.now) (tests_of self.new.real.items)) }
        ensures unknown { IfOk result (λ known. known ≡ false → (path : Bytes) × (test_of test.now ≡ Absent path)) }
    {
        match absent_path(test) {
            Some(path) => self.add_real(rt, directory_of(path)),
            None => Ok(true),
        }
    }

    // Adds the tests of the links on the way to the file at a path, which has this name. Returns `false` where they
    // can't be known, or the compiler has another name for the file.
    fn add<R: Files + AllocGlobal>(
        &mut self,
        rt: &R,
        path: &[u8],
        name: &[u8],
        renames: bool,
    ) -> Result<bool, AllocError>
        ensures { IfOk result (λ known. IsTrue known → GainsPlace self.old path.now self.new) }
    {
        if is_renamed(rt, path, name, renames)? {
            return Ok(false);
        }
        if is_plain_file(rt, path) {
            self.plain.push(PathTest::Plain(path.to_vec(rt.alloc())?))?;
            let known = self.add_real(rt, directory_of(path))?;
            return Ok(known);
        }
        let known = self.add_real(rt, path)?;
        Ok(known)
    }
}

/// The tests of the links on the way to the files of these names, which are relative to a directory: of each that
/// is no link itself, that it is none, and where its directory leads; of another one, where it leads. `None`
/// where it is not known where one of them leads, or its real path is shorter than its name and the compiler renames
/// headers by that.
///
/// The only error is [`UtilError::Memory`].
pub fn link_tests<R: Files + AllocGlobal>(
    rt: &R,
    directory: &[u8],
    names: &BTreeSet<Vec<u8>>,
    renames: bool,
) -> Result<Option<LinkTests>, UtilError>
    ensures tests { IfOk result (λ found. MatchOption found
        ((name : Bytes) × IsTrue (has_key names.now name))
        (ArePlaced (IsPathOf directory.now (λ name. IsTrue (has_key names.now name))))) }
    ensures errors { IsOkUnless result UtilError.Memory }
{
    let alloc = rt.alloc();
    let mut tests = LinkTests::new(alloc);
    for name in names {
        let path = join_path(alloc, directory, name)?;
        if !tests.add(rt, &path, name, renames)? {
            return Ok(None);
        }
    }
    Ok(Some(tests))
}

// The tests of where the directories of the paths lead at which nothing is by these tests. `None` where it is not known
// where one of them leads.
fn absent_links<R: Files + AllocGlobal>(
    rt: &R,
    tests: &[PathTest],
) -> Result<Option<Vec<PathTest>>, AllocError>
    ensures { IfOk result (λ found. MatchOption found (HasAbsent (tests_of tests.now))
        (λ links. AreAbsentLinks (tests_of tests.now) (tests_of links.items))) }
{
    let mut links = LinkTests::new(rt.alloc());
    for test in tests {
        if !links.add_absent(rt, test)? {
            return Ok(None);
        }
    }
    Ok(Some(links.real))
}

/// The tests of where the directories of the paths lead at which nothing is by these tests, by a compiler that knows a
/// directory by its inode. One that renames headers has none. `None` where it is not known where one of them leads.
///
/// The only error is lack of memory.
pub fn links_of<R: Files + AllocGlobal>(
    rt: &R,
    tests: &[PathTest],
    renames: bool,
) -> Result<Option<Vec<PathTest>>, AllocError>
    ensures { IfOk result (λ found. MatchOption found ((renames ≡ false) × HasAbsent (tests_of tests.now))
        (λ links. AreLinksOf renames (tests_of tests.now) (tests_of links.items))) }
{
    if renames {
        return Ok(Some(Vec::new(rt.alloc())));
    }
    absent_links(rt, tests)
}
