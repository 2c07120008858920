//! What there is on the way to a path.
ghost use Rattle.std.specs.Prelude.{◌≡◌, ℕ, List, None, length, ◌<◌, IfOk, IsTrue, IsUtf8, MatchBool, MatchOption, OnErr};
ghost use Rattle.std.specs.Fs.{file_type};
ghost use Rattle.cck_cache_files.specs.PathStates.{AreOnTheWay, EndsAt, HasOther, IsFirstEnd, IsFirstOther, IsStateFound, IsStateOf, IsThere, IsUnchanged, KeepsStates, LeadsOnBy, state_at};

use crate::identity::is_null_device;
use crate::times::{changed, is_settled, modified};
use cck_path::Timestamp;
use std::alloc::AllocError;
use std::collections::HashMap;
use std::fs;
use std::fs::Metadata;
use std::io::ErrorKind;
use std::rt::Files;

/// What there is at a path.
#[derive(Clone, Copy, PartialEq, Eq)]
pub enum PathState {
    /// Nothing, and no file on the way to it.
    Absent,
    /// A link that last changed before the given time.
    Link,
    /// A regular file that last changed before the given time, or the null device.
    File,
    /// A directory that was not changed itself, as to another name, at the given time or later. Names may have
    /// come and gone in it.
    Directory,
    /// What can't be looked at, or changed at or after the given time, or is of another kind.
    Doubtful,
}

impl PathState {
    /// Whether something is at a path that is not in doubt.
    pub fn is_there(self) -> bool
        ensures { MatchBool result (IsThere self) (¬ (IsThere self)) }
    {
        match self {
            PathState::Directory | PathState::Link | PathState::File => true,
            PathState::Absent | PathState::Doubtful => false,
        }
    }

    // Whether a path may lead on: a directory, or where links count a link, which may lead to one.
    fn leads_on(self, links: bool) -> bool
        ensures { MatchBool result (LeadsOnBy links self) (¬ (LeadsOnBy links self)) }
    {
        match self {
            PathState::Directory => true,
            PathState::Link => links,
            PathState::Absent | PathState::File | PathState::Doubtful => false,
        }
    }
}

/// The states of the paths that were asked for, and of those on the way to them.
#[derive(Drop)]
pub struct PathStates {
    since: Timestamp,
    // By a hash of the path: many paths begin alike, which makes comparing them long.
    states: HashMap<Vec<u8>, PathState>,
}

// The state of what was found at a path, by whether it last changed before the given time.
fn state_found(found: &Metadata, is_old: bool) -> PathState
    ensures { IsStateFound (file_type found.now) is_old result }
{
    if !is_old {
        PathState::Doubtful
    } else if found.is_dir() {
        PathState::Directory
    } else if found.is_symlink() {
        PathState::Link
    } else if found.is_file() {
        PathState::File
    } else {
        PathState::Doubtful
    }
}

// The state of a path. A link at the path itself is not followed. A path below a file is in doubt: a compiler
// passes over a header there, and ends with an error for a directory of its search list.
fn look_at<R: Files>(rt: &R, path: &[u8], since: Timestamp) -> PathState
    ensures { ¬ (IsUtf8 path.now) → result ≡ PathState.Doubtful }
{
    let Ok(path) = std::str::from_utf8(path) else {
        return PathState::Doubtful;
    };
    match fs::symlink_metadata(rt, path) {
        Err(error) if error.kind() == ErrorKind::NotFound => PathState::Absent,
        Err(_) => PathState::Doubtful,
        Ok(found) if is_null_device(path, &found) => PathState::File,
        Ok(found) => {
            let (modified, changed) = (modified(&found), changed(&found));
            state_found(&found, is_settled(found.is_dir(), modified, changed, since))
        }
    }
}

/// Whether there is nothing at a path. `false` where that can't be known.
pub fn is_absent<R: Files>(rt: &R, path: &[u8]) -> bool
    ensures { IsTrue result → IsUtf8 path.now }
{
    look_at(rt, path, Timestamp::new(0, 0)) == PathState::Absent
}

/// Whether a directory is at a path, and no link to one. `false` where that can't be known.
pub fn is_directory<R: Files>(rt: &R, path: &[u8]) -> bool
    ensures { IsTrue result → IsUtf8 path.now }
{
    look_at(rt, path, Timestamp::new(i64::MAX, 0)) == PathState::Directory
}

/// Whether a regular file is at a path, and no link to one. `false` where that can't be known.
pub fn is_plain_file<R: Files>(rt: &R, path: &[u8]) -> bool
    ensures { IsTrue result → IsUtf8 path.now }
{
    look_at(rt, path, Timestamp::new(i64::MAX, 0)) == PathState::File
}

/// Whether a regular file that the process may read is at a path, links followed. `false` where that can't be known.
pub fn is_file<R: Files>(rt: &R, path: &[u8]) -> bool
    ensures { IsTrue result → IsUtf8 path.now }
{
    let Ok(path) = std::str::from_utf8(path) else {
        return false;
    };
    match fs::metadata(rt, path) {
        Ok(found) => found.is_file() && fs::open(rt, path).is_ok(),
        Err(_) => false,
    }
}

// Whether a slash at this place ends a directory's path, which is not empty.
fn ends_at(path: &[u8], place: usize) -> bool
    requires { place < length path.now }
    ensures { MatchBool result (EndsAt path.now place) (¬ (EndsAt path.now place)) }
{
    place > 0 && path[place] == b'/'
}

impl PathStates {
    /// No states. Files and links must have changed before this time.
    pub fn new<R: AllocGlobal>(rt: &R, since: Timestamp) -> PathStates
        ensures since { result.since ≡ since }
        ensures none { (path : List ℕ) → state_at result path ≡ None }
    {
        PathStates {
            since,
            states: HashMap::new(rt.alloc()),
        }
    }

    /// The state of a path, looked at once: a state that is kept is returned, and another is kept.
    ///
    /// The only error is lack of memory.
    pub fn state_of<R: Files + AllocGlobal>(
        &mut self,
        rt: &R,
        path: &[u8],
    ) -> Result<PathState, AllocError>
        ensures state { IfOk result (IsStateOf self.old self.new path.now) }
        ensures errors { OnErr result (IsUnchanged self.old self.new) }
    {
        if let Some(state) = self.states.get(path) {
            return Ok(*state);
        }
        let state = look_at(rt, path, self.since);
        self.states.insert(path.to_vec(rt.alloc())?, state)?;
        Ok(state)
    }

    // The first path on the way to an absolute path, the path itself not included, at which there is neither a
    // directory nor, where links count, a link; and its state.
    fn first_end<'a, R: Files + AllocGlobal>(
        &mut self,
        rt: &R,
        path: &'a [u8],
        links: bool,
    ) -> Result<Option<(&'a [u8], PathState)>, AllocError>
        ensures first { IfOk result (λ found. MatchOption found
            (AreOnTheWay (LeadsOnBy links) self.new path.now (length path.now))
            (λ end. IsFirstEnd links self.new path.now end.0.now end.1)) }
        ensures kept { KeepsStates self.old self.new }
    {
        for place in 0..path.len() {
            if !ends_at(path, place) {
                continue;
            }
            let front = &path[..place];
            let state = self.state_of(rt, front)?;
            if !state.leads_on(links) {
                return Ok(Some((front, state)));
            }
        }
        Ok(None)
    }

    /// The first path on the way to an absolute path, the path itself included, at which there is
    /// neither a directory nor a link, and its state; the whole path where there is none.
    ///
    /// The only error is lack of memory.
    pub fn first_other<'a, R: Files + AllocGlobal>(
        &mut self,
        rt: &R,
        path: &'a [u8],
    ) -> Result<(&'a [u8], PathState), AllocError>
        ensures first { IfOk result (λ other. IsFirstOther self.new path.now other.0.now other.1) }
        ensures kept { KeepsStates self.old self.new }
    {
        if let Some(end) = self.first_end(rt, path, true)? {
            return Ok(end);
        }
        Ok((path, self.state_of(rt, path)?))
    }

    /// Whether anything but a directory is on the way to an absolute path, the path itself not
    /// included: a link, a file, nothing, or something in doubt.
    ///
    /// The only error is lack of memory.
    pub fn has_other<R: Files + AllocGlobal>(
        &mut self,
        rt: &R,
        path: &[u8],
    ) -> Result<bool, AllocError>
        ensures other { IfOk result (λ found. MatchBool found (HasOther self.new path.now)
            (AreOnTheWay (λ state. state ≡ PathState.Directory) self.new path.now (length path.now))) }
        ensures kept { KeepsStates self.old self.new }
    {
        match self.first_end(rt, path, false)? {
            Some(_) => Ok(true),
            None => Ok(false),
        }
    }
}
