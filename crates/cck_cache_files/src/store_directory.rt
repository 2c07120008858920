//! The directory of a store.
ghost use Rattle.std.specs.Prelude.{◌≡◌, ◌<ℤ◌, pos, IfOk, IsErr, string_bytes};
ghost use Rattle.cck_cache_files.specs.Paths.{IsStoreIn, digest_path, directory_bytes, first_digits, key_directory, key_path, kind_name};

use crate::path_in::path_in;
use crate::times::{modified, system_time};
use cck_cache_rules::is_day_old;
use cck_path::Timestamp;
use std::alloc::AllocError;
use std::fs::{FileTimes, Metadata, OpenFile, OpenOptions};
use std::io::{ErrorKind, Read, Write};
use std::rt::Files;
use std::{fs, io};

/// What the file `VERSION` of a store directory holds.
const VERSION: &[u8] = b"cck store 1\n";

/// The kinds of file that a store has.
#[derive(Clone, Copy)]
pub enum Kind {
    /// Entry files, by preprocessor keys.
    Entry,
    /// Object files, by keys.
    Object,
}

impl Kind {
    /// The name of the directory of this kind.
    pub fn as_str(self) -> &'static str
        ensures { result.now ≡ kind_name self }
    {
        match self {
            Kind::Entry => "entries",
            Kind::Object => "objects",
        }
    }
}

/// A store directory: `VERSION`, and the directories `entries`, `objects`, `counts` and `digests`,
/// each of which is there once it has a file. In `entries` and `objects` a file is in a directory that
/// is named by the first two digits of its key.
pub struct StoreDirectory {
    directory: String,
    // The end of the names that this process alone gives to new files.
    suffix: String,
}

impl Drop for StoreDirectory {
    fn drop(self) {
        let StoreDirectory {
            directory: _,
            suffix: _,
        } = self;
    }
}

// Makes a file at a path. What is there, as after a process that was killed, is removed first: a new file has the mode of this
// process, and no other name.
fn make_file<R: Files>(rt: &R, path: &str) -> io::Result<R::File> {
    let mut options = OpenOptions::new();
    options.write(true).create_new(true);
    match options.open(rt, path) {
        Err(error) if error.kind() == ErrorKind::AlreadyExists => {
            fs::remove_file(rt, path)?;
            options.open(rt, path)
        }
        opened => opened,
    }
}

// The contents of a file of a store, read at once into room for its size. Nothing is written to such a file: another one takes
// its place.
fn read_whole<R: Files + AllocGlobal>(rt: &R, path: &str) -> io::Result<Vec<u8>> {
    let mut file = fs::open(rt, path)?;
    let Ok(size) = usize::try_from(file.metadata()?.len()) else {
        return Err(io::Error::from(ErrorKind::FileTooLarge));
    };
    let mut contents = vec![in rt.alloc(); 0u8; size]?;
    file.read_exact(&mut contents)?;
    Ok(contents)
}

// Makes a store directory whose `VERSION` is not there, with that file alone.
fn make_store<R: Files + AllocGlobal>(rt: &R, store: &StoreDirectory) -> io::Result<()> {
    let directory = store.directory.as_str();
    fs::create_dir_all(rt, directory)?;
    let path = path_in(rt.alloc(), directory, "VERSION")?;
    store.replace(rt, path.as_str(), VERSION)
}

/// The store in a directory, which is made if it is not there. `id` is the number of this process.
///
/// The error [`ErrorKind::InvalidData`] is of a directory with another `VERSION`. Another error is of
/// a `VERSION` that can't be read, of a directory or a `VERSION` that can't be made, or lack of memory.
pub fn open_store<R: Files + AllocGlobal>(
    rt: &R,
    directory: &str,
    id: u32,
) -> io::Result<StoreDirectory>
    ensures { IfOk result (λ store. IsStoreIn store directory.now id) }
{
    let alloc = rt.alloc();
    let store = StoreDirectory {
        directory: String::from_str(alloc, directory)?,
        suffix: format!(in alloc; "new{id}")?,
    };
    let path = path_in(alloc, directory, "VERSION")?;
    match fs::read(rt, path.as_str()) {
        Ok(version) if version.as_slice() == VERSION => Ok(store),
        Ok(_) => Err(io::Error::from(ErrorKind::InvalidData)),
        Err(error) if error.kind() == ErrorKind::NotFound => {
            make_store(rt, &store)?;
            Ok(store)
        }
        Err(error) => Err(error),
    }
}

// Writes a file that is no file of a store, and takes its status.
fn write_mark<R: Files>(rt: &R, path: &str) -> io::Result<Metadata> {
    fs::write(rt, path, b"x".as_slice())?;
    fs::metadata(rt, path)
}

// The first two digits of a key, or two zeros where a character would be cut after them.
fn first_digits(key: &str) -> &str
    ensures { result.now ≡ first_digits key.now }
{
    key.get(..2).unwrap_or("00")
}

impl StoreDirectory {
    /// The path of the store.
    pub fn directory(&self) -> &str
        ensures { result.now ≡ directory_bytes self.now }
    {
        self.directory.as_str()
    }

    /// The directory of the file of a key.
    ///
    /// The only error is lack of memory.
    pub(crate) fn directory_of<R: AllocGlobal>(
        &self,
        rt: &R,
        kind: Kind,
        key: &str,
    ) -> Result<String, AllocError>
        ensures { IfOk result (λ path. string_bytes path
            ≡ key_directory (directory_bytes self.now) kind key.now) }
    {
        let directory = path_in(rt.alloc(), self.directory.as_str(), kind.as_str())?;
        path_in(rt.alloc(), directory.as_str(), first_digits(key))
    }

    /// The path of the file of a key.
    ///
    /// The only error is lack of memory.
    pub fn path_of<R: AllocGlobal>(
        &self,
        rt: &R,
        kind: Kind,
        key: &str,
    ) -> Result<String, AllocError>
        ensures { IfOk result (λ path. string_bytes path
            ≡ key_path (directory_bytes self.now) kind key.now) }
    {
        let directory = self.directory_of(rt, kind, key)?;
        path_in(rt.alloc(), directory.as_str(), key)
    }

    /// The bytes of the file of a key. `None` where there is no such file.
    ///
    /// The error is of a file that is there and can't be read, or lack of memory.
    pub fn read<R: Files + AllocGlobal>(
        &self,
        rt: &R,
        kind: Kind,
        key: &str,
    ) -> io::Result<Option<Vec<u8>>> {
        let path = self.path_of(rt, kind, key)?;
        match read_whole(rt, path.as_str()) {
            Ok(bytes) => Ok(Some(bytes)),
            Err(error) if error.kind() == ErrorKind::NotFound => Ok(None),
            Err(error) => Err(error),
        }
    }

    /// Writes bytes beside a path, and renames the new file to the path. A file that could not be
    /// written whole, or not be renamed, is removed.
    ///
    /// The error is of a file that can't be made, written or renamed, or lack of memory. The file at
    /// the path is then as it was.
    pub fn replace<R: Files + AllocGlobal>(
        &self,
        rt: &R,
        path: &str,
        bytes: &[u8],
    ) -> io::Result<()> {
        let suffix = self.suffix.as_str();
        let beside = format!(in rt.alloc(); "{path}.{suffix}")?;
        let mut file = make_file(rt, beside.as_str())?;
        if let Err(error) = file.write_all(bytes) {
            let _ = fs::remove_file(rt, beside.as_str());
            return Err(error);
        }
        drop(file);
        if let Err(error) = fs::rename(rt, beside.as_str(), path) {
            let _ = fs::remove_file(rt, beside.as_str());
            return Err(error);
        }
        Ok(())
    }

    /// Writes the file of a key, beside it and by a rename.
    ///
    /// The error is of a directory or a file that can't be made, of a file that can't be written or
    /// renamed, or lack of memory. The file of the key is then as it was.
    pub fn write<R: Files + AllocGlobal>(
        &self,
        rt: &R,
        kind: Kind,
        key: &str,
        bytes: &[u8],
    ) -> io::Result<()> {
        let path = self.path_of(rt, kind, key)?;
        match self.replace(rt, path.as_str(), bytes) {
            Err(error) if error.kind() == ErrorKind::NotFound => {
                fs::create_dir_all(rt, self.directory_of(rt, kind, key)?.as_str())?;
                self.replace(rt, path.as_str(), bytes)
            }
            outcome => outcome,
        }
    }

    /// The path of the file that keeps the digest of a compiler of this name.
    ///
    /// The only error is lack of memory.
    pub fn digest_path<R: AllocGlobal>(&self, rt: &R, name: &str) -> Result<String, AllocError>
        ensures { IfOk result (λ path. string_bytes path
            ≡ digest_path (directory_bytes self.now) name.now) }
    {
        let directory = self.directory.as_str();
        Ok(format!(in rt.alloc(); "{directory}/digests/{name}")?)
    }

    /// Writes the file that keeps the digest of a compiler of this name, beside it and by a rename: the
    /// digest, a space and the name.
    ///
    /// The error is of a directory or a file that can't be made, of a file that can't be written or
    /// renamed, or lack of memory. The file of the name is then as it was.
    pub fn keep_digest<R: Files + AllocGlobal>(
        &self,
        rt: &R,
        name: &str,
        digest: &str,
    ) -> io::Result<()> {
        let path = self.digest_path(rt, name)?;
        let directory = self.directory.as_str();
        fs::create_dir_all(rt, path_in(rt.alloc(), directory, "digests")?.as_str())?;
        let contents = format!(in rt.alloc(); "{digest} {name}")?;
        self.replace(rt, path.as_str(), contents.as_bytes())
    }

    /// The time of now by the clock of the store's file system: when a file that is made now was
    /// modified. The system's own clock may be ahead of it.
    ///
    /// The error is of a file that can't be made, written, looked at or removed, or lack of memory;
    /// [`ErrorKind::InvalidData`] is of a time that is no [`Timestamp`]. The file is removed in each
    /// case, unless its removal is what failed.
    pub fn stamp<R: Files + AllocGlobal>(&self, rt: &R) -> io::Result<Timestamp> {
        let directory = self.directory.as_str();
        let suffix = self.suffix.as_str();
        let path = format!(in rt.alloc(); "{directory}/stamp.{suffix}")?;
        let status = write_mark(rt, path.as_str());
        // The file is removed before an error is returned: nothing else would remove it.
        let removal = fs::remove_file(rt, path.as_str());
        let status = status?;
        removal?;
        match modified(&status) {
            Some(time) => Ok(time),
            None => Err(io::Error::from(ErrorKind::InvalidData)),
        }
    }

    /// Sets the time at which the file of a key was used, unless the file has one that is no more than a day
    /// before `now`, or after it.
    ///
    /// The error is of a file that is not there or can't be opened, of a time that can't be set, or
    /// lack of memory; [`ErrorKind::InvalidData`] is of a time that the system does not have, such as
    /// one before 1970. The time is then as it was.
    pub fn touch<R: Files + AllocGlobal>(
        &self,
        rt: &R,
        kind: Kind,
        key: &str,
        now: Timestamp,
    ) -> io::Result<()>
        ensures { now.seconds <ℤ pos 0 → IsErr result }
    {
        let Some(time) = system_time(now) else {
            return Err(io::Error::from(ErrorKind::InvalidData));
        };
        let path = self.path_of(rt, kind, key)?;
        let used = modified(&fs::metadata(rt, path.as_str())?);
        if used.is_some_and(|used| !is_day_old(used, now)) {
            return Ok(());
        }
        let mut options = OpenOptions::new();
        options.write(true);
        let file = options.open(rt, path.as_str())?;
        file.set_times(FileTimes::new().set_modified(time))
    }

    /// Counts an event of this name: a byte is appended to the file `counts/NAME`.
    ///
    /// The error is of a directory or a file that can't be made, opened or written, or lack of memory.
    /// The event is then not counted.
    pub fn count<R: Files + AllocGlobal>(&self, rt: &R, name: &str) -> io::Result<()> {
        let counts = path_in(rt.alloc(), self.directory.as_str(), "counts")?;
        let path = path_in(rt.alloc(), counts.as_str(), name)?;
        let mut options = OpenOptions::new();
        options.append(true).create(true);
        let mut file = match options.open(rt, path.as_str()) {
            Err(error) if error.kind() == ErrorKind::NotFound => {
                fs::create_dir_all(rt, counts.as_str())?;
                options.open(rt, path.as_str())?
            }
            outcome => outcome?,
        };
        file.write_all(b".")
    }
}
