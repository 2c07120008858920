//! What lines give for calls on files: the files, the call time, the zone and the options.
use crate::cases::case_error::CaseError;
use crate::cases::table::find;
use crate::cases::text::{bytes_of, moment_of, number, optional_moment_of, parts_of};
use cck_include::PreprocessorCacheModeConfig;
use cck_util::{FileKind, MapFiles, Node, Timestamp};
use std::alloc::Global;

#[derive(Clone, Copy)]
enum Word {
    File,
    Folder,
    Other,
    Link,
    Gone,
    FailAt,
    FailAfter,
    Moment,
    Zone,
    Option,
}

const WORDS: [(&str, Word); 10] = [
    ("file", Word::File),
    ("dir", Word::Folder),
    ("other", Word::Other),
    ("link", Word::Link),
    ("gone", Word::Gone),
    ("fail_at", Word::FailAt),
    ("fail_after", Word::FailAfter),
    ("moment", Word::Moment),
    ("zone", Word::Zone),
    ("option", Word::Option),
];

/// What lines give for calls on files.
pub(crate) struct GivenFiles {
    /// The allocator of all that is given.
    pub(crate) alloc: Global,
    /// `file PATH MODIFIED CHANGED TEXT`, `dir PATH`, `other PATH`, `link PATH TARGET`, `gone PATH`,
    /// `fail_at N` and `fail_after N`: the files, which are in memory. None at first. Times are
    /// nanoseconds since 1970, or `-` for none; directories and others have none.
    pub(crate) files: MapFiles,
    /// `moment NANOSECONDS`: the call time. 100 seconds after the start of 1970 at first.
    pub(crate) moment: Timestamp,
    /// `zone SECONDS`: the offset of local time, in seconds east of UTC. 0 at first.
    pub(crate) zone: i32,
    /// `option NAME on` and `option NAME off`: the options. Those of
    /// [`activated`](PreprocessorCacheModeConfig::activated) at first.
    pub(crate) config: PreprocessorCacheModeConfig,
}

impl Drop for GivenFiles {
    fn drop(self) {
        let GivenFiles {
            alloc: _,
            files: _,
            moment: _,
            zone: _,
            config: _,
        } = self;
    }
}

// The regular file of the text `MODIFIED CHANGED TEXT`.
fn file_of(alloc: Global, rest: &str) -> Result<Node, CaseError> {
    let (modified, rest) = parts_of(rest)?;
    let (changed, text) = rest.split_once(' ').unwrap_or((rest, ""));
    let (modified, changed) = (optional_moment_of(modified)?, optional_moment_of(changed)?);
    Ok(Node {
        kind: FileKind::File,
        contents: bytes_of(alloc, text)?,
        modified,
        changed,
    })
}

impl GivenFiles {
    /// Returns the state in which nothing is given.
    pub(crate) fn new(alloc: Global) -> GivenFiles {
        GivenFiles {
            alloc,
            files: MapFiles::new(alloc),
            moment: Timestamp::new(100, 0),
            zone: 0,
            config: PreprocessorCacheModeConfig::activated(),
        }
    }

    /// Applies a line, and returns whether its word is known here.
    pub(crate) fn give(&mut self, name: &str, rest: &str) -> Result<bool, CaseError> {
        let Some(word) = find(&WORDS, name) else {
            return Ok(false);
        };
        match word {
            Word::File => self.put_file(rest)?,
            Word::Folder => self.put(rest, FileKind::Folder)?,
            Word::Other => self.put(rest, FileKind::Other)?,
            Word::Link => self.link(rest)?,
            Word::Gone => self.remove(rest)?,
            Word::FailAt => self.fail_at(number(rest)?),
            Word::FailAfter => self.fail_after(number(rest)?),
            Word::Moment => self.moment = moment_of(rest)?,
            Word::Zone => self.zone = number(rest)?,
            Word::Option => self.set_option(rest)?,
        }
        Ok(true)
    }

    fn put_file(&mut self, rest: &str) -> Result<(), CaseError> {
        let (path, rest) = parts_of(rest)?;
        let node = file_of(self.alloc, rest)?;
        self.files.put(&bytes_of(self.alloc, path)?, node)?;
        Ok(())
    }

    fn put(&mut self, path: &str, kind: FileKind) -> Result<(), CaseError> {
        let node = Node {
            kind,
            contents: Vec::new(self.alloc),
            modified: None,
            changed: None,
        };
        self.files.put(&bytes_of(self.alloc, path)?, node)?;
        Ok(())
    }

    fn remove(&mut self, path: &str) -> Result<(), CaseError> {
        self.files.remove(&bytes_of(self.alloc, path)?);
        Ok(())
    }

    fn fail_at(&mut self, call: u64) {
        self.files.fail_at(call);
    }

    fn fail_after(&mut self, call: u64) {
        self.files.fail_after(call);
    }

    fn link(&mut self, rest: &str) -> Result<(), CaseError> {
        let (path, target) = parts_of(rest)?;
        let path = bytes_of(self.alloc, path)?;
        self.files.link(&path, &bytes_of(self.alloc, target)?)?;
        Ok(())
    }

    fn set_option(&mut self, rest: &str) -> Result<(), CaseError> {
        let (name, state) = parts_of(rest)?;
        let is_on = match state {
            "on" => true,
            "off" => false,
            _ => return Err(CaseError::Line),
        };
        match name {
            "use_preprocessor_cache_mode" => self.config.use_preprocessor_cache_mode = is_on,
            "file_stat_matches" => self.config.file_stat_matches = is_on,
            "use_ctime_for_stat" => self.config.use_ctime_for_stat = is_on,
            "ignore_time_macros" => self.config.ignore_time_macros = is_on,
            "skip_system_headers" => self.config.skip_system_headers = is_on,
            "hash_working_directory" => self.config.hash_working_directory = is_on,
            _ => return Err(CaseError::Line),
        }
        Ok(())
    }
}
