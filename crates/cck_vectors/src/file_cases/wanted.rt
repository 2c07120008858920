//! What lines give to calls on files and entries, beside what the library of cases reads.
use crate::cases::{CaseError, bytes_of, find, number, optional_moment_of, words_of, zone_of};
use cck_util::Timestamp;
use jiff::tz::TimeZone;
use std::alloc::Global;

#[derive(Clone, Copy)]
enum Word {
    Paths,
    Offset,
    Room,
    Shows,
    Modified,
    Zone,
    ZoneRule,
    Include,
    Includes,
    NoIncludes,
    Passing,
    PreprocessorArgs,
    ArchArgs,
    Cwd,
}

const WORDS: [(&str, Word); 14] = [
    ("paths", Word::Paths),
    ("offset", Word::Offset),
    ("room", Word::Room),
    ("shows", Word::Shows),
    ("modified", Word::Modified),
    ("zone", Word::Zone),
    ("zone_rule", Word::ZoneRule),
    ("include", Word::Include),
    ("includes", Word::Includes),
    ("no_includes", Word::NoIncludes),
    ("passing", Word::Passing),
    ("preprocessor_args", Word::PreprocessorArgs),
    ("arch_args", Word::ArchArgs),
    ("cwd", Word::Cwd),
];

/// What lines give to calls on files and entries.
pub(crate) struct Wanted {
    alloc: Global,
    /// `paths LIST`: several paths. None at first.
    pub(crate) paths: Vec<Vec<u8>>,
    /// `offset N`: where a read begins. 0 at first.
    pub(crate) offset: u64,
    /// `room N`: how many bytes a read fills. 0 at first.
    pub(crate) buffer: Vec<u8>,
    /// `shows date`, `shows timestamp` and `shows date timestamp`: the macros that a text holds.
    /// None at first.
    pub(crate) shows_date: bool,
    /// Whether a text holds `__TIMESTAMP__`.
    pub(crate) shows_timestamp: bool,
    /// `modified NANOSECONDS`, or `modified -`: the time of a file's last modification. None at
    /// first.
    pub(crate) modified: Option<Timestamp>,
    /// `zone SECONDS`: this many seconds east of Greenwich, or `zone_rule TEXT`: by a rule of POSIX.
    /// UTC at first.
    pub(crate) zone: TimeZone<'static>,
    /// `include PATH DIGEST`, `includes N PATH DIGEST` for the same N times, and `no_includes`:
    /// recorded digests and paths of included files. None at first.
    pub(crate) included: Vec<(String, Vec<u8>)>,
    /// `passing N`: how many writes pass before one fails. 0 at first.
    pub(crate) passing: u64,
    /// `preprocessor_args LIST`: the arguments of a preprocessor. None at first.
    pub(crate) preprocessor_args: Vec<Vec<u8>>,
    /// `arch_args LIST`: the arguments of architectures. None at first.
    pub(crate) arch_args: Vec<Vec<u8>>,
    /// `cwd TEXT`: the working directory. Empty at first.
    pub(crate) cwd: Vec<u8>,
}

impl Drop for Wanted {
    fn drop(self) {
        let Wanted {
            alloc: _,
            paths: _,
            offset: _,
            buffer: _,
            shows_date: _,
            shows_timestamp: _,
            modified: _,
            zone: _,
            included: _,
            passing: _,
            preprocessor_args: _,
            arch_args: _,
            cwd: _,
        } = self;
    }
}

impl Wanted {
    /// Returns the state in which nothing is given.
    pub(crate) fn new(alloc: Global) -> Wanted {
        Wanted {
            alloc,
            paths: Vec::new(alloc),
            offset: 0,
            buffer: Vec::new(alloc),
            shows_date: false,
            shows_timestamp: false,
            modified: None,
            zone: TimeZone::UTC,
            included: Vec::new(alloc),
            passing: 0,
            preprocessor_args: Vec::new(alloc),
            arch_args: Vec::new(alloc),
            cwd: Vec::new(alloc),
        }
    }

    /// Takes what a line gives, and returns whether it knows the line's word.
    pub(crate) fn give(&mut self, name: &str, rest: &str) -> Result<bool, CaseError> {
        let Some(word) = find(&WORDS, name) else {
            return Ok(false);
        };
        match word {
            Word::Paths => self.paths = words_of(self.alloc, rest)?,
            Word::Offset => self.offset = number(rest)?,
            Word::Room => self.make_room(number(rest)?)?,
            Word::Shows => self.set_shown(rest)?,
            Word::Modified => self.modified = optional_moment_of(rest)?,
            Word::Zone => self.zone = zone_of(number(rest)?)?,
            Word::ZoneRule => self.zone = rule_zone(rest)?,
            Word::Include => self.include(1, rest)?,
            Word::Includes => self.include_often(rest)?,
            Word::NoIncludes => self.included.clear(),
            Word::Passing => self.passing = number(rest)?,
            Word::PreprocessorArgs => self.preprocessor_args = words_of(self.alloc, rest)?,
            Word::ArchArgs => self.arch_args = words_of(self.alloc, rest)?,
            Word::Cwd => self.cwd = bytes_of(self.alloc, rest)?,
        }
        Ok(true)
    }

    fn make_room(&mut self, count: usize) -> Result<(), CaseError> {
        self.buffer.clear();
        for _ in 0..count {
            self.buffer.push(0)?;
        }
        Ok(())
    }

    fn set_shown(&mut self, names: &str) -> Result<(), CaseError> {
        self.shows_date = false;
        self.shows_timestamp = false;
        for name in names.split_whitespace() {
            match name {
                "date" => self.shows_date = true,
                "timestamp" => self.shows_timestamp = true,
                _ => return Err(CaseError::Line),
            }
        }
        Ok(())
    }

    fn include_often(&mut self, rest: &str) -> Result<(), CaseError> {
        let (count, rest) = rest.split_once(' ').ok_or(CaseError::Line)?;
        self.include(number(count)?, rest)
    }

    fn include(&mut self, count: usize, rest: &str) -> Result<(), CaseError> {
        let (path, digest) = rest.split_once(' ').unwrap_or((rest, ""));
        for _ in 0..count {
            let digest = String::from_str(self.alloc, digest)?;
            self.included.push((digest, bytes_of(self.alloc, path)?))?;
        }
        Ok(())
    }
}

// The zone of a rule as POSIX writes it.
fn rule_zone(text: &str) -> Result<TimeZone<'static>, CaseError> {
    match TimeZone::posix(text) {
        Ok(zone) => Ok(zone),
        Err(_) => Err(CaseError::Line),
    }
}
