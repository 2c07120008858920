//! The call of a compiler that words have.
ghost use Rattle.std.specs.Prelude.{MatchOption};
ghost use Rattle.clap.specs.Matches.{found_of};
ghost use Rattle.cck_cache_options.specs.Programs.{HasNoPrograms, HasPrograms};

use clap::ArgMatches;
use std::alloc::{AllocError, Global};

/// What words say of the programs that a compiler runs.
#[derive(Clone, Copy)]
pub enum Programs<'a> {
    /// Their paths, with colons between them.
    Paths(&'a str),
    /// The compiler, as it is called: they are those that a store keeps of it.
    Driver(&'a str),
}

/// A call of a compiler: what the words of the command line say of it.
pub struct CompilerCall<'a> {
    /// The programs that the compiler runs.
    pub programs: Programs<'a>,
    /// The working directory.
    pub directory: &'a str,
    /// The compiler's arguments, as they came.
    pub arguments: Vec<Vec<u8>>,
    /// The store directory that keeps the digests of the programs' contents, if the programs count
    /// by their contents.
    pub digests: Option<&'a str>,
    /// The base directory, if objects are shared between checkouts.
    pub base: Option<&'a str>,
}

impl Drop for CompilerCall<'_> {
    fn drop(self) {
        let CompilerCall {
            programs: _,
            directory: _,
            arguments: _,
            digests: _,
            base: _,
        } = self;
    }
}

// The bytes of each argument of the compiler.
fn arguments_of(alloc: Global, matches: &ArgMatches<'_>) -> Result<Vec<Vec<u8>>, AllocError> {
    let mut all = Vec::new(alloc);
    if let Some(values) = matches.get_strs("ARG") {
        for value in values {
            all.push(value.as_bytes().to_vec(alloc)?)?;
        }
    }
    Ok(all)
}

// The programs in the words of a command. `None` where they have none.
fn programs_of<'a>(matches: &ArgMatches<'a>) -> Option<Programs<'a>>
    ensures { MatchOption result (HasNoPrograms (found_of matches.now))
        (HasPrograms (found_of matches.now)) }
{
    if let Some(paths) = matches.get_str("compiler") {
        return Some(Programs::Paths(paths));
    }
    let driver = matches.get_str("driver")?;
    Some(Programs::Driver(driver))
}

/// The call of a compiler in the words of a command. `None` where one of its words is missing, which
/// `clap` does not let pass.
///
/// The error is lack of memory.
pub(crate) fn call_of<'a>(
    alloc: Global,
    matches: &ArgMatches<'a>,
) -> Result<Option<CompilerCall<'a>>, AllocError> {
    let (Some(programs), Some(directory)) = (programs_of(matches), matches.get_str("directory"))
    else {
        return Ok(None);
    };
    Ok(Some(CompilerCall {
        programs,
        directory,
        arguments: arguments_of(alloc, matches)?,
        digests: matches.get_str("digests"),
        base: matches.get_str("base"),
    }))
}
