//! The programs of a compiler, as a store keeps them.
//!
//! Which programs a compiler runs and what they load is asked of the compiler once, by the wrapper, and
//! kept in a list. Its lines are the path of the compiler, that of the assembler, `PATH`,
//! `LD_LIBRARY_PATH` and `LD_PRELOAD`, which say for which calls it counts; the path to which the compiler's
//! leads, all links followed; the paths on which the rest depends, with colons between them: that path, the
//! programs, the directories in which the compiler looks for programs and a file of specs, and the system's lists of
//! libraries; the programs; and what the system said of each of these paths, in a line. A store may come from
//! another machine: there these lines are others.
ghost use Rattle.std.specs.Prelude.{◌≡◌, ◌++◌, ◌↔◌, ◌⊎◌, IfOk, IsTrue, List, MatchOption, map, string_bytes, ℕ};
ghost use Rattle.std.specs.Option.{option_map};
ghost use Rattle.cck_cache_files.specs.Programs.{AreKept, ArePlaces, IsContext, IsKeptLine, IsLastPart, IsLine, IsListPath, IsListRead, StartsLine, absolute, may_execute, place_in};

use crate::compiler::line_of;
use crate::path_in::path_in;
use crate::times::{changed, changed_before, modified};
use cck_path::Timestamp;
use std::alloc::{AllocError, Global};
use std::fs;
use std::fs::Metadata;
use std::io::ErrorKind;
use std::os::unix::fs::MetadataExt;
use std::rt::Files;

// The program that compilers call as assembler.
const ASSEMBLER: &str = "as";

// What a list has in place of the programs of a compiler that is not known.
const UNKNOWN: &str = "-";

// The bits of a file's mode with which all, its owner, its group and others may execute it.
const ALL_EXECUTE: u32 = 0o111;

const OWNER_EXECUTES: u32 = 0o100;

const GROUP_EXECUTES: u32 = 0o010;

const OTHERS_EXECUTE: u32 = 0o001;

/// The variables by which programs and their libraries are found.
pub struct SearchVariables {
    /// `PATH`.
    pub path: String,
    /// `LD_LIBRARY_PATH`, which is empty if it is not set.
    pub library_path: String,
    /// `LD_PRELOAD`, which is empty if it is not set.
    pub preload: String,
}

impl Drop for SearchVariables {
    fn drop(self) {
        let SearchVariables {
            path: _,
            library_path: _,
            preload: _,
        } = self;
    }
}

/// What a store keeps of the programs of a compiler.
#[derive(Drop)]
pub enum KeptPrograms {
    /// Nothing that counts for the call.
    Nothing,
    /// That the compiler is not known.
    UnknownCompiler,
    /// The paths of the programs that it runs and of what they load, with colons between them.
    Paths(String),
}

// What was found of a program.
#[derive(Drop)]
enum Located {
    // Its path.
    At(String),
    // It is at none of its places.
    Nowhere,
    // It may be at a place before all at which it is.
    Doubtful,
}

// What a list says of a compiler.
#[derive(Clone, Copy)]
struct Listed<'a> {
    // The file that the compiler is.
    file: &'a str,
    // The paths on which the list depends, with colons between them.
    paths: &'a str,
    // The programs.
    programs: &'a str,
    // What the system said of the paths.
    statuses: &'a str,
}

// A path that is relative to a directory.
fn absolute(alloc: Global, directory: &str, path: &str) -> Result<String, AllocError>
    ensures { IfOk result (λ text. string_bytes text ≡ absolute directory.now path.now) }
{
    if path.starts_with('/') {
        String::from_str(alloc, path)
    } else {
        path_in(alloc, directory, path)
    }
}

// The path of a name in an element of `PATH`. An empty element is the working directory.
fn place_in(alloc: Global, element: &str, name: &str) -> Result<String, AllocError>
    ensures { IfOk result (λ text. string_bytes text ≡ place_in element.now name.now) }
{
    if element.is_empty() {
        path_in(alloc, ".", name)
    } else {
        path_in(alloc, element, name)
    }
}

// The paths at which a shell looks for a program of this name, from this working directory and with this
// `PATH`: that of a name with a slash is the name.
fn places_of(
    alloc: Global,
    directory: &str,
    path: &str,
    name: &str,
) -> Result<Vec<String>, AllocError>
    ensures { IfOk result (λ places.
        ArePlaces directory.now path.now name.now (map string_bytes places.items)) }
{
    let mut places = Vec::new(alloc);
    if name.contains('/') {
        places.push(absolute(alloc, directory, name)?)?;
        return Ok(places);
    }
    for element in path.split(':') {
        let place = place_in(alloc, element, name)?;
        places.push(absolute(alloc, directory, place.as_str())?)?;
    }
    Ok(places)
}

// Whether a user may execute a file of this mode: root if one may, the owner if the owner may, and another
// user if both the group and others may. `None` for another user if one of these two may.
fn may_execute(mode: u32, is_root: bool, is_owner: bool) -> Option<bool>
    ensures { result ≡ may_execute mode is_root is_owner }
{
    if is_root {
        return Some(mode & ALL_EXECUTE != 0);
    }
    if is_owner {
        return Some(mode & OWNER_EXECUTES != 0);
    }
    let group = mode & GROUP_EXECUTES != 0;
    let others = mode & OTHERS_EXECUTE != 0;
    if group == others { Some(others) } else { None }
}

// Whether a text has no line feed.
fn is_line(text: &str) -> bool
    ensures { IsTrue result ↔ IsLine text.now }
{
    !text.contains('\n')
}

// The lines of a list that say for which calls it counts. `None` where one of them has a line feed.
fn context_text(
    alloc: Global,
    compiler: &str,
    assembler: &str,
    variables: &SearchVariables,
) -> Result<Option<String>, AllocError>
    ensures { IfOk result (λ text.
        IsContext compiler.now assembler.now variables.now (option_map string_bytes text)) }
{
    let path = variables.path.as_str();
    let library_path = variables.library_path.as_str();
    let preload = variables.preload.as_str();
    if !is_line(compiler) || !is_line(assembler) {
        return Ok(None);
    }
    if !is_line(path) || !is_line(library_path) || !is_line(preload) {
        return Ok(None);
    }
    let text = format!(in alloc; "{compiler}\n{assembler}\n{path}\n{library_path}\n{preload}\n")?;
    Ok(Some(text))
}

// A path after its last slash.
fn last_part(path: &str) -> &str
    ensures { IsLastPart path.now result.now }
{
    match path.rsplit_once('/') {
        Some((_, name)) => name,
        None => path,
    }
}

// The path of the list of a compiler that is called by this name, in a store, whose first lines have this
// length.
fn list_path(
    alloc: Global,
    store: &str,
    compiler: &str,
    length: usize,
) -> Result<String, AllocError>
    ensures { IfOk result (λ path. IsListPath store.now compiler.now length (string_bytes path)) }
{
    let name = last_part(compiler);
    Ok(format!(in alloc; "{store}/compilers/{name}-{length}")?)
}

// The first line of a text, and what follows its line feed.
fn first_line(text: &str) -> Option<(&str, &str)>
    ensures { MatchOption result ((line rest : List ℕ) → StartsLine text.now line rest → ⊥)
        (λ parts. StartsLine text.now parts.0.now parts.1.now) }
{
    text.split_once('\n')
}

// What a list with this text says, if its first lines are these.
fn read_list<'a>(context: &str, text: &'a str) -> Option<Listed<'a>>
    ensures { IsListRead context.now text.now result }
{
    let rest = text.strip_prefix(context)?;
    let (file, rest) = first_line(rest)?;
    let (paths, rest) = first_line(rest)?;
    let (programs, statuses) = first_line(rest)?;
    Some(Listed {
        file,
        paths,
        programs,
        statuses,
    })
}

// Whether the process may execute a file. `None` where that can't be known.
fn is_executable<R: Files>(rt: &R, found: &Metadata) -> Option<bool> {
    let mode = found.mode();
    let bits = mode & ALL_EXECUTE;
    if bits == 0 || bits == ALL_EXECUTE {
        return Some(bits == ALL_EXECUTE);
    }
    let user = fs::metadata(rt, "/proc/self").ok()?.uid();
    may_execute(mode, user == 0, user == found.uid())
}

// Whether a compiler looks for a program at the next place after this error. After another one, as where links go round in
// a circle, it ends, and a shell goes on.
fn is_passed_over(kind: ErrorKind) -> bool
    ensures { IsTrue result ↔ (kind ≡ ErrorKind.NotFound) ⊎ ((kind ≡ ErrorKind.NotADirectory) ⊎ (kind ≡ ErrorKind.PermissionDenied)) }
{
    matches!(
        kind,
        ErrorKind::NotFound | ErrorKind::NotADirectory | ErrorKind::PermissionDenied
    )
}

// Looks for a program of this name as a shell does.
fn locate<R: Files + AllocGlobal>(
    rt: &R,
    directory: &str,
    path: &str,
    name: &str,
) -> Result<Located, AllocError> {
    for place in places_of(rt.alloc(), directory, path, name)? {
        let found = match fs::metadata(rt, place.as_str()) {
            Ok(found) => found,
            Err(error) if is_passed_over(error.kind()) => continue,
            Err(_) => return Ok(Located::Doubtful),
        };
        if !found.is_file() {
            continue;
        }
        match is_executable(rt, &found) {
            Some(true) => return Ok(Located::At(place)),
            Some(false) => {}
            None => return Ok(Located::Doubtful),
        }
    }
    Ok(Located::Nowhere)
}

// Adds the line of what the system says of what is at a path, if there is something. Whether that is known, and
// last changed before this time, by both of its times: a program sets that of modification.
fn add_status<R: Files + AllocGlobal>(
    rt: &R,
    lines: &mut String,
    path: &str,
    since: Timestamp,
) -> Result<bool, AllocError>
    ensures { IfOk result (λ is_known. IsTrue is_known →
        (line : List ℕ) × IsKeptLine path.now line × (string_bytes lines.new ≡ string_bytes lines.old ++ line)) }
{
    let found = match fs::metadata(rt, path) {
        Ok(found) => found,
        Err(error) => return Ok(error.kind() == ErrorKind::NotFound),
    };
    if !changed_before(modified(&found), changed(&found), since) {
        return Ok(false);
    }
    let line = line_of(rt.alloc(), path, &found)?;
    lines.push_str(line.as_str())?;
    Ok(true)
}

// Whether the system says this of what is at these paths, with colons between them, and all that is there last changed
// before this time.
fn are_kept<R: Files + AllocGlobal>(
    rt: &R,
    paths: &str,
    statuses: &str,
    since: Timestamp,
) -> Result<bool, AllocError>
    ensures { IfOk result (λ are. IsTrue are → AreKept paths.now statuses.now) }
{
    let mut lines = String::new(rt.alloc());
    for path in paths.split(':') {
        if !add_status(rt, &mut lines, path, since)? {
            return Ok(false);
        }
    }
    Ok(lines.as_str() == statuses)
}

// Whether a path leads to this one, all links followed. A compiler looks for its programs and headers from there: one
// file may be the compiler of two installations.
fn leads_to<R: Files + AllocGlobal>(rt: &R, path: &str, file: &str) -> bool {
    match fs::canonicalize(rt, path) {
        Ok(found) => found.as_str() == file,
        Err(_) => false,
    }
}

// What the list at a path keeps, if its first lines are these and it still holds for the compiler at a path.
// Its time is taken before it is read, so that what is read is not older than that.
fn kept_in<R: Files + AllocGlobal>(
    rt: &R,
    path: &str,
    context: &str,
    compiler: &str,
) -> Result<KeptPrograms, AllocError> {
    let Some(since) = fs::metadata(rt, path).ok().and_then(|list| modified(&list)) else {
        return Ok(KeptPrograms::Nothing);
    };
    let Ok(bytes) = fs::read(rt, path) else {
        return Ok(KeptPrograms::Nothing);
    };
    let Ok(text) = std::str::from_utf8(&bytes) else {
        return Ok(KeptPrograms::Nothing);
    };
    let Some(listed) = read_list(context, text) else {
        return Ok(KeptPrograms::Nothing);
    };
    if !leads_to(rt, compiler, listed.file) {
        return Ok(KeptPrograms::Nothing);
    }
    if !are_kept(rt, listed.paths, listed.statuses, since)? {
        return Ok(KeptPrograms::Nothing);
    }
    match listed.programs {
        "" => Ok(KeptPrograms::Nothing),
        UNKNOWN => Ok(KeptPrograms::UnknownCompiler),
        programs => Ok(KeptPrograms::Paths(String::from_str(rt.alloc(), programs)?)),
    }
}

/// What a store keeps of the programs of a compiler, which is called by this name in this working
/// directory and with these variables. What is kept counts only if it was kept for the same compiler, the
/// same assembler and the same variables, and the compiler's path still leads to the same one; and only if the
/// system says of what is there, of the programs, of each directory in which it looks for them, and of the lists of
/// libraries what it said then, and none of them changed since then.
///
/// The only error is lack of memory.
pub fn kept_programs<R: Files + AllocGlobal>(
    rt: &R,
    store: &str,
    directory: &str,
    compiler: &str,
    variables: &SearchVariables,
) -> Result<KeptPrograms, AllocError> {
    let alloc = rt.alloc();
    let path = variables.path.as_str();
    let Located::At(located) = locate(rt, directory, path, compiler)? else {
        return Ok(KeptPrograms::Nothing);
    };
    let assembler = match locate(rt, directory, path, ASSEMBLER)? {
        Located::At(assembler) => assembler,
        Located::Nowhere => String::new(alloc),
        Located::Doubtful => return Ok(KeptPrograms::Nothing),
    };
    let (located, assembler) = (located.as_str(), assembler.as_str());
    let Some(context) = context_text(alloc, located, assembler, variables)? else {
        return Ok(KeptPrograms::Nothing);
    };
    let list = list_path(alloc, store, compiler, context.len())?;
    kept_in(rt, list.as_str(), context.as_str(), located)
}
