//! Records a compilation in the store.
ghost use Rattle.std.specs.Prelude.{◌≡◌, ◌++◌, ◌||◌, ◌↔◌, IfOk, IfSome, IsTrue, List, MatchOption, OnOk, Some};
ghost use Rattle.std.specs.Option.{option_map, option_or};
ghost use Rattle.cck_cache.specs.Input.{IsCalm};
ghost use Rattle.cck_cache.specs.Record.{HasNoLocalTime, Holds, IsEntryOf, IsEntryVerdict, IsInputVerdict, IsJudgedByReading, IsJudgedByRules, IsKept, IsLocalTime, IsOneDay, IsOutcome, IsOutcomeOver, IsRefusedByBase, IsSeen, IsSeenBySome, IsSeenWith, ObjectShowsBase, recorded_fields, renames_headers};
ghost use Rattle.cck_cache_files.specs.PathStatuses.{AreStatusesBefore};
ghost use Rattle.cck_cache_rules.specs.PathStatus.{Status, statuses_of};
ghost use Rattle.cck_cache_rules.specs.Files.{entry_fields};
ghost use Rattle.cck_cache_rules.specs.PathTest.{tests_of};
ghost use Rattle.cck_cache_rules.specs.declared.refusal.Refusal.TheVariants.{BaseDirectory};
ghost use Rattle.cck_cache_text.specs.ReadFiles.{IsOpenedRule};
ghost use Rattle.cck_files.specs.Calls.{Keeps};
ghost use Rattle.cck_files.specs.FileState.{IsQuiet, fault_count};
ghost use Rattle.cck_path.specs.Bytes.{lists_of};
ghost use Rattle.jiff.specs.Words.{plain_zone};

use crate::entry_place::place_for;
use crate::environment::Environment;
use crate::input::input_snapshot;
use crate::naming::name_in;
use crate::request::{base_words, hasher_of, is_clang, snapshot_request};
use anyhow::Result;
use c_cache_keys::{
    PreprocessorKey, RecordedEntry, Recording, SnapshotRequest, preprocessor_key, record_text,
};
use cck_cache_files::{
    Absence, Kind, PathStates, Preprocessed, Request, StoreDirectory, Tested, TextStatuses,
    Unnamed, absence_of, add_directory_statuses, add_named_files, all_tests, compared_paths,
    entry_name, is_working_directory, links_of, may_have_copies, tested_by, text_statuses,
    unnamed_by,
};
use cck_cache_options::{Compilation, Made};
use cck_cache_rules::{
    EntryFile, Known, ObjectFile, PathStatus, PathTest, Refusal, bases_of, refusal_of, shows_base,
};
use cck_cache_text::{MarkedText, assembles_alone, opens_named_alone};
use cck_digest::UtilError;
use cck_files::MapFiles;
use cck_path::Timestamp;
use cck_util::Sha256State;
use jiff::civil::DateTime;
use jiff::tz::TimeZone;
use std::alloc::{AllocError, Global};
use std::io::ErrorKind;
use std::rt::Files;
use std::{fs, io};

/// The outcome of a recording.
#[derive(Drop)]
pub enum Outcome {
    /// The object of this name was recorded.
    Recorded(String),
    /// Nothing was recorded.
    Refused(Refusal),
}

// The civil time at a time in a zone. `None` where there is none.
fn local_time(zone: &TimeZone<'_>, time: Timestamp) -> Option<DateTime>
    ensures { MatchOption result (HasNoLocalTime time.seconds)
        (IsLocalTime (plain_zone zone.now) time.seconds) }
{
    let Ok(instant) = jiff::Timestamp::from_second(time.seconds()) else {
        return None;
    };
    Some(zone.to_datetime(instant))
}

// Whether two times are of one local day. `false` where that is not known.
fn is_one_day(zone: &TimeZone<'_>, a: Timestamp, b: Timestamp) -> bool
    ensures { IsOneDay (plain_zone zone.now) a.seconds b.seconds result }
{
    let Some(a) = local_time(zone, a) else {
        return false;
    };
    let Some(b) = local_time(zone, b) else {
        return false;
    };
    a.date() == b.date()
}

// The files that were gathered for a text.
#[derive(Drop)]
struct Gathered {
    // The input and the files that the text names.
    files: MapFiles,
    // What the system says of the files.
    statuses: Vec<PathStatus>,
    // Whether a name that was left out has the path of one of the files, or the way to one is in doubt.
    is_doubtful: bool,
    // The tests of paths that must hold.
    tests: Vec<PathTest>,
}

// What a recording looks at.
enum Seen {
    // The files of the text.
    Files(Gathered),
    // The compilation is not recorded.
    Refused(Refusal),
}

// What the system says of the input and of the files that a text names. The paths are in doubt where that of the directory is no
// longer that of the working directory.
fn statuses_by<R: Files + AllocGlobal>(
    rt: &R,
    preprocessed: &Preprocessed<'_>,
) -> Result<TextStatuses, UtilError>
    ensures { IfOk result (λ found.
        AreStatusesBefore preprocessed.now.since (statuses_of found.statuses.items)) }
{
    let (request, text) = (preprocessed.request, preprocessed.text);
    let directory = request.directory.as_bytes();
    let paths = compared_paths(rt.alloc(), directory, request.input.as_bytes(), text)?;
    let mut found = text_statuses(rt, preprocessed.since, &paths)?;
    if !is_working_directory(rt, request.directory) {
        found.is_doubtful = true;
    }
    Ok(found)
}

// What was gathered: these files, what was found of their paths, whether a name is in doubt, and the tests.
fn gathered_of(
    files: MapFiles,
    found: TextStatuses,
    is_doubtful: bool,
    tests: Vec<PathTest>,
) -> Gathered
    ensures files { result.files ≡ files }
    ensures statuses { result.statuses ≡ found.statuses }
    ensures doubtful { result.is_doubtful ≡ (is_doubtful || found.is_doubtful) }
    ensures tests { result.tests ≡ tests }
{
    Gathered {
        files,
        statuses: found.statuses,
        is_doubtful: is_doubtful || found.is_doubtful,
        tests,
    }
}

// What was gathered over these files, with these tests, and after them those of the links to directories in which nothing was
// found. The compilation is not recorded where it is not known where one leads.
fn seen_with<R: Files + AllocGlobal>(
    rt: &R,
    preprocessed: &Preprocessed<'_>,
    files: MapFiles,
    is_doubtful: bool,
    tests: Vec<PathTest>,
) -> Result<Seen>
    ensures { IfOk result (IsSeenWith preprocessed.now.renames files (tests_of tests.items)) }
{
    let Some(links) = links_of(rt, &tests, preprocessed.renames)? else {
        return Ok(Seen::Refused(Refusal::NamedFile));
    };
    let found = statuses_by(rt, preprocessed)?;
    let tests = all_tests(tests, links)?;
    Ok(Seen::Files(gathered_of(files, found, is_doubtful, tests)))
}

// Reads the input and the files that a text names, and lists the tests of paths that must hold; or finds
// why the compilation is not recorded.
fn see_by<R: Files + AllocGlobal>(rt: &R, preprocessed: &Preprocessed<'_>) -> Result<Seen>
    ensures { preprocessed.now.renames ≡ renames_headers preprocessed.now.request.now
        → IfOk result (IsSeen preprocessed.now.request.now preprocessed.now.since
        preprocessed.now.printed.now preprocessed.now.text.now) }
{
    let (request, text) = (preprocessed.request, preprocessed.text);
    let mut files = input_snapshot(rt, request)?;
    let mut states = PathStates::new(rt, preprocessed.since);
    let tests = match absence_of(rt, &mut states, preprocessed)? {
        Absence::Refused(refusal) => return Ok(Seen::Refused(refusal)),
        Absence::Tests(tests) => tests,
    };
    let cwd = request.directory.as_bytes();
    let is_doubtful = add_named_files(rt, &mut files, &mut states, cwd, text.bytes())?;
    let mut asked = PathStates::new(rt, preprocessed.since);
    let tested = tested_by(rt, &mut files, &mut asked, preprocessed)?;
    let asked_tests = match tested {
        Tested::Refused(cause) => return Ok(Seen::Refused(cause)),
        Tested::Tests(asked_tests) => asked_tests,
    };
    if may_have_copies(rt.alloc(), &mut files, preprocessed)? {
        return Ok(Seen::Refused(Refusal::OtherFile));
    }
    let others = unnamed_by(rt, &mut files, &mut states, preprocessed, &asked_tests)?;
    match others {
        Unnamed::Refused(cause) => Ok(Seen::Refused(cause)),
        Unnamed::Tests(unnamed_tests) => {
            let tests = all_tests(all_tests(tests, asked_tests)?, unnamed_tests)?;
            seen_with(rt, preprocessed, files, is_doubtful, tests)
        }
    }
}

// The same by what the compiler printed of its directories.
fn see<R: Files + AllocGlobal>(
    rt: &R,
    request: &Request<'_>,
    compilation: &Compilation<'_>,
    text: &MarkedText<'_>,
) -> Result<Seen>
    ensures { IfOk result (IsSeenBySome request.now compilation.now.since text.now) }
{
    let printed = fs::read(rt, compilation.search)?;
    let preprocessed = Preprocessed {
        request,
        since: compilation.since,
        text,
        printed: &printed,
        renames: !is_clang(request.compiler.as_str()),
    };
    see_by(rt, &preprocessed)
}

// The contents of the file at this path, and nothing where no path is given or no file is there.
fn read_if_there<R: Files + AllocGlobal>(rt: &R, path: Option<&str>) -> io::Result<Vec<u8>> {
    let Some(path) = path else {
        return Ok(Vec::new(rt.alloc()));
    };
    match fs::read(rt, path) {
        Err(error) if error.kind() == ErrorKind::NotFound => Ok(Vec::new(rt.alloc())),
        contents => contents,
    }
}

// The dependency files by which it is judged what the assembler and the compiler read.
#[derive(Drop)]
struct ReadRules {
    // That of the assembler. Nothing where there is none.
    assembled: Vec<u8>,
    // That of the compiler. `None` where no path of one is given, and nothing where none is there.
    opened: Option<Vec<u8>>,
}

// The path of the dependency file by which it is judged what a compiler opened: that of the list of these files, where
// there is one.
fn opened_path<'a>(made: &Made<'a>) -> Option<&'a str>
    ensures { result ≡ option_or made.now.opened made.now.dependencies }
{
    made.opened.or(made.dependencies)
}

// Reads the dependency files of what a compiler made.
fn read_rules<R: Files + AllocGlobal>(rt: &R, made: &Made<'_>) -> io::Result<ReadRules> {
    let assembled = read_if_there(rt, made.assembled)?;
    let path = opened_path(made);
    let opened = match path {
        Some(_) => Some(read_if_there(rt, path)?),
        None => None,
    };
    Ok(ReadRules { assembled, opened })
}

// Whether the compiler opened no file but those of a text, by its dependency file. `false` without one.
fn opens_text_alone(
    alloc: Global,
    text: &MarkedText<'_>,
    rule: Option<&[u8]>,
) -> Result<bool, AllocError>
    ensures { IfOk result (λ alone. IsTrue alone
        ↔ Holds (IsOpenedRule text.now) (option_map (λ r. r.now) rule.entry)) }
{
    match rule {
        Some(rule) => opens_named_alone(alloc, text, rule),
        None => Ok(false),
    }
}

// Why a compilation is not recorded by what the assembler and the compiler say that they read.
fn refusal_by_rules(
    alloc: Global,
    input: &str,
    text: &MarkedText<'_>,
    rules: &ReadRules,
) -> Result<Option<Refusal>, AllocError>
    ensures { IfOk result (IsJudgedByRules input.now text.now rules.now) }
{
    if !assembles_alone(alloc, input.as_bytes(), &rules.assembled)? {
        return Ok(Some(Refusal::AssemblerInclude));
    }
    if !opens_text_alone(alloc, text, rules.opened.as_deref())? {
        return Ok(Some(Refusal::OtherFile));
    }
    Ok(None)
}

// The same by the dependency files that were written. An entry that is recorded alone is of an object that
// is there.
fn refusal_by_reading<R: Files + AllocGlobal>(
    rt: &R,
    request: &Request<'_>,
    made: Option<&Made<'_>>,
    text: &MarkedText<'_>,
) -> Result<Option<Refusal>>
    ensures { IfOk result (IsJudgedByReading request.now text.now (option_map (λ m. m.now) made.entry)) }
{
    let Some(made) = made else {
        return Ok(None);
    };
    let rules = read_rules(rt, made)?;
    Ok(refusal_by_rules(rt.alloc(), request.input, text, &rules)?)
}

// What is known of a compilation by its input and its time alone. The borrow checker takes a field that
// holds a reference only at the lifetime of the struct.
fn known_of<'a>(found: Option<&'a str>, key: &'a str, is_one_day: bool) -> Known<'a>
    ensures found { option_map (λ k. k.now) result.found ≡ option_map (λ k. k.now) found.entry }
    ensures key { result.key.now ≡ key.now }
    ensures is_one_day { result.is_one_day ≡ is_one_day }
{
    Known {
        found,
        key,
        is_one_day,
    }
}

// What is known by the input and the time of a compilation alone.
enum InputVerdict {
    // The preprocessor key. Neither keeps the compilation from being recorded.
    Key(PreprocessorKey),
    // The compilation is not recorded.
    Refused(Refusal),
}

// The preprocessor key over the files that were gathered, or why the compilation is not recorded, by its
// input or its time alone.
fn judge_input<R: AllocGlobal>(
    rt: &R,
    environment: &Environment<'_>,
    asked: &SnapshotRequest<'_>,
    files: &mut MapFiles,
    key: &str,
) -> Result<InputVerdict>
    ensures judged { IfOk result
        (IsInputVerdict environment.entry.now asked.now files.old.files key.now) }
    ensures keeps { OnOk result
        (Keeps (λ files. files.files) fault_count IsQuiet files.old files.new) }
{
    let found = preprocessor_key::<Sha256State, MapFiles>(rt.alloc(), files, asked)?;
    let is_one_day = is_one_day(asked.zone, asked.moment, environment.now);
    let Some(own) = found else {
        return Ok(InputVerdict::Refused(Refusal::NoKey));
    };
    let text = own.text.as_str();
    match refusal_of(&known_of(Some(text), key, is_one_day)) {
        Some(refusal) => Ok(InputVerdict::Refused(refusal)),
        None => Ok(InputVerdict::Key(own)),
    }
}

// Writes the object file of this name, to the path that is given, or else to the store.
fn write_object<R: Files + AllocGlobal>(
    rt: &R,
    store: &StoreDirectory,
    compilation: &Compilation<'_>,
    object: &ObjectFile,
    name: &str,
) -> io::Result<()> {
    let bytes = object.write(rt.alloc())?;
    match compilation.object_out {
        Some(path) => store.replace(rt, path, &bytes),
        None => store.write(rt, Kind::Object, name, &bytes),
    }
}

// Writes the entry file, to the path that is given, or else to the store.
fn write_entry<R: Files + AllocGlobal>(
    rt: &R,
    store: &StoreDirectory,
    compilation: &Compilation<'_>,
    file: &EntryFile,
) -> io::Result<()> {
    let (alloc, key) = (rt.alloc(), compilation.key);
    let bytes = file.write(alloc)?;
    if let Some(path) = compilation.entry_out {
        return store.replace(rt, path, &bytes);
    }
    let place = place_for(rt, store, key, file)?;
    let name = entry_name(alloc, key, place)?;
    store.write(rt, Kind::Entry, name.as_str(), &bytes)
}

// Writes the object file, if the compiler made an object, and then the entry file.
fn write_files<R: Files + AllocGlobal>(
    rt: &R,
    store: &StoreDirectory,
    compilation: &Compilation<'_>,
    object: Option<&ObjectFile>,
    name: &str,
    file: &EntryFile,
) -> io::Result<()> {
    if let Some(object) = object {
        write_object(rt, store, compilation, object, name)?;
    }
    write_entry(rt, store, compilation, file)
}

// The contents of the file at this path, if one is given, and else nothing.
fn read_some<R: Files + AllocGlobal>(rt: &R, path: Option<&str>) -> io::Result<Vec<u8>> {
    match path {
        Some(path) => fs::read(rt, path),
        None => Ok(Vec::new(rt.alloc())),
    }
}

// The object file of this name, of what the compiler made.
fn object_of<R: Files + AllocGlobal>(
    rt: &R,
    compilation: &Compilation<'_>,
    name: &str,
) -> Result<Option<ObjectFile>>
    ensures { IfOk result (λ object. IfSome object (λ o. o.key.items ≡ name.now)) }
{
    match &compilation.made {
        Some(made) => Ok(Some(ObjectFile {
            key: name.as_bytes().to_vec(rt.alloc())?,
            object: fs::read(rt, made.object)?,
            messages: fs::read(rt, made.messages)?,
            dependencies: read_some(rt, made.dependencies)?,
        })),
        None => Ok(None),
    }
}

// Whether one of these base directories is in the object, in the messages or in the dependencies.
fn made_shows_base(bases: &[Vec<u8>], made: &ObjectFile) -> bool
    ensures { IsTrue result ↔ ObjectShowsBase (lists_of bases.now) (Some made.now) }
{
    if shows_base(bases, &made.object) {
        return true;
    }
    if shows_base(bases, &made.messages) {
        return true;
    }
    shows_base(bases, &made.dependencies)
}

// Why an object file, if there is one, is not recorded by these base directories.
fn refusal_by_base(bases: &[Vec<u8>], object: Option<&ObjectFile>) -> Option<Refusal>
    ensures { MatchOption result
        (ObjectShowsBase (lists_of bases.now) (option_map (λ o. o.now) object.entry) → ⊥)
        (λ refusal. (refusal ≡ BaseDirectory)
        × ObjectShowsBase (lists_of bases.now) (option_map (λ o. o.now) object.entry)) }
{
    match object {
        Some(object) if made_shows_base(bases, object) => Some(Refusal::BaseDirectory),
        _ => None,
    }
}

// Writes what was recorded of a compilation, unless a base directory is in what the compiler made.
fn keep<R: Files + AllocGlobal>(
    rt: &R,
    store: &StoreDirectory,
    compilation: &Compilation<'_>,
    bases: &[Vec<u8>],
    name: &str,
    file: &EntryFile,
) -> Result<Option<Refusal>>
    ensures { IfOk result (λ refusal. IfSome refusal (IsRefusedByBase (lists_of bases.now))) }
{
    let object = object_of(rt, compilation, name)?;
    if let Some(refusal) = refusal_by_base(bases, object.as_ref()) {
        return Ok(Some(refusal));
    }
    write_files(rt, store, compilation, object.as_ref(), name, file)?;
    Ok(None)
}

// The entry file of what was recorded.
fn entry_file_of(entry: RecordedEntry, statuses: Vec<PathStatus>, tests: Vec<PathTest>) -> EntryFile
    ensures { entry_fields result ≡ recorded_fields entry (statuses_of statuses.items) (tests_of tests.items) }
{
    EntryFile {
        preprocessor_key: entry.preprocessor_key.into_bytes(),
        entry: entry.bytes,
        statuses,
        tests,
    }
}

// The entry file of what was recorded, with these tests. It has these statuses, and those of the directories of absent paths
// in which no name came or went at this time or later.
fn entry_file_with<R: Files + AllocGlobal>(
    rt: &R,
    since: Timestamp,
    entry: RecordedEntry,
    statuses: Vec<PathStatus>,
    tests: Vec<PathTest>,
) -> Result<EntryFile, AllocError>
    ensures { IfOk result (λ file. (own : List Status)
        × (AreStatusesBefore since (statuses_of statuses.items) → AreStatusesBefore since own)
        × (entry_fields file ≡ recorded_fields entry own (tests_of tests.items))) }
{
    let mut statuses = statuses;
    add_directory_statuses(rt, &mut statuses, since, &tests)?;
    Ok(entry_file_of(entry, statuses, tests))
}

// What a recording adds to the entry of its preprocessor key.
struct Added {
    // The preprocessor key, with the recorded digest of the input.
    own: PreprocessorKey,
    // The key of the object.
    key: String,
    // The entry.
    entry: RecordedEntry,
}

// What is found by a recording over files.
enum EntryVerdict {
    // There is an entry, and nothing keeps the compilation from being recorded but what the compiler made.
    Added(Added),
    // The compilation is not recorded.
    Refused(Refusal),
}

// What a recording over these files adds, or why the compilation is not recorded.
fn entry_over<R: AllocGlobal>(
    rt: &R,
    environment: &Environment<'_>,
    asked: &SnapshotRequest<'_>,
    compilation: &Compilation<'_>,
    text: &[u8],
    files: &mut MapFiles,
) -> Result<EntryVerdict>
    ensures { IfOk result (λ verdict. IsCalm files.old →
        IsEntryVerdict environment.entry.now asked.now compilation.now text.now files.old.files verdict) }
{
    let own = match judge_input(rt, environment, asked, files, compilation.key)? {
        InputVerdict::Key(own) => own,
        InputVerdict::Refused(refusal) => return Ok(EntryVerdict::Refused(refusal)),
    };
    let recording = record_text::<Sha256State, MapFiles>(rt.alloc(), files, asked, text)?;
    let Recording { key, put } = recording;
    match put {
        Some(entry) => Ok(EntryVerdict::Added(Added { own, key, entry })),
        None => Ok(EntryVerdict::Refused(Refusal::NamedFile)),
    }
}

// The same by a request, whose base directories are these.
fn entry_of<R: Files + AllocGlobal>(
    rt: &R,
    environment: &Environment<'_>,
    request: &Request<'_>,
    compilation: &Compilation<'_>,
    bases: &[Vec<u8>],
    text: &[u8],
    files: &mut MapFiles,
) -> Result<EntryVerdict>
    ensures { IfOk result (λ verdict. IsCalm files.old →
        IsEntryOf environment.entry.now request.now compilation.now (lists_of bases.now) text.now files.old.files verdict) }
{
    let hasher = hasher_of(rt, environment, request)?;
    let (directory, since) = (request.directory, compilation.since);
    let asked = snapshot_request(environment, &hasher, directory, since, bases);
    entry_over(rt, environment, &asked, compilation, text, files)
}

// Records what a recording adds, with what was gathered.
fn record_added<R: Files + AllocGlobal>(
    rt: &R,
    store: &StoreDirectory,
    request: &Request<'_>,
    compilation: &Compilation<'_>,
    bases: &[Vec<u8>],
    added: Added,
    gathered: Gathered,
) -> Result<Outcome>
    ensures { IfOk result
        (IsKept request.now (lists_of bases.now) added (tests_of gathered.tests.items)) }
{
    let Added { own, key, entry } = added;
    let file = entry_file_with(
        rt,
        compilation.since,
        entry,
        gathered.statuses,
        gathered.tests,
    )?;
    let input = own.input_digest.as_str();
    let name = name_in(
        rt.alloc(),
        request,
        input,
        key.as_str(),
        &file.entry,
        &file.tests,
    )?;
    match keep(rt, store, compilation, bases, name.as_str(), &file)? {
        Some(refusal) => Ok(Outcome::Refused(refusal)),
        None => Ok(Outcome::Recorded(name)),
    }
}

// Records a compilation over the files that were gathered for its text.
fn record_over<R: Files + AllocGlobal>(
    rt: &R,
    environment: &Environment<'_>,
    store: &StoreDirectory,
    request: &Request<'_>,
    compilation: &Compilation<'_>,
    text: &[u8],
    gathered: Gathered,
) -> Result<Outcome>
    ensures { IfOk result (λ outcome. IsCalm gathered.files →
        IsOutcomeOver environment.entry.now request.now compilation.now text.now gathered outcome) }
{
    if gathered.is_doubtful {
        return Ok(Outcome::Refused(Refusal::NamedFile));
    }
    let mut gathered = gathered;
    let bases = bases_of(rt.alloc(), &base_words(request), text)?;
    let files = &mut gathered.files;
    match entry_of(rt, environment, request, compilation, &bases, text, files)? {
        EntryVerdict::Refused(refusal) => Ok(Outcome::Refused(refusal)),
        EntryVerdict::Added(added) => {
            record_added(rt, store, request, compilation, &bases, added, gathered)
        }
    }
}

/// Records a compilation whose preprocessed text is this, after it was compiled. Returns the name of the
/// object, or why nothing was recorded.
///
/// The error is of a file that can't be read or written, of a malformed line marker, or lack of memory.
/// After it the store may have the object file without the entry file.
///
/// No contract can say what a disk holds. So what is recorded is stated over files that there are: the
/// input, and files at the paths of the names of the text.
pub fn record<R: Files + AllocGlobal>(
    rt: &R,
    environment: &Environment<'_>,
    store: &StoreDirectory,
    request: &Request<'_>,
    compilation: &Compilation<'_>,
    text: &[u8],
) -> Result<Outcome>
    ensures { IfOk result (IsOutcome environment.entry.now request.now compilation.now text.now) }
{
    let marked = MarkedText::new(rt.alloc(), text)?;
    if let Some(refusal) = refusal_by_reading(rt, request, compilation.made.as_ref(), &marked)? {
        return Ok(Outcome::Refused(refusal));
    }
    match see(rt, request, compilation, &marked)? {
        Seen::Refused(refusal) => Ok(Outcome::Refused(refusal)),
        Seen::Files(gathered) => {
            record_over(rt, environment, store, request, compilation, text, gathered)
        }
    }
}
