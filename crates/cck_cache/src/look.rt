//! Looks for an object in the store.
ghost use Rattle.std.specs.Prelude.{◌≡◌, ◌<◌, ◌⊎◌, [], IfOk, IfSome, None, Some, false, string_bytes, true};
ghost use Rattle.std.specs.Option.{option_map};
ghost use Rattle.cck_cache.specs.Input.{IsCalm};
ghost use Rattle.cck_cache.specs.Look.{AreJoined, IsFoundFor, IsGivenEntry, IsGivenObject, IsKeptIn, IsKeptObject, IsKeyEntry, IsLookResult, IsLooked, IsMissed, IsNamedMatch, IsNameOf, IsLookUp, IsObjectIn, IsWrong, keeps};
ghost use Rattle.cck_cache.specs.Request.{IsKeyOver, IsRequest};
ghost use Rattle.cck_cache_rules.specs.PathStatus.{statuses_of};
ghost use Rattle.cck_cache_rules.specs.PathTest.{tests_of};

use crate::changed::{Changed, changed_in, may_match};
use crate::environment::Environment;
use crate::included::add_entry_files;
use crate::input::input_snapshot;
use crate::naming::name_of;
use crate::outputs::has_outputs;
use crate::request::{hasher_of, snapshot_request};
use crate::server_key::server_key;
use crate::wanted::Look;
use anyhow::{Context, Result};
use c_cache_keys::{PreprocessorKey, SnapshotRequest, look_up, preprocessor_key};
use cck_cache_files::{
    ENTRY_FILES, Kind, Request, StoreDirectory, entry_name, first_failing, unchanged_statuses,
};
use cck_cache_options::Outputs;
use cck_cache_rules::{EntryFile, ObjectFile, PathStatus, entry_in, object_in};
use cck_cache_store::{Given, Peer, entry_view, given_file};
use cck_files::MapFiles;
use cck_path::Timestamp;
use cck_util::Sha256State;
use std::alloc::{AllocError, Global};
use std::io;
use std::rt::Files;

/// What is printed of a request that has no preprocessor key.
pub const NO_KEY: &str = "none: SCCACHE_DIRECT is off, or the input shows the time";

/// What a look-up found.
#[derive(Drop)]
pub enum Found {
    /// An object.
    Hit {
        /// The preprocessor key.
        preprocessor_key: String,
        /// The place of the entry file among those of the preprocessor key, if the object is the store's.
        place: Option<usize>,
        /// The name of the object.
        object_name: String,
        /// What the compiler made.
        object: ObjectFile,
    },
    /// No object.
    Miss {
        /// The preprocessor key.
        preprocessor_key: String,
        /// When the look-up ended, by the clock of the store's file system.
        since: Timestamp,
        /// What was found in its place.
        missed: Missed,
    },
    /// The request has no preprocessor key.
    NoKey,
}

/// What a look-up found where there is no object.
#[derive(Drop)]
pub struct Missed {
    /// The name of the object of a result of an entry that matches, which the store does not have.
    pub object_name: Option<String>,
    /// The path of a file that is damaged, or the kind and the name of a value of the server.
    pub damaged: Option<String>,
    /// The kind and the name of a value of the server that has not the right signature.
    pub forged: Option<String>,
}

/// What the store has of a preprocessor key at a place.
#[derive(Drop)]
pub enum Kept {
    /// Nothing.
    Nothing,
    /// A file that is no entry file of this key.
    Damaged,
    /// An entry.
    Entry(EntryFile),
}

// What a look-up is for, with the preprocessor key of its request over a snapshot of the input.
#[derive(Clone, Copy)]
struct LookUp<'a> {
    environment: &'a Environment<'a>,
    store: &'a StoreDirectory,
    wanted: &'a Look<'a>,
    asked: &'a SnapshotRequest<'a>,
    // The snapshot.
    files: &'a MapFiles,
    key: &'a PreprocessorKey,
    // The key of signatures, if those of the server are tested.
    verify_key: Option<&'a [u8]>,
}

// What was found by one entry file, or by all.
enum Looked {
    // An object.
    Object {
        // The place of the entry file, if the object is the store's.
        place: Option<usize>,
        // The name of the object.
        name: String,
        // What the compiler made.
        object: ObjectFile,
    },
    // None.
    Missed(Missed),
}

// What these bytes of an entry file hold of a preprocessor key.
fn kept_in(alloc: Global, key: &str, bytes: &[u8]) -> Result<Kept, AllocError>
    ensures key { IfOk result (IsKeyEntry key.now) }
    ensures read { IfOk result (IsKeptIn key.now bytes.now) }
{
    Ok(match entry_in(alloc, key, bytes)? {
        Some(file) => Kept::Entry(file),
        None => Kept::Damaged,
    })
}

/// Reads the store's entry file of this name, of a preprocessor key.
///
/// The error is of a file that can't be read, or lack of memory.
pub fn read_entry<R: Files + AllocGlobal>(
    rt: &R,
    store: &StoreDirectory,
    key: &str,
    name: &str,
) -> io::Result<Kept>
    ensures { IfOk result (IsKeyEntry key.now) }
{
    match store.read(rt, Kind::Entry, name)? {
        Some(bytes) => Ok(kept_in(rt.alloc(), key, &bytes)?),
        None => Ok(Kept::Nothing),
    }
}

// The statuses by which files are not read and absent paths not tested: none, where all is read.
fn trusted_statuses(file: &EntryFile, reads_all: bool) -> &[PathStatus]
    ensures none { reads_all ≡ true → result.now ≡ [] }
    ensures all { reads_all ≡ false → result.now ≡ file.now.statuses.items }
{
    if reads_all { &[] } else { &file.statuses }
}

// The name of the object of a result in the entry that matches, if the tests of paths hold.
fn matching_name<R: Files + AllocGlobal>(
    rt: &R,
    environment: &Environment<'_>,
    request: &Request<'_>,
    asked: &SnapshotRequest<'_>,
    files: &mut MapFiles,
    key: &PreprocessorKey,
    file: &EntryFile,
) -> Result<Option<String>>
    ensures { IfOk result (λ found. IsCalm files.old → IsRequest environment.entry.now request.now environment.entry.now.now [] asked.now
        → IsKeyOver asked.now files.old.files key.now
        → IfSome found (IsNamedMatch environment.entry.now.reads_all request.now asked.now files.old.files key.now file.now.entry.items (statuses_of file.now.statuses.items) (tests_of file.now.tests.items))) }
{
    let unchanged = unchanged_statuses(rt, trusted_statuses(file, environment.reads_all))?;
    let None = first_failing(rt, &unchanged.directories, &file.tests)? else {
        return Ok(None);
    };
    let alloc = rt.alloc();
    let Some(entry) = entry_view(alloc, &file.entry)? else {
        return Ok(None);
    };
    let known = &unchanged.files;
    add_entry_files(rt, files, known, &entry)?;
    let found = look_up::<Sha256State, MapFiles>(alloc, files, known, asked, &entry)?;
    let Some(object) = found else {
        return Ok(None);
    };
    let input = key.input_digest.as_str();
    let name = name_of(alloc, request, input, object, &entry, &file.tests)?;
    Ok(Some(name))
}

// Nothing was found, but for this name of an object.
fn nothing_found(object_name: Option<String>) -> Looked
    ensures name { IsMissed object_name result }
    ensures wrong { IsWrong None None result }
{
    Looked::Missed(Missed {
        object_name,
        damaged: None,
        forged: None,
    })
}

// Nothing was found, but for this name of an object and this file, which is damaged.
fn damaged_found(object_name: Option<String>, damaged: String) -> Looked
    ensures name { IsMissed object_name result }
    ensures wrong { IsWrong (Some damaged) None result }
{
    Looked::Missed(Missed {
        object_name,
        damaged: Some(damaged),
        forged: None,
    })
}

// Nothing was found, but for this name of an object and this value of the server, which has not the right signature.
fn forged_found(object_name: Option<String>, forged: String) -> Looked
    ensures name { IsMissed object_name result }
    ensures wrong { IsWrong None (Some forged) result }
{
    Looked::Missed(Missed {
        object_name,
        damaged: None,
        forged: Some(forged),
    })
}

// What these bytes of a file hold of the object of a name, for the entry file at a place if they are the store's. An object
// file without what is to be written counts as absent, so that it is recorded again. `file` is what is damaged where these
// are other bytes.
#[tactic(auto, using(crate::proofs::LookLemmas::damaged_in, crate::proofs::LookLemmas::lacking_in))]
fn object_found(
    alloc: Global,
    outputs: &Outputs<'_>,
    place: Option<usize>,
    name: String,
    bytes: &[u8],
    file: String,
) -> Result<Looked, AllocError>
    ensures kept { IfOk result (IsKeptObject outputs.now place name) }
    ensures read { IfOk result (IsObjectIn outputs.now (string_bytes name) bytes.now file) }
{
    let Some(object) = object_in(alloc, name.as_str(), bytes)? else {
        return Ok(damaged_found(Some(name), file));
    };
    if !has_outputs(&object, outputs) {
        return Ok(nothing_found(Some(name)));
    }
    Ok(Looked::Object {
        place,
        name,
        object,
    })
}

// What the store has under the name of an object of the entry file at a place.
fn kept_object<R: Files + AllocGlobal>(
    rt: &R,
    store: &StoreDirectory,
    outputs: &Outputs<'_>,
    place: usize,
    name: String,
) -> Result<Looked>
    ensures { IfOk result (IsKeptObject outputs.now (Some place) name) }
{
    let Some(bytes) = store.read(rt, Kind::Object, name.as_str())? else {
        return Ok(nothing_found(Some(name)));
    };
    let path = store.path_of(rt, Kind::Object, name.as_str())?;
    let place = Some(place);
    Ok(object_found(rt.alloc(), outputs, place, name, &bytes, path)?)
}

/// Whether the store keeps what a server has.
pub fn keeps(wanted: &Look<'_>) -> bool
    ensures { result ≡ keeps wanted.now.server }
{
    match &wanted.server {
        Some(server) => server.keeps,
        None => false,
    }
}

// Writes an object file of the server that was found to the store, if the store keeps such and it can be written.
fn keep_object<R: Files + AllocGlobal>(rt: &R, lookup: &LookUp<'_>, found: &Looked, bytes: &[u8]) {
    if keeps(lookup.wanted)
        && let Looked::Object { name, .. } = found
    {
        let _ = lookup.store.write(rt, Kind::Object, name.as_str(), bytes);
    }
}

// What the server has under the name of an object.
fn given_object<R: Files + AllocGlobal, S: Peer>(
    rt: &R,
    lookup: &LookUp<'_>,
    peer: &mut S,
    name: String,
) -> Result<Looked>
    ensures kept { IfOk result (IsKeptObject lookup.now.wanted.now.outputs None name) }
    ensures given { IfOk result (IsGivenObject (S.has peer.old)
        (option_map (λ k. k.now) lookup.now.verify_key) (string_bytes name)) }
{
    let alloc = rt.alloc();
    let value = format!(in alloc; "object:{name}")?;
    let bytes = match given_file(alloc, peer, lookup.verify_key, Kind::Object, name.as_str())? {
        Given::File(bytes) => bytes,
        Given::Forged => return Ok(forged_found(Some(name), value)),
        Given::Nothing => return Ok(nothing_found(Some(name))),
    };
    let found = object_found(alloc, &lookup.wanted.outputs, None, name, &bytes, value)?;
    keep_object(rt, lookup, &found, &bytes);
    Ok(found)
}

// The name of the object of a result of an entry file that matches. Where none matches, the first file that changed is
// noted, if there is one.
fn name_by_entry<R: Files + AllocGlobal>(
    rt: &R,
    lookup: &LookUp<'_>,
    file: &EntryFile,
    changed: &mut Option<Changed>,
) -> Result<Option<String>>
    requires { file.now.preprocessor_key.items ≡ string_bytes lookup.now.key.now.text }
    ensures { IfOk result (λ found. IsLookUp lookup.now → IfSome found (IsNameOf lookup.now)) }
{
    let mut files = lookup.files.copy(rt.alloc())?;
    let found = matching_name(
        rt,
        lookup.environment,
        &lookup.wanted.request,
        lookup.asked,
        &mut files,
        lookup.key,
        file,
    )?;
    if found.is_none() && changed.is_none() {
        *changed = changed_in(rt.alloc(), &mut files, &file.entry)?;
    }
    Ok(found)
}

// Looks for the object by the entry file at a place. A file that has not the present
// contents of a file that changed matches as little, and is not read further.
fn look_at_place<R: Files + AllocGlobal>(
    rt: &R,
    lookup: &LookUp<'_>,
    place: usize,
    changed: &mut Option<Changed>,
) -> Result<Looked>
    requires { place < ENTRY_FILES }
    ensures { IfOk result (λ looked. IsLookUp lookup.now → IsLooked lookup.now looked) }
{
    let (alloc, key) = (rt.alloc(), lookup.key.text.as_str());
    let name = entry_name(alloc, key, place)?;
    let read = lookup.store.read(rt, Kind::Entry, name.as_str());
    let Some(bytes) = read.context("the entry file")? else {
        return Ok(nothing_found(None));
    };
    if !may_match(alloc, changed.as_ref(), &bytes)? {
        return Ok(nothing_found(None));
    }
    let Kept::Entry(file) = kept_in(alloc, key, &bytes)? else {
        let path = lookup.store.path_of(rt, Kind::Entry, name.as_str())?;
        return Ok(damaged_found(None, path));
    };
    match name_by_entry(rt, lookup, &file, changed)? {
        Some(name) => kept_object(rt, lookup.store, &lookup.wanted.outputs, place, name),
        None => Ok(nothing_found(None)),
    }
}

// What was found by one entry file, and by the ones before it.
fn with_missed(before: Missed, one: Missed) -> Missed
    ensures either { (result.object_name ≡ before.object_name) ⊎ (result.object_name ≡ one.object_name) }
    ensures joined { AreJoined before one result }
{
    Missed {
        object_name: before.object_name.or(one.object_name),
        damaged: before.damaged.or(one.damaged),
        forged: before.forged.or(one.forged),
    }
}

// Looks for the object by each entry file of the preprocessor key in the store.
fn look_in_store<R: Files + AllocGlobal>(rt: &R, lookup: &LookUp<'_>) -> Result<Looked>
    ensures { IfOk result (λ looked. IsLookUp lookup.now → IsLooked lookup.now looked) }
{
    let mut changed = None;
    let mut all = Missed {
        object_name: None,
        damaged: None,
        forged: None,
    };
    for place in 0..ENTRY_FILES {
        match look_at_place(rt, lookup, place, &mut changed)? {
            Looked::Missed(one) => all = with_missed(all, one),
            found => return Ok(found),
        }
    }
    Ok(Looked::Missed(all))
}

// Looks for the object by the entry file that the server has. Where the store keeps what the server has the file is
// written there, if it can be and an object was found.
fn look_at_server<R: Files + AllocGlobal, S: Peer>(
    rt: &R,
    lookup: &LookUp<'_>,
    peer: &mut S,
) -> Result<Looked>
    ensures looked { IfOk result (λ looked. IsLookUp lookup.now → IsLooked lookup.now looked) }
    ensures given { IfOk result (IsGivenEntry (S.has peer.old)
        (option_map (λ k. k.now) lookup.now.verify_key) (string_bytes lookup.now.key.now.text)) }
{
    let (alloc, key) = (rt.alloc(), lookup.key.text.as_str());
    let bytes = match given_file(alloc, peer, lookup.verify_key, Kind::Entry, key)? {
        Given::File(bytes) => bytes,
        Given::Forged => return Ok(forged_found(None, format!(in alloc; "entry:{key}")?)),
        Given::Nothing => return Ok(nothing_found(None)),
    };
    let Kept::Entry(file) = kept_in(alloc, key, &bytes)? else {
        return Ok(damaged_found(None, format!(in alloc; "entry:{key}")?));
    };
    let Some(name) = name_by_entry(rt, lookup, &file, &mut None)? else {
        return Ok(nothing_found(None));
    };
    let looked = given_object(rt, lookup, peer, name)?;
    if keeps(lookup.wanted)
        && let Looked::Object { .. } = &looked
    {
        let _ = lookup.store.write(rt, Kind::Entry, key, &bytes);
    }
    Ok(looked)
}

// What the server has under the name of an object that the store lacks, if there is one.
fn lacked_object<R: Files + AllocGlobal, S: Peer>(
    rt: &R,
    lookup: &LookUp<'_>,
    peer: &mut S,
    object_name: Option<String>,
) -> Result<Looked>
    requires { IsLookUp lookup.now → IfSome object_name (IsNameOf lookup.now) }
    ensures { IfOk result (λ looked. IsLookUp lookup.now → IsLooked lookup.now looked) }
{
    match object_name {
        Some(name) => given_object(rt, lookup, peer, name),
        None => Ok(nothing_found(None)),
    }
}

// Looks for the object at the server: first for that which the store lacks, if there is one.
fn look_past_store<R: Files + AllocGlobal, S: Peer>(
    rt: &R,
    lookup: &LookUp<'_>,
    peer: &mut S,
    missed: Missed,
) -> Result<Looked>
    requires { IsLookUp lookup.now → IfSome missed.object_name (IsNameOf lookup.now) }
    ensures { IfOk result (λ looked. IsLookUp lookup.now → IsLooked lookup.now looked) }
{
    let Missed {
        object_name,
        damaged,
        forged,
    } = missed;
    let lacked = match lacked_object(rt, lookup, peer, object_name)? {
        Looked::Missed(lacked) => lacked,
        found => return Ok(found),
    };
    let rest = Missed {
        object_name: None,
        damaged,
        forged,
    };
    match look_at_server(rt, lookup, peer)? {
        Looked::Missed(one) => Ok(Looked::Missed(with_missed(one, with_missed(lacked, rest)))),
        found => Ok(found),
    }
}

// Looks for the object in the store and at the server, as far as these are used.
fn look_in_files<R: Files + AllocGlobal, S: Peer>(
    rt: &R,
    lookup: &LookUp<'_>,
    peer: &mut S,
) -> Result<Looked>
    ensures { IfOk result (λ looked. IsLookUp lookup.now → IsLooked lookup.now looked) }
{
    let Some(server) = &lookup.wanted.server else {
        return look_in_store(rt, lookup);
    };
    if !server.keeps {
        return look_at_server(rt, lookup, peer);
    }
    match look_in_store(rt, lookup)? {
        Looked::Missed(missed) => look_past_store(rt, lookup, peer, missed),
        found => Ok(found),
    }
}

// Looks for the object of a request that has this preprocessor key over a snapshot of the input.
fn look_for<R: Files + AllocGlobal, S: Peer>(
    rt: &R,
    environment: &Environment<'_>,
    places: (&StoreDirectory, Option<&[u8]>, &mut S),
    wanted: &Look<'_>,
    asked: &SnapshotRequest<'_>,
    files: &MapFiles,
    key: PreprocessorKey,
) -> Result<Found>
    ensures { IfOk result (λ found. IsCalm files.now → IsRequest environment.entry.now wanted.now.request environment.entry.now.now [] asked.now
        → IsKeyOver asked.now files.now.files key
        → IsFoundFor environment.entry.now.reads_all wanted.now asked.now files.now.files key.text found) }
{
    let (store, verify_key, peer) = places;
    let looked = look_in_files(
        rt,
        &LookUp {
            environment,
            store,
            wanted,
            asked,
            files,
            key: &key,
            verify_key,
        },
        peer,
    )?;
    let preprocessor_key = key.text;
    match looked {
        Looked::Object {
            place,
            name,
            object,
        } => Ok(Found::Hit {
            preprocessor_key,
            place,
            object_name: name,
            object,
        }),
        Looked::Missed(missed) => {
            let since = store.stamp(rt)?;
            Ok(Found::Miss {
                preprocessor_key,
                since,
                missed,
            })
        }
    }
}

/// Looks for the object of a request.
///
/// Each entry file of the preprocessor key is asked, in the order of their places, until one has an object. A file
/// that the entry names is not read if its status shows that it is unchanged, and a path is not
/// tested if its directory's does, unless the environment asks that all are read. Once a file is known to have
/// changed, an entry file that names it, and not its present contents, is passed over. A server is asked for the entry
/// file and the object that the store lacks.
///
/// The error is of an input that is not a regular file that can be read, of a program of the compiler, of
/// the store or of a store of digests that can't be read, of a file that can't be made in the store after a miss, of a key
/// of signatures that can't be read or is too short, that of [`given_file`], or lack of memory.
///
/// No contract can say what a disk holds. So what is found is stated over snapshots that there are: one
/// that has the input alone, and one that has files that the entry names too.
pub fn look<R: Files + AllocGlobal, S: Peer>(
    rt: &R,
    environment: &Environment<'_>,
    store: &StoreDirectory,
    wanted: &Look<'_>,
    peer: &mut S,
) -> Result<Found>
    ensures { IfOk result (IsLookResult environment.entry.now wanted.now) }
{
    let request = &wanted.request;
    let verify_key = server_key(rt, wanted.server)?;
    let hasher = hasher_of(rt, environment, request)?;
    let mut files = input_snapshot(rt, request)?;
    let asked = snapshot_request(
        environment,
        &hasher,
        request.directory,
        environment.now,
        &[],
    );
    match preprocessor_key::<Sha256State, MapFiles>(rt.alloc(), &mut files, &asked)? {
        Some(key) => look_for(
            rt,
            environment,
            (store, verify_key.as_deref(), peer),
            wanted,
            &asked,
            &files,
            key,
        ),
        None => Ok(Found::NoKey),
    }
}
