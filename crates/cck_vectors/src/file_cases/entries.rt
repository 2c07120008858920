//! Entries, their bytes, what is added to them, and the look-up.
use crate::cases::{CaseError, CaseLine, FailWriter, Value, number, words_of};
use crate::file_cases::cases::FileCases;
use crate::file_cases::shown::{write_counts, write_entry, write_includes};
use cck_entry::{
    EntryView, Error, IncludeEntry, JudgeContext, KnownFiles, PreprocessorCacheEntry, ResultRef,
    gather, includes_match,
};
use cck_util::{Digest, MapFiles, Sha256State};
use std::alloc::Global;

#[derive(Clone, Copy)]
pub(crate) enum EntryCall {
    Read,
    Prefixes,
    Show,
    Debug,
    Written,
    WrittenDigest,
    WriteFailing,
    Add,
    AddEach,
    Gather,
    Matches,
    LookUp,
    LookUpAmong,
}

pub(crate) const CALLS: [(&str, EntryCall); 13] = [
    ("read_entry", EntryCall::Read),
    ("read_each_prefix", EntryCall::Prefixes),
    ("entry", EntryCall::Show),
    ("entry_debug", EntryCall::Debug),
    ("entry_bytes", EntryCall::Written),
    ("entry_bytes_digest", EntryCall::WrittenDigest),
    ("write_entry", EntryCall::WriteFailing),
    ("add", EntryCall::Add),
    ("add_each", EntryCall::AddEach),
    ("gather", EntryCall::Gather),
    ("includes_match", EntryCall::Matches),
    ("look_up", EntryCall::LookUp),
    ("look_up_among", EntryCall::LookUpAmong),
];

pub(crate) fn call<'a>(
    call: EntryCall,
    cases: &'a mut FileCases,
    line: CaseLine<'a>,
) -> Result<Value<'a>, CaseError> {
    match call {
        EntryCall::Read => read(cases, line.bytes),
        EntryCall::Prefixes => Ok(Value::Word(prefixes(cases, line.bytes)?)),
        EntryCall::Show => show(cases),
        EntryCall::Debug => debug(cases),
        EntryCall::Written => Ok(Value::Bytes(written(cases)?)),
        EntryCall::WrittenDigest => written_digest(cases),
        EntryCall::WriteFailing => write_failing(cases),
        EntryCall::Add => add(cases, line.rest),
        EntryCall::AddEach => add_each(cases, number(line.rest)?),
        EntryCall::Gather => gathered(cases),
        EntryCall::Matches => matches(cases, line.rest),
        EntryCall::LookUp => shown_look_up(cases),
        EntryCall::LookUpAmong => look_up_among(cases, line.rest),
    }
}

// Keeps the entry of these bytes, and shows it. It is said where a view of them is another one.
fn read<'a>(cases: &'a mut FileCases, bytes: &[u8]) -> Result<Value<'a>, CaseError> {
    let entry = PreprocessorCacheEntry::read(cases.alloc, bytes);
    if !is_viewed_alike(cases.alloc, bytes, &entry)? {
        return Ok(Value::Word("viewed as another entry"));
    }
    cases.entry = entry?;
    show(cases)
}

// Whether a result of a view has these includes, in this order.
fn has_includes(
    alloc: Global,
    viewed: &ResultRef<'_>,
    includes: &[IncludeEntry],
) -> Result<bool, Error> {
    let mut others = viewed.includes();
    for include in includes {
        let Some(other) = others.next() else {
            return Ok(false);
        };
        if other.copy(alloc)? != *include {
            return Ok(false);
        }
    }
    Ok(others.next().is_none())
}

// Whether a view has the keys of the entry, in this order, and the includes of each.
fn has_results(
    alloc: Global,
    view: &EntryView<'_>,
    entry: &PreprocessorCacheEntry,
) -> Result<bool, Error> {
    let mut others = view.results().iter();
    for (key, includes) in entry.results() {
        let Some(viewed) = others.next() else {
            return Ok(false);
        };
        if viewed.key() != key.as_str() || !has_includes(alloc, viewed, includes)? {
            return Ok(false);
        }
    }
    Ok(others.next().is_none())
}

// Whether a view of these bytes has the same results and the same number of includes as the entry,
// or the same error.
fn is_viewed_alike(
    alloc: Global,
    bytes: &[u8],
    entry: &Result<PreprocessorCacheEntry, Error>,
) -> Result<bool, Error> {
    match (EntryView::read(alloc, bytes), entry) {
        (Err(Error::Memory), _) | (_, Err(Error::Memory)) => Err(Error::Memory),
        (Ok(view), Ok(entry)) => Ok(
            view.number_of_entries() == entry.number_of_entries()
                && has_results(alloc, &view, entry)?,
        ),
        (Err(viewed), Err(read)) => Ok(viewed == *read),
        _ => Ok(false),
    }
}

// The counts, and a line for each result and each include. It is said where a copy of the entry is
// another one.
fn show<'a>(cases: &'a FileCases) -> Result<Value<'a>, CaseError> {
    let mut text = Vec::new(cases.alloc);
    write_entry(cases.alloc, &mut text, &cases.entry)?;
    if cases.entry.copy(cases.alloc)? != cases.entry {
        text.extend_from_slice(b"\ncopied as another entry")?;
    }
    Ok(Value::Bytes(text))
}

// Whether each beginning that isn't empty is damaged, for a view too.
fn prefixes(cases: &FileCases, bytes: &[u8]) -> Result<&'static str, CaseError> {
    for end in 1..bytes.len() {
        let entry = PreprocessorCacheEntry::read(cases.alloc, &bytes[..end]);
        let is_viewed_alike = is_viewed_alike(cases.alloc, &bytes[..end], &entry)?;
        if !matches!(entry, Err(Error::Deserialization)) || !is_viewed_alike {
            return Ok("not each is damaged");
        }
    }
    Ok("each is damaged")
}

fn debug<'a>(cases: &'a FileCases) -> Result<Value<'a>, CaseError> {
    let entry = &cases.entry;
    Ok(Value::Text(format!(in cases.alloc; "{entry:?}")?))
}

fn written(cases: &FileCases) -> Result<Vec<u8>, CaseError> {
    let mut bytes: Vec<u8> = Vec::new(cases.alloc);
    cases.entry.serialize_to(&mut bytes)?;
    Ok(bytes)
}

fn written_digest<'a>(cases: &'a FileCases) -> Result<Value<'a>, CaseError> {
    let mut digest = Digest::<Sha256State>::new();
    digest.update(&written(cases)?);
    Ok(Value::Text(digest.finish(cases.alloc)?))
}

// Writes the entry to a writer that fails after `passing` writes.
fn write_failing<'a>(cases: &'a FileCases) -> Result<Value<'a>, CaseError> {
    let mut writer = FailWriter::new(cases.alloc, cases.wanted.passing);
    cases.entry.serialize_to(&mut writer)?;
    Ok(Value::Word("written"))
}

fn counts<'a>(cases: &'a FileCases) -> Result<Value<'a>, CaseError> {
    let mut text = Vec::new(cases.alloc);
    write_counts(cases.alloc, &mut text, &cases.entry)?;
    Ok(Value::Bytes(text))
}

// Adds a result of the files that `include` gave, under this key.
fn add<'a>(cases: &'a mut FileCases, key: &str) -> Result<Value<'a>, CaseError> {
    cases.entry.add_result(
        &mut cases.given_files.files,
        cases.given_files.moment,
        key,
        &cases.wanted.included,
    )?;
    counts(cases)
}

// Adds `count` of them, under the keys `0`, `1` and so on.
fn add_each<'a>(cases: &'a mut FileCases, count: u64) -> Result<Value<'a>, CaseError> {
    for number in 0..count {
        let key = format!(in cases.alloc; "{number}")?;
        cases.entry.add_result(
            &mut cases.given_files.files,
            cases.given_files.moment,
            &key,
            &cases.wanted.included,
        )?;
    }
    counts(cases)
}

// What is recorded of the files that `include` gave.
fn gathered<'a>(cases: &'a mut FileCases) -> Result<Value<'a>, CaseError> {
    let includes = gather(
        cases.alloc,
        &mut cases.given_files.files,
        cases.given_files.moment,
        &cases.wanted.included,
    )?;
    let mut text = Vec::new(cases.alloc);
    write_includes(cases.alloc, &mut text, &includes)?;
    Ok(Value::Bytes(text))
}

// Whether the files of the result of this key still are what they were.
fn matches<'a>(cases: &'a mut FileCases, key: &str) -> Result<Value<'a>, CaseError> {
    let mut known = KnownFiles::new(cases.alloc);
    let includes = cases.entry.results().get(key).ok_or(CaseError::Line)?;
    let context = JudgeContext {
        moment: cases.given_files.moment,
        zone: &cases.wanted.zone,
        vars: &cases.given.variables,
        config: cases.given_files.config,
    };
    Ok(Value::Flag(includes_match::<Sha256State, MapFiles>(
        cases.alloc,
        &mut cases.given_files.files,
        &mut known,
        includes,
        &context,
    )?))
}

// The key of the result that still matches. It is said where a view of the entry's bytes, with the
// same files, finds another one.
fn shown_look_up<'a>(cases: &'a mut FileCases) -> Result<Value<'a>, CaseError> {
    let bytes = written(cases)?;
    let view = EntryView::read(cases.alloc, &bytes)?;
    let viewed = view.lookup_result_digest::<Sha256State, MapFiles>(
        cases.alloc,
        &mut cases.given_files.files.copy(cases.alloc)?,
        cases.given_files.moment,
        &cases.wanted.zone,
        &cases.given.variables,
        cases.given_files.config,
    )?;
    let found = look_up(cases)?;
    if viewed.map(|key| key.as_bytes()) != found {
        return Ok(Value::Word("found as another key in a view"));
    }
    Ok(Value::Part(found))
}

// The key of the result that still matches.
fn look_up<'a>(cases: &'a mut FileCases) -> Result<Option<&'a [u8]>, CaseError> {
    let found = cases.entry.lookup_result_digest::<Sha256State, MapFiles>(
        cases.alloc,
        &mut cases.given_files.files,
        cases.given_files.moment,
        &cases.wanted.zone,
        &cases.given.variables,
        cases.given_files.config,
    )?;
    match found {
        Some(key) => Ok(Some(key.as_bytes())),
        None => Ok(None),
    }
}

// Whether it is one of these keys.
fn look_up_among<'a>(cases: &'a mut FileCases, keys: &str) -> Result<Value<'a>, CaseError> {
    let keys = words_of(cases.alloc, keys)?;
    let Some(found) = look_up(cases)? else {
        return Ok(Value::Flag(false));
    };
    Ok(Value::Flag(keys.iter().any(|key| key.as_slice() == found)))
}
