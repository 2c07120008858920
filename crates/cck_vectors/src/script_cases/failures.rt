//! Each failure of one cause in turn, over the calls of a script.
use crate::cases::CaseError;
use crate::script_cases::commands::write_number;
use crate::script_cases::lists::{
    Alone, CallResult, List, MiniCall, hold, is_held_alike, keys_of, write_call_result,
};
use c_cache_keys::{HashResult, KeyError, MapStore, PreprocessError};
use cck_util::{Digest, FileError, Sha256State, UtilError};
use std::alloc::{AllocError, Global};

/// What fails: calls on files, or gets and puts, of which each may forget too.
#[derive(Clone, Copy, PartialEq, Eq)]
pub(crate) enum FailureCause {
    Files,
    Store,
    Forgetting,
}

/// One failure: the nth call on the files of the call at a place, or the nth get or put, once or
/// with all later ones.
#[derive(Clone, Copy)]
struct Failure {
    cause: FailureCause,
    is_once: bool,
    place: usize,
    n: u64,
}

// How many calls on its own files a call made, and how many gets and puts came before it and with it.
#[derive(Clone, Copy)]
struct Counts {
    files: u64,
    store_before: u64,
    store_after: u64,
}

impl Failure {
    // Arms the calls on files of the call at a place.
    fn arm_files(&self, call: &mut MiniCall, place: usize) {
        if self.cause != FailureCause::Files {
            return;
        }
        if place == self.place && self.is_once {
            call.files.fail_at(self.n);
        } else if place == self.place {
            call.files.fail_after(self.n);
        } else if place > self.place && !self.is_once {
            call.files.fail_after(1);
        }
    }

    // Arms the gets and puts.
    fn arm_store(&self, store: &mut MapStore) {
        match (self.cause, self.is_once) {
            (FailureCause::Files, _) => {}
            (FailureCause::Store, true) => store.fail_at(self.n),
            (FailureCause::Store, false) => store.fail_after(self.n),
            (FailureCause::Forgetting, _) => store.forget_at(self.n),
        }
    }

    // Whether the call at a place met a failure.
    fn is_met(&self, place: usize, counts: Counts) -> bool {
        let (n, is_later) = (self.n, !self.is_once);
        match self.cause {
            FailureCause::Files if place == self.place => n <= counts.files,
            FailureCause::Files => is_later && place > self.place && counts.files > 0,
            _ if n > counts.store_after => false,
            _ => n > counts.store_before || (is_later && counts.store_after > counts.store_before),
        }
    }

    // Whether a call that met a failure may have this result, where it has that one without.
    fn allows(&self, plain: &CallResult, call_result: &CallResult) -> bool {
        let Err(error) = call_result else {
            return same_key(plain, call_result);
        };
        let is_told = match self.cause {
            FailureCause::Files => is_fault(*error),
            FailureCause::Store => matches!(error, KeyError::Store),
            FailureCause::Forgetting => false,
        };
        is_told || same_result(plain, call_result)
    }
}

// Whether an error tells a fault of the files.
fn is_fault(error: KeyError) -> bool {
    matches!(
        error,
        KeyError::Extra(UtilError::File(FileError::Fault))
            | KeyError::Input(UtilError::File(FileError::Fault))
            | KeyError::Preprocess(PreprocessError::Fault)
    )
}

// Whether both results have a key, and the same one.
fn same_key(one: &CallResult, other: &CallResult) -> bool {
    match (one, other) {
        (Ok(found), Ok(again)) => found.key == again.key,
        _ => false,
    }
}

// Whether both results are the same.
fn same_result(one: &CallResult, other: &CallResult) -> bool {
    match (one, other) {
        (Ok(found), Ok(again)) => is_same(found, again),
        (Err(error), Err(again)) => error == again,
        _ => false,
    }
}

fn is_same(one: &HashResult, other: &HashResult) -> bool {
    one.key == other.key && one.is_locally_preprocessed == other.is_locally_preprocessed
}

// What was seen over all runs.
#[derive(Clone, Copy)]
struct Tally {
    runs: u64,
    hits: u64,
    misses: u64,
    errors: [u64; 8],
    wrong: u64,
}

// What was seen over all runs, and the digest of their results and stores.
#[derive(Drop)]
struct Seen {
    tally: Tally,
    digest: Digest<Sha256State>,
}

impl Seen {
    // Feeds the results of a run, and what its store holds.
    fn feed(&mut self, alloc: Global, text: &[u8], store: &MapStore) -> Result<(), AllocError> {
        self.digest.update(text);
        self.digest
            .update(format!(in alloc; "{store:?}\n")?.as_bytes());
        Ok(())
    }
}

impl Tally {
    fn new() -> Tally {
        Tally {
            runs: 0,
            hits: 0,
            misses: 0,
            errors: [0; 8],
            wrong: 0,
        }
    }

    fn note(&mut self, call_result: &CallResult, is_right: bool) {
        match call_result {
            Ok(found) => self.note_key(found.is_locally_preprocessed),
            Err(error) => self.note_error(error.number() as usize),
        }
        self.note_wrong(!is_right);
    }

    fn note_key(&mut self, is_miss: bool) {
        if is_miss {
            self.misses = self.misses.saturating_add(1);
        } else {
            self.hits = self.hits.saturating_add(1);
        }
    }

    fn note_error(&mut self, number: usize) {
        if number < self.errors.len() {
            self.errors[number] = self.errors[number].saturating_add(1);
        }
    }

    fn note_wrong(&mut self, is_wrong: bool) {
        if is_wrong {
            self.wrong = self.wrong.saturating_add(1);
        }
    }

    fn write(&self, alloc: Global, out: &mut Vec<u8>) -> Result<(), AllocError> {
        write_number(alloc, out, "", self.runs)?;
        write_number(alloc, out, " failures: ", self.hits)?;
        write_number(alloc, out, " hits, ", self.misses)?;
        out.extend_from_slice(b" misses")?;
        for (number, count) in self.errors.iter().enumerate() {
            if *count > 0 {
                write_number(alloc, out, ", ", *count)?;
                write_number(alloc, out, " of error ", number as u64)?;
            }
        }
        Ok(())
    }
}

// One run of a list of calls: what it is compared with, and what is seen.
struct Run<'a> {
    list: &'a List,
    alone: &'a [Alone],
    failure: Failure,
    store: MapStore,
    // A line for each call.
    text: Vec<u8>,
    // How many gets and puts came before the first call.
    store_first: u64,
    // Whether the first call that is to fail came.
    has_met: bool,
    // What was seen over all runs before, and over this one.
    tally: Tally,
}

impl Drop for Run<'_> {
    fn drop(self) {
        let Run {
            list: _,
            alone: _,
            failure: _,
            store: _,
            text: _,
            store_first: _,
            has_met: _,
            tally: _,
        } = self;
    }
}

impl Run<'_> {
    // Makes the call at a place, and notes whether its result and what is held afterwards are right.
    fn make(&mut self, place: usize) -> Result<(), CaseError> {
        let mut before = disarmed(self.list.alloc, self.alone, &self.store)?;
        self.make_after(place, &mut before)
    }

    // The same, where this store holds what the store of the run held before.
    fn make_after(&mut self, place: usize, before: &mut MapStore) -> Result<(), CaseError> {
        let mut call = self.list.copy(place)?;
        self.failure.arm_files(&mut call, place);
        self.make_armed(place, &mut call, before)
    }

    // The same, by the armed copy of the call.
    fn make_armed(
        &mut self,
        place: usize,
        call: &mut MiniCall,
        before: &mut MapStore,
    ) -> Result<(), CaseError> {
        let store_before = self.store.calls();
        let call_result = self.list.make(&mut self.store, call)?;
        let counts = Counts {
            files: call.files.calls(),
            store_before: store_before.saturating_sub(self.store_first),
            store_after: self.store.calls().saturating_sub(self.store_first),
        };
        self.take_in(place, before, counts, &call_result)
    }

    // Writes a result, and notes whether it is right.
    fn take_in(
        &mut self,
        place: usize,
        before: &mut MapStore,
        counts: Counts,
        call_result: &CallResult,
    ) -> Result<(), CaseError> {
        write_call_result(self.list.alloc, &mut self.text, call_result)?;
        self.text.push(b'\n')?;
        let is_right = if self.failure.is_met(place, counts) {
            self.is_met_right(place, call_result)?
        } else {
            self.is_unmet_right(place, before, call_result)?
        };
        self.tally.note(call_result, is_right);
        Ok(())
    }

    // Whether a result is the one that the call has on the store as it was before.
    fn is_unmet_right(
        &self,
        place: usize,
        before: &mut MapStore,
        call_result: &CallResult,
    ) -> Result<bool, CaseError> {
        let expected = self.list.make_copy(before, place)?;
        Ok(same_result(&expected, call_result) && hold_alike(self.alone, before, &self.store))
    }

    // Whether the failure that a call met allows its result and what is held.
    fn is_met_right(&mut self, place: usize, call_result: &CallResult) -> Result<bool, CaseError> {
        self.has_met = self.has_met
            || self.failure.cause != FailureCause::Files
            || place == self.failure.place;
        let alone = self.alone.get(place).ok_or(CaseError::Line)?;
        let made = place.saturating_add(1).min(self.alone.len());
        Ok(
            self.failure.allows(&alone.call_result, call_result)
                && self.holds_own(&self.alone[..made]),
        )
    }

    // Whether each pair that is held under the keys of all calls is the own pair of one that was made,
    // or was held at first.
    fn holds_own(&self, made: &[Alone]) -> bool {
        for alone in self.alone {
            if !are_own(self.list, &self.store, made, &alone.keys) {
                return false;
            }
        }
        true
    }

    // Makes all calls, and says whether the failure was met.
    fn make_all(&mut self, seen: &mut Seen) -> Result<bool, CaseError> {
        for place in 0..self.list.len() {
            self.make(place)?;
        }
        if self.has_met {
            self.count(seen)?;
        }
        Ok(self.has_met)
    }

    // Counts this run, and notes what the store holds after it.
    fn count(&self, seen: &mut Seen) -> Result<(), CaseError> {
        let is_right = holds_own_alone(self.list, &self.store, self.alone)?;
        seen.tally = self.tally;
        seen.tally.note_wrong(!is_right);
        seen.tally.runs = seen.tally.runs.saturating_add(1);
        Ok(seen.feed(self.list.alloc, &self.text, &self.store)?)
    }
}

// A store with nothing armed that holds what this one holds under the keys of these calls.
fn disarmed(alloc: Global, each: &[Alone], store: &MapStore) -> Result<MapStore, CaseError> {
    let mut copy = MapStore::new(alloc);
    for alone in each {
        hold_copies(alloc, &mut copy, store, &alone.keys)?;
    }
    Ok(copy)
}

// Puts what a store holds under these keys.
fn hold_copies(
    alloc: Global,
    copy: &mut MapStore,
    store: &MapStore,
    keys: &[String],
) -> Result<(), CaseError> {
    for key in keys {
        if let Some(bytes) = store.held(key) {
            hold(alloc, copy, key, bytes)?;
        }
    }
    Ok(())
}

// Whether two stores hold the same under the keys of these calls.
fn hold_alike(each: &[Alone], one: &MapStore, other: &MapStore) -> bool {
    for alone in each {
        if !are_held_alike(one, other, &alone.keys) {
            return false;
        }
    }
    true
}

fn are_held_alike(one: &MapStore, other: &MapStore, keys: &[String]) -> bool {
    for key in keys {
        if !is_held_alike(one, other, key) {
            return false;
        }
    }
    true
}

// Whether a store holds under a key the own pair of one of these calls, or what was held at first.
fn is_own(list: &List, store: &MapStore, made: &[Alone], key: &str) -> bool {
    for alone in made {
        if is_held_alike(store, &alone.store, key) {
            return true;
        }
    }
    list.is_first(store, key)
}

// Whether each pair that is held is the own pair of one of these calls, or was held at first.
fn holds_own_alone(list: &List, store: &MapStore, each: &[Alone]) -> Result<bool, CaseError> {
    for key in &keys_of(list.alloc, store)? {
        if !is_own(list, store, each, key) {
            return Ok(false);
        }
    }
    Ok(true)
}

// Whether a store holds under each of these keys an own pair, as `is_own` says, or nothing.
fn are_own(list: &List, store: &MapStore, made: &[Alone], keys: &[String]) -> bool {
    for key in keys {
        if store.held(key).is_some() && !is_own(list, store, made, key) {
            return false;
        }
    }
    true
}

// A run that begins, under one failure, after others of which this was seen.
fn run_of<'a>(
    list: &'a List,
    alone: &'a [Alone],
    failure: Failure,
    tally: Tally,
) -> Result<Run<'a>, CaseError> {
    let mut store = list.first_store()?;
    let store_first = store.calls();
    failure.arm_store(&mut store);
    Ok(Run {
        list,
        alone,
        failure,
        store,
        text: Vec::new(list.alloc),
        store_first,
        has_met: false,
        tally,
    })
}

// Makes all calls under one failure, and says whether it was met. What is seen of a run that met none
// is not counted.
fn run_under(
    list: &List,
    alone: &[Alone],
    failure: Failure,
    seen: &mut Seen,
) -> Result<bool, CaseError> {
    let mut run = run_of(list, alone, failure, seen.tally)?;
    run.make_all(seen)
}

// Lets each call of a cause fail in turn at a place, until a run meets no failure.
fn run_at(list: &List, alone: &[Alone], first: Failure, seen: &mut Seen) -> Result<(), CaseError> {
    for n in 1..u64::MAX {
        if !run_under(list, alone, Failure { n, ..first }, seen)? {
            break;
        }
    }
    Ok(())
}

// Makes all runs, and returns what was seen.
fn run_all(list: &List, cause: FailureCause, is_once: bool) -> Result<Seen, CaseError> {
    let alone = list.each_alone()?;
    let places = if cause == FailureCause::Files {
        alone.len()
    } else {
        1
    };
    let mut seen = Seen {
        tally: Tally::new(),
        digest: Digest::new(),
    };
    for place in 0..places {
        let first = Failure {
            cause,
            is_once,
            place,
            n: 1,
        };
        run_at(list, &alone, first, &mut seen)?;
    }
    Ok(seen)
}

/// Lets each call of a cause fail in turn, until a run meets no failure, and writes how many failures
/// there were, what was returned, and how many results were wrong: those that are neither the plain
/// key of their call nor an error that the failure allows, those after a single failure that are not
/// what the pairs then held give, and those that leave a pair that is no call's own. The last line is
/// the digest of all results and stores.
pub(crate) fn write(
    list: &List,
    out: &mut Vec<u8>,
    cause: FailureCause,
    is_once: bool,
) -> Result<(), CaseError> {
    let Seen { tally, digest } = run_all(list, cause, is_once)?;
    let digest_text = digest.finish(list.alloc)?;
    tally.write(list.alloc, out)?;
    Ok(write_end(list.alloc, out, tally.wrong, &digest_text)?)
}

/// Writes how many results were wrong, and a digest.
pub(crate) fn write_end(
    alloc: Global,
    out: &mut Vec<u8>,
    wrong: u64,
    digest_text: &str,
) -> Result<(), AllocError> {
    write_number(alloc, out, "\nwrong: ", wrong)?;
    out.push(b'\n')?;
    out.extend_from_slice(digest_text.as_bytes())
}

/// Makes all calls at once, and writes how many results there were, and how many of them are neither
/// the plain key of their call nor an error that lack of memory allows, with one more where a pair is
/// held that is no call's own. Each call is made alone twice, so that one of the two is whole where
/// one request for memory fails.
pub(crate) fn write_checked(list: &List, out: &mut Vec<u8>) -> Result<(), CaseError> {
    let (count, wrong) = checked(list)?;
    write_number(list.alloc, out, "", count as u64)?;
    write_number(list.alloc, out, " results, ", wrong)?;
    Ok(out.extend_from_slice(b" wrong")?)
}

// How many results there are, and how many of them are wrong.
fn checked(list: &List) -> Result<(usize, u64), CaseError> {
    let mut store = list.store()?;
    let call_results = list.make_each(&mut store)?;
    let wrong = least_wrong(list, &store, &call_results)?;
    Ok((call_results.len(), wrong))
}

fn least_wrong(
    list: &List,
    store: &MapStore,
    call_results: &[CallResult],
) -> Result<u64, CaseError> {
    let first = wrong_results(list, store, call_results)?;
    let second = wrong_results(list, store, call_results)?;
    Ok(first.min(second))
}

fn wrong_results(
    list: &List,
    store: &MapStore,
    call_results: &[CallResult],
) -> Result<u64, CaseError> {
    let each = list.each_alone()?;
    let wrong = wrong_among(&each, call_results);
    if holds_own_alone(list, store, &each)? {
        return Ok(wrong);
    }
    Ok(wrong.saturating_add(1))
}

fn wrong_among(each: &[Alone], call_results: &[CallResult]) -> u64 {
    let mut wrong: u64 = 0;
    for place in 0..call_results.len() {
        if is_wrong_at(each, call_results, place) {
            wrong = wrong.saturating_add(1);
        }
    }
    wrong
}

fn is_wrong_at(each: &[Alone], call_results: &[CallResult], place: usize) -> bool {
    match (each.get(place), call_results.get(place)) {
        (Some(alone), Some(call_result)) => !is_allowed(&alone.call_result, call_result),
        _ => false,
    }
}

// Whether a call may have this result where memory may be lacking and it has that one alone.
fn is_allowed(plain: &CallResult, call_result: &CallResult) -> bool {
    match call_result {
        Ok(_) => same_key(plain, call_result),
        Err(KeyError::Memory | KeyError::Store) => true,
        Err(_) => same_result(plain, call_result),
    }
}
