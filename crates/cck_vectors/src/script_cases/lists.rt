//! The calls of a script as a list, made on a store.
use crate::cases::CaseError;
use crate::script_cases::commands::write_number;
use c_cache_keys::cck_entry::PreprocessorCacheEntry;
use c_cache_keys::{Call, HashResult, KeyError, MapStore, PreprocessorStore, run_calls};
use cck_command::{
    Failed, MiniCompiler, RunOptions, Script, ScriptError, compiler_of, ready_calls,
};
use cck_include::{PreprocessorCacheModeConfig, zone_at};
use cck_script::copy_variables;
use cck_util::{MapFiles, Sha256State, UtilError};
use jiff::tz::TimeZone;
use std::alloc::{AllocError, Global};
use std::slice;

/// A call of a script.
pub(crate) type MiniCall = Call<MiniCompiler, MapFiles>;

/// The result of a call.
pub(crate) type CallResult = Result<HashResult, KeyError>;

/// What the calls of a script are made of and under.
pub(crate) struct List {
    /// The allocator of all that is made.
    pub(crate) alloc: Global,
    options: RunOptions,
    // The calls, in the order of their lines.
    calls: Vec<MiniCall>,
    // What is held before the first call: bytes under a key.
    first: Option<(String, Vec<u8>)>,
    zone: TimeZone<'static>,
}

impl Drop for List {
    fn drop(self) {
        let List {
            alloc: _,
            options: _,
            calls: _,
            first: _,
            zone: _,
        } = self;
    }
}

/// A call that is made alone, on a store that holds nothing.
pub(crate) struct Alone {
    /// Its result, of which the key is its plain key.
    pub(crate) call_result: CallResult,
    /// The store after it, which holds its own pair, or nothing.
    pub(crate) store: MapStore,
    /// The keys of what it holds.
    pub(crate) keys: Vec<String>,
}

impl Drop for Alone {
    fn drop(self) {
        let Alone {
            call_result: _,
            store: _,
            keys: _,
        } = self;
    }
}

// The script of this text.
fn script_of(alloc: Global, text: &[u8]) -> Result<Script, CaseError> {
    match Script::parse(alloc, text) {
        Ok(script) => Ok(script),
        Err(ScriptError::Memory) => Err(CaseError::Util(UtilError::Memory)),
        Err(_) => Err(CaseError::Line),
    }
}

// The calls of a script whose zone has this offset.
fn calls_of(alloc: Global, zone_offset: i32, script: Script) -> Result<Vec<MiniCall>, Failed> {
    let compiler = compiler_of::<Sha256State>(alloc, zone_offset)?;
    ready_calls(alloc, &compiler, script)
}

// The list of the calls of a script, under these options.
fn list_of(alloc: Global, options: RunOptions, script: Script) -> Result<List, Failed> {
    let zone = zone_at(options.zone_offset).ok_or(Failed)?;
    let calls = calls_of(alloc, options.zone_offset, script)?;
    Ok(List {
        alloc,
        options,
        calls,
        first: None,
        zone,
    })
}

impl List {
    /// The list of the script of this text.
    pub(crate) fn of_text(alloc: Global, text: &[u8]) -> Result<List, CaseError> {
        let script = script_of(alloc, text)?;
        let options = script.options(alloc)?;
        // Nothing but lack of memory makes the calls of a script fail as a whole.
        match list_of(alloc, options, script) {
            Ok(list) => Ok(list),
            Err(_) => Err(CaseError::Util(UtilError::Memory)),
        }
    }

    /// Lets the store hold an entry at first, under the key of the first call: its own result, and so
    /// many others, of this path, with a recorded digest that no file has.
    pub(crate) fn hold_entry(&mut self, others: u64, path: &[u8]) -> Result<(), CaseError> {
        let mut alone = self.alone(self.call(0)?)?;
        let key = alone.keys.pop().ok_or(CaseError::Line)?;
        let own = alone.store.held(&key).ok_or(CaseError::Line)?;
        let bytes = self.with_others(own, others, path)?;
        self.first = Some((key, bytes));
        Ok(())
    }

    // The bytes of an entry, with so many other results at the first call.
    fn with_others(&self, own: &[u8], others: u64, path: &[u8]) -> Result<Vec<u8>, CaseError> {
        let mut entry = PreprocessorCacheEntry::read(self.alloc, own)?;
        self.add_results(&mut entry, others, path)?;
        let mut bytes = Vec::new(self.alloc);
        entry.serialize_to(&mut bytes)?;
        Ok(bytes)
    }

    // Adds results to an entry, at the first call: each of this path, with a recorded digest that no
    // file has.
    fn add_results(
        &self,
        entry: &mut PreprocessorCacheEntry,
        count: u64,
        path: &[u8],
    ) -> Result<(), CaseError> {
        let first = self.call(0)?;
        let mut files = first.files.copy(self.alloc)?;
        let included = included_once(self.alloc, path)?;
        for number in 0..count {
            let name = format!(in self.alloc; "z{number}")?;
            entry.add_result(&mut files, first.moment, &name, &included)?;
        }
        Ok(())
    }

    /// Whether a store holds under a key what is held at first.
    pub(crate) fn is_first(&self, store: &MapStore, key: &str) -> bool {
        match (&self.first, store.held(key)) {
            (Some((name, bytes)), Some(held)) => name.as_str() == key && bytes.as_slice() == held,
            _ => false,
        }
    }

    /// A store that holds what is held at first.
    pub(crate) fn first_store(&self) -> Result<MapStore, CaseError> {
        let mut store = MapStore::new(self.alloc);
        if let Some((key, bytes)) = &self.first {
            hold(self.alloc, &mut store, key, bytes)?;
        }
        Ok(store)
    }

    /// The same, armed as the lines `store` of the script say.
    pub(crate) fn store(&self) -> Result<MapStore, CaseError> {
        let mut store = self.first_store()?;
        store.forget_at(self.options.forget_at.unwrap_or(0));
        store.fail_at(self.options.fail_at.unwrap_or(0));
        Ok(store)
    }

    /// How many calls there are.
    pub(crate) fn len(&self) -> usize {
        self.calls.len()
    }

    // The call of this place.
    fn call(&self, place: usize) -> Result<&MiniCall, CaseError> {
        self.calls.get(place).ok_or(CaseError::Line)
    }

    // The calls once more, in the order of their lines.
    fn copies(&self) -> Result<Vec<MiniCall>, CaseError> {
        let mut copies = Vec::new(self.alloc);
        for call in &self.calls {
            copies.push(copy_of(self.alloc, call)?)?;
        }
        Ok(copies)
    }

    /// The call of this place once more.
    pub(crate) fn copy(&self, place: usize) -> Result<MiniCall, CaseError> {
        copy_of(self.alloc, self.call(place)?)
    }

    // Makes calls on a store.
    fn make_all(
        &self,
        store: &mut MapStore,
        calls: &mut [MiniCall],
    ) -> Result<Vec<CallResult>, CaseError> {
        let config = PreprocessorCacheModeConfig::activated();
        let call_results = run_calls::<Sha256State, MiniCompiler, MapFiles, MapStore>(
            self.alloc,
            store,
            &self.zone,
            config,
            &self.options.basedirs,
            calls,
        )?;
        Ok(call_results)
    }

    /// Makes all calls on a store.
    pub(crate) fn make_each(&self, store: &mut MapStore) -> Result<Vec<CallResult>, CaseError> {
        let mut copies = self.copies()?;
        self.make_all(store, &mut copies)
    }

    /// Makes one call on a store, and returns its result.
    pub(crate) fn make(
        &self,
        store: &mut MapStore,
        call: &mut MiniCall,
    ) -> Result<CallResult, CaseError> {
        let mut call_results = self.make_all(store, slice::from_mut(call))?;
        call_results.pop().ok_or(CaseError::Line)
    }

    /// Makes a copy of the call of this place on a store, and returns its result.
    pub(crate) fn make_copy(
        &self,
        store: &mut MapStore,
        place: usize,
    ) -> Result<CallResult, CaseError> {
        let mut copy = self.copy(place)?;
        self.make(store, &mut copy)
    }

    // A call alone.
    fn alone(&self, call: &MiniCall) -> Result<Alone, CaseError> {
        let mut copy = copy_of(self.alloc, call)?;
        self.alone_by(&mut copy)
    }

    // The same, by the copy of the call that is made.
    fn alone_by(&self, copy: &mut MiniCall) -> Result<Alone, CaseError> {
        let mut store = MapStore::new(self.alloc);
        let call_result = self.make(&mut store, copy)?;
        let keys = keys_of(self.alloc, &store)?;
        Ok(Alone {
            call_result,
            store,
            keys,
        })
    }

    /// Each call alone.
    pub(crate) fn each_alone(&self) -> Result<Vec<Alone>, CaseError> {
        let mut all = Vec::new(self.alloc);
        for call in &self.calls {
            all.push(self.alone(call)?)?;
        }
        Ok(all)
    }
}

// A call once more.
fn copy_of(alloc: Global, call: &MiniCall) -> Result<MiniCall, CaseError> {
    let cwd = call.cwd.to_vec(alloc)?;
    let vars = copy_variables(alloc, &call.vars)?;
    let files = call.files.copy(alloc)?;
    match call.hasher.copy(alloc) {
        Ok(hasher) => Ok(Call {
            hasher,
            files,
            cwd,
            vars,
            moment: call.moment,
            control: call.control,
        }),
        Err(_) => Err(CaseError::Util(UtilError::Memory)),
    }
}

// One include: this path, with a recorded digest that no file has.
fn included_once(alloc: Global, path: &[u8]) -> Result<Vec<(String, Vec<u8>)>, CaseError> {
    let mut included = Vec::new(alloc);
    included.push((String::from_str(alloc, "none")?, path.to_vec(alloc)?))?;
    Ok(included)
}

/// The keys under which a store holds something, as `Debug` prints them.
pub(crate) fn keys_of(alloc: Global, store: &MapStore) -> Result<Vec<String>, CaseError> {
    let text = format!(in alloc; "{store:?}")?;
    quoted_in(alloc, &text)
}

// What is between quotes in a text.
fn quoted_in(alloc: Global, text: &str) -> Result<Vec<String>, CaseError> {
    let mut quoted = Vec::new(alloc);
    let mut rest = text;
    for _ in 0..text.len() {
        let Some((_, following)) = rest.split_once('"') else {
            break;
        };
        let (word, left) = following.split_once('"').ok_or(CaseError::Line)?;
        quoted.push(String::from_str(alloc, word)?)?;
        rest = left;
    }
    Ok(quoted)
}

/// Puts bytes under a key.
pub(crate) fn hold(
    alloc: Global,
    store: &mut MapStore,
    key: &str,
    bytes: &[u8],
) -> Result<(), CaseError> {
    match store.put_preprocessor_cache_entry(alloc, key, bytes) {
        Ok(()) => Ok(()),
        Err(_) => Err(CaseError::Util(UtilError::Memory)),
    }
}

/// Whether both stores hold the same bytes under a key, or nothing.
pub(crate) fn is_held_alike(one: &MapStore, other: &MapStore, key: &str) -> bool {
    match (one.held(key), other.held(key)) {
        (Some(bytes), Some(others)) => bytes == others,
        (None, None) => true,
        _ => false,
    }
}

/// Writes `hit KEY`, `miss KEY` or `error N`.
pub(crate) fn write_call_result(
    alloc: Global,
    out: &mut Vec<u8>,
    call_result: &CallResult,
) -> Result<(), AllocError> {
    match call_result {
        Ok(found) => write_key(out, found),
        Err(error) => write_number(alloc, out, "error ", u64::from(error.number())),
    }
}

fn write_key(out: &mut Vec<u8>, found: &HashResult) -> Result<(), AllocError> {
    let word: &[u8] = if found.is_locally_preprocessed {
        b"miss "
    } else {
        b"hit "
    };
    out.extend_from_slice(word)?;
    out.extend_from_slice(found.key.as_bytes())
}
