//! Stores.
use crate::cases::{CaseError, CaseLine, Value, find, number};
use c_cache_keys::{EmptyStore, MapStore, PreprocessorStore, StoreError};
use cck_util::UtilError;
use std::alloc::Global;

#[derive(Clone, Copy)]
pub(crate) enum StoreCall {
    Put,
    Get,
    Held,
    Holds,
    Shown,
    Count,
}

pub(crate) const CALLS: [(&str, StoreCall); 6] = [
    ("store_put", StoreCall::Put),
    ("store_get", StoreCall::Get),
    ("held", StoreCall::Held),
    ("holds", StoreCall::Holds),
    ("store_shown", StoreCall::Shown),
    ("store_calls", StoreCall::Count),
];

#[derive(Clone, Copy)]
enum NumberWord {
    FailAt,
    FailAfter,
    ForgetAt,
}

#[derive(Clone, Copy)]
enum Word {
    Number(NumberWord),
    New,
    Empty,
}

const WORDS: [(&str, Word); 5] = [
    ("store_fail_at", Word::Number(NumberWord::FailAt)),
    ("store_fail_after", Word::Number(NumberWord::FailAfter)),
    ("store_forget_at", Word::Number(NumberWord::ForgetAt)),
    ("new_store", Word::New),
    ("empty_store", Word::Empty),
];

/// The stores that calls are made on: one in memory or, after `empty_store`, one that keeps
/// nothing.
pub(crate) struct Stores {
    /// The allocator of the stores.
    pub(crate) alloc: Global,
    /// The store in memory.
    pub(crate) map: MapStore,
    /// The store that keeps nothing.
    pub(crate) empty: EmptyStore,
    /// Whether calls are made on the store that keeps nothing.
    pub(crate) is_empty: bool,
}

impl Drop for Stores {
    fn drop(self) {
        let Stores {
            alloc: _,
            map: _,
            empty: _,
            is_empty: _,
        } = self;
    }
}

impl Stores {
    /// A store in memory that holds nothing.
    pub(crate) fn new(alloc: Global) -> Stores {
        Stores {
            alloc,
            map: MapStore::new(alloc),
            empty: EmptyStore::new(),
            is_empty: false,
        }
    }

    /// Takes what a line gives, and returns whether it knows the line's word.
    pub(crate) fn give(&mut self, name: &str, rest: &str) -> Result<bool, CaseError> {
        let Some(word) = find(&WORDS, name) else {
            return Ok(false);
        };
        match word {
            Word::Number(word) => self.give_number(word, number(rest)?),
            Word::New => self.map = MapStore::new(self.alloc),
            Word::Empty => self.is_empty = true,
        }
        Ok(true)
    }

    fn give_number(&mut self, word: NumberWord, number: u64) {
        match word {
            NumberWord::FailAt => self.map.fail_at(number),
            NumberWord::FailAfter => self.map.fail_after(number),
            NumberWord::ForgetAt => self.map.forget_at(number),
        }
    }

    /// Makes a call on the store.
    pub(crate) fn call<'a>(
        &'a mut self,
        call: StoreCall,
        line: CaseLine<'a>,
    ) -> Result<Value<'a>, CaseError> {
        match call {
            StoreCall::Put => self.put(line.rest, line.bytes),
            StoreCall::Get => self.get(line.rest),
            StoreCall::Held => Ok(Value::Part(self.map.held(line.rest))),
            StoreCall::Holds => Ok(Value::Flag(self.map.held(line.rest).is_some())),
            StoreCall::Shown if self.is_empty => shown_empty(self.alloc, &self.empty),
            StoreCall::Shown => shown_map(self.alloc, &self.map),
            StoreCall::Count => Ok(Value::Number(self.map.calls())),
        }
    }

    fn put<'a>(&mut self, key: &str, bytes: &[u8]) -> Result<Value<'a>, CaseError> {
        let alloc = self.alloc;
        let put = if self.is_empty {
            self.empty.put_preprocessor_cache_entry(alloc, key, bytes)
        } else {
            self.map.put_preprocessor_cache_entry(alloc, key, bytes)
        };
        match put {
            Ok(()) => Ok(Value::Word("done")),
            Err(error) => error_value(error),
        }
    }

    fn get<'a>(&mut self, key: &str) -> Result<Value<'a>, CaseError> {
        let alloc = self.alloc;
        let found = if self.is_empty {
            self.empty.get_preprocessor_cache_entry(alloc, key)
        } else {
            self.map.get_preprocessor_cache_entry(alloc, key)
        };
        match found {
            Ok(found) => Ok(Value::Found(found)),
            Err(error) => error_value(error),
        }
    }
}

fn error_value<'a>(error: StoreError) -> Result<Value<'a>, CaseError> {
    match error {
        StoreError::Fault => Ok(Value::Word("error Fault")),
        StoreError::Memory => Err(CaseError::Util(UtilError::Memory)),
    }
}

fn shown_map<'a>(alloc: Global, store: &MapStore) -> Result<Value<'a>, CaseError> {
    Ok(Value::Text(format!(in alloc; "{store:?}")?))
}

fn shown_empty<'a>(alloc: Global, store: &EmptyStore) -> Result<Value<'a>, CaseError> {
    Ok(Value::Text(format!(in alloc; "{store:?}")?))
}
