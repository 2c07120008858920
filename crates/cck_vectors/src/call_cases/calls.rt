//! The calls of this library.
use crate::call_cases::compilers::{self, CompilerCall};
use crate::call_cases::errors;
use crate::call_cases::fixed_compiler::PREPROCESSED;
use crate::call_cases::keys::{self, KeyCall};
use crate::call_cases::lists::{self, FixedCall};
use crate::call_cases::noting_files::NotingFiles;
use crate::call_cases::request::GivenRequest;
use crate::call_cases::stores::{self, Stores};
use crate::cases::{
    CaseError, CaseLine, Given, GivenFiles, Subject, Value, bytes_of, find, number,
};
use c_cache_keys::{HashResult, KeyError};
use cck_util::MapFiles;
use std::alloc::Global;
use std::mem;

/// What lines give to calls for keys.
pub(crate) struct Calls {
    given: Given,
    given_files: GivenFiles,
    request: GivenRequest,
    stores: Stores,
    // What counts calls on one path. Its files are the given ones while a call is made.
    noting: NotingFiles,
    list: Vec<FixedCall>,
    // Whether what is given at first was given.
    is_prepared: bool,
}

impl Drop for Calls {
    fn drop(self) {
        let Calls {
            given: _,
            given_files: _,
            request: _,
            stores: _,
            noting: _,
            list: _,
            is_prepared: _,
        } = self;
    }
}

impl Calls {
    fn prepare(&mut self) -> Result<(), CaseError> {
        if self.is_prepared {
            return Ok(());
        }
        self.request.prepare()?;
        self.noting.path = PREPROCESSED.to_vec(self.given.alloc)?;
        self.is_prepared = true;
        Ok(())
    }

    // Puts the given files where calls on one path are counted, or back.
    fn swap_files(&mut self) {
        mem::swap(&mut self.given_files.files, &mut self.noting.files);
    }

    // Calls for the key of what is given.
    fn compile(&mut self) -> Result<Result<HashResult, KeyError>, CaseError> {
        self.swap_files();
        let (request, given, given_files) = (&self.request, &self.given, &self.given_files);
        let result = if self.stores.is_empty {
            keys::key_of(
                request,
                given,
                given_files,
                &mut self.noting,
                &mut self.stores.empty,
            )
        } else {
            keys::key_of(
                request,
                given,
                given_files,
                &mut self.noting,
                &mut self.stores.map,
            )
        };
        self.swap_files();
        result
    }

    fn preprocess<'a>(&mut self) -> Result<Value<'a>, CaseError> {
        self.swap_files();
        let text = keys::preprocessed_text(
            &self.request,
            &self.given,
            &self.given_files,
            &mut self.noting,
        );
        self.swap_files();
        text
    }

    fn call_each<'a>(&mut self, path: &str) -> Result<Value<'a>, CaseError> {
        let alloc = self.given.alloc;
        let path = bytes_of(alloc, path)?;
        self.swap_files();
        let found = keys::call_each(alloc, &mut self.noting, &path);
        self.swap_files();
        found
    }

    fn key_call<'a>(&mut self, call: KeyCall, rest: &str) -> Result<Value<'a>, CaseError> {
        match call {
            KeyCall::Compile(part) => keys::part_value(self.given.alloc, part, self.compile()?),
            KeyCall::Control => keys::control_shown(&self.request),
            KeyCall::Preprocess => self.preprocess(),
            KeyCall::Preprocessed => Ok(Value::Number(self.noting.count)),
            KeyCall::CallEach => self.call_each(rest),
        }
    }

    fn compiler_call<'a>(&mut self, call: CompilerCall) -> Result<Value<'a>, CaseError> {
        compilers::call(
            call,
            &mut self.request,
            &self.given,
            &mut self.given_files.files,
        )
    }

    fn run_calls<'a>(&mut self) -> Result<Value<'a>, CaseError> {
        if self.stores.is_empty {
            lists::run(
                &self.given,
                &self.given_files,
                &mut self.stores.empty,
                &mut self.list,
            )
        } else {
            lists::run(
                &self.given,
                &self.given_files,
                &mut self.stores.map,
                &mut self.list,
            )
        }
    }

    // Adds a call of what is given to the list.
    fn add_call(&mut self) -> Result<(), CaseError> {
        let is_bytewise = self.noting.is_bytewise;
        let call = lists::call_of(&self.request, &self.given, &self.given_files, is_bytewise)?;
        self.list.push(call)?;
        Ok(())
    }

    // Takes what a line gives to calls in a list and to what counts calls on one path.
    fn give_own(&mut self, word: &str, rest: &str) -> Result<bool, CaseError> {
        match word {
            "add_call" => self.add_call()?,
            "counted_path" => self.noting.path = bytes_of(self.given.alloc, rest)?,
            "count" => self.noting.count = number(rest)?,
            "bytewise" => self.noting.is_bytewise = true,
            _ => return Ok(false),
        }
        Ok(true)
    }

    // Makes a call on errors, a list of calls or a store.
    fn other_call<'a>(
        &'a mut self,
        name: &str,
        line: CaseLine<'a>,
    ) -> Result<Value<'a>, CaseError> {
        if let Some(call) = find(&errors::CALLS, name) {
            return errors::call(self.given.alloc, call, line.rest);
        }
        if name == "run_calls" {
            return self.run_calls();
        }
        match find(&stores::CALLS, name) {
            Some(call) => self.stores.call(call, line),
            None => Err(CaseError::Line),
        }
    }
}

impl Subject for Calls {
    fn new(alloc: Global) -> Calls {
        Calls {
            given: Given::new(alloc),
            given_files: GivenFiles::new(alloc),
            request: GivenRequest::new(alloc),
            stores: Stores::new(alloc),
            noting: NotingFiles {
                files: MapFiles::new(alloc),
                path: Vec::new(alloc),
                count: 0,
                is_bytewise: false,
            },
            list: Vec::new(alloc),
            is_prepared: false,
        }
    }

    fn give(&mut self, word: &str, rest: &str) -> Result<bool, CaseError> {
        self.prepare()?;
        Ok(
            self.request.give(word, rest)?
                || self.stores.give(word, rest)?
                || self.give_own(word, rest)?
                || self.given_files.give(word, rest)?
                || self.given.give(word, rest)?,
        )
    }

    fn is_raw(_: &str) -> bool {
        true
    }

    fn call<'a>(&'a mut self, name: &str, line: CaseLine<'a>) -> Result<Value<'a>, CaseError> {
        self.prepare()?;
        if let Some(call) = find(&keys::CALLS, name) {
            return self.key_call(call, line.rest);
        }
        if let Some(call) = find(&compilers::CALLS, name) {
            return self.compiler_call(call);
        }
        self.other_call(name, line)
    }
}
