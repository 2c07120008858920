//! What lines give to calls on bytes, arguments and keys.
use crate::cases::case_error::CaseError;
use crate::cases::table::find;
use crate::cases::text::{bytes_of, variables_of, words_of};
use cck_util::Language;
use std::alloc::Global;

#[derive(Clone, Copy)]
enum Word {
    Basedirs,
    Arguments,
    Variables,
    ExtraHashes,
    Compiler,
    Language,
    Plusplus,
    Multiarch,
    Assembler,
    Base,
}

const WORDS: [(&str, Word); 10] = [
    ("basedirs", Word::Basedirs),
    ("arguments", Word::Arguments),
    ("variables", Word::Variables),
    ("extra_hashes", Word::ExtraHashes),
    ("compiler", Word::Compiler),
    ("language", Word::Language),
    ("plusplus", Word::Plusplus),
    ("multiarch", Word::Multiarch),
    ("assembler", Word::Assembler),
    ("base", Word::Base),
];

/// What lines give to calls on bytes, arguments and keys.
pub(crate) struct Given {
    /// The allocator of all that is given.
    pub(crate) alloc: Global,
    /// `basedirs LIST`: the base directories. None at first.
    pub(crate) basedirs: Vec<Vec<u8>>,
    /// `arguments LIST`: the arguments of a compiler. None at first.
    pub(crate) arguments: Vec<Vec<u8>>,
    /// `variables NAME=VALUE ..`: the variables of the environment. None at first.
    pub(crate) variables: Vec<(Vec<u8>, Vec<u8>)>,
    /// `extra_hashes DIGEST ..`: the hex digests of extra files, unchanged. None at first.
    pub(crate) extra_hashes: Vec<String>,
    /// `compiler DIGEST`: the hex digest of the compiler, unchanged. `abcd` at first.
    pub(crate) compiler: Option<String>,
    /// `language NAME`: the language of an input. C at first.
    pub(crate) language: Language,
    /// `plusplus`: whether the compiler reads its input as C++. It doesn't at first.
    pub(crate) plusplus: bool,
    /// `multiarch`: whether there are several architectures. There aren't at first.
    pub(crate) multiarch: bool,
    /// `assembler DIGEST`: the hex digest of the assembler, unchanged. None at first.
    pub(crate) assembler: Option<String>,
    /// `base TEXT`: the first of two texts or paths that a call takes. Empty at first.
    pub(crate) base: Vec<u8>,
}

impl Drop for Given {
    fn drop(self) {
        let Given {
            alloc: _,
            basedirs: _,
            arguments: _,
            variables: _,
            extra_hashes: _,
            compiler: _,
            language: _,
            plusplus: _,
            multiarch: _,
            assembler: _,
            base: _,
        } = self;
    }
}

fn set_words(alloc: Global, words: &mut Vec<Vec<u8>>, text: &str) -> Result<(), CaseError> {
    *words = words_of(alloc, text)?;
    Ok(())
}

fn set_text(alloc: Global, place: &mut Option<String>, text: &str) -> Result<(), CaseError> {
    *place = Some(String::from_str(alloc, text)?);
    Ok(())
}

impl Given {
    /// Returns the state in which nothing is given.
    pub(crate) fn new(alloc: Global) -> Given {
        Given {
            alloc,
            basedirs: Vec::new(alloc),
            arguments: Vec::new(alloc),
            variables: Vec::new(alloc),
            extra_hashes: Vec::new(alloc),
            compiler: None,
            language: Language::C,
            plusplus: false,
            multiarch: false,
            assembler: None,
            base: Vec::new(alloc),
        }
    }

    /// Returns the hex digest of the compiler.
    pub(crate) fn compiler(&self) -> &str {
        match &self.compiler {
            Some(text) => text.as_str(),
            None => "abcd",
        }
    }

    /// Returns the hex digest of the assembler, if one is given.
    pub(crate) fn assembler(&self) -> Option<&str> {
        match &self.assembler {
            Some(text) => Some(text.as_str()),
            None => None,
        }
    }

    /// Applies a line, and returns whether its word is known here.
    pub(crate) fn give(&mut self, name: &str, rest: &str) -> Result<bool, CaseError> {
        let Some(word) = find(&WORDS, name) else {
            return Ok(false);
        };
        match word {
            Word::Basedirs => set_words(self.alloc, &mut self.basedirs, rest)?,
            Word::Arguments => set_words(self.alloc, &mut self.arguments, rest)?,
            Word::Variables => self.set_variables(rest)?,
            Word::ExtraHashes => self.set_hashes(rest)?,
            Word::Compiler => set_text(self.alloc, &mut self.compiler, rest)?,
            Word::Language => self.set_language(rest)?,
            Word::Plusplus => self.plusplus = true,
            Word::Multiarch => self.multiarch = true,
            Word::Assembler => set_text(self.alloc, &mut self.assembler, rest)?,
            Word::Base => self.set_base(rest)?,
        }
        Ok(true)
    }

    fn set_variables(&mut self, rest: &str) -> Result<(), CaseError> {
        self.variables = variables_of(self.alloc, rest)?;
        Ok(())
    }

    fn set_language(&mut self, name: &str) -> Result<(), CaseError> {
        self.language = name.parse::<Language>()?;
        Ok(())
    }

    fn set_base(&mut self, text: &str) -> Result<(), CaseError> {
        self.base = bytes_of(self.alloc, text)?;
        Ok(())
    }

    fn set_hashes(&mut self, rest: &str) -> Result<(), CaseError> {
        self.extra_hashes.clear();
        for word in rest.split_whitespace() {
            self.extra_hashes.push(String::from_str(self.alloc, word)?)?;
        }
        Ok(())
    }
}
