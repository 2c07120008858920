//! What lines give of the compilation that a key is asked for.
use crate::call_cases::arguments;
use crate::call_cases::fixed_compiler::{FixedCompiler, FixedReading};
use crate::cases::{CaseError, bytes_of, find};
use c_cache_keys::{CCompilerHasher, CCompilerKind, CacheControl};
use cck_util::Language;
use std::alloc::Global;

#[derive(Clone, Copy)]
enum BytesWord {
    Printed,
    Executable,
    Cwd,
}

const BYTES_WORDS: [(&str, BytesWord); 3] = [
    ("printed", BytesWord::Printed),
    ("executable", BytesWord::Executable),
    ("cwd", BytesWord::Cwd),
];

#[derive(Clone, Copy)]
enum TextWord {
    Digest,
    Version,
    Assembler,
    CannotCacheFor,
}

const TEXT_WORDS: [(&str, TextWord); 4] = [
    ("compiler", TextWord::Digest),
    ("version", TextWord::Version),
    ("assembler", TextWord::Assembler),
    ("cannot_cache_for", TextWord::CannotCacheFor),
];

#[derive(Clone, Copy)]
enum FlagWord {
    Plusplus,
    Reading(FixedReading),
    Control(CacheControl),
}

const FLAG_WORDS: [(&str, FlagWord); 5] = [
    ("plusplus", FlagWord::Plusplus),
    ("cannot_cache", FlagWord::Reading(FixedReading::CannotCache)),
    (
        "not_compilation",
        FlagWord::Reading(FixedReading::NotCompilation),
    ),
    ("recache", FlagWord::Control(CacheControl::ForceRecache)),
    ("any_key", FlagWord::Control(CacheControl::Default)),
];

const KINDS: [(&str, CCompilerKind); 10] = [
    ("gcc", CCompilerKind::Gcc),
    ("clang", CCompilerKind::Clang),
    ("diab", CCompilerKind::Diab),
    ("msvc", CCompilerKind::Msvc),
    ("nvcc", CCompilerKind::Nvcc),
    ("cudafe", CCompilerKind::CudaFE),
    ("cicc", CCompilerKind::Cicc),
    ("ptxas", CCompilerKind::Ptxas),
    ("nvhpc", CCompilerKind::Nvhpc),
    ("taskingvx", CCompilerKind::TaskingVX),
];

/// What lines give of the compilation that a key is asked for.
pub(crate) struct GivenRequest {
    /// The allocator of all that is given.
    pub(crate) alloc: Global,
    /// The compilation. At first `/usr/bin/cc` with the digest `abcd`, a GCC that prints nothing,
    /// and the input `a.c` of C alone.
    pub(crate) hasher: CCompilerHasher<FixedCompiler>,
    /// The working directory. `/w` at first.
    pub(crate) cwd: Vec<u8>,
    /// Whether a stored key may be returned. It may at first.
    pub(crate) control: CacheControl,
}

impl Drop for GivenRequest {
    fn drop(self) {
        let GivenRequest {
            alloc: _,
            hasher: _,
            cwd: _,
            control: _,
        } = self;
    }
}

fn no_compilation(alloc: Global) -> CCompilerHasher<FixedCompiler> {
    CCompilerHasher {
        compiler: FixedCompiler {
            text: Vec::new(alloc),
            kind: CCompilerKind::Gcc,
            plusplus: false,
            version: None,
            assembler: None,
            reading: FixedReading::Compilation,
            parsed: arguments::no_arguments(alloc),
            detail: None,
        },
        executable: Vec::new(alloc),
        executable_digest: String::new(alloc),
        parsed_args: arguments::no_arguments(alloc),
    }
}

impl GivenRequest {
    /// Nothing is given, the texts that are given at first neither.
    pub(crate) fn new(alloc: Global) -> GivenRequest {
        GivenRequest {
            alloc,
            hasher: no_compilation(alloc),
            cwd: Vec::new(alloc),
            control: CacheControl::Default,
        }
    }

    /// Gives the texts that are given at first.
    pub(crate) fn prepare(&mut self) -> Result<(), CaseError> {
        self.hasher.executable = b"/usr/bin/cc".to_vec(self.alloc)?;
        self.hasher.executable_digest = String::from_str(self.alloc, "abcd")?;
        self.hasher.parsed_args.input = b"a.c".to_vec(self.alloc)?;
        self.cwd = b"/w".to_vec(self.alloc)?;
        Ok(())
    }

    /// Takes what a line gives, and returns whether it knows the line's word.
    pub(crate) fn give(&mut self, name: &str, rest: &str) -> Result<bool, CaseError> {
        if let Some(word) = find(&BYTES_WORDS, name) {
            self.give_bytes(word, rest)?;
        } else if let Some(word) = find(&TEXT_WORDS, name) {
            self.give_text(word, rest)?;
        } else if let Some(word) = find(&FLAG_WORDS, name) {
            self.give_flag(word);
        } else {
            return self.give_name(name, rest);
        }
        Ok(true)
    }

    fn give_bytes(&mut self, word: BytesWord, rest: &str) -> Result<(), CaseError> {
        let bytes = bytes_of(self.alloc, rest)?;
        match word {
            BytesWord::Printed => self.hasher.compiler.text = bytes,
            BytesWord::Executable => self.hasher.executable = bytes,
            BytesWord::Cwd => self.cwd = bytes,
        }
        Ok(())
    }

    fn give_text(&mut self, word: TextWord, rest: &str) -> Result<(), CaseError> {
        let text = String::from_str(self.alloc, rest)?;
        let hasher = &mut self.hasher;
        match word {
            TextWord::Digest => hasher.executable_digest = text,
            TextWord::Version => hasher.compiler.version = Some(text),
            TextWord::Assembler => hasher.compiler.assembler = Some(text),
            TextWord::CannotCacheFor => {
                hasher.compiler.reading = FixedReading::CannotCache;
                hasher.compiler.detail = Some(text);
            }
        }
        Ok(())
    }

    fn give_flag(&mut self, word: FlagWord) {
        match word {
            FlagWord::Plusplus => self.hasher.compiler.plusplus = true,
            FlagWord::Reading(reading) => self.hasher.compiler.reading = reading,
            FlagWord::Control(control) => self.control = control,
        }
    }

    // Takes the name of a family or of a language, or what is given of the command line.
    fn give_name(&mut self, name: &str, rest: &str) -> Result<bool, CaseError> {
        match name {
            "kind" => self.hasher.compiler.kind = find(&KINDS, rest).ok_or(CaseError::Line)?,
            "language" => self.hasher.parsed_args.language = rest.parse::<Language>()?,
            _ => return arguments::give(self.alloc, &mut self.hasher.parsed_args, name, rest),
        }
        Ok(true)
    }
}
