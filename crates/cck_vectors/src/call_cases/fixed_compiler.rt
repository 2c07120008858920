//! A compiler whose every result was given to it.

use c_cache_keys::{
    CCompilerImpl, CCompilerKind, CompilerArguments, KeyError, ParsedArguments, PreprocessError,
};
use cck_compiler::copy_text;
use cck_files::Files;
use cck_path::join_path;
use cck_util::{FileError, Timestamp};
use std::alloc::Global;

/// The path that [`FixedCompiler`] asks for each time it preprocesses.
pub const PREPROCESSED: &[u8] = b"/preprocessed";

/// What a [`FixedCompiler`] parses each command line into.
#[derive(Copy, Clone)]
pub enum FixedReading {
    /// A compilation of its parsed arguments.
    Compilation,
    /// A compilation that can't be cached, because of `-E` and its detail.
    CannotCache,
    /// No compilation.
    NotCompilation,
}

/// A compiler whose every result was given to it. Its preprocessor prints one text for every input
/// that is a regular file, and none for any other input.
///
/// Each time it preprocesses it asks first whether something is at [`PREPROCESSED`], and does
/// nothing with the result.
pub struct FixedCompiler {
    /// The text that is printed.
    pub text: Vec<u8>,
    /// The family.
    pub kind: CCompilerKind,
    /// Whether it is a compiler of C++.
    pub plusplus: bool,
    /// The version, if there is one.
    pub version: Option<String>,
    /// The hex digest of the assembler, if there is one.
    pub assembler: Option<String>,
    /// What each command line is parsed into.
    pub reading: FixedReading,
    /// The arguments of a compilation.
    pub parsed: ParsedArguments,
    /// The detail where the result can't be cached.
    pub detail: Option<String>,
}

impl Drop for FixedCompiler {
    fn drop(self) {
        let FixedCompiler {
            text: _,
            kind: _,
            plusplus: _,
            version: _,
            assembler: _,
            reading: _,
            parsed: _,
            detail: _,
        } = self;
    }
}

impl CCompilerImpl for FixedCompiler {
    ghost use Rattle.cck_vectors.specs.FixedCompiler.{Fixed, fixed_compiler, fixed_of};

    ghost Value = { Fixed };

    ghost value = { fixed_of };

    ghost compiler = { fixed_compiler };

    fn kind(&self) -> CCompilerKind {
        self.kind
    }

    fn plusplus(&self) -> bool {
        self.plusplus
    }

    fn version(&self) -> Option<&str> {
        match &self.version {
            Some(version) => Some(version.as_str()),
            None => None,
        }
    }

    fn assembler_digest(&self) -> Option<&str> {
        match &self.assembler {
            Some(digest) => Some(digest.as_str()),
            None => None,
        }
    }

    fn parse_arguments(
        &self,
        alloc: Global,
        _: &[Vec<u8>],
        _: &[u8],
        _: &[(Vec<u8>, Vec<u8>)],
    ) -> Result<CompilerArguments<ParsedArguments>, KeyError> {
        match self.reading {
            FixedReading::Compilation => Ok(CompilerArguments::Ok(self.parsed.copy(alloc)?)),
            FixedReading::CannotCache => {
                Ok(CompilerArguments::CannotCache("-E", copy_text(&self.detail)?))
            }
            FixedReading::NotCompilation => Ok(CompilerArguments::NotCompilation),
        }
    }

    #[tactic(auto, using(cck_files::proofs::CallsLemmas::rose_earlier))]
    fn preprocess<F: Files>(
        &self,
        alloc: Global,
        files: &mut F,
        _: &[u8],
        parsed_args: &ParsedArguments,
        cwd: &[u8],
        _: &[(Vec<u8>, Vec<u8>)],
        _: Timestamp,
    ) -> Result<Vec<u8>, PreprocessError> {
        let _ = files.exists(PREPROCESSED);
        let input = match join_path(alloc, cwd, &parsed_args.input) {
            Ok(input) => input,
            Err(_) => return Err(PreprocessError::Memory),
        };
        match files.read_at(&input, 0, &mut []) {
            Ok(_) => {}
            Err(FileError::Fault) => return Err(PreprocessError::Fault),
            Err(FileError::Memory) => return Err(PreprocessError::Memory),
            Err(_) => return Err(PreprocessError::Failed),
        }
        match self.text.to_vec(alloc) {
            Ok(text) => Ok(text),
            Err(_) => Err(PreprocessError::Memory),
        }
    }

    fn copy(&self, alloc: Global) -> Result<FixedCompiler, KeyError> {
        let version = copy_text(&self.version)?;
        let assembler = copy_text(&self.assembler)?;
        let detail = copy_text(&self.detail)?;
        Ok(FixedCompiler {
            text: self.text.to_vec(alloc)?,
            kind: self.kind,
            plusplus: self.plusplus,
            version,
            assembler,
            reading: self.reading,
            parsed: self.parsed.copy(alloc)?,
            detail,
        })
    }
}
