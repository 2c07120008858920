//! Compilers that the caller runs.
ghost use Rattle.std.specs.Prelude.{◌≡◌, Err, None};
ghost use Rattle.cck_compiler.specs.Seen.{IsPrinted};
ghost use Rattle.cck_files.specs.Calls.{Keeps, Rose};

use crate::{
    CCompilerImpl, CCompilerKind, CompilerArguments, KeyError, ParsedArguments, PreprocessError,
};
use cck_compiler::copy_text;
use cck_files::Files;
use cck_path::Timestamp;
use std::alloc::Global;

/// A compiler that the caller runs: what keys take of it.
///
/// The caller also parses its command lines and runs its preprocessor. As a [`CCompilerImpl`] it
/// parses no command line as a compilation, and prints nothing.
pub struct ExternalCompiler {
    /// The family.
    pub kind: CCompilerKind,
    /// Whether it is a compiler of C++.
    pub plusplus: bool,
    /// The version, if it has one that is part of keys.
    pub version: Option<String>,
    /// The hex digest of the assembler that it calls, if there is one.
    pub assembler_digest: Option<String>,
}

impl Drop for ExternalCompiler {
    fn drop(self) {
        let ExternalCompiler {
            kind: _,
            plusplus: _,
            version: _,
            assembler_digest: _,
        } = self;
    }
}

impl CCompilerImpl for ExternalCompiler {
    ghost use Rattle.c_cache_keys.specs.External.{External, external_compiler, external_of, no_text};

    ghost Value = { External };

    ghost value = { external_of };

    ghost compiler = { external_compiler no_text };

    fn kind(&self) -> CCompilerKind {
        self.kind
    }

    fn plusplus(&self) -> bool {
        self.plusplus
    }

    fn version(&self) -> Option<&str> {
        match &self.version {
            Some(version) => Some(version.as_str()),
            None => None,
        }
    }

    fn assembler_digest(&self) -> Option<&str> {
        match &self.assembler_digest {
            Some(digest) => Some(digest.as_str()),
            None => None,
        }
    }

    fn parse_arguments(
        &self,
        _: Global,
        _: &[Vec<u8>],
        _: &[u8],
        _: &[(Vec<u8>, Vec<u8>)],
    ) -> Result<CompilerArguments<ParsedArguments>, KeyError> {
        Ok(CompilerArguments::NotCompilation)
    }

    fn preprocess<F: Files>(
        &self,
        _: Global,
        files: &mut F,
        _: &[u8],
        _: &ParsedArguments,
        _: &[u8],
        _: &[(Vec<u8>, Vec<u8>)],
        _: Timestamp,
    ) -> Result<Vec<u8>, PreprocessError>
        ensures keeps { Keeps F.file_map F.faults F.is_quiet files.old files.new }
        ensures outcome { IsPrinted None (Rose (F.faults files.old) (F.faults files.new)) result }
        ensures failed { result ≡ Err PreprocessError.Failed }
    {
        Err(PreprocessError::Failed)
    }

    fn copy(&self, _: Global) -> Result<ExternalCompiler, KeyError> {
        let version = copy_text(&self.version)?;
        let assembler_digest = copy_text(&self.assembler_digest)?;
        Ok(ExternalCompiler {
            kind: self.kind,
            plusplus: self.plusplus,
            version,
            assembler_digest,
        })
    }
}
