//! Compilers whose preprocessor printed a given text.
ghost use Rattle.std.specs.Prelude.{IfOk, IsOkUnless};
ghost use Rattle.c_cache_keys.specs.TextCompiler.{IsTextHasher};

use crate::compiler::ExternalCompiler;
use crate::{
    CCompilerHasher, CCompilerImpl, CCompilerKind, CompilerArguments, KeyError, ParsedArguments,
    PreprocessError,
};
use cck_files::Files;
use cck_path::Timestamp;
use std::alloc::Global;

/// A compiler that the caller runs, and a text that it printed.
///
/// The text is no part of [`ExternalCompiler`]. Two calls of one request may print two texts, so it
/// is no part of a request.
#[derive(Drop)]
pub(crate) struct TextCompiler<'a> {
    /// The compiler.
    pub(crate) compiler: &'a ExternalCompiler,
    /// The text.
    pub(crate) text: &'a [u8],
}

impl<'a> CCompilerImpl for TextCompiler<'a> {
    ghost use Rattle.c_cache_keys.specs.TextCompiler.{WithText, text_compiler, with_text_of};

    ghost Value = { WithText };

    ghost value = { with_text_of };

    ghost compiler = { text_compiler };

    fn kind(&self) -> CCompilerKind {
        self.compiler.kind
    }

    fn plusplus(&self) -> bool {
        self.compiler.plusplus
    }

    fn version(&self) -> Option<&str> {
        self.compiler.version()
    }

    fn assembler_digest(&self) -> Option<&str> {
        self.compiler.assembler_digest()
    }

    fn parse_arguments(
        &self,
        _: Global,
        _: &[Vec<u8>],
        _: &[u8],
        _: &[(Vec<u8>, Vec<u8>)],
    ) -> Result<CompilerArguments<ParsedArguments>, KeyError> {
        Ok(CompilerArguments::NotCompilation)
    }

    fn preprocess<F: Files>(
        &self,
        alloc: Global,
        _: &mut F,
        _: &[u8],
        _: &ParsedArguments,
        _: &[u8],
        _: &[(Vec<u8>, Vec<u8>)],
        _: Timestamp,
    ) -> Result<Vec<u8>, PreprocessError> {
        match self.text.to_vec(alloc) {
            Ok(text) => Ok(text),
            Err(_) => Err(PreprocessError::Memory),
        }
    }

    fn copy(&self, _: Global) -> Result<TextCompiler<'a>, KeyError> {
        Ok(TextCompiler {
            compiler: self.compiler,
            text: self.text,
        })
    }
}

/// The same compilation, whose preprocessor printed this text.
pub(crate) fn text_hasher<'a>(
    alloc: Global,
    hasher: &'a CCompilerHasher<ExternalCompiler>,
    text: &'a [u8],
) -> Result<CCompilerHasher<TextCompiler<'a>>, KeyError>
    ensures same { IfOk result (IsTextHasher hasher.now text.now) }
    ensures errors { IsOkUnless result KeyError.Memory }
{
    Ok(CCompilerHasher {
        compiler: TextCompiler {
            compiler: &hasher.compiler,
            text,
        },
        executable: hasher.executable.to_vec(alloc)?,
        executable_digest: hasher.executable_digest.clone()?,
        parsed_args: hasher.parsed_args.copy(alloc)?,
    })
}
