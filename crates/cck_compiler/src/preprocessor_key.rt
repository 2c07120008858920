//! The preprocessor key.
ghost use Rattle.std.specs.Prelude.{◌≡◌, IfOk, IsOkUnless, map, string_bytes};
ghost use Rattle.std.specs.Option.{option_map};
ghost use Rattle.cck_compiler.specs.PreprocessorKey.{compiler_material, hashed_directory, preprocessor_key};

use cck_digest::{Digest, HashState, UtilError, hash_len_prefixed};
use cck_include::{FORMAT_VERSION, PreprocessorCacheModeConfig};
use cck_util::{CACHE_VERSION, Language, hash_option, hash_request_variables, hash_text_list};
use std::alloc::Global;
use std::marker::Model;

/// The parts of a request that are hashed for its key, besides those that depend on files.
pub struct PreprocessorKeyRequest<'a> {
    /// The hex digest of the compiler.
    pub compiler_digest: &'a str,
    /// Whether the compiler is one of C++.
    pub plusplus: bool,
    /// The language of the input.
    pub language: Language,
    /// Whether the input is compiled for several architectures.
    pub multiarch: bool,
    /// The arguments of the preprocessor.
    pub preprocessor_args: &'a [Vec<u8>],
    /// The arguments that name architectures.
    pub arch_args: &'a [Vec<u8>],
    /// The other arguments.
    pub common_args: &'a [Vec<u8>],
    /// The hex digest of the assembler, if it is part of the key.
    pub assembler_digest: Option<&'a str>,
    /// The variables of the environment, as pairs of a name and a value.
    pub env_vars: &'a [(Vec<u8>, Vec<u8>)],
    /// The path of the input.
    pub input_file: &'a [u8],
    /// The working directory, if it is part of the key.
    pub directory: Option<&'a [u8]>,
}

impl Drop for PreprocessorKeyRequest<'_> {
    fn drop(self) {
        let PreprocessorKeyRequest {
            compiler_digest: _,
            plusplus: _,
            language: _,
            multiarch: _,
            preprocessor_args: _,
            arch_args: _,
            common_args: _,
            assembler_digest: _,
            env_vars: _,
            input_file: _,
            directory: _,
        } = self;
    }
}

impl<'a> Model for PreprocessorKeyRequest<'a> {
    ghost use Rattle.cck_compiler.specs.PreprocessorKey.{RequestParts};

    ghost Value = { RequestParts };

    ghost use Rattle.cck_compiler.specs.PreprocessorKeyRequest.{parts_of};

    ghost view = { parts_of };
}

/// Returns the working directory, if the options make it part of the key.
pub fn hashed_directory(config: PreprocessorCacheModeConfig, cwd: &[u8]) -> Option<&[u8]>
    ensures { option_map (λ directory. directory.now) result ≡ hashed_directory config cwd.now }
{
    if config.hash_working_directory {
        Some(cwd)
    } else {
        None
    }
}

// Returns a digest that was fed the versions, the compiler and how it is run.
#[tactic(auto, unfolding(crate::specs::PreprocessorKey::compiler_material))]
fn compiler_material<H: HashState>(request: &PreprocessorKeyRequest<'_>) -> Digest<H>
    ensures { H.holds result (compiler_material request.now) }
{
    let mut digest = Digest::<H>::new();
    digest.update(&[FORMAT_VERSION]);
    hash_len_prefixed(&mut digest, CACHE_VERSION);
    hash_len_prefixed(&mut digest, request.compiler_digest.as_bytes());
    digest.update(&[u8::from(request.plusplus)]);
    hash_len_prefixed(&mut digest, request.language.as_str().as_bytes());
    digest.update(&[u8::from(request.multiarch)]);
    digest
}

impl PreprocessorKeyRequest<'_> {
    /// Returns the preprocessor key, with the hex digests of the extra files and the recorded digest of
    /// the input: the hex digest of the key material.
    ///
    /// The key material is, in this order: the byte [`FORMAT_VERSION`]; a frame of [`CACHE_VERSION`]; a
    /// frame of the compiler's hex digest; the byte 1 for C++ and otherwise 0; a frame of the
    /// language's name; the byte 1 for several architectures and otherwise 0; the lists of the
    /// preprocessor's arguments, of those of architectures and of the common ones, all unchanged; the
    /// list of the hex digests of the extra files; the assembler's hex digest, as an option; the list
    /// of the variables that change what is compiled or which files a preprocessor finds, each as a
    /// frame of its name and one of its value; a frame of the input's path; the working directory, as
    /// an option; and a frame of the recorded digest of the input. Frames, lists and options are those
    /// of the object's key.
    ///
    /// The only error is [`UtilError::Memory`].
    #[tactic(auto, unfolding(crate::specs::PreprocessorKey::preprocessor_material))]
    pub fn compute<H: HashState>(
        &self,
        alloc: Global,
        extra_hashes: &[String],
        recorded: &str,
    ) -> Result<String, UtilError>
        ensures key { IfOk result (λ key. string_bytes key
            ≡ preprocessor_key H.hash self.now (map string_bytes extra_hashes.now) recorded.now) }
        ensures errors { IsOkUnless result UtilError.Memory }
    {
        let mut digest = compiler_material::<H>(self);
        hash_text_list(&mut digest, self.preprocessor_args);
        hash_text_list(&mut digest, self.arch_args);
        hash_text_list(&mut digest, self.common_args);
        hash_text_list(&mut digest, extra_hashes);
        hash_option(&mut digest, self.assembler_digest);
        hash_request_variables(&mut digest, self.env_vars);
        hash_len_prefixed(&mut digest, self.input_file);
        hash_option(&mut digest, self.directory);
        hash_len_prefixed(&mut digest, recorded.as_bytes());
        digest.finish(alloc)
    }
}
