//! The key of an object.
ghost use Rattle.std.specs.Prelude.{◌≡◌, ◌++◌, ◌∷◌, [], IfOk, IsOkUnless, string_bytes, map};
ghost use Rattle.std.specs.Option.{option_map};
ghost use Rattle.cck_digest.specs.Frames.{frame};
ghost use Rattle.cck_path.specs.Bytes.{lists_of, variables_of};
ghost use Rattle.cck_util.specs.Key.{cache_version, flag_byte, object_key, plain_params};
ghost use Rattle.cck_util.specs.Language.{language_name};

use crate::Language;
use crate::frames::{hash_argument_list, hash_option, hash_text_list};
use crate::variables::hash_object_variables;
use cck_digest::{Digest, HashState, UtilError, hash_len_prefixed};
use cck_strip::strip_basedirs;
use std::alloc::{AllocError, Global};
use std::marker::Model;

/// The version of the key material, and part of it. It is raised when the key material of equal
/// inputs changes.
///
/// Upstream's `CACHE_VERSION`.
pub const CACHE_VERSION: &[u8] = b"14";

/// The parts of which the key of an object is made.
///
/// Upstream's `HashKeyParams`. Parts that are not set are empty, false or `None`. Neither `new` nor
/// the calls that set a part allocate memory.
///
/// ```rust
/// let key = HashKeyParams::new(digest, Language::C, &arguments, text)
///     .with_plusplus(false)
///     .compute::<Sha256State>(alloc)?;
/// ```
#[derive(Debug)]
pub struct HashKeyParams<'a> {
    compiler_digest: &'a str,
    language: Language,
    arguments: &'a [Vec<u8>],
    preprocessor_output: &'a [u8],
    extra_hashes: &'a [String],
    env_vars: &'a [(Vec<u8>, Vec<u8>)],
    plusplus: bool,
    basedirs: &'a [Vec<u8>],
    assembler_digest: Option<&'a str>,
}

impl Drop for HashKeyParams<'_> {
    fn drop(self) {
        let HashKeyParams {
            compiler_digest: _,
            language: _,
            arguments: _,
            preprocessor_output: _,
            extra_hashes: _,
            env_vars: _,
            plusplus: _,
            basedirs: _,
            assembler_digest: _,
        } = self;
    }
}

impl<'a> Model for HashKeyParams<'a> {
    ghost use Rattle.cck_util.specs.Key.{Params};

    ghost Value = { Params };

    ghost use Rattle.cck_util.specs.HashKeyParams.{params_of};

    ghost view = { params_of };
}

// By hand, since a derived clone calls one for each field, and these are all copied.
impl Clone for HashKeyParams<'_> {
    ghost use Rattle.std.specs.Prelude.{⊤};

    ghost is_clone = { λ parts copy. copy ≡ parts };

    ghost is_infallible = { λ _. ⊤ };

    fn clone(&self) -> Result<Self, AllocError> {
        Ok(HashKeyParams {
            compiler_digest: self.compiler_digest,
            language: self.language,
            arguments: self.arguments,
            preprocessor_output: self.preprocessor_output,
            extra_hashes: self.extra_hashes,
            env_vars: self.env_vars,
            plusplus: self.plusplus,
            basedirs: self.basedirs,
            assembler_digest: self.assembler_digest,
        })
    }
}

impl<'a> HashKeyParams<'a> {
    /// Returns these parts, with no other part set.
    pub fn new(
        compiler_digest: &'a str,
        language: Language,
        arguments: &'a [Vec<u8>],
        preprocessor_output: &'a [u8],
    ) -> HashKeyParams<'a>
        ensures { result ≡ plain_params compiler_digest.now language
            (lists_of arguments.now) preprocessor_output.now }
    {
        HashKeyParams {
            compiler_digest,
            language,
            arguments,
            preprocessor_output,
            extra_hashes: &[],
            env_vars: &[],
            plusplus: false,
            basedirs: &[],
            assembler_digest: None,
        }
    }

    /// Sets the hex digests of the extra files, which the compiler reads too.
    pub fn with_extra_hashes(mut self, extra_hashes: &'a [String]) -> HashKeyParams<'a>
        ensures { result ≡ record self.entry { extra_hashes = map string_bytes extra_hashes.now } }
    {
        self.extra_hashes = extra_hashes;
        self
    }

    /// Sets the variables of the environment, as pairs of a name and a value. Those that change a
    /// compiler's output are part of the key, in this order.
    pub fn with_env_vars(mut self, env_vars: &'a [(Vec<u8>, Vec<u8>)]) -> HashKeyParams<'a>
        ensures { result ≡ record self.entry { env_vars = variables_of env_vars.now } }
    {
        self.env_vars = env_vars;
        self
    }

    /// Sets whether the compiler treats its inputs as C++.
    pub fn with_plusplus(mut self, plusplus: bool) -> HashKeyParams<'a>
        ensures { result ≡ record self.entry { plusplus = plusplus } }
    {
        self.plusplus = plusplus;
        self
    }

    /// Sets the base directories. They are cut out of the arguments and the text, so that checkouts
    /// in different directories can share a key.
    pub fn with_basedirs(mut self, basedirs: &'a [Vec<u8>]) -> HashKeyParams<'a>
        ensures { result ≡ record self.entry { basedirs = lists_of basedirs.now } }
    {
        self.basedirs = basedirs;
        self
    }

    /// Sets the hex digest of the assembler that the compiler runs, or `None` where it runs none.
    pub fn with_assembler_digest(mut self, assembler_digest: Option<&'a str>) -> HashKeyParams<'a>
        ensures { result ≡ record self.entry { assembler_digest = option_map (λ d. d.now) assembler_digest.entry } }
    {
        self.assembler_digest = assembler_digest;
        self
    }

    /// Returns the key of these parts: the hex digest of the key material.
    ///
    /// The key material is, in this order: a frame of [`CACHE_VERSION`]; a frame of the compiler's
    /// hex digest; the byte 1 for C++ and otherwise 0; a frame of the language's name; the list of
    /// the arguments without the base directories; the list of the hex digests of the extra files;
    /// the hex digest of the assembler, as an option; the list of the variables that are part of
    /// the key, each as a frame of its name and one of its value; and a frame of the text without
    /// the base directories. A frame is a length in 8 bytes, lowest byte first, and the bytes. A
    /// list is its count in 8 such bytes, then each item, in order; an item is a frame where
    /// nothing else is said. An option is a byte 0, or a byte 1 and a frame.
    ///
    /// The only error is [`UtilError::Memory`].
    #[tactic(auto, unfolding(crate::specs::Key::material))]
    pub fn compute<H: HashState>(&self, alloc: Global) -> Result<String, UtilError>
        ensures key { IfOk result (λ key. string_bytes key ≡ object_key H.hash self.now) }
        ensures errors { IsOkUnless result UtilError.Memory }
    {
        let output = strip_basedirs(alloc, self.preprocessor_output, self.basedirs)?;
        let mut digest = self.begun::<H>();
        hash_argument_list(alloc, &mut digest, self.arguments, self.basedirs)?;
        hash_text_list(&mut digest, self.extra_hashes);
        hash_option(&mut digest, self.assembler_digest);
        hash_object_variables(&mut digest, self.env_vars);
        hash_len_prefixed(&mut digest, output.as_slice());
        digest.finish(alloc)
    }

    // Returns a digest that was fed what is hashed first: the version, the compiler and the language.
    fn begun<H: HashState>(&self) -> Digest<H>
        ensures { H.holds result (frame cache_version ++ frame self.now.compiler_digest
            ++ flag_byte self.now.plusplus ∷ [] ++ frame (language_name self.now.language)) }
    {
        let mut digest = Digest::<H>::new();
        hash_len_prefixed(&mut digest, CACHE_VERSION);
        hash_len_prefixed(&mut digest, self.compiler_digest.as_bytes());
        digest.update(&[u8::from(self.plusplus)]);
        hash_len_prefixed(&mut digest, self.language.as_str().as_bytes());
        digest
    }
}
