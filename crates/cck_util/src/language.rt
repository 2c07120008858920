//! The languages of compiler inputs, and their names.
ghost use Rattle.std.specs.Prelude.{◌≡◌};
ghost use Rattle.cck_util.specs.Language.{NamesLanguage, is_preprocessed_first, language_name};

use std::str::FromStr;
use thiserror::Error;

/// The language of an input.
///
/// Upstream's `compiler::Language`.
#[derive(Debug, Copy, Clone, PartialEq, Eq)]
pub enum Language {
    /// Assembly.
    Assembler,
    /// Assembly that is preprocessed by the C preprocessor first.
    AssemblerToPreprocess,
    /// C.
    C,
    /// A C header.
    CHeader,
    /// C that is already preprocessed.
    CPreprocessed,
    /// C++.
    Cxx,
    /// A C++ header.
    CxxHeader,
    /// C++ that is already preprocessed.
    CxxPreprocessed,
    /// A header of either C or C++.
    GenericHeader,
    /// Objective-C.
    ObjectiveC,
    /// Objective-C that is already preprocessed.
    ObjectiveCPreprocessed,
    /// Objective-C++.
    ObjectiveCxx,
    /// Objective-C++ that is already preprocessed.
    ObjectiveCxxPreprocessed,
    /// CUDA.
    Cuda,
    /// HIP.
    Hip,
}

/// The error for a text that is no language's name.
#[derive(Debug, Copy, Clone, PartialEq, Eq, Error)]
#[error("no language has this name")]
pub struct UnknownLanguage;

impl Language {
    /// Every language, each once.
    pub const ALL: [Language; 15] = [
        Language::Assembler,
        Language::AssemblerToPreprocess,
        Language::C,
        Language::CHeader,
        Language::CPreprocessed,
        Language::Cxx,
        Language::CxxHeader,
        Language::CxxPreprocessed,
        Language::GenericHeader,
        Language::ObjectiveC,
        Language::ObjectiveCPreprocessed,
        Language::ObjectiveCxx,
        Language::ObjectiveCxxPreprocessed,
        Language::Cuda,
        Language::Hip,
    ];

    /// Returns the name of the language, as it is part of a key. No two languages share a name.
    ///
    /// Upstream's `Language::as_str`.
    pub fn as_str(&self) -> &'static str
        ensures { result.now ≡ language_name self.now }
    {
        match self {
            Language::Assembler => "assembler",
            Language::AssemblerToPreprocess => "assemblerToPreprocess",
            Language::C => "c",
            Language::CHeader => "cHeader",
            Language::CPreprocessed => "cPreprocessed",
            Language::Cxx => "c++",
            Language::CxxHeader => "c++Header",
            Language::CxxPreprocessed => "c++Preprocessed",
            Language::GenericHeader => "c/c++",
            Language::ObjectiveC => "objc",
            Language::ObjectiveCPreprocessed => "objcPreprocessed",
            Language::ObjectiveCxx => "objc++",
            Language::ObjectiveCxxPreprocessed => "objc++Preprocessed",
            Language::Cuda => "cuda",
            Language::Hip => "hip",
        }
    }

    /// Returns whether an input in this language is preprocessed by the C preprocessor before it is
    /// compiled.
    ///
    /// Upstream's `Language::needs_c_preprocessing`.
    pub fn needs_c_preprocessing(&self) -> bool
        ensures { result ≡ is_preprocessed_first self.now }
    {
        !matches!(
            self,
            Language::Assembler
                | Language::CPreprocessed
                | Language::CxxPreprocessed
                | Language::ObjectiveCPreprocessed
                | Language::ObjectiveCxxPreprocessed
        )
    }
}

/// The language of a name that is exactly as [`Language::as_str`] returns it. The error is
/// [`UnknownLanguage`], for any other text.
impl FromStr for Language {
    type Err = UnknownLanguage;

    ghost from_str_gives = { NamesLanguage };

    fn from_str(name: &str) -> Result<Language, UnknownLanguage> {
        for language in Language::ALL {
            if language.as_str() == name {
                return Ok(language);
            }
        }
        Err(UnknownLanguage)
    }
}
