//! What a process is given beside its words.
ghost use Rattle.std.specs.Prelude.{◌≡◌, IfOk, map};
ghost use Rattle.cck_cache.specs.Environment.{variable_names};
ghost use Rattle.cck_include.specs.Config.{activated};

use anyhow::{Result, bail};
use cck_cache_files::SearchVariables;
use cck_cache_rules::limit_of;
use cck_include::PreprocessorCacheModeConfig;
use cck_path::Timestamp;
use cck_util::request_variable_names;
use jiff::tz::TimeZone;
use std::alloc::{AllocError, Global};
use std::env;
use std::rt::Env;

// The variable that turns the preprocessor cache off, and the one that `__DATE__` shows.
const OTHER_VARIABLES: [&[u8]; 2] = [b"SCCACHE_DIRECT", b"SOURCE_DATE_EPOCH"];

// The variable that says which processor the compiler takes for `native`: the options that it has in its place.
const NATIVE: &str = "CCK_NATIVE";

// The variables that the compiler depends on beside those that both keys have: for its messages those of the locale, and
// those of colours, links, hints and the width of a line, and for its code that of the processor. They are part of the
// keys as an argument.
const COMPILER_VARIABLES: [&str; 11] = [
    "LC_ALL",
    "LC_CTYPE",
    "LC_MESSAGES",
    "LANG",
    "LANGUAGE",
    "GCC_COLORS",
    "GCC_URLS",
    "TERM_URLS",
    "GCC_EXTRA_DIAGNOSTIC_OUTPUT",
    "COLUMNS",
    NATIVE,
];

// The variables with which a call is passed on, if one is set, even to nothing. By these, other programs, directories
// or libraries are found, further files are written, the compiler compiles twice, or arguments, code or messages differ.
// Those of clang are at the end.
const PASSED: [&str; 25] = [
    "GCC_EXEC_PREFIX",
    "COMPILER_PATH",
    "GCC_ROOT",
    "BINUTILS_ROOT",
    "DEPENDENCIES_OUTPUT",
    "SUNPRO_DEPENDENCIES",
    "GCC_COMPARE_DEBUG",
    "GCONV_PATH",
    "LOCPATH",
    "OUTPUT_CHARSET",
    "LD_AUDIT",
    "LD_DEBUG",
    "LD_HWCAP_MASK",
    "LD_PROFILE",
    "GLIBC_TUNABLES",
    "CCC_OVERRIDE_OPTIONS",
    "CC_PRINT_OPTIONS",
    "CC_PRINT_HEADERS",
    "CC_PRINT_PROC_STAT",
    "CC_LOG_DIAGNOSTICS",
    "FORCE_CLANG_DIAGNOSTICS_CRASH",
    "RC_DEBUG_OPTIONS",
    "LLVM_OVERRIDE_PRODUCER",
    "AS_SECURE_LOG_FILE",
    "ROCM_PATH",
];

// The variables by which programs and the libraries that they load are found.
const SEARCHED: [&str; 3] = ["PATH", "LD_LIBRARY_PATH", "LD_PRELOAD"];

/// What a process is given beside its words.
pub struct Environment<'a> {
    /// The time of the system's clock.
    pub now: Timestamp,
    /// The local zone.
    pub zone: TimeZone<'a>,
    /// The variables that keys depend on, in a fixed order.
    pub variables: Vec<(Vec<u8>, Vec<u8>)>,
    /// The variables of messages, those of the locale among them, and that of the processor, each with a zero byte after it.
    pub compiler_variables: Vec<u8>,
    /// Whether it is known which processor the compiler takes for `native`.
    pub knows_native: bool,
    /// Whether a look-up reads each file that an entry names, whatever its status is.
    pub reads_all: bool,
    /// The most bytes that the entries and objects of a store may have together. `None` where there is no limit.
    pub max_size: Option<u64>,
    /// Whether a variable is set with which each call is passed on.
    pub is_passed_on: bool,
    /// The variables by which programs are found. `None` where one of them is not UTF-8.
    pub search: Option<SearchVariables>,
    /// The number of the process.
    pub id: u32,
}

impl Drop for Environment<'_> {
    fn drop(self) {
        let Environment {
            now: _,
            zone: _,
            variables: _,
            compiler_variables: _,
            knows_native: _,
            reads_all: _,
            max_size: _,
            is_passed_on: _,
            search: _,
            id: _,
        } = self;
    }
}

impl Environment<'_> {
    /// The options of the preprocessor cache, which are upstream's with the cache on.
    pub fn config(&self) -> PreprocessorCacheModeConfig
        ensures { result ≡ activated }
    {
        PreprocessorCacheModeConfig::activated()
    }
}

// The names of the variables that keys and recorded digests depend on, in the order in which they
// enter keys.
fn variable_names(alloc: Global) -> Result<Vec<&'static [u8]>, AllocError>
    ensures { IfOk result (λ names. map (λ name. name.now) names.items ≡ variable_names) }
{
    let mut names = Vec::new(alloc);
    names.extend_from_slice(request_variable_names())?;
    names.extend_from_slice(&OTHER_VARIABLES)?;
    Ok(names)
}

// The value of a variable. One that is no UTF-8 is an error: it never counts as absent.
fn value_of<R: Env + AllocGlobal>(rt: &R, name: &str) -> Result<Option<String>> {
    match env::var(rt, name) {
        Ok(value) => Ok(Some(value)),
        Err(env::VarError::NotPresent) => Ok(None),
        Err(env::VarError::NotUnicode) => bail!("the variable {name} is not UTF-8"),
        Err(env::VarError::OutOfMemory) => bail!("out of memory"),
    }
}

/// The variables that keys depend on and that are set.
///
/// The error is of a variable that is not UTF-8, or lack of memory.
pub fn variables<R: Env + AllocGlobal>(rt: &R) -> Result<Vec<(Vec<u8>, Vec<u8>)>> {
    let alloc = rt.alloc();
    let mut found = Vec::new(alloc);
    for name in variable_names(alloc)? {
        let Ok(text) = std::str::from_utf8(name) else {
            bail!("the name of a variable is not UTF-8");
        };
        if let Some(value) = value_of(rt, text)? {
            found.push((name.to_vec(alloc)?, value.as_bytes().to_vec(alloc)?))?;
        }
    }
    Ok(found)
}

/// The variables of messages, and that of the processor, as far as they are set, each with a zero byte after it, which no
/// value has.
///
/// The error is of a variable that is not UTF-8, or lack of memory.
pub fn compiler_variables<R: Env + AllocGlobal>(rt: &R) -> Result<Vec<u8>> {
    let mut all = Vec::new(rt.alloc());
    for name in COMPILER_VARIABLES {
        if let Some(value) = value_of(rt, name)? {
            all.extend_from_slice(name.as_bytes())?;
            all.push(b'=')?;
            all.extend_from_slice(value.as_bytes())?;
            all.push(b'\0')?;
        }
    }
    Ok(all)
}

/// Whether it is known which processor the compiler takes for `native`: whether `CCK_NATIVE` is set, and not empty.
///
/// The error is of a variable that is not UTF-8, or lack of memory.
pub fn knows_native<R: Env + AllocGlobal>(rt: &R) -> Result<bool> {
    Ok(match value_of(rt, NATIVE)? {
        Some(value) => !value.is_empty(),
        None => false,
    })
}

// Whether a variable is set.
fn is_set<R: Env + AllocGlobal>(rt: &R, name: &str) -> Result<bool> {
    match env::var(rt, name) {
        Ok(_) | Err(env::VarError::NotUnicode) => Ok(true),
        Err(env::VarError::NotPresent) => Ok(false),
        Err(env::VarError::OutOfMemory) => bail!("out of memory"),
    }
}

// Whether the directories in which programs are looked for are not those of `PATH`: it is not set, so that a shell and a
// compiler each have others; or it has a percent sign, after which a shell reads something else.
fn has_other_path<R: Env + AllocGlobal>(rt: &R) -> Result<bool> {
    match env::var(rt, SEARCHED[0]) {
        Ok(path) => Ok(path.contains('%')),
        Err(env::VarError::NotPresent) => Ok(true),
        Err(env::VarError::NotUnicode) => Ok(false),
        Err(env::VarError::OutOfMemory) => bail!("out of memory"),
    }
}

/// Whether a variable is such that each call of a compiler is passed on: one of a list is set, even to nothing, or `PATH` is
/// not set or has a percent sign.
///
/// The only error is lack of memory.
pub fn is_passed_on<R: Env + AllocGlobal>(rt: &R) -> Result<bool> {
    for name in PASSED {
        if is_set(rt, name)? {
            return Ok(true);
        }
    }
    has_other_path(rt)
}

// The value of a variable, which is empty if the variable is not set. `None` where it is not UTF-8.
fn text_of<R: Env + AllocGlobal>(rt: &R, name: &str) -> Result<Option<String>> {
    match env::var(rt, name) {
        Ok(value) => Ok(Some(value)),
        Err(env::VarError::NotPresent) => Ok(Some(String::new(rt.alloc()))),
        Err(env::VarError::NotUnicode) => Ok(None),
        Err(env::VarError::OutOfMemory) => bail!("out of memory"),
    }
}

/// The variables by which programs and the libraries that they load are found. One that is not set is empty.
/// `None` where one is not UTF-8.
///
/// The only error is lack of memory.
pub fn search_variables<R: Env + AllocGlobal>(rt: &R) -> Result<Option<SearchVariables>> {
    let [path, library_path, preload] = SEARCHED;
    let (Some(path), Some(library_path), Some(preload)) = (
        text_of(rt, path)?,
        text_of(rt, library_path)?,
        text_of(rt, preload)?,
    ) else {
        return Ok(None);
    };
    Ok(Some(SearchVariables {
        path,
        library_path,
        preload,
    }))
}

/// Whether a look-up reads all files: whether the variable `CCK_READ` is set.
///
/// The only error is lack of memory.
pub fn reads_all<R: Env + AllocGlobal>(rt: &R) -> Result<bool> {
    is_set(rt, "CCK_READ")
}

/// The limit of a store, in bytes, which the variable `CCK_MAXSIZE` says. `None` where there is no limit. It is
/// 5000000000 where the variable is not set, or is no size.
///
/// The only error is lack of memory.
pub fn max_size<R: Env + AllocGlobal>(rt: &R) -> Result<Option<u64>> {
    // One that is not UTF-8 is no size, and neither is an empty one.
    Ok(match text_of(rt, "CCK_MAXSIZE")? {
        Some(text) => limit_of(text.as_str()),
        None => limit_of(""),
    })
}
