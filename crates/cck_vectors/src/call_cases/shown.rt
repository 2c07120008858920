//! How what the calls return is written.
use crate::cases::{CaseError, Value};
use c_cache_keys::{ArtifactDescriptor, ColorMode, HashResult, KeyError, ParsedArguments};
use cck_util::UtilError;
use std::alloc::Global;

/// What a call returned whose only error is lack of memory.
pub(crate) fn or_out_of_memory<T: Drop>(returned: Result<T, KeyError>) -> Result<T, CaseError> {
    match returned {
        Ok(value) => Ok(value),
        Err(_) => Err(CaseError::Util(UtilError::Memory)),
    }
}

/// The error of a call, as a result.
pub(crate) fn error_value<'a>(alloc: Global, error: KeyError) -> Result<Value<'a>, CaseError> {
    if error == KeyError::Memory {
        return Err(CaseError::Util(UtilError::Memory));
    }
    Ok(Value::Text(format!(in alloc; "error {error:?}")?))
}

/// Writes `fresh` or `stored` and the key, or the error.
pub(crate) fn write_result(
    alloc: Global,
    out: &mut Vec<u8>,
    returned: &Result<HashResult, KeyError>,
) -> Result<(), CaseError> {
    match returned {
        Ok(found) => {
            let how: &[u8] = if found.is_locally_preprocessed {
                b"fresh "
            } else {
                b"stored "
            };
            out.extend_from_slice(how)?;
            out.extend_from_slice(found.key.as_bytes())?;
        }
        Err(KeyError::Memory) => return Err(CaseError::Util(UtilError::Memory)),
        Err(error) => {
            out.extend_from_slice(format!(in alloc; "error {error:?}")?.as_bytes())?;
        }
    }
    Ok(())
}

/// Writes the words of a list with a space before each. The empty word is `""`.
pub(crate) fn write_words(out: &mut Vec<u8>, words: &[Vec<u8>]) -> Result<(), CaseError> {
    for word in words {
        out.push(b' ')?;
        write_word(out, word)?;
    }
    Ok(())
}

/// Writes a word of a list. The empty word is `""`.
pub(crate) fn write_word(out: &mut Vec<u8>, word: &[u8]) -> Result<(), CaseError> {
    let shown: &[u8] = if word.is_empty() { b"\"\"" } else { word };
    out.extend_from_slice(shown)?;
    Ok(())
}

// Begins a line with a name.
fn write_name(out: &mut Vec<u8>, name: &str) -> Result<(), CaseError> {
    out.push(b'\n')?;
    out.extend_from_slice(name.as_bytes())?;
    Ok(())
}

// Writes a line of a name and a word.
fn write_field(out: &mut Vec<u8>, name: &str, word: &[u8]) -> Result<(), CaseError> {
    write_name(out, name)?;
    out.push(b' ')?;
    write_word(out, word)
}

// Writes a line of a name and a word, or no line.
fn write_option(out: &mut Vec<u8>, name: &str, word: &Option<Vec<u8>>) -> Result<(), CaseError> {
    match word {
        Some(word) => write_field(out, name, word),
        None => Ok(()),
    }
}

// Writes a line of a name and its words.
fn write_list(out: &mut Vec<u8>, name: &str, words: &[Vec<u8>]) -> Result<(), CaseError> {
    write_name(out, name)?;
    write_words(out, words)
}

// Writes a line of a name, where the flag is set.
fn write_flag(out: &mut Vec<u8>, name: &str, is_set: bool) -> Result<(), CaseError> {
    if is_set {
        write_name(out, name)?;
    }
    Ok(())
}

// Writes a line of an output: its word, its name and its path.
fn write_output(
    out: &mut Vec<u8>,
    name: &str,
    output: &ArtifactDescriptor,
) -> Result<(), CaseError> {
    let word: &[u8] = if output.optional {
        b"\noptional_output "
    } else {
        b"\noutput "
    };
    out.extend_from_slice(word)?;
    out.extend_from_slice(name.as_bytes())?;
    out.push(b' ')?;
    write_word(out, &output.path)
}

/// Writes a line for each field of a command line, by the words that give them.
pub(crate) fn write_arguments(
    alloc: Global,
    out: &mut Vec<u8>,
    args: &ParsedArguments,
) -> Result<(), CaseError> {
    write_texts(out, args)?;
    write_outputs(out, args)?;
    write_lists(out, args)?;
    write_flags(out, args)?;
    write_color(alloc, out, args.color_mode)
}

fn write_texts(out: &mut Vec<u8>, args: &ParsedArguments) -> Result<(), CaseError> {
    write_field(out, "input", &args.input)?;
    write_field(out, "language", args.language.as_str().as_bytes())?;
    write_field(out, "compilation_flag", &args.compilation_flag)?;
    write_option(out, "depfile", &args.depfile)?;
    write_option(out, "too_hard", &args.too_hard_for_preprocessor_cache_mode)
}

fn write_outputs(out: &mut Vec<u8>, args: &ParsedArguments) -> Result<(), CaseError> {
    for (name, output) in args.outputs.iter() {
        write_output(out, name, output)?;
    }
    Ok(())
}

fn write_color(alloc: Global, out: &mut Vec<u8>, color: ColorMode) -> Result<(), CaseError> {
    out.extend_from_slice(format!(in alloc; "\ncolor {color:?}")?.as_bytes())?;
    Ok(())
}

fn write_lists(out: &mut Vec<u8>, args: &ParsedArguments) -> Result<(), CaseError> {
    write_list(out, "dependency", &args.dependency_args)?;
    write_list(out, "preprocessor", &args.preprocessor_args)?;
    write_list(out, "common", &args.common_args)?;
    write_list(out, "arch", &args.arch_args)?;
    write_list(out, "unhashed", &args.unhashed_args)?;
    write_list(out, "dist_files", &args.extra_dist_files)?;
    write_list(out, "extra_files", &args.extra_hash_files)
}

fn write_flags(out: &mut Vec<u8>, args: &ParsedArguments) -> Result<(), CaseError> {
    write_flag(out, "double_dash", args.double_dash_input)?;
    write_flag(out, "external_assembler", args.uses_external_assembler)?;
    write_flag(out, "show_includes", args.msvc_show_includes)?;
    write_flag(out, "explicit_language", args.msvc_explicit_language)?;
    write_flag(out, "profile_generate", args.profile_generate)?;
    write_flag(
        out,
        "suppress_rewrite_includes_only",
        args.suppress_rewrite_includes_only,
    )
}
