//! What lines give of a parsed command line.
use crate::cases::{CaseError, bytes_of, find, words_of};
use c_cache_keys::{ArtifactDescriptor, ColorMode, ParsedArguments};
use cck_util::Language;
use std::alloc::Global;

#[derive(Clone, Copy)]
enum TextWord {
    Input,
    Flag,
    Depfile,
    TooHard,
}

const TEXT_WORDS: [(&str, TextWord); 4] = [
    ("input", TextWord::Input),
    ("compilation_flag", TextWord::Flag),
    ("depfile", TextWord::Depfile),
    ("too_hard", TextWord::TooHard),
];

// The words of outputs, and whether the output may be left out.
const OUTPUT_WORDS: [(&str, bool); 2] = [("output", false), ("optional_output", true)];

#[derive(Clone, Copy)]
enum ListWord {
    Dependency,
    Preprocessor,
    Common,
    Arch,
    Unhashed,
    DistFiles,
    ExtraFiles,
}

const LIST_WORDS: [(&str, ListWord); 7] = [
    ("dependency", ListWord::Dependency),
    ("preprocessor", ListWord::Preprocessor),
    ("common", ListWord::Common),
    ("arch", ListWord::Arch),
    ("unhashed", ListWord::Unhashed),
    ("dist_files", ListWord::DistFiles),
    ("extra_files", ListWord::ExtraFiles),
];

#[derive(Clone, Copy)]
enum FlagWord {
    DoubleDash,
    ExternalAssembler,
    ShowIncludes,
    ExplicitLanguage,
    Profile,
    SuppressRewrite,
    Color(ColorMode),
}

const FLAG_WORDS: [(&str, FlagWord); 9] = [
    ("double_dash", FlagWord::DoubleDash),
    ("external_assembler", FlagWord::ExternalAssembler),
    ("show_includes", FlagWord::ShowIncludes),
    ("explicit_language", FlagWord::ExplicitLanguage),
    ("profile_generate", FlagWord::Profile),
    ("suppress_rewrite_includes_only", FlagWord::SuppressRewrite),
    ("color_off", FlagWord::Color(ColorMode::Off)),
    ("color_on", FlagWord::Color(ColorMode::On)),
    ("color_auto", FlagWord::Color(ColorMode::Auto)),
];

/// A command line of C of which nothing is given.
pub(crate) fn no_arguments(alloc: Global) -> ParsedArguments {
    ParsedArguments::new(alloc, Vec::new(alloc), Language::C)
}

/// Takes what a line gives of a command line, and returns whether it knows the line's word.
pub(crate) fn give(
    alloc: Global,
    args: &mut ParsedArguments,
    name: &str,
    rest: &str,
) -> Result<bool, CaseError> {
    if let Some(word) = find(&TEXT_WORDS, name) {
        give_text(alloc, args, word, rest)?;
    } else if let Some(optional) = find(&OUTPUT_WORDS, name) {
        put_output(alloc, args, rest, optional)?;
    } else if let Some(word) = find(&LIST_WORDS, name) {
        give_list(alloc, args, word, rest)?;
    } else if let Some(word) = find(&FLAG_WORDS, name) {
        give_flag(args, word);
    } else {
        return Ok(false);
    }
    Ok(true)
}

fn give_text(
    alloc: Global,
    args: &mut ParsedArguments,
    word: TextWord,
    rest: &str,
) -> Result<(), CaseError> {
    let text = bytes_of(alloc, rest)?;
    match word {
        TextWord::Input => args.input = text,
        TextWord::Flag => args.compilation_flag = text,
        TextWord::Depfile => args.depfile = Some(text),
        TextWord::TooHard => args.too_hard_for_preprocessor_cache_mode = Some(text),
    }
    Ok(())
}

fn put_output(
    alloc: Global,
    args: &mut ParsedArguments,
    rest: &str,
    optional: bool,
) -> Result<(), CaseError> {
    let (name, path) = rest.split_once(' ').ok_or(CaseError::Line)?;
    let path = bytes_of(alloc, path)?;
    args.outputs.insert(
        String::from_str(alloc, name)?,
        ArtifactDescriptor { path, optional },
    )?;
    Ok(())
}

fn give_list(
    alloc: Global,
    args: &mut ParsedArguments,
    word: ListWord,
    rest: &str,
) -> Result<(), CaseError> {
    let list = words_of(alloc, rest)?;
    match word {
        ListWord::Dependency => args.dependency_args = list,
        ListWord::Preprocessor => args.preprocessor_args = list,
        ListWord::Common => args.common_args = list,
        ListWord::Arch => args.arch_args = list,
        ListWord::Unhashed => args.unhashed_args = list,
        ListWord::DistFiles => args.extra_dist_files = list,
        ListWord::ExtraFiles => args.extra_hash_files = list,
    }
    Ok(())
}

fn give_flag(args: &mut ParsedArguments, word: FlagWord) {
    match word {
        FlagWord::DoubleDash => args.double_dash_input = true,
        FlagWord::ExternalAssembler => args.uses_external_assembler = true,
        FlagWord::ShowIncludes => args.msvc_show_includes = true,
        FlagWord::ExplicitLanguage => args.msvc_explicit_language = true,
        FlagWord::Profile => args.profile_generate = true,
        FlagWord::SuppressRewrite => args.suppress_rewrite_includes_only = true,
        FlagWord::Color(mode) => args.color_mode = mode,
    }
}
