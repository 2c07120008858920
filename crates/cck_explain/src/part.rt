//! The parts of key material.
ghost use Rattle.std.specs.Prelude.{◌≡◌, ◌∷◌, ◌++◌, [], IfOk, OnOk, codes, map, string_bytes};
ghost use Rattle.std.specs.Cow.{cow_slice_items};
ghost use Rattle.cck_path.specs.Bytes.{lists_of};
ghost use Rattle.cck_strip.specs.Argument.{stripped_argument};
ghost use Rattle.cck_strip.specs.Text.{stripped_text};
ghost use Rattle.cck_util.specs.Key.{cache_version, key_parts};
ghost use Rattle.cck_util.specs.Language.{language_name};
ghost use Rattle.cck_explain.specs.Key.{frame_parts, item_name, length_part, list_parts, material_parts, part};
ghost use Rattle.cck_explain.specs.ExplainKeyRequest.{params_for};

use crate::request::ExplainKeyRequest;
use cck_util::{CACHE_VERSION, strip_basedirs, strip_basedirs_from_arg};
use std::alloc::{AllocError, Global};
use std::borrow::CowSlice;
use std::marker::Model;

/// Some bytes of key material, and what they are.
#[derive(Drop)]
pub struct Part<'a> {
    name: String,
    bytes: CowSlice<'a, u8>,
}

impl<'a> Model for Part<'a> {
    ghost use Rattle.cck_explain.specs.Listing as listing;

    ghost Value = { listing.Part };

    ghost use Rattle.cck_explain.specs.Part.{part_of};

    ghost view = { part_of };
}

impl<'a> Part<'a> {
    /// What the bytes are.
    pub fn name(&self) -> &str
        ensures { result.now ≡ self.now.name }
    {
        self.name.as_str()
    }

    /// The bytes.
    pub fn bytes(&self) -> &[u8]
        ensures { result.now ≡ self.now.bytes }
    {
        self.bytes.as_slice()
    }
}

// Appends a part.
fn push_part<'a>(
    parts: &mut Vec<Part<'a>>,
    name: String,
    bytes: CowSlice<'a, u8>,
) -> Result<(), AllocError>
    ensures { OnOk result (parts.new.items
        ≡ parts.old.items ++ part (string_bytes name) (cow_slice_items bytes.entry) ∷ []) }
{
    parts.push(Part { name, bytes })?;
    Ok(())
}

// Appends the length or the count before what has this name.
fn push_length<'a>(
    alloc: Global,
    parts: &mut Vec<Part<'a>>,
    name: &str,
    length: usize,
) -> Result<(), AllocError>
    ensures { OnOk result (parts.new.items ≡ parts.old.items ++ length_part name.now length ∷ []) }
{
    let length = length as u64;
    let bytes = length.to_le_bytes().to_vec(alloc)?;
    let name = format!(in alloc; "{name}.length")?;
    push_part(parts, name, CowSlice::Owned(bytes))?;
    Ok(())
}

// Appends the length of these bytes, and the bytes.
fn push_frame<'a>(
    alloc: Global,
    parts: &mut Vec<Part<'a>>,
    name: &str,
    bytes: CowSlice<'a, u8>,
) -> Result<(), AllocError>
    ensures { OnOk result (parts.new.items ≡ parts.old.items ++ frame_parts name.now (cow_slice_items bytes.entry)) }
{
    push_length(alloc, parts, name, bytes.len())?;
    let name = String::from_str(alloc, name)?;
    push_part(parts, name, bytes)?;
    Ok(())
}

/// The name of the argument of this index.
pub(crate) fn argument_name(alloc: Global, index: usize) -> Result<String, AllocError>
    ensures { IfOk result (λ name. string_bytes name ≡ item_name (codes "arguments") index) }
{
    Ok(format!(in alloc; "arguments[{index}]")?)
}

// Appends the count of the arguments, and a frame for each without its base directories.
fn push_arguments<'a>(
    alloc: Global,
    parts: &mut Vec<Part<'a>>,
    arguments: &'a [Vec<u8>],
    basedirs: &[Vec<u8>],
) -> Result<(), AllocError>
    ensures { OnOk result (parts.new.items ≡ parts.old.items
        ++ list_parts (codes "arguments") (map (stripped_argument (lists_of basedirs.now)) (lists_of arguments.now))) }
{
    push_length(alloc, parts, "arguments", arguments.len())?;
    for (index, argument) in arguments.iter().enumerate() {
        let name = argument_name(alloc, index)?;
        let Ok(stripped) = strip_basedirs_from_arg(alloc, argument, basedirs) else {
            return Err(AllocError);
        };
        push_frame(alloc, parts, name.as_str(), stripped)?;
    }
    Ok(())
}

// Appends the parts before the arguments.
fn push_first_parts<'a>(
    alloc: Global,
    parts: &mut Vec<Part<'a>>,
    request: &'a ExplainKeyRequest<'_>,
) -> Result<(), AllocError>
    ensures { OnOk result (parts.new.items ≡ parts.old.items
        ++ frame_parts (codes "CACHE_VERSION") cache_version
        ++ frame_parts (codes "compiler_digest") request.now.compiler_digest.now
        ++ part (codes "plusplus") (0 ∷ []) ∷ []
        ++ frame_parts (codes "language") (language_name request.now.language)) }
{
    push_frame(
        alloc,
        parts,
        "CACHE_VERSION",
        CowSlice::Borrowed(CACHE_VERSION),
    )?;
    push_frame(
        alloc,
        parts,
        "compiler_digest",
        CowSlice::Borrowed(request.compiler_digest.as_bytes()),
    )?;
    let plusplus = String::from_str(alloc, "plusplus")?;
    push_part(parts, plusplus, CowSlice::Borrowed(&[0]))?;
    let language = request.language.as_str();
    push_frame(
        alloc,
        parts,
        "language",
        CowSlice::Borrowed(language.as_bytes()),
    )?;
    Ok(())
}

// Appends the parts after the arguments.
fn push_last_parts<'a>(
    alloc: Global,
    parts: &mut Vec<Part<'a>>,
    basedirs: &[Vec<u8>],
    text: &'a [u8],
) -> Result<(), AllocError>
    ensures { OnOk result (parts.new.items ≡ parts.old.items
        ++ length_part (codes "extra_hashes") 0 ∷ []
        ++ part (codes "assembler_digest.option") (0 ∷ []) ∷ []
        ++ length_part (codes "env_vars") 0 ∷ []
        ++ frame_parts (codes "preprocessor_output") (stripped_text (lists_of basedirs.now) text.now)) }
{
    push_length(alloc, parts, "extra_hashes", 0)?;
    let assembler = String::from_str(alloc, "assembler_digest.option")?;
    push_part(parts, assembler, CowSlice::Borrowed(&[0]))?;
    push_length(alloc, parts, "env_vars", 0)?;
    let Ok(output) = strip_basedirs(alloc, text, basedirs) else {
        return Err(AllocError);
    };
    push_frame(alloc, parts, "preprocessor_output", output)?;
    Ok(())
}

/// Returns the parts of the key material of this request and text, in their order. Of the text
/// nothing is copied where no base directory is cut out of it.
///
/// The only error is lack of memory.
pub fn material_parts<'a>(
    alloc: Global,
    request: &'a ExplainKeyRequest<'_>,
    text: &'a [u8],
) -> Result<Vec<Part<'a>>, AllocError>
    ensures { IfOk result (λ parts. parts.items ≡ material_parts (key_parts (params_for request.now text.now))) }
{
    let mut parts = Vec::new(alloc);
    push_first_parts(alloc, &mut parts, request)?;
    push_arguments(alloc, &mut parts, &request.arguments, &request.basedirs)?;
    push_last_parts(alloc, &mut parts, &request.basedirs, text)?;
    Ok(parts)
}
