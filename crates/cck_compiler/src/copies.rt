//! Copies of parsed command lines.
ghost use Rattle.std.specs.Prelude.{◌≡◌, IfOk, IsOkUnless, OnOk, map};
ghost use Rattle.std.specs.BTreeMap.{insert_entry};
ghost use Rattle.std.specs.Option.{option_map};
ghost use Rattle.std.specs.String.{string_cmp};
ghost use Rattle.cck_compiler.specs.Seen.{arguments_of, output_of};

use crate::arguments::{ArtifactDescriptor, ParsedArguments};
use crate::lists::copy_lists;
use cck_digest::KeyError;
use std::alloc::{AllocError, Global};
use std::collections::BTreeMap;

impl ArtifactDescriptor {
    /// Returns a copy that shares no memory with this one.
    ///
    /// The only error is [`KeyError::Memory`].
    pub fn copy(&self, alloc: Global) -> Result<ArtifactDescriptor, KeyError>
        ensures path { IfOk result (λ copy. copy.path.items ≡ self.now.path.items) }
        ensures optional { IfOk result (λ copy. copy.optional ≡ self.now.optional) }
        ensures errors { IsOkUnless result KeyError.Memory }
    {
        Ok(ArtifactDescriptor {
            path: self.path.to_vec(alloc)?,
            optional: self.optional,
        })
    }
}

impl ParsedArguments {
    /// Returns a copy that shares no memory with this one.
    ///
    /// The only error is [`KeyError::Memory`].
    pub fn copy(&self, alloc: Global) -> Result<ParsedArguments, KeyError>
        ensures value { IfOk result (λ copy. arguments_of copy ≡ arguments_of self.now) }
        ensures errors { IsOkUnless result KeyError.Memory }
    {
        Ok(ParsedArguments {
            input: self.input.to_vec(alloc)?,
            double_dash_input: self.double_dash_input,
            language: self.language,
            compilation_flag: self.compilation_flag.to_vec(alloc)?,
            depfile: copy_option(alloc, &self.depfile)?,
            outputs: copy_outputs(alloc, &self.outputs)?,
            dependency_args: copy_lists(alloc, &self.dependency_args)?,
            preprocessor_args: copy_lists(alloc, &self.preprocessor_args)?,
            common_args: copy_lists(alloc, &self.common_args)?,
            arch_args: copy_lists(alloc, &self.arch_args)?,
            unhashed_args: copy_lists(alloc, &self.unhashed_args)?,
            extra_dist_files: copy_lists(alloc, &self.extra_dist_files)?,
            extra_hash_files: copy_lists(alloc, &self.extra_hash_files)?,
            uses_external_assembler: self.uses_external_assembler,
            msvc_show_includes: self.msvc_show_includes,
            msvc_explicit_language: self.msvc_explicit_language,
            profile_generate: self.profile_generate,
            color_mode: self.color_mode,
            suppress_rewrite_includes_only: self.suppress_rewrite_includes_only,
            too_hard_for_preprocessor_cache_mode: copy_option(
                alloc,
                &self.too_hard_for_preprocessor_cache_mode,
            )?,
        })
    }
}

// A copy of the bytes, if there are any to copy.
fn copy_option(alloc: Global, bytes: &Option<Vec<u8>>) -> Result<Option<Vec<u8>>, AllocError>
    ensures { IfOk result (λ copy.
        option_map (λ v. v.items) copy ≡ option_map (λ v. v.items) bytes.now) }
{
    match bytes {
        Some(bytes) => Ok(Some(bytes.to_vec(alloc)?)),
        None => Ok(None),
    }
}

// A copy of the outputs, by their names.
fn copy_outputs(
    alloc: Global,
    outputs: &BTreeMap<String, ArtifactDescriptor>,
) -> Result<BTreeMap<String, ArtifactDescriptor>, KeyError>
    ensures value { IfOk result (λ copies.
        map output_of copies.entries ≡ map output_of outputs.now.entries) }
    ensures errors { IsOkUnless result KeyError.Memory }
{
    let mut copies = BTreeMap::new(alloc);
    for (name, output) in outputs {
        let name = String::from_str(alloc, name)?;
        put_output(&mut copies, name, output.copy(alloc)?)?;
    }
    Ok(copies)
}

// Puts an output under a name.
fn put_output(
    outputs: &mut BTreeMap<String, ArtifactDescriptor>,
    name: String,
    output: ArtifactDescriptor,
) -> Result<(), AllocError>
    ensures { OnOk result
        (outputs.new.entries ≡ insert_entry string_cmp outputs.old.entries name output) }
{
    outputs.insert(name, output)?;
    Ok(())
}
