//! Base directories cut out of arguments and of texts.
ghost use Rattle.std.specs.Prelude.{◌≡◌, ◌≢◌, ◌<◌, ◌∷◌, ◌↔◌, [], pos, length};
ghost use Rattle.cck_strip.specs.Argument.{stripped_argument};
ghost use Rattle.cck_strip.specs.Text.{stripped_text};
ghost use Rattle.cck_c.specs.Bytes.{texts_of};
ghost use Rattle.cck_c.specs.Status.{IsOneOf};
ghost use Rattle.cck_c.specs.Strip.{IsStripped};

use crate::bytes::{Bytes, copy_texts};
use crate::status;
use cck_strip::{strip_basedirs_from_arg_into, strip_basedirs_into};
use std::alloc::Global;

/// Writes the argument without the base directories to the start of the buffer, and its length.
///
/// It returns [`status::UNCHANGED`] if nothing is cut out, or [`status::LENGTH`] exactly if the
/// buffer is shorter than the argument, and writes nothing then. It allocates no memory.
#[unsafe(no_mangle)]
pub extern "C" fn cck_strip_argument(
    argument: &[u8],
    basedirs: &[Bytes<'_>],
    buffer: &mut [u8],
    written: &mut usize,
) -> i32
    ensures done { result ≡ pos 0 → IsStripped (stripped_argument (texts_of basedirs.now) argument.now) argument.now
        buffer.old buffer.new written.new }
    ensures unchanged { result ≡ pos 7 → stripped_argument (texts_of basedirs.now) argument.now ≡ argument.now }
    ensures short { (result ≡ pos 2) ↔ (length buffer.old < length argument.now) }
    ensures only { IsOneOf result (0 ∷ 2 ∷ 7 ∷ []) }
    ensures kept { result ≢ pos 0 → (buffer.new ≡ buffer.old) × (written.new ≡ written.old) }
{
    if buffer.len() < argument.len() {
        return status::LENGTH;
    }
    match strip_basedirs_from_arg_into(argument, basedirs, buffer) {
        Some(length) => {
            *written = length;
            status::DONE
        }
        None => status::UNCHANGED,
    }
}

/// Writes the text without the base directories to the start of the buffer, and its length.
///
/// It returns [`status::UNCHANGED`] if nothing is cut out, [`status::LENGTH`] exactly if the buffer
/// is shorter than the text, or [`status::MEMORY`], and writes nothing then. Without base directories
/// it allocates no memory.
#[unsafe(no_mangle)]
pub extern "C" fn cck_strip_text(
    alloc: Global,
    text: &[u8],
    basedirs: &[Bytes<'_>],
    buffer: &mut [u8],
    written: &mut usize,
) -> i32
    ensures done { result ≡ pos 0 → IsStripped (stripped_text (texts_of basedirs.now) text.now) text.now
        buffer.old buffer.new written.new }
    ensures unchanged { result ≡ pos 7 → stripped_text (texts_of basedirs.now) text.now ≡ text.now }
    ensures short { (result ≡ pos 2) ↔ (length buffer.old < length text.now) }
    ensures memory { result ≡ pos 1 → 0 < length basedirs.now }
    ensures only { IsOneOf result (0 ∷ 1 ∷ 2 ∷ 7 ∷ []) }
    ensures kept { result ≢ pos 0 → (buffer.new ≡ buffer.old) × (written.new ≡ written.old) }
{
    if buffer.len() < text.len() {
        return status::LENGTH;
    }
    if basedirs.is_empty() {
        return status::UNCHANGED;
    }
    let Ok(basedirs) = copy_texts(alloc, basedirs) else {
        return status::MEMORY;
    };
    match strip_basedirs_into(alloc, text, &basedirs, buffer) {
        Ok(Some(length)) => {
            *written = length;
            status::DONE
        }
        Ok(None) => status::UNCHANGED,
        Err(_) => status::MEMORY,
    }
}
