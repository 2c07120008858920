//! Byte texts and variables, as a caller passes them, and copies of them.
ghost use Rattle.std.specs.Prelude.{◌≡◌, IfOk};
ghost use Rattle.cck_path.specs.Bytes.{lists_of, variables_of};
ghost use Rattle.cck_c.specs.Bytes.{passed_variables, texts_of};

use std::alloc::{AllocError, Global};
use std::convert::AsSlice;

/// Any bytes.
#[repr(C)]
#[derive(Clone, Copy)]
pub struct Bytes<'a> {
    pub bytes: &'a [u8],
}

impl AsSlice<u8> for Bytes<'_> {
    ghost items = { λ one. one.bytes.now };

    fn as_slice(&self) -> &[u8] {
        self.bytes
    }
}

/// A variable of the environment.
#[repr(C)]
#[derive(Clone, Copy)]
pub struct Variable<'a> {
    pub name: &'a [u8],
    pub value: &'a [u8],
}

/// Copies the texts.
pub(crate) fn copy_texts(alloc: Global, all: &[Bytes<'_>]) -> Result<Vec<Vec<u8>>, AllocError>
    ensures { IfOk result (λ texts. lists_of texts.items ≡ texts_of all.now) }
{
    let mut texts = Vec::new(alloc);
    for one in all {
        texts.push(Vec::from_slice(alloc, one.bytes)?)?;
    }
    Ok(texts)
}

/// Copies the variables.
pub(crate) fn copy_variables(
    alloc: Global,
    all: &[Variable<'_>],
) -> Result<Vec<(Vec<u8>, Vec<u8>)>, AllocError>
    ensures { IfOk result (λ variables. variables_of variables.items ≡ passed_variables all.now) }
{
    let mut variables = Vec::new(alloc);
    for one in all {
        let name = Vec::from_slice(alloc, one.name)?;
        let value = Vec::from_slice(alloc, one.value)?;
        variables.push((name, value))?;
    }
    Ok(variables)
}
