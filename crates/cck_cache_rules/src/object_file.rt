//! The file that keeps an object.
ghost use Rattle.std.specs.Prelude.{◌≡◌, IfOk};
ghost use Rattle.std.specs.Option.{option_map};
ghost use Rattle.cck_cache_rules.specs.Files.{object_fields, object_file, object_parts};
ghost use Rattle.cck_cache_rules.specs.Reading.{ReadsBack, lent_lists};

use crate::stored::{read_stored, write_stored};
use std::alloc::{AllocError, Global};

/// How an object file of the store begins.
const KIND: &[u8] = b"cck object 4\n";

/// What an object file of the store holds.
pub struct ObjectFile {
    /// The key of the file: the name of the object.
    pub key: Vec<u8>,
    /// The bytes of the object.
    pub object: Vec<u8>,
    /// What the compiler printed on standard error.
    pub messages: Vec<u8>,
    /// The contents of the dependency file. Empty if the compiler wrote none.
    pub dependencies: Vec<u8>,
}

impl Drop for ObjectFile {
    fn drop(self) {
        let ObjectFile {
            key: _,
            object: _,
            messages: _,
            dependencies: _,
        } = self;
    }
}

// What these parts say. `None` where there are not four.
fn file_of(alloc: Global, parts: Vec<&[u8]>) -> Result<Option<ObjectFile>, AllocError>
    ensures { IfOk result (λ found. ReadsBack object_parts (lent_lists parts.entry) (option_map object_fields found)) }
{
    let mut parts = parts.into_iter();
    let (Some(key), Some(object), Some(messages), Some(dependencies), None) = (
        parts.next(),
        parts.next(),
        parts.next(),
        parts.next(),
        parts.next(),
    ) else {
        return Ok(None);
    };
    Ok(Some(ObjectFile {
        key: key.to_vec(alloc)?,
        object: object.to_vec(alloc)?,
        messages: messages.to_vec(alloc)?,
        dependencies: dependencies.to_vec(alloc)?,
    }))
}

impl ObjectFile {
    /// The bytes of the file.
    ///
    /// The only error is lack of memory.
    pub fn write(&self, alloc: Global) -> Result<Vec<u8>, AllocError>
        ensures { IfOk result (λ bytes. bytes.items ≡ object_file (object_fields self.now)) }
    {
        let parts: [&[u8]; 4] = [&self.key, &self.object, &self.messages, &self.dependencies];
        write_stored(alloc, KIND, &parts)
    }

    /// The file that has these bytes when it is written. `None` where no file has.
    ///
    /// The only error is lack of memory.
    pub fn read(alloc: Global, bytes: &[u8]) -> Result<Option<ObjectFile>, AllocError>
        ensures { IfOk result (λ found. ReadsBack object_file bytes.now (option_map object_fields found)) }
    {
        let Some(parts) = read_stored(alloc, KIND, bytes)? else {
            return Ok(None);
        };
        file_of(alloc, parts)
    }
}
