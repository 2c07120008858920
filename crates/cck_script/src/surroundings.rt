//! The files and variables that a call is made over.
ghost use Rattle.std.specs.Prelude.{◌≡◌, ◌∷◌, [], List, IfOk, OnErr, OnOk};
ghost use Rattle.cck_files.specs.ArmedCalls.{IsUnarmed};
ghost use Rattle.cck_files.specs.FileState.{with_place};
ghost use Rattle.cck_files.specs.Node.{node_of};
ghost use Rattle.cck_path.specs.Bytes.{variables_of};
ghost use Rattle.cck_path.specs.Path.{components, normal};
ghost use Rattle.cck_script.specs.Surroundings.{AreAfter, AreFiles, ArePlacesOf, with_variable};
ghost use Rattle.cck_script.specs.Lines.{Line};
ghost use Rattle.cck_script.specs.Seen.{line_of};

use crate::command::Command;
use cck_files::{MapFiles, Node};
use cck_path::{FileKind, Timestamp};
use std::alloc::{AllocError, Global};
use std::collections::BTreeMap;

/// The path of the compiler's executable, which is there before any line.
pub const EXECUTABLE: &[u8] = b"/usr/bin/cc";

/// The working directory of every call.
pub const WORKING_DIRECTORY: &[u8] = b"/w";

// The contents of the executable before any line.
const EXECUTABLE_CONTENTS: &[u8] = b"cc";

/// Returns the files before any line: [`EXECUTABLE`] alone, with the contents `cc` and both times
/// at 1970-01-01T00:00:00Z. No call on them is armed to fail.
///
/// The only error is lack of memory.
pub fn first_files(alloc: Global) -> Result<MapFiles, AllocError>
    ensures files { IfOk result (λ files. AreFiles [] files.files) }
    ensures quiet { IfOk result (λ files. (files.faults ≡ 0) × IsUnarmed files.armed) }
{
    let mut files = MapFiles::new(alloc);
    let start = Timestamp::new(0, 0);
    let contents = EXECUTABLE_CONTENTS.to_vec(alloc)?;
    put_node(
        &mut files,
        EXECUTABLE,
        Node {
            kind: FileKind::File,
            contents,
            modified: Some(start),
            changed: Some(start),
        },
    )?;
    Ok(files)
}

/// The files and variables after the first lines of a script.
///
/// The node at a path is given by the last line that names the path. If no line names the
/// executable's path, the executable is there as at first. The canonical path of each path is the
/// path itself without its `.` and `..`. A variable has the place where it was set first since the
/// last line `clear`, and the value that it was given last.
#[derive(Drop)]
pub struct Surroundings {
    /// The files, on which no call is armed to fail.
    pub files: MapFiles,
    /// The variables.
    pub variables: Vec<(Vec<u8>, Vec<u8>)>,
    /// The place of each variable by its name. A look-up compares about as many names as the
    /// logarithm of their number, whatever the names are.
    pub places: BTreeMap<Vec<u8>, usize>,
}

impl Surroundings {
    /// Returns the files and variables before any line: those of [`first_files`], and no variables.
    ///
    /// The only error is lack of memory.
    pub fn new(alloc: Global) -> Result<Surroundings, AllocError>
        ensures { IfOk result (AreAfter []) }
    {
        Ok(Surroundings {
            files: first_files(alloc)?,
            variables: Vec::new(alloc),
            places: BTreeMap::new(alloc),
        })
    }

    /// Applies the next line. A line that asks for a call, or that holds for the whole run, changes
    /// nothing here. The contents of a file and the value of a variable are moved, not copied.
    ///
    /// The only error is lack of memory. The files and variables are then those before the line.
    pub fn follow(&mut self, alloc: Global, command: Command) -> Result<(), AllocError>
        ensures after { OnOk result ((lines : List Line) → AreAfter lines self.old
            → AreAfter (line_of command ∷ lines) self.new) }
        ensures kept { OnErr result ((lines : List Line) → AreAfter lines self.old
            → AreAfter lines self.new) }
    {
        match command {
            Command::File {
                path,
                modified,
                changed,
                contents,
            } => put_node(
                &mut self.files,
                &path,
                Node {
                    kind: FileKind::File,
                    contents,
                    modified,
                    changed,
                },
            ),
            Command::Folder { path } => put_node(
                &mut self.files,
                &path,
                Node {
                    kind: FileKind::Folder,
                    contents: Vec::new(alloc),
                    modified: None,
                    changed: None,
                },
            ),
            Command::Gone { path } => {
                self.files.remove(&path);
                Ok(())
            }
            Command::Variable { name, value } => {
                set_variable(alloc, &mut self.variables, &mut self.places, name, value)
            }
            Command::Clear => {
                self.variables.clear();
                self.places = BTreeMap::new(alloc);
                Ok(())
            }
            _ => Ok(()),
        }
    }
}

/// A copy of these variables, in the same order.
///
/// The only error is lack of memory.
pub fn copy_variables(
    alloc: Global,
    variables: &[(Vec<u8>, Vec<u8>)],
) -> Result<Vec<(Vec<u8>, Vec<u8>)>, AllocError>
    ensures { IfOk result (λ copy. variables_of copy.items ≡ variables_of variables.now) }
{
    let mut copy = Vec::new(alloc);
    for (name, value) in variables {
        copy.push((name.to_vec(alloc)?, value.to_vec(alloc)?))?;
    }
    Ok(copy)
}

// Sets the node at a path, as [`MapFiles::put`] does.
fn put_node(files: &mut MapFiles, path: &[u8], node: Node) -> Result<(), AllocError>
    ensures set { OnOk result (files.new ≡ record files.old {
      files =
          with_place files.old.files (components path.now) (node_of node)
          (normal (components path.now));
    }) }
    ensures kept { OnErr result (files.new ≡ files.old) }
{
    match files.put(path, node) {
        Ok(()) => Ok(()),
        Err(_) => Err(AllocError),
    }
}

// Gives a variable a value. One that is new comes after the others. After an error
// neither the variables nor their places are changed.
fn set_variable(
    alloc: Global,
    variables: &mut Vec<(Vec<u8>, Vec<u8>)>,
    places: &mut BTreeMap<Vec<u8>, usize>,
    name: Vec<u8>,
    value: Vec<u8>,
) -> Result<(), AllocError>
    ensures set { OnOk result (ArePlacesOf variables.old.items places.old
        → (variables_of variables.new.items
        ≡ with_variable name.items value.items (variables_of variables.old.items))
        × ArePlacesOf variables.new.items places.new) }
    ensures kept { OnErr result ((variables.new.items ≡ variables.old.items)
        × (places.new.entries ≡ places.old.entries)) }
{
    let count = variables.len();
    let at = places.get(name.as_slice()).copied().unwrap_or(count);
    if at < count {
        variables[at].1 = value;
        return Ok(());
    }
    let copy = name.to_vec(alloc)?;
    // With room for it the push below can't fail.
    variables.reserve(1)?;
    places.insert(copy, count)?;
    variables.push((name, value))?;
    Ok(())
}
