//! Laws about the definitions, each the contract of a function that does nothing.
ghost use Rattle.std.specs.Prelude.{◌≡◌};
ghost use Rattle.cck_script.specs.Surroundings.{executable_path, working_directory};

use crate::{EXECUTABLE, WORKING_DIRECTORY};

/// [`EXECUTABLE`] and [`WORKING_DIRECTORY`] are the paths that the definition of a script's calls
/// names.
pub fn paths_are_those_of_calls()
    ensures executable { EXECUTABLE.now ≡ executable_path }
    ensures directory { WORKING_DIRECTORY.now ≡ working_directory }
{}
