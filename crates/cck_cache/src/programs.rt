//! The programs that the compiler of a call runs.
use crate::environment::Environment;
use crate::judge::Passed;
use cck_cache_files::{KeptPrograms, kept_programs};
use cck_cache_options::{Action, CompilerCall, Programs};
use std::alloc::AllocError;
use std::rt::Files;

/// What is found of the programs of a call.
#[derive(Drop)]
pub enum Named {
    /// Their paths, with colons between them.
    Paths(String),
    /// The call is not cached.
    PassedOn(Passed),
}

// The store that keeps the programs of the compilers of a call: that of the action, or where it has none
// that of the digests.
fn store_of<'a>(call: &CompilerCall<'a>, action: &Action<'a>) -> Option<&'a str> {
    match action {
        Action::Look { store, .. } | Action::Record { store, .. } | Action::Why { store } => Some(
            *store,
        ),
        Action::PreprocessorKey => call.digests,
    }
}

// The programs that a store keeps of a compiler, as it is called.
fn kept<R: Files + AllocGlobal>(
    rt: &R,
    environment: &Environment<'_>,
    store: Option<&str>,
    directory: &str,
    compiler: &str,
) -> Result<Named, AllocError> {
    let (Some(store), Some(variables)) = (store, &environment.search) else {
        return Ok(Named::PassedOn(Passed::Programs));
    };
    Ok(
        match kept_programs(rt, store, directory, compiler, variables)? {
            KeptPrograms::Paths(paths) => Named::Paths(paths),
            KeptPrograms::UnknownCompiler => Named::PassedOn(Passed::Compiler),
            KeptPrograms::Nothing => Named::PassedOn(Passed::Programs),
        },
    )
}

/// The programs that the compiler of a call runs: those that the call has, or those that a store keeps of
/// its compiler. The call is not cached if a variable is set with which none is, if the compiler is not
/// known, or if the store keeps nothing of it that counts for the call.
///
/// The only error is lack of memory.
pub fn programs_of<R: Files + AllocGlobal>(
    rt: &R,
    environment: &Environment<'_>,
    call: &CompilerCall<'_>,
    action: &Action<'_>,
) -> Result<Named, AllocError> {
    if environment.is_passed_on {
        return Ok(Named::PassedOn(Passed::Variable));
    }
    match call.programs {
        Programs::Paths(paths) => Ok(Named::Paths(String::from_str(rt.alloc(), paths)?)),
        Programs::Driver(compiler) => {
            let store = store_of(call, action);
            kept(rt, environment, store, call.directory, compiler)
        }
    }
}
