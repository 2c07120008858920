//! Compilers.
ghost use Rattle.std.specs.Prelude.{◌≡◌, IfOk, IsOkUnless};
ghost use Rattle.cck_path.specs.Bytes.{lists_of, variables_of};

use crate::arguments::ParsedArguments;
use cck_digest::{KeyError, PreprocessError};
use cck_files::Files;
use cck_path::Timestamp;
use std::alloc::Global;

/// The family of a compiler.
///
/// Upstream's `compiler::c::CCompilerKind`.
#[derive(Debug, Copy, Clone, PartialEq, Eq)]
pub enum CCompilerKind {
    /// GCC.
    Gcc,
    /// Clang.
    Clang,
    /// Wind River's Diab compiler.
    Diab,
    /// Microsoft Visual C.
    Msvc,
    /// NVIDIA's CUDA compiler.
    Nvcc,
    /// The CUDA front end.
    CudaFE,
    /// NVIDIA's optimizer.
    Cicc,
    /// NVIDIA's PTX assembler.
    Ptxas,
    /// NVIDIA's HPC compilers.
    Nvhpc,
    /// TASKING's VX tool set.
    TaskingVX,
}

/// The result of parsing a command line.
///
/// Upstream's `compiler::CompilerArguments`.
#[derive(Debug, Drop)]
pub enum CompilerArguments<T> {
    /// A compilation.
    Ok(T),
    /// A compilation whose result can't be cached: the reason, and the part of the command line
    /// that is the cause.
    CannotCache(&'static str, Option<String>),
    /// No compilation.
    NotCompilation,
}

/// A compiler.
///
/// The contracts describe a compiler by a value. That value and the parameters decide what each
/// call returns, except for lack of memory, and what the preprocessor prints.
///
/// An implementation chooses the type of that value, `Value`. It must not be the implementing type
/// itself where that holds a pointer, as a `String`, a `Vec` or a `Box` does. Requests are compared
/// by the value, and equal compilers at two places in memory would be two values. Take what
/// identifies the compiler: lists of bytes, numbers and flags.
///
/// Upstream's `compiler::c::CCompilerImpl`.
pub trait CCompilerImpl {
    ghost use Rattle.std.specs.Prelude.{map};
    ghost use Rattle.std.specs.Option.{option_map};
    ghost use Rattle.cck_compiler.specs.Compiler.{Compiler};
    ghost use Rattle.cck_files.specs.Calls.{Keeps, Rose};
    ghost use Rattle.cck_compiler.specs.Seen.{IsPrinted, arguments_of, parsed_of};

    // The value of a compiler in contracts.
    ghost Value: { Type 0 };

    ghost value: { Self → Value };

    // What is returned and printed, by that value.
    ghost compiler: { Compiler Value };

    /// Returns its family.
    fn kind(&self) -> CCompilerKind
        ensures { result ≡ compiler.kind (value self.now) };

    /// Returns whether it is a compiler of C++ by its name.
    fn plusplus(&self) -> bool
        ensures { result ≡ compiler.plusplus (value self.now) };

    /// Returns its version, if it has one that is part of keys.
    fn version(&self) -> Option<&str>
        ensures { option_map (λ v. v.now) result ≡ compiler.version (value self.now) };

    /// Returns the hex digest of the assembler that it calls, if there is one.
    fn assembler_digest(&self) -> Option<&str>
        ensures { option_map (λ d. d.now) result ≡ compiler.assembler_digest (value self.now) };

    /// Parses a command line, given its working directory and the variables.
    ///
    /// The only error is [`KeyError::Memory`].
    fn parse_arguments(
        &self,
        alloc: Global,
        arguments: &[Vec<u8>],
        cwd: &[u8],
        vars: &[(Vec<u8>, Vec<u8>)],
    ) -> Result<CompilerArguments<ParsedArguments>, KeyError>
        ensures parsed { IfOk result (λ parsed. parsed_of parsed
            ≡ compiler.parsed (value self.now) (lists_of arguments.now) cwd.now (variables_of vars.now)) }
        ensures errors { IsOkUnless result KeyError.Memory };

    /// Returns the preprocessed text of a parsed command line. `moment` is the call time.
    ///
    /// The errors are
    ///
    /// - [`PreprocessError::Fault`], only if the files' count of faults rose,
    /// - [`PreprocessError::Failed`], only if the compiler's definition gives no text,
    /// - [`PreprocessError::Memory`].
    ///
    /// Whatever it returns, the files are unchanged.
    fn preprocess<F: Files>(
        &self,
        alloc: Global,
        files: &mut F,
        executable: &[u8],
        parsed_args: &ParsedArguments,
        cwd: &[u8],
        vars: &[(Vec<u8>, Vec<u8>)],
        moment: Timestamp,
    ) -> Result<Vec<u8>, PreprocessError>
        ensures keeps { Keeps F.file_map F.faults F.is_quiet files.old files.new }
        ensures outcome { IsPrinted
            (compiler.prints (value self.now) executable.now (arguments_of parsed_args.now) cwd.now
            (variables_of vars.now) (F.file_map files.old) moment)
            (Rose (F.faults files.old) (F.faults files.new)) result };

    /// Returns a compiler of the same value.
    ///
    /// The only error is [`KeyError::Memory`].
    fn copy(&self, alloc: Global) -> Result<Self, KeyError>
        ensures same { IfOk result (λ copy. value copy ≡ value self.now) }
        ensures errors { IsOkUnless result KeyError.Memory };
}
