//! Compilers with their executables.
ghost use Rattle.std.specs.Prelude.{◌≡◌, ◌⊎◌, ◌++◌, Some, IfErr, IfOk, IsOkUnless, string_bytes};
ghost use Rattle.cck_compiler.specs.ExtraFiles.{completed};
ghost use Rattle.cck_digest.specs.Digest.{digest_text};
ghost use Rattle.cck_files.specs.Errors.{IsDigestError};
ghost use Rattle.cck_files.specs.Calls.{Keeps, Rose};
ghost use Rattle.cck_digest.specs.KeyError.{IsFileFault};
ghost use Rattle.cck_path.specs.Bytes.{lists_of, variables_of};
ghost use Rattle.cck_path.specs.Path.{components};
ghost use Rattle.c_cache_keys.specs.CCompiler.{IsHip, IsOf, IsOfCompiler, executable_text, found_of};

use cck_compiler::{
    CCompilerImpl, CCompilerKind, CompilerArguments, KeyError, ParsedArguments, add_extra_files,
};
use cck_digest::{Digest, HashState, UtilError};
use cck_files::{DigestFiles, Files};
use cck_hasher::CCompilerHasher;
use std::alloc::{AllocError, Global};

/// A compiler and its executable.
///
/// Upstream's `compiler::c::CCompiler`.
#[derive(Drop)]
pub struct CCompiler<I> {
    /// The compiler.
    pub compiler: I,
    /// The path of its executable.
    pub executable: Vec<u8>,
    /// The hex digest of its executable.
    pub executable_digest: String,
}

impl<I: CCompilerImpl> CCompiler<I> {
    /// Returns a compiler with its executable, which is read for its hex digest. That is the hex
    /// digest of the node at the path. Where the compiler has a version, it is the hex digest of
    /// that one followed by the version.
    ///
    /// The errors are those of [`DigestFiles::file`] at the path. After an error the compiler and
    /// the path are dropped.
    ///
    /// Upstream's `CCompiler::new`.
    pub fn new<H: HashState, F: Files>(
        alloc: Global,
        compiler: I,
        executable: Vec<u8>,
        files: &mut F,
    ) -> Result<CCompiler<I>, UtilError>
    where
        I: Drop,
        ensures keeps { Keeps F.file_map F.faults F.is_quiet files.old files.new }
        ensures compiler { IfOk result (λ made. made.compiler ≡ compiler) }
        ensures executable { IfOk result (λ made. made.executable ≡ executable) }
        ensures digest { IfOk result (λ made.
            executable_text H.hash (I.compiler.version (I.value compiler)) (F.file_map files.old) (components executable.items)
            ≡ Some (string_bytes made.executable_digest)) }
        ensures errors { IfErr result (λ e. IsDigestError (F.file_map files.old) (components executable.items)
            (Rose (F.faults files.old) (F.faults files.new)) e) }
    {
        let text = Digest::<H>::file(alloc, files, &executable)?;
        let executable_digest = match compiler.version() {
            Some(version) => text_with_version::<H>(alloc, &text, version)?,
            None => text,
        };
        Ok(CCompiler {
            compiler,
            executable,
            executable_digest,
        })
    }

    /// The family of the compiler. It allocates no memory.
    pub fn kind(&self) -> CCompilerKind
        ensures { result ≡ I.compiler.kind (I.value self.now.compiler) }
    {
        self.compiler.kind()
    }

    /// Returns what a command line is, in a directory and under variables.
    ///
    /// A compilation has the arguments that the compiler parses. To their extra files
    /// [`add_extra_files`] appends those that the variables `SCCACHE_EXTRAFILES` name and, for HIP,
    /// the device libraries.
    ///
    /// Errors:
    ///
    /// - [`KeyError::Extra`] of a fault: only for HIP, and only where the count of faults rose.
    /// - [`KeyError::Memory`]: memory is lacking.
    ///
    /// Upstream's `CCompiler::parse_arguments`.
    pub fn parse_arguments<F: Files>(
        &self,
        alloc: Global,
        files: &mut F,
        arguments: &[Vec<u8>],
        cwd: &[u8],
        vars: &[(Vec<u8>, Vec<u8>)],
    ) -> Result<CompilerArguments<CCompilerHasher<I>>, KeyError>
        ensures keeps { Keeps F.file_map F.faults F.is_quiet files.old files.new }
        ensures found { IfOk result (λ found. found_of found
            ≡ completed (F.file_map files.old) (variables_of vars.now)
            (I.compiler.parsed (I.value self.now.compiler) (lists_of arguments.now) cwd.now (variables_of vars.now))) }
        ensures compiler { IfOk result (IsOfCompiler I.value self.now) }
        ensures errors { IfErr result (λ e. (e ≡ KeyError.Memory)
            ⊎ (IsHip (I.compiler.parsed (I.value self.now.compiler) (lists_of arguments.now) cwd.now (variables_of vars.now))
            × IsFileFault e (Rose (F.faults files.old) (F.faults files.new)))) }
    {
        match self.compiler.parse_arguments(alloc, arguments, cwd, vars) {
            Ok(CompilerArguments::Ok(mut parsed_args)) => {
                match add_extra_files(alloc, files, &mut parsed_args, vars) {
                    Ok(()) => Ok(CompilerArguments::Ok(self.hasher(alloc, parsed_args)?)),
                    Err(error) => Err(error),
                }
            }
            Ok(CompilerArguments::CannotCache(reason, detail)) => {
                Ok(CompilerArguments::CannotCache(reason, detail))
            }
            Ok(CompilerArguments::NotCompilation) => Ok(CompilerArguments::NotCompilation),
            Err(error) => Err(error),
        }
    }

    /// A copy of the compiler.
    ///
    /// The only error is [`KeyError::Memory`].
    pub fn copy(&self, alloc: Global) -> Result<CCompiler<I>, KeyError>
        ensures compiler { IfOk result (λ copy. I.value copy.compiler ≡ I.value self.now.compiler) }
        ensures executable { IfOk result (λ copy. copy.executable.items ≡ self.now.executable.items) }
        ensures digest { IfOk result (λ copy.
            string_bytes copy.executable_digest ≡ string_bytes self.now.executable_digest) }
        ensures errors { IsOkUnless result KeyError.Memory }
    {
        let executable = self.executable.to_vec(alloc)?;
        let executable_digest = self.executable_digest.clone()?;
        Ok(CCompiler {
            compiler: self.compiler.copy(alloc)?,
            executable,
            executable_digest,
        })
    }

    // A compilation by this compiler.
    fn hasher(
        &self,
        alloc: Global,
        parsed_args: ParsedArguments,
    ) -> Result<CCompilerHasher<I>, AllocError>
        ensures compiler { IfOk result (IsOf I.value self.now) }
        ensures arguments { IfOk result (λ hasher. hasher.parsed_args ≡ parsed_args) }
    {
        let Ok(copy) = self.copy(alloc) else {
            return Err(AllocError);
        };
        Ok(CCompilerHasher {
            compiler: copy.compiler,
            executable: copy.executable,
            executable_digest: copy.executable_digest,
            parsed_args,
        })
    }
}

// The hex digest of a hex digest followed by a version.
fn text_with_version<H: HashState>(
    alloc: Global,
    text: &str,
    version: &str,
) -> Result<String, AllocError>
    ensures { IfOk result (λ both. string_bytes both ≡ digest_text H.hash (text.now ++ version.now)) }
{
    let mut digest = Digest::<H>::new();
    digest.update(text.as_bytes());
    digest.update(version.as_bytes());
    match digest.finish(alloc) {
        Ok(text) => Ok(text),
        Err(_) => Err(AllocError),
    }
}
