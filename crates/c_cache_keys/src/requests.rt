//! Requests over snapshots.
ghost use Rattle.std.specs.Prelude.{◌≡◌};
ghost use Rattle.cck_hasher.specs.Conditions.{given_of};
ghost use Rattle.cck_hasher.specs.declared.call.CacheControl.TheVariants.{Default};
ghost use Rattle.c_cache_keys.specs.Requests.{given_in};

use crate::compiler::ExternalCompiler;
use crate::{CCompilerHasher, CacheControl, Conditions};
use cck_include::PreprocessorCacheModeConfig;
use cck_path::Timestamp;
use jiff::tz::TimeZone;

/// All that a call over a snapshot takes beside the snapshot.
#[derive(Clone, Copy)]
pub struct SnapshotRequest<'a> {
    /// The compilation.
    pub hasher: &'a CCompilerHasher<ExternalCompiler>,
    /// The working directory.
    pub cwd: &'a [u8],
    /// The variables of the environment, as pairs of a name and a value.
    pub vars: &'a [(Vec<u8>, Vec<u8>)],
    /// The call time.
    pub moment: Timestamp,
    /// The zone of local dates and seconds.
    pub zone: &'a TimeZone<'a>,
    /// The options by which files are judged.
    pub config: PreprocessorCacheModeConfig,
    /// The directories that are cut out of what is hashed for a key.
    pub basedirs: &'a [Vec<u8>],
}

/// The conditions of a request, whose call may return a stored key.
pub(crate) fn conditions_of<'a>(request: &'a SnapshotRequest<'a>) -> Conditions<'a>
    ensures { given_of result ≡ given_in Default request.now }
{
    Conditions {
        cwd: request.cwd,
        vars: request.vars,
        moment: request.moment,
        zone: request.zone,
        config: request.config,
        basedirs: request.basedirs,
        control: CacheControl::Default,
    }
}
