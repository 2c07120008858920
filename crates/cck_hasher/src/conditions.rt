//! The conditions of a call for a key.
use crate::call::CacheControl;
use cck_include::PreprocessorCacheModeConfig;
use cck_path::Timestamp;
use jiff::tz::TimeZone;

/// All that a call for a key takes beside the compilation, its files and its store.
#[derive(Clone, Copy)]
pub struct Conditions<'a> {
    /// The working directory.
    pub cwd: &'a [u8],
    /// The variables of the environment, as pairs of a name and a value.
    pub vars: &'a [(Vec<u8>, Vec<u8>)],
    /// The call time.
    pub moment: Timestamp,
    /// The zone of local dates and seconds.
    pub zone: &'a TimeZone<'a>,
    /// The options by which files are judged.
    pub config: PreprocessorCacheModeConfig,
    /// The directories that are cut out of what is hashed for a key.
    pub basedirs: &'a [Vec<u8>],
    /// Whether a stored key may be returned.
    pub control: CacheControl,
}
