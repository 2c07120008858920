//! What files are judged by.
use crate::PreprocessorCacheModeConfig;
use cck_path::Timestamp;
use jiff::tz::TimeZone;

/// What files are judged by, besides their own contents and metadata.
#[derive(Clone, Copy)]
pub struct JudgeContext<'a> {
    /// The call time.
    pub moment: Timestamp,
    /// The zone of local dates and seconds.
    pub zone: &'a TimeZone<'a>,
    /// The variables of the environment, as pairs of a name and a value.
    pub vars: &'a [(Vec<u8>, Vec<u8>)],
    /// The options.
    pub config: PreprocessorCacheModeConfig,
}
