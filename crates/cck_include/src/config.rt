//! The options of the preprocessor cache mode.
ghost use Rattle.std.specs.Prelude.{◌≡◌, true, false};
ghost use Rattle.cck_include.specs.Config.{activated};

/// The options of the preprocessor cache mode. In this mode a key is returned without preprocessing
/// if none of the files that were read has changed.
///
/// Upstream's `config::PreprocessorCacheModeConfig`. No call allocates memory.
#[derive(Debug, Copy, Clone, PartialEq, Eq)]
pub struct PreprocessorCacheModeConfig {
    /// Whether the mode is on. Off by default.
    pub use_preprocessor_cache_mode: bool,
    /// Whether a file of equal size and equal times is taken to be unchanged, without reading its
    /// contents. Off by default.
    pub file_stat_matches: bool,
    /// Whether these times are the time of the last change and that of the last modification, or
    /// the latter alone. On by default.
    pub use_ctime_for_stat: bool,
    /// Whether `__DATE__`, `__TIME__` and `__TIMESTAMP__` in a file are treated like any other
    /// text. Off by default.
    pub ignore_time_macros: bool,
    /// Whether headers that a line marker flags as system headers are left out. Off by default.
    pub skip_system_headers: bool,
    /// Whether the working directory is part of the preprocessor key, so that requests in different
    /// directories have different keys. On by default, as upstream.
    pub hash_working_directory: bool,
}

impl PreprocessorCacheModeConfig {
    /// Returns the default options, with the mode on.
    pub fn activated() -> PreprocessorCacheModeConfig
        ensures { result ≡ activated }
    {
        PreprocessorCacheModeConfig {
            use_preprocessor_cache_mode: true,
            ..PreprocessorCacheModeConfig::default()
        }
    }
}

impl Default for PreprocessorCacheModeConfig {
    ghost is_default = { λ config. config ≡ record {
      use_preprocessor_cache_mode = false;
      file_stat_matches = false;
      use_ctime_for_stat = true;
      ignore_time_macros = false;
      skip_system_headers = false;
      hash_working_directory = true;
    } };

    fn default() -> PreprocessorCacheModeConfig {
        PreprocessorCacheModeConfig {
            use_preprocessor_cache_mode: false,
            file_stat_matches: false,
            use_ctime_for_stat: true,
            ignore_time_macros: false,
            skip_system_headers: false,
            hash_working_directory: true,
        }
    }
}
