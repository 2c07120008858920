//! The version of the project.

/// The version of the project, which each program prints for `--version`. CHANGELOG.md says when it is
/// raised.
pub const VERSION: &str = "0.1.0";
