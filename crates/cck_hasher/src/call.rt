//! Calls for keys.

/// Whether a stored key may be returned.
///
/// Upstream's `compiler::CacheControl`. Of its cases these two are those that a call for a key
/// distinguishes.
#[derive(Debug, Copy, Clone, PartialEq, Eq)]
pub enum CacheControl {
    /// It may.
    Default,
    /// It may not: the key is computed. Where an entry can be made of it, that replaces the stored
    /// one.
    ForceRecache,
}

/// The result of a call for a key.
///
/// Upstream's `compiler::HashResult`.
#[derive(Debug, Drop)]
pub struct HashResult {
    /// The key of the compilation.
    pub key: String,
    /// The executable's path as text, a `-` and its hex digest: it depends on the compiler alone.
    pub weak_toolchain_key: String,
    /// Whether the key was computed (`true`) or returned from the store (`false`).
    pub is_locally_preprocessed: bool,
}
