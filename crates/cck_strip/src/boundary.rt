//! Where a base directory may begin in a text.
ghost use Rattle.std.specs.Prelude.{◌≡◌, ◌≤◌, length, map};
ghost use Rattle.std.specs.List.{list_any};
ghost use Rattle.cck_strip.specs.Text.{has_inner_separator, is_boundary, is_separator};

// Returns whether a base directory may follow this byte.
fn is_separator(byte: u8) -> bool
    ensures { result ≡ is_separator byte }
{
    byte == b' '
        || byte == b'\t'
        || byte == b'\n'
        || byte == b'\x0c'
        || byte == b'\r'
        || byte == b'"'
        || byte == b'<'
}

/// Returns whether the place is the start of the text, or directly after a separator.
pub fn is_boundary(text: &[u8], at: usize) -> bool
    requires { at ≤ length text.now }
    ensures { result ≡ is_boundary text.now at }
{
    at == 0 || is_separator(text[at - 1])
}

// Returns whether one of these bytes is a separator.
fn has_separator(bytes: &[u8]) -> bool
    ensures { result ≡ list_any is_separator bytes.now }
{
    for byte in bytes {
        if is_separator(*byte) {
            return true;
        }
    }
    false
}

/// Returns whether one of these base directories has a separator before its last byte.
pub fn has_inner_separator(basedirs: &[Vec<u8>]) -> bool
    ensures { result ≡ has_inner_separator (map (λ b. b.items) basedirs.now) }
{
    for basedir in basedirs {
        if !basedir.is_empty() && has_separator(&basedir[..basedir.len() - 1]) {
            return true;
        }
    }
    false
}
