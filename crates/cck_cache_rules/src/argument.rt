//! What one argument of a compilation does.
ghost use Rattle.std.specs.Prelude.{◌↔◌, IsTrue};
ghost use Rattle.cck_cache_rules.specs.Argument.{AsksForDebug, IsMapOfBase, IsPortable, MapsBase, MapsDebug, ShowsPaths};
ghost use Rattle.cck_digest.specs.TimeMacros.{Has};

use memchr::memmem;

/// The option that maps a prefix of all paths, without what it maps.
const FILE_MAP: &[u8] = b"-ffile-prefix-map=";

/// The option that maps a prefix of the paths in debug information.
const DEBUG_MAP: &[u8] = b"-fdebug-prefix-map=";

/// The option that maps a prefix of the paths in macros.
const MACRO_MAP: &[u8] = b"-fmacro-prefix-map=";

// Whether these bytes contain others.
pub(crate) fn contains(bytes: &[u8], others: &[u8]) -> bool
    ensures { IsTrue result ↔ Has bytes.now others.now }
{
    memmem::find(bytes, others).is_some()
}

// Whether an option maps exactly the base directory, to a name without it.
fn maps_base(argument: &[u8], option: &[u8], base: &[u8]) -> bool
    ensures { IsTrue result ↔ MapsBase argument.now option.now base.now }
{
    let Some(map) = argument.strip_prefix(option) else {
        return false;
    };
    let Some(name) = map.strip_prefix(base) else {
        return false;
    };
    match name.strip_prefix(b"=".as_slice()) {
        Some(name) => !name.contains(&b'=') && !contains(name, base),
        None => false,
    }
}

// Whether an argument maps exactly the base directory, in debug information too.
pub(crate) fn maps_debug(argument: &[u8], base: &[u8]) -> bool
    ensures { IsTrue result ↔ MapsDebug argument.now base.now }
{
    maps_base(argument, FILE_MAP, base) || maps_base(argument, DEBUG_MAP, base)
}

// Whether an argument maps exactly the base directory.
fn is_map_of_base(argument: &[u8], base: &[u8]) -> bool
    ensures { IsTrue result ↔ IsMapOfBase argument.now base.now }
{
    maps_debug(argument, base) || maps_base(argument, MACRO_MAP, base)
}

// Whether an argument asks for debug information.
pub(crate) fn asks_for_debug(argument: &[u8]) -> bool
    ensures { IsTrue result ↔ AsksForDebug argument.now }
{
    argument.starts_with(b"-g") && argument != b"-g0".as_slice()
}

// Whether an argument may put paths into an object, or hide them there: code for link-time optimization has the working
// directory, and is compressed.
fn shows_paths(argument: &[u8]) -> bool
    ensures { IsTrue result ↔ ShowsPaths argument.now }
{
    argument.starts_with(b"-fsanitize")
        || argument.starts_with(b"-gz")
        || argument.starts_with(b"-flto")
}

// Whether an argument may be in a portable compilation.
pub(crate) fn is_portable(argument: &[u8], base: &[u8]) -> bool
    ensures { IsTrue result ↔ IsPortable argument.now base.now }
{
    if shows_paths(argument) {
        return false;
    }
    if contains(argument, b"-prefix-map") {
        return is_map_of_base(argument, base);
    }
    !contains(argument, base)
}
