//! Files of arguments that an argument may name.
ghost use Rattle.std.specs.Prelude.{◌≡◌, ◌<◌, ◌↔◌, IsTrue, length};
ghost use Rattle.std.specs.List.{list_all};
ghost use Rattle.cck_cache.specs.Response.{MayNameArguments, begins_arguments, is_name_byte, may_begin};

// Whether this byte may be in the name of an option that takes a value.
fn is_name_byte(byte: u8) -> bool
    ensures { result ≡ is_name_byte byte }
{
    byte.is_ascii_alphabetic() || byte == b'-' || byte == b','
}

// Whether these bytes may be the name of an option.
fn is_name(front: &[u8]) -> bool
    ensures { result ≡ list_all is_name_byte front.now }
{
    front.iter().all(|byte| is_name_byte(*byte))
}

// Whether what follows these bytes of an argument may begin an argument of a program that the compiler
// runs: it is the last component of a path, or the value of an option.
fn may_begin(front: &[u8]) -> bool
    ensures { result ≡ may_begin front.now }
{
    front.ends_with(b"/") || is_name(front) || front.starts_with(b"--") && front.ends_with(b"=")
}

// Whether a program that the compiler runs may read a file of arguments that this argument names at this
// place.
fn begins_arguments(argument: &[u8], place: usize) -> bool
    requires { place < length argument.now }
    ensures { result ≡ begins_arguments argument.now place }
{
    argument[place] == b'@' && may_begin(&argument[..place])
}

/// Whether a program that the compiler runs may read a file of arguments that this argument names: an `@`
/// begins the value of an option, or a component of a path.
///
/// gcc's driver gives the joined value of an option to `cc1` as an argument of its own, and also the last
/// component of the paths of the input and of the object, and each program reads such a file again
/// (libiberty's `expandargv`).
pub fn may_name_arguments(argument: &[u8]) -> bool
    ensures { IsTrue result ↔ MayNameArguments argument.now }
{
    for place in 0..argument.len() {
        if begins_arguments(argument, place) {
            return true;
        }
    }
    false
}
