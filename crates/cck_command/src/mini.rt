//! The text that a small preprocessor prints.
//!
//! It knows `#include "NAME"` on a line of its own, one level deep, and three macros. `__DATE__`
//! gives the local day of the call time, and `__TIME__` its local second. `__TIMESTAMP__` gives the
//! local second at which the file that holds it was modified. Days and
//! seconds are counted from 1970-01-01T00:00:00 in the zone and printed in decimal; `?` is printed
//! where the file has no time of modification. It prints line markers as a C preprocessor does.
//! [`print_input`] returns the text, or a [`PrintError`] with the cause.
//!
//! ```rust
//! // `/w/a.c` holds `#include "h.h"` and `int x;`, and `/w/h.h` holds `int y1;`, each with its LF.
//! print_input(alloc, &mut files, 0, moment, b"/w", b"a.c")?;
//! // # 1 "/w/a.c"
//! // # 1 "/w/h.h" 1
//! // int y1;
//! // # 2 "/w/a.c" 2
//! // int x;
//! ```

mod error;
mod expand;
mod file;
mod line;
mod macros;
mod printing;

pub use error::PrintError;
pub use printing::print_input;
