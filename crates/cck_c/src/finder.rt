//! The time macros in a stream.
ghost use Rattle.std.specs.Prelude.{◌≡◌, ◌≤◌, ℕ, List, [], ◌++◌, length};
ghost use Rattle.cck_digest.specs.TimeMacros.{Follows};
ghost use Rattle.cck_c.specs.Finder.{IsStored, seen_in};

use cck_digest::{SeenMacros, TimeMacroFinder};

/// The state of a finder. A flag is 0 if the stream does not contain the macro, and the tail has the
/// last bytes of the stream. Any contents are a state.
#[repr(C)]
#[derive(Drop)]
pub struct Finder {
    pub found_time: u8,
    pub found_date: u8,
    pub found_timestamp: u8,
    pub length: u8,
    pub tail: [u8; 12],
}

/// Makes this the finder of an empty stream.
#[unsafe(no_mangle)]
pub extern "C" fn cck_finder_start(finder: &mut Finder)
    ensures follows { Follows (seen_in finder.new) [] }
    ensures stored { IsStored finder.new }
{
    let new = TimeMacroFinder::new();
    store(finder, new.seen());
}

/// Searches the next piece of the stream. An empty piece changes nothing that the finder says.
#[unsafe(no_mangle)]
pub extern "C" fn cck_finder_push(finder: &mut Finder, piece: &[u8])
    ensures follows { (stream : List ℕ) → Follows (seen_in finder.old) stream
        → Follows (seen_in finder.new) (stream ++ piece.now) }
    ensures empty { piece.now ≡ [] → seen_in finder.new ≡ seen_in finder.old }
    ensures stored { IsStored finder.new }
{
    if let Some(mut resumed) = TimeMacroFinder::resume(stored(finder)) {
        resumed.find_time_macros(piece);
        store(finder, resumed.seen());
    }
}

// Returns the state that the struct holds.
fn stored(finder: &Finder) -> SeenMacros<'_>
    ensures within { length result.tail.now ≤ 12 }
    ensures value { record { time = result.time; date = result.date; timestamp = result.timestamp; tail = result.tail.now }
        ≡ seen_in finder.now }
{
    let length = usize::from(finder.length);
    let tail = if length < finder.tail.len() {
        &finder.tail[..length]
    } else {
        finder.tail.as_slice()
    };
    SeenMacros {
        time: finder.found_time != 0,
        date: finder.found_date != 0,
        timestamp: finder.found_timestamp != 0,
        tail,
    }
}

// Writes the state to the struct.
fn store(finder: &mut Finder, seen: SeenMacros<'_>)
    requires { length seen.tail.now ≤ 12 }
    ensures value { seen_in finder.new ≡ record {
      time = seen.entry.time;
      date = seen.entry.date;
      timestamp = seen.entry.timestamp;
      tail = seen.entry.tail.now;
    } }
    ensures stored { IsStored finder.new }
{
    finder.found_time = u8::from(seen.time);
    finder.found_date = u8::from(seen.date);
    finder.found_timestamp = u8::from(seen.timestamp);
    finder.length = seen.tail.len() as u8;
    finder.tail[..seen.tail.len()].copy_from_slice(seen.tail);
}
