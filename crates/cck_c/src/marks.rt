//! The marks of a preprocessed text.
ghost use Rattle.std.specs.Prelude.{◌≡◌, ◌≤◌, ◌<◌, [], drop, length, map, take};
ghost use Rattle.cck_include.specs.Markers.{Yields, MarksLeft, mark_of};
ghost use Rattle.cck_c.specs.Marks.{mark_fields, mark_in, stored_mark, unread_in};

use cck_include::Markers;

/// The kind of a line marker's name.
const NAME: u8 = 0;

/// The kind of an inclusion by the assembler.
const REFUSAL: u8 = 1;

/// The kind of a line marker that neither has a name nor ends its line without one.
const MALFORMED: u8 = 2;

/// A mark of a text.
#[repr(C)]
#[derive(Clone, Copy)]
pub struct CMark<'a> {
    /// Its name, a slice of the text. It is empty for another kind than [`NAME`].
    pub name: &'a [u8],
    /// What it is.
    pub kind: u8,
    /// 1 if a line marker says that the file is a system header, else 0.
    pub is_system: u8,
}

/// The rest of a text, whose marks are not read yet.
#[repr(C)]
#[derive(Clone, Copy)]
pub struct UnreadText<'a> {
    pub text: &'a [u8],
    /// 0 if no line starts at the first byte. A line starts at the first byte of a whole text.
    pub starts_line: u8,
}

/// Writes the next marks of the text, as many as the array has room for, and returns their number.
/// If the array has more room than that, the text has no more marks.
///
/// The text is replaced by its rest after these marks, for the next call.
#[unsafe(no_mangle)]
pub extern "C" fn cck_marks<'a>(unread: &mut UnreadText<'a>, marks: &mut [CMark<'a>]) -> usize
    ensures within { result ≤ length marks.old }
    ensures read { Yields (unread_in unread.old) (map mark_in (take result marks.new)) (unread_in unread.new) }
    ensures fields { let written = take result marks.new in map mark_fields written ≡ map (λ mark. stored_mark (mark_in mark)) written }
    ensures all { result < length marks.old → MarksLeft (unread_in unread.new) [] }
    ensures kept { drop result marks.new ≡ drop result marks.old }
{
    let mut markers = Markers::resume(unread.text, unread.starts_line != 0);
    let mut count = 0;
    while count < marks.len() {
        let Some(mark) = markers.next() else {
            break;
        };
        marks[count] = passed(mark);
        count += 1;
    }
    let (text, starts_line) = markers.unread();
    *unread = UnreadText {
        text,
        starts_line: u8::from(starts_line),
    };
    count
}

// Returns the mark as it is passed to a caller.
fn passed(mark: cck_include::Mark<'_>) -> CMark<'_>
    ensures value { mark_in result ≡ mark_of mark.entry }
    ensures fields { mark_fields result ≡ stored_mark (mark_of mark.entry) }
{
    match mark {
        cck_include::Mark::Name { name, is_system } => CMark {
            name,
            kind: NAME,
            is_system: u8::from(is_system),
        },
        cck_include::Mark::Refusal => CMark {
            name: &[],
            kind: REFUSAL,
            is_system: 0,
        },
        cck_include::Mark::Malformed => CMark {
            name: &[],
            kind: MALFORMED,
            is_system: 0,
        },
    }
}
