//! Laws about the definitions. Each is the contract of a function with an empty body.
ghost use Rattle.std.specs.Prelude.{◌≡◌, ◌↔◌, ◌++◌, ◌∷◌, [], ℕ, ℤ, Bool, true, IsSome, IsTrue, List, Option, Some};
ghost use Rattle.std.specs.Option.{IsSomeAnd};
ghost use Rattle.cck_include.specs.Calendar.{CivilDate, IsInCalendar, date_of_day, day_number};
ghost use Rattle.cck_include.specs.Include.{include_in};
ghost use Rattle.cck_include.specs.Laws.{EqualDigestsTell, RecordedHasLength};
ghost use Rattle.cck_include.specs.Lines.{read_of};
ghost use Rattle.cck_include.specs.Markers.{mark_of};
ghost use Rattle.cck_include.specs.Marks.{HasOneList, Malformed, Marks, Named, Refusal, Unnamed};
ghost use Rattle.cck_include.specs.Marks as marks;
ghost use Rattle.cck_include.specs.TimePart.{AreOfOneSecond, date_bytes, i64_bytes, is_instant, local_date, local_day, local_second, source_date_epoch, time_part};
ghost use Rattle.cck_path.specs.Timestamp.{Moment, nanos_of};
ghost use Rattle.cck_path.specs.Variables.{Variable};
ghost use Rattle.jiff.specs.Types.{TimeZone};
ghost use Rattle.jiff.specs.Words.{IsEpochDay, IsTimestampNanos};

use crate::{IncludeEntry, Line, Mark, PreprocessorCacheModeConfig};

/// A recorded digest has 64 characters, and 128 where the time part of its file counts, if the
/// output of the hash function has 32 bytes.
pub fn recorded_has_length()
    ensures { RecordedHasLength }
{}

/// Files with the same recorded digest show the same text to a preprocessor, even where the digests
/// were recorded at two call times and with different variables. Their contents are the same. Where
/// time macros count, there is no `__TIME__` in them. With a `__DATE__`, the local day and
/// `SOURCE_DATE_EPOCH` are the same, and with a `__TIMESTAMP__` the local second of modification.
///
/// The output of the hash function must have 32 bytes. It must have no collision between the
/// contents of the two files, nor between their time parts.
pub fn equal_digests_tell()
    ensures { EqualDigestsTell }
{}

/// Two values of [`IncludeEntry`] are equal exactly if all their fields are the same.
pub fn include_entry_equality_is_exact()
    ensures { (a b : IncludeEntry) →
        IsTrue (⟦<IncludeEntry as PartialEq>⟧.eq a b) ↔ (include_in a ≡ include_in b) }
{}

/// The date of a day is the only date of the calendar with this day number. A date that is found
/// has the day number, each date is found by its day number, and each day from -9999-01-01 to
/// 9999-12-31 has a date.
pub fn dates_of_days()
    ensures day { (day : ℤ) (d : CivilDate) → date_of_day day ≡ Some d →
        IsInCalendar d × (day_number d ≡ day) }
    ensures date { (d : CivilDate) → IsInCalendar d → date_of_day (day_number d) ≡ Some d }
    ensures every { (day : ℤ) → IsEpochDay day →
        (d : CivilDate) × (date_of_day day ≡ Some d) }
{}

/// There is a time part exactly if each time that it needs is an instant of `jiff`. A date needs
/// the call time; a timestamp needs a modification time, which must be known.
pub fn parts_exist()
    ensures { (date timestamp : Bool) (modified : Option Moment) (moment : Moment)
        (zone : TimeZone) (variables : List Variable) →
        IsSome (time_part date timestamp modified moment zone variables)
        ↔ ((IsTrue date → IsTimestampNanos (nanos_of moment))
        × (IsTrue timestamp → IsSomeAnd modified (λ t. IsTimestampNanos (nanos_of t)))) }
{}

/// If the bytes of two dates in one zone are equal, the dates are of the same local day.
pub fn one_day()
    ensures { (zone : TimeZone) (m n : ℤ) (a b : CivilDate) →
        local_date zone m ≡ Some a → local_date zone n ≡ Some b →
        date_bytes a ≡ date_bytes b → local_day zone m ≡ local_day zone n }
{}

/// If the bytes of two instants' local seconds in one zone are equal, the local seconds are equal.
pub fn one_second()
    ensures { (zone : TimeZone) (m n : ℤ) → is_instant m ≡ true → is_instant n ≡ true →
        i64_bytes (local_second zone m) ≡ i64_bytes (local_second zone n) →
        local_second zone m ≡ local_second zone n }
{}

/// If two time parts in one zone and for equal flags are equal, the macros show the same, whatever
/// else the parts were computed from. With a date, the local days of the call times are equal, and
/// so are the values of `SOURCE_DATE_EPOCH`, or neither has one. With a timestamp, both
/// modification times are known and of the same local second.
pub fn equal_parts_tell()
    ensures days { (zone : TimeZone) (timestamp : Bool) (m n : Option Moment) (a b : Moment)
        (v w : List Variable) (part : List ℕ) →
        time_part true timestamp m a zone v ≡ Some part →
        time_part true timestamp n b zone w ≡ Some part →
        (local_day zone (nanos_of a) ≡ local_day zone (nanos_of b))
        × (source_date_epoch v ≡ source_date_epoch w) }
    ensures seconds { (zone : TimeZone) (date : Bool) (m n : Option Moment) (a b : Moment)
        (v w : List Variable) (part : List ℕ) →
        time_part date true m a zone v ≡ Some part →
        time_part date true n b zone w ≡ Some part →
        AreOfOneSecond zone m n }
{}

/// Two values of [`PreprocessorCacheModeConfig`] are equal exactly if each of their options is.
pub fn preprocessor_cache_mode_config_equality_is_exact()
    ensures { (a b : PreprocessorCacheModeConfig) →
        IsTrue (⟦<PreprocessorCacheModeConfig as PartialEq>⟧.eq a b) ↔ (a ≡ b) }
{}

/// Each text has a list of marks, and only one.
pub fn one_list_of_marks()
    ensures { HasOneList }
{}

/// Nothing follows `Refusal` or `Malformed` in a list of marks.
pub fn nothing_after_the_last_mark()
    ensures refusal { (starts_line : Bool) (text : List ℕ) (before following : List marks.Mark) →
        Marks starts_line text (before ++ Refusal ∷ following) → following ≡ [] }
    ensures malformed { (starts_line : Bool) (text : List ℕ) (before following : List marks.Mark) →
        Marks starts_line text (before ++ Malformed ∷ following) → following ≡ [] }
{}

/// No marker both has a name and has none. There is one place for the name, and one for the line's
/// end of a marker with none.
pub fn one_name_at_one_place()
    ensures apart { (text : List ℕ) → Unnamed text → Named text → ⊥ }
    ensures unnamed { (text : List ℕ) (a b : Unnamed text) → a.front ≡ b.front }
    ensures named { (text : List ℕ) (a b : Named text) →
        (a.front ≡ b.front) × (a.name ≡ b.name) × (a.rest ≡ b.rest) }
{}

/// Two [`Mark`]s are equal exactly if they say the same, with the same bytes of a name.
pub fn mark_equality_is_exact()
    ensures { (a b : Mark) →
        IsTrue (⟦<Mark<'static> as PartialEq>⟧.eq a b) ↔ (mark_of a ≡ mark_of b) }
{}

/// Two [`Line`]s are equal exactly if they say the same, with the same bytes of a name.
pub fn line_equality_is_exact()
    ensures { (a b : Line) →
        IsTrue (⟦<Line<'static> as PartialEq>⟧.eq a b) ↔ (read_of a ≡ read_of b) }
{}
