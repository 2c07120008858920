//! Why a compilation is not recorded.
ghost use Rattle.std.specs.Prelude.{◌≡◌};
ghost use Rattle.std.specs.Option.{option_map};
ghost use Rattle.cck_cache_rules.specs.Refusal.{IsRefusal, refusal_name};

/// Why a compilation is not recorded.
#[derive(Clone, Copy)]
pub enum Refusal {
    /// The input has no preprocessor key.
    NoKey,
    /// The input changed after the look-up.
    InputChanged,
    /// The local day changed after the look-up.
    DayChanged,
    /// The compiler's list of directories can't be read.
    NoSearchList,
    /// A system header is in no directory of the list.
    UnknownHeader,
    /// A source tests for the existence of a header whose name is not written out there.
    HeaderTest,
    /// A source may have a pragma that compares the times of files.
    DependencyPragma,
    /// The assembler read another file than what the compiler made of the input, or it is not known
    /// what it read.
    AssemblerInclude,
    /// The compiler opened a file that the text does not name, or it is not known what it opened.
    OtherFile,
    /// There is something in doubt where a header would be found earlier, or a precompiled header.
    EarlierPath,
    /// The text is refused, for one of its marks or files.
    NamedFile,
    /// The object, the messages or the dependencies have the base directory.
    BaseDirectory,
}

impl Refusal {
    /// The name under which it is counted. No two have one name.
    pub fn as_str(self) -> &'static str
        ensures { result.now ≡ refusal_name self }
    {
        match self {
            Refusal::NoKey => "refused-no-key",
            Refusal::InputChanged => "refused-input-changed",
            Refusal::DayChanged => "refused-day-changed",
            Refusal::NoSearchList => "refused-no-search-list",
            Refusal::UnknownHeader => "refused-unknown-header",
            Refusal::HeaderTest => "refused-header-test",
            Refusal::DependencyPragma => "refused-dependency-pragma",
            Refusal::AssemblerInclude => "refused-assembler-include",
            Refusal::OtherFile => "refused-other-file",
            Refusal::EarlierPath => "refused-earlier-path",
            Refusal::NamedFile => "refused-named-file",
            Refusal::BaseDirectory => "refused-base-directory",
        }
    }
}

/// What is known of a compilation that is to be recorded, before the files of its text are judged.
#[derive(Clone, Copy)]
pub struct Known<'a> {
    /// The preprocessor key of the input as it is now, if it has one.
    pub found: Option<&'a str>,
    /// The preprocessor key that the look-up printed.
    pub key: &'a str,
    /// Whether the look-up and the recording are on one local day.
    pub is_one_day: bool,
}

/// Why a compilation is not recorded by what is known of it: that it has no preprocessor key, another
/// one than before, or another day; the first of these counts. `None` where none of them holds.
pub fn refusal_of(known: &Known<'_>) -> Option<Refusal>
    ensures { IsRefusal (option_map (λ k. k.now) known.now.found) known.now.key.now known.now.is_one_day result }
{
    let Some(found) = known.found else {
        return Some(Refusal::NoKey);
    };
    if found != known.key {
        return Some(Refusal::InputChanged);
    }
    if !known.is_one_day {
        return Some(Refusal::DayChanged);
    }
    None
}
