//! Why a call is not cached.
ghost use Rattle.std.specs.Prelude.{◌≡◌};
ghost use Rattle.cck_cache_options.specs.Reason.{cause_name, reason_name};

use crate::table::Cause;

/// Why a call is not cached.
#[derive(Clone, Copy)]
pub enum Reason {
    /// An argument begins with `@`: the compiler reads arguments from a file of that name.
    ResponseFile,
    /// An argument is empty.
    EmptyArgument,
    /// An argument has a line feed or a NUL.
    ControlCharacter,
    /// The table does not have an option.
    UnknownOption,
    /// The table has an option as one of calls that are not cached.
    PassedOption(Cause),
    /// The last option has no value.
    MissingValue,
    /// An input is no source in C.
    OtherInput,
    /// There are two inputs.
    TwoInputs,
    /// There is no input.
    NoInput,
    /// There are two outputs.
    TwoOutputs,
    /// There are two dependency files.
    TwoDependencyFiles,
    /// An option for a dependency file is given where none is written, or two options ask for one in
    /// different ways.
    DependencyOptions,
    /// No object is made.
    NotCompiling,
}

// The name of a cause.
fn cause_name(cause: Cause) -> &'static str
    ensures { result.now ≡ cause_name cause }
{
    match cause {
        Cause::Mode => "mode",
        Cause::DependencyList => "dependencies",
        Cause::PreprocessorOption => "preprocessor-option",
        Cause::AssemblerOption => "assembler-option",
        Cause::Inputs => "inputs",
        Cause::LinkTimeOptimization => "link-time-optimization",
        Cause::Native => "native",
        Cause::Profile => "profile",
        Cause::Precompiled => "precompiled",
        Cause::FurtherOutput => "further-output",
        Cause::RecordedSwitches => "recorded-switches",
        Cause::OtherPrograms => "other-programs",
    }
}

impl Reason {
    /// The name under which it is counted.
    pub fn as_str(self) -> &'static str
        ensures { result.now ≡ reason_name self }
    {
        match self {
            Reason::ResponseFile => "response-file",
            Reason::EmptyArgument => "empty-argument",
            Reason::ControlCharacter => "control-character",
            Reason::UnknownOption => "unknown-option",
            Reason::PassedOption(cause) => cause_name(cause),
            Reason::MissingValue => "missing-value",
            Reason::OtherInput | Reason::TwoInputs => "inputs",
            Reason::NoInput => "no-input",
            Reason::TwoOutputs => "outputs",
            Reason::TwoDependencyFiles | Reason::DependencyOptions => "dependencies",
            Reason::NotCompiling => "no-c",
        }
    }
}
