//! The arguments of a call.
ghost use Rattle.std.specs.Prelude.{◌≡◌, IfOk, OnOk, codes, map};
ghost use Rattle.std.specs.Option.{option_map};
ghost use Rattle.std.specs.Str.{bytes_eq};
ghost use Rattle.cck_cache_options.specs.Runs.{AreRuns, runs_entries};
ghost use Rattle.cck_cache_options.specs.Table.{entries};
ghost use Rattle.cck_cache_options.specs.Call.{advance, call_of, conclude, ends_in_cplusplus, finish, flag, has_comma, is_assembler, is_c, is_contrary, is_cplusplus, is_input, is_keyed, is_other, is_preprocessed, keep, next_of, on_argument, on_dash, on_input, on_option, on_value, outcome_of, parse, refused, start, step, take, take_dependency_file, take_language, take_output, take_preprocessor_file, take_preprocessor_target};

use crate::reason::Reason;
use crate::runs::{Runs, longest, runs_of};
use crate::table::{Cause, Class, Form, Row, after_name};
use std::alloc::{AllocError, Global};

/// An argument that counts in a key.
#[derive(Clone, Copy)]
pub struct Keyed<'a> {
    /// What its option decides.
    pub class: Class,
    /// The argument.
    pub argument: &'a [u8],
}

/// What a call asks for.
pub struct Call<'a> {
    /// Whether an object is made.
    pub compiles: bool,
    /// The input, as the call has it.
    pub input: Option<&'a [u8]>,
    /// The path of the object, if the call has one.
    pub output: Option<&'a [u8]>,
    /// Whether the compiler writes a dependency file.
    pub depends: bool,
    /// Whether the preprocessor is asked for a dependency file by an option of its own.
    pub preprocessor_depends: bool,
    /// Whether an option says something of the dependency file of the compiler.
    pub describes: bool,
    /// Whether an option says the target of the rule in it.
    pub targets: bool,
    /// The path of the dependency file, if the call has one.
    pub dependency_file: Option<&'a [u8]>,
    /// Whether an option of the preprocessor says the target of the rule in it.
    pub preprocessor_targets: bool,
    /// Whether an option says that the input is a source in C.
    pub as_c: bool,
    /// The arguments that count in a key, in their order.
    pub keyed: Vec<Keyed<'a>>,
}

impl Drop for Call<'_> {
    fn drop(self) {
        let Call {
            compiles: _,
            input: _,
            output: _,
            depends: _,
            preprocessor_depends: _,
            describes: _,
            targets: _,
            dependency_file: _,
            preprocessor_targets: _,
            as_c: _,
            keyed: _,
        } = self;
    }
}

/// What the arguments of a call say.
#[derive(Drop)]
pub enum Parsed<'a> {
    /// What the call asks for.
    Asks(Call<'a>),
    /// Why the call is not cached.
    PassedOn(Reason),
}

// The state after some arguments, beside the call so far: the class of the option of which the next
// argument is the value; or why the call is not cached.
#[derive(Clone, Copy)]
enum Next {
    On(Option<Class>),
    Stop(Reason),
}

// Whether the arguments of options of this class count in a key. Paths of what is written do not.
fn is_keyed(class: Class) -> bool
    ensures { result ≡ is_keyed class }
{
    match class {
        Class::Text
        | Class::Definition
        | Class::Code
        | Class::Message
        | Class::CompilerMessage
        | Class::Directory
        | Class::Language
        | Class::Dependencies
        | Class::Rule
        | Class::Target
        | Class::PreprocessorDependencyFile
        | Class::PreprocessorTarget => true,
        Class::Nothing
        | Class::Compile
        | Class::Output
        | Class::DependencyFile
        | Class::Passed(_) => false,
    }
}

/// Whether the preprocessor has the arguments of options of this class where it writes no dependency
/// file: the text may depend on each that counts in a key, but for those of a dependency file and those
/// of the compiler's messages alone.
pub(crate) fn is_preprocessed(class: Class) -> bool
    ensures { result ≡ is_preprocessed class }
{
    match class {
        Class::Text
        | Class::Definition
        | Class::Code
        | Class::Message
        | Class::Directory
        | Class::Language => true,
        Class::CompilerMessage
        | Class::Dependencies
        | Class::Rule
        | Class::Target
        | Class::PreprocessorDependencyFile
        | Class::PreprocessorTarget
        | Class::Nothing
        | Class::Compile
        | Class::Output
        | Class::DependencyFile
        | Class::Passed(_) => false,
    }
}

// Adds an argument of an option of this class.
fn keep<'a>(call: &mut Call<'a>, class: Class, argument: &'a [u8]) -> Result<(), AllocError>
    ensures { OnOk result (call_of call.new ≡ keep (call_of call.old) class argument.now) }
{
    if is_keyed(class) {
        call.keyed.push(Keyed { class, argument })?;
    }
    Ok(())
}

// The state after the path of the object. Which of two counts is left to the compiler.
fn take_output<'a>(call: &mut Call<'a>, value: &'a [u8]) -> Next
    ensures { next_of (call_of call.new) result ≡ take_output (call_of call.old) value.now }
{
    if call.output.is_some() {
        return Next::Stop(Reason::TwoOutputs);
    }
    call.output = Some(value);
    Next::On(None)
}

// The state after the path of the dependency file.
fn take_dependency_file<'a>(call: &mut Call<'a>, value: &'a [u8]) -> Next
    ensures { next_of (call_of call.new) result ≡ take_dependency_file (call_of call.old) value.now }
{
    if call.dependency_file.is_some() {
        return Next::Stop(Reason::TwoDependencyFiles);
    }
    call.dependency_file = Some(value);
    call.describes = true;
    Next::On(None)
}

// Whether a value of an option of the preprocessor is none: a comma in it begins another option.
fn has_comma(value: &[u8]) -> bool
    ensures { result ≡ has_comma value.now }
{
    value.contains(&b',')
}

// The state after the path of a dependency file of the preprocessor.
fn take_preprocessor_file<'a>(call: &mut Call<'a>, value: &'a [u8]) -> Next
    ensures { next_of (call_of call.new) result ≡ take_preprocessor_file (call_of call.old) value.now }
{
    if has_comma(value) {
        return Next::Stop(Reason::PassedOption(Cause::PreprocessorOption));
    }
    if call.dependency_file.is_some() {
        return Next::Stop(Reason::TwoDependencyFiles);
    }
    call.dependency_file = Some(value);
    call.preprocessor_depends = true;
    Next::On(None)
}

// The state after the target of the rule in a dependency file of the preprocessor.
fn take_preprocessor_target(call: &mut Call<'_>, value: &[u8]) -> Next
    ensures { next_of (call_of call.new) result ≡ take_preprocessor_target (call_of call.old) value.now }
{
    if has_comma(value) {
        return Next::Stop(Reason::PassedOption(Cause::PreprocessorOption));
    }
    call.preprocessor_targets = true;
    Next::On(None)
}

// The state after the language of what follows, which is C and is said before the input.
fn take_language(call: &mut Call<'_>, value: &[u8]) -> Next
    ensures { next_of (call_of call.new) result ≡ take_language (call_of call.old) value.now }
{
    if !matches!(value, b"c") || call.input.is_some() {
        return Next::Stop(Reason::PassedOption(Cause::Mode));
    }
    call.as_c = true;
    Next::On(None)
}

// The state after the value of an option of this class.
fn take<'a>(call: &mut Call<'a>, class: Class, value: &'a [u8]) -> Result<Next, AllocError>
    ensures { IfOk result (λ next. next_of (call_of call.new) next ≡ take (call_of call.old) class value.now) }
{
    match class {
        Class::Output => return Ok(take_output(call, value)),
        Class::DependencyFile => return Ok(take_dependency_file(call, value)),
        Class::PreprocessorDependencyFile => return Ok(take_preprocessor_file(call, value)),
        Class::Passed(cause) => return Ok(Next::Stop(Reason::PassedOption(cause))),
        Class::PreprocessorTarget => return Ok(take_preprocessor_target(call, value)),
        Class::Language => return Ok(take_language(call, value)),
        Class::Target => {
            call.describes = true;
            call.targets = true;
        }
        _ => {}
    }
    Ok(Next::On(None))
}

// The state after an option without a value.
fn flag(call: &mut Call<'_>, class: Class) -> Next
    ensures { next_of (call_of call.new) result ≡ flag (call_of call.old) class }
{
    match class {
        Class::Passed(cause) => return Next::Stop(Reason::PassedOption(cause)),
        Class::Compile => call.compiles = true,
        Class::Dependencies => call.depends = true,
        Class::Rule => call.describes = true,
        _ => {}
    }
    Next::On(None)
}

// The state after the argument of an option, by the rest of it after the option's name.
fn on_option<'a>(
    call: &mut Call<'a>,
    form: Form,
    class: Class,
    argument: &'a [u8],
    rest: &'a [u8],
) -> Result<Next, AllocError>
    ensures { IfOk result (λ next. next_of (call_of call.new) next ≡ on_option (call_of call.old) form class argument.now rest.now) }
{
    keep(call, class, argument)?;
    match form {
        Form::Alone => Ok(flag(call, class)),
        Form::Joined => take(call, class, rest),
        Form::Separate => Ok(Next::On(Some(class))),
        Form::Either => {
            if rest.is_empty() {
                Ok(Next::On(Some(class)))
            } else {
                take(call, class, rest)
            }
        }
        Form::Equals => match after_name(b"=", rest) {
            Some(value) => take(call, class, value),
            None => Ok(Next::Stop(Reason::UnknownOption)),
        },
    }
}

// Whether the compiler takes a file of this name for a source in C: it ends in `.c` and is longer.
fn is_c(name: &[u8]) -> bool
    ensures { result ≡ is_c name.now }
{
    match name.split_first() {
        Some((_, rest)) => rest.ends_with(b".c"),
        None => false,
    }
}

// Whether a text ends in a suffix by which the compiler takes a file for a source in C++.
fn ends_in_cplusplus(text: &[u8]) -> bool
    ensures { result ≡ ends_in_cplusplus text.now }
{
    text.ends_with(b".cc")
        || text.ends_with(b".cp")
        || text.ends_with(b".cxx")
        || text.ends_with(b".cpp")
        || text.ends_with(b".CPP")
        || text.ends_with(b".c++")
        || text.ends_with(b".C")
}

/// Whether the compiler takes a file of this name for a source in C++: it ends in one of the suffixes of
/// C++ and is longer.
///
/// Source: "Options Controlling the Kind of Output" of the manual of GCC.
pub fn is_cplusplus(name: &[u8]) -> bool
    ensures { result ≡ is_cplusplus name.now }
{
    match name.split_first() {
        Some((_, rest)) => ends_in_cplusplus(rest),
        None => false,
    }
}

/// Whether the compiler takes a file of this name for assembler code that has to be preprocessed: it ends
/// in `.S` or `.sx` and is longer.
///
/// Source: "Options Controlling the Kind of Output" of the manual of GCC.
pub fn is_assembler(name: &[u8]) -> bool
    ensures { result ≡ is_assembler name.now }
{
    match name.split_first() {
        Some((_, rest)) => rest.ends_with(b".S") || rest.ends_with(b".sx"),
        None => false,
    }
}

// Whether a file of this name is one of another language than C that is preprocessed.
fn is_other(name: &[u8]) -> bool
    ensures { result ≡ is_other name.now }
{
    is_cplusplus(name) || is_assembler(name)
}

// Whether a name is that of the null device.
fn is_null_device(name: &[u8]) -> bool
    ensures { result ≡ bytes_eq name.now (codes "/dev/null") }
{
    name == b"/dev/null".as_slice()
}

// Whether a file of this name is preprocessed, as a source of the language that its name says. The null device is one in C
// where an option says so.
fn is_input(as_c: bool, name: &[u8]) -> bool
    ensures { result ≡ is_input as_c name.now }
{
    if as_c {
        is_c(name) || is_null_device(name)
    } else {
        is_c(name) || is_other(name)
    }
}

// The state after an argument that is no option and no value. The text may show the path of the input,
// so the argument counts.
fn on_input<'a>(call: &mut Call<'a>, argument: &'a [u8]) -> Result<Next, AllocError>
    ensures { IfOk result (λ next. next_of (call_of call.new) next ≡ on_input (call_of call.old) argument.now) }
{
    if !is_input(call.as_c, argument) {
        return Ok(Next::Stop(Reason::OtherInput));
    }
    if call.input.is_some() {
        return Ok(Next::Stop(Reason::TwoInputs));
    }
    keep(call, Class::Text, argument)?;
    call.input = Some(argument);
    Ok(Next::On(None))
}

// The state after an argument that begins with `-` and is no value.
fn on_dash<'a>(runs: &Runs<'_>, call: &mut Call<'a>, argument: &'a [u8]) -> Result<Next, AllocError>
    requires { AreRuns runs.now }
    ensures { IfOk result (λ next. next_of (call_of call.new) next ≡ on_dash (runs_entries runs.now) (call_of call.old) argument.now) }
{
    let Some(row) = longest(runs, argument) else {
        return Ok(Next::Stop(Reason::UnknownOption));
    };
    let Some(rest) = after_name(row.name, argument) else {
        return Ok(Next::Stop(Reason::UnknownOption));
    };
    on_option(call, row.form, row.class, argument, rest)
}

// The state after the value of an option in an argument of its own.
fn on_value<'a>(call: &mut Call<'a>, class: Class, argument: &'a [u8]) -> Result<Next, AllocError>
    ensures { IfOk result (λ next. next_of (call_of call.new) next ≡ on_value (call_of call.old) class argument.now) }
{
    keep(call, class, argument)?;
    take(call, class, argument)
}

// The state after an argument that may be cached.
fn on_argument<'a>(
    runs: &Runs<'_>,
    call: &mut Call<'a>,
    waiting: Option<Class>,
    argument: &'a [u8],
) -> Result<Next, AllocError>
    requires { AreRuns runs.now }
    ensures { IfOk result (λ next. next_of (call_of call.new) next ≡ on_argument (runs_entries runs.now) (call_of call.old) waiting argument.now) }
{
    if let Some(class) = waiting {
        return on_value(call, class, argument);
    }
    if argument.starts_with(b"-") {
        on_dash(runs, call, argument)
    } else {
        on_input(call, argument)
    }
}

// Why a call with this argument is not cached, whatever it is there for. The list of directories is read
// from lines that the compiler prints, and it prints arguments too, so none may have a line feed.
fn refused(argument: &[u8]) -> Option<Reason>
    ensures { result ≡ refused argument.now }
{
    if argument.is_empty() {
        Some(Reason::EmptyArgument)
    } else if argument.starts_with(b"@") {
        Some(Reason::ResponseFile)
    } else if argument.contains(&b'\n') || argument.contains(&0) {
        Some(Reason::ControlCharacter)
    } else {
        None
    }
}

// The state after an argument.
fn step<'a>(
    runs: &Runs<'_>,
    call: &mut Call<'a>,
    waiting: Option<Class>,
    argument: &'a [u8],
) -> Result<Next, AllocError>
    requires { AreRuns runs.now }
    ensures { IfOk result (λ next. next_of (call_of call.new) next ≡ step (runs_entries runs.now) (call_of call.old) waiting argument.now) }
{
    match refused(argument) {
        Some(reason) => Ok(Next::Stop(reason)),
        None => on_argument(runs, call, waiting, argument),
    }
}

// The state after one more argument. A reason stays.
fn advance<'a>(
    runs: &Runs<'_>,
    call: &mut Call<'a>,
    state: Next,
    argument: &'a [u8],
) -> Result<Next, AllocError>
    requires { AreRuns runs.now }
    ensures { IfOk result (λ next. next_of (call_of call.new) next ≡ advance (runs_entries runs.now) (next_of (call_of call.old) state) argument.now) }
{
    match state {
        Next::On(waiting) => step(runs, call, waiting, argument),
        Next::Stop(reason) => Ok(Next::Stop(reason)),
    }
}

// Whether a call asks for a dependency file in two ways, or only says something of one, to the compiler or to the
// preprocessor.
fn is_contrary(call: &Call<'_>) -> bool
    ensures { result ≡ is_contrary (call_of call.now) }
{
    if call.preprocessor_depends {
        call.depends
    } else {
        call.preprocessor_targets || (call.describes && !call.depends)
    }
}

// What a call asks for, of which all arguments are read.
fn conclude<'a>(call: Call<'a>) -> Parsed<'a>
    ensures { outcome_of result ≡ conclude (call_of call.entry) }
{
    if call.input.is_none() {
        Parsed::PassedOn(Reason::NoInput)
    } else if !call.compiles {
        Parsed::PassedOn(Reason::NotCompiling)
    } else if is_contrary(&call) {
        Parsed::PassedOn(Reason::DependencyOptions)
    } else {
        Parsed::Asks(call)
    }
}

// What a call asks for, after its last argument.
fn finish<'a>(call: Call<'a>, state: Next) -> Parsed<'a>
    ensures { outcome_of result ≡ finish (next_of (call_of call.entry) state) }
{
    match state {
        Next::Stop(reason) => Parsed::PassedOn(reason),
        Next::On(Some(_)) => Parsed::PassedOn(Reason::MissingValue),
        Next::On(None) => conclude(call),
    }
}

// The call before the first argument.
fn start<'a>(alloc: Global) -> Call<'a>
    ensures { call_of result ≡ start }
{
    Call {
        compiles: false,
        input: None,
        output: None,
        depends: false,
        preprocessor_depends: false,
        describes: false,
        targets: false,
        dependency_file: None,
        preprocessor_targets: false,
        as_c: false,
        keyed: Vec::new(alloc),
    }
}

/// Reads the arguments of a call by the rows of a table: what it asks for, or why it is not cached.
///
/// The only error is lack of memory.
pub fn parse<'a>(
    alloc: Global,
    rows: &[Row<'_>],
    arguments: &'a [Vec<u8>],
) -> Result<Parsed<'a>, AllocError>
    ensures { IfOk result (λ parsed. outcome_of parsed ≡ parse (entries rows.now) (map (λ argument. argument.items) arguments.now)) }
{
    let runs = runs_of(alloc, rows)?;
    let mut call = start(alloc);
    let mut state = Next::On(None);
    for argument in arguments {
        state = advance(&runs, &mut call, state, argument)?;
    }
    Ok(finish(call, state))
}
