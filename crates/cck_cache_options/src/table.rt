//! A table of options, and which of its rows an argument is.
ghost use Rattle.std.specs.Prelude.{◌≡◌, ◌++◌, ◌<◌, IfOk, IfSome, OnOk, codes, length};
ghost use Rattle.std.specs.Option.{option_map};
ghost use Rattle.std.specs.Str.{bytes_eq};
ghost use Rattle.cck_cache_options.specs.Table.{after_name, better, cause_named, class_named, entries, entry, entry_in, entry_of_line, entry_with, fits, form_fits, form_named, kept_class_named, pieces_of, split_at, table_of};

use memchr::memchr;
use std::alloc::{AllocError, Global};

/// Where the value of an option is.
#[derive(Clone, Copy)]
pub enum Form {
    /// It has none.
    Alone,
    /// In the same argument, right after the name.
    Joined,
    /// In the next argument.
    Separate,
    /// In the same argument, or in the next one.
    Either,
    /// In the same argument, after a `=`.
    Equals,
}

/// Why calls with an option are not cached.
#[derive(Clone, Copy)]
pub enum Cause {
    /// Something else than an object is made, or the language is another one.
    Mode,
    /// There is no object, but a list of dependencies.
    DependencyList,
    /// The preprocessor is given more than the arguments say.
    PreprocessorOption,
    /// The assembler is given more than the arguments say.
    AssemblerOption,
    /// It is for the linker.
    Inputs,
    /// The object is made again by the linker.
    LinkTimeOptimization,
    /// The code is for the machine that compiles.
    Native,
    /// Files of a profile are read or written.
    Profile,
    /// A precompiled header, a module or a text that is preprocessed is read.
    Precompiled,
    /// More files are written.
    FurtherOutput,
    /// The object has the command line.
    RecordedSwitches,
    /// Other programs are run.
    OtherPrograms,
}

/// What an option decides.
#[derive(Clone, Copy)]
pub enum Class {
    /// The preprocessed text.
    Text,
    /// A macro, which it defines or undefines before the text.
    Definition,
    /// The code.
    Code,
    /// The messages.
    Message,
    /// The messages, in such a way that a warning of the preprocessor may not be printed, or not on one
    /// line; or the line markers of a preprocessed text. The rest of that text does not depend on it, and
    /// the preprocessor is not given it.
    CompilerMessage,
    /// A directory in which headers are looked for.
    Directory,
    /// The language of the inputs that follow.
    Language,
    /// Nothing of what is written.
    Nothing,
    /// That an object is made.
    Compile,
    /// The path of the object.
    Output,
    /// That a dependency file is written.
    Dependencies,
    /// What is in the dependency file.
    Rule,
    /// The target of the rule in the dependency file.
    Target,
    /// The path of the dependency file.
    DependencyFile,
    /// The path of a dependency file that the preprocessor is asked for.
    PreprocessorDependencyFile,
    /// The target of the rule in that file.
    PreprocessorTarget,
    /// That the call is not cached.
    Passed(Cause),
}

/// A row of a table: one option.
#[derive(Clone, Copy)]
pub struct Row<'t> {
    /// The name, without a value and the `=` before it.
    pub name: &'t [u8],
    /// Where the value is.
    pub form: Form,
    /// What the option decides.
    pub class: Class,
}

// The rest of an argument after a name with which it begins.
pub(crate) fn after_name<'a>(name: &[u8], argument: &'a [u8]) -> Option<&'a [u8]>
    ensures { option_map (λ rest. rest.now) result ≡ after_name name.now argument.now }
{
    argument.strip_prefix(name)
}

// Whether the rest of an argument after an option's name is one that this form allows.
fn form_fits(form: Form, rest: &[u8]) -> bool
    ensures { result ≡ form_fits form rest.now }
{
    match form {
        Form::Alone | Form::Separate => rest.is_empty(),
        Form::Joined => !rest.is_empty(),
        Form::Either => true,
        Form::Equals => rest.starts_with(b"="),
    }
}

// Whether an argument is the option of this row.
fn fits(row: &Row<'_>, argument: &[u8]) -> bool
    ensures { result ≡ fits (entry row.now) argument.now }
{
    match after_name(row.name, argument) {
        Some(rest) => form_fits(row.form, rest),
        None => false,
    }
}

/// The one of two rows that an argument fits, and if it fits both, that with the longer name.
pub(crate) fn better<'t>(argument: &[u8], best: Option<Row<'t>>, row: Row<'t>) -> Option<Row<'t>>
    ensures { option_map entry result ≡ better argument.now (option_map entry best.entry) (entry row.entry) }
{
    if !fits(&row, argument) {
        return best;
    }
    match best {
        Some(old) if row.name.len() <= old.name.len() => Some(old),
        _ => Some(row),
    }
}

// Whether a name is this one.
fn is(name: &[u8], other: &[u8]) -> bool
    ensures { result ≡ bytes_eq name.now other.now }
{
    // Most names differ in length.
    name.len() == other.len() && name == other
}

// Whether a name is that of the form of most rows. A pattern is tested faster than a slice, so that a table is read faster.
fn is_alone(name: &[u8]) -> bool
    ensures { result ≡ bytes_eq name.now (codes "alone") }
{
    matches!(name, b"alone")
}

// Whether a name is that of the first class, to which most rows belong.
fn is_code(name: &[u8]) -> bool
    ensures { result ≡ bytes_eq name.now (codes "code") }
{
    matches!(name, b"code")
}

// Whether a name is that of the second class. Most other rows belong to it.
fn is_text(name: &[u8]) -> bool
    ensures { result ≡ bytes_eq name.now (codes "text") }
{
    matches!(name, b"text")
}

// The form of this name.
fn form_named(name: &[u8]) -> Option<Form>
    ensures { result ≡ form_named name.now }
{
    if is_alone(name) {
        Some(Form::Alone)
    } else if is(name, b"joined") {
        Some(Form::Joined)
    } else if is(name, b"separate") {
        Some(Form::Separate)
    } else if is(name, b"either") {
        Some(Form::Either)
    } else if is(name, b"equals") {
        Some(Form::Equals)
    } else {
        None
    }
}

// The class of this name, of options that calls which are cached may have.
fn kept_class_named(name: &[u8]) -> Option<Class>
    ensures { result ≡ kept_class_named name.now }
{
    if is_code(name) {
        Some(Class::Code)
    } else if is_text(name) {
        Some(Class::Text)
    } else if is(name, b"message") {
        Some(Class::Message)
    } else if is(name, b"definition") {
        Some(Class::Definition)
    } else if is(name, b"compiler-message") {
        Some(Class::CompilerMessage)
    } else if is(name, b"directory") {
        Some(Class::Directory)
    } else if is(name, b"nothing") {
        Some(Class::Nothing)
    } else if is(name, b"compile") {
        Some(Class::Compile)
    } else if is(name, b"output") {
        Some(Class::Output)
    } else if is(name, b"dependencies") {
        Some(Class::Dependencies)
    } else if is(name, b"rule") {
        Some(Class::Rule)
    } else if is(name, b"target") {
        Some(Class::Target)
    } else if is(name, b"dependency-file") {
        Some(Class::DependencyFile)
    } else if is(name, b"preprocessor-dependency-file") {
        Some(Class::PreprocessorDependencyFile)
    } else if is(name, b"preprocessor-target") {
        Some(Class::PreprocessorTarget)
    } else if is(name, b"language") {
        Some(Class::Language)
    } else {
        None
    }
}

// The cause of this name.
fn cause_named(name: &[u8]) -> Option<Cause>
    ensures { result ≡ cause_named name.now }
{
    if is(name, b"passed-mode") {
        Some(Cause::Mode)
    } else if is(name, b"passed-dependencies") {
        Some(Cause::DependencyList)
    } else if is(name, b"passed-preprocessor-option") {
        Some(Cause::PreprocessorOption)
    } else if is(name, b"passed-assembler-option") {
        Some(Cause::AssemblerOption)
    } else if is(name, b"passed-inputs") {
        Some(Cause::Inputs)
    } else if is(name, b"passed-link-time-optimization") {
        Some(Cause::LinkTimeOptimization)
    } else if is(name, b"passed-native") {
        Some(Cause::Native)
    } else if is(name, b"passed-profile") {
        Some(Cause::Profile)
    } else if is(name, b"passed-precompiled") {
        Some(Cause::Precompiled)
    } else if is(name, b"passed-further-output") {
        Some(Cause::FurtherOutput)
    } else if is(name, b"passed-recorded-switches") {
        Some(Cause::RecordedSwitches)
    } else if is(name, b"passed-other-programs") {
        Some(Cause::OtherPrograms)
    } else {
        None
    }
}

// The class of this name.
fn class_named(name: &[u8]) -> Option<Class>
    ensures { result ≡ class_named name.now }
{
    match kept_class_named(name) {
        Some(class) => Some(class),
        None => cause_named(name).map(Class::Passed),
    }
}

// What is before the first byte of this value in a text, and what is after it. `None` where there is none.
fn cut<'t>(text: &'t [u8], separator: u8) -> Option<(&'t [u8], &'t [u8])>
    ensures pieces { split_at separator text.now ≡ pieces_of separator text.now (option_map (λ cut. (cut.0.now, cut.1.now)) result) }
    ensures shorter { IfSome result (λ cut. length cut.1.now < length text.now) }
{
    match memchr(separator, text) {
        None => None,
        Some(end) => Some((&text[..end], &text[end + 1..])),
    }
}

// The row of these fields.
fn row_of<'t>(name: &'t [u8], form: &[u8], class: &[u8]) -> Option<Row<'t>>
    ensures { option_map entry result ≡ entry_with name.now (form_named form.now) (class_named class.now) }
{
    let form = form_named(form)?;
    let class = class_named(class)?;
    Some(Row { name, form, class })
}

// The row of a line.
fn row_in<'t>(line: &'t [u8]) -> Option<Row<'t>>
    ensures { option_map entry result ≡ entry_of_line (split_at 32 line.now) }
{
    let (name, rest) = cut(line, b' ')?;
    let (form, class) = cut(rest, b' ')?;
    match cut(class, b' ') {
        Some(_) => None,
        None => row_of(name, form, class),
    }
}

// Appends the row of a line, if it has one.
fn push_row<'t>(rows: &mut Vec<Row<'t>>, line: &'t [u8]) -> Result<(), AllocError>
    ensures { OnOk result (entries rows.new.items ≡ entries rows.old.items ++ entry_in line.now) }
{
    match row_in(line) {
        Some(row) => Ok(rows.push(row)?),
        None => Ok(()),
    }
}

/// The rows of a table in a text: a line for each, with a name, a form and a class and single spaces
/// between them. Any other line has no row, so that its option is unknown.
///
/// The only error is lack of memory.
pub fn rows_of<'t>(alloc: Global, text: &'t [u8]) -> Result<Vec<Row<'t>>, AllocError>
    ensures { IfOk result (λ rows. entries rows.items ≡ table_of text.now) }
{
    let mut rows = Vec::new(alloc);
    let mut left = text;
    while let Some((line, rest)) = cut(left, b'\n') {
        push_row(&mut rows, line)?;
        left = rest;
    }
    push_row(&mut rows, left)?;
    Ok(rows)
}
