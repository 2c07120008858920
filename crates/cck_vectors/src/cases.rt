//! Test vectors: reads cases from files, makes their calls, and reports the results.
//!
//! A vector file has one line for each thing that a case says. `docs/TESTING.md` has the grammar. A
//! module of cases implements [`Subject`] for the calls that it knows, and [`run_file`] runs a file of
//! them. A case that is added to a file needs no proof.
//!
//! - A call returns a [`Value`], or a [`CaseError`] as the reason why there is none.
//! - [`Given`] has what lines give for calls on bytes, and [`GivenFiles`] what they give for calls on
//!   files.
//! - [`find`] looks a word up in a table. [`number`], [`bytes_of`], [`words_of`] and [`moment_of`]
//!   read the parts of a line.
//! - [`FailReader`] and [`FailWriter`] fail at the calls that [`Failures`] gives.
//!
//! These functions have no contracts. A fault in them shows as a difference or a wrong count.

mod case_error;
mod failing;
mod given;
mod given_files;
mod made;
mod report;
mod run;
mod session;
mod subject;
mod table;
mod text;
mod value;

pub(crate) use case_error::CaseError;
pub(crate) use failing::{FailReader, FailWriter, Failures};
pub(crate) use given::Given;
pub(crate) use given_files::GivenFiles;
pub(crate) use run::run_file;
pub(crate) use subject::{CaseLine, Subject};
pub(crate) use table::find;
pub(crate) use text::{
    byte_of, bytes_of, moment_of, number, optional_moment_of, parts_of, variables_of, words_of,
    zone_of,
};
pub(crate) use value::{Value, end_line, write_cut, write_moment, write_numbers};
