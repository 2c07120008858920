//! The rows of a table in runs, so that most of them are passed over when the row of an argument is looked
//! for.
ghost use Rattle.std.specs.Prelude.{◌≡◌, ◌↔◌, IfOk, IsTrue, OnOk, flat_map, fold};
ghost use Rattle.std.specs.List.{AllByRecursion};
ghost use Rattle.std.specs.Option.{option_map};
ghost use Rattle.cck_cache_options.specs.Runs.{AreRuns, IsMore, IsOpened, IsRun, after_dash, run_entries, runs_entries};
ghost use Rattle.cck_cache_options.specs.Table.{better, entries, entry, longest};

use crate::table::{Row, better};
use std::alloc::{AllocError, Global};
use std::mem;

// Rows that follow each other in a table, and whose names have the same two bytes after the dash, or have
// fewer.
struct Run<'t> {
    bytes: Option<(u8, u8)>,
    rows: Vec<Row<'t>>,
}

impl Drop for Run<'_> {
    fn drop(self) {
        let Run { bytes: _, rows: _ } = self;
    }
}

/// The rows of a table, in runs.
pub(crate) struct Runs<'t> {
    done: Vec<Run<'t>>,
    last: Run<'t>,
}

impl Drop for Runs<'_> {
    fn drop(self) {
        let Runs { done: _, last: _ } = self;
    }
}

// The two bytes of a name or an argument after the dash.
fn after_dash(name: &[u8]) -> Option<(u8, u8)>
    ensures { result ≡ after_dash name.now }
{
    match name {
        [_, first, second, ..] => Some((*first, *second)),
        _ => None,
    }
}

// Whether two runs may be one.
fn is_same(a: Option<(u8, u8)>, b: Option<(u8, u8)>) -> bool
    ensures { IsTrue result ↔ (a ≡ b) }
{
    a == b
}

// Makes the last run one of these bytes, which may be empty.
fn open_run<'t>(
    alloc: Global,
    runs: &mut Runs<'t>,
    bytes: Option<(u8, u8)>,
) -> Result<(), AllocError>
    ensures { OnOk result (IsOpened runs.old bytes runs.new) }
{
    if is_same(runs.last.bytes, bytes) {
        return Ok(());
    }
    let rows = Vec::new(alloc);
    let last = mem::replace(&mut runs.last, Run { bytes, rows });
    runs.done.push(last)?;
    Ok(())
}

// Adds a row.
fn add_row<'t>(alloc: Global, runs: &mut Runs<'t>, row: Row<'t>) -> Result<(), AllocError>
    ensures { OnOk result (IsMore runs.old (entry row.entry) runs.new) }
{
    open_run(alloc, runs, after_dash(row.name))?;
    runs.last.rows.push(row)?;
    Ok(())
}

/// The rows of a table in runs.
///
/// The only error is lack of memory.
pub(crate) fn runs_of<'t>(alloc: Global, rows: &[Row<'t>]) -> Result<Runs<'t>, AllocError>
    ensures { IfOk result (λ runs. (runs_entries runs ≡ entries rows.now) × AreRuns runs) }
{
    let last = Run {
        bytes: None,
        rows: Vec::new(alloc),
    };
    let mut runs = Runs {
        done: Vec::new(alloc),
        last,
    };
    for row in rows {
        add_row(alloc, &mut runs, *row)?;
    }
    Ok(runs)
}

// The row with the longest name of those that an argument fits, of some rows and one before them.
fn longest_of<'t>(rows: &[Row<'t>], argument: &[u8], before: Option<Row<'t>>) -> Option<Row<'t>>
    ensures { option_map entry result
        ≡ fold (better argument.now) (option_map entry before.entry) (entries rows.now) }
{
    let mut best = before;
    for row in rows {
        best = better(argument, best, *row);
    }
    best
}

// The same of the rows of a run.
fn longest_in<'t>(run: &Run<'t>, argument: &[u8], before: Option<Row<'t>>) -> Option<Row<'t>>
    ensures { IsRun run.now → option_map entry result
        ≡ fold (better argument.now) (option_map entry before.entry) (run_entries run.now) }
{
    if run.bytes.is_some() && !is_same(run.bytes, after_dash(argument)) {
        return before;
    }
    longest_of(&run.rows, argument, before)
}

// The same of the rows of these runs.
fn longest_among<'t>(runs: &[Run<'t>], argument: &[u8]) -> Option<Row<'t>>
    ensures { AllByRecursion IsRun runs.now → option_map entry result
        ≡ longest (flat_map run_entries runs.now) argument.now }
{
    let mut best = None;
    for run in runs {
        best = longest_in(run, argument, best);
    }
    best
}

/// The row with the longest name of those that an argument fits.
pub(crate) fn longest<'t>(runs: &Runs<'t>, argument: &[u8]) -> Option<Row<'t>>
    ensures { AreRuns runs.now → option_map entry result ≡ longest (runs_entries runs.now) argument.now }
{
    let before = longest_among(&runs.done, argument);
    longest_in(&runs.last, argument, before)
}
