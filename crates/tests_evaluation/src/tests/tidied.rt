//! Results that are tidied between runs, each of which leaves keys behind.
ghost use Rattle.gl_calculus.specs.Evaluation.Evaluation.{program};
ghost use Rattle.std.specs.Prelude.{◌≤◌, IfOk};
ghost use Rattle.gl_machine.specs.Remembered.{AreTrue};
ghost use Rattle.gl_calculus.specs.Evaluation.Key.{same_key};
ghost use Rattle.gl_demand.specs.Evaluators.{world_of};

use crate::tests::results::{kept_after, outcome_of};
use crate::tests::resumed::{by_results, run_with};
use crate::tests::runs::Sight;
use crate::tests::turns::evaluator_of;
use gl_cells::Cells;
use gl_core::Results;
use gl_demand::Evaluator;
use gl_plane::Oracle;
use std::alloc::Global;
use std::test::Fail;
use tests_common::{Form, first_column, put_line, sheet_with};

/// In this row of the fourth column a copy of the chain over another number, and the chain itself.
fn put_copy(alloc: Global, cells: &mut Cells, row: u16) -> Result<(), Fail> {
    let line = format!(in alloc; "set D{row} =VIEW(UPDATE(SHEET(A1:A30),A30,{row}),A1)+A1")?;
    put_line(alloc, cells, line.as_str())
}

/// A chain of 29 formulas over a number, and a hundred copies of it.
fn copies(alloc: Global) -> Result<Cells, Fail> {
    let links = first_column(1, 29, Form::Below("", "+1"));
    let mut cells = sheet_with(alloc, &["set A30 5"], &links)?;
    for row in 1..101u16 {
        put_copy(alloc, &mut cells, row)?;
    }
    Ok(cells)
}

/// What the copy in a row comes to, with the chain itself.
fn copied(row: u16) -> Sight {
    Sight::Number(i64::from(row).saturating_add(63))
}

/// How many results there are, and the outcomes of the first and the last formula of the chain, and
/// of one more cell.
type Shape = (usize, Option<Sight>, Option<Sight>, Option<Sight>);

fn shape(results: &Results, name: &str) -> Result<Shape, Fail> {
    Ok((
        results.len(),
        outcome_of(results, "A1")?,
        outcome_of(results, "A29")?,
        outcome_of(results, name)?,
    ))
}

/// The results say the same of a row and the chain before and behind tidying: of the chain, its
/// copy, the settling of that, and the cell.
fn tidied(at: &Evaluator<'_>, results: Results, name: &str, row: u16) -> Result<Results, Fail>
    requires { AreTrue same_key (program (world_of at.now)) results }
    ensures { IfOk result (AreTrue same_key (program (world_of at.now))) }
{
    let want = (
        60,
        Some(Sight::Number(34)),
        Some(Sight::Number(6)),
        Some(copied(row)),
    );
    let mut results = results;
    let before = shape(&results, name)?;
    let known = results.len() as u64;
    results.tidy(at.alloc, known);
    if before != want || shape(&results, name)? != want {
        return Err("other results".into());
    }
    Ok(results)
}

/// The results of the copy in a row, behind those of the row before, whose formula is as good as
/// gone: as many however often they are tidied, and a run goes by them alone.
fn next(at: &Evaluator<'_>, results: Results, row: u16, kind: u8) -> Result<Results, Fail>
    requires true_notes { AreTrue same_key (program (world_of at.now)) results }
    requires kind { kind ≤ 2 }
    ensures { IfOk result (AreTrue same_key (program (world_of at.now))) }
{
    let above = row.saturating_sub(1).max(1);
    let gone = format!(in at.alloc; "D{above}:D{above}")?;
    let kept = kept_after(at, results, gone.as_str())?;
    let name = format!(in at.alloc; "D{row}")?;
    let ran = run_with(at, &[name.as_str()], kept, kind)?;
    let tidied = tidied(at, ran.results, name.as_str(), row)?;
    by_results(at, tidied, &[name.as_str()], kind, 60, copied(row))
}

/// How many results there are behind a hundred rows.
fn last_count(at: &Evaluator<'_>, kind: u8) -> Result<usize, Fail>
    requires { kind ≤ 2 }
{
    let mut results = Results::new(at.alloc);
    for row in 1..101u16 {
        results = next(at, results, row, kind)?;
    }
    Ok(results.len())
}

#[test]
fn results_are_tidied_between_runs(rt: HostRuntime) -> Result<(), Fail> {
    let w = Oracle::new(rt.alloc());
    let cells = copies(rt.alloc())?;
    let at = evaluator_of(rt.alloc(), &cells, &w);
    for kind in 0u8..3 {
        assert!(rt; last_count(&at, kind)? == 60, "by {kind}");
    }
    Ok(())
}
