//! Results of many keys, which stay, go and are given back.
ghost use Rattle.gl_calculus.specs.Evaluation.Evaluation.{program};
ghost use Rattle.std.specs.Prelude.{◌≤◌, IfOk};
ghost use Rattle.gl_machine.specs.Remembered.{AreTrue};
ghost use Rattle.gl_calculus.specs.Evaluation.Key.{same_key};
ghost use Rattle.gl_demand.specs.Evaluators.{world_of};

use crate::tests::large::chain;
use crate::tests::results::kept_after;
use crate::tests::resumed::{by_results, run_with};
use crate::tests::runs::Sight;
use crate::tests::turns::evaluator_of;
use gl_cells::Cells;
use gl_core::Results;
use gl_demand::Evaluator;
use gl_plane::Oracle;
use std::alloc::Global;
use std::test::Fail;
use tests_common::{Form, first_column, sheet_with};

/// A formula in each row of the first column and one more below them, and their total.
fn total(alloc: Global) -> Result<Cells, Fail> {
    let lines = ["set A1 =1", "set B1 =SUM(A1:A9999,C1)", "set C1 =A9999+1"];
    let numbers = first_column(2, 9999, Form::Above("", "+1"));
    sheet_with(alloc, &lines, &numbers)
}

/// The sum of the numbers up to 10,000.
const TOTAL: Sight = Sight::Number(50_005_000);

/// Runs from the total alone, and from both ends of what it reads, go by the results alone, and leave
/// so many of them. The note of the total wakes it behind each of its 10,000 reads.
fn left_by_notes(at: &Evaluator<'_>, kind: u8) -> Result<usize, Fail>
    requires { kind ≤ 2 }
{
    // from the last key to the first, so that the total finds all that it needs: each formula twice,
    // but for the first and the total
    let ran = run_with(at, &["B1", "C1"], Results::new(at.alloc), 1)?;
    if (ran.known, ran.steps) != (10_001, 20_000) || ran.seen.first() != Some(&TOTAL) {
        return Err("another total".into());
    }
    let results = by_results(at, ran.results, &["B1"], kind, 10_001, TOTAL)?;
    let results = by_results(at, results, &["B1", "C1"], kind, 10_001, TOTAL)?;
    Ok(results.len())
}

/// How many results they leave by each pick rule.
fn left_by_each(alloc: Global) -> Result<[usize; 3], Fail> {
    let w = Oracle::new(alloc);
    let cells = total(alloc)?;
    let at = evaluator_of(alloc, &cells, &w);
    Ok([
        left_by_notes(&at, 0)?,
        left_by_notes(&at, 1)?,
        left_by_notes(&at, 2)?,
    ])
}

#[test]
fn a_note_of_ten_thousand_reads(rt: HostRuntime) -> Result<(), Fail> {
    assert_eq!(rt; left_by_each(rt.alloc())?, [10_001; 3]);
    Ok(())
}

/// What the first cell of the chain comes to.
const LAST: Sight = Sight::Number(200_000);

/// A range that nothing of the chain looks at.
const APART: &str = "D1:E9999";

/// The results of the chain behind a run by the rule of a kind where nothing of it has changed.
fn chain_again(at: &Evaluator<'_>, results: Results, kind: u8) -> Result<Results, Fail>
    requires kind { kind ≤ 2 }
    requires true_notes { AreTrue same_key (program (world_of at.now)) results }
    ensures { IfOk result (AreTrue same_key (program (world_of at.now))) }
{
    let count = results.len();
    let kept = kept_after(at, results, APART)?;
    by_results(at, kept, &["A1"], kind, count, LAST)
}

/// How many results of a long chain there are, how many are left behind a run by each rule where
/// nothing of it has changed, and how many stay where the last formula has changed.
fn chain_kept(at: &Evaluator<'_>) -> Result<(usize, usize, usize), Fail> {
    let first = run_with(at, &["A1"], Results::new(at.alloc), 0)?;
    let count = first.results.len();
    let results = chain_again(at, first.results, 0)?;
    let results = chain_again(at, results, 1)?;
    let results = chain_again(at, results, 2)?;
    let left = results.len();
    let rest = kept_after(at, results, "A5000:A5000")?;
    Ok((count, left, rest.len()))
}

#[test]
fn a_long_chain_stays_or_goes_as_a_whole(rt: HostRuntime) -> Result<(), Fail> {
    let w = Oracle::new(rt.alloc());
    let cells = chain(rt.alloc())?;
    let at = evaluator_of(rt.alloc(), &cells, &w);
    assert_eq!(rt; chain_kept(&at)?, (200_039, 200_039, 0));
    Ok(())
}
