//! Results that are kept for the next run, by each pick rule.
ghost use Rattle.gl_calculus.specs.Evaluation.Evaluation.{program};
ghost use Rattle.std.specs.Prelude.{◌≤◌, IfOk};
ghost use Rattle.gl_machine.specs.Remembered.{AreTrue};
ghost use Rattle.gl_calculus.specs.Evaluation.Key.{same_key};
ghost use Rattle.gl_demand.specs.Evaluators.{world_of};

use crate::tests::resumed::{Ran, run_with, seen_of};
use crate::tests::runs::{Sight, fresh, outcome_seen, run, seen_as};
use crate::tests::turns::{cell, evaluator_of};
use gl_core::{Quiet, Results};
use gl_demand::{Evaluator, Silent, Steps};
use gl_plane::Oracle;
use std::alloc::Global;
use std::test::Fail;
use tests_common::{range, sheet_of};

/// A chain of two formulas over a number, a formula apart, and one that loops.
const LINES: &[&str] = &[
    "set A1 5",
    "set B1 =A1+1",
    "set C1 =B1+1",
    "set D1 =7",
    "set E1 =E1",
];

const FORMULAS: &[&str] = &["B1", "C1", "D1", "E1"];

const SEEN: [Sight; 4] = [
    Sight::Number(6),
    Sight::Number(7),
    Sight::Number(7),
    Sight::Loops,
];

/// The formulas that don't loop.
const CHAIN: &[&str] = &["B1", "C1", "D1"];

/// By its key and by its place a run sees of each formula what it must.
fn sees_all(alloc: Global, quiet: &Quiet) -> Result<bool, Fail> {
    for (i, name) in FORMULAS.iter().enumerate() {
        if seen_as(quiet.seen(&cell(name)?)) != SEEN[i] {
            return Ok(false);
        }
    }
    Ok(seen_of(alloc, quiet, FORMULAS.len())?.as_slice() == SEEN.as_slice())
}

/// A run without results is as one from the start: the steps, the keys that are known, and what is
/// seen of each formula by its place and by its key.
fn begins_alike(at: &Evaluator<'_>, kind: u8) -> Result<bool, Fail>
    requires { kind ≤ 2 }
{
    let mut steps = Steps::new(Silent);
    let quiet = run(at, fresh(at, FORMULAS)?, kind, &mut steps)?;
    let ran = run_with(at, FORMULAS, Results::new(at.alloc), kind)?;
    Ok(
        sees_all(at.alloc, &quiet)?
            && ran.seen.as_slice() == SEEN.as_slice()
            && ran.known == quiet.len()
            && ran.steps == steps.done(),
    )
}

#[test]
fn a_run_without_results_is_one_from_the_start(rt: HostRuntime) -> Result<(), Fail> {
    let w = Oracle::new(rt.alloc());
    let cells = sheet_of(rt.alloc(), LINES)?;
    let at = evaluator_of(rt.alloc(), &cells, &w);
    for kind in 0u8..3 {
        assert!(rt; begins_alike(&at, kind)?, "by {kind}");
    }
    Ok(())
}

/// The results that stay where the range has changed.
pub fn kept_after(at: &Evaluator<'_>, results: Results, place: &str) -> Result<Results, Fail>
    requires { AreTrue same_key (program (world_of at.now)) results }
    ensures { IfOk result (AreTrue same_key (program (world_of at.now))) }
{
    let changed = range(place)?;
    let mut kept = results;
    kept.keep(at.alloc, &[changed])?;
    Ok(kept)
}

/// The results of a run over these formulas that stay where the range has changed.
fn results_behind(
    at: &Evaluator<'_>,
    names: &[&str],
    place: &str,
    kind: u8,
) -> Result<Results, Fail>
    requires { kind ≤ 2 }
    ensures { IfOk result (AreTrue same_key (program (world_of at.now))) }
{
    let ran = run_with(at, names, Results::new(at.alloc), kind)?;
    kept_after(at, ran.results, place)
}

/// A range, how many notes stay where it has changed, and the steps for each formula of the chain
/// by each pick rule.
struct Change {
    place: &'static str,
    kept: usize,
    each: [[u64; 3]; 3],
}

#[rattlefmt::skip]
const CHANGES: &[Change] = &[
    // nothing rests on it: all results stay, and no step is taken
    Change { place: "E5:F9", kept: 3, each: [[0, 0, 0], [0, 0, 0], [0, 0, 0]] },
    // by the second rule C1 is evaluated before B1, and once more behind it
    Change { place: "A1:A1", kept: 1, each: [[1, 1, 0], [1, 2, 0], [1, 1, 0]] },
    Change { place: "B1:B1", kept: 1, each: [[1, 1, 0], [1, 2, 0], [1, 1, 0]] },
    // B1 stays, and is known from the start: by no rule is C1 evaluated before it
    Change { place: "C1:C1", kept: 2, each: [[0, 1, 0], [0, 1, 0], [0, 1, 0]] },
    Change { place: "D1:D1", kept: 2, each: [[0, 0, 1], [0, 0, 1], [0, 0, 1]] },
    Change { place: "A1:D1", kept: 0, each: [[1, 1, 1], [1, 2, 1], [1, 1, 1]] },
];

/// A run behind the change takes these steps and sees what the first one saw.
fn goes_on(at: &Evaluator<'_>, change: &Change, kind: u8) -> Result<bool, Fail>
    requires { kind ≤ 2 }
{
    let kept = results_behind(at, CHAIN, change.place, kind)?;
    let count = kept.len();
    let ran = run_with(at, CHAIN, kept, kind)?;
    let [b, c, d] = change.each[usize::from(kind)];
    Ok(
        count == change.kept
            && ran.each.as_slice() == [b, c, d].as_slice()
            && ran.steps == b.saturating_add(c).saturating_add(d)
            && ran.known == 3
            && ran.results.len() == 3
            && ran.seen.as_slice() == &SEEN[..3],
    )
}

#[test]
fn what_rests_on_a_change_takes_steps(rt: HostRuntime) -> Result<(), Fail> {
    let w = Oracle::new(rt.alloc());
    let cells = sheet_of(rt.alloc(), LINES)?;
    let at = evaluator_of(rt.alloc(), &cells, &w);
    for change in CHANGES {
        for kind in 0u8..3 {
            assert!(rt; goes_on(&at, change, kind)?, "{} by {kind}", change.place);
        }
    }
    Ok(())
}

/// The outcome that the results have of a cell.
pub fn outcome_of(results: &Results, name: &str) -> Result<Option<Sight>, Fail> {
    match results.outcome(&cell(name)?) {
        Some(outcome) => Ok(Some(outcome_seen(outcome))),
        None => Ok(None),
    }
}

/// The results have just these numbers as outcomes of cells.
fn have(results: &Results, want: &[(&str, i64)]) -> Result<bool, Fail> {
    for (name, n) in want {
        if outcome_of(results, name)? != Some(Sight::Number(*n)) {
            return Ok(false);
        }
    }
    Ok(results.len() == want.len())
}

/// A range, and the cells whose outcomes stay where it has changed.
type Staying = (&'static str, &'static [(&'static str, i64)]);

const STAYING: &[Staying] = &[
    ("E5:F9", &[("B1", 6), ("C1", 7), ("D1", 7)]),
    ("A1:A1", &[("D1", 7)]),
    ("C1:C1", &[("B1", 6), ("D1", 7)]),
    ("D1:D1", &[("B1", 6), ("C1", 7)]),
    ("A1:D1", &[]),
];

/// The results of all formulas that stay where the range has changed, a copy of them, and both
/// tidied, have just these outcomes.
fn stay(alloc: Global, row: &Staying) -> Result<bool, Fail> {
    let (place, want) = *row;
    let w = Oracle::new(alloc);
    let cells = sheet_of(alloc, LINES)?;
    let at = evaluator_of(alloc, &cells, &w);
    let mut kept = results_behind(&at, FORMULAS, place, 0)?;
    let mut copied = kept.copy(alloc)?;
    let alike = have(&kept, want)? && have(&copied, want)?;
    let known = kept.len() as u64;
    kept.tidy(alloc, known);
    copied.tidy(alloc, known);
    Ok(alike && have(&kept, want)? && have(&copied, want)?)
}

#[test]
fn outcomes_stay(rt: HostRuntime) -> Result<(), Fail> {
    for row in STAYING {
        assert!(rt; stay(rt.alloc(), row)?, "{}", row.0);
    }
    Ok(())
}

/// A range, one that changes after a run behind that, and the cells whose outcomes stay then.
type StayingAgain = (&'static str, &'static str, &'static [(&'static str, i64)]);

const STAYING_AGAIN: &[StayingAgain] = &[
    // C1 is noted anew, and rests on A1 as before
    ("C1:C1", "A1:A1", &[("D1", 7)]),
    ("A1:A1", "B1:B1", &[("D1", 7)]),
    ("A1:D1", "C1:C1", &[("B1", 6), ("D1", 7)]),
    ("D1:D1", "A1:D1", &[]),
    ("B1:B1", "E5:F9", &[("B1", 6), ("C1", 7), ("D1", 7)]),
];

/// The results of a run behind one change that stay behind another have just these outcomes.
fn stay_again(at: &Evaluator<'_>, row: &StayingAgain, kind: u8) -> Result<bool, Fail>
    requires { kind ≤ 2 }
{
    let (first, second, want) = *row;
    let kept = results_behind(at, CHAIN, first, kind)?;
    let ran = run_with(at, CHAIN, kept, kind)?;
    have(&kept_after(at, ran.results, second)?, want)
}

#[test]
fn outcomes_stay_again(rt: HostRuntime) -> Result<(), Fail> {
    let w = Oracle::new(rt.alloc());
    let cells = sheet_of(rt.alloc(), LINES)?;
    let at = evaluator_of(rt.alloc(), &cells, &w);
    for row in STAYING_AGAIN {
        for kind in 0u8..3 {
            assert!(rt;
                stay_again(&at, row, kind)?,
                "{} and {} by {kind}",
                row.0,
                row.1
            );
        }
    }
    Ok(())
}

/// The outcomes that are left of cells where C1 has changed.
const OUTCOMES: &[(&str, Option<Sight>)] = &[
    ("A1", None),
    ("B1", Some(Sight::Number(6))),
    ("C1", None),
    ("E1", None),
    ("F1", None),
];

#[test]
fn other_keys_have_no_outcome(rt: HostRuntime) -> Result<(), Fail> {
    let w = Oracle::new(rt.alloc());
    let cells = sheet_of(rt.alloc(), LINES)?;
    let at = evaluator_of(rt.alloc(), &cells, &w);
    let kept = results_behind(&at, FORMULAS, "C1:C1", 0)?;
    for (name, want) in OUTCOMES {
        assert!(rt; outcome_of(&kept, name)? == *want, "of {name}");
    }
    Ok(())
}
