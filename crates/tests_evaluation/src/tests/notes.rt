//! Notes that a run leaves, and the next run begins with.
ghost use Rattle.gl_calculus.specs.Evaluation.Evaluation.{program};
ghost use Rattle.std.specs.Prelude.{IfOk};
ghost use Rattle.gl_machine.specs.Remembered.{AreTrue};
ghost use Rattle.gl_calculus.specs.Evaluation.Key.{same_key};
ghost use Rattle.gl_memo.specs.Notes.{notes_of};
ghost use Rattle.gl_demand.specs.Evaluators.{world_of};
ghost use Rattle.gl_core.specs.State.{note_trees, HaveSoundParts, IsFor};

use crate::tests::runs::{Sight, fresh, run, seen_as, started};
use crate::tests::turns::{cell, cells_at, evaluator_of};
use gl_core::{Core, copy_notes};
use gl_demand::{Evaluator, Key, Outcome, Silent, Steps};
use gl_memo::Memo;
use gl_plane::{Oracle, Range};
use std::test::Fail;
use tests_common::sheet_of;

/// A second table of the notes that a run leaves.
fn notes_after(
    at: &Evaluator<'_>,
    core: Core,
    steps: &mut Steps<Silent>,
) -> Result<Memo<Key, Outcome, Range>, Fail>
    requires { IsFor (world_of at.now) core }
    ensures true_notes { IfOk result (λ m. AreTrue same_key (program (world_of at.now))
        (note_trees (notes_of m))) }
    ensures sound_notes { IfOk result (λ m. HaveSoundParts (note_trees (notes_of m))) }
{
    match run(at, core, 0, steps) {
        Ok(quiet) => {
            let notes = quiet.into_notes(at.alloc)?;
            Ok(copy_notes(at.alloc, &notes)?)
        }
        Err(e) => Err(e.into()),
    }
}

/// The second run has the notes of the first: how many notes there are, the steps of both, and
/// what is seen of a cell after the second.
fn run_twice(
    at: &Evaluator<'_>,
    names: &[&str],
    name: &str,
) -> Result<(usize, u64, u64, Sight), Fail> {
    let mut steps = Steps::new(Silent);
    let kept = notes_after(at, fresh(at, names)?, &mut steps)?;
    let count = kept.len();
    let core = started(at, cells_at(at.alloc, names)?, kept)?;
    let mut more = Steps::new(Silent);
    let quiet = run(at, core, 1, &mut more)?;
    Ok((
        count,
        steps.done(),
        more.done(),
        seen_as(quiet.seen(&cell(name)?)),
    ))
}

#[test]
fn noted_keys_take_no_steps(rt: HostRuntime) -> Result<(), Fail> {
    let alloc = rt.alloc();
    let w = Oracle::new(alloc);
    let cells = sheet_of(
        alloc,
        &[
            "set A1 1",
            "set B1 =IF(A1>=64,1,VIEW(UPDATE(SHEET(A1:B1),A1,2*A1),B1)+VIEW(UPDATE(SHEET(A1:B1),A1,2*A1+1),B1))",
            "set C1 =D1+B1",
            "set D1 =C1",
        ],
    )?;
    let at = evaluator_of(alloc, &cells, &w);
    assert_eq!(rt;
        run_twice(&at, &["B1"], "B1")?,
        (253, 505, 0, Sight::Number(64))
    );
    // no note is kept of keys that loop
    assert_eq!(rt;
        run_twice(&at, &["B1", "C1"], "C1")?,
        (253, 507, 2, Sight::Loops)
    );
    Ok(())
}
