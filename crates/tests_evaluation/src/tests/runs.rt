//! Runs of a core over a sheet, by each pick rule.
ghost use Rattle.gl_calculus.specs.Evaluation.Evaluation.{program};
ghost use Rattle.std.specs.Prelude.{◌≡◌, ◌≤◌, IfOk, IsTrue, map};
ghost use Rattle.gl_calculus.specs.Computation.Lists.{Member, AreDistinct};
ghost use Rattle.gl_machine.specs.Quiet.{IsQuiet};
ghost use Rattle.gl_machine.specs.Remembered.{AreTrue};
ghost use Rattle.gl_calculus.specs.Evaluation.Key.{same_key};
ghost use Rattle.gl_calculus.specs.Evaluation.Sound.{IsProperKey};
ghost use Rattle.gl_calculus.specs.Evaluation.Key as K;
ghost use Rattle.gl_cells.specs.Sheet.{sheet};
ghost use Rattle.gl_memo.specs.Notes.{notes_of};
ghost use Rattle.gl_demand.specs.{View.key_tree, Sound.AreSoundKeys, Evaluators.world_of};
ghost use Rattle.gl_core.specs.State.{state_of, seeds_of, notes_in, note_trees, HaveSoundParts};
ghost use Rattle.gl_core.specs.State.{IsFor};

use crate::tests::turns::{cell, cells_at};
use gl_cells::Cells;
use gl_core::{Core, CoreFault, MAX_DEMANDED, Quiet, Seen};
use gl_demand::{Budget, Evaluator, Key, Outcome, Silent, Steps, Watch, proper};
use gl_memo::Memo;
use gl_order::{Order, by_kind};
use gl_plane::Range;
use gl_value::{Scalar, Value};
use std::test::Fail;

/// What is seen of a cell.
#[derive(Clone, Copy, PartialEq, Eq, Debug)]
pub enum Sight {
    Number(i64),
    Depth,
    CopyRounds,
    Loops,
    NotDemanded,
    Other,
}

fn value_seen(value: &Value) -> Sight {
    match value {
        Value::One(x) => match x {
            Scalar::Int(n) => Sight::Number(*n),
            _ => Sight::Other,
        },
        Value::Array(_) => Sight::Other,
    }
}

/// What an outcome says of its key.
pub fn outcome_seen(outcome: &Outcome) -> Sight {
    match outcome {
        Outcome::Value(value) => value_seen(value),
        Outcome::Settled(_) => Sight::Other,
        Outcome::Abort(budget) => match budget {
            Budget::Depth => Sight::Depth,
            Budget::CopyRounds => Sight::CopyRounds,
        },
    }
}

/// What a run says of a key.
pub fn seen_as(seen: Option<Seen<'_>>) -> Sight {
    match seen {
        Some(known) => match known {
            Seen::Known(outcome) => outcome_seen(outcome),
            Seen::Loops => Sight::Loops,
        },
        None => Sight::NotDemanded,
    }
}

/// Whether the keys are distinct, and all are sound and proper.
pub fn are_seeds(cells: &Cells, keys: &[Key]) -> bool
    ensures apart { IsTrue result → AreDistinct (map key_tree keys.now) }
    ensures sound { IsTrue result → AreSoundKeys (map key_tree keys.now) }
    ensures proper { IsTrue result
        → (k : K.Key)
        → Member k (map key_tree keys.now)
        → IsProperKey (sheet cells.now) k }
{
    let Some((first, rest)) = keys.split_first() else {
        return true;
    };
    if !first.is_sound() {
        return false;
    }
    if !proper(cells, first) {
        return false;
    }
    if rest.contains(first) {
        return false;
    }
    are_seeds(cells, rest)
}

/// The core of these seeds.
pub fn started(
    at: &Evaluator<'_>,
    seeds: Vec<Key>,
    kept: Memo<Key, Outcome, Range>,
) -> Result<Core, Fail>
    requires true_notes { AreTrue same_key (program (world_of at.now))
        (note_trees (notes_of kept)) }
    requires sound_notes { HaveSoundParts (note_trees (notes_of kept)) }
    ensures { IfOk result (λ core.
        IsFor (world_of at.now) core) }
{
    if seeds.len() > MAX_DEMANDED {
        return Err("too many seeds".into());
    }
    if !are_seeds(at.cells, &seeds) {
        return Err("no seeds".into());
    }
    match Core::start(at.alloc, seeds, kept, at.cells, at.oracle, at.version) {
        Ok(core) => Ok(core),
        Err(e) => Err(e.into()),
    }
}

/// The core of these cells, without notes.
pub fn fresh(at: &Evaluator<'_>, names: &[&str]) -> Result<Core, Fail>
    ensures { IfOk result (λ core.
        IsFor (world_of at.now) core) }
{
    let seeds = cells_at(at.alloc, names)?;
    started(at, seeds, Memo::new(at.alloc))
}

/// Runs the core by the pick rule of a kind.
pub fn run<L: Watch>(
    at: &Evaluator<'_>,
    core: Core,
    kind: u8,
    steps: &mut Steps<L>,
) -> Result<Quiet, CoreFault>
    requires kind { kind ≤ 2 }
    requires for_it { IsFor (world_of at.now) core }
    ensures quiet { IfOk result (λ q.
        IsQuiet same_key (program (world_of at.now)) (seeds_of core) (state_of q)) }
    ensures seeds { IfOk result (λ q. seeds_of q ≡ seeds_of core) }
    ensures stays { IfOk result (λ q.
        IsFor (world_of at.now) q) }
{
    let order = Order::new(by_kind);
    core.run_all(
        at.alloc, &order, kind, at.cells, at.oracle, at.version, steps,
    )
}

/// How many keys these cells demand, the steps by the pick rule of a kind, and what is seen of a cell.
pub fn counts(
    at: &Evaluator<'_>,
    names: &[&str],
    name: &str,
    kind: u8,
) -> Result<(u64, u64, Sight), Fail>
    requires { kind ≤ 2 }
{
    let mut steps = Steps::new(Silent);
    let quiet = run(at, fresh(at, names)?, kind, &mut steps)?;
    Ok((quiet.len(), steps.done(), seen_as(quiet.seen(&cell(name)?))))
}
