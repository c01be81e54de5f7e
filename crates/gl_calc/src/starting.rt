//! The evaluation of all that the formulas demand.
ghost use Rattle.gl_calculus.specs.Evaluation.Evaluation.{program};
ghost use Rattle.std.specs.Prelude.{◌≡◌, ◌≤◌, ℕ, List, IfOk, IfErr, length};
ghost use Rattle.gl_machine.specs.Remembered.{AreTrue};
ghost use Rattle.gl_calculus.specs.Grid.Grid.{Addr as PlainAddr};
ghost use Rattle.gl_calculus.specs.Evaluation.Key.{same_key};
ghost use Rattle.gl_calculus.specs.Calculation.Memory.{Table as Plain};
ghost use Rattle.gl_calculus.specs.Steps.Costs.{Finishes};
ghost use Rattle.gl_calculus.specs.Formulas.Formula.{IsSheet, formula_addresses};
ghost use Rattle.gl_calculus.specs.Grid.Limits.{max_formulas};
ghost use Rattle.gl_cells.specs.Sheet.{sheet};
ghost use Rattle.gl_calculus.specs.Steps.Rule.{PicksBelow};
ghost use Rattle.gl_core.specs.State.{notes_in};
ghost use Rattle.gl_calc.specs.{Kept.AreKept, Round.Stops, Starting.IsStarted, Engine.rule_in};
ghost use Rattle.gl_calc.specs.{Starting.IsEvaluated};
ghost use Rattle.gl_demand.specs.{Evaluators.world_of};

use crate::Engine;
use crate::ending::RoundFault;
use gl_core::{Core, CoreFault, Quiet, Results};
use gl_demand::{Evaluator, Steps, Watch};
use gl_plane::Addr;

/// Evaluates all that the formulas of the sheet demand under an oracle, but for the keys of which
/// there are results.
pub fn evaluated<F: Fn(u8, u64, u64) -> u64, L: Watch>(
    evaluator: &Evaluator,
    engine: &Engine<F>,
    places: &[Addr],
    results: Results,
    steps: &mut Steps<L>,
) -> Result<Quiet, RoundFault>
    requires rule { PicksBelow (F.pre (rule_in engine.now)) (F.post (rule_in engine.now)) }
    requires all { places.now ≡ formula_addresses (sheet evaluator.now.cells.now) }
    requires few { length (formula_addresses (sheet evaluator.now.cells.now)) ≤ max_formulas }
    requires ordered { IsSheet (sheet evaluator.now.cells.now) }
    requires true_notes { AreTrue same_key (program (world_of evaluator.now)) results }
    ensures evaluated { IfOk result (IsEvaluated (world_of evaluator.now)) }
    ensures steps { IfOk result (λ q.
        (b : Plain × List PlainAddr) (i : ℕ)
        → AreKept b evaluator.now.oracle.now results
        → Finishes (world_of evaluator.now) b i steps.old steps.new) }
    ensures stops { IfErr result (λ e.
        (b : Plain × List PlainAddr)
        → AreKept b evaluator.now.oracle.now results
        → Stops (world_of evaluator.now) b e steps.old steps.new) }
{
    match Core::resume(evaluator, places, results) {
        Ok(core) => run(evaluator, engine, core, steps),
        Err(CoreFault::Work) => Err(RoundFault::Work),
        Err(CoreFault::NoMemory) => Err(RoundFault::NoMemory),
    }
}

/// Runs the core of a round.
fn run<F: Fn(u8, u64, u64) -> u64, L: Watch>(
    evaluator: &Evaluator,
    engine: &Engine<F>,
    core: Core,
    steps: &mut Steps<L>,
) -> Result<Quiet, RoundFault>
    requires rule { PicksBelow (F.pre (rule_in engine.now)) (F.post (rule_in engine.now)) }
    requires started { IsStarted (world_of evaluator.now) core }
    ensures evaluated { IfOk result (IsEvaluated (world_of evaluator.now)) }
    ensures steps { IfOk result (λ q.
        (b : Plain × List PlainAddr) (i : ℕ)
        → AreKept b evaluator.now.oracle.now (notes_in core)
        → Finishes (world_of evaluator.now) b i steps.old steps.new) }
    ensures stops { IfErr result (λ e.
        (b : Plain × List PlainAddr)
        → AreKept b evaluator.now.oracle.now (notes_in core)
        → Stops (world_of evaluator.now) b e steps.old steps.new) }
{
    match core.run_all(
        engine.alloc,
        engine.order,
        engine.kind,
        evaluator.cells,
        evaluator.oracle,
        evaluator.version,
        steps,
    ) {
        Ok(quiet) => Ok(quiet),
        Err(CoreFault::Work) => Err(RoundFault::Work),
        Err(CoreFault::NoMemory) => Err(RoundFault::NoMemory),
    }
}
