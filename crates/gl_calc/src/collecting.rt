//! The sizes of the arrays of a round.
ghost use Rattle.gl_calculus.specs.Evaluation.World.{world};
ghost use Rattle.std.specs.Prelude.{◌++◌, ◌∷◌, [], Some};
ghost use Rattle.gl_calculus.specs.Computation.Lists.{Member, AreDistinct};
ghost use Rattle.gl_machine.specs.Machine.{keys};
ghost use Rattle.gl_machine.specs.Machine as Machine;
ghost use Rattle.gl_calculus.specs.Grid.Grid.{Addr as PlainAddr, Size as PlainSize, AreInOrder};
ghost use Rattle.gl_calculus.specs.Formulas.Formula.{Version as PlainVersion, Cells as Sheet};
ghost use Rattle.gl_calculus.specs.Evaluation.Oracle.{AreSizes};
ghost use Rattle.gl_calculus.specs.Calculation.Calculation.{DemandedIn};
ghost use Rattle.gl_calculus.specs.Values.Value as V;
ghost use Rattle.gl_calculus.specs.Evaluation.Key as K;
ghost use Rattle.gl_value.specs.View.{value_tree};
ghost use Rattle.gl_demand.specs.View.{outcome_tree};
ghost use Rattle.gl_core.specs.State.{state_of};
ghost use Rattle.gl_calc.specs.Visits.{Visits, Collects, status_at, StandFirst};
ghost use Rattle.gl_calc.specs.Shown.{IsRound};

use crate::ending::RoundFault;
use gl_core::{Quiet, Seen};
use gl_demand::{Budget, Outcome};
use gl_plane::{Addr, NoMemory, Sizes};
use gl_value::Value;
use std::alloc::Global;

/// The sizes of the arrays among the values of these formula cells, or the first of them that ended
/// as spent.
pub fn collected(alloc: Global, places: &[Addr], quiet: &Quiet) -> Result<Sizes, RoundFault>
    requires { AreInOrder places.now }
    ensures { (version : PlainVersion) (S : Sheet) (w : V.Oracle)
        → IsRound (world version S w) (state_of quiet.now)
        → StandFirst places.now (state_of quiet.now)
        → AreDistinct (keys (state_of quiet.now))
        → ((a : PlainAddr) → Member a places.now → DemandedIn (world version S w) (K.Cell V.Top a))
        → Collects (world version S w) places.now result }
{
    let mut sizes = Sizes::new(alloc);
    let mut i = 0;
    for a in places {
        match visit(quiet, i, *a, &mut sizes) {
            Ok(()) => {}
            Err(fault) => return Err(fault),
        }
        i += 1;
    }
    Ok(sizes)
}

/// Adds the size of a formula cell's value, if that is an array. The cell is the seed of this number.
#[tactic(auto, using(gl_value::specs::Forms::trees))]
fn visit(quiet: &Quiet, i: usize, a: Addr, sizes: &mut Sizes) -> Result<(), RoundFault>
    requires { (z : PlainSize) → AreSizes (sizes.old ++ (a, z) ∷ []) }
    ensures { Visits a (status_at (state_of quiet.now) i) sizes.old result sizes.new }
{
    match quiet.seen_at(i) {
        Some(Seen::Known(outcome)) => add(a, outcome, sizes),
        Some(Seen::Loops) => Ok(()),
        None => Ok(()),
    }
}

/// Adds the size of an outcome, if it is an array.
fn add(a: Addr, outcome: &Outcome, sizes: &mut Sizes) -> Result<(), RoundFault>
    requires { (z : PlainSize) → AreSizes (sizes.old ++ (a, z) ∷ []) }
    ensures { Visits a (Some (Machine.Resolved (outcome_tree outcome.now))) sizes.old result
        sizes.new }
{
    match outcome {
        Outcome::Value(value) => add_array(a, value, sizes),
        Outcome::Settled(_) => Ok(()),
        Outcome::Abort(Budget::Depth) => Err(RoundFault::Depth(a)),
        Outcome::Abort(Budget::CopyRounds) => Err(RoundFault::CopyRounds(a)),
    }
}

/// Adds the size of a value, if it is an array.
#[tactic(auto, using(gl_value::specs::Forms::trees))]
fn add_array(a: Addr, value: &Value, sizes: &mut Sizes) -> Result<(), RoundFault>
    requires { (z : PlainSize) → AreSizes (sizes.old ++ (a, z) ∷ []) }
    ensures { Visits a (Some (Machine.Resolved (K.Outcome.Value (value_tree value.now)))) sizes.old
        result sizes.new }
{
    match value {
        Value::Array(array) => match sizes.push(a, array.size()) {
            Ok(()) => Ok(()),
            Err(NoMemory) => Err(RoundFault::NoMemory),
        },
        Value::One(_) => Ok(()),
    }
}
