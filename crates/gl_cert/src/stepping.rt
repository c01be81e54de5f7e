//! Keys that may be evaluated, and one level of evaluation over notes.
ghost use Rattle.gl_calculus.specs.Evaluation.Evaluation.{program};
ghost use Rattle.std.specs.Prelude.{◌≡◌, IsTrue, IfOk};
ghost use Rattle.gl_calculus.specs.Computation.Query.{found};
ghost use Rattle.gl_calculus.specs.Evaluation.Key.{same_key};
ghost use Rattle.gl_calculus.specs.Evaluation.Sound.{is_sound_key};
ghost use Rattle.gl_calculus.specs.Evaluation.Sound.{IsProperKey};
ghost use Rattle.gl_calculus.specs.Explanation.Certificate.{is_proper};
ghost use Rattle.gl_calculus.specs.Explanation.Walk.{noted};
ghost use Rattle.gl_cells.specs.Sheet.{sheet};
ghost use Rattle.gl_demand.specs.{Sound.IsSoundFound, Steps.one_more, View.key_tree};
ghost use Rattle.gl_demand.specs.{View.found_tree, Evaluators.world_of};
ghost use Rattle.gl_cert.specs.Notes.{claims};

use crate::Notes;
use gl_cells::Cells;
use gl_demand::{Evaluator, Found, Key, Steps, Turn, Watch, proper, step};
use gl_plane::NoMemory;

/// Whether a key is proper in a sheet.
pub fn is_proper(cells: &Cells, key: &Key) -> bool
    requires { IsTrue (is_sound_key (key_tree key.now)) }
    ensures test { result ≡ is_proper (sheet cells.now) (key_tree key.now) }
    ensures proper { IsTrue result → IsProperKey (sheet cells.now) (key_tree key.now) }
{
    proper(cells, key)
}

/// What one level over the notes finds of a key: its outcome, or the first key that it demands
/// without note. Each call counts as one step, also where it answers `NoMemory`.
pub fn level<L: Watch>(
    evaluator: &Evaluator,
    key: &Key,
    notes: &Notes,
    steps: &mut Steps<L>,
) -> Result<Found, NoMemory>
    requires sound { IsTrue (is_sound_key (key_tree key.now)) }
    requires proper { IsProperKey (sheet evaluator.now.cells.now) (key_tree key.now) }
    ensures found { IfOk result (λ f. found_tree f ≡ found (noted same_key (claims notes.now))
        (program (world_of evaluator.now) (key_tree key.now))) }
    ensures sound { IfOk result (λ f. IsSoundFound (key_tree key.now) (found_tree f)) }
    ensures counted { steps.new ≡ one_more steps.old }
{
    match evaluator.step(key, notes, steps) {
        Ok(turn) => Ok(found_of(turn)),
        Err(NoMemory) => Err(NoMemory),
    }
}

/// What an evaluation found.
fn found_of(turn: Turn) -> Found
    ensures { result ≡ turn.found }
{
    let Turn {
        found,
        reads: _,
        looked: _,
        ahead: _,
    } = turn;
    found
}
