//! The walk from a key.
ghost use Rattle.gl_demand.specs.Evaluators.{world_of};
ghost use Rattle.std.specs.Prelude.{◌≡◌, ◌≤◌, [], ◌∷◌, map, true, IsTrue, IfOk};
ghost use Rattle.gl_calculus.specs.Evaluation.Sound.{is_sound_key};
ghost use Rattle.gl_calculus.specs.Explanation.Certificate.{is_proper};
ghost use Rattle.gl_cells.specs.Sheet.{sheet};
ghost use Rattle.gl_demand.specs.{View.key_tree, Marks.mark_trees};
ghost use Rattle.gl_machine.specs.Ahead.Reading.{Nothing};
ghost use Rattle.gl_calculus.specs.Steps.Walk.{AllowsPart};
ghost use Rattle.gl_explain.specs.Walked.{IsFound};

use crate::turning::{Turned, turn};
use gl_cert::Notes;
use gl_demand::{Evaluator, Key, Mark, Steps, Watch};
use gl_plane::{NoMemory, Share};
use indexmap::IndexSet;
use std::alloc::Global;

/// What a walk found: its notes, and the keys that wait for each other, if it ended in a circle; or
/// that one more key would be too many.
#[derive(Drop)]
pub enum Walked {
    Ended(Notes, IndexSet<Key>),
    Full,
}

/// A stack of one key.
fn stack_of(alloc: Global, root: &Key) -> Result<IndexSet<Key>, NoMemory>
    ensures { IfOk result (λ s. map key_tree s.keys ≡ key_tree root.now ∷ []) }
{
    let root = root.share()?;
    let mut stack = IndexSet::new(alloc);
    match stack.insert(root) {
        Ok(_) => Ok(stack),
        Err(_) => Err(NoMemory),
    }
}

/// The mark of that key, which was not evaluated yet.
fn marks_of(alloc: Global) -> Result<Vec<Mark>, NoMemory>
    ensures { IfOk result (λ m. mark_trees m.items ≡ (Nothing, 0) ∷ []) }
{
    let mut marks = Vec::new(alloc);
    match marks.push(Mark::none()) {
        Ok(()) => Ok(marks),
        Err(_) => Err(NoMemory),
    }
}

/// The walk from a key.
pub fn walk<L: Watch>(
    evaluator: &Evaluator,
    root: &Key,
    steps: &mut Steps<L>,
) -> Result<Walked, NoMemory>
    requires sound { IsTrue (is_sound_key (key_tree root.now)) }
    requires proper { is_proper (sheet evaluator.now.cells.now) (key_tree root.now) ≡ true }
    ensures found { IfOk result (λ x.
        IsFound (world_of evaluator.now) (key_tree root.now) steps.old steps.new x) }
    ensures later { steps.old ≤ steps.new }
    ensures part { AllowsPart (world_of evaluator.now) (key_tree root.now ∷ [])
        steps.old
        steps.new }
{
    let mut stack = stack_of(evaluator.alloc, root)?;
    let mut marks = marks_of(evaluator.alloc)?;
    let mut notes = Notes::new(evaluator.alloc);
    'turns: loop {
        match turn(evaluator, &mut notes, &mut stack, &mut marks, steps) {
            Ok(Turned::On) => {}
            Ok(Turned::Ended) => return Ok(Walked::Ended(notes, stack)),
            Ok(Turned::Full) => return Ok(Walked::Full),
            Err(NoMemory) => return Err(NoMemory),
        }
    }
}
