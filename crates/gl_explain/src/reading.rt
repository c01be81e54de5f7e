//! What the top of a stack comes to over the notes, by what it was reading or by an evaluation.
ghost use Rattle.gl_calculus.specs.Evaluation.Evaluation.{program};
ghost use Rattle.std.specs.Prelude.{◌≡◌, ◌≤◌, ◌+◌, IsTrue, IfOk};
ghost use Rattle.gl_calculus.specs.Computation.Query.{Need, found};
ghost use Rattle.gl_calculus.specs.Evaluation.Key.{same_key};
ghost use Rattle.gl_calculus.specs.Evaluation.Sound.{is_sound_key};
ghost use Rattle.gl_calculus.specs.Evaluation.Sound.{IsProperKey};
ghost use Rattle.gl_calculus.specs.Explanation.Walk.{noted};
ghost use Rattle.gl_cells.specs.Sheet.{sheet};
ghost use Rattle.gl_demand.specs.{Reading.ahead_tree, Sound.IsSoundFound, Evaluators.world_of};
ghost use Rattle.gl_demand.specs.{View.key_tree, View.found_tree, Marks.mark_tree};
ghost use Rattle.gl_cert.specs.Notes.{claims};
ghost use Rattle.gl_explain.specs.Marks.{reached_tree, IsMark, IsMarked};

use gl_cert::Notes;
use gl_demand::{
    Evaluator, Found, Key, Lacked, Mark, Outcome, Steps, Turn, Watch, next_lacked, step,
};
use gl_plane::NoMemory;

/// What a key comes to over the notes: its outcome, or the first key that it demands without note,
/// with a mark of where it reads on then.
#[derive(Drop)]
pub enum Reached {
    Ready(Outcome),
    Need(Key, Mark),
}

/// A key needs the next one of what it was reading.
fn by_mark(mark: Mark, lacked: Lacked) -> Reached
    ensures tree { reached_tree result ≡ Need (key_tree lacked.key) }
    ensures mark { IsMarked (λ m. m ≡ (ahead_tree mark.ahead, lacked.place)) result }
{
    let Lacked { place, key } = lacked;
    Reached::Need(key, mark.moved(place))
}

/// What an evaluation found, with a mark of what it was reading.
fn by_turn(turn: Turn) -> Reached
    ensures tree { reached_tree result ≡ found_tree turn.found }
    ensures mark { IsMarked (λ m. m ≡ (ahead_tree turn.ahead, 0)) result }
{
    let Turn {
        found,
        reads: _,
        looked: _,
        ahead,
    } = turn;
    match found {
        Found::Ready(outcome) => Reached::Ready(outcome),
        Found::Need(key) => Reached::Need(key, Mark::at_start(ahead)),
    }
}

/// What a key comes to over the notes: by what it was reading, without a step, or else by an
/// evaluation.
pub fn read_on<L: Watch>(
    evaluator: &Evaluator,
    key: &Key,
    notes: &Notes,
    mark: Mark,
    steps: &mut Steps<L>,
) -> Result<Reached, NoMemory>
    requires sound { IsTrue (is_sound_key (key_tree key.now)) }
    requires proper { IsProperKey (sheet evaluator.now.cells.now) (key_tree key.now) }
    requires mark { IsMark (world_of evaluator.now) (claims notes.now) (key_tree key.now)
        (mark_tree mark) }
    ensures found { IfOk result (λ x. reached_tree x ≡ found (noted same_key (claims notes.now))
        (program (world_of evaluator.now) (key_tree key.now))) }
    ensures mark { IfOk result (IsMarked (IsMark (world_of evaluator.now) (claims notes.now)
        (key_tree key.now))) }
    ensures sound { IfOk result (λ x. IsSoundFound (key_tree key.now) (reached_tree x)) }
    ensures steps { steps.new ≤ steps.old + 1 }
    ensures later { steps.old ≤ steps.new }
{
    match next_lacked(
        evaluator.cells,
        evaluator.oracle,
        &mark.ahead,
        mark.place,
        notes,
    ) {
        Ok(Some(lacked)) => Ok(by_mark(mark, lacked)),
        Ok(None) => match evaluator.step(key, notes, steps) {
            Ok(turn) => Ok(by_turn(turn)),
            Err(NoMemory) => Err(NoMemory),
        },
        Err(NoMemory) => Err(NoMemory),
    }
}
