//! One turn of a walk.
ghost use Rattle.gl_demand.specs.Evaluators.{world_of};
ghost use Rattle.std.specs.Prelude.{◌≡◌, ◌≤◌, ◌<◌, ◌++◌, ◌∷◌, ℕ, [], None, map, length, IsTrue};
ghost use Rattle.std.specs.Prelude.{IfOk, IfSome, IfNone};
ghost use Rattle.gl_calculus.specs.Computation.Query.{Ready};
ghost use Rattle.gl_calculus.specs.Evaluation.Key.{same_key};
ghost use Rattle.gl_calculus.specs.Evaluation.Sound.{is_sound_key};
ghost use Rattle.gl_calculus.specs.Evaluation.Key as K;
ghost use Rattle.gl_calculus.specs.Explanation.Walk.{noted};
ghost use Rattle.gl_calculus.specs.Steps.Walk.{AllowsPart};
ghost use Rattle.gl_demand.specs.{Sound.AreSoundKeys, Sound.IsSoundFound, View.key_tree};
ghost use Rattle.gl_demand.specs.{View.outcome_tree, Marks.mark_tree, Marks.mark_trees};
ghost use Rattle.gl_cert.specs.Notes.{claims};
ghost use Rattle.gl_explain.specs.Walking.{IsWalking, IsTurned, left};
ghost use Rattle.gl_explain.specs.Putting.{IsTop, IsTakenOff, IsPutOn};
ghost use Rattle.gl_explain.specs.{Marks.AreMarks, declared.turning.Turned.TheVariants.On};

use crate::reading::{Reached, read_on};
use gl_cert::{Notes, is_among};
use gl_demand::{Evaluator, Key, MAX_DEMANDED, Mark, Outcome, Steps, Watch};
use gl_plane::NoMemory;
use indexmap::IndexSet;

/// How a walk stands after a turn: it goes on; or it has ended, with an empty stack or in a circle;
/// or one more key would be too many.
#[derive(Clone, Copy, Drop)]
pub enum Turned {
    On,
    Ended,
    Full,
}

/// The top of a stack.
fn top(stack: &IndexSet<Key>) -> Option<&Key>
    ensures some { IfSome result (λ k. IsTop stack.now.keys k.now) }
    ensures none { IfNone result (stack.now.keys ≡ []) }
{
    stack.last()
}

/// Takes off the mark of the top.
fn take_mark(marks: &mut Vec<Mark>) -> Mark
    requires { 0 < length marks.old.items }
    ensures { mark_trees marks.old.items ≡ mark_trees marks.new.items ++ mark_tree result ∷ [] }
{
    match marks.pop() {
        Some(mark) => mark,
        None => unreachable!(),
    }
}

/// Takes the top off, and notes its outcome.
fn take_off(
    notes: &mut Notes,
    stack: &mut IndexSet<Key>,
    outcome: Outcome,
) -> Result<Turned, NoMemory>
    requires top { (k : Key)
        → IsTop stack.old.keys k
        → (noted same_key (claims notes.old) (key_tree k) ≡ None)
        × IsTrue (is_sound_key (key_tree k))
        × IsSoundFound (key_tree k) (Ready (outcome_tree outcome)) }
    requires some { (k : Key) × IsTop stack.old.keys k }
    ensures taken { IfOk result (λ t.
        IsTakenOff (outcome_tree outcome) (claims notes.old) (map key_tree stack.old.keys) t
        (claims notes.new) (map key_tree stack.new.keys)) }
{
    if let Some(key) = stack.pop() {
        notes.note(key, outcome)?;
    }
    Ok(Turned::On)
}

/// Puts a key on, unless it is there, or one more would be too many. The one below it has this mark
/// from now on.
fn put_on(
    notes: &Notes,
    stack: &mut IndexSet<Key>,
    marks: &mut Vec<Mark>,
    key: Key,
    mark: Mark,
) -> Result<Turned, NoMemory>
    ensures put { IfOk result (λ t. IsPutOn (key_tree key) (mark_tree mark) (claims notes.now)
        (map key_tree stack.old.keys) (mark_trees marks.old.items)
        t (map key_tree stack.new.keys) (mark_trees marks.new.items)) }
{
    if is_among(stack, &key) {
        return Ok(Turned::Ended);
    }
    if notes.len() + stack.len() == MAX_DEMANDED {
        return Ok(Turned::Full);
    }
    stack.insert(key)?;
    marks.push(mark)?;
    marks.push(Mark::none())?;
    Ok(Turned::On)
}

/// A turn on the top of the stack, which takes one step at most.
pub fn turn<L: Watch>(
    evaluator: &Evaluator,
    notes: &mut Notes,
    stack: &mut IndexSet<Key>,
    marks: &mut Vec<Mark>,
    steps: &mut Steps<L>,
) -> Result<Turned, NoMemory>
    requires walking { (root : K.Key)
        × (n : ℕ)
        × IsWalking (world_of evaluator.now) root n steps.old (claims notes.old) (map key_tree
        stack.old.keys) }
    requires sound { AreSoundKeys (map key_tree stack.old.keys) }
    requires marks { AreMarks (world_of evaluator.now) (claims notes.old)
        (map key_tree stack.old.keys) (mark_trees marks.old.items) }
    ensures turned { IfOk result (λ t.
        (root : K.Key) (n : ℕ)
        → IsWalking (world_of evaluator.now) root n steps.old (claims notes.old) (map key_tree
        stack.old.keys)
        → IsTurned (world_of evaluator.now)
        root n steps.new (claims notes.new) (map key_tree stack.new.keys) t) }
    ensures falls { IfOk result (λ t. t ≡ On → left (claims notes.new) (map key_tree stack.new.keys)
        < left (claims notes.old) (map key_tree stack.old.keys)) }
    ensures sound { IfOk result (λ _. AreSoundKeys (map key_tree stack.new.keys)) }
    ensures marks { IfOk result (λ t.
        t ≡ On
        → AreMarks (world_of evaluator.now)
        (claims notes.new) (map key_tree stack.new.keys) (mark_trees marks.new.items)) }
    ensures later { steps.old ≤ steps.new }
    ensures part { (root : K.Key) (n : ℕ)
        → IsWalking (world_of evaluator.now) root n steps.old (claims notes.old) (map key_tree
        stack.old.keys)
        → AllowsPart (world_of evaluator.now) (root ∷ []) n steps.new }
{
    match top(stack) {
        Some(key) => {
            let mark = take_mark(marks);
            match read_on(evaluator, key, notes, mark, steps) {
                Ok(Reached::Ready(outcome)) => take_off(notes, stack, outcome),
                Ok(Reached::Need(key, mark)) => put_on(notes, stack, marks, key, mark),
                Err(NoMemory) => Err(NoMemory),
            }
        }
        None => Ok(Turned::Ended),
    }
}
