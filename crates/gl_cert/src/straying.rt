//! Which notes of a certificate follow from those before them.
ghost use Rattle.gl_calculus.specs.Evaluation.Evaluation.{program};
ghost use Rattle.std.specs.Prelude.{◌≡◌, ◌≤◌, ◌<◌, ◌+◌, ◌^◌, [], ◌∷◌, ◌++◌, true, None, length};
ghost use Rattle.std.specs.Prelude.{map, IsTrue, IfOk};
ghost use Rattle.gl_calculus.specs.Computation.Query.{Ready};
ghost use Rattle.gl_calculus.specs.Evaluation.Key.{same_key};
ghost use Rattle.gl_calculus.specs.Evaluation.SameOutcome.{same_outcome};
ghost use Rattle.gl_calculus.specs.Evaluation.Sound.{is_sound_key};
ghost use Rattle.gl_calculus.specs.Explanation.Walk.{noted, comes_to, follows, first_stray};
ghost use Rattle.gl_calculus.specs.Explanation.Certificate.{is_proper};
ghost use Rattle.gl_cells.specs.Sheet.{sheet};
ghost use Rattle.gl_demand.specs.View.{key_tree, outcome_tree, found_tree};
ghost use Rattle.gl_demand.specs.Sound.{IsSoundFound, AreSoundKeys};
ghost use Rattle.gl_demand.specs.{Evaluators.world_of};
ghost use Rattle.gl_cert.specs.{Notes.claims, Claims.claim_trees};

use crate::Notes;
use crate::stepping::{is_proper, level};
use gl_demand::{Evaluator, Found, Key, Outcome, Steps, Watch};
use gl_plane::{NoMemory, Share};

/// Notes an outcome of a key, which is right.
fn note_right(key: &Key, outcome: Outcome, notes: &mut Notes) -> Result<bool, NoMemory>
    requires free { noted same_key (claims notes.old) (key_tree key.now) ≡ None }
    requires key { IsTrue (is_sound_key (key_tree key.now)) }
    requires sound { IsSoundFound (key_tree key.now) (Ready (outcome_tree outcome)) }
    ensures { IfOk result (λ b. (b ≡ true) × (claims notes.new
        ≡ claims notes.old ++ (key_tree key.now, outcome_tree outcome) ∷ [])) }
{
    let key = key.share()?;
    notes.note(key, outcome)?;
    Ok(true)
}

/// Whether what was found of a key without note is this outcome; then it is noted.
fn note_found(
    key: &Key,
    outcome: &Outcome,
    found: Found,
    notes: &mut Notes,
) -> Result<bool, NoMemory>
    requires free { noted same_key (claims notes.old) (key_tree key.now) ≡ None }
    requires key { IsTrue (is_sound_key (key_tree key.now)) }
    requires sound { IsSoundFound (key_tree key.now) (found_tree found) }
    ensures comes { IfOk result (λ b. b
        ≡ comes_to same_outcome (outcome_tree outcome.now) (found_tree found)) }
    ensures noted { IfOk result (λ b. b ≡ true → claims notes.new
        ≡ claims notes.old ++ (key_tree key.now, outcome_tree outcome.now) ∷ []) }
{
    match found {
        Found::Ready(o) => {
            if *outcome == o {
                return note_right(key, o, notes);
            }
            Ok(false)
        }
        Found::Need(_) => Ok(false),
    }
}

/// Whether a note follows from those in the table; then it is put into it. It takes one step at
/// most.
fn note_follows<L: Watch>(
    evaluator: &Evaluator,
    key: &Key,
    outcome: &Outcome,
    notes: &mut Notes,
    steps: &mut Steps<L>,
) -> Result<bool, NoMemory>
    requires sound { IsTrue (is_sound_key (key_tree key.now)) }
    ensures follows { IfOk result (λ b.
        b
        ≡ follows same_key same_outcome (is_proper (sheet evaluator.now.cells.now))
        (program (world_of evaluator.now)) (claims notes.old)
        (key_tree key.now, outcome_tree outcome.now)) }
    ensures noted { IfOk result (λ b. b ≡ true → claims notes.new
        ≡ claims notes.old ++ (key_tree key.now, outcome_tree outcome.now) ∷ []) }
    ensures steps { steps.new ≤ steps.old + 1 }
    ensures later { steps.old ≤ steps.new }
{
    if !is_proper(evaluator.cells, key) {
        return Ok(false);
    }
    if notes.outcome(key).is_some() {
        return Ok(false);
    }
    match level(evaluator, key, notes, steps) {
        Ok(found) => note_found(key, outcome, found, notes),
        Err(NoMemory) => Err(NoMemory),
    }
}

/// The number of the first note that doesn't follow from those before it. Those before it are put
/// into the table, which has none yet. It takes one step at most for each note.
pub fn first_stray<L: Watch>(
    evaluator: &Evaluator,
    list: &[(Key, Outcome)],
    notes: &mut Notes,
    steps: &mut Steps<L>,
) -> Result<Option<u32>, NoMemory>
    requires few { length list.now < 2 ^ 32 }
    requires sound { AreSoundKeys (map (λ n. n.0) (claim_trees list.now)) }
    requires none { claims notes.old ≡ [] }
    ensures stray { IfOk result (λ r. r
        ≡ first_stray same_key same_outcome (is_proper (sheet evaluator.now.cells.now))
        (program (world_of evaluator.now)) [] (claim_trees list.now)) }
    ensures noted { IfOk result (λ r. r ≡ None → claims notes.new ≡ claim_trees list.now) }
    ensures steps { steps.new ≤ steps.old + length list.now }
    ensures later { steps.old ≤ steps.new }
{
    for i in 0..list.len() {
        let (key, outcome) = &list[i];
        match note_follows(evaluator, key, outcome, notes, steps) {
            Ok(true) => {}
            Ok(false) => return Ok(Some(i as u32)),
            Err(NoMemory) => return Err(NoMemory),
        }
    }
    Ok(None)
}
