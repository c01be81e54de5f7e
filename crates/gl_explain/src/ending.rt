//! What is made of a walk that has ended.
ghost use Rattle.std.specs.Prelude.{◌≡◌, ◌<◌, ◌^◌, Some, None, length, map, IfOk, IfSome, IfNone};
ghost use Rattle.gl_calculus.specs.Evaluation.Key.{same_key};
ghost use Rattle.gl_calculus.specs.Evaluation.Key as K;
ghost use Rattle.gl_calculus.specs.Explanation.Certificate.{says};
ghost use Rattle.gl_calculus.specs.Explanation.Walk.{noted};
ghost use Rattle.gl_cells.specs.Sheet.{sheet};
ghost use Rattle.gl_value.specs.Made.{shown_tree};
ghost use Rattle.gl_demand.specs.View.{key_tree, budget_tree};
ghost use Rattle.gl_cert.specs.{Notes.claims, View.cert_tree};

use gl_cells::Cells;
use gl_cert::{Cert, Notes, says};
use gl_demand::{Budget, Evaluator, Key, Outcome, in_order};
use gl_plane::{Addr, NoMemory, Oracle};
use gl_value::Shown;
use indexmap::IndexSet;

/// The budget that a key spends, if that is its outcome.
pub fn spent(notes: &Notes, key: &Key) -> Option<Budget>
    ensures some { IfSome result (λ b.
        noted same_key (claims notes.now) (key_tree key.now) ≡ Some (K.Abort (budget_tree b))) }
    ensures none { IfNone result
        ((b : K.Budget)
        → noted same_key (claims notes.now) (key_tree key.now) ≡ Some (K.Abort b)
        → ⊥) }
{
    match notes.outcome(key) {
        Some(Outcome::Abort(b)) => Some(*b),
        Some(Outcome::Value(_)) => None,
        Some(Outcome::Settled(_)) => None,
        None => None,
    }
}

/// What notes and loops say, where they say something.
fn said(
    cells: &Cells,
    w: &Oracle,
    a: Addr,
    notes: &Notes,
    loops: &IndexSet<Key>,
) -> Result<Shown, NoMemory>
    requires { says (sheet cells.now) w.now a (claims notes.now) (map key_tree loops.now.keys)
        ≡ None
        → ⊥ }
    ensures { IfOk result (λ x.
        says (sheet cells.now) w.now a (claims notes.now) (map key_tree loops.now.keys)
        ≡ Some (shown_tree x)) }
{
    match says(cells, w, a, notes, loops) {
        Ok(Some(x)) => Ok(x),
        Ok(None) => unreachable!(),
        Err(NoMemory) => Err(NoMemory),
    }
}

/// The certificate of a walk that has ended, where its notes and loops say what is shown.
pub fn made(
    evaluator: &Evaluator,
    a: Addr,
    notes: Notes,
    loops: IndexSet<Key>,
) -> Result<Cert, NoMemory>
    requires said { says (sheet evaluator.now.cells.now) evaluator.now.oracle.now a (claims notes)
        (map key_tree loops.keys) ≡ None → ⊥ }
    requires few_notes { length (claims notes) < 2 ^ 32 }
    requires few_loops { length loops.keys < 2 ^ 32 }
    ensures notes { IfOk result (λ c. (cert_tree c).notes ≡ claims notes) }
    ensures loops { IfOk result (λ c. (cert_tree c).loops ≡ map key_tree loops.keys) }
    ensures shown { IfOk result (λ c.
        says (sheet evaluator.now.cells.now) evaluator.now.oracle.now a (claims notes)
        (map key_tree loops.keys) ≡ Some (cert_tree c).shown) }
{
    let shown = said(evaluator.cells, evaluator.oracle, a, &notes, &loops)?;
    let notes = notes.into_list(evaluator.alloc)?;
    let loops = in_order(evaluator.alloc, loops)?;
    Ok(Cert::new(notes, loops, shown))
}
