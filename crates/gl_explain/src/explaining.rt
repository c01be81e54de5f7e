//! The explanation of an address.
ghost use Rattle.gl_demand.specs.Evaluators.{world_of};
ghost use Rattle.gl_calculus.specs.Evaluation.World.{world};
ghost use Rattle.std.specs.Prelude.{◌≡◌, ◌≤◌, ℕ, Some, None, map, IfOk};
ghost use Rattle.gl_calculus.specs.Calculation.Calculation.{IsAnswer};
ghost use Rattle.gl_calculus.specs.Calculation.Calculation as C;
ghost use Rattle.gl_calculus.specs.Formulas.Formula as F;
ghost use Rattle.gl_calculus.specs.Explanation.Certificate.{Explains, verdict, key_at, start};
ghost use Rattle.gl_calculus.specs.Explanation.Certificate as E;
ghost use Rattle.gl_ast.specs.View.{version_tree};
ghost use Rattle.gl_cells.specs.Sheet.{sheet};
ghost use Rattle.gl_demand.specs.{Sound.AreSoundKeys, View.key_tree};
ghost use Rattle.gl_cert.specs.Notes.{claims};
ghost use Rattle.gl_explain.specs.{View.explained_tree, Walked.IsExplained};
ghost use Rattle.gl_calculus.specs.Steps.Walk.{AllowsWalk, AllowsPart};
ghost use Rattle.gl_explain.specs.{Walking.HasEnded};

use crate::Explained;
use crate::ending::{made, spent};
use crate::walking::{Walked, walk};
use gl_ast::Version;
use gl_cells::Cells;
use gl_cert::{Notes, key_at};
use gl_demand::{Evaluator, Key, Steps, Watch};
use gl_plane::{Addr, NoMemory, Oracle};
use indexmap::IndexSet;
use std::alloc::Global;

/// What is made of a walk from the key that decides, which has ended.
fn ended(
    evaluator: &Evaluator,
    a: Addr,
    root: &Key,
    notes: Notes,
    loops: IndexSet<Key>,
) -> Result<Explained, NoMemory>
    requires root { key_at (sheet evaluator.now.cells.now) evaluator.now.oracle.now a ≡ Some
        (key_tree root.now) }
    requires sound { AreSoundKeys (map key_tree loops.keys) }
    requires ended { (version : F.Version)
        × (n : ℕ)
        × (m : ℕ)
        × HasEnded (world version (sheet evaluator.now.cells.now) evaluator.now.oracle.now)
        (key_tree root.now) n m (claims notes) (map key_tree loops.keys) }
    ensures { IfOk result (λ x.
        (version : F.Version) (n m : ℕ)
        → HasEnded (world version (sheet evaluator.now.cells.now) evaluator.now.oracle.now)
        (key_tree root.now) n m (claims notes) (map key_tree loops.keys)
        → IsExplained (world version (sheet evaluator.now.cells.now) evaluator.now.oracle.now) a n m
        (explained_tree x)) }
{
    match spent(&notes, root) {
        Some(b) => Ok(Explained::Aborts(b)),
        None => match made(evaluator, a, notes, loops) {
            Ok(cert) => Ok(Explained::Cert(cert)),
            Err(NoMemory) => Err(NoMemory),
        },
    }
}

/// The explanation of an address that a key decides.
fn decided<L: Watch>(
    evaluator: &Evaluator,
    a: Addr,
    root: &Key,
    steps: &mut Steps<L>,
) -> Result<Explained, NoMemory>
    requires { key_at (sheet evaluator.now.cells.now) evaluator.now.oracle.now a ≡ Some
        (key_tree root.now) }
    ensures explained { IfOk result (λ x.
        IsExplained (world_of evaluator.now) a steps.old steps.new (explained_tree x)) }
    ensures later { steps.old ≤ steps.new }
    ensures part { AllowsPart (world_of evaluator.now)
        (start (key_at (sheet evaluator.now.cells.now) evaluator.now.oracle.now a))
        steps.old
        steps.new }
{
    match walk(evaluator, root, steps) {
        Ok(Walked::Ended(notes, loops)) => ended(evaluator, a, root, notes, loops),
        Ok(Walked::Full) => Ok(Explained::Work),
        Err(NoMemory) => Err(NoMemory),
    }
}

/// The explanation of an address that no key decides.
fn undecided(evaluator: &Evaluator, a: Addr) -> Result<Explained, NoMemory>
    requires { key_at (sheet evaluator.now.cells.now) evaluator.now.oracle.now a ≡ None }
    ensures { IfOk result (λ x.
        (version : F.Version) (n : ℕ)
        → IsExplained (world version (sheet evaluator.now.cells.now) evaluator.now.oracle.now) a n n
        (explained_tree x)) }
{
    match made(
        evaluator,
        a,
        Notes::new(evaluator.alloc),
        IndexSet::new(evaluator.alloc),
    ) {
        Ok(cert) => Ok(Explained::Cert(cert)),
        Err(NoMemory) => Err(NoMemory),
    }
}

/// The explanation of an address.
fn explained<L: Watch>(
    evaluator: &Evaluator,
    a: Addr,
    steps: &mut Steps<L>,
) -> Result<Explained, NoMemory>
    ensures explained { IfOk result (λ x.
        IsExplained (world_of evaluator.now) a steps.old steps.new (explained_tree x)) }
    ensures later { steps.old ≤ steps.new }
    ensures part { AllowsPart (world_of evaluator.now)
        (start (key_at (sheet evaluator.now.cells.now) evaluator.now.oracle.now a))
        steps.old
        steps.new }
{
    match key_at(evaluator.cells, evaluator.oracle, a) {
        Some(root) => decided(evaluator, a, &root, steps),
        None => undecided(evaluator, a),
    }
}

/// Explains what an address shows, in a sheet and under an oracle.
///
/// The walk begins with the key that decides, evaluates the top of its stack over the notes, and
/// either notes it or puts on the first key that it lacks. It ends where nothing is left, or where
/// what is lacked is on the stack: the stack is then the loops. `Work` comes where more than
/// `MAX_DEMANDED` keys would be put on, and `Aborts` where the key that decides spends a budget; in a
/// settled calculation neither comes. `check` accepts each certificate. However it ends, also after
/// `NoMemory`, it takes at most 1 and the number of its reads for each key that was on the stack.
pub fn certificate<L: Watch>(
    alloc: Global,
    cells: &Cells,
    w: &Oracle,
    a: Addr,
    version: Version,
    steps: &mut Steps<L>,
) -> Result<Explained, NoMemory>
    ensures explained { IfOk result (λ x.
        Explains (world (version_tree version) (sheet cells.now) w.now) a (explained_tree x)) }
    ensures accepted { IfOk result (λ x. (c : E.Certificate) → explained_tree x ≡ E.Cert c
        → verdict (world (version_tree version) (sheet cells.now) w.now) a c ≡ E.Accepted) }
    ensures certified { IfOk result (λ x.
        (i : ℕ)
        → IsAnswer (version_tree version) (sheet cells.now) (C.Settled w.now i)
        → (c : E.Certificate) × (explained_tree x ≡ E.Cert c)) }
    ensures sound { IfOk result (λ x. (c : E.Certificate) → explained_tree x ≡ E.Cert c
        → AreSoundKeys (map (λ n. n.0) c.notes) × AreSoundKeys c.loops) }
    ensures steps { IfOk result (λ x.
        AllowsWalk (world (version_tree version) (sheet cells.now) w.now) a (explained_tree x)
        steps.old
        steps.new) }
    ensures part { AllowsPart (world (version_tree version) (sheet cells.now) w.now)
        (start (key_at (sheet cells.now) w.now a))
        steps.old
        steps.new }
    ensures later { steps.old ≤ steps.new }
{
    // For its clause that the sheet is in order.
    let _formulas = cells.formulas();
    let evaluator = Evaluator {
        alloc,
        cells,
        oracle: w,
        version,
    };
    explained(&evaluator, a, steps)
}
