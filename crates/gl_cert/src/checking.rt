//! The check of a certificate.
ghost use Rattle.gl_calculus.specs.Evaluation.Evaluation.{program};
ghost use Rattle.gl_calculus.specs.Evaluation.World.{world};
ghost use Rattle.std.specs.Prelude.{◌≡◌, ◌≤◌, ◌+◌, None, length, map, option_map, IfOk};
ghost use Rattle.gl_calculus.specs.Calculation.Calculation.{IsShown};
ghost use Rattle.gl_calculus.specs.Evaluation.Key.{same_key};
ghost use Rattle.gl_calculus.specs.Evaluation.SameOutcome.{same_outcome};
ghost use Rattle.gl_calculus.specs.Explanation.Certificate.{verdict, judged, says_so, says};
ghost use Rattle.gl_calculus.specs.Explanation.Certificate.{is_proper};
ghost use Rattle.gl_calculus.specs.Explanation.Walk.{first_free};
ghost use Rattle.gl_calculus.specs.Explanation.Certificate as E;
ghost use Rattle.gl_value.specs.Made.{shown_tree};
ghost use Rattle.gl_ast.specs.View.{version_tree};
ghost use Rattle.gl_cells.specs.Sheet.{sheet};
ghost use Rattle.gl_demand.specs.{Sound.AreSoundKeys, View.key_tree, Evaluators.world_of};
ghost use Rattle.gl_cert.specs.{Notes.claims, View.cert_tree, View.verdict_tree};

use crate::loops::{first_free, key_set};
use crate::straying::first_stray;
use crate::{Cert, Notes, Verdict, says};
use gl_ast::Version;
use gl_cells::Cells;
use gl_demand::{Evaluator, Key, Steps, Watch};
use gl_plane::{Addr, NoMemory, Oracle};
use gl_value::Shown;
use indexmap::IndexSet;
use std::alloc::Global;

/// The verdict by what is said to be shown.
fn judge(c: &Cert, said: Option<Shown>) -> Verdict
    ensures { verdict_tree result
        ≡ judged None None (says_so (cert_tree c.now).shown (option_map shown_tree said)) }
{
    match said {
        Some(x) => {
            if c.shown == x {
                return Verdict::Accepted;
            }
            Verdict::Wrong
        }
        None => Verdict::Wrong,
    }
}

/// The verdict on what is shown, where all notes and loops are right.
fn check_shown(
    cells: &Cells,
    w: &Oracle,
    a: Addr,
    c: &Cert,
    notes: &Notes,
    loops: &IndexSet<Key>,
) -> Result<Verdict, NoMemory>
    ensures { IfOk result (λ v. verdict_tree v ≡ judged None None (says_so (cert_tree c.now).shown
        (says (sheet cells.now) w.now a (claims notes.now) (map key_tree loops.now.keys)))) }
{
    match says(cells, w, a, notes, loops) {
        Ok(said) => Ok(judge(c, said)),
        Err(NoMemory) => Err(NoMemory),
    }
}

/// The verdict on the loops and on what is shown, where all notes are right.
fn check_loops<L: Watch>(
    evaluator: &Evaluator,
    a: Addr,
    c: &Cert,
    notes: &Notes,
    steps: &mut Steps<L>,
) -> Result<Verdict, NoMemory>
    requires noted { claims notes.now ≡ (cert_tree c.now).notes }
    requires loops { AreSoundKeys (cert_tree c.now).loops }
    ensures verdict { IfOk result (λ v. verdict_tree v ≡ judged None
        (first_free same_key same_outcome (is_proper (sheet evaluator.now.cells.now))
        (program (world_of evaluator.now))
        (cert_tree c.now).notes (cert_tree c.now).loops (cert_tree c.now).loops)
        (says_so (cert_tree c.now).shown
        (says (sheet evaluator.now.cells.now) evaluator.now.oracle.now a (cert_tree c.now).notes
        (cert_tree c.now).loops))) }
    ensures steps { steps.new ≤ steps.old + length (cert_tree c.now).loops }
    ensures later { steps.old ≤ steps.new }
{
    let loops = key_set(evaluator.alloc, &c.loops)?;
    match first_free(evaluator, &c.loops, &loops, notes, steps) {
        Ok(None) => check_shown(evaluator.cells, evaluator.oracle, a, c, notes, &loops),
        Ok(Some(at)) => Ok(Verdict::Loop { at }),
        Err(NoMemory) => Err(NoMemory),
    }
}

/// Checks a certificate of what an address shows, in a sheet and under an oracle.
///
/// `Note` and `Loop` tell the first note, or else the first loop, that is not right, and `Wrong` that
/// only what is shown is not. What an accepted certificate says is what the address shows. Each note
/// and each loop takes one step at most, also where the answer is `NoMemory`.
pub fn check<L: Watch>(
    alloc: Global,
    cells: &Cells,
    w: &Oracle,
    a: Addr,
    c: &Cert,
    version: Version,
    steps: &mut Steps<L>,
) -> Result<Verdict, NoMemory>
    requires keys { AreSoundKeys (map (λ n. n.0) (cert_tree c.now).notes) }
    requires loops { AreSoundKeys (cert_tree c.now).loops }
    ensures verdict { IfOk result (λ v. verdict_tree v
        ≡ verdict (world (version_tree version) (sheet cells.now) w.now) a (cert_tree c.now)) }
    ensures shows { IfOk result (λ v. verdict_tree v ≡ E.Accepted
        → IsShown (world (version_tree version) (sheet cells.now) w.now) a (cert_tree c.now).shown) }
    ensures steps { steps.new ≤ steps.old
        + length (cert_tree c.now).notes + length (cert_tree c.now).loops }
    ensures later { steps.old ≤ steps.new }
{
    let evaluator = Evaluator {
        alloc,
        cells,
        oracle: w,
        version,
    };
    let mut notes = Notes::new(alloc);
    match first_stray(&evaluator, &c.notes, &mut notes, steps) {
        Ok(None) => check_loops(&evaluator, a, c, &notes, steps),
        Ok(Some(at)) => Ok(Verdict::Note { at }),
        Err(NoMemory) => Err(NoMemory),
    }
}
