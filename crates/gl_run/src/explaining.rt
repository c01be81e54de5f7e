//! Why an address shows what it shows.
ghost use Rattle.gl_demand.specs.Evaluators.{world_of};
ghost use Rattle.gl_calculus.specs.Evaluation.World.{world};
ghost use Rattle.std.specs.Prelude.{◌≡◌, ◌≤◌, ◌+◌, ℕ, Some, length, map, IfOk};
ghost use Rattle.gl_calculus.specs.Calculation.Calculation.{IsAnswer};
ghost use Rattle.gl_calculus.specs.Values.Value.{Oracle};
ghost use Rattle.gl_calculus.specs.Calculation.Calculation as A;
ghost use Rattle.gl_calculus.specs.Explanation.Certificate.{verdict};
ghost use Rattle.gl_protocol.specs.Replies.Explanations.{explanation_text};
ghost use Rattle.gl_protocol.specs.Scripts.Commands as C;
ghost use Rattle.gl_ast.specs.View.{version_tree};
ghost use Rattle.gl_calc.specs.View.{sheet_of};
ghost use Rattle.gl_cells.specs.Sheet.{sheet};
ghost use Rattle.gl_cert.specs.View.{cert_tree};
ghost use Rattle.gl_demand.specs.Sound.{AreSoundKeys};
ghost use Rattle.gl_run.specs.Replies.{Holds, RepliesBy, IsExplanation, verdict_text};
ghost use Rattle.gl_protocol.specs.Run.Spends.{Explaining};

use crate::certificates::explanation;
use gl_ast::Version;
use gl_calc::Calc;
use gl_cert::{Cert, check};
use gl_demand::{Evaluator, Steps, Watch};
use gl_explain::{Explained, certificate};
use gl_plane::{Addr, NoMemory, Oracle};
use std::alloc::Global;

/// Explains what an address shows by the oracle that is held, to which the calculation settled.
pub(crate) fn explain<L: Watch>(
    alloc: Global,
    calc: &Calc,
    version: Version,
    a: Addr,
    steps: &mut Steps<L>,
) -> Result<Vec<u8>, NoMemory>
    requires { (rounds : ℕ) × Holds (version_tree version) calc.now rounds }
    ensures replies { IfOk result (λ reply.
        (rounds : ℕ) → RepliesBy calc.now rounds (C.Request.Explain a) reply.items) }
    ensures steps { IfOk result (λ reply.
        (w : Oracle)
        → calc.now.held ≡ Some (version_tree version, w)
        → Explaining (world (version_tree version) (sheet_of calc.now) w) a steps.old steps.new) }
{
    let Some(w) = calc.oracle() else {
        unreachable!()
    };
    let evaluator = Evaluator {
        alloc,
        cells: calc.cells(),
        oracle: w,
        version,
    };
    explain_by(&evaluator, a, steps)
}

/// Finds a certificate of what an address shows, and checks it. Where the calculation settled to the
/// oracle, there is one.
fn explain_by<L: Watch>(
    evaluator: &Evaluator,
    a: Addr,
    steps: &mut Steps<L>,
) -> Result<Vec<u8>, NoMemory>
    requires { (rounds : ℕ)
        × IsAnswer (version_tree evaluator.now.version) (sheet evaluator.now.cells.now)
        (A.Settled evaluator.now.oracle.now rounds) }
    ensures { IfOk result (λ reply.
        IsExplanation (world_of evaluator.now) a steps.old steps.new reply.items) }
{
    match certificate(
        evaluator.alloc,
        evaluator.cells,
        evaluator.oracle,
        a,
        evaluator.version,
        steps,
    ) {
        Ok(Explained::Cert(cert)) => explain_checked(evaluator, &cert, a, steps),
        Ok(Explained::Work) => unreachable!(),
        Ok(Explained::Aborts(_)) => unreachable!(),
        Err(NoMemory) => Err(NoMemory),
    }
}

/// Checks a certificate, and tells it with the verdict.
fn explain_checked<L: Watch>(
    evaluator: &Evaluator,
    cert: &Cert,
    a: Addr,
    steps: &mut Steps<L>,
) -> Result<Vec<u8>, NoMemory>
    requires keys { AreSoundKeys (map (λ n. n.0) (cert_tree cert.now).notes) }
    requires loops { AreSoundKeys (cert_tree cert.now).loops }
    ensures reply { IfOk result (λ reply.
        reply.items
        ≡ explanation_text
        (verdict_text (verdict (world_of evaluator.now) a (cert_tree cert.now)))
        (cert_tree cert.now)) }
    ensures later { steps.old ≤ steps.new }
    ensures steps { steps.new ≤ steps.old
        + length (cert_tree cert.now).notes + length (cert_tree cert.now).loops }
{
    match check(
        evaluator.alloc,
        evaluator.cells,
        evaluator.oracle,
        a,
        cert,
        evaluator.version,
        steps,
    ) {
        Ok(verdict) => explanation(evaluator.alloc, cert, verdict),
        Err(NoMemory) => Err(NoMemory),
    }
}
