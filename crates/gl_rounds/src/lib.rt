//! Rounds: from the empty oracle to the first that is its own next one, or to a spent budget.
#![tactic(auto)]

ghost use Rattle.std.specs.Prelude.{◌≡◌, ◌≤◌, ◌↔◌, [], IfOk};
ghost use Rattle.gl_calculus.specs.Values.Value.{Oracle as Plain};
ghost use Rattle.gl_calculus.specs.Evaluation.Oracle.{Sizes as Found};
ghost use Rattle.gl_calculus.specs.Evaluation.Oracle.{ArePermits};
ghost use Rattle.gl_rounds.specs.Answers.{Answers, Once};

use gl_grant::{Blocks, grant};
use gl_plane::{Addr, Oracle, Range, Sizes};
use std::alloc::Global;

/// What evaluates the sheet, or a copy, once under an oracle.
pub trait Round {
    ghost use Rattle.std.specs.Prelude.{◌≡◌, ◌↔◌, IfOk, IfErr, Result};
    ghost use Rattle.gl_calculus.specs.Values.Value.{Oracle as Plain};
    ghost use Rattle.gl_calculus.specs.Evaluation.Oracle.{Sizes as Found};

    /// Why a round has no sizes.
    type Fault;

    /// What is counted over all rounds.
    type Count;

    /// The sizes may be asked for.
    ghost can: { Self → Type 0 } = { λ s. Unit {0} };

    /// The sizes may be asked for under this oracle.
    ghost under: { Self → Plain → Type 0 } = { λ s w. Unit {0} };

    /// Under the oracle the arrays have these sizes.
    ghost gives: { Self → Plain → Found → Type 0 };

    /// Under the oracle this fault may come.
    ghost fails: { Self → Plain → Self.Fault → Type 0 };

    /// What one call does.
    ghost calls: { Self
        → Self.Count
        → Plain
        → Result Found Self.Fault
        → Self
        → Self.Count
        → Type 0 };

    /// The sizes of the arrays under an oracle.
    fn sizes(&mut self, w: &Oracle, count: &mut Self::Count) -> Result<Sizes, Self::Fault>
        requires can { can self.old }
        requires under { under self.old w.now }
        ensures can_again { can self.new }
        ensures under_kept { (v : Plain) → under self.old v → under self.new v }
        ensures given { IfOk result (λ zs. gives self.old w.now zs) }
        ensures failed { IfErr result (λ e. fails self.old w.now e) }
        ensures called { calls self.old count.old w.now result self.new count.new }
        ensures gives_kept { (v : Plain) (zs : Found) → gives self.new v zs ↔ gives self.old v zs }
        ensures fails_kept { (v : Plain) (e : Self.Fault)
            → fails self.new v e
            ↔ fails self.old v e };

    /// An oracle gives sizes at most once.
    ghost one: { (s : Self) (w : Plain) (x y : Found) → gives s w x → gives s w y → x ≡ y };
}

/// An oracle that is its own next one, after so many rounds.
#[derive(Drop)]
pub struct Settled {
    pub oracle: Oracle,
    pub rounds: u32,
}

/// Why rounds don't settle: the budget is spent, and the last two oracles differ first at this
/// address; a round failed; or there is no memory.
#[derive(Drop)]
pub enum IterFault<E> {
    Rounds(Addr),
    Round(E),
    NoMemory,
}

/// Goes through the rounds 0, 1, .. from the empty oracle, each with one call of `sizes`, up to the
/// first oracle that is its own next one: then it is settled, after one round more than its number.
/// Where that doesn't come within the budget, the fault is the first address at which the last two
/// oracles differ; a round's own fault ends the rounds at once. A round is asked under the empty
/// oracle, and under oracles whose permits are as permits must be.
pub fn iterate<R: Round, B: Blocks>(
    alloc: Global,
    round: &mut R,
    bound: &Range,
    blocks: &B,
    budget: u32,
    count: &mut R::Count,
) -> Result<Settled, IterFault<R::Fault>>
    requires budget { 1 ≤ budget }
    requires can { R.can round.old }
    requires first { R.under round.old [] }
    requires next { (v : Plain) → ArePermits bound.now (B.held blocks.now) v → R.under round.old v }
    ensures { Answers (R.gives round.old) (R.fails round.old) R.calls bound.now (B.held blocks.now)
        budget round.old count.old result round.new count.new }
{
    let mut oracle = Oracle::new(alloc);
    let mut rounds = 0;
    loop {
        let next = match next_oracle(alloc, round, &oracle, bound, blocks, count) {
            Ok(next) => next,
            Err(fault) => return Err(fault),
        };
        rounds += 1;
        match oracle.first_difference(&next) {
            None => return Ok(Settled { oracle, rounds }),
            Some(a) => {
                if rounds == budget {
                    return Err(IterFault::Rounds(a));
                }
            }
        }
        oracle = next;
    }
}

/// One round: the permits of the sizes under an oracle.
fn next_oracle<R: Round, B: Blocks>(
    alloc: Global,
    round: &mut R,
    w: &Oracle,
    bound: &Range,
    blocks: &B,
    count: &mut R::Count,
) -> Result<Oracle, IterFault<R::Fault>>
    requires can { R.can round.old }
    requires under { R.under round.old w.now }
    ensures can_again { R.can round.new }
    ensures under_kept { (v : Plain) → R.under round.old v → R.under round.new v }
    ensures permits { IfOk result (ArePermits bound.now (B.held blocks.now)) }
    ensures once { Once (R.gives round.old) (R.fails round.old) R.calls bound.now
        (B.held blocks.now) w.now round.old count.old result round.new count.new }
    ensures gives_kept { (v : Plain) (zs : Found)
        → R.gives round.new v zs
        ↔ R.gives round.old v zs }
    ensures fails_kept { (v : Plain) (e : R.Fault) → R.fails round.new v e ↔ R.fails round.old v e }
{
    match round.sizes(w, count) {
        Err(fault) => Err(IterFault::Round(fault)),
        Ok(sizes) => match grant(alloc, &sizes, bound, blocks) {
            Ok(next) => Ok(next),
            Err(_) => Err(IterFault::NoMemory),
        },
    }
}
