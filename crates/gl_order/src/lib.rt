//! The rule by which the next key is picked, stored beside what it answers to.
#![tactic(auto)]

ghost use Rattle.std.specs.Prelude.{◌≡◌, ◌<◌, ◌≤◌};
ghost use Rattle.gl_calculus.specs.Steps.Rule.{PicksBelow};
ghost use Rattle.gl_order.specs.Rule.{rule_of, place};

/// A pick rule: a closure that is given a kind of rule from 0 to 2, the turn, and how many there
/// are to pick from.
///
/// A type can't keep what is known of a closure, so each call that goes by the rule requires again
/// that the rule picks below the number that it is given.
#[derive(Drop)]
pub struct Order<F> {
    rule: F,
}

impl<F: Fn(u8, u64, u64) -> u64> Order<F> {
    /// Stores a rule that may be asked for each kind of at most 2, at each turn, with each number
    /// of at least 1, and then answers below that number.
    pub fn new(f: F) -> Order<F>
        requires { PicksBelow (F.pre f) (F.post f) }
        ensures { rule_of result ≡ f }
    {
        Order { rule: f }
    }

    /// The place of the next pick among `n`, from 0: what the rule answers.
    pub fn next(&self, kind: u8, turn: u64, n: u64) -> u64
        requires rule { PicksBelow (F.pre (rule_of self.now)) (F.post (rule_of self.now)) }
        requires kind { kind ≤ 2 }
        requires some { 1 ≤ n }
        ensures below { result < n }
        ensures answer { F.post (rule_of self.now) kind turn n result }
    {
        (self.rule)(kind, turn, n)
    }
}

/// The place that a kind of rule picks among `n`, from 0: the first for 0, the last for 1, and else
/// each in turn.
pub fn by_kind(kind: u8, turn: u64, n: u64) -> u64
    requires { 1 ≤ n }
    ensures place { result ≡ place kind turn n }
    ensures below { result < n }
{
    match kind {
        0 => 0,
        1 => n - 1,
        _ => turn % n,
    }
}
