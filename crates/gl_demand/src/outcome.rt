//! What keys come to.
ghost use Rattle.std.specs.Prelude.{◌≡◌};
ghost use Rattle.gl_demand.specs.{View.outcome_tree, Equal.outcome_equal};
ghost use Rattle.std.proofs.Common.{sym};

use gl_plane::{NoMemory, Oracle, Share};
use gl_value::Value;
use std::rc::Rc;

/// What an evaluation can spend: the ranks of sheet values, and the rounds of a settling.
#[derive(Clone, Copy, PartialEq, Eq, Hash)]
pub enum Budget {
    Depth,
    CopyRounds,
}

/// What a key comes to: a cell to a value, a sheet value to an oracle, or either to a spent budget.
#[derive(PartialEq, Eq, Hash)]
pub enum Outcome {
    Value(Value),
    Settled(Rc<Oracle>),
    Abort(Budget),
}

// One call wherever it is dropped, in place of one for each part.
impl Drop for Outcome {
    fn drop(self) {
        match self {
            Outcome::Value(_) => {}
            Outcome::Settled(_) => {}
            Outcome::Abort(_) => {}
        }
    }
}

impl Share for Outcome {
    ghost shares = { λ x y. outcome_tree y ≡ outcome_tree x };

    ghost alike = { λ x y h. (outcome_equal x y).1 (sym h) };

    fn share(&self) -> Result<Outcome, NoMemory> {
        match self {
            Outcome::Value(v) => Ok(Outcome::Value(v.share()?)),
            Outcome::Settled(w) => Ok(Outcome::Settled(w.clone()?)),
            Outcome::Abort(b) => Ok(Outcome::Abort(*b)),
        }
    }
}
