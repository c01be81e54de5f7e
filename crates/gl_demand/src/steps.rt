//! How many evaluations were made, and who watches them.
ghost use Rattle.std.specs.Prelude.{◌≡◌};
ghost use Rattle.gl_demand.specs.Steps.{one_more};

use crate::Key;
use std::marker::Model;

/// Sees the key of each evaluation.
pub trait Watch {
    /// Called once in each evaluation, with its key.
    fn saw(&mut self, key: &Key);
}

/// Watches nothing.
#[derive(Clone, Copy, Drop)]
pub struct Silent;

impl Watch for Silent {
    fn saw(&mut self, _: &Key) {}
}

/// Counts the evaluations. A count of 2^64 - 1 stays.
#[derive(Drop)]
pub struct Steps<L> {
    done: u64,
    watch: L,
}

impl<L> Model for Steps<L> {
    ghost use Rattle.std.specs.Prelude.{ℕ};

    ghost Value = { ℕ };

    ghost view = { λ a. a.done };
}

impl<L> Steps<L> {
    /// No evaluation yet.
    pub fn new(watch: L) -> Steps<L>
        ensures { result ≡ 0 }
    {
        Steps { done: 0, watch }
    }

    /// How many evaluations there were.
    pub fn done(&self) -> u64
        ensures { result ≡ self.now }
    {
        self.done
    }

    /// Who watches.
    pub fn watch(&self) -> &L {
        &self.watch
    }
}

impl<L: Watch> Steps<L> {
    /// Counts one evaluation, and shows its key.
    pub(crate) fn count(&mut self, key: &Key)
        ensures { self.new ≡ one_more self.old }
    {
        if self.done < u64::MAX {
            self.done += 1;
        }
        self.watch.saw(key);
    }
}
