//! What is kept of a round.
ghost use Rattle.std.specs.Prelude.{◌≡◌, IfOk};
ghost use Rattle.gl_calculus.specs.Calculation.Memory.{no_table};

use gl_core::Results;
use gl_plane::{NoMemory, Oracle};
use std::alloc::Global;
use std::marker::Model;

/// The oracle of a round, and the results of the keys that it demanded.
#[derive(Drop)]
pub struct Table {
    pub oracle: Oracle,
    pub results: Results,
}

impl Model for Table {
    ghost use Rattle.std.specs.Prelude.{refl};
    ghost use Rattle.std.specs.Coded.{codes};
    ghost use Rattle.gl_machine.specs.Codes.{coded_table};
    ghost use Rattle.gl_calculus.specs.Calculation.Memory.{Table as Plain};

    ghost Value = { Plain };

    ghost coded = { Prim.hlevel (codes, coded_table) };

    ghost view = { λ t. record { oracle = t.oracle; notes = t.results } };

    ghost inverse = { λ p. record { oracle = p.oracle; results = p.notes } };

    ghost inverse_ok = { λ t h. refl };
}

impl Table {
    /// The table of no round.
    pub fn empty(alloc: Global) -> Table
        ensures { result ≡ no_table }
    {
        Table {
            oracle: Oracle::new(alloc),
            results: Results::new(alloc),
        }
    }

    /// The same table once more.
    pub fn copy(&self, alloc: Global) -> Result<Table, NoMemory>
        ensures { IfOk result (λ t. t ≡ self.now) }
    {
        let oracle = self.oracle.copy(alloc)?;
        let results = self.results.copy(alloc)?;
        Ok(Table { oracle, results })
    }
}
