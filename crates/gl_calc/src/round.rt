//! One round over the whole sheet.
ghost use Rattle.gl_calculus.specs.Evaluation.World.{world};
ghost use Rattle.std.specs.Prelude.{◌≡◌, IfOk, IfErr, Err, ◌⊎◌};
ghost use Rattle.gl_calculus.specs.Formulas.Formula.{Version as PlainVersion, Cells as Sheet};
ghost use Rattle.gl_calculus.specs.Formulas.Formula.{formula_addresses};
ghost use Rattle.gl_calculus.specs.Values.Value.{Oracle as Permits};
ghost use Rattle.gl_calculus.specs.Grid.Grid.{AreInOrder};
ghost use Rattle.gl_core.specs.State.{IsFor};
ghost use Rattle.gl_calc.specs.{Kept.IsKeptBy, Starting.IsEvaluated, Round.Gives, Round.Fails};
ghost use Rattle.gl_calc.specs.{Engine.rule_in};

use crate::Engine;
use crate::collecting::collected;
use crate::ending::RoundFault;
use crate::keeping::begun;
use crate::starting::evaluated;
use crate::table::Table;
use crate::tables::Tables;
use gl_ast::Version;
use gl_cells::Cells;
use gl_core::Quiet;
use gl_demand::{Evaluator, Steps, Watch};
use gl_plane::{Addr, NoMemory, Oracle, Range, Sizes};
use gl_rounds::Round;
use std::alloc::Global;
use std::marker::PhantomData;

/// Evaluates the sheet under one oracle after another. Each round begins with what of a table from
/// before holds for it, and its own table is kept.
#[derive(Drop)]
pub struct TopRound<'a, F, L> {
    pub engine: &'a Engine<'a, F>,
    pub cells: &'a Cells,
    pub version: Version,
    // the formulas of the sheet
    pub places: &'a [Addr],
    // what was touched since the tables from before were made, and the same as ranges
    pub touched: &'a [Addr],
    pub ranges: &'a [Range],
    pub tables: Tables,
    pub watch: PhantomData<L>,
}

/// The sizes of the arrays of a round, whose table is kept.
fn finished(
    alloc: Global,
    tables: &mut Tables,
    places: &[Addr],
    quiet: Quiet,
    w: &Oracle,
) -> Result<Sizes, RoundFault>
    requires placed { AreInOrder places.now }
    requires for_it { (version : PlainVersion)
        × (S : Sheet)
        × (v : Permits)
        × IsFor (world version S v) quiet }
    ensures given { IfOk result (λ zs.
        (version : PlainVersion) (S : Sheet)
        → IsEvaluated (world version S w.now) quiet
        → places.now ≡ formula_addresses S
        → Gives (world version S w.now) zs) }
    ensures failed { IfErr result (λ e.
        (version : PlainVersion) (S : Sheet)
        → IsEvaluated (world version S w.now) quiet
        → places.now ≡ formula_addresses S
        → Fails (world version S w.now) e) }
    ensures work { IfErr result (λ e.
        e ≡ RoundFault.Work
        → (version : PlainVersion) (S : Sheet)
        → IsEvaluated (world version S w.now) quiet
        → places.now ≡ formula_addresses S
        → ⊥) }
    ensures kept { (version : PlainVersion) (S : Sheet)
        → IsEvaluated (world version S w.now) quiet
        → IsKeptBy version S tables.old w.now tables.new
        ⊎ ((tables.new ≡ tables.old) × (result ≡ Err RoundFault.NoMemory)) }
{
    let sizes = collected(alloc, places, &quiet);
    match w.copy(alloc) {
        Ok(oracle) => {
            let known = quiet.len();
            let mut results = quiet.into_results();
            // keys that are gone would pile up from edit to edit
            results.tidy(alloc, known);
            tables.keep(Table { oracle, results });
            sizes
        }
        Err(NoMemory) => Err(RoundFault::NoMemory),
    }
}

impl<F: Fn(u8, u64, u64) -> u64, L: Watch> Round for TopRound<'_, F, L> {
    ghost use Rattle.std.specs.Prelude.{◌≡◌};
    ghost use Rattle.gl_ast.specs.View.{version_tree};
    ghost use Rattle.gl_cells.specs.Sheet.{sheet};
    ghost use Rattle.gl_calculus.specs.Formulas.Formula.{formula_addresses};
    ghost use Rattle.gl_calculus.specs.Calculation.Differences.{AreApart};
    ghost use Rattle.gl_calculus.specs.Steps.Rule.{PicksBelow};
    ghost use Rattle.gl_calc.specs.Round.{Gives, Fails, Calls};
    ghost use Rattle.gl_calc.specs.{Kept.IsSet, Single.one_arrays};

    type Fault = RoundFault;

    type Count = Steps<L>;

    ghost can = { λ s.
        PicksBelow (F.pre (rule_in s.engine.now)) (F.post (rule_in s.engine.now))
        × IsSet (version_tree s.version) (sheet s.cells.now) s.places.now s.touched.now s.ranges.now
        s.tables };

    ghost under = { λ s w. AreApart w };

    ghost gives = { λ s w. Gives (world (version_tree s.version) (sheet s.cells.now) w) };

    ghost fails = { λ s w. Fails (world (version_tree s.version) (sheet s.cells.now) w) };

    ghost calls = { λ s c w r t d.
        (t.version ≡ s.version)
        × (t.cells.now ≡ s.cells.now)
        × (t.touched.now ≡ s.touched.now)
        × Calls (version_tree s.version) (sheet s.cells.now) s.touched.now s.tables w r t.tables c
        d };

    fn sizes(&mut self, w: &Oracle, steps: &mut Steps<L>) -> Result<Sizes, RoundFault> {
        match begun(self.engine.alloc, &mut self.tables, self.ranges, w) {
            Ok(results) => {
                let evaluator = Evaluator {
                    alloc: self.engine.alloc,
                    cells: self.cells,
                    oracle: w,
                    version: self.version,
                };
                match evaluated(&evaluator, self.engine, self.places, results, steps) {
                    Ok(quiet) => finished(evaluator.alloc, &mut self.tables, self.places, quiet, w),
                    Err(fault) => Err(fault),
                }
            }
            Err(NoMemory) => Err(RoundFault::NoMemory),
        }
    }

    ghost one = { λ s w x y h k.
        one_arrays (world (version_tree s.version) (sheet s.cells.now) w)
        (formula_addresses (sheet s.cells.now)) x y h.1 k.1 };
}
