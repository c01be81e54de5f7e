//! The rounds of the whole sheet, to their end.
ghost use Rattle.std.specs.Prelude.{◌≡◌, IfOk};
ghost use Rattle.gl_calculus.specs.Formulas.Formula.{IsSheet, formula_addresses};
ghost use Rattle.gl_ast.specs.View.{version_tree};
ghost use Rattle.gl_cells.specs.Sheet.{sheet};
ghost use Rattle.gl_calculus.specs.Steps.Rule.{PicksBelow};
ghost use Rattle.gl_calc.specs.{Kept.AreEarlier, Ending.EndsWith, Engine.rule_in};

use crate::ending::{Ended, spent_by};
use crate::round::TopRound;
use crate::table::Table;
use crate::tables::Tables;
use crate::{Answer, EXTRA_ROUNDS, Engine};
use gl_ast::Version;
use gl_cells::Cells;
use gl_demand::{Steps, TopBlocks, Watch};
use gl_plane::{Addr, NoMemory, merged, whole_grid};
use gl_rounds::{Settled, iterate};
use std::marker::PhantomData;

/// Goes through the rounds from the empty oracle to the first that is its own next one, or to a
/// spent budget. Its formulas stand at these places. The rounds begin with these tables from before,
/// after these addresses were touched.
pub fn calculate<F: Fn(u8, u64, u64) -> u64, L: Watch>(
    engine: &Engine<F>,
    cells: &Cells,
    places: &[Addr],
    version: Version,
    earlier: Vec<Table>,
    touched: &[Addr],
    steps: &mut Steps<L>,
) -> Result<Ended, NoMemory>
    requires rule { PicksBelow (F.pre (rule_in engine.now)) (F.post (rule_in engine.now)) }
    requires all { places.now ≡ formula_addresses (sheet cells.now) }
    requires earlier { AreEarlier (version_tree version) (sheet cells.now) earlier.items
        touched.now }
    ensures ends { IfOk result (λ x.
        EndsWith (version_tree version) (sheet cells.now) earlier.items touched.now x steps.old
        steps.new) }
    ensures ordered { IsSheet (sheet cells.now) }
{
    let budget = cells.formulas() + EXTRA_ROUNDS;
    let blocks = TopBlocks { cells };
    let ranges = merged(engine.alloc, touched)?;
    let tables = Tables::new(engine.alloc, earlier)?;
    let mut round = TopRound {
        engine,
        cells,
        version,
        places,
        touched,
        ranges: &ranges,
        tables,
        watch: PhantomData,
    };
    match iterate(
        engine.alloc,
        &mut round,
        &whole_grid(),
        &blocks,
        budget,
        steps,
    ) {
        Ok(settled) => Ok(ended(
            Answer::Settled {
                rounds: settled.rounds,
            },
            round.tables,
        )),
        Err(fault) => match spent_by(fault) {
            Some(kind) => Ok(ended(Answer::Spent(kind), round.tables)),
            None => Err(NoMemory),
        },
    }
}

/// The end, with the tables that were made.
fn ended(answer: Answer, tables: Tables) -> Ended
    ensures answer { result.answer ≡ answer }
    ensures tables { result.tables.items ≡ tables.made }
    ensures beyond { result.beyond ≡ tables.beyond }
{
    let (tables, beyond) = tables.into_made();
    Ended {
        answer,
        tables,
        beyond,
    }
}
