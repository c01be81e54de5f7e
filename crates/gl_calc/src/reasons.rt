//! Why roots have their permits.
ghost use Rattle.std.specs.Prelude.{◌≡◌};
ghost use Rattle.gl_calculus.specs.Calculation.Calculation.{has_content, why};
ghost use Rattle.gl_calculus.specs.Grid.Grid.{grid};
ghost use Rattle.gl_calculus.specs.Evaluation.Oracle.{ArePermits};
ghost use Rattle.gl_cells.specs.Sheet.{sheet};
ghost use Rattle.gl_calc.specs.Why.{why_tree};

use crate::Why;
use gl_cells::Cells;
use gl_demand::TopBlocks;
use gl_grant::blocker;
use gl_plane::{Addr, Oracle, whole_grid};

/// Why a root of the top sheet has its permit: the first that stands in its way where it is
/// refused, `NoEntry` where the oracle has no entry of it.
pub fn why_at(cells: &Cells, w: &Oracle, a: Addr) -> Why
    requires { ArePermits grid (has_content (sheet cells.now)) w.now }
    ensures { why_tree result ≡ why (sheet cells.now) w.now a }
{
    match w.entry(a) {
        None => Why::NoEntry,
        Some(_) => match blocker(w, a, &whole_grid(), &TopBlocks { cells }) {
            None => Why::Permitted,
            Some(obstacle) => Why::Blocked(obstacle),
        },
    }
}
