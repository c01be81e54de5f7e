//! The network of a sheet.
ghost use Rattle.std.specs.Prelude.{◌≡◌, ◌≤◌, IfOk, length};
ghost use Rattle.gl_calculus.specs.Formulas.Formula.{formula_addresses};
ghost use Rattle.gl_calculus.specs.Grid.Limits.{max_formulas};
ghost use Rattle.gl_cells.specs.Sheet.{sheet};
ghost use Rattle.gl_flow.specs.{Pieces.rows_read, Planning.IsPlanOf, Plans.plan};

use crate::areas::areas_of;
use crate::grid::grid_of;
use crate::levels::shapes_of;
use crate::network::Network;
use crate::reading::{last_row, pieces_of};
use crate::rivals::bottoms_of;
use gl_cells::Cells;
use gl_plane::{Addr, NoMemory};
use std::alloc::Global;

/// The network of a sheet, by its formula cells.
pub fn network_of(alloc: Global, cells: &Cells, places: Vec<Addr>) -> Result<Network, NoMemory>
    requires places { places.items ≡ formula_addresses (sheet cells.now) }
    requires few { length places.items ≤ max_formulas }
    ensures { IfOk result (λ net.
        IsPlanOf (sheet cells.now) (rows_read (plan net).pieces) (plan net)) }
{
    let _contents = cells.contents();
    let shapes = shapes_of(alloc, cells, &places)?;
    let areas = areas_of(alloc, cells, &places, &shapes)?;
    let pieces = pieces_of(alloc, cells, &places)?;
    let rows = last_row(&pieces);
    let columns = grid_of(alloc, cells, &places, &areas, rows)?;
    let bottoms = bottoms_of(alloc, &areas)?;
    Ok(Network {
        places,
        pieces,
        areas,
        columns,
        bottoms,
    })
}
