//! The forecast of a sheet.
ghost use Rattle.std.specs.Prelude.{◌≡◌, ◌≤◌, false, length, IfOk};
ghost use Rattle.std.specs.List.{list_any};
ghost use Rattle.gl_calculus.specs.Formulas.Formula.{formula_addresses};
ghost use Rattle.gl_calculus.specs.Grid.Limits.{max_formulas};
ghost use Rattle.gl_cells.specs.Sheet.{sheet};
ghost use Rattle.gl_calculus.specs.Forecast as Fo;
ghost use Rattle.gl_flow.specs.View.{forecast_tree, Promises};

use crate::forecast::Forecast;
use crate::making::network_of;
use crate::searching::searched;
use crate::unknowns::first_unknown;
use gl_cells::Cells;
use gl_plane::{Addr, NoMemory};
use std::alloc::Global;

/// The forecast of a sheet in which no formula makes sheets.
fn foretold(alloc: Global, cells: &Cells, places: Vec<Addr>) -> Result<Forecast, NoMemory>
    requires places { places.items ≡ formula_addresses (sheet cells.now) }
    requires few { length places.items ≤ max_formulas }
    requires none { list_any (Fo.uses_sheets (sheet cells.now)) places.items ≡ false }
    ensures { IfOk result (λ x. Fo.IsForecast (sheet cells.now) (forecast_tree x)) }
{
    let net = network_of(alloc, cells, places)?;
    let forecast = searched(alloc, &net)?;
    Ok(forecast)
}

/// The forecast of a sheet. It is told from the formulas alone, before anything is calculated.
pub fn flow(alloc: Global, cells: &Cells) -> Result<Forecast, NoMemory>
    ensures forecast { IfOk result (λ x. Fo.IsForecast (sheet cells.now) (forecast_tree x)) }
    ensures settles { IfOk result (λ x. Promises (sheet cells.now) (forecast_tree x)) }
{
    let _contents = cells.contents();
    let places = cells.formula_addresses(alloc)?;
    match first_unknown(cells, &places) {
        Some(a) => Ok(Forecast::Unknown(a)),
        None => foretold(alloc, cells, places),
    }
}
