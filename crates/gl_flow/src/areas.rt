//! The areas of all formula cells.
ghost use Rattle.std.specs.Prelude.{◌≡◌, map, length, IfOk, option_map};
ghost use Rattle.gl_calculus.specs.Grid.Grid.{area};
ghost use Rattle.gl_cells.specs.Sheet.{sheet};
ghost use Rattle.gl_calculus.specs.Forecast.{box, cell_shape};
ghost use Rattle.gl_flow.specs.Columns.{AreRooted};

use crate::boxes::Area;
use crate::extents::Extents;
use gl_cells::Cells;
use gl_plane::{Addr, NoMemory};
use std::alloc::Global;

/// The area of a formula cell by its shape; none of one that surely has a scalar.
fn area_of(a: Addr, shape: Option<Extents>) -> Option<Area>
    ensures { result ≡ option_map (area a) shape }
{
    match shape {
        Some(s) => Some(Area::new(a, s)),
        None => None,
    }
}

/// The areas of all formula cells, by their shapes.
#[tactic(auto, using(crate::proofs::Rooting::areas_on, crate::proofs::Rooting::rooted))]
pub fn areas_of(
    alloc: Global,
    cells: &Cells,
    places: &[Addr],
    shapes: &[Option<Extents>],
) -> Result<Vec<Option<Area>>, NoMemory>
    requires same { length shapes.now ≡ length places.now }
    requires shapes { shapes.now ≡ map (cell_shape (sheet cells.now)) places.now }
    ensures value { IfOk result (λ v. v.items ≡ map (box (sheet cells.now)) places.now) }
    ensures rooted { IfOk result (λ v. AreRooted places.now v.items) }
{
    let _contents = cells.contents();
    let mut areas = Vec::new(alloc);
    for k in 0..places.len() {
        let area = area_of(places[k], shapes[k]);
        areas.push(area)?;
    }
    Ok(areas)
}
