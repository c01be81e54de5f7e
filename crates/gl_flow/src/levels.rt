//! The shapes of all formula cells, through levels of `#`.
ghost use Rattle.std.specs.Prelude.{◌≡◌, [], true, false, map, IfOk, IsTrue};
ghost use Rattle.gl_calculus.specs.Formulas.Formula.{content, formula_addresses};
ghost use Rattle.gl_cells.specs.Sheet.{sheet};
ghost use Rattle.gl_calculus.specs.Forecast.{cell_shape};
ghost use Rattle.gl_flow.specs.{Places.are_in_order, Shapes.spilled_at, Shapes.level_shapes};
ghost use Rattle.gl_flow.specs.{Contents.formula_in, Contents.formula_shape};

use crate::contents::formula_at;
use crate::extents::Extents;
use crate::shaping::{Spilled, shape};
use gl_cells::Cells;
use gl_plane::{Addr, NoMemory};
use std::alloc::Global;

/// The shape of the formula at an address; none without one.
fn shape_at(
    alloc: Global,
    cells: &Cells,
    spilled: &Spilled,
    a: Addr,
) -> Result<Option<Extents>, NoMemory>
    ensures { IfOk result (λ s.
        s
        ≡ formula_shape (spilled_at spilled.now.any spilled.now.places.now spilled.now.shapes.now)
        (formula_in (content (sheet cells.now) a))) }
{
    match formula_at(cells, a) {
        Some(f) => shape(alloc, spilled, &[], f),
        None => Ok(None),
    }
}

/// The shapes of all formula cells, by those of `a#`.
fn level(
    alloc: Global,
    cells: &Cells,
    spilled: &Spilled,
    places: &[Addr],
) -> Result<Vec<Option<Extents>>, NoMemory>
    ensures { IfOk result (λ v.
        v.items
        ≡ level_shapes (sheet cells.now)
        (spilled_at spilled.now.any spilled.now.places.now spilled.now.shapes.now) places.now) }
{
    let mut shapes = Vec::new(alloc);
    for a in places {
        let s = shape_at(alloc, cells, spilled, *a)?;
        shapes.push(s)?;
    }
    Ok(shapes)
}

/// The shapes of all formula cells, with any shape for `a#`.
fn first_level(
    alloc: Global,
    cells: &Cells,
    places: &[Addr],
) -> Result<Vec<Option<Extents>>, NoMemory>
    requires { IsTrue (are_in_order places.now) }
    ensures { IfOk result (λ v.
        v.items ≡ level_shapes (sheet cells.now) (spilled_at true places.now []) places.now) }
{
    let spilled = Spilled {
        places,
        shapes: &[],
        any: true,
    };
    level(alloc, cells, &spilled, places)
}

/// The shapes of all formula cells, by those of the level before.
fn next_level(
    alloc: Global,
    cells: &Cells,
    places: &[Addr],
    shapes: &[Option<Extents>],
) -> Result<Vec<Option<Extents>>, NoMemory>
    requires { IsTrue (are_in_order places.now) }
    ensures { IfOk result (λ v.
        v.items
        ≡ level_shapes (sheet cells.now) (spilled_at false places.now shapes.now) places.now) }
{
    let spilled = Spilled {
        places,
        shapes,
        any: false,
    };
    level(alloc, cells, &spilled, places)
}

/// Two shapes are the same.
fn same_shape(s: Option<Extents>, t: Option<Extents>) -> bool
    ensures { result ≡ true → s ≡ t }
{
    match s {
        None => match t {
            None => true,
            Some(_) => false,
        },
        Some(e) => match t {
            None => false,
            Some(f) => e.rows == f.rows && e.cols == f.cols,
        },
    }
}

/// All shapes are the same.
fn same_shapes(xs: &[Option<Extents>], ys: &[Option<Extents>]) -> bool
    ensures { result ≡ true → xs.now ≡ ys.now }
{
    if xs.len() != ys.len() {
        return false;
    }
    for i in 0..xs.len() {
        if !same_shape(xs[i], ys[i]) {
            return false;
        }
    }
    true
}

/// The shapes of all formula cells, each followed through sixteen levels of `#`. Where a level is
/// as the one before, all further ones are.
pub fn shapes_of(
    alloc: Global,
    cells: &Cells,
    places: &[Addr],
) -> Result<Vec<Option<Extents>>, NoMemory>
    requires places { places.now ≡ formula_addresses (sheet cells.now) }
    requires ordered { IsTrue (are_in_order places.now) }
    ensures { IfOk result (λ v. v.items ≡ map (cell_shape (sheet cells.now)) places.now) }
{
    let mut shapes = first_level(alloc, cells, places)?;
    for _level in 0..16u32 {
        let next = next_level(alloc, cells, places, &shapes)?;
        let same = same_shapes(&next, &shapes);
        shapes = next;
        if same {
            return Ok(shapes);
        }
    }
    Ok(shapes)
}
