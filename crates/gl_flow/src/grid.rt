//! What each address that is read reads of: the formula there, or, without content, the last
//! formula cell whose area lies over it.
ghost use Rattle.std.specs.Prelude.{◌≡◌, ◌≤◌, ◌+◌, IsTrue, IfOk, length, set, vec_len};
ghost use Rattle.gl_calculus.specs.Grid.Limits.{grid_rows, grid_cols, max_formulas};
ghost use Rattle.gl_calculus.specs.Formulas.Formula.{formula_addresses};
ghost use Rattle.gl_cells.specs.Sheet.{sheet};
ghost use Rattle.gl_plane.specs.Parts.{IsAddr};
ghost use Rattle.gl_flow.specs.Grid.{number_lists, written_at, IsShaped, AreColumns, AreSources};
ghost use Rattle.gl_flow.specs.{Places.are_in_order, Columns.AreRooted, Filling.IsCleared};
ghost use Rattle.gl_flow.specs.{Filling.IsFilled};

use crate::boxes::Area;
use crate::columns::column_of;
use gl_cells::Cells;
use gl_plane::{Addr, NoMemory, whole_grid};
use std::alloc::Global;

/// One more than the number of the last area over each address, or 0, column by column.
fn columns_of(
    alloc: Global,
    places: &[Addr],
    areas: &[Option<Area>],
    rows: u16,
) -> Result<Vec<Vec<u16>>, NoMemory>
    requires few { length places.now ≤ max_formulas }
    requires ordered { IsTrue (are_in_order places.now) }
    requires rooted { AreRooted places.now areas.now }
    requires rows { rows ≤ grid_rows }
    ensures { IfOk result (λ v. AreColumns areas.now rows grid_cols (number_lists v.items)) }
{
    let mut columns = Vec::new(alloc);
    for column in 1..703u16 {
        let numbers = column_of(alloc, places, areas, column, rows)?;
        columns.push(numbers)?;
    }
    Ok(columns)
}

/// Writes a number, where there is one at this place.
fn write_row(numbers: &mut Vec<u16>, i: usize, number: u16)
    ensures { numbers.new.items ≡ set numbers.old.items i number }
{
    if i < numbers.len() {
        numbers[i] = number;
    }
}

/// Writes the number of an address, where its row is one of those that are kept.
fn write(columns: &mut Vec<Vec<u16>>, a: Addr, number: u16)
    requires { grid_cols ≤ vec_len columns.old }
    ensures numbers { number_lists columns.new.items
        ≡ written_at (number_lists columns.old.items) a number }
    ensures sound { IsAddr a }
{
    let i = a.col() as usize - 1;
    let j = a.row() as usize - 1;
    write_row(&mut columns[i], j, number);
}

/// Writes 0 at each address with content.
fn clear(columns: &mut Vec<Vec<u16>>, cells: &Cells, areas: &[Option<Area>], rows: u16)
    requires rows { rows ≤ grid_rows }
    requires columns { AreColumns areas.now rows grid_cols (number_lists columns.old.items) }
    ensures { IsCleared (sheet cells.now) areas.now rows (number_lists columns.new.items) }
{
    let grid = whole_grid();
    let _contents = cells.contents();
    let mut after = None;
    while let Some(a) = cells.next_in(&grid, after) {
        write(columns, a, 0);
        after = Some(a);
    }
}

/// Writes the number of each formula cell.
fn fill(
    columns: &mut Vec<Vec<u16>>,
    cells: &Cells,
    places: &[Addr],
    areas: &[Option<Area>],
    rows: u16,
)
    requires few { length places.now ≤ max_formulas }
    requires ordered { IsTrue (are_in_order places.now) }
    requires cleared { IsCleared (sheet cells.now) areas.now rows (number_lists columns.old.items) }
    ensures { IsFilled (sheet cells.now) places.now areas.now rows (length places.now)
        (number_lists columns.new.items) }
{
    for k in 0..places.len() {
        write(columns, places[k], k as u16 + 1);
    }
}

/// What each address of so many rows reads of.
pub fn grid_of(
    alloc: Global,
    cells: &Cells,
    places: &[Addr],
    areas: &[Option<Area>],
    rows: u16,
) -> Result<Vec<Vec<u16>>, NoMemory>
    requires places { places.now ≡ formula_addresses (sheet cells.now) }
    requires few { length places.now ≤ max_formulas }
    requires ordered { IsTrue (are_in_order places.now) }
    requires rooted { AreRooted places.now areas.now }
    requires rows { rows ≤ grid_rows }
    ensures shaped { IfOk result (λ v. IsShaped rows (number_lists v.items)) }
    ensures sources { IfOk result (λ v.
        AreSources (sheet cells.now) places.now areas.now rows (number_lists v.items)) }
{
    let _contents = cells.contents();
    let mut columns = columns_of(alloc, places, areas, rows)?;
    clear(&mut columns, cells, areas, rows);
    fill(&mut columns, cells, places, areas, rows);
    Ok(columns)
}
