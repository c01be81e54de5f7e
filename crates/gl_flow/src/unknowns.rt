//! Formula cells of which nothing is told.
ghost use Rattle.std.specs.Prelude.{◌≡◌, false, IsTrue, IfSome, IfNone};
ghost use Rattle.std.specs.List.{list_any};
ghost use Rattle.gl_cells.specs.Sheet.{sheet};
ghost use Rattle.gl_calculus.specs.Forecast as Fo;

use crate::contents::formula_at;
use crate::sheets::makes_sheets;
use gl_cells::Cells;
use gl_plane::Addr;

/// The formula at an address calls SHEET, UPDATE, VIEW or G.
fn uses_sheets(cells: &Cells, a: Addr) -> bool
    ensures { result ≡ Fo.uses_sheets (sheet cells.now) a }
{
    match formula_at(cells, a) {
        Some(f) => makes_sheets(f),
        None => false,
    }
}

/// The first of these addresses whose formula does.
pub fn first_unknown(cells: &Cells, places: &[Addr]) -> Option<Addr>
    ensures some { IfSome result (λ a.
        Fo.First (λ b. IsTrue (Fo.uses_sheets (sheet cells.now) b)) places.now a) }
    ensures none { IfNone result (list_any (Fo.uses_sheets (sheet cells.now)) places.now ≡ false) }
{
    for a in places {
        if uses_sheets(cells, *a) {
            return Some(*a);
        }
    }
    None
}
