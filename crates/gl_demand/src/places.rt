//! The addresses of a sheet value's region that have content.
ghost use Rattle.std.specs.Prelude.{◌≡◌, ◌*◌, ◌≤◌, [], IsTrue, IfOk, length, option_map};
ghost use Rattle.gl_calculus.specs.Grid.Limits.{grid_rows, grid_cols};
ghost use Rattle.gl_calculus.specs.Values.Value.{In};
ghost use Rattle.gl_calculus.specs.Formulas.Formula.{content};
ghost use Rattle.gl_calculus.specs.Evaluation.Reference.{own_content, content_in};
ghost use Rattle.gl_calculus.specs.Evaluation.Sound.{is_sound_sheet};
ghost use Rattle.gl_cells.specs.Sheet.{sheet};
ghost use Rattle.gl_value.specs.View.{sheet_tree};
ghost use Rattle.gl_demand.specs.{Held.held_tree, Places.filled_places};

use crate::filling::next_filled;
use crate::held::{Held, content_in};
use gl_cells::Cells;
use gl_plane::{Addr, NoMemory};
use gl_value::SheetVal;
use std::alloc::Global;

/// What an address holds in a frame of the sheet value.
#[tactic(auto, using(gl_value::specs::Forms::trees))]
pub fn held_in<'a>(cells: &'a Cells, s: &'a SheetVal, a: Addr) -> Option<Held<'a>>
    requires { IsTrue (is_sound_sheet (sheet_tree s.now)) }
    ensures { option_map held_tree result
        ≡ own_content (content (sheet cells.now) a) (In (sheet_tree s.now) []) a }
{
    if s.region.covers(a) {
        nearest(cells, s, a)
    } else {
        None
    }
}

/// What the sheet value, the frames outward or the sheet hold at an address.
#[tactic(auto, using(gl_value::specs::Forms::trees, crate::proofs::Frames::parent_sound))]
fn nearest<'a>(cells: &'a Cells, s: &'a SheetVal, a: Addr) -> Option<Held<'a>>
    requires { IsTrue (is_sound_sheet (sheet_tree s.now)) }
    ensures { option_map held_tree result
        ≡ content_in (content (sheet cells.now) a) (In (sheet_tree s.now) []) a }
{
    match s.get_override(a) {
        Some(v) => Some(Held::Value(v)),
        None => content_in(cells, &s.env, a),
    }
}

/// The addresses of the region that have content in a frame of the sheet value, in row-major
/// order. Each is found from the one before, so blank addresses cost nothing.
pub fn places(alloc: Global, cells: &Cells, s: &SheetVal) -> Result<Vec<Addr>, NoMemory>
    requires { IsTrue (is_sound_sheet (sheet_tree s.now)) }
    ensures all { IfOk result (λ v. v.items ≡ filled_places (sheet cells.now) (sheet_tree s.now)) }
    ensures few { IfOk result (λ v. length v.items ≤ grid_rows * grid_cols) }
{
    let _cells = s.region.cells();
    let mut found = Vec::new(alloc);
    let mut after = None;
    while let Some(a) = next_filled(cells, s, &s.region, &after) {
        found.push(a)?;
        after = Some(a);
    }
    Ok(found)
}
