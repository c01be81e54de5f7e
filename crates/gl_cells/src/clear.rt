//! Removal of a range.
ghost use Rattle.std.specs.Prelude.{◌≡◌, ◌≤◌, ◌+◌, not, filter, length};
ghost use Rattle.gl_calculus.specs.Grid.Grid.{covers};
ghost use Rattle.gl_cells.specs.Sheet.{IsTable};

use crate::contents::Contents;
use crate::search::next_in;
use crate::table::remove_in;
use gl_plane::Range;

/// Removes the contents of the range one by one, each found from the one before, and counts them.
pub fn clear_in(map: &mut Contents, forms: &mut usize, r: &Range) -> usize
    requires table { IsTable map.old forms.old }
    ensures cleared { map.new ≡ filter (λ e. not (covers r.now e.0)) map.old }
    ensures count { result + length map.new ≡ length map.old }
    ensures fewer { forms.new ≤ forms.old }
    ensures table { IsTable map.new forms.new }
{
    let _len = map.len();
    let mut count = 0usize;
    let mut after = None;
    while let Some(a) = next_in(map, r, after) {
        let _ = remove_in(map, forms, a);
        count += 1;
        after = Some(a);
    }
    count
}
