//! Marks of the addresses that were touched.
ghost use Rattle.std.specs.Prelude.{◌≡◌, ◌≤◌, ◌+◌, ◌++◌, length, map, vec_len, vec_capacity, IfOk};
ghost use Rattle.gl_calculus.specs.Formulas.Formula.{IsSheet};
ghost use Rattle.gl_calculus.specs.Edits.Sheets.{places_in};
ghost use Rattle.gl_cells.specs.Sheet.{sheet};

use gl_cells::{Cells, Content};
use gl_plane::{Addr, NoMemory, Range};
use std::alloc::Global;

/// The addresses of contents, in order.
pub fn places_of(alloc: Global, list: &[(Addr, Content)]) -> Result<Vec<Addr>, NoMemory>
    ensures { IfOk result (λ v. v.items ≡ map (λ e. e.0) (sheet list.now)) }
{
    let mut places = Vec::with_capacity(alloc, list.len())?;
    for entry in list {
        places.push(entry.0)?;
    }
    Ok(places)
}

/// Marks these addresses. There is room for them.
pub fn mark_all(touched: &mut Vec<Addr>, places: &[Addr])
    requires { vec_len touched.old + length places.now ≤ vec_capacity touched.old }
    ensures items { touched.new.items ≡ touched.old.items ++ places.now }
    ensures len { vec_len touched.new ≡ vec_len touched.old + length places.now }
    ensures capacity { vec_capacity touched.new ≡ vec_capacity touched.old }
{
    for a in places {
        touched.push_reserved(*a);
    }
}

/// Marks the addresses of the contents in a range. There is room for them.
pub fn mark_in(touched: &mut Vec<Addr>, cells: &Cells, r: &Range)
    requires { vec_len touched.old + length (sheet cells.now) ≤ vec_capacity touched.old }
    ensures items { touched.new.items ≡ touched.old.items ++ places_in (sheet cells.now) r.now }
    ensures len { vec_len touched.new
        ≡ vec_len touched.old + length (places_in (sheet cells.now) r.now) }
    ensures capacity { vec_capacity touched.new ≡ vec_capacity touched.old }
    ensures ordered { IsSheet (sheet cells.now) }
{
    let mut after = None;
    for _ in 0..cells.contents() {
        match cells.next_in(r, after) {
            Some(a) => {
                touched.push_reserved(a);
                after = Some(a);
            }
            None => return,
        }
    }
}
