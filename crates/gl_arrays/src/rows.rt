//! Some of the rows of a value.
ghost use Rattle.std.specs.Prelude.{◌≡◌, ◌≤◌, IsTrue, IfOk, length, map};
ghost use Rattle.gl_calculus.specs.Grid.Limits.{max_cells};
ghost use Rattle.gl_calculus.specs.Values.Lift.{from_rows};
ghost use Rattle.gl_calculus.specs.Evaluation.Sound.{is_sound_scalar};
ghost use Rattle.gl_calculus.specs.Evaluation.Sound.{is_sound_value};
ghost use Rattle.gl_value.specs.View.{scalar_tree, value_tree};
ghost use Rattle.gl_arrays.specs.Parts.{picked, row};

use crate::elements::item;
use gl_lift::{extents, table};
use gl_plane::NoMemory;
use gl_value::{ErrKind, Scalar, Value};
use std::alloc::Global;

/// The element in a column of the row that is listed at a place, shared.
fn item_in(v: &Value, rows: &[u16], i: u16, j: u16) -> Result<Scalar, NoMemory>
    requires { IsTrue (is_sound_value (value_tree v.now)) }
    ensures sound { IfOk result (λ x. IsTrue (is_sound_scalar (scalar_tree x))) }
    ensures value { IfOk result (λ x. scalar_tree x ≡ picked (value_tree v.now) rows.now i j) }
{
    match rows.get(usize::from(i)) {
        Some(row) => item(v, *row, j),
        None => Ok(Scalar::Err(ErrKind::Na)),
    }
}

/// The array of the rows that are listed, from 0.
pub fn listed_rows(alloc: Global, v: &Value, rows: &[u16]) -> Result<Value, NoMemory>
    requires sound { IsTrue (is_sound_value (value_tree v.now)) }
    requires some { 1 ≤ length rows.now }
    requires few { length rows.now ≤ max_cells }
    ensures sound { IfOk result (λ r. IsTrue (is_sound_value (value_tree r))) }
    ensures value { IfOk result (λ r.
        value_tree r ≡ from_rows (map (row (value_tree v.now)) rows.now)) }
{
    let cols = extents(v).1;
    table(alloc, rows.len() as u16, cols, |i, j| {
        item_in(v, rows, i, j)
    })
}
