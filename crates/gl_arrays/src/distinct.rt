//! Rows without those that stand before.
ghost use Rattle.std.specs.Prelude.{◌≡◌, ◌≤◌, IsTrue, IfOk, vec_len, map};
ghost use Rattle.gl_calculus.specs.Grid.Limits.{max_cells};
ghost use Rattle.gl_calculus.specs.Values.Lift.{from_rows};
ghost use Rattle.gl_calculus.specs.Evaluation.Sound.{is_sound_value};
ghost use Rattle.gl_calculus.specs.Values.Lift as L;
ghost use Rattle.gl_calculus.specs.Values.Functions as F;
ghost use Rattle.gl_value.specs.View.{scalar_tree, value_tree};
ghost use lib.Pointwise.{pointwise};
ghost use Rattle.gl_calculus.specs.{Computation.Lists.distinct, Values.Same.same_scalar};
ghost use Rattle.gl_arrays.specs.Parts.{row};

use crate::elements::item;
use crate::rows::listed_rows;
use gl_lift::extents;
use gl_plane::{NoMemory, Share};
use gl_value::{Scalar, Value};
use indexmap::IndexSet;
use std::alloc::Global;

/// The elements of a row, shared.
fn row_of(alloc: Global, v: &Value, i: u16) -> Result<Vec<Scalar>, NoMemory>
    requires { IsTrue (is_sound_value (value_tree v.now)) }
    ensures { IfOk result (λ xs. map scalar_tree xs.items ≡ row (value_tree v.now) i) }
{
    let cols = extents(v).1;
    let mut items = Vec::new(alloc);
    for j in 0..cols {
        items.push(item(v, i, j)?)?;
    }
    Ok(items)
}

/// The places, from 0, of the rows that equal no row before them. Each row is looked up by its hash.
fn new_rows(alloc: Global, v: &Value) -> Result<Vec<u16>, NoMemory>
    requires { IsTrue (is_sound_value (value_tree v.now)) }
    ensures few { IfOk result (λ ks. vec_len ks ≤ max_cells) }
    ensures some { IfOk result (λ ks. 1 ≤ vec_len ks) }
    ensures rows { IfOk result (λ ks.
        map (row (value_tree v.now)) ks.items
        ≡ distinct (pointwise same_scalar) (L.rows (value_tree v.now))) }
{
    let rows = extents(v).0;
    let mut seen = IndexSet::new(alloc);
    let mut new = Vec::new(alloc);
    for i in 0..rows {
        if seen.insert(row_of(alloc, v, i)?)? {
            new.push(i)?;
        }
    }
    Ok(new)
}

/// The array of the distinct rows.
fn distinct(alloc: Global, v: &Value) -> Result<Value, NoMemory>
    requires { IsTrue (is_sound_value (value_tree v.now)) }
    ensures sound { IfOk result (λ r. IsTrue (is_sound_value (value_tree r))) }
    ensures value { IfOk result (λ r.
        value_tree r
        ≡ from_rows (distinct (pointwise same_scalar) (L.rows (value_tree v.now)))) }
{
    let rows = new_rows(alloc, v)?;
    listed_rows(alloc, v, &rows)
}

/// UNIQUE: an array's distinct rows in the order of their first occurrence, equal by structure; a
/// scalar as it is, an error too.
pub fn unique(alloc: Global, v: &Value) -> Result<Value, NoMemory>
    requires { IsTrue (is_sound_value (value_tree v.now)) }
    ensures sound { IfOk result (λ r. IsTrue (is_sound_value (value_tree r))) }
    ensures value { IfOk result (λ r. value_tree r ≡ F.unique (value_tree v.now)) }
{
    match v {
        Value::One(x) => Ok(Value::One(x.share()?)),
        Value::Array(_) => distinct(alloc, v),
    }
}
