//! Numbered arrays, and arrays with rows and columns exchanged.
ghost use Rattle.std.specs.Prelude.{◌≡◌, ◌≤◌, ◌<◌, ◌+◌, ◌*◌, IsTrue, IfOk, IfSome, IfNone, Ok};
ghost use Rattle.gl_calculus.specs.Grid.Limits.{max_cells};
ghost use Rattle.gl_calculus.specs.Grid.Grid.{size};
ghost use Rattle.gl_calculus.specs.Evaluation.Sound.{is_sound_value};
ghost use Rattle.gl_calculus.specs.Values.Lift as L;
ghost use Rattle.gl_calculus.specs.Values.Functions as F;
ghost use Rattle.gl_value.specs.View.{scalar_tree, value_tree};
ghost use Rattle.gl_arrays.specs.{Answers.continued, Parts.numbered};

use crate::arguments::{number, positive};
use crate::elements::item;
use gl_lift::{extents, table};
use gl_plane::{NoMemory, Share};
use gl_value::{ErrKind, Scalar, Value};
use std::alloc::Global;

/// The most cells that an array has.
const MAX_CELLS: u64 = gl_plane::MAX_CELLS as u64;

/// The extents as small numbers: `None` only where an array of them would be too large.
pub fn fitting(rows: u64, cols: u64) -> Option<(u16, u16)>
    requires some_rows { 1 ≤ rows }
    requires some_cols { 1 ≤ cols }
    ensures some { IfSome result (λ s. (s.0 ≡ rows) × (s.1 ≡ cols)) }
    ensures none { IfNone result (max_cells < rows * cols) }
{
    if rows <= MAX_CELLS && cols <= MAX_CELLS {
        Some((rows as u16, cols as u16))
    } else {
        None
    }
}

/// The extents that SEQUENCE is called with.
fn extents_of(m: &Value, n: &Value) -> Result<(u64, u64), ErrKind>
    ensures positive { IfOk result (λ s. (1 ≤ s.0) × (1 ≤ s.1)) }
    ensures value { continued (λ s. Ok (L.table (size s.0 s.1) (numbered s.1))) result
        ≡ F.sequence (value_tree m.now) (value_tree n.now) }
{
    let rows = number(m)?;
    let cols = number(n)?;
    let rows = positive(rows)?;
    let cols = positive(cols)?;
    Ok((rows, cols))
}

/// The number at a place of an array that counts its elements from 1.
fn counted(cols: u16, i: u16, j: u16) -> Scalar
    ensures { scalar_tree result ≡ numbered cols i j }
{
    Scalar::Int(i64::from(i) * i64::from(cols) + i64::from(j) + 1)
}

/// The array of these extents that counts its elements, or `#SIZE!`.
fn counting(alloc: Global, rows: u64, cols: u64) -> Result<Value, NoMemory>
    requires some_rows { 1 ≤ rows }
    requires some_cols { 1 ≤ cols }
    ensures sound { IfOk result (λ r. IsTrue (is_sound_value (value_tree r))) }
    ensures value { IfOk result (λ r. value_tree r ≡ L.table (size rows cols) (numbered cols)) }
{
    match fitting(rows, cols) {
        Some((m, n)) => table(alloc, m, n, |i, j| Ok(counted(n, i, j))),
        None => Ok(Value::One(Scalar::Err(ErrKind::Size))),
    }
}

/// SEQUENCE: the array of m rows and n columns of 1, 2 and so on in row-major order.
///
/// Errors of the numbers come first, then `#VALUE!` where one is below 1, and then `#SIZE!` of more
/// than 10,000 cells.
pub fn sequence(alloc: Global, m: &Value, n: &Value) -> Result<Value, NoMemory>
    ensures sound { IfOk result (λ r. IsTrue (is_sound_value (value_tree r))) }
    ensures value { IfOk result (λ r.
        value_tree r ≡ F.value_or_error (F.sequence (value_tree m.now) (value_tree n.now))) }
{
    match extents_of(m, n) {
        Ok((rows, cols)) => counting(alloc, rows, cols),
        Err(k) => Ok(Value::One(Scalar::Err(k))),
    }
}

/// TRANSPOSE: an array with rows and columns exchanged; a scalar as it is, an error too.
pub fn transpose(alloc: Global, v: &Value) -> Result<Value, NoMemory>
    requires { IsTrue (is_sound_value (value_tree v.now)) }
    ensures sound { IfOk result (λ r. IsTrue (is_sound_value (value_tree r))) }
    ensures value { IfOk result (λ r. value_tree r ≡ F.transpose (value_tree v.now)) }
{
    match v {
        Value::Array(_) => {
            let (rows, cols) = extents(v);
            table(alloc, cols, rows, |i, j| item(v, j, i))
        }
        Value::One(x) => Ok(Value::One(x.share()?)),
    }
}
