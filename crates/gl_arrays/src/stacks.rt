//! Arrays one under the other, and side by side.
ghost use Rattle.std.specs.Prelude.{◌≡◌, ◌≤◌, IsTrue, IfOk, All, length, map};
ghost use Rattle.gl_calculus.specs.Grid.Limits.{max_arguments};
ghost use Rattle.gl_calculus.specs.Evaluation.Sound.{is_sound_scalar};
ghost use Rattle.gl_calculus.specs.Evaluation.Sound.{is_sound_value};
ghost use Rattle.gl_calculus.specs.Values.Functions as F;
ghost use Rattle.gl_value.specs.View.{scalar_tree, value_tree};
ghost use Rattle.gl_arrays.specs.Stacks as S;

use crate::elements::item;
use crate::sequences::fitting;
use gl_lift::{extents, table};
use gl_plane::NoMemory;
use gl_value::{ErrKind, Scalar, Value};
use std::alloc::Global;

/// How values stand: one under the other, or side by side.
#[derive(Clone, Copy)]
enum Axis {
    Rows,
    Columns,
}

/// How many rows or columns a value has.
fn extent(axis: Axis, v: &Value) -> u16
    ensures { result ≡ S.extent axis (value_tree v.now) }
{
    let (rows, cols) = extents(v);
    match axis {
        Axis::Rows => rows,
        Axis::Columns => cols,
    }
}

/// How many rows or columns the values have together.
fn total(axis: Axis, parts: &[Value]) -> u64
    requires { length parts.now ≤ max_arguments }
    ensures { result ≡ S.total axis (map value_tree parts.now) }
{
    let mut total: u64 = 0;
    for v in parts {
        total += u64::from(extent(axis, v));
    }
    total
}

/// The greatest number of rows or columns.
fn greatest(axis: Axis, parts: &[Value]) -> u16
    ensures { result ≡ S.greatest axis (map value_tree parts.now) }
{
    let mut most: u16 = 0;
    for v in parts {
        most = most.max(extent(axis, v));
    }
    most
}

/// The element at a place along the axis and one across it, shared; `#N/A` beyond the extents.
fn item_along(axis: Axis, v: &Value, at: u16, across: u16) -> Result<Scalar, NoMemory>
    requires { IsTrue (is_sound_value (value_tree v.now)) }
    ensures sound { IfOk result (λ x. IsTrue (is_sound_scalar (scalar_tree x))) }
    ensures value { IfOk result (λ x.
        scalar_tree x ≡ S.item_along axis (value_tree v.now) at across) }
{
    match axis {
        Axis::Rows => item(v, at, across),
        Axis::Columns => item(v, across, at),
    }
}

/// The element at a place along the axis on which the values stand and one across it, shared;
/// `#N/A` where a value does not reach so far across.
fn stacked(axis: Axis, parts: &[Value], at: u16, across: u16) -> Result<Scalar, NoMemory>
    requires { All (λ v. IsTrue (is_sound_value (value_tree v))) parts.now }
    ensures sound { IfOk result (λ x. IsTrue (is_sound_scalar (scalar_tree x))) }
    ensures value { IfOk result (λ x.
        scalar_tree x ≡ S.stacked axis (map value_tree parts.now) at across) }
{
    let mut at = at;
    for v in parts {
        let extent = extent(axis, v);
        if at < extent {
            return item_along(axis, v, at, across);
        }
        at -= extent;
    }
    Ok(Scalar::Err(ErrKind::Na))
}

/// VSTACK: the arrays one under the other, with the greatest number of columns.
///
/// An element is `#N/A` where its array has fewer columns. Scalars count as arrays of one element,
/// errors too. More than 10,000 cells are `#SIZE!`.
pub fn vstack(alloc: Global, parts: &[Value]) -> Result<Value, NoMemory>
    requires { S.AreStackable parts.now }
    ensures sound { IfOk result (λ r. IsTrue (is_sound_value (value_tree r))) }
    ensures value { IfOk result (λ r. value_tree r ≡ F.vstack (map value_tree parts.now)) }
{
    let cols = u64::from(greatest(Axis::Columns, parts));
    match fitting(total(Axis::Rows, parts), cols) {
        Some((m, n)) => table(alloc, m, n, |i, j| stacked(Axis::Rows, parts, i, j)),
        None => Ok(Value::One(Scalar::Err(ErrKind::Size))),
    }
}

/// HSTACK: the arrays side by side, with the greatest number of rows.
///
/// An element is `#N/A` where its array has fewer rows. Scalars count as arrays of one element,
/// errors too. More than 10,000 cells are `#SIZE!`.
pub fn hstack(alloc: Global, parts: &[Value]) -> Result<Value, NoMemory>
    requires { S.AreStackable parts.now }
    ensures sound { IfOk result (λ r. IsTrue (is_sound_value (value_tree r))) }
    ensures value { IfOk result (λ r. value_tree r ≡ F.hstack (map value_tree parts.now)) }
{
    let rows = u64::from(greatest(Axis::Rows, parts));
    match fitting(rows, total(Axis::Columns, parts)) {
        Some((m, n)) => table(alloc, m, n, |i, j| stacked(Axis::Columns, parts, j, i)),
        None => Ok(Value::One(Scalar::Err(ErrKind::Size))),
    }
}
