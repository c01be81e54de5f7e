//! Elements by their places, and by what stands beside them.
ghost use Rattle.std.specs.Prelude.{◌≡◌, IsTrue, IfOk, OnOk, Ok};
ghost use Rattle.gl_calculus.specs.Evaluation.Sound.{is_sound_scalar, is_sound_value};
ghost use Rattle.gl_calculus.specs.Values.Value.{elements};
ghost use Rattle.gl_calculus.specs.Values.Value as V;
ghost use Rattle.gl_calculus.specs.Values.Lift as L;
ghost use Rattle.gl_calculus.specs.Values.Functions as F;
ghost use Rattle.gl_value.specs.View.{scalar_tree, value_tree};
ghost use Rattle.gl_arrays.specs.{Answers.continued, Parts.are_columns};

use crate::arguments::{from_one, no_error, number};
use crate::columns::{agrees_at, is_column_beside};
use gl_lift::{element, extents};
use gl_plane::{NoMemory, Share};
use gl_value::{ErrKind, Scalar, Value};
use std::alloc::Global;

/// The element at a row and a column, from 0, shared; `#N/A` beyond the extents.
pub fn item(v: &Value, i: u16, j: u16) -> Result<Scalar, NoMemory>
    requires { IsTrue (is_sound_value (value_tree v.now)) }
    ensures sound { IfOk result (λ x. IsTrue (is_sound_scalar (scalar_tree x))) }
    ensures value { IfOk result (λ x. scalar_tree x ≡ L.item (value_tree v.now) i j) }
{
    match element(v, i, j) {
        Some(x) => x.share(),
        None => Ok(Scalar::Err(ErrKind::Na)),
    }
}

/// The place that INDEX means, from 0.
fn place(v: &Value, r: &Value, c: &Value) -> Result<(u16, u16), ErrKind>
    ensures { continued (λ p. Ok (V.Value.One (L.item (value_tree v.now) p.0 p.1))) result
        ≡ F.index (value_tree v.now) (value_tree r.now) (value_tree c.now) }
{
    no_error(v)?;
    let row = number(r)?;
    let col = number(c)?;
    let (rows, cols) = extents(v);
    Ok((from_one(row, rows)?, from_one(col, cols)?))
}

/// INDEX: the element in a row and a column, from 1. A scalar error of the first argument comes
/// first, then those of the numbers; outside the extents it is `#REF!`.
pub fn index(_alloc: Global, v: &Value, r: &Value, c: &Value) -> Result<Scalar, NoMemory>
    requires value { IsTrue (is_sound_value (value_tree v.now)) }
    ensures sound { IfOk result (λ x. IsTrue (is_sound_scalar (scalar_tree x))) }
    ensures value { IfOk result (λ x. V.Value.One (scalar_tree x)
        ≡ F.value_or_error (F.index (value_tree v.now) (value_tree r.now) (value_tree c.now))) }
{
    match place(v, r, c) {
        Ok((i, j)) => item(v, i, j),
        Err(k) => Ok(Scalar::Err(k)),
    }
}

/// What LOOKUP looks for: any scalar but an error or a sheet value.
fn sought(x: &Value) -> Result<&Scalar, ErrKind>
    ensures { continued (λ s. Ok (scalar_tree s.now)) result ≡ F.sought (value_tree x.now) }
{
    match x {
        Value::One(Scalar::Err(k)) => Err(*k),
        Value::One(Scalar::Sheet(_)) => Err(ErrKind::Value),
        Value::One(s) => Ok(s),
        Value::Array(_) => Err(ErrKind::Value),
    }
}

/// What LOOKUP looks for, where the keys and the values are columns with equally many rows.
fn sought_in<'a>(x: &'a Value, keys: &Value, values: &Value) -> Result<&'a Scalar, ErrKind>
    ensures columns { OnOk result (
        IsTrue (are_columns (value_tree keys.now) (value_tree values.now))) }
    ensures value { continued
        (λ s.
        Ok
        (V.Value.One
        (F.looked_up (scalar_tree s.now) (elements (value_tree keys.now))
        (elements (value_tree values.now))))) result
        ≡ F.lookup (value_tree x.now) (value_tree keys.now) (value_tree values.now) }
{
    let s = sought(x)?;
    no_error(keys)?;
    no_error(values)?;
    if is_column_beside(keys, values) && is_column_beside(values, keys) {
        Ok(s)
    } else {
        Err(ErrKind::Value)
    }
}

/// The value in the first row whose key agrees with the scalar, shared; `#N/A` where there is none.
fn looked_up(x: &Scalar, keys: &Value, values: &Value) -> Result<Scalar, NoMemory>
    requires columns { IsTrue (are_columns (value_tree keys.now) (value_tree values.now)) }
    requires keys { IsTrue (is_sound_value (value_tree keys.now)) }
    requires values { IsTrue (is_sound_value (value_tree values.now)) }
    ensures sound { IfOk result (λ y. IsTrue (is_sound_scalar (scalar_tree y))) }
    ensures value { IfOk result (λ y.
        scalar_tree y
        ≡ F.looked_up (scalar_tree x.now) (elements (value_tree keys.now))
        (elements (value_tree values.now))) }
{
    let (rows, _) = extents(keys);
    for i in 0..rows {
        if agrees_at(keys, i, x) {
            return item(values, i, 0);
        }
    }
    Ok(Scalar::Err(ErrKind::Na))
}

/// LOOKUP: the value in the first row whose key agrees with the first argument under `=`, or
/// `#N/A`.
///
/// An error of the first argument passes, and a sheet value or an array there is `#VALUE!`. Then
/// come scalar errors of the keys and of the values, which must both have one column and equally
/// many rows, or else the result is `#VALUE!`.
pub fn lookup(_alloc: Global, x: &Value, keys: &Value, values: &Value) -> Result<Scalar, NoMemory>
    requires keys { IsTrue (is_sound_value (value_tree keys.now)) }
    requires values { IsTrue (is_sound_value (value_tree values.now)) }
    ensures sound { IfOk result (λ y. IsTrue (is_sound_scalar (scalar_tree y))) }
    ensures value { IfOk result (λ y.
        V.Value.One (scalar_tree y)
        ≡ F.value_or_error
        (F.lookup (value_tree x.now) (value_tree keys.now) (value_tree values.now))) }
{
    match sought_in(x, keys, values) {
        Ok(s) => looked_up(s, keys, values),
        Err(k) => Ok(Scalar::Err(k)),
    }
}
