//! Rows that a column of truths keeps.
ghost use Rattle.std.specs.Prelude.{◌≡◌, ◌≤◌, IsTrue, IfOk, OnOk, Ok, vec_len, option_map, filter, map};
ghost use Rattle.std.specs.List.{items_where_true, range_with_len};
ghost use Rattle.gl_calculus.specs.Grid.Limits.{max_cells};
ghost use Rattle.gl_calculus.specs.Values.Value.{elements};
ghost use Rattle.gl_calculus.specs.Values.Lift.{shape};
ghost use Rattle.gl_calculus.specs.Evaluation.Sound.{is_sound_value};
ghost use Rattle.gl_calculus.specs.Values.ErrKind as E;
ghost use Rattle.gl_calculus.specs.Values.Lift as L;
ghost use Rattle.gl_calculus.specs.Values.Functions as F;
ghost use Rattle.gl_value.specs.View.{error_tree, value_tree};
ghost use Rattle.gl_arrays.specs.{Answers.continued, Parts.column_from, Parts.keeps_row};

use crate::arguments::no_error;
use crate::columns::is_column_beside;
use crate::rows::listed_rows;
use gl_lift::{element, extents};
use gl_plane::NoMemory;
use gl_value::{ErrKind, Scalar, Value};
use std::alloc::Global;

/// What makes the first element of a row no truth: all but a truth value or a blank.
fn fault_at(keep: &Value, i: u16) -> Option<ErrKind>
    requires { IsTrue (is_sound_value (value_tree keep.now)) }
    ensures { option_map error_tree result ≡ F.truth_fault (L.item (value_tree keep.now) i 0) }
{
    match element(keep, i, 0) {
        Some(Scalar::Blank) => None,
        Some(Scalar::Bool(_)) => None,
        Some(Scalar::Err(k)) => Some(*k),
        Some(_) => Some(ErrKind::Value),
        None => Some(ErrKind::Na),
    }
}

/// The first element of a row is TRUE.
fn keeps_at(keep: &Value, i: u16) -> bool
    requires { IsTrue (is_sound_value (value_tree keep.now)) }
    ensures { result ≡ keeps_row (value_tree keep.now) i }
{
    match element(keep, i, 0) {
        Some(Scalar::Bool(b)) => *b,
        _ => false,
    }
}

/// The fault of the first element of a column that has one.
fn no_fault(keep: &Value) -> Result<(), ErrKind>
    requires { IsTrue (is_sound_value (value_tree keep.now)) }
    ensures { continued (λ u. Ok u) result
        ≡ F.no_fault
        (F.first_fault F.truth_fault
        (column_from (value_tree keep.now) 0 (shape (value_tree keep.now)).rows)) }
{
    let rows = extents(keep).0;
    for i in 0..rows {
        match fault_at(keep, i) {
            Some(k) => return Err(k),
            None => {}
        }
    }
    Ok(())
}

/// The rows whose element is TRUE, from 0.
fn kept_rows(alloc: Global, keep: &Value) -> Result<Vec<u16>, NoMemory>
    requires { IsTrue (is_sound_value (value_tree keep.now)) }
    ensures few { IfOk result (λ ks. vec_len ks ≤ max_cells) }
    ensures rows { IfOk result (λ ks.
        ks.items
        ≡ filter (keeps_row (value_tree keep.now))
        (range_with_len 0 (shape (value_tree keep.now)).rows)) }
{
    let rows = extents(keep).0;
    let mut kept = Vec::new(alloc);
    for i in 0..rows {
        if keeps_at(keep, i) {
            kept.push(i)?;
        }
    }
    Ok(kept)
}

/// The tests of FILTER, in their order.
fn can_filter(v: &Value, keep: &Value) -> Result<(), ErrKind>
    requires { IsTrue (is_sound_value (value_tree keep.now)) }
    ensures column { OnOk result (
        IsTrue (F.is_column_beside (value_tree keep.now) (value_tree v.now))) }
    ensures value { continued
        (λ u.
        F.some_rows E.ErrKind.Na
        (items_where_true
        (map F.keeps (elements (value_tree keep.now))) (L.rows (value_tree v.now)))) result
        ≡ F.filter_rows (value_tree v.now) (value_tree keep.now) }
{
    no_error(v)?;
    no_error(keep)?;
    if !is_column_beside(keep, v) {
        return Err(ErrKind::Value);
    }
    no_fault(keep)
}

/// The array of the rows whose element of the column is TRUE; `#N/A` where there is none.
fn filtered(alloc: Global, v: &Value, keep: &Value) -> Result<Value, NoMemory>
    requires column { IsTrue (F.is_column_beside (value_tree keep.now) (value_tree v.now)) }
    requires value { IsTrue (is_sound_value (value_tree v.now)) }
    requires keep { IsTrue (is_sound_value (value_tree keep.now)) }
    ensures sound { IfOk result (λ r. IsTrue (is_sound_value (value_tree r))) }
    ensures value { IfOk result (λ r.
        value_tree r
        ≡ F.value_or_error
        (F.some_rows E.ErrKind.Na
        (items_where_true
        (map F.keeps (elements (value_tree keep.now))) (L.rows (value_tree v.now))))) }
{
    let kept = kept_rows(alloc, keep)?;
    if kept.len() == 0 {
        return Ok(Value::One(Scalar::Err(ErrKind::Na)));
    }
    listed_rows(alloc, v, &kept)
}

/// FILTER: the rows whose element of the second argument is TRUE.
///
/// A scalar error of the first argument comes first, then one of the second. The second must have
/// one column and the first's rows, or else the result is `#VALUE!`; then the first of its elements
/// that is an error, or `#VALUE!` for one that is neither a truth value nor blank, is the result. A
/// blank counts as FALSE. No row gives `#N/A`. The result is an array, also of a scalar.
pub fn filter(alloc: Global, v: &Value, keep: &Value) -> Result<Value, NoMemory>
    requires value { IsTrue (is_sound_value (value_tree v.now)) }
    requires keep { IsTrue (is_sound_value (value_tree keep.now)) }
    ensures sound { IfOk result (λ r. IsTrue (is_sound_value (value_tree r))) }
    ensures value { IfOk result (λ r.
        value_tree r ≡ F.value_or_error (F.filter_rows (value_tree v.now) (value_tree keep.now))) }
{
    match can_filter(v, keep) {
        Ok(()) => filtered(alloc, v, keep),
        Err(k) => Ok(Value::One(Scalar::Err(k))),
    }
}
