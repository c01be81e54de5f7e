//! Parts of an array: some of its rows and columns.
ghost use Rattle.std.specs.Prelude.{◌≡◌, ◌+◌, IsTrue, IfOk, min};
ghost use Rattle.gl_calculus.specs.Evaluation.Sound.{is_sound_scalar, is_sound_value};
ghost use Rattle.gl_calculus.specs.Values.ErrKind as E;
ghost use Rattle.gl_calculus.specs.Values.Lift as L;
ghost use Rattle.gl_calculus.specs.Values.Functions as F;
ghost use Rattle.gl_value.specs.View.{scalar_tree, value_tree};
ghost use Rattle.gl_arrays.specs.Parts.{kept_start, kept_count, left_start, left_count, start_of};
ghost use Rattle.gl_arrays.specs.Parts.{count_of, rule_of, window, IsPart};
ghost use Rattle.gl_arrays.specs.Answers.{continued};

use crate::arguments::{no_error, number};
use crate::elements::item;
use gl_lift::{extents, table};
use gl_plane::NoMemory;
use gl_value::{ErrKind, Scalar, Value};
use std::alloc::Global;

/// Some rows or columns that stand side by side: the first, from 0, and how many there are.
#[derive(Clone, Copy)]
struct Span {
    start: u16,
    count: u16,
}

/// Which rows and columns are meant: those that TAKE keeps, or those that DROP leaves.
#[derive(Clone, Copy)]
enum Part {
    Kept,
    LeftOver,
}

/// The number, or the extent where that is smaller.
fn up_to(n: u64, extent: u16) -> u16
    ensures { result ≡ min n extent }
{
    if n < u64::from(extent) {
        n as u16
    } else {
        extent
    }
}

/// The rows or columns that TAKE keeps: the first, or the last where the number is negative.
fn kept(n: i64, extent: u16) -> Span
    ensures start { result.start ≡ kept_start n extent }
    ensures count { result.count ≡ kept_count n extent }
{
    let count = up_to(n.unsigned_abs(), extent);
    let start = if n < 0 { extent - count } else { 0 };
    Span { start, count }
}

/// The rows or columns that DROP leaves.
fn left_over(n: i64, extent: u16) -> Span
    ensures start { result.start ≡ left_start n extent }
    ensures count { result.count ≡ left_count n extent }
{
    let gone = up_to(n.unsigned_abs(), extent);
    let start = if n < 0 { 0 } else { gone };
    Span {
        start,
        count: extent - gone,
    }
}

/// The rows or columns that are meant by a number.
fn span_of(part: Part, n: i64, extent: u16) -> Span
    ensures start { result.start ≡ start_of part n extent }
    ensures count { result.count ≡ count_of part n extent }
{
    match part {
        Part::Kept => kept(n, extent),
        Part::LeftOver => left_over(n, extent),
    }
}

/// The element so many rows and columns after a place, shared; `#N/A` beyond the extents.
fn item_after(v: &Value, row: u16, col: u16, i: u16, j: u16) -> Result<Scalar, NoMemory>
    requires { IsTrue (is_sound_value (value_tree v.now)) }
    ensures sound { IfOk result (λ x. IsTrue (is_sound_scalar (scalar_tree x))) }
    ensures value { IfOk result (λ x.
        scalar_tree x ≡ L.item (value_tree v.now) (row + i) (col + j)) }
{
    match row.checked_add(i) {
        Some(r) => match col.checked_add(j) {
            Some(c) => item(v, r, c),
            None => Ok(Scalar::Err(ErrKind::Na)),
        },
        None => Ok(Scalar::Err(ErrKind::Na)),
    }
}

/// The array of these rows and columns of a value; `#VALUE!` where there are none.
fn window(alloc: Global, v: &Value, rows: Span, cols: Span) -> Result<Value, NoMemory>
    requires { IsTrue (is_sound_value (value_tree v.now)) }
    ensures sound { IfOk result (λ r. IsTrue (is_sound_value (value_tree r))) }
    ensures value { IfOk result (λ r.
        value_tree r
        ≡ F.value_or_error
        (F.some_rows E.ErrKind.Value
        (window (value_tree v.now) rows.start rows.count cols.start cols.count))) }
{
    if rows.count == 0 || cols.count == 0 {
        return Ok(Value::One(Scalar::Err(ErrKind::Value)));
    }
    let (row, col) = (rows.start, cols.start);
    table(alloc, rows.count, cols.count, |i, j| {
        item_after(v, row, col, i, j)
    })
}

/// The rows and columns that are meant by two numbers.
fn spans(part: Part, v: &Value, m: &Value, n: &Value) -> Result<(Span, Span), ErrKind>
    requires { IsTrue (is_sound_value (value_tree v.now)) }
    ensures { continued
        (λ s.
        F.some_rows E.ErrKind.Value
        (window (value_tree v.now) s.0.start s.0.count s.1.start s.1.count)) result
        ≡ F.part_of (rule_of part) (rule_of part)
        (value_tree v.now) (value_tree m.now) (value_tree n.now) }
{
    no_error(v)?;
    let m = number(m)?;
    let n = number(n)?;
    let (rows, cols) = extents(v);
    Ok((span_of(part, m, rows), span_of(part, n, cols)))
}

/// The array of the rows and columns that are meant by two numbers.
fn part_of(alloc: Global, part: Part, v: &Value, m: &Value, n: &Value) -> Result<Value, NoMemory>
    requires { IsTrue (is_sound_value (value_tree v.now)) }
    ensures sound { IfOk result (λ r. IsTrue (is_sound_value (value_tree r))) }
    ensures value { IsPart result (rule_of part) (rule_of part) v.now m.now n.now }
{
    match spans(part, v, m, n) {
        Ok((rows, cols)) => window(alloc, v, rows, cols),
        Err(k) => Ok(Value::One(Scalar::Err(k))),
    }
}

/// TAKE: the first m rows, or the last where m is negative, all where there are fewer; and n
/// columns in the same way.
///
/// A scalar error of the value comes first, then errors of the numbers, and `#VALUE!` where one is
/// 0. The result is an array, also of a scalar.
pub fn take(alloc: Global, v: &Value, m: &Value, n: &Value) -> Result<Value, NoMemory>
    requires value { IsTrue (is_sound_value (value_tree v.now)) }
    ensures sound { IfOk result (λ r. IsTrue (is_sound_value (value_tree r))) }
    ensures value { IsPart result F.kept F.kept v.now m.now n.now }
{
    part_of(alloc, Part::Kept, v, m, n)
}

/// DROP: what is left when the first m rows, or the last where m is negative, and n columns in the
/// same way, are taken away.
///
/// A scalar error of the value comes first, then errors of the numbers, and `#VALUE!` where nothing
/// is left. The result is an array, also of a scalar.
pub fn drop_part(alloc: Global, v: &Value, m: &Value, n: &Value) -> Result<Value, NoMemory>
    requires value { IsTrue (is_sound_value (value_tree v.now)) }
    ensures sound { IfOk result (λ r. IsTrue (is_sound_value (value_tree r))) }
    ensures value { IsPart result F.left_over F.left_over v.now m.now n.now }
{
    part_of(alloc, Part::LeftOver, v, m, n)
}
