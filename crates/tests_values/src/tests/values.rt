//! Values as texts: a scalar as a cell shows it, an array in braces, as `{1 2 / 3 4}`.
ghost use Rattle.std.specs.Prelude.{IfOk, IsTrue};
ghost use Rattle.gl_calculus.specs.Evaluation.Sound.{is_sound_value};
ghost use Rattle.gl_funs.specs.Elements.{AreSound};
ghost use Rattle.gl_value.specs.View.{value_tree};

use gl_plane::NoMemory;
use gl_value::{Array, Scalar, Value};
use std::alloc::Global;
use std::rc::Rc;
use std::test::Fail;
use tests_common::{scalar, size, value_text};

/// The array of so many rows and columns.
pub fn array(alloc: Global, rows: u16, cols: u16, items: Vec<Scalar>) -> Result<Value, Fail> {
    let size = size(rows, cols)?;
    if items.len() != usize::from(size.rows()) * usize::from(size.cols()) {
        return Err(Fail::new("no array"));
    }
    let made = Array::new(size, items);
    Ok(Value::Array(Rc::new(alloc, made).map_err(NoMemory::from)?))
}

fn push_row(alloc: Global, items: &mut Vec<Scalar>, row: &str) -> Result<(), Fail> {
    for shown in row.split(' ') {
        items.push(scalar(alloc, shown)?).map_err(NoMemory::from)?;
    }
    Ok(())
}

/// The array of rows with ` / ` between them and spaces between their elements.
fn array_of(alloc: Global, text: &str) -> Result<Value, Fail> {
    let mut items = Vec::new(alloc);
    let mut rows: u16 = 0;
    for row in text.split(" / ") {
        push_row(alloc, &mut items, row)?;
        rows = rows.wrapping_add(1);
    }
    if rows == 0 {
        return Err(Fail::new("no rows"));
    }
    let cols = items.len() / usize::from(rows);
    let cols = u16::try_from(cols).map_err(|_| Fail::new("long rows"))?;
    array(alloc, rows, cols, items)
}

fn read(alloc: Global, text: &str) -> Result<Value, Fail> {
    let Some(rest) = text.strip_prefix('{') else {
        return Ok(Value::One(scalar(alloc, text)?));
    };
    match rest.strip_suffix('}') {
        Some(rows) => array_of(alloc, rows),
        None => Err(Fail::new("no array")),
    }
}

/// The value of a text.
pub fn value(alloc: Global, text: &str) -> Result<Value, Fail>
    ensures { IfOk result (λ v. IsTrue (is_sound_value (value_tree v))) }
{
    let v = read(alloc, text)?;
    if v.is_sound() {
        Ok(v)
    } else {
        Err(Fail::new("not sound"))
    }
}

/// The text of a value.
pub fn told(alloc: Global, v: &Value) -> Result<String, Fail> {
    let text = value_text(alloc, v)?;
    match v {
        Value::One(_) => Ok(text),
        Value::Array(_) => Ok(format!(in alloc; "{{{text}}}")?),
    }
}

/// The values of a text that has `; ` between them; none of an empty text.
pub fn values(alloc: Global, texts: &str) -> Result<Vec<Value>, Fail> {
    let mut all = Vec::new(alloc);
    if texts.is_empty() {
        return Ok(all);
    }
    for text in texts.split("; ") {
        all.push(value(alloc, text)?).map_err(NoMemory::from)?;
    }
    Ok(all)
}

/// One of several arguments.
pub fn argument(values: &[Value], i: usize) -> Result<&Value, Fail>
    ensures { IfOk result (λ v. IsTrue (is_sound_value (value_tree v.now))) }
{
    match values.get(i) {
        Some(v) => {
            if v.is_sound() {
                Ok(v)
            } else {
                Err(Fail::new("not sound"))
            }
        }
        None => Err(Fail::new("too few arguments")),
    }
}

/// One of several arguments, a scalar.
pub fn scalar_argument(values: &[Value], i: usize) -> Result<&Scalar, Fail> {
    match values.get(i) {
        Some(Value::One(x)) => Ok(x),
        _ => Err(Fail::new("no scalar argument")),
    }
}

/// Whether all of them are sound.
pub fn are_sound(values: &[Value]) -> bool
    ensures { IsTrue result → AreSound values.now }
{
    for v in values {
        if !v.is_sound() {
            return false;
        }
    }
    true
}
