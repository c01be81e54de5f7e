//! Calls of functions, by their names and the texts of their arguments.
use crate::tests::values::{are_sound, argument, scalar_argument, told, values};
use gl_arrays::{
    drop_part, extent_columns, extent_rows, filter, hstack, index, lookup, sequence, take,
    transpose, unique, vstack,
};
use gl_funs::{
    abs, all, any, count, greatest, is_blank, is_error, least, left, len, modulo, not, right, sum,
};
use gl_value::{Scalar, Value};
use std::alloc::Global;
use std::test::Fail;

fn over_elements(name: &str, values: &[Value]) -> Result<Scalar, Fail> {
    if values.len() > 16 || !are_sound(values) {
        return Err(Fail::new("no arguments"));
    }
    match name {
        "SUM" => Ok(sum(values)),
        "COUNT" => Ok(count(values)),
        "MIN" => Ok(least(values)),
        "MAX" => Ok(greatest(values)),
        "AND" => Ok(all(values)),
        "OR" => Ok(any(values)),
        _ => Err(Fail::new("no function")),
    }
}

fn of_one_scalar(name: &str, values: &[Value]) -> Result<Scalar, Fail> {
    let x = scalar_argument(values, 0)?;
    match name {
        "NOT" => Ok(not(x)),
        "ISERROR" => Ok(is_error(x)),
        "ISBLANK" => Ok(is_blank(x)),
        "ABS" => Ok(abs(x)),
        _ => Ok(len(x)),
    }
}

fn of_two_scalars(alloc: Global, name: &str, values: &[Value]) -> Result<Scalar, Fail> {
    let x = scalar_argument(values, 0)?;
    let y = scalar_argument(values, 1)?;
    match name {
        "MOD" => Ok(modulo(x, y)),
        "LEFT" => Ok(left(alloc, x, y)?),
        _ => Ok(right(alloc, x, y)?),
    }
}

fn scalar_answer(alloc: Global, name: &str, values: &[Value]) -> Result<Scalar, Fail> {
    match name {
        "NOT" | "ISERROR" | "ISBLANK" | "ABS" | "LEN" => of_one_scalar(name, values),
        "MOD" | "LEFT" | "RIGHT" => of_two_scalars(alloc, name, values),
        _ => over_elements(name, values),
    }
}

fn of_one(alloc: Global, name: &str, v: &[Value]) -> Result<Value, Fail> {
    let v = argument(v, 0)?;
    match name {
        "ROWS" => Ok(Value::One(extent_rows(v))),
        "COLUMNS" => Ok(Value::One(extent_columns(v))),
        "TRANSPOSE" => Ok(transpose(alloc, v)?),
        "UNIQUE" => Ok(unique(alloc, v)?),
        _ => Err(Fail::new("no function")),
    }
}

fn of_two(alloc: Global, name: &str, v: &[Value]) -> Result<Value, Fail> {
    let x = argument(v, 0)?;
    let y = argument(v, 1)?;
    match name {
        "SEQUENCE" => Ok(sequence(alloc, x, y)?),
        "FILTER" => Ok(filter(alloc, x, y)?),
        _ => of_one(alloc, name, v),
    }
}

fn of_three(alloc: Global, name: &str, v: &[Value]) -> Result<Value, Fail> {
    let x = argument(v, 0)?;
    let y = argument(v, 1)?;
    let z = argument(v, 2)?;
    match name {
        "INDEX" => Ok(Value::One(index(alloc, x, y, z)?)),
        "LOOKUP" => Ok(Value::One(lookup(alloc, x, y, z)?)),
        "TAKE" => Ok(take(alloc, x, y, z)?),
        "DROP" => Ok(drop_part(alloc, x, y, z)?),
        _ => Err(Fail::new("no function")),
    }
}

fn stacked(alloc: Global, name: &str, parts: &[Value]) -> Result<Value, Fail> {
    if parts.is_empty() || parts.len() > 16 || !are_sound(parts) {
        return Err(Fail::new("no arguments"));
    }
    match name {
        "HSTACK" => Ok(hstack(alloc, parts)?),
        _ => Ok(vstack(alloc, parts)?),
    }
}

fn array_answer(alloc: Global, name: &str, v: &[Value]) -> Result<Value, Fail> {
    if name.ends_with("STACK") {
        return stacked(alloc, name, v);
    }
    match v.len() {
        1 => of_one(alloc, name, v),
        2 => of_two(alloc, name, v),
        _ => of_three(alloc, name, v),
    }
}

/// Whether the function is one on arrays.
fn is_of_arrays(name: &str) -> bool {
    [
        "ROWS",
        "COLUMNS",
        "TRANSPOSE",
        "UNIQUE",
        "SEQUENCE",
        "FILTER",
        "INDEX",
        "LOOKUP",
        "TAKE",
        "DROP",
        "HSTACK",
        "VSTACK",
    ]
    .contains(&name)
}

fn answer(alloc: Global, name: &str, v: &[Value]) -> Result<Value, Fail> {
    if is_of_arrays(name) {
        array_answer(alloc, name, v)
    } else {
        Ok(Value::One(scalar_answer(alloc, name, v)?))
    }
}

/// What a call comes to: a function's name, and behind a space its arguments.
pub fn called(alloc: Global, call: &str) -> Result<String, Fail> {
    let Some((name, arguments)) = call.split_once(' ') else {
        return Err(Fail::new("no call"));
    };
    told(alloc, &answer(alloc, name, &values(alloc, arguments)?)?)
}
