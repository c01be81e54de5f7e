//! Functions on scalars: the extents of what they come to, and its elements.
use crate::tests::turns::turn_under;
use gl_demand::{Found, Outcome};
use gl_plane::Oracle;
use gl_value::Value;
use std::alloc::Global;
use std::process::Abort;
use std::test::Fail;
use tests_common::{sheet_of, value_text};

/// A line that sets A1, the extents of the array that it comes to, `None` for a scalar, and the elements.
type Row = (&'static str, Option<(u16, u16)>, &'static str);

const TRUTHS_AND_NUMBERS: &[Row] = &[
    ("set A1 =SUM(7)", None, "7"),
    ("set A1 =COUNT(3,5)", None, "2"),
    ("set A1 =MIN(3,5)", None, "3"),
    ("set A1 =MAX(3,5)", None, "5"),
    ("set A1 =AND(1,2,3)", None, "#VALUE!"),
    ("set A1 =OR(1)", None, "#VALUE!"),
    ("set A1 =NOT(1)", None, "#VALUE!"),
    ("set A1 =ISERROR(1)", None, "FALSE"),
    ("set A1 =ISBLANK(1)", None, "FALSE"),
    ("set A1 =ABS(-7)", None, "7"),
    ("set A1 =MOD(7,4)", None, "3"),
    ("set A1 =LEN(-123)", None, "4"),
    ("set A1 =LEFT(1234,3)", None, "\"123\""),
    ("set A1 =RIGHT(1234,2)", None, "\"34\""),
    ("set A1 =NA()", None, "#N/A"),
];

const PARTS_AND_ARRAYS: &[Row] = &[
    ("set A1 =ROWS(7)", None, "1"),
    ("set A1 =COLUMNS(7)", None, "1"),
    ("set A1 =TRANSPOSE(7)", None, "7"),
    ("set A1 =UNIQUE(7)", None, "7"),
    ("set A1 =SEQUENCE(2,3)", Some((2, 3)), "1 2 3 / 4 5 6"),
    ("set A1 =FILTER(2,3)", None, "#VALUE!"),
    ("set A1 =HSTACK(8,9)", Some((1, 2)), "8 9"),
    ("set A1 =VSTACK(8,9)", Some((2, 1)), "8 / 9"),
    ("set A1 =INDEX(7,1,1)", None, "7"),
    ("set A1 =TAKE(7,1,1)", Some((1, 1)), "7"),
    ("set A1 =TAKE(7,0,1)", None, "#VALUE!"),
    ("set A1 =DROP(7,0,0)", Some((1, 1)), "7"),
    ("set A1 =DROP(7,1,0)", None, "#VALUE!"),
    ("set A1 =LOOKUP(5,5,9)", None, "9"),
    ("set A1 =LOOKUP(5,6,9)", None, "#N/A"),
];

/// The value that was found has the extents and elements of the row.
fn has_elements(alloc: Global, found: &Found, row: &Row) -> Result<bool, Fail> {
    let (_, size, text) = *row;
    match found {
        Found::Ready(Outcome::Value(v)) => {
            Ok(extents(v) == size && value_text(alloc, v)?.as_str() == text)
        }
        _ => Err("no value".into()),
    }
}

/// The value of A1 has the extents and elements of the row.
fn comes_to(alloc: Global, row: &Row) -> Result<bool, Fail> {
    let cells = sheet_of(alloc, &[row.0])?;
    let w = Oracle::new(alloc);
    has_elements(alloc, &turn_under(alloc, &cells, &w, "A1")?.found, row)
}

fn extents(v: &Value) -> Option<(u16, u16)> {
    match v {
        Value::One(_) => None,
        Value::Array(a) => Some((a.size().rows(), a.size().cols())),
    }
}

/// Each line of a table comes to what stands behind it.
fn assert_rows(rt: &impl Abort, alloc: Global, rows: &[Row]) -> Result<(), Fail> {
    for row in rows {
        assert!(rt; comes_to(alloc, row)?, "{}", row.0);
    }
    Ok(())
}

#[test]
fn functions_of_scalars(rt: HostRuntime) -> Result<(), Fail> {
    assert_rows(&rt, rt.alloc(), TRUTHS_AND_NUMBERS)?;
    assert_rows(&rt, rt.alloc(), PARTS_AND_ARRAYS)
}
