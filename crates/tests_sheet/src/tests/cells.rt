//! A sheet that is full, contents put at once, and plain texts.
ghost use Rattle.std.specs.Prelude.{IfOk};
ghost use Rattle.gl_language.specs.Reading.Content.{IsProperContent};
ghost use Rattle.gl_cells.specs.Content.{content_tree};

use crate::tests::asserts::assert_count;
use gl_cells::{Cells, Content, MAX_CONTENTS, MAX_FORMULAS, PutFault, plain_scalar};
use gl_plane::{Addr, Range, whole_grid};
use gl_value::Scalar;
use std::alloc::Global;
use std::process::Abort;
use std::test::Fail;
use tests_common::{address, content_of, each_is_read, range, scalar_text};

fn at(col: u16, row: u16) -> Result<Addr, Fail> {
    Addr::new(col, row).ok_or_else(|| Fail::new("off the grid"))
}

#[tactic(auto, using(gl_value::specs::Forms::trees))]
fn number(n: i64) -> Content
    ensures { IsProperContent (content_tree result) }
{
    Content::Const(Scalar::Int(n))
}

/// The formula `1`.
fn formula(alloc: Global) -> Result<Content, Fail>
    ensures { IfOk result (λ c. IsProperContent (content_tree c)) }
{
    let (_, content) = content_of(alloc, "set A1 =1")?;
    Ok(content)
}

/// Puts formulas as long as there is room for them, then numbers.
fn put_next(cells: &mut Cells, alloc: Global, a: Addr) -> Result<(), Fail> {
    if (cells.formulas() as usize) < MAX_FORMULAS {
        cells.put(a, formula(alloc)?)?;
    } else {
        cells.put(a, number(7))?;
    }
    Ok(())
}

fn put_row(cells: &mut Cells, alloc: Global, row: u16) -> Result<(), Fail> {
    for col in 1..8 {
        put_next(cells, alloc, at(col, row)?)?;
    }
    Ok(())
}

/// As many contents and formulas as there may be: rows of seven columns.
fn full(alloc: Global) -> Result<Cells, Fail> {
    let mut cells = Cells::new(alloc);
    for row in 1..9363 {
        put_row(&mut cells, alloc, row)?;
    }
    put_next(&mut cells, alloc, at(1, 9363)?)?;
    put_next(&mut cells, alloc, at(2, 9363)?)?;
    Ok(cells)
}

/// Each of the first 9,362 rows of the column is next in turn, and no other.
fn is_walked(cells: &Cells, column: &Range, col: u16) -> Result<bool, Fail> {
    let mut after = None;
    for row in 1..9363 {
        let a = at(col, row)?;
        if cells.next_in(column, after) != Some(a) {
            return Ok(false);
        }
        after = Some(a);
    }
    Ok(cells.next_in(column, after).is_none())
}

/// The sheet has so many contents, and so many formulas among them.
fn assert_counts(rt: &impl Abort, cells: &Cells, contents: usize, formulas: usize) {
    assert_count(rt, cells.contents() as usize, contents);
    assert_count(rt, cells.formulas() as usize, formulas);
}

fn assert_cleared(rt: &impl Abort, cells: &mut Cells, region: &Range, count: usize) {
    assert_count(rt, cells.clear(region) as usize, count);
}

#[test]
fn a_full_sheet_is_walked_and_cleared(rt: HostRuntime) -> Result<(), Fail> {
    let column = range("G1:G9999")?;
    let beside = range("H1:H9999")?;
    let mut cells = full(rt.alloc())?;
    assert!(rt; is_walked(&cells, &column, 7)?);
    assert!(rt; cells.next_in(&beside, None).is_none());
    assert_cleared(&rt, &mut cells, &column, 9362);
    assert_cleared(&rt, &mut cells, &whole_grid(), MAX_CONTENTS - 9362);
    assert_counts(&rt, &cells, 0, 0);
    Ok(())
}

/// The sheet refuses the content.
fn assert_refused(rt: &impl Abort, cells: &mut Cells, a: Addr, content: Content, want: PutFault)
    requires { IsProperContent (content_tree content) }
{
    assert_eq!(rt; cells.put(a, content), Err(want));
}

#[test]
fn a_full_sheet_refuses_one_more(rt: HostRuntime) -> Result<(), Fail> {
    let next = address("H1")?;
    let one = formula(rt.alloc())?;
    let mut cells = full(rt.alloc())?;
    assert_refused(&rt, &mut cells, next, one, PutFault::Formulas);
    assert_refused(&rt, &mut cells, next, number(7), PutFault::Contents);
    assert_counts(&rt, &cells, MAX_CONTENTS, MAX_FORMULAS);
    assert!(rt; cells.content(next).is_none());
    Ok(())
}

/// Puts numbers at two addresses at once.
fn put_two(alloc: Global, cells: &mut Cells, a: &str, b: &str) -> Result<bool, Fail> {
    let a = address(a)?;
    let b = address(b)?;
    let mut list = Vec::new(alloc);
    list.push((a, number(5)))?;
    list.push((b, number(6)))?;
    match cells.put_all(alloc, list) {
        Ok(()) => Ok(true),
        Err(PutFault::Contents) => Ok(false),
        Err(fault) => Err(fault.into()),
    }
}

/// The address has this number.
fn has_number(cells: &Cells, a: &str, n: i64) -> Result<bool, Fail> {
    match cells.content(address(a)?) {
        Some(Content::Const(Scalar::Int(m))) => Ok(*m == n),
        _ => Ok(false),
    }
}

#[test]
fn a_full_sheet_refuses_several(rt: HostRuntime) -> Result<(), Fail> {
    let first = address("A1")?;
    let next = address("H1")?;
    let mut cells = full(rt.alloc())?;
    assert!(rt; !put_two(rt.alloc(), &mut cells, "A1", "H1")?);
    assert_counts(&rt, &cells, MAX_CONTENTS, MAX_FORMULAS);
    assert!(rt; matches!(cells.content(first), Some(Content::Form(_))));
    assert!(rt; cells.content(next).is_none());
    Ok(())
}

#[test]
fn several_at_once(rt: HostRuntime) -> Result<(), Fail> {
    let mut cells = Cells::new(rt.alloc());
    assert!(rt; put_two(rt.alloc(), &mut cells, "B1", "A1")?);
    assert_count(&rt, cells.contents() as usize, 2);
    assert!(rt; has_number(&cells, "B1", 5)? && has_number(&cells, "A1", 6)?);
    Ok(())
}

/// What a plain text is, as a cell shows it.
fn told(alloc: Global, text: &str) -> Result<String, Fail> {
    Ok(scalar_text(alloc, &plain_scalar(alloc, text)?)?)
}

#[test]
fn plain_texts(rt: HostRuntime) -> Result<(), Fail> {
    each_is_read(
        rt.alloc(),
        told,
        &[
            ("007", "7"),
            ("-0", "0"),
            ("9223372036854775807", "9223372036854775807"),
            ("-9223372036854775808", "-9223372036854775808"),
            ("9223372036854775808", "\"9223372036854775808\""),
            ("-9223372036854775809", "\"-9223372036854775809\""),
            ("-", "\"-\""),
            ("+1", "\"+1\""),
            ("1.0", "\"1.0\""),
            ("TRUE", "TRUE"),
            ("FALSE", "FALSE"),
            ("true", "\"true\""),
        ],
    )
}
