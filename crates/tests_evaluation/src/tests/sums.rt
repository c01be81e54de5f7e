//! A formula with many references.
use crate::tests::runs::{Sight, counts};
use crate::tests::turns::evaluator_of;
use gl_ast::{put, put_number};
use gl_cells::Cells;
use gl_plane::Oracle;
use std::alloc::Global;
use std::test::Fail;
use tests_common::{put_line, sheet_of};

/// The formula of a row of the second column, which is its number.
fn put_part(alloc: Global, cells: &mut Cells, row: usize) -> Result<(), Fail> {
    let mut line = String::new(alloc);
    put(&mut line, "set B")?;
    put_number(alloc, &mut line, row)?;
    put(&mut line, " =")?;
    put_number(alloc, &mut line, row)?;
    put_line(alloc, cells, line.as_str())
}

/// A formula that adds those of rows 1 to 200, one after another.
fn parts(alloc: Global) -> Result<Cells, Fail> {
    let mut line = String::new(alloc);
    put(&mut line, "set A1 =B1")?;
    for row in 2..201usize {
        put(&mut line, "+B")?;
        put_number(alloc, &mut line, row)?;
    }
    let mut cells = sheet_of(alloc, &[line.as_str()])?;
    for row in 1..201usize {
        put_part(alloc, &mut cells, row)?;
    }
    Ok(cells)
}

/// The counts of the formula by each pick rule.
fn counts_by_each(alloc: Global) -> Result<[(u64, u64, Sight); 3], Fail> {
    let w = Oracle::new(alloc);
    let cells = parts(alloc)?;
    let at = evaluator_of(alloc, &cells, &w);
    Ok([
        counts(&at, &["A1"], "A1", 0)?,
        counts(&at, &["A1"], "A1", 1)?,
        counts(&at, &["A1"], "A1", 2)?,
    ])
}

#[test]
fn all_references_of_a_formula_take_two_steps(rt: HostRuntime) -> Result<(), Fail> {
    // one for each part, and two for what adds them
    let want = (201, 202, Sight::Number(20_100));
    assert_eq!(rt; counts_by_each(rt.alloc())?, [want; 3]);
    Ok(())
}
