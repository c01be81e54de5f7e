//! Certificates of as many keys as a calculation may demand, and of one more.
use crate::tests::explanations::certificates::{evaluator_of, explained, is_found};
use gl_cells::Cells;
use gl_demand::{Silent, Steps};
use gl_explain::Explained;
use gl_plane::Oracle;
use std::alloc::Global;
use std::test::Fail;
use tests_common::{Form, first_column, put_line, sheet_with};

/// In this row of the second column a copy of the first one with the number of the row in its last row.
fn put_copy(alloc: Global, cells: &mut Cells, row: usize) -> Result<(), Fail> {
    let line = format!(in alloc; "set B{row} =VIEW(UPDATE(SHEET(A1:A9999),A9999,{row}),A1)")?;
    put_line(alloc, cells, line.as_str())
}

/// A column of 9,998 formulas, 49 copies of it, one more by this line, and the sum of what they show.
fn copies(alloc: Global, last: &str) -> Result<Cells, Fail> {
    let terms = first_column(1, 9998, Form::Same("1"));
    let mut cells = sheet_with(alloc, &[last, "set C1 =SUM(B1:B50)"], &terms)?;
    for number in 1..50usize {
        put_copy(alloc, &mut cells, number)?;
    }
    Ok(cells)
}

/// The sum, the copies and their settlings, 49 times 9,998 cells of them, and 9,997 of the last.
const ALL: &str = "set B50 =VIEW(UPDATE(SHEET(A1:A9998),A9998,50),A1)";

/// One more.
const ONE_MORE: &str = "set B50 =VIEW(UPDATE(SHEET(A1:A9999),A9999,50),A1)";

/// The sum of these cells has a certificate of as many keys.
fn is_explained(alloc: Global, cells: &Cells) -> Result<bool, Fail> {
    let w = Oracle::new(alloc);
    // a step for each key, and one more for the sum, for each copy and for each settling
    is_found(
        &evaluator_of(alloc, cells, &w),
        "C1",
        (500_000, 0, 500_101),
        "50",
    )
}

#[test]
fn as_many_keys_as_may_be_demanded(rt: HostRuntime) -> Result<(), Fail> {
    assert!(rt; is_explained(rt.alloc(), &copies(rt.alloc(), ALL)?)?);
    Ok(())
}

/// Whether there are too many keys to explain the sum of these cells, and the steps until this is known.
fn work(alloc: Global, cells: &Cells) -> Result<(bool, u64), Fail> {
    let w = Oracle::new(alloc);
    let mut steps = Steps::new(Silent);
    match explained(&evaluator_of(alloc, cells, &w), "C1", &mut steps)? {
        Explained::Work => Ok((true, steps.done())),
        Explained::Cert(_) => Ok((false, steps.done())),
        Explained::Aborts(_) => Ok((false, steps.done())),
    }
}

#[test]
fn one_key_more(rt: HostRuntime) -> Result<(), Fail> {
    let (is_work, steps) = work(rt.alloc(), &copies(rt.alloc(), ONE_MORE)?)?;
    assert!(rt; is_work);
    // less than one for each key and each of its reads
    assert!(rt; steps <= 1_000_050, "{steps}");
    Ok(())
}
