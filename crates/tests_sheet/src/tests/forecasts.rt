//! Forecasts of small sheets.
use crate::tests::foretold::{Told, is_told};
use std::alloc::Global;
use std::test::Fail;
use tests_common::sheet_of;

/// The lines of a sheet, and its forecast.
type Row = (&'static [&'static str], Told);

const ROWS: &[Row] = &[
    (&[], Told::Yes(0)),
    (&["set A1 =SEQUENCE(2,1)"], Told::Yes(1)),
    (&["set A1 =SEQUENCE(3,1)", "set B1 =A1#*2"], Told::Yes(2)),
    // areas that meet, also those of arrays that are not there yet
    (
        &["set A2 =SEQUENCE(1,3)", "set B1 =SEQUENCE(3,1)"],
        Told::Yes(2),
    ),
    (
        &[
            "set A1 =SEQUENCE(2,2)",
            "set C1 =SEQUENCE(2,2)",
            "set B3 =SEQUENCE(2,2)",
        ],
        Told::Yes(1),
    ),
    (
        &["set A2 =SEQUENCE(1,3)", "set B1 =TRANSPOSE(A2#)"],
        Told::Circle("B1"),
    ),
    (&["set A1 =A1"], Told::Circle("A1")),
    // no cell of the circle is the first formula
    (
        &["set A1 =B2", "set B2 =C3", "set C3 =B2"],
        Told::Circle("B2"),
    ),
    (
        &["set A1 =SUM(B1:B3)", "set B2 =SEQUENCE(1,1)+A1"],
        Told::Circle("A1"),
    ),
    // a cell depends on its own area
    (&["set B2 =SEQUENCE(3,3)+D4"], Told::Circle("B2")),
    (&["set B2 =SEQUENCE(3,3)+E4"], Told::Yes(1)),
    (&["set B2 =SEQUENCE(3,3)+B1"], Told::Yes(1)),
    (
        &["set A1 =A1", "set C2 =VIEW(THIS(),A1)", "set B2 =1"],
        Told::Unknown("C2"),
    ),
    (
        &["set A3 =G(A1:A1)", "set C2 =SHEET(A1:A2)"],
        Told::Unknown("C2"),
    ),
];

/// The forecast of the row's sheet is the row's.
fn holds(alloc: Global, row: &Row) -> Result<bool, Fail> {
    let cells = sheet_of(alloc, row.0)?;
    is_told(alloc, &cells, row.1)
}

#[test]
fn small_sheets(rt: HostRuntime) -> Result<(), Fail> {
    for (i, row) in ROWS.iter().enumerate() {
        assert!(rt; holds(rt.alloc(), row)?, "row {i}");
    }
    Ok(())
}
