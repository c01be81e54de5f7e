//! Forecasts of large sheets.
use crate::tests::foretold::{Told, is_told};
use std::alloc::Global;
use std::test::Fail;
use tests_common::{Column, Form, put_column, sheet_of};

/// The first lines of a sheet, columns that follow them, and its forecast.
struct Large {
    lines: &'static [&'static str],
    columns: &'static [Column],
    told: Told,
}

/// As many formulas as a sheet may have.
#[rattlefmt::skip]
const FULL: &[Large] = &[
    // all but one read as many cells as a range may have, a tenth of them under the area of that one
    Large {
        lines: &["set A1 =SEQUENCE(100,10)"],
        columns: &[
            Column { name: "AA", first: 1, last: 9999, form: Form::Same("SUM(A1:J1000)") },
            Column { name: "AB", first: 1, last: 6384, form: Form::Same("SUM(A1:J1000)") },
        ],
        told: Told::Yes(1),
    },
    // areas of unknown size, each of which meets all others
    Large {
        lines: &[],
        columns: &[
            Column { name: "A", first: 1, last: 9999, form: Form::Same("SEQUENCE(1+1,1)") },
            Column { name: "B", first: 1, last: 6385, form: Form::Same("SEQUENCE(1+1,1)") },
        ],
        told: Told::Yes(16384),
    },
];

/// The forecast of the sheet is the one that is told.
fn holds(alloc: Global, large: &Large) -> Result<bool, Fail> {
    let mut cells = sheet_of(alloc, large.lines)?;
    for column in large.columns {
        put_column(alloc, &mut cells, column)?;
    }
    is_told(alloc, &cells, large.told)
}

#[test]
fn a_full_sheet_of_sums(rt: HostRuntime) -> Result<(), Fail> {
    assert!(rt; holds(rt.alloc(), &FULL[0])?);
    Ok(())
}

#[test]
fn a_full_sheet_of_arrays(rt: HostRuntime) -> Result<(), Fail> {
    assert!(rt; holds(rt.alloc(), &FULL[1])?);
    Ok(())
}

/// Whole columns of cells that read the one above or below.
#[rattlefmt::skip]
const CHAINS: &[Large] = &[
    Large { lines: &["set A1 =1"], told: Told::Yes(0),
        columns: &[Column { name: "A", first: 2, last: 9999, form: Form::Above("", "+1") }] },
    Large { lines: &["set A9999 =1"], told: Told::Yes(0),
        columns: &[Column { name: "A", first: 1, last: 9998, form: Form::Below("", "+1") }] },
];

#[test]
fn chains_of_numbers(rt: HostRuntime) -> Result<(), Fail> {
    for (i, large) in CHAINS.iter().enumerate() {
        assert!(rt; holds(rt.alloc(), large)?, "sheet {i}");
    }
    Ok(())
}

/// Arrays that rest on those above.
#[rattlefmt::skip]
const ABOVE: Large = Large { lines: &["set A1 5"], told: Told::Yes(9998),
    columns: &[Column { name: "A", first: 2, last: 9999, form: Form::Above("SEQUENCE(", ",1)") }] };

#[test]
fn an_array_for_each_above(rt: HostRuntime) -> Result<(), Fail> {
    assert!(rt; holds(rt.alloc(), &ABOVE)?);
    Ok(())
}

/// Arrays that rest on those below, which the first ones may take the place of.
#[rattlefmt::skip]
const BELOW: Large = Large { lines: &["set A9999 5"], told: Told::Circle("A1"),
    columns: &[Column { name: "A", first: 1, last: 9998, form: Form::Below("SEQUENCE(", ",1)") }] };

#[test]
fn an_array_for_each_below(rt: HostRuntime) -> Result<(), Fail> {
    assert!(rt; holds(rt.alloc(), &BELOW)?);
    Ok(())
}
