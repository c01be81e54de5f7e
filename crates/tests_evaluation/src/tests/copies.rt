//! What cells come to, many of them through copies.
use crate::tests::texts::is_written;
use crate::tests::turns::{cell, first_turn, last_turn};
use gl_ast::Version;
use gl_demand::Evaluator;
use gl_plane::Oracle;
use std::alloc::Global;
use std::process::Abort;
use std::test::Fail;
use tests_common::sheet_of;

/// A cell, what its first evaluation finds, and what its last one does.
type End = (&'static str, &'static str, &'static str);

/// A sheet, and what evaluations of some of its cells find.
struct Sheet {
    lines: &'static [&'static str],
    ends: &'static [End],
}

#[rattlefmt::skip]
const COPIES: &[Sheet] = &[
    Sheet { lines: &["set A1 3", "set B1 4", "set C1 =A1*A1+B1*B1", "set E1 =G(A1:C1,A1,6)"],
        ends: &[("C1", "25", "25"), ("E1", "settle A1:C1", "6 4 52")] },
    Sheet { lines: &["set A1 1", "set B1 =A1*10", "set C1 =VIEW(SHEET(B1),B1)",
        "set D1 =VIEW(UPDATE(SHEET(A1:C1),A1,7),C1)"],
        ends: &[("C1", "settle B1:B1", "10"), ("D1", "settle A1:C1", "70")] },
    Sheet { lines: &["set A1 2", "set B1 =SEQUENCE(A1,1)", "set D1 =G(A1:B3,A1,3)",
        "set G1 =G(A1:B3,A1,4)"], ends: &[("B1", "1 / 2", "1 / 2"),
        ("D1", "settle A1:B3", "3 1 / . 2 / . 3"),
        ("G1", "settle A1:B3", "4 #SPILL! / . . / . .")] },
    Sheet { lines: &["set A3 =LET(x,SEQUENCE(100,100),G(A1:G1,A1,x,B1,x,C1,x,D1,x,E1,x,F1,x,G1,x))",
        "set A4 =LET(x,SEQUENCE(100,100),G(A1:F1,A1,x,B1,x,C1,x,D1,x,E1,x,F1,x))"],
        ends: &[("A3", "#SIZE!", "#SIZE!"),
        ("A4", "settle A1:F1", "#SPILL! #SPILL! #SPILL! #SPILL! #SPILL! #SPILL!")] },
];

#[rattlefmt::skip]
const BUDGETS_AND_CYCLES: &[Sheet] = &[
    Sheet { lines: &["set A1 1", "set B1 =C1+A1", "set C1 =G(A1:B1,A1,5)"],
        ends: &[("B1", "C1", "cycle"), ("C1", "settle A1:B1", "cycle")] },
    Sheet { lines: &["set A1 0", "set B1 =IF(A1=0,0,A1+VIEW(UPDATE(SHEET(A1:B1),A1,A1-1),B1))",
        "set D1 =VIEW(UPDATE(SHEET(A1:B1),A1,95),B1)",
        "set E1 =VIEW(UPDATE(SHEET(A1:B1),A1,96),B1)"],
        ends: &[("D1", "settle A1:B1", "4560"), ("E1", "settle A1:B1", "spent depth")] },
    Sheet { lines: &["set D1 0", "set A2 =SEQUENCE(1,3)",
        "set B1 =IF(D1=0,1,IF(ISERROR(ROWS(A2#)),1,SEQUENCE(3,1)))", "set F1 =G(A1:D3,D1,1)"],
        ends: &[("F1", "settle A1:D3", "spent copyrounds")] },
];

const CHOICES: &[&str] = &[
    "set A1 =IFERROR(10/(SEQUENCE(1,3)-2),0)",
    "set A2 =IF(SEQUENCE(1,2)>0,1,A2)",
    "set A3 =IF(SEQUENCE(1,2)=1,1,2)",
    "set A4 =IF(TRUE,1,A4)",
];

/// What they find in version 1, where an array chooses nothing.
const IN_ONE: &[End] = &[
    ("A1", "-10 #DIV/0! 10", "-10 #DIV/0! 10"),
    ("A2", "#VALUE!", "#VALUE!"),
    ("A3", "#VALUE!", "#VALUE!"),
    ("A4", "1", "1"),
];

/// What they find in version 2.
const IN_TWO: &[End] = &[
    ("A1", "-10 0 10", "-10 0 10"),
    ("A2", "A2", "cycle"),
    ("A3", "1 2", "1 2"),
    ("A4", "1", "1"),
];

/// The last evaluation of a cell finds this, where `cycle` is none.
fn ends_last(at: &Evaluator<'_>, name: &str, last: &str) -> Result<bool, Fail> {
    match last_turn(at, name)? {
        Some(turn) => Ok(is_written(at.alloc, &turn.found, last)?),
        None => Ok(last == "cycle"),
    }
}

/// The first evaluation of a cell finds this, and the last one that, where `cycle` is none.
fn ends(at: &Evaluator<'_>, name: &str, first: &str, last: &str) -> Result<bool, Fail> {
    let starts = is_written(at.alloc, &first_turn(at, &cell(name)?)?.found, first)?;
    Ok(starts && ends_last(at, name, last)?)
}

/// In this version evaluations of the cells of a sheet find what they must.
fn holds(alloc: Global, version: Version, lines: &[&str], all: &[End]) -> Result<bool, Fail> {
    let cells = sheet_of(alloc, lines)?;
    let w = Oracle::new(alloc);
    let at = Evaluator {
        alloc,
        cells: &cells,
        oracle: &w,
        version,
    };
    for (name, first, last) in all {
        if !ends(&at, name, first, last)? {
            return Ok(false);
        }
    }
    Ok(true)
}

/// In version 1 the sheets are as they say.
fn assert_sheets(rt: &impl Abort, alloc: Global, sheets: &[Sheet]) -> Result<(), Fail> {
    for sheet in sheets {
        assert!(rt;
            holds(alloc, Version::One, sheet.lines, sheet.ends)?,
            "{:?}",
            sheet.lines
        );
    }
    Ok(())
}

#[test]
fn choices_by_version(rt: HostRuntime) -> Result<(), Fail> {
    assert!(rt; holds(rt.alloc(), Version::One, CHOICES, IN_ONE)?);
    assert!(rt; holds(rt.alloc(), Version::Two, CHOICES, IN_TWO)?);
    Ok(())
}

#[test]
fn copies_budgets_and_cycles(rt: HostRuntime) -> Result<(), Fail> {
    assert_sheets(&rt, rt.alloc(), COPIES)?;
    assert_sheets(&rt, rt.alloc(), BUDGETS_AND_CYCLES)
}
