//! The steps of calculations that begin with what is kept of the one before.
ghost use Rattle.std.specs.Prelude.{◌≤◌};

use crate::tests::calculations::{edit, refreshed_in};
use gl_ast::Version;
use gl_calc::Calc;
use gl_demand::{Silent, Steps};
use std::alloc::Global;
use std::process::Abort;
use std::test::Fail;

/// Edits, the version in which the sheet is calculated then, how that ends, and the least and
/// the most steps that it takes.
struct Row {
    lines: &'static [&'static str],
    version: Version,
    ends: &'static str,
    least: u64,
    most: u64,
}

/// Ten formulas that rest on nothing, beside two arrays: each of the ten takes a step once, and
/// again only where it is edited, once in each of the three rounds.
const BESIDE_ARRAYS: &[Row] = &[
    Row {
        lines: &[
            "set A1 =SEQUENCE(3,1)",
            "set B1 =A1#*2",
            "set D1 =1+1",
            "set D2 =1+1",
            "set D3 =1+1",
            "set D4 =1+1",
            "set D5 =1+1",
            "set D6 =1+1",
            "set D7 =1+1",
            "set D8 =1+1",
            "set D9 =1+1",
            "set D10 =1+1",
        ],
        version: Version::One,
        ends: "settled 3",
        least: 15,
        most: 17,
    },
    Row {
        lines: &["set D1 =2+2"],
        version: Version::One,
        ends: "settled 3",
        least: 3,
        most: 3,
    },
    Row {
        lines: &[],
        version: Version::One,
        ends: "settled 3",
        least: 0,
        most: 0,
    },
    // an address that nothing looks at
    Row {
        lines: &["set Z9 5", "clear Z9"],
        version: Version::One,
        ends: "settled 3",
        least: 0,
        most: 0,
    },
    // nothing is kept for another version
    Row {
        lines: &[],
        version: Version::Two,
        ends: "settled 3",
        least: 15,
        most: 17,
    },
    Row {
        lines: &[],
        version: Version::Two,
        ends: "settled 3",
        least: 0,
        most: 0,
    },
    // a spill that is blocked leaves the ten alone
    Row {
        lines: &["set A2 5"],
        version: Version::Two,
        ends: "settled 2",
        least: 1,
        most: 4,
    },
];

/// A ring that is broken, and made again.
const A_RING: &[Row] = &[
    Row {
        lines: &["set A1 =B1", "set B1 =A1", "set C1 =B1+1"],
        version: Version::One,
        ends: "settled 1",
        least: 3,
        most: 6,
    },
    Row {
        lines: &["set A1 2"],
        version: Version::One,
        ends: "settled 1",
        least: 2,
        most: 5,
    },
    Row {
        lines: &[],
        version: Version::One,
        ends: "settled 1",
        least: 0,
        most: 0,
    },
    Row {
        lines: &["set A1 =B1"],
        version: Version::One,
        ends: "settled 1",
        least: 3,
        most: 6,
    },
];

/// A budget of each kind is spent, and is spent at once where it is asked again: of rounds, of
/// depth, and of rounds in a copy. Behind an edit that mends it the sheet settles.
const SPENT: &[Row] = &[
    Row {
        lines: &["set A1 =IF(C1=0,SEQUENCE(1,3),5)"],
        version: Version::One,
        ends: "spent rounds A1",
        least: 8,
        most: 200,
    },
    Row {
        lines: &[],
        version: Version::One,
        ends: "spent rounds A1",
        least: 0,
        most: 0,
    },
    Row {
        lines: &[
            "set A1 0",
            "set B1 =IF(A1=0,0,A1+VIEW(UPDATE(SHEET(A1:B1),A1,A1-1),B1))",
            "set D1 =VIEW(UPDATE(SHEET(A1:B1),A1,96),B1)",
        ],
        version: Version::One,
        ends: "spent depth D1",
        least: 96,
        most: 1000,
    },
    Row {
        lines: &[],
        version: Version::One,
        ends: "spent depth D1",
        least: 0,
        most: 0,
    },
    Row {
        lines: &["set D1 =VIEW(UPDATE(SHEET(A1:B1),A1,2),B1)"],
        version: Version::One,
        ends: "settled 1",
        least: 3,
        most: 20,
    },
    Row {
        lines: &[
            "clear A1:D1",
            "set D1 0",
            "set A2 =SEQUENCE(1,3)",
            "set B1 =IF(D1=0,1,IF(ISERROR(ROWS(A2#)),1,SEQUENCE(3,1)))",
            "set F1 =G(A1:D3,D1,1)",
        ],
        version: Version::One,
        ends: "spent copyrounds F1",
        least: 8,
        most: 1000,
    },
    Row {
        lines: &[],
        version: Version::One,
        ends: "spent copyrounds F1",
        least: 0,
        most: 0,
    },
    // the other version has an answer of its own, and the first is calculated anew behind it
    Row {
        lines: &["set F1 2"],
        version: Version::Two,
        ends: "settled 2",
        least: 1,
        most: 20,
    },
    Row {
        lines: &[],
        version: Version::Two,
        ends: "settled 2",
        least: 0,
        most: 0,
    },
];

/// The sheet settles as the row says, behind its edits.
fn takes(alloc: Global, calc: &mut Calc, row: &Row, kind: u8) -> Result<bool, Fail>
    requires { kind ≤ 2 }
{
    for line in row.lines {
        edit(alloc, calc, line)?;
    }
    let mut steps = Steps::new(Silent);
    let ends = refreshed_in(alloc, calc, kind, row.version, &mut steps)?;
    let done = steps.done();
    Ok(ends.as_str() == row.ends && row.least <= done && done <= row.most)
}

/// The number of the first row that does not settle as it says.
fn first_amiss(alloc: Global, rows: &[Row], kind: u8) -> Result<Option<usize>, Fail>
    requires { kind ≤ 2 }
{
    let mut calc = Calc::new(alloc);
    for (i, row) in rows.iter().enumerate() {
        if !takes(alloc, &mut calc, row, kind)? {
            return Ok(Some(i));
        }
    }
    Ok(None)
}

/// By each pick rule all rows settle as they say.
fn assert_rows(rt: &impl Abort, alloc: Global, rows: &[Row]) -> Result<(), Fail> {
    for kind in 0u8..3 {
        let amiss = first_amiss(alloc, rows, kind)?;
        assert!(rt; amiss.is_none(), "{amiss:?} by {kind}");
    }
    Ok(())
}

#[test]
fn what_is_kept_and_what_is_spent_takes_no_step(rt: HostRuntime) -> Result<(), Fail> {
    assert_rows(&rt, rt.alloc(), BESIDE_ARRAYS)?;
    assert_rows(&rt, rt.alloc(), SPENT)?;
    assert_rows(&rt, rt.alloc(), A_RING)
}
