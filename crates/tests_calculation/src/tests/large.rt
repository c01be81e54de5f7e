//! Sheets of many copies and of large arrays, a table, and a sheet that is full.
ghost use Rattle.std.specs.Prelude.{◌≤◌, IfOk};
ghost use Rattle.gl_language.specs.Reading.Content.{IsProperContent};
ghost use Rattle.gl_cells.specs.Content.{content_tree};

use crate::tests::calculations::{
    Sheet, assert_sheets, calc_of, edit, goes_on, holds, refreshed, shows,
};
use gl_ast::Version;
use gl_calc::Calc;
use gl_cells::Content;
use gl_plane::{Addr, Share};
use std::alloc::Global;
use std::test::Fail;
use tests_common::address;

const LARGE: &[Sheet] = &[
    // copies that each make two
    Sheet {
        lines: &[
            "set A1 1",
            "set B1 =IF(A1>=1024,1,VIEW(UPDATE(SHEET(A1:B1),A1,2*A1),B1)+VIEW(UPDATE(SHEET(A1:B1),A1,2*A1+1),B1))",
        ],
        ends: "settled 1",
        oracle: "oracle 0\n",
        shows: &[("B1", "1024")],
        whys: &[],
    },
    // equal copies are one
    Sheet {
        lines: &[
            "set A1 1",
            "set B1 =IF(A1>=262144,1,VIEW(UPDATE(SHEET(A1:B1),A1,2*A1),B1)+VIEW(UPDATE(SHEET(A1:B1),A1,2*A1),B1))",
        ],
        ends: "settled 1",
        oracle: "oracle 0\n",
        shows: &[("B1", "262144")],
        whys: &[],
    },
    Sheet {
        lines: &[
            "set A1 1",
            "set B1 x",
            "set A2 2",
            "set B2 y",
            "set A3 1",
            "set B3 z",
            "set D1 =FILTER(A1:B3,A1:A3=1)",
            "set G1 =UNIQUE(A1:A3)",
            "set I1 =LOOKUP(2,A1:A3,B1:B3)",
        ],
        ends: "settled 2",
        oracle: "oracle 2\nD1 2x2 permitted\nG1 2x1 permitted\n",
        shows: &[
            ("D1", "1"),
            ("E1", "\"x\""),
            ("D2", "1"),
            ("E2", "\"z\""),
            ("G1", "1"),
            ("G2", "2"),
            ("I1", "\"y\""),
        ],
        whys: &[("D1", "permitted"), ("I1", "none")],
    },
    // a sheet of seven arrays is too large, and one of six has no room for any of them
    Sheet {
        lines: &[
            "set A3 =G(A1:G1,A1,SEQUENCE(100,100),B1,SEQUENCE(100,100),C1,SEQUENCE(100,100),D1,SEQUENCE(100,100),E1,SEQUENCE(100,100),F1,SEQUENCE(100,100),G1,SEQUENCE(100,100))",
        ],
        ends: "settled 1",
        oracle: "oracle 0\n",
        shows: &[("A3", "#SIZE!"), ("B3", ".")],
        whys: &[("A3", "none")],
    },
    Sheet {
        lines: &[
            "set A3 =G(A1:F1,A1,SEQUENCE(100,100),B1,SEQUENCE(100,100),C1,SEQUENCE(100,100),D1,SEQUENCE(100,100),E1,SEQUENCE(100,100),F1,SEQUENCE(100,100))",
        ],
        ends: "settled 2",
        oracle: "oracle 1\nA3 1x6 permitted\n",
        shows: &[("A3", "#SPILL!"), ("B3", "#SPILL!"), ("G3", ".")],
        whys: &[("A3", "permitted")],
    },
];

/// Copies beyond the limit of demanded keys
const WORK: Sheet = Sheet {
    lines: &[
        "set A1 1",
        "set B1 =IF(A1>=262144,1,VIEW(UPDATE(SHEET(A1:B1),A1,2*A1),B1)+VIEW(UPDATE(SHEET(A1:B1),A1,2*A1+1),B1))",
    ],
    ends: "spent work",
    oracle: "",
    shows: &[],
    whys: &[],
};

#[test]
fn large_sheets(rt: HostRuntime) -> Result<(), Fail> {
    assert_sheets(&rt, rt.alloc(), LARGE)
}

/// Asked again, it says so at once.
const WORK_AGAIN: Sheet = Sheet {
    lines: &[],
    ends: "spent work",
    oracle: "",
    shows: &[],
    whys: &[],
};

#[test]
fn work_is_spent_again(rt: HostRuntime) -> Result<(), Fail> {
    let alloc = rt.alloc();
    let mut calc = Calc::new(alloc);
    assert!(rt; goes_on(alloc, &mut calc, &WORK, 0, Version::One)?);
    for _ in 0..1000 {
        assert!(rt; goes_on(alloc, &mut calc, &WORK_AGAIN, 0, Version::One)?);
    }
    Ok(())
}

#[test]
fn work_is_spent(rt: HostRuntime) -> Result<(), Fail> {
    for kind in 0u8..3 {
        assert!(rt; holds(rt.alloc(), &WORK, kind)?, "kind {kind}");
    }
    Ok(())
}

/// What is computed of the table, and a what-if by a gridlet.
const OVER_THE_TABLE: Sheet = Sheet {
    lines: &[
        "set D1 =A1:A500*B1:B500",
        "set F1 =SUM(D1#)",
        "set H1 100",
        "set I1 20",
        "set J1 =H1-H1*I1/100",
        "set L1 =G(H1:J1,I1,25)",
    ],
    ends: "settled 2",
    oracle: "oracle 2\nD1 500x1 permitted\nL1 1x3 permitted\n",
    shows: &[
        ("F1", "375750"),
        ("J1", "80"),
        ("L1", "100"),
        ("M1", "25"),
        ("N1", "75"),
        ("D500", "1500"),
    ],
    whys: &[("D1", "permitted")],
};

/// The row and 3 in the first two columns of a row.
fn put_row(alloc: Global, calc: &mut Calc, row: u16) -> Result<(), Fail> {
    edit(alloc, calc, format!(in alloc; "set A{row} {row}")?.as_str())?;
    edit(alloc, calc, format!(in alloc; "set B{row} 3")?.as_str())
}

/// Numbers in two columns of 500 rows.
fn table(alloc: Global) -> Result<Calc, Fail> {
    let mut calc = Calc::new(alloc);
    for row in 1..501u16 {
        put_row(alloc, &mut calc, row)?;
    }
    Ok(calc)
}

/// What is computed of the table is as it must be, by the pick rule of this kind.
fn table_holds(alloc: Global, kind: u8) -> Result<bool, Fail>
    requires { kind ≤ 2 }
{
    let mut calc = table(alloc)?;
    goes_on(alloc, &mut calc, &OVER_THE_TABLE, kind, Version::One)
}

#[test]
fn a_table_of_five_hundred_rows(rt: HostRuntime) -> Result<(), Fail> {
    for kind in 0u8..3 {
        assert!(rt; table_holds(rt.alloc(), kind)?, "kind {kind}");
    }
    Ok(())
}

/// The content of an address.
fn copy_of(calc: &Calc, a: &str) -> Result<Content, Fail>
    ensures { IfOk result (λ c. IsProperContent (content_tree c)) }
{
    match calc.cells().content(address(a)?) {
        Some(content) => Ok(content.share()?),
        None => Err("no content".into()),
    }
}

/// The formula of B1 in the second and third columns, and the number of A1 elsewhere.
fn fill(calc: &mut Calc, col: u16, row: u16) -> Result<(), Fail> {
    let a = Addr::new(col, row).ok_or("off the grid")?;
    let model = if col == 2 || col == 3 { "B1" } else { "A1" };
    let content = copy_of(calc, model)?;
    calc.put(a, content)?;
    Ok(())
}

/// Fills eight columns of a row.
fn fill_row(calc: &mut Calc, row: u16) -> Result<(), Fail> {
    for col in 1..9u16 {
        fill(calc, col, row)?;
    }
    Ok(())
}

/// As many contents and formulas as a sheet may have.
fn full(alloc: Global) -> Result<Calc, Fail> {
    let mut calc = calc_of(alloc, &["set A1 7", "set B1 =A1+1"])?;
    for row in 1..8193u16 {
        fill_row(&mut calc, row)?;
    }
    Ok(calc)
}

/// The full sheet settles at once, and its last row shows what it must.
fn full_settles(alloc: Global, calc: &mut Calc) -> Result<bool, Fail> {
    let answer = refreshed(alloc, calc, 2, Version::One)?;
    Ok(answer.as_str() == "settled 1" && shows(alloc, calc, "C8192", "8")?)
}

#[test]
fn a_full_sheet_settles(rt: HostRuntime) -> Result<(), Fail> {
    let mut calc = full(rt.alloc())?;
    assert_eq!(rt; calc.cells().formulas(), 16384);
    assert_eq!(rt; calc.cells().contents(), 65536);
    assert!(rt; full_settles(rt.alloc(), &mut calc)?);
    Ok(())
}
