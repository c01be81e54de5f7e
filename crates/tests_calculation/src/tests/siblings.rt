//! Copies that differ in one cell, each with a copy inside.
ghost use Rattle.std.specs.Prelude.{◌≤◌};

use crate::tests::calculations::{Sheet, all_go_on, calc_of, edit};
use gl_calc::Calc;
use std::alloc::Global;
use std::test::Fail;

/// In this row of the fifth column what a copy comes to in whose first cell is the number of the row.
fn put_copy(alloc: Global, calc: &mut Calc, row: u16) -> Result<(), Fail> {
    let line = format!(in alloc; "set E{row} =VIEW(UPDATE(SHEET(A1:C1),A1,{row}),C1)")?;
    edit(alloc, calc, line.as_str())
}

/// A copy for each of 3,000 rows, and in each copy one that changes nothing.
fn siblings(alloc: Global) -> Result<Calc, Fail> {
    let mut calc = calc_of(
        alloc,
        &["set A1 1", "set B1 =A1*10", "set C1 =VIEW(SHEET(B1),B1)"],
    )?;
    for row in 1..3_001u16 {
        put_copy(alloc, &mut calc, row)?;
    }
    Ok(calc)
}

/// What some of the copies show, behind edits.
#[rattlefmt::skip]
const BEHIND: &[Sheet] = &[
    Sheet { lines: &[], ends: "settled 1", oracle: "oracle 0\n", shows: &[("C1", "10"),
        ("E1", "10"), ("E2", "20"), ("E150", "1500"), ("E2999", "29990"), ("E3000", "30000")],
        whys: &[("E1", "none")] },
    // a formula of every copy
    Sheet { lines: &["set B1 =A1*20"], ends: "settled 1", oracle: "oracle 0\n",
        shows: &[("C1", "20"), ("E1", "20"), ("E150", "3000"), ("E3000", "60000")], whys: &[] },
    // a formula of one
    Sheet { lines: &["set E7 1"], ends: "settled 1", oracle: "oracle 0\n",
        shows: &[("E6", "120"), ("E7", "1"), ("E8", "160")], whys: &[] },
];

/// By the pick rule of this kind the copies show what they must behind each edit.
fn siblings_hold(alloc: Global, kind: u8) -> Result<bool, Fail>
    requires { kind ≤ 2 }
{
    all_go_on(alloc, &mut siblings(alloc)?, BEHIND, kind)
}

#[test]
fn copies_with_a_copy_inside(rt: HostRuntime) -> Result<(), Fail> {
    for kind in 0u8..3 {
        assert!(rt; siblings_hold(rt.alloc(), kind)?, "kind {kind}");
    }
    Ok(())
}
