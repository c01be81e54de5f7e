//! Small sheets by each pick rule: what their calculations come to, their oracles, what addresses show,
//! and why roots have their permits.
use crate::tests::calculations::{Sheet, assert_sheets};
use std::test::Fail;

#[rattlefmt::skip]
const ARRAYS: &[Sheet] = &[
    Sheet { lines: &["set A2 =SEQUENCE(1,3)", "set B1 =SEQUENCE(3,1)"], ends: "settled 2",
        oracle: "oracle 2\nB1 3x1 permitted\nA2 1x3 refused\n",
        shows: &[("A2", "#SPILL!"), ("B2", "2"), ("B3", "3")],
        whys: &[("A2", "root B1"), ("B1", "permitted")] },
    // a content and a later root stand in the way of B1
    Sheet { lines: &["set B1 =SEQUENCE(3,1)", "set A2 =SEQUENCE(1,2)", "set B3 5"],
        ends: "settled 2", oracle: "oracle 2\nB1 3x1 refused\nA2 1x2 permitted\n",
        shows: &[("B1", "#SPILL!"), ("B2", "2"), ("B3", "5")],
        whys: &[("B1", "content B3"), ("A2", "permitted")] },
    // the oracle alternates
    Sheet { lines: &["set A1 =IF(C1=0,SEQUENCE(1,3),5)"], ends: "spent rounds A1", oracle: "",
        shows: &[], whys: &[] },
];

#[rattlefmt::skip]
const CELLS: &[Sheet] = &[
    // a ring, and a cell that demands it
    Sheet { lines: &["set A1 =B1", "set B1 =A1", "set C1 =IFERROR(A1,7)"], ends: "settled 1",
        oracle: "oracle 0\n", shows: &[("A1", "#CYCLE!"), ("B1", "#CYCLE!"), ("C1", "#CYCLE!")],
        whys: &[("A1", "none")] },
    Sheet { lines: &["set A1 =IF(TRUE,1,B1)", "set B1 =A1"], ends: "settled 1",
        oracle: "oracle 0\n", shows: &[("A1", "1"), ("B1", "1")], whys: &[] },
    Sheet { lines: &["set A1 3", "set B1 4", "set C1 =A1*A1+B1*B1", "set E1 =G(A1:C1,A1,6)"],
        ends: "settled 2", oracle: "oracle 1\nE1 1x3 permitted\n",
        shows: &[("E1", "6"), ("F1", "4"), ("G1", "52"), ("C1", "25")], whys: &[] },
    Sheet { lines: &["set A1 1", "set B1 =C1+A1", "set C1 =G(A1:B1,A1,5)"], ends: "settled 1",
        oracle: "oracle 0\n", shows: &[("A1", "1"), ("B1", "#CYCLE!"), ("C1", "#CYCLE!")],
        whys: &[] },
    Sheet { lines: &["set A1 0", "set B1 =IF(A1=0,0,A1+VIEW(UPDATE(SHEET(A1:B1),A1,A1-1),B1))",
        "set D1 =VIEW(UPDATE(SHEET(A1:B1),A1,63),B1)"], ends: "settled 1", oracle: "oracle 0\n",
        shows: &[("D1", "2016")], whys: &[] },
    Sheet { lines: &["set A1 0", "set B1 =IF(A1=0,0,A1+VIEW(UPDATE(SHEET(A1:B1),A1,A1-1),B1))",
        "set D1 =VIEW(UPDATE(SHEET(A1:B1),A1,95),B1)"], ends: "settled 1", oracle: "oracle 0\n",
        shows: &[("D1", "4560")], whys: &[] },
    Sheet { lines: &["set A1 0", "set B1 =IF(A1=0,0,A1+VIEW(UPDATE(SHEET(A1:B1),A1,A1-1),B1))",
        "set D1 =VIEW(UPDATE(SHEET(A1:B1),A1,96),B1)"], ends: "spent depth D1", oracle: "",
        shows: &[], whys: &[] },
    Sheet { lines: &["set D1 0", "set A2 =SEQUENCE(1,3)",
        "set B1 =IF(D1=0,1,IF(ISERROR(ROWS(A2#)),1,SEQUENCE(3,1)))", "set F1 =G(A1:D3,D1,1)"],
        ends: "spent copyrounds F1", oracle: "", shows: &[], whys: &[] },
    // the same on the sheet itself
    Sheet { lines: &["set D1 1", "set A2 =SEQUENCE(1,3)",
        "set B1 =IF(D1=0,1,IF(ISERROR(ROWS(A2#)),1,SEQUENCE(3,1)))"], ends: "spent rounds B1",
        oracle: "", shows: &[], whys: &[] },
    Sheet { lines: &["set A1 1", "set B1 =A1*10", "set C1 =VIEW(SHEET(B1),B1)",
        "set D1 =VIEW(UPDATE(SHEET(A1:C1),A1,7),C1)"], ends: "settled 1", oracle: "oracle 0\n",
        shows: &[("C1", "10"), ("D1", "70")], whys: &[] },
];

#[test]
fn sheets_with_arrays_and_cells(rt: HostRuntime) -> Result<(), Fail> {
    assert_sheets(&rt, rt.alloc(), ARRAYS)?;
    assert_sheets(&rt, rt.alloc(), CELLS)
}
