//! What ranges demand, by each pick rule: nothing behind a cell that loops or is spent, and of
//! blanks the roots that spill over them, each in its own frame.
use crate::tests::references::Entry;
use crate::tests::runs::Sight;
use crate::tests::sheets::{Sheet, assert_sheets};
use gl_plane::Permit;
use std::test::Fail;

/// All of five cells but the third.
const OTHERS: &[&str] = &["set A1 =1", "set A2 =2", "set A4 =4", "set A5 =5"];

/// Ranges whose third cell loops or is spent.
#[rattlefmt::skip]
const STOPPED: &[Sheet] = &[
    // the third cell reads the total
    Sheet { lines: &[OTHERS, &["set A3 =B1", "set B1 =SUM(A1:A5)"]], seeds: &["B1"], demanded: 4,
        steps: [4, 4, 4], sees: &[("B1", Sight::Loops), ("A2", Sight::Number(2)),
        ("A3", Sight::Loops), ("A4", Sight::NotDemanded), ("A5", Sight::NotDemanded)] },
    // a seed behind it is known, and the total doesn't go on to it
    Sheet { lines: &[OTHERS, &["set A3 =A3", "set B1 =SUM(A1:A5)"]], seeds: &["B1", "A5"],
        demanded: 5, steps: [5, 5, 5], sees: &[("B1", Sight::Loops), ("A3", Sight::Loops),
        ("A4", Sight::NotDemanded), ("A5", Sight::Number(5))] },
    // all are seeds: each is evaluated once, whichever comes first
    Sheet { lines: &[OTHERS, &["set A3 =B1", "set B1 =SUM(A1:A5)"]],
        seeds: &["B1", "A1", "A2", "A3", "A4", "A5"], demanded: 6, steps: [6, 6, 6],
        sees: &[("B1", Sight::Loops), ("A3", Sight::Loops), ("A4", Sight::Number(4)),
        ("A5", Sight::Number(5))] },
    // another formula demands what stands behind it
    Sheet { lines: &[OTHERS, &["set A3 =A3", "set B1 =IFERROR(SUM(A1:A5),0)", "set C1 =A4+A5"]],
        seeds: &["B1", "C1"], demanded: 7, steps: [8, 8, 8],
        sees: &[("B1", Sight::Loops), ("A5", Sight::Number(5)), ("C1", Sight::Number(9))] },
    // a copy goes through its formulas as a range does
    Sheet { lines: &[OTHERS, &["set A3 =A3", "set C1 =G(A1:A5,A5,9)"]], seeds: &["C1"],
        demanded: 5, steps: [5, 5, 5], sees: &[("C1", Sight::Loops), ("A1", Sight::NotDemanded)] },
    // the third cell is spent: the total takes two steps
    Sheet { lines: &[OTHERS, &["set A3 =G(D1:G3,G1,1)", "set B1 =SUM(A1:A5)",
        "set E1 =IF(G1=0,1,IF(ISERROR(ROWS(D2#)),1,SEQUENCE(3,1)))", "set D2 =SEQUENCE(1,3)",
        "set G1 0"]], seeds: &["B1"], demanded: 11, steps: [17, 17, 17],
        sees: &[("A3", Sight::CopyRounds), ("B1", Sight::CopyRounds), ("A4", Sight::NotDemanded)] },
];

#[test]
fn ranges_that_stop(rt: HostRuntime) -> Result<(), Fail> {
    assert_sheets(&rt, rt.alloc(), None, STOPPED)
}

/// The array of A1 spills over the two cells below it.
const DOWN: Entry = ("A1", 3, 1, Permit::Permitted);

/// The array of A1 in the sheet, and a number in a copy in which C1 is 2.
const ONCE: &[&str] = &[
    "set A1 =IF(C1=1,SEQUENCE(3,1),7)",
    "set B1 =SUM(A1:A3)",
    "set C1 1",
    "set D1 =VIEW(UPDATE(SHEET(A1:C1),C1,2),B1)",
];

/// An array of as many times C1 as its rows.
const TIMES: &[&str] = &["set A1 =SEQUENCE(3,1)*C1", "set C1 1"];

/// Ranges with blanks that the array of A1 spills over.
#[rattlefmt::skip]
const SPILLED_DOWN: &[Sheet] = &[
    // the root is in the copy, and the blanks aren't: A1 is demanded in the copy and in the sheet
    Sheet { lines: &[ONCE], seeds: &["D1"], demanded: 5, steps: [8, 8, 8],
        sees: &[("D1", Sight::Number(12)), ("A1", Sight::Other), ("B1", Sight::NotDemanded)] },
    Sheet { lines: &[ONCE], seeds: &["B1", "D1"], demanded: 6, steps: [9, 9, 9],
        sees: &[("B1", Sight::Number(6)), ("D1", Sight::Number(12))] },
    // an array of the copy, and that of the sheet
    Sheet { lines: &[TIMES,
        &["set B1 =SUM(A1:A3)", "set D1 =VIEW(UPDATE(SHEET(A1:C3),C1,10),B1)+SUM(A1:A3)"]],
        seeds: &["D1"], demanded: 7, steps: [11, 11, 11],
        sees: &[("D1", Sight::Number(66)), ("B1", Sight::NotDemanded)] },
    // a copy in a copy reads the array of the outer one, in each of its two rounds
    Sheet { lines: &[TIMES, &["set B1 =VIEW(SHEET(D1),D1)", "set D1 =SUM(A1:A3)",
        "set F1 =VIEW(UPDATE(SHEET(A1:D3),C1,10),B1)"]], seeds: &["F1"], demanded: 12,
        steps: [19, 19, 19], sees: &[("F1", Sight::Number(60)), ("A1", Sight::NotDemanded),
        ("D1", Sight::NotDemanded)] },
    // two roots over the blanks of a range, one of them in the range too
    Sheet { lines: &[&["set A1 =SEQUENCE(3,1)", "set B2 =SEQUENCE(2,2)*E1", "set D1 =SUM(A2:C3)",
        "set E1 1", "set F1 =VIEW(UPDATE(SHEET(A1:E3),E1,10),D1)"]], seeds: &["F1"], demanded: 8,
        steps: [13, 13, 13], sees: &[("F1", Sight::Number(105)), ("B2", Sight::NotDemanded)] },
];

#[test]
fn ranges_over_blanks_below(rt: HostRuntime) -> Result<(), Fail> {
    assert_sheets(&rt, rt.alloc(), Some(DOWN), SPILLED_DOWN)
}

/// The array of A1 spills over the two cells beside it.
const ACROSS: Entry = ("A1", 1, 3, Permit::Permitted);

/// Where an array of the sheet spills over cells of the copy these are blank.
const SPILLED_ACROSS: &[Sheet] = &[Sheet {
    lines: &[&[
        "set A1 =SEQUENCE(1,3)",
        "set D1 =SUM(A1:C1)",
        "set E1 =VIEW(SHEET(B1:D1),D1)",
    ]],
    seeds: &["D1", "E1"],
    demanded: 5,
    steps: [8, 8, 8],
    sees: &[("D1", Sight::Number(6)), ("E1", Sight::Number(1))],
}];

#[test]
fn ranges_over_blanks_beside(rt: HostRuntime) -> Result<(), Fail> {
    assert_sheets(&rt, rt.alloc(), Some(ACROSS), SPILLED_ACROSS)
}
