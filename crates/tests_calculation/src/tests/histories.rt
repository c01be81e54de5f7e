//! Edits of one sheet, with a calculation behind each group of them.
ghost use Rattle.std.specs.Prelude.{◌≤◌};

use crate::tests::calculations::{Sheet, all_go_on};
use gl_calc::Calc;
use std::alloc::Global;
use std::test::Fail;

/// A content in the way of an array, and no longer
#[rattlefmt::skip]
const A_CONTENT_IN_THE_WAY: &[Sheet] = &[
    Sheet { lines: &["set A1 =SEQUENCE(3,1)", "set B1 =A1#*2"], ends: "settled 3",
        oracle: "oracle 2\nA1 3x1 permitted\nB1 3x1 permitted\n", shows: &[("A1", "1"), ("A2", "2"),
        ("A3", "3"), ("B1", "2"), ("B2", "4"), ("B3", "6"), ("C1", ".")],
        whys: &[("A1", "permitted"), ("B1", "permitted"), ("A2", "none")] },
    Sheet { lines: &["set A2 5"], ends: "settled 2", oracle: "oracle 1\nA1 3x1 refused\n",
        shows: &[("A1", "#SPILL!"), ("B1", "#SPILL!"), ("A2", "5"), ("B2", "."), ("A3", ".")],
        whys: &[("A1", "content A2"), ("B1", "none")] },
    Sheet { lines: &["clear A2"], ends: "settled 3",
        oracle: "oracle 2\nA1 3x1 permitted\nB1 3x1 permitted\n",
        shows: &[("A2", "2"), ("B3", "6")], whys: &[("A1", "permitted"), ("B1", "permitted")] },
];

#[rattlefmt::skip]
const THE_EDGE_IN_THE_WAY: &[Sheet] = &[
    Sheet { lines: &["set A9998 =SEQUENCE(3,1)"], ends: "settled 2",
        oracle: "oracle 1\nA9998 3x1 refused\n", shows: &[("A9998", "#SPILL!"), ("A9999", ".")],
        whys: &[("A9998", "edge")] },
    Sheet { lines: &["set A9998 =SEQUENCE(2,1)"], ends: "settled 2",
        oracle: "oracle 1\nA9998 2x1 permitted\n", shows: &[("A9998", "1"), ("A9999", "2")],
        whys: &[("A9998", "permitted")] },
    Sheet { lines: &["set B1 =A9999+5"], ends: "settled 2",
        oracle: "oracle 1\nA9998 2x1 permitted\n", shows: &[("B1", "7")],
        whys: &[("A9998", "permitted"), ("B1", "none")] },
    Sheet { lines: &["set A9998 =SEQUENCE(3,1)"], ends: "settled 2",
        oracle: "oracle 1\nA9998 3x1 refused\n", shows: &[("B1", "5")],
        whys: &[("A9998", "edge")] },
];

/// An array in a copy, and one that has no room there
#[rattlefmt::skip]
const ARRAYS_IN_A_COPY: &[Sheet] = &[
    Sheet { lines: &["set A1 2", "set B1 =SEQUENCE(A1,1)", "set D1 =G(A1:B3,A1,3)"],
        ends: "settled 2", oracle: "oracle 2\nB1 2x1 permitted\nD1 3x2 permitted\n",
        shows: &[("D1", "3"), ("E1", "1"), ("D2", "."), ("E2", "2"), ("D3", "."), ("E3", "3"),
        ("B2", "2"), ("B3", ".")], whys: &[("B1", "permitted"), ("D1", "permitted")] },
    Sheet { lines: &["set D1 =G(A1:B3,A1,4)"], ends: "settled 2",
        oracle: "oracle 2\nB1 2x1 permitted\nD1 3x2 permitted\n", shows: &[("D1", "4"),
        ("E1", "#SPILL!"), ("D2", "."), ("E2", "."), ("D3", "."), ("E3", "."), ("B2", "2")],
        whys: &[("D1", "permitted")] },
];

/// Behind each row of the history the sheet is as it says, by the pick rule of this kind.
fn history_holds(alloc: Global, rows: &[Sheet], kind: u8) -> Result<bool, Fail>
    requires { kind ≤ 2 }
{
    all_go_on(alloc, &mut Calc::new(alloc), rows, kind)
}

const HISTORIES: &[&[Sheet]] = &[A_CONTENT_IN_THE_WAY, THE_EDGE_IN_THE_WAY, ARRAYS_IN_A_COPY];

#[test]
fn edits_of_one_sheet(rt: HostRuntime) -> Result<(), Fail> {
    for (i, rows) in HISTORIES.iter().enumerate() {
        for kind in 0u8..3 {
            assert!(rt; history_holds(rt.alloc(), rows, kind)?, "{i} by {kind}");
        }
    }
    Ok(())
}
