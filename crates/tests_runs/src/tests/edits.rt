//! Edits at the limits of what can be undone, of a sheet and of a replica.
use crate::tests::calls::REFUSED;
use crate::tests::long::{Long, Part, assert_long};
use std::test::Fail;

/// A line of 64 fields, in 128 bytes.
const WIDE: &[u8] =
    b"1,1,1,1,1,1,1,1,1,1,1,1,1,1,1,1,1,1,1,1,1,1,1,1,1,1,1,1,1,1,1,1,1,1,1,1,1,1,1,1,1,1,1,1,1,1,1,1,1,1,1,1,1,1,1,1,1,1,1,1,1,1,1,1\n";

/// A line of 48 fields, in 96 bytes.
const NARROW: &[u8] =
    b"1,1,1,1,1,1,1,1,1,1,1,1,1,1,1,1,1,1,1,1,1,1,1,1,1,1,1,1,1,1,1,1,1,1,1,1,1,1,1,1,1,1,1,1,1,1,1,1\n";

#[rattlefmt::skip]
const EDITS: &[Long] = &[
    // of 257 steps the latest 256 are taken back, and done again, until an edit drops them
    (
        &[
            Part::Lines("set A1 ", 257, ""),
            Part::Times(b"", b"undo\n", 257, b"get A1\n"),
            Part::Times(b"", b"redo\n", 257, b"get A1\n"),
            Part::Times(b"", b"undo\n", 2, b"set A1 9\nredo\n"),
        ],
        &[
            Part::Times(b"", b"ok\n", 513, b"error undo\n1\n"),
            Part::Times(b"", b"ok\n", 256, b"error redo\n257\n"),
            Part::Times(b"", b"ok\n", 3, b"error redo\n"),
        ],
        REFUSED,
    ),
    // an import over the formulas of a sheet that is full is taken back, and done again
    (
        &[
            Part::Lines("set A", 8192, " =1"),
            Part::Lines("set B", 8192, " =1"),
            Part::Times(b"import C1 98304\n", NARROW, 1024, b"set ZZ9999 5\n"),
            Part::Times(b"import A1 32768\n", b"7,7\n", 8192, b"get A1\nundo\nget A1\nget B8192\nredo\nget B8192\nundo\nset ZZ9999 5\nundo\nset ZZ9999 5\n"),
        ],
        &[
            Part::Times(b"", b"ok\n", 16385, b"error contents\nok\n7\nok\n=1\n=1\nok\n7\nok\nerror contents\nok\nok\n"),
        ],
        REFUSED,
    ),
    // as many registers as a replica has, and one more
    (
        &[
            Part::Times(b"site 1\nimport A1 131072\n", WIDE, 1024, b"clear A1:ZZ9999\n"),
            Part::Times(b"import A2001 131072\n", WIDE, 1024, b"set A2001 5\nedit 1 2 A1 7\nedit 9 2 A1 7\nclear A2002\nset ZZ9999 5\nedit 9 2 ZZ9999 5\nimport ZY9999 4\n1,1\nedit 9 2 A1 7\nshow A1\nedit 9 2 ZZ9999\n"),
        ],
        &[
            Part::Once(b"ok\nok\nok\nok\nok\nok\nerror contents\nok\nerror edits\nerror edits\nerror edits\nok\n7\nerror edits\n"),
        ],
        REFUSED,
    ),
];

/// By each pick rule the edits have the replies that they must have.
#[test]
fn edits_at_their_limits(rt: HostRuntime) -> Result<(), Fail> {
    assert_long(&rt, rt.alloc(), EDITS)
}
