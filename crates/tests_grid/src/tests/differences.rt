//! Where two oracles differ, by ranges and address by address, and oracles once more.
ghost use Rattle.std.specs.Prelude.{IfOk};
ghost use Rattle.gl_calculus.specs.Calculation.Differences.{AreApart};

use crate::tests::grant::{OneContent, append, granted};
use gl_plane::{Addr, Oracle, Range, Sizes};
use std::alloc::Global;
use std::test::Fail;
use tests_common::address;

/// One address with content, and arrays by their roots, rows and columns.
type Arrays = (&'static str, &'static [(&'static str, u16, u16)]);

/// Two oracles, and how many ranges tell where they differ.
struct Pair {
    before: Arrays,
    after: Arrays,
    ranges: usize,
}

#[rattlefmt::skip]
const PAIRS: &[Pair] = &[
    Pair { before: ("F6", &[("A1", 1, 2), ("B2", 2, 2)]),
        after: ("F6", &[("A1", 1, 2), ("B2", 2, 2)]), ranges: 0 },
    // a new entry that spills, one that doesn't, and one before an equal one
    Pair { before: ("F6", &[]), after: ("F6", &[("B2", 2, 2)]), ranges: 2 },
    Pair { before: ("C3", &[]), after: ("C3", &[("B2", 2, 2)]), ranges: 1 },
    Pair { before: ("F6", &[("B2", 2, 2)]), after: ("F6", &[("A1", 1, 3), ("B2", 2, 2)]),
        ranges: 2 },
    // a permit that changes by a content, and one by another array
    Pair { before: ("C3", &[("B2", 2, 2)]), after: ("F6", &[("B2", 2, 2)]), ranges: 2 },
    Pair { before: ("F6", &[("B1", 3, 1), ("A2", 1, 3)]),
        after: ("F6", &[("B1", 1, 1), ("A2", 1, 3)]), ranges: 3 },
    // spills that grow in rows, in columns, in both, and in rows alone
    Pair { before: ("F6", &[("B2", 2, 2)]), after: ("F6", &[("B2", 3, 2)]), ranges: 1 },
    Pair { before: ("F6", &[("B2", 2, 2)]), after: ("F6", &[("B2", 2, 3)]), ranges: 1 },
    Pair { before: ("F6", &[("B2", 2, 2)]), after: ("F6", &[("B2", 3, 4)]), ranges: 2 },
    Pair { before: ("F6", &[("B2", 1, 3)]), after: ("F6", &[("B2", 3, 1)]), ranges: 2 },
    // another size of an array that may not spill
    Pair { before: ("C3", &[("B2", 2, 2)]), after: ("C3", &[("B2", 3, 3)]), ranges: 0 },
    // roots that alternate
    Pair { before: ("F6", &[("A1", 1, 1), ("A3", 2, 2), ("E4", 1, 1)]),
        after: ("F6", &[("B1", 2, 2), ("A3", 2, 1), ("D4", 2, 2)]), ranges: 9 },
];

/// The oracle of these arrays: no two areas that spill meet.
#[tactic(auto, using(laws_calculus::proofs::Calculus::Apart::apart))]
fn oracle_of(alloc: Global, arrays: &Arrays) -> Result<Oracle, Fail>
    ensures { IfOk result AreApart }
{
    let mut sizes = Sizes::new(alloc);
    for (root, rows, cols) in arrays.1 {
        append(&mut sizes, address(root)?, *rows, *cols)?;
    }
    let blocks = OneContent {
        at: address(arrays.0)?,
    };
    granted(alloc, &sizes, &blocks)
}

/// The address has another status in the other oracle.
fn status_differs(w: &Oracle, v: &Oracle, a: Addr) -> bool {
    w.status(a) != v.status(a)
}

/// The address has another cover in the other oracle.
fn cover_differs(w: &Oracle, v: &Oracle, a: Addr) -> bool {
    w.cover(a) != v.cover(a)
}

/// The address has another status or another cover in the other oracle.
fn differs(w: &Oracle, v: &Oracle, a: Addr) -> bool {
    status_differs(w, v, a) || cover_differs(w, v, a)
}

/// In a row of a small grid, the ranges cover the addresses at which the oracles differ.
fn row_is_told(w: &Oracle, v: &Oracle, ranges: &[Range], row: u16) -> Result<bool, Fail> {
    for col in 1u16..8 {
        let a = Addr::new(col, row).ok_or("address")?;
        if ranges.iter().any(|r| r.covers(a)) != differs(w, v, a) {
            return Ok(false);
        }
    }
    Ok(true)
}

/// In a small grid, the ranges cover the addresses at which the oracles differ.
fn is_told(w: &Oracle, v: &Oracle, ranges: &[Range]) -> Result<bool, Fail> {
    for row in 1u16..8 {
        if !row_is_told(w, v, ranges, row)? {
            return Ok(false);
        }
    }
    Ok(true)
}

/// The differences of the oracles are these many ranges, and told right.
fn holds(alloc: Global, before: &Arrays, after: &Arrays, count: usize) -> Result<bool, Fail> {
    let w = oracle_of(alloc, before)?;
    let v = oracle_of(alloc, after)?;
    let ranges = w.differences(alloc, &v)?;
    Ok(ranges.len() == count && is_told(&w, &v, &ranges)?)
}

#[test]
fn differences_are_told_both_ways(rt: HostRuntime) -> Result<(), Fail> {
    let alloc = rt.alloc();
    for (i, pair) in PAIRS.iter().enumerate() {
        let (before, after) = (&pair.before, &pair.after);
        assert!(rt; holds(alloc, before, after, pair.ranges)?, "at {i}");
        assert!(rt; holds(alloc, after, before, pair.ranges)?, "back at {i}");
    }
    Ok(())
}

/// A copy of the oracle is equal, and says the same of each address.
fn copies(alloc: Global, arrays: &Arrays) -> Result<bool, Fail> {
    let w = oracle_of(alloc, arrays)?;
    let v = w.copy(alloc)?;
    Ok(w == v && is_told(&w, &v, &[])?)
}

#[test]
fn copies_are_equal(rt: HostRuntime) -> Result<(), Fail> {
    for (i, pair) in PAIRS.iter().enumerate() {
        assert!(rt; copies(rt.alloc(), &pair.after)?, "at {i}");
    }
    Ok(())
}
