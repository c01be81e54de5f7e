//! Few ranges for many addresses.
use gl_plane::{Addr, Range, merged};
use std::alloc::Global;
use std::test::Fail;
use tests_common::{address, range};

fn places_of(alloc: Global, names: &[&str]) -> Result<Vec<Addr>, Fail> {
    let mut places = Vec::new(alloc);
    for name in names {
        places.push(address(name)?)?;
    }
    Ok(places)
}

pub fn ranges_of(alloc: Global, names: &[&str]) -> Result<Vec<Range>, Fail> {
    let mut ranges = Vec::new(alloc);
    for name in names {
        ranges.push(range(name)?)?;
    }
    Ok(ranges)
}

/// Addresses in the order in which they were edited, and the ranges that they make.
type Edit = (&'static [&'static str], &'static [&'static str]);

const EDITS: &[Edit] = &[
    (&[], &[]),
    (&["C3"], &["C3:C3"]),
    (&["C3", "C3"], &["C3:C3"]),
    (&["A2", "B2", "C2"], &["A2:C2"]),
    (&["C2", "B2", "A2"], &["A2:C2"]),
    (&["B1", "B2", "B3", "B4"], &["B1:B4"]),
    // by rows from the first to the last, by columns, and by rows from the last to the first
    (&["B2", "C2", "B3", "C3", "B4", "C4"], &["B2:C4"]),
    (&["B2", "B3", "B4", "C2", "C3", "C4"], &["B2:C4"]),
    (&["C3", "B3", "C2", "B2"], &["B2:C3"]),
    (
        &["A1", "C3", "E1", "B2"],
        &["A1:A1", "C3:C3", "E1:E1", "B2:B2"],
    ),
];

fn merges(alloc: Global, edit: &Edit) -> Result<bool, Fail> {
    let (places, ranges) = *edit;
    let found = merged(alloc, &places_of(alloc, places)?)?;
    Ok(found == ranges_of(alloc, ranges)?)
}

#[test]
fn neighbours_make_one_range(rt: HostRuntime) -> Result<(), Fail> {
    for edit in EDITS {
        assert!(rt; merges(rt.alloc(), edit)?, "{:?}", edit.0);
    }
    Ok(())
}
