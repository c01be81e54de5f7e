//! Which keys are proper: cells whose formula the frame evaluates, and every settling.
use crate::tests::turns::cell;
use gl_cells::Cells;
use gl_demand::{Key, proper};
use gl_plane::Oracle;
use std::alloc::Global;
use std::test::Fail;
use tests_common::{address, frame, plain_sheet, share_sheet, sheet_of, with_number};

/// Formulas in A1, B2 and D4, and a constant in A2.
fn sheet(alloc: Global) -> Result<Cells, Fail> {
    sheet_of(
        alloc,
        &["set A1 =1+1", "set A2 5", "set B2 =A2", "set D4 =A1"],
    )
}

/// Whether the key is sound, and proper in the sheet.
fn is_proper(cells: &Cells, key: &Key) -> Result<bool, Fail> {
    if !key.is_sound() {
        return Err("not sound".into());
    }
    Ok(proper(cells, key))
}

/// Cells of the sheet, and whether their keys are proper.
const TOP: &[(&str, bool)] = &[
    ("A1", true),
    ("B2", true),
    ("D4", true),
    ("A2", false),
    ("C3", false),
    ("ZZ9999", false),
];

#[test]
fn cells_of_the_sheet(rt: HostRuntime) -> Result<(), Fail> {
    let cells = sheet(rt.alloc())?;
    for (name, is) in TOP {
        assert_eq!(rt; is_proper(&cells, &cell(name)?)?, *is, "{name}");
    }
    Ok(())
}

/// Cells of a copy of A1:B3 in which B2 is a number. Behind its region nothing is proper, though the
/// sheet has a formula there.
const COPY: &[(&str, bool)] = &[
    ("A1", true),
    ("B2", false),
    ("A2", false),
    ("B3", false),
    ("D4", false),
    ("C1", false),
];

#[test]
fn cells_of_a_copy(rt: HostRuntime) -> Result<(), Fail> {
    let alloc = rt.alloc();
    let cells = sheet(alloc)?;
    let plain = plain_sheet(alloc, "A1:B3")?;
    let copy = with_number(alloc, &*plain, "B2", 7)?;
    for (name, is) in COPY {
        let env = frame(alloc, share_sheet(&copy)?, Oracle::new(alloc))?;
        let key = Key::Cell(env, address(name)?);
        assert_eq!(rt; is_proper(&cells, &key)?, *is, "{name}");
    }
    assert!(rt; is_proper(&cells, &Key::Settle(copy))?);
    Ok(())
}
