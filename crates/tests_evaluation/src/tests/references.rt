//! What references look at, read and come to.
use crate::tests::texts::{is_written, keys_text, ranges_text};
use crate::tests::turns::turn_under;
use gl_demand::Turn;
use gl_plane::{Oracle, Permit};
use std::alloc::Global;
use std::test::Fail;
use tests_common::{one_entry, put_line, sheet_of};

/// An array of four elements, a number that is computed, and one that is not.
const REFERENCES: &[&str] = &["set A1 =SEQUENCE(2,2)", "set D1 =7", "set A5 3"];

/// The root, the rows, the columns and the permit of an entry.
pub type Entry = (&'static str, u16, u16, Permit);

/// No array has an entry.
const NONE: Option<Entry> = None;

/// The array of A1 spills over two columns and one row more.
const SPILLS: Option<Entry> = Some(("A1", 3, 2, Permit::Permitted));

/// The array of A1 may not spill.
const REFUSED: Option<Entry> = Some(("A1", 2, 2, Permit::Refused));

/// The number of D1 has an entry, as an array.
const NO_ARRAY: Option<Entry> = Some(("D1", 1, 2, Permit::Permitted));

/// An oracle of at most one entry, a formula in Z1 under it, what that looks at and reads, and what it
/// comes to.
type Row = (
    Option<Entry>,
    &'static str,
    &'static str,
    &'static str,
    &'static str,
);

#[rattlefmt::skip]
const ROWS: &[Row] = &[
    (NONE, "set Z1 =A5", "Z1:Z1, A5:A5", "", "3"),
    (NONE, "set Z1 =D1", "Z1:Z1, D1:D1", "D1", "7"),
    (NONE, "set Z1 =A1", "Z1:Z1, A1:A1", "A1", "1"),
    (NONE, "set Z1 =B2", "Z1:Z1, B2:B2", "", "."),
    (NONE, "set Z1 =A1#", "Z1:Z1, A1:A1", "", "#REF!"),
    (NONE, "set Z1 =A1:B2", "Z1:Z1, A1:B2", "A1", "1 . / . ."),
    (SPILLS, "set Z1 =A1", "Z1:Z1, A1:A1", "A1", "1"),
    (SPILLS, "set Z1 =B2", "Z1:Z1, B2:B2, A1:A1", "A1", "4"),
    (SPILLS, "set Z1 =B3", "Z1:Z1, B3:B3, A1:A1", "A1", "."),
    (SPILLS, "set Z1 =A1#", "Z1:Z1, A1:A1", "A1", "1 2 / 3 4"),
    (SPILLS, "set Z1 =B2#", "Z1:Z1, B2:B2", "", "#REF!"),
    (SPILLS, "set Z1 =A5#", "Z1:Z1, A5:A5", "", "#REF!"),
    (SPILLS, "set Z1 =B1:D2", "Z1:Z1, B1:D2, A1:A1", "A1, D1", "2 . 7 / 4 . ."),
    (REFUSED, "set Z1 =A1", "Z1:Z1, A1:A1", "A1", "#SPILL!"),
    (REFUSED, "set Z1 =B2", "Z1:Z1, B2:B2", "", "."),
    (REFUSED, "set Z1 =A1#", "Z1:Z1, A1:A1", "", "#SPILL!"),
    (REFUSED, "set Z1 =A1:B1", "Z1:Z1, A1:B1", "A1", "#SPILL! ."),
    (NO_ARRAY, "set Z1 =E1", "Z1:Z1, E1:E1, D1:D1", "D1", "."),
    (NO_ARRAY, "set Z1 =D1#", "Z1:Z1, D1:D1", "D1", "#REF!"),
    (NO_ARRAY, "set Z1 =D1:E1", "Z1:Z1, D1:E1, D1:D1", "D1", "7 ."),
];

/// An oracle of at most one entry.
pub fn oracle_of(alloc: Global, entry: Option<Entry>) -> Result<Oracle, Fail> {
    match entry {
        Some((root, rows, cols, permit)) => one_entry(alloc, root, rows, cols, permit),
        None => Ok(Oracle::new(alloc)),
    }
}

/// The evaluation looked at, read and found what the row says.
fn is_as_said(alloc: Global, turn: &Turn, row: &Row) -> Result<bool, Fail> {
    let (_, _, looked, reads, want) = *row;
    Ok(
        ranges_text(alloc, &turn.looked)?.as_str() == looked
            && keys_text(alloc, &turn.reads)?.as_str() == reads
            && is_written(alloc, &turn.found, want)?,
    )
}

/// The formula of the row is as it says.
fn refers(alloc: Global, row: &Row) -> Result<bool, Fail> {
    let mut cells = sheet_of(alloc, REFERENCES)?;
    put_line(alloc, &mut cells, row.1)?;
    let w = oracle_of(alloc, row.0)?;
    is_as_said(alloc, &turn_under(alloc, &cells, &w, "Z1")?, row)
}

#[test]
fn references(rt: HostRuntime) -> Result<(), Fail> {
    for row in ROWS {
        assert!(rt; refers(rt.alloc(), row)?, "{} under {:?}", row.1, row.0);
    }
    Ok(())
}
