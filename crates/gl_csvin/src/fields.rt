//! The fields of records at their addresses.
ghost use Rattle.std.specs.Prelude.{◌+◌, ◌<◌, ◌^◌, ◌∷◌, [], map, length, IsTrue, IfOk};
ghost use Rattle.std.specs.Prelude.{OnOk, SomeIff};
ghost use Rattle.std.specs.{List.list_all, Str.is_utf8};
ghost use Rattle.csv.specs.Records.{fields_of};
ghost use Rattle.gl_calculus.specs.Grid.Grid.{addr, covers, grid};
ghost use Rattle.gl_calculus.specs.Formulas.Formula.{IsSheet};
ghost use Rattle.gl_protocol.specs.Scripts.Commands.{contents, fields, fields_of_record};
ghost use Rattle.gl_cells.specs.Sheet.{sheet, AreProper};
ghost use Rattle.gl_csvin.specs.Import.{Adds, Imports};

use crate::CsvFault;
use csv::ByteRecord;
use gl_cells::{Content, plain_scalar};
use gl_plane::Addr;
use gl_value::MAX_TEXT;
use std::alloc::Global;
use std::str::from_utf8;

/// The contents of all records, the first one at an address, each one below the one before.
pub fn place_records(
    alloc: Global,
    records: &[ByteRecord],
    at: Addr,
) -> Result<Vec<(Addr, Content)>, CsvFault>
    requires text { IsTrue (list_all (list_all is_utf8) (map fields_of records.now)) }
    requires few { length records.now < 2 ^ 63 }
    ensures answers { Imports (contents (fields at (map fields_of records.now))) result }
    ensures rising { IfOk result (λ v. IsSheet (sheet v.items)) }
    ensures proper { IfOk result (λ v. AreProper v.items) }
{
    let mut list = Vec::new(alloc);
    let mut row = usize::from(at.row());
    for record in records {
        if let Err(fault) = place_record(alloc, record, row, at.col(), &mut list) {
            return Err(fault);
        }
        row += 1;
    }
    Ok(list)
}

/// Adds the contents of a record that begins at a row and a column.
fn place_record(
    alloc: Global,
    byte_record: &ByteRecord,
    row: usize,
    col: u16,
    list: &mut Vec<(Addr, Content)>,
) -> Result<(), CsvFault>
    requires text { IsTrue (list_all is_utf8 (fields_of byte_record.now)) }
    requires proper { AreProper list.old.items }
    ensures adds { Adds (fields_of_record (addr col row) (fields_of byte_record.now)) list.old.items
        list.new.items result }
    ensures proper { OnOk result (AreProper list.new.items) }
{
    let mut j = 0;
    while let Some(field) = byte_record.get(j) {
        if let Err(fault) = place_field(alloc, field, row, col, j, list) {
            return Err(fault);
        }
        j += 1;
    }
    Ok(())
}

/// Adds the content of a field that stands `j` columns right of a row's column.
fn place_field(
    alloc: Global,
    field: &[u8],
    row: usize,
    col: u16,
    j: usize,
    list: &mut Vec<(Addr, Content)>,
) -> Result<(), CsvFault>
    requires text { IsTrue (is_utf8 field.now) }
    requires proper { AreProper list.old.items }
    ensures adds { Adds (fields_of_record (addr (col + j) row) (field.now ∷ [])) list.old.items
        list.new.items result }
    ensures proper { OnOk result (AreProper list.new.items) }
{
    if field.is_empty() {
        return Ok(());
    }
    if field.len() > MAX_TEXT {
        return Err(CsvFault::Field);
    }
    let Some(a) = address(row, col, j) else {
        return Err(CsvFault::Grid);
    };
    let Ok(text) = from_utf8(field) else {
        return Err(CsvFault::Utf8);
    };
    let Ok(value) = plain_scalar(alloc, text) else {
        return Err(CsvFault::NoMemory);
    };
    if list.push((a, Content::Const(value))).is_err() {
        return Err(CsvFault::NoMemory);
    }
    Ok(())
}

/// The address `j` columns right of a row's column, where it is on the grid.
fn address(row: usize, col: u16, j: usize) -> Option<Addr>
    ensures { SomeIff result (IsTrue (covers grid (addr (col + j) row))) (addr (col + j) row) }
{
    let row = u16::try_from(row).ok()?;
    let col = u16::try_from(j).ok()?.checked_add(col)?;
    Addr::new(col, row)
}
