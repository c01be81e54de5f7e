//! Contents from CSV.
#![tactic(auto)]

mod fault;
mod fields;
mod records;

ghost use Rattle.std.specs.Prelude.{IfOk};
ghost use Rattle.gl_calculus.specs.Formulas.Formula.{IsSheet};
ghost use Rattle.gl_protocol.specs.Scripts.Commands.{imported};
ghost use Rattle.gl_cells.specs.Sheet.{sheet, AreProper};
ghost use Rattle.gl_csvin.specs.Import.{Imports};
ghost use Rattle.gl_protocol.specs.Run.Records.{records_of};

pub use fault::CsvFault;
use gl_cells::Content;
use gl_plane::Addr;
use std::alloc::Global;

/// The contents of the nonempty fields of a payload: field j of record i, both from 0, belongs to
/// the address i rows below and j columns right of the given one. A field is a number, a truth
/// value or a text, and no formula. The addresses are in row-major order.
///
/// `Utf8` where some field is not UTF-8; else the fault of the first nonempty field that has one:
/// `Field` where it has more than `gl_value::MAX_TEXT` bytes, else `Grid` off the grid.
pub fn contents(alloc: Global, payload: &[u8], at: Addr) -> Result<Vec<(Addr, Content)>, CsvFault>
    ensures answers { Imports (imported at (records_of payload.now)) result }
    ensures rising { IfOk result (λ v. IsSheet (sheet v.items)) }
    ensures proper { IfOk result (λ v. AreProper v.items) }
{
    let records = records::all_records(alloc, records::without_mark(payload))?;
    if !records::are_text(&records) {
        return Err(CsvFault::Utf8);
    }
    fields::place_records(alloc, &records, at)
}
