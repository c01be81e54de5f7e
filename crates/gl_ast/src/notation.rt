//! Numbers, truth values, addresses and ranges, as they are written. What a text holds after `NoMemory` is not told.

ghost use Rattle.std.specs.Prelude.{◌≡◌, ◌++◌, ◌≤◌, OnOk};
ghost use Rattle.std.specs.{Fmt.decimal, Fmt.signed_decimal, String.string_bytes};
ghost use Rattle.gl_calculus.specs.Grid.Notation as notation;
ghost use Rattle.gl_language.specs.Texts.Text as text;

use gl_plane::{Addr, NoMemory, Range};
use std::alloc::Global;

/// Appends an integer in decimal.
pub fn put_int(alloc: Global, out: &mut String, n: i64) -> Result<(), NoMemory>
    ensures { OnOk result (string_bytes out.new ≡ string_bytes out.old ++ signed_decimal n) }
{
    let digits = n.to_string(alloc)?;
    out.push_str(digits.as_str())?;
    Ok(())
}

/// Appends a number in decimal.
pub fn put_number(alloc: Global, out: &mut String, n: usize) -> Result<(), NoMemory>
    ensures { OnOk result (string_bytes out.new ≡ string_bytes out.old ++ decimal n) }
{
    let digits = n.to_string(alloc)?;
    out.push_str(digits.as_str())?;
    Ok(())
}

fn put_column(out: &mut String, col: u16) -> Result<(), NoMemory>
    requires some { 1 ≤ col }
    requires few { col ≤ 702 }
    ensures { OnOk result (
        string_bytes out.new ≡ string_bytes out.old ++ notation.column_text col) }
{
    if col <= 26 {
        out.push((64 + col as u8) as char)?;
        return Ok(());
    }
    out.push((64 + ((col - 1) / 26) as u8) as char)?;
    out.push((65 + ((col - 1) % 26) as u8) as char)?;
    Ok(())
}

/// Appends an address.
pub fn put_address(alloc: Global, out: &mut String, a: Addr) -> Result<(), NoMemory>
    ensures { OnOk result (string_bytes out.new ≡ string_bytes out.old ++ notation.address_text a) }
{
    put_column(out, a.col())?;
    put_number(alloc, out, usize::from(a.row()))?;
    Ok(())
}

/// Appends a range, with both corners.
pub fn put_range(alloc: Global, out: &mut String, r: Range) -> Result<(), NoMemory>
    ensures { OnOk result (string_bytes out.new ≡ string_bytes out.old ++ text.range_text r) }
{
    put_address(alloc, out, r.first)?;
    out.push_str(":")?;
    put_address(alloc, out, r.last)?;
    Ok(())
}

/// Appends `TRUE` or `FALSE`.
pub fn put_truth(out: &mut String, b: bool) -> Result<(), NoMemory>
    ensures { OnOk result (string_bytes out.new ≡ string_bytes out.old ++ text.truth_text b) }
{
    if b {
        out.push_str("TRUE")?;
    } else {
        out.push_str("FALSE")?;
    }
    Ok(())
}
