//! The generated script.
ghost use Rattle.std.specs.Prelude.{◌≡◌, ◌≤◌, ◌++◌, IfOk, OnOk, codes, length};
ghost use Rattle.std.specs.{Fmt.decimal, String.string_bytes};
ghost use Rattle.gl_calculus.specs.Grid.Limits.{max_generated};
ghost use Rattle.gl_protocol.specs.Scripts.Output.{row_number, generated_payload, recursion_line};
ghost use Rattle.gl_protocol.specs.Scripts.Output.{generated};
ghost use Rattle.gl_protocol.specs.Replies.Tables.{line};

use gl_ast::{put, put_number};
use gl_plane::NoMemory;
use std::alloc::Global;

// A row of the payload: its number, and what the square of that leaves by 97.
fn put_row(alloc: Global, out: &mut String, i: u32) -> Result<(), NoMemory>
    requires { i ≤ max_generated }
    ensures { OnOk result (string_bytes out.new ≡ string_bytes out.old ++ row_number i) }
{
    put_number(alloc, out, i as usize)?;
    put(out, ",")?;
    put_number(alloc, out, (i * i % 97) as usize)?;
    put(out, "\n")?;
    Ok(())
}

// The payload of so many rows.
fn payload(alloc: Global, n: u32) -> Result<String, NoMemory>
    requires { n ≤ max_generated }
    ensures { IfOk result (λ rows. string_bytes rows ≡ generated_payload n) }
{
    let mut rows = String::new(alloc);
    for i in 0..n {
        put_row(alloc, &mut rows, i + 1)?;
    }
    Ok(rows)
}

// The import of the payload.
fn put_import(alloc: Global, out: &mut String, rows: &str) -> Result<(), NoMemory>
    ensures { OnOk result (
        string_bytes out.new
        ≡ string_bytes out.old
        ++ (line (codes "import A1 " ++ decimal (length rows.now)) ++ rows.now)) }
{
    put(out, "import A1 ")?;
    put_number(alloc, out, rows.len())?;
    put(out, "\n")?;
    put(out, rows)?;
    Ok(())
}

// The products of its columns.
fn put_products(alloc: Global, out: &mut String, n: u32) -> Result<(), NoMemory>
    ensures { OnOk result (
        string_bytes out.new
        ≡ string_bytes out.old
        ++ line (codes "set D1 =A1:A" ++ decimal n ++ codes "*B1:B" ++ decimal n)) }
{
    put(out, "set D1 =A1:A")?;
    put_number(alloc, out, n as usize)?;
    put(out, "*B1:B")?;
    put_number(alloc, out, n as usize)?;
    put(out, "\n")?;
    Ok(())
}

// Their sum, and a recursion by copies.
fn put_recursion(out: &mut String) -> Result<(), NoMemory>
    ensures { OnOk result (
        string_bytes out.new
        ≡ string_bytes out.old
        ++ (line (codes "set F1 =SUM(D1#)") ++ line (codes "set H1 1") ++ recursion_line)) }
{
    put(
        out,
        "set F1 =SUM(D1#)\nset H1 1\nset I1 =IF(H1>=256,1,VIEW(UPDATE(SHEET(H1:I1),H1,2*H1),I1)+VIEW(UPDATE(SHEET(H1:I1),H1,2*H1+1),I1))\n",
    )
}

// A copy of the whole.
fn put_copy(alloc: Global, out: &mut String, n: u32) -> Result<(), NoMemory>
    ensures { OnOk result (
        string_bytes out.new
        ≡ string_bytes out.old
        ++ line (codes "set K1 =VIEW(UPDATE(SHEET(A1:F" ++ decimal n ++ codes "),A1,1000),F1)")) }
{
    put(out, "set K1 =VIEW(UPDATE(SHEET(A1:F")?;
    put_number(alloc, out, n as usize)?;
    put(out, "),A1,1000),F1)\n")?;
    Ok(())
}

// The queries.
fn put_queries(out: &mut String) -> Result<(), NoMemory>
    ensures { OnOk result (
        string_bytes out.new
        ≡ string_bytes out.old
        ++ (line (codes "calc")
        ++ line (codes "show F1")
        ++ line (codes "show I1")
        ++ line (codes "show K1")
        ++ line (codes "quit"))) }
{
    put(out, "calc\nshow F1\nshow I1\nshow K1\nquit\n")
}

/// The generated script: an import of `n` rows, sums and products over them, a recursion by copies, a
/// copy of the whole, and queries of these. `n` is from 1 to `MAX_GENERATED`.
pub fn generated(alloc: Global, n: u32) -> Result<Vec<u8>, NoMemory>
    requires some { 1 ≤ n }
    requires few { n ≤ max_generated }
    ensures { IfOk result (λ script. script.items ≡ generated n) }
{
    let rows = payload(alloc, n)?;
    let mut out = String::new(alloc);
    put_import(alloc, &mut out, &rows)?;
    put_products(alloc, &mut out, n)?;
    put_recursion(&mut out)?;
    put_copy(alloc, &mut out, n)?;
    put_queries(&mut out)?;
    Ok(out.into_bytes())
}
