//! The text of an oracle.
ghost use Rattle.std.specs.Prelude.{◌≡◌, ◌++◌, IfOk, OnOk};
ghost use Rattle.std.specs.String.{string_bytes};
ghost use Rattle.gl_language.specs.Texts.Text as text;
ghost use Rattle.gl_plane.specs.Permit.{permit_tree};
ghost use Rattle.gl_protocol.specs.Replies.Tables.{line, permit_text, entry_text, oracle_text};

use gl_ast::{put, put_address, put_number};
use gl_plane::{Entry, NoMemory, Oracle, Permit, Size};
use std::alloc::Global;

/// A line with the number of entries, and a line for each: the root, the rows and columns of its
/// array, and its permit, as `A1 3x2 permitted`.
pub fn oracle_text(alloc: Global, w: &Oracle) -> Result<String, NoMemory>
    ensures { IfOk result (λ s. string_bytes s ≡ oracle_text w.now) }
{
    let mut out = String::new(alloc);
    let count = w.len();
    put(&mut out, "oracle ")?;
    put_number(alloc, &mut out, count)?;
    put(&mut out, "\n")?;
    let mut i = 0;
    while let Some(entry) = w.at(i) {
        put_entry(alloc, &mut out, &entry)?;
        i += 1;
    }
    Ok(out)
}

fn put_entry(alloc: Global, out: &mut String, entry: &Entry) -> Result<(), NoMemory>
    ensures { OnOk result (
        string_bytes out.new ≡ string_bytes out.old ++ line (entry_text entry.now)) }
{
    put_address(alloc, out, entry.root)?;
    put(out, " ")?;
    put_size(alloc, out, entry.size)?;
    put(out, " ")?;
    put(out, permit_name(entry.permit))?;
    put(out, "\n")
}

fn put_size(alloc: Global, out: &mut String, size: Size) -> Result<(), NoMemory>
    ensures { OnOk result (string_bytes out.new ≡ string_bytes out.old ++ text.size_text size) }
{
    put_number(alloc, out, usize::from(size.rows()))?;
    put(out, "x")?;
    put_number(alloc, out, usize::from(size.cols()))
}

fn permit_name(permit: Permit) -> &'static str
    ensures { result.now ≡ permit_text (permit_tree permit) }
{
    match permit {
        Permit::Permitted => "permitted",
        Permit::Refused => "refused",
    }
}
