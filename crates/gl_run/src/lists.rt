//! The replies that tell contents.
ghost use Rattle.std.specs.Prelude.{◌≡◌, ◌++◌, IfOk, OnOk};
ghost use Rattle.std.specs.String.{string_bytes};
ghost use Rattle.gl_calculus.specs.Formulas.Formula.{content};
ghost use Rattle.gl_language.specs.Texts.Text as text;
ghost use Rattle.gl_protocol.specs.Scripts.Commands.{get_text, list_text, version_lines};
ghost use Rattle.gl_protocol.specs.Replies.Tables.{line, set_text};
ghost use Rattle.gl_ast.specs.View.{version_tree};
ghost use Rattle.gl_cells.specs.{Content.content_tree, Sheet.sheet};
ghost use Rattle.gl_run.specs.Replies.{set_line, set_lines};

use crate::lines::text_line;
use gl_ast::{Version, put, put_address, put_number};
use gl_cells::{Cells, Content};
use gl_plane::{Addr, NoMemory, whole_grid};
use gl_views::content_text;
use std::alloc::Global;

/// The reply that tells the content of an address.
pub(crate) fn get(alloc: Global, cells: &Cells, a: Addr) -> Result<Vec<u8>, NoMemory>
    ensures { IfOk result (λ reply. reply.items ≡ line (get_text (content (sheet cells.now) a))) }
{
    match cells.content(a) {
        Some(content) => content_line(alloc, content),
        None => text_line(alloc, "."),
    }
}

fn content_line(alloc: Global, content: &Content) -> Result<Vec<u8>, NoMemory>
    ensures { IfOk result (λ reply.
        reply.items ≡ line (text.content_text (content_tree content.now))) }
{
    let mut out = content_text(alloc, content)?;
    put(&mut out, "\n")?;
    Ok(out.into_bytes())
}

/// The reply that lists all contents: a line with their number, the version line where the script has
/// version Two, and the line that sets each content.
pub(crate) fn list(alloc: Global, version: Version, cells: &Cells) -> Result<Vec<u8>, NoMemory>
    ensures { IfOk result (λ reply.
        reply.items ≡ list_text (version_tree version) (sheet cells.now)) }
{
    let mut out = String::new(alloc);
    put(&mut out, "list ")?;
    put_number(alloc, &mut out, cells.contents() as usize)?;
    put(&mut out, "\n")?;
    put_version(&mut out, version)?;
    put_contents(alloc, &mut out, cells)?;
    Ok(out.into_bytes())
}

/// The line that gives a script its version, where it needs one.
fn put_version(out: &mut String, version: Version) -> Result<(), NoMemory>
    ensures { OnOk result (
        string_bytes out.new ≡ string_bytes out.old ++ version_lines (version_tree version)) }
{
    match version {
        Version::One => Ok(()),
        Version::Two => put(out, "gridlet 2\n"),
    }
}

/// The lines that set the contents, in row-major order.
fn put_contents(alloc: Global, out: &mut String, cells: &Cells) -> Result<(), NoMemory>
    ensures { OnOk result (
        string_bytes out.new ≡ string_bytes out.old ++ set_lines (sheet cells.now)) }
{
    let grid = whole_grid();
    // that the contents are in order, and each on the grid
    let _contents = cells.contents();
    let mut after = None;
    while let Some(a) = cells.next_in(&grid, after) {
        put_set(alloc, out, cells, a)?;
        after = Some(a);
    }
    Ok(())
}

/// The line that sets the content of an address, where it has one.
fn put_set(alloc: Global, out: &mut String, cells: &Cells, a: Addr) -> Result<(), NoMemory>
    ensures { OnOk result (
        string_bytes out.new ≡ string_bytes out.old ++ set_line a (content (sheet cells.now) a)) }
{
    match cells.content(a) {
        Some(content) => put_set_line(alloc, out, a, content),
        None => Ok(()),
    }
}

fn put_set_line(alloc: Global, out: &mut String, a: Addr, content: &Content) -> Result<(), NoMemory>
    ensures { OnOk result (
        string_bytes out.new
        ≡ string_bytes out.old ++ line (set_text (a, content_tree content.now))) }
{
    let text = content_text(alloc, content)?;
    put(out, "set ")?;
    put_address(alloc, out, a)?;
    put(out, " ")?;
    put(out, text.as_str())?;
    put(out, "\n")
}
