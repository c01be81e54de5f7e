//! The reply that tells the edits of a replica.
ghost use Rattle.std.specs.Prelude.{◌≡◌, ◌++◌, Some, IfOk, OnOk, option_map};
ghost use Rattle.std.specs.{Option.option_copied, String.string_bytes};
ghost use Rattle.gl_protocol.specs.Replies.Tables.{line, edit_text, export_text, text_behind_place};
ghost use Rattle.gl_cells.specs.Content.{content_tree};
ghost use Rattle.gl_merge.specs.{Edit.edit_tree, Replica.registers_of};
ghost use Rattle.gl_run.specs.{Merged.IsExport, Replies.edit_lines, Script.script_of};

use crate::lines::error_line;
use crate::script::Script;
use gl_ast::{put, put_address, put_number};
use gl_cells::Content;
use gl_merge::{Edit, Replica};
use gl_plane::NoMemory;
use gl_views::content_text;
use std::alloc::Global;

/// The reply that lists the edits of a replica.
pub(crate) fn export(alloc: Global, script: &Script) -> Result<Vec<u8>, NoMemory>
    ensures { IfOk result (λ reply. IsExport (script_of script.now) reply.items) }
{
    match &script.replica {
        Some(replica) => edit_list(alloc, replica),
        None => error_line(alloc, "site"),
    }
}

/// A line with the number of registers, and the line that gives each to another replica.
fn edit_list(alloc: Global, replica: &Replica) -> Result<Vec<u8>, NoMemory>
    ensures { IfOk result (λ reply. reply.items ≡ export_text (registers_of replica.now)) }
{
    let mut out = String::new(alloc);
    put(&mut out, "export ")?;
    put_number(alloc, &mut out, replica.len() as usize)?;
    put(&mut out, "\n")?;
    put_edits(alloc, &mut out, replica)?;
    Ok(out.into_bytes())
}

/// The lines that give the registers, in row-major order.
fn put_edits(alloc: Global, out: &mut String, replica: &Replica) -> Result<(), NoMemory>
    ensures { OnOk result (
        string_bytes out.new ≡ string_bytes out.old ++ edit_lines (registers_of replica.now)) }
{
    for i in 0..replica.len() {
        let Some(e) = replica.register(i) else {
            unreachable!()
        };
        put_edit(alloc, out, e)?;
    }
    Ok(())
}

/// The line that gives an edit to another replica.
fn put_edit(alloc: Global, out: &mut String, e: &Edit) -> Result<(), NoMemory>
    ensures { OnOk result (
        string_bytes out.new ≡ string_bytes out.old ++ line (edit_text (edit_tree e.now))) }
{
    put(out, "edit ")?;
    put_number(alloc, out, e.stamp().time() as usize)?;
    put(out, " ")?;
    put_number(alloc, out, usize::from(e.stamp().site()))?;
    put(out, " ")?;
    put_address(alloc, out, e.place())?;
    put_text(alloc, out, e.content())?;
    put(out, "\n")
}

/// The text of a content behind a space, where there is one.
fn put_text(alloc: Global, out: &mut String, content: Option<&Content>) -> Result<(), NoMemory>
    ensures { OnOk result (
        string_bytes out.new
        ≡ string_bytes out.old
        ++ text_behind_place (option_map content_tree (option_copied content.entry))) }
{
    match content {
        Some(c) => put_content(alloc, out, c),
        None => Ok(()),
    }
}

fn put_content(alloc: Global, out: &mut String, content: &Content) -> Result<(), NoMemory>
    ensures { OnOk result (string_bytes out.new
        ≡ string_bytes out.old ++ text_behind_place (option_map content_tree (Some content.now))) }
{
    let text = content_text(alloc, content)?;
    put(out, " ")?;
    put(out, text.as_str())
}
