//! Edits of the sheet.
ghost use Rattle.std.specs.Prelude.{◌∷◌, [], Some, IfOk};
ghost use Rattle.gl_language.specs.Reading.Content.{IsProperContent};
ghost use Rattle.gl_calculus.specs.Edits.Sheets.{removals};
ghost use Rattle.gl_protocol.specs.Scripts.Commands as C;
ghost use Rattle.gl_cells.specs.Content.{content_tree};
ghost use Rattle.gl_calc.specs.View.{sheet_of};
ghost use Rattle.gl_run.specs.{Ready.IsReady, Replies.IsRefusal, Replies.put_word};
ghost use Rattle.gl_run.specs.{Answering.DoesRequest};

use crate::changes::{removals, setting};
use crate::lines::{error_line, text_line};
use crate::local::{Ready, commit, local_refusal, prepare};
use crate::script::Script;
use gl_cells::{Content, PutFault};
use gl_plane::{Addr, NoMemory, Range};
use std::alloc::Global;

/// The reply to an edit that would pass a limit of the sheet.
pub(crate) fn put_refusal(alloc: Global, fault: PutFault) -> Result<Vec<u8>, NoMemory>
    ensures { IfOk result (λ reply. IsRefusal (put_word fault) reply.items) }
{
    match fault {
        PutFault::Formulas => error_line(alloc, "formulas"),
        PutFault::Contents => error_line(alloc, "contents"),
        PutFault::NoMemory => Err(NoMemory),
    }
}

/// Puts a content.
pub(crate) fn set(
    alloc: Global,
    script: &mut Script,
    a: Addr,
    content: Content,
) -> Result<Vec<u8>, NoMemory>
    requires { IsProperContent (content_tree content) }
    ensures { DoesRequest (C.Request.Set a (content_tree content)) script.old result script.new }
{
    let list = setting(alloc, a, &content)?;
    match prepare(alloc, script, list) {
        Ok(ready) => put_ready(alloc, script, ready, a, content),
        Err(fault) => local_refusal(alloc, fault),
    }
}

/// The same, where it is ready. The reply is made first, so that the sheet changes only with it.
fn put_ready(
    alloc: Global,
    script: &mut Script,
    ready: Ready,
    a: Addr,
    content: Content,
) -> Result<Vec<u8>, NoMemory>
    requires proper { IsProperContent (content_tree content) }
    requires ready { IsReady script.old ((a, Some (content_tree content)) ∷ []) ready }
    ensures { DoesRequest (C.Request.Set a (content_tree content)) script.old result script.new }
{
    let reply = text_line(alloc, "ok")?;
    match script.calc.put(a, content) {
        Ok(()) => {
            commit(script, ready);
            Ok(reply)
        }
        Err(fault) => put_refusal(alloc, fault),
    }
}

/// Removes the contents of a range.
pub(crate) fn clear(alloc: Global, script: &mut Script, range: &Range) -> Result<Vec<u8>, NoMemory>
    ensures { DoesRequest (C.Request.Clear range.now) script.old result script.new }
{
    let list = removals(alloc, script.calc.cells(), range)?;
    match prepare(alloc, script, list) {
        Ok(ready) => clear_ready(alloc, script, ready, range),
        Err(fault) => local_refusal(alloc, fault),
    }
}

/// The same, where it is ready.
fn clear_ready(
    alloc: Global,
    script: &mut Script,
    ready: Ready,
    range: &Range,
) -> Result<Vec<u8>, NoMemory>
    requires { IsReady script.old (removals (sheet_of script.old.calc) range.now) ready }
    ensures { DoesRequest (C.Request.Clear range.now) script.old result script.new }
{
    let reply = text_line(alloc, "ok")?;
    script.calc.clear(range);
    commit(script, ready);
    Ok(reply)
}
