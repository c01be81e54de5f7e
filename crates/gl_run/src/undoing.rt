//! Steps that are undone, and done again.
ghost use Rattle.std.specs.Prelude.{◌≡◌, ◌++◌, [], IfOk, OnOk, OnErr, option_map};
ghost use Rattle.gl_calculus.specs.Computation.Lists.{AreDistinct};
ghost use Rattle.gl_calculus.specs.Formulas.Formula.{IsSheet};
ghost use Rattle.gl_calculus.specs.Edits.Sheets.{with_changes, and_content, coming};
ghost use Rattle.gl_protocol.specs.Scripts.Commands as C;
ghost use Rattle.gl_cells.specs.{Sheet.sheet, Sheet.AreProper, Content.content_tree};
ghost use Rattle.gl_calc.specs.View.{sheet_of};
ghost use Rattle.gl_undo.specs.View.{AreProperChanges, IsProperOption, changes_tree, places};
ghost use Rattle.gl_run.specs.Going.{and_address};
ghost use Rattle.gl_protocol.specs.Run.Touched.{going, cleared, without_these};
ghost use Rattle.gl_protocol.specs.Run.Touched.{touched_by_all};
ghost use Rattle.gl_run.specs.{Changed.Marks, Kept.IsKept, Restored.StepsBack};
ghost use Rattle.gl_run.specs.{Restored.StepsForward, Script.script_of, Answering.DoesRequest};
ghost use Rattle.laws_protocol.specs.Rooms.{HasRoom};

use crate::changes::{Change, Parts};
use crate::lines::{error_line, text_line};
use crate::script::Script;
use gl_calc::Calc;
use gl_cells::{Cells, Content, PutFault};
use gl_plane::{Addr, NoMemory, Range};
use std::alloc::Global;

/// Undoes the latest step.
pub(crate) fn undo(alloc: Global, script: &mut Script) -> Result<Vec<u8>, NoMemory>
    requires { IsKept (script_of script.old) }
    ensures { DoesRequest C.Request.Undo script.old result script.new }
{
    if script.replica.is_some() {
        return error_line(alloc, "site");
    }
    match script.history.back(alloc) {
        Ok(Some(list)) => undo_step(alloc, script, list),
        Ok(None) => error_line(alloc, "undo"),
        Err(NoMemory) => Err(NoMemory),
    }
}

/// Undoes the latest step, with what its addresses had before it. The reply is made first, so that
/// the sheet changes only with it.
fn undo_step(alloc: Global, script: &mut Script, list: Vec<Change>) -> Result<Vec<u8>, NoMemory>
    requires { StepsBack script.old list.items }
    ensures { DoesRequest C.Request.Undo script.old result script.new }
{
    let reply = text_line(alloc, "ok")?;
    match restore(alloc, &mut script.calc, list) {
        Ok(()) => {
            script.history.moved_back();
            Ok(reply)
        }
        Err(NoMemory) => Err(NoMemory),
    }
}

/// Does the latest undone step again.
pub(crate) fn redo(alloc: Global, script: &mut Script) -> Result<Vec<u8>, NoMemory>
    requires { IsKept (script_of script.old) }
    ensures { DoesRequest C.Request.Redo script.old result script.new }
{
    if script.replica.is_some() {
        return error_line(alloc, "site");
    }
    match script.history.forward(alloc) {
        Ok(Some(list)) => redo_step(alloc, script, list),
        Ok(None) => error_line(alloc, "redo"),
        Err(NoMemory) => Err(NoMemory),
    }
}

/// Does the latest undone step again, with what its addresses had after it.
fn redo_step(alloc: Global, script: &mut Script, list: Vec<Change>) -> Result<Vec<u8>, NoMemory>
    requires { StepsForward script.old list.items }
    ensures { DoesRequest C.Request.Redo script.old result script.new }
{
    let reply = text_line(alloc, "ok")?;
    match restore(alloc, &mut script.calc, list) {
        Ok(()) => {
            script.history.moved_forward();
            Ok(reply)
        }
        Err(NoMemory) => Err(NoMemory),
    }
}

/// Makes changes of the sheet, all or none: what comes is put at once, for that may want memory, and
/// then the others go.
fn restore(alloc: Global, calc: &mut Calc, list: Vec<Change>) -> Result<(), NoMemory>
    requires apart { AreDistinct (places list.items) }
    requires proper { AreProperChanges list.items }
    requires room { HasRoom (sheet_of calc.old) (changes_tree list.items) }
    ensures sheet { OnOk result
        (sheet_of calc.new ≡ with_changes (sheet_of calc.old) (changes_tree list.items)) }
    ensures marks { OnOk result
        (Marks (touched_by_all (sheet_of calc.old) (changes_tree list.items)) calc.old calc.new) }
    ensures err { OnErr result (sheet_of calc.new ≡ sheet_of calc.old) }
{
    is_ordered(calc.cells());
    let Parts { coming, going } = parted(alloc, list)?;
    match calc.put_all(alloc, coming) {
        Ok(()) => {
            remove_all(calc, &going);
            Ok(())
        }
        Err(PutFault::NoMemory) => Err(NoMemory),
        // what comes has room beside all that is there
        Err(PutFault::Formulas) => unreachable!(),
        Err(PutFault::Contents) => unreachable!(),
    }
}

/// A sheet is in order.
fn is_ordered(cells: &Cells)
    ensures { IsSheet (sheet cells.now) }
{
    let _count = cells.contents();
}

/// What comes, and what goes.
fn parted(alloc: Global, list: Vec<Change>) -> Result<Parts, NoMemory>
    requires { AreProperChanges list.items }
    ensures coming { IfOk result (λ parts.
        sheet parts.coming.items ≡ coming (changes_tree list.items)) }
    ensures going { IfOk result (λ parts. parts.going.items ≡ going (changes_tree list.items)) }
    ensures proper { IfOk result (λ parts. AreProper parts.coming.items) }
{
    let mut coming = Vec::new(alloc);
    let mut going = Vec::new(alloc);
    for (a, content) in list {
        match put_part(&mut coming, &mut going, a, content) {
            Ok(()) => {}
            Err(NoMemory) => return Err(NoMemory),
        }
    }
    Ok(Parts { coming, going })
}

fn put_part(
    coming: &mut Vec<(Addr, Content)>,
    going: &mut Vec<Addr>,
    a: Addr,
    content: Option<Content>,
) -> Result<(), NoMemory>
    requires proper { IsProperOption content }
    requires all { AreProper coming.old.items }
    ensures coming { OnOk result (sheet coming.new.items
        ≡ sheet coming.old.items ++ and_content a (option_map content_tree content) []) }
    ensures going { OnOk result (going.new.items
        ≡ going.old.items ++ and_address a (option_map content_tree content) []) }
    ensures proper { OnOk result (AreProper coming.new.items) }
{
    match content {
        Some(c) => Ok(coming.push((a, c))?),
        None => Ok(going.push(a)?),
    }
}

/// Removes the contents of these addresses, one after the other. It takes no memory.
fn remove_all(calc: &mut Calc, places: &[Addr])
    ensures sheet { sheet_of calc.new ≡ without_these (sheet_of calc.old) places.now }
    ensures marks { Marks (cleared (sheet_of calc.old) places.now) calc.old calc.new }
{
    for a in places {
        calc.clear(&Range::new(*a, *a));
    }
}
