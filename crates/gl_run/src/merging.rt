//! Replicas: how a script becomes one, and the edits that it takes.
ghost use Rattle.std.specs.Prelude.{◌≡◌, IsTrue, IsSome, option_map};
ghost use Rattle.gl_calculus.specs.Edits.Replicas.{is_stamp};
ghost use Rattle.gl_protocol.specs.Scripts.Script.{allowed_change};
ghost use Rattle.gl_protocol.specs.Scripts.Commands as C;
ghost use Rattle.gl_cells.specs.Content.{content_tree};
ghost use Rattle.gl_calc.specs.View.{sheet_of};
ghost use Rattle.gl_merge.specs.Edit.{IsProperOption, edit_tree};
ghost use Rattle.gl_script.specs.Command.{edit_of};
ghost use Rattle.gl_run.specs.Changed.{Marks, Puts, marked_by};
ghost use Rattle.gl_run.specs.Merged.{CanTakeOne, HasRoom, IsKnown, IsLater, Judges, Rooms, Takes};
ghost use Rattle.gl_run.specs.{Script.known_of, Script.script_of};
ghost use Rattle.gl_protocol.specs.Run.Touched.{touched_by_one};
ghost use Rattle.gl_run.specs.{Answering.DoesRequest, Answering.Merges};

use crate::changes::shared;
use crate::edits::put_refusal;
use crate::lines::{error_line, text_line};
use crate::local::are_ordered;
use crate::script::Script;
use gl_calc::Calc;
use gl_cells::{Content, PutFault};
use gl_merge::{Edit, Judged, Replica, RoomFault, Stamp};
use gl_plane::{Addr, NoMemory, Range};
use std::alloc::Global;

/// Makes the script the replica of a site, where it is none and its sheet is empty.
pub(crate) fn site(alloc: Global, script: &mut Script, site: u16) -> Result<Vec<u8>, NoMemory>
    ensures { DoesRequest (C.Request.Site site) script.old result script.new }
{
    if script.replica.is_some() {
        return error_line(alloc, "site");
    }
    if script.calc.cells().contents() > 0 {
        return error_line(alloc, "site");
    }
    let reply = text_line(alloc, "ok")?;
    script.replica = Some(Replica::new(alloc, site));
    script.history.clear();
    Ok(reply)
}

/// Takes an edit, where the script is a replica.
pub(crate) fn edit(
    alloc: Global,
    script: &mut Script,
    time: u64,
    site: u16,
    at: Addr,
    content: Option<Content>,
) -> Result<Vec<u8>, NoMemory>
    requires stamp { IsTrue (is_stamp time site) }
    requires proper { IsProperOption content }
    ensures { Merges (edit_of time site at content) script.old result script.new }
{
    match Stamp::new(time, site) {
        Some(stamp) => merge(alloc, script, Edit::new(stamp, at, content)),
        None => unreachable!(),
    }
}

/// Takes an edit by what it is to the register of its address.
fn merge(alloc: Global, script: &mut Script, e: Edit) -> Result<Vec<u8>, NoMemory>
    ensures { Merges (edit_tree e) script.old result script.new }
{
    match judge(script, &e) {
        Some(Judged::Wins) => merge_later(alloc, script, e),
        Some(Judged::Loses) => merge_known(alloc, script, e),
        Some(Judged::Same) => merge_known(alloc, script, e),
        Some(Judged::Conflict) => error_line(alloc, "conflict"),
        None => error_line(alloc, "site"),
    }
}

/// What an edit is to the register of its address, in a replica.
fn judge(script: &Script, e: &Edit) -> Option<Judged>
    ensures { Judges (script_of script.now) (edit_tree e.now) result }
{
    match &script.replica {
        Some(replica) => Some(replica.judge(e)),
        None => None,
    }
}

/// Takes an edit that is earlier than the register of its address, or the same. The reply is made
/// first, so that the replica takes it only with that.
fn merge_known(alloc: Global, script: &mut Script, e: Edit) -> Result<Vec<u8>, NoMemory>
    requires { IsKnown (script_of script.old) (edit_tree e) }
    ensures { Merges (edit_tree e) script.old result script.new }
{
    let reply = text_line(alloc, "ok")?;
    take(script, e);
    Ok(reply)
}

/// Takes an edit that is later than the register of its address.
fn merge_later(alloc: Global, script: &mut Script, e: Edit) -> Result<Vec<u8>, NoMemory>
    requires { IsLater (script_of script.old) (edit_tree e) }
    ensures { Merges (edit_tree e) script.old result script.new }
{
    match make_room(script, e.place()) {
        Ok(()) => put_later(alloc, script, e),
        Err(RoomFault::Edits) => error_line(alloc, "edits"),
        Err(RoomFault::NoMemory) => Err(NoMemory),
    }
}

/// Makes room for an edit of this address in a replica.
fn make_room(script: &mut Script, a: Addr) -> Result<(), RoomFault>
    requires { IsSome script.old.replica }
    ensures known { known_of script.new ≡ known_of script.old }
    ensures room { Rooms result script.new a }
{
    match &mut script.replica {
        Some(replica) => {
            are_ordered(replica);
            replica.make_room(&[a])
        }
        None => unreachable!(),
    }
}

/// The same, where there is room. Its content is put or removed, as in an edit of the sheet.
fn put_later(alloc: Global, script: &mut Script, e: Edit) -> Result<Vec<u8>, NoMemory>
    requires later { IsLater (script_of script.old) (edit_tree e) }
    requires room { HasRoom script.old e.place }
    ensures { Merges (edit_tree e) script.old result script.new }
{
    let reply = text_line(alloc, "ok")?;
    let content = shared(e.content())?;
    match put_change(&mut script.calc, e.place(), content) {
        Ok(()) => {
            take(script, e);
            Ok(reply)
        }
        Err(fault) => put_refusal(alloc, fault),
    }
}

/// Puts the content of an address, or removes it.
fn put_change(calc: &mut Calc, a: Addr, content: Option<Content>) -> Result<(), PutFault>
    requires { IsProperOption content }
    ensures puts { Puts result
        (allowed_change (sheet_of calc.old) a (option_map content_tree content)) (sheet_of calc.old)
        (sheet_of calc.new) }
    ensures marks { Marks
        (marked_by result (touched_by_one (sheet_of calc.old) a (option_map content_tree content)))
        calc.old calc.new }
{
    match content {
        Some(c) => calc.put(a, c),
        None => {
            calc.clear(&Range::new(a, a));
            Ok(())
        }
    }
}

/// The replica takes an edit. It takes no memory.
fn take(script: &mut Script, e: Edit)
    requires { CanTakeOne script.old e }
    ensures calc { script.new.calc ≡ script.old.calc }
    ensures takes { Takes (script_of script.old) (edit_tree e) (script_of script.new) }
{
    match &mut script.replica {
        Some(replica) => replica.take(e),
        None => {}
    }
}
