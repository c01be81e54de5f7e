//! Imports.
ghost use Rattle.std.specs.Prelude.{ℕ, Some, IfOk, IsSome};
ghost use Rattle.gl_calculus.specs.Formulas.Formula.{Version as PlainVersion, IsSheet};
ghost use Rattle.gl_language.specs.Texts.Text.{Bytes};
ghost use Rattle.gl_protocol.specs.Scripts.Acts.{Acts};
ghost use Rattle.gl_protocol.specs.Framing.Framing.{Import};
ghost use Rattle.gl_protocol.specs.Framing.Header.{payload_len};
ghost use Rattle.gl_calculus.specs.Edits.Sheets.{settings};
ghost use Rattle.gl_cells.specs.Sheet.{sheet, AreProper};
ghost use Rattle.gl_protocol.specs.Run.Records.{csv_records};
ghost use Rattle.gl_run.specs.Replies.{HasPlace, IsRefusal, csv_word};
ghost use Rattle.gl_run.specs.{Kept.IsKept, Ready.IsReady, Script.known_of, Script.script_of};
ghost use Rattle.gl_run.specs.{Answering.StaysOnErr, Answering.Imports};
ghost use Rattle.gl_protocol.specs.Run.Spends.{Spends};

use crate::changes::settings;
use crate::edits::put_refusal;
use crate::lines::{error_line, text_line};
use crate::local::{Ready, commit, local_refusal, prepare};
use crate::script::Script;
use gl_cells::Content;
use gl_csvin::{CsvFault, contents};
use gl_plane::{Addr, NoMemory};
use gl_script::header_place;
use std::alloc::Global;

/// Answers an import: a header with the payload that follows it, which is taken also where the
/// header's place is no address. It changes the sheet as a whole or not at all.
pub fn answer_import(
    alloc: Global,
    script: &mut Script,
    header: &[u8],
    payload: &[u8],
) -> Result<Vec<u8>, NoMemory>
    requires header { IsSome (payload_len header.now) }
    requires kept { IsKept (script_of script.old) }
    ensures acts { IfOk result (λ reply.
        (version : PlainVersion)
        → Acts csv_records version (script_of script.old) (Import header.now payload.now)
        (script_of script.new) reply.items) }
    ensures spends { IfOk result (λ reply. (version : PlainVersion) (n : ℕ)
        → Spends version (known_of script.old) (Import header.now payload.now) reply.items
        (known_of script.new) n n) }
    ensures err { StaysOnErr script.old result script.new }
    ensures kept { IsKept (script_of script.new) }
{
    match place(header) {
        Some(at) => import_at(alloc, script, at, payload),
        None => error_line(alloc, "address"),
    }
}

/// The address of the header of an import: `None` where its place is none.
fn place(header: &[u8]) -> Option<Addr>
    requires { IsSome (payload_len header.now) }
    ensures { HasPlace header.now result }
{
    header_place(header)
}

/// Imports a payload at an address.
fn import_at(
    alloc: Global,
    script: &mut Script,
    at: Addr,
    payload: &[u8],
) -> Result<Vec<u8>, NoMemory>
    ensures acts { IfOk result (λ reply.
        (version : PlainVersion) (l : Bytes)
        → HasPlace l (Some at)
        → Acts csv_records version (script_of script.old) (Import l payload.now)
        (script_of script.new) reply.items) }
    ensures spends { IfOk result (λ reply. (version : PlainVersion) (l : Bytes) (n : ℕ)
        → HasPlace l (Some at) → Spends version (known_of script.old) (Import l payload.now)
        reply.items (known_of script.new) n n) }
    ensures err { StaysOnErr script.old result script.new }
{
    match contents(alloc, payload, at) {
        Ok(list) => put_fields(alloc, script, list),
        Err(fault) => csv_refusal(alloc, fault),
    }
}

/// Puts contents in turn.
fn put_fields(
    alloc: Global,
    script: &mut Script,
    list: Vec<(Addr, Content)>,
) -> Result<Vec<u8>, NoMemory>
    requires proper { AreProper list.items }
    requires ordered { IsSheet (sheet list.items) }
    ensures { Imports (sheet list.items) script.old result script.new }
{
    let changes = settings(alloc, &list)?;
    match prepare(alloc, script, changes) {
        Ok(ready) => put_all_ready(alloc, script, ready, list),
        Err(fault) => local_refusal(alloc, fault),
    }
}

/// The same, where it is ready. The reply is made first, so that the sheet changes only with it.
fn put_all_ready(
    alloc: Global,
    script: &mut Script,
    ready: Ready,
    list: Vec<(Addr, Content)>,
) -> Result<Vec<u8>, NoMemory>
    requires proper { AreProper list.items }
    requires ready { IsReady script.old (settings (sheet list.items)) ready }
    ensures { Imports (sheet list.items) script.old result script.new }
{
    let reply = text_line(alloc, "ok")?;
    match script.calc.put_all(alloc, list) {
        Ok(()) => {
            commit(script, ready);
            Ok(reply)
        }
        Err(fault) => put_refusal(alloc, fault),
    }
}

fn csv_refusal(alloc: Global, fault: CsvFault) -> Result<Vec<u8>, NoMemory>
    ensures { IfOk result (λ reply. IsRefusal (csv_word fault) reply.items) }
{
    match fault {
        CsvFault::Utf8 => error_line(alloc, "utf8"),
        CsvFault::Field => error_line(alloc, "field"),
        CsvFault::Grid => error_line(alloc, "grid"),
        CsvFault::NoMemory => Err(NoMemory),
    }
}
