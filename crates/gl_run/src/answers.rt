//! The replies to the items of a script.
ghost use Rattle.std.specs.Prelude.{◌≡◌, None, IfOk, codes};
ghost use Rattle.gl_protocol.specs.Scripts.Commands.{error_line};
ghost use Rattle.gl_protocol.specs.Framing.Framing.{Line};
ghost use Rattle.gl_protocol.specs.Framing.Header.{payload_len};
ghost use Rattle.gl_protocol.specs.Scripts.Output.{is_line};
ghost use Rattle.gl_ast.specs.View.{version_tree};
ghost use Rattle.gl_calculus.specs.Steps.Rule.{PicksBelow};
ghost use Rattle.gl_run.specs.Replies.{IsProperRequest};
ghost use Rattle.gl_run.specs.Answering.{StaysOnErr, ActsOn, SpendsOn, ActsOnLines, SpendsOnLines};
ghost use Rattle.gl_run.specs.{Kept.IsKept, Script.script_of};
ghost use Rattle.gl_calc.specs.{Engine.rule_in};

use crate::edits::{clear, set};
use crate::exports::export;
use crate::forecasting::forecast;
use crate::lines::{error_line, text_line};
use crate::lists::{get, list};
use crate::merging::{edit, site};
use crate::queries::{Query, answer_query};
use crate::refusals::refusal;
use crate::script::Script;
use crate::undoing::{redo, undo};
use gl_ast::Version;
use gl_calc::Engine;
use gl_demand::{Steps, Watch};
use gl_plane::NoMemory;
use gl_script::{Request, command};
use std::alloc::Global;

/// Whether the line gives a script version Two, where it is the first.
pub fn is_version_line(line: &[u8]) -> bool
    ensures { result ≡ is_line (codes "gridlet 2") (Line line.now) }
{
    b"gridlet 2".as_slice() == line
}

/// Answers a line that no payload follows. The version line is refused here.
pub fn answer_line<F: Fn(u8, u64, u64) -> u64, L: Watch>(
    engine: &Engine<F>,
    script: &mut Script,
    version: Version,
    steps: &mut Steps<L>,
    line: &[u8],
) -> Result<Vec<u8>, NoMemory>
    requires rule { PicksBelow (F.pre (rule_in engine.now)) (F.post (rule_in engine.now)) }
    requires line { payload_len line.now ≡ None }
    requires kept { IsKept (script_of script.old) }
    ensures acts { ActsOn (version_tree version) (Line line.now) script.old result script.new }
    ensures spends { SpendsOn (version_tree version) (Line line.now) script.old steps.old result
        script.new steps.new }
    ensures err { StaysOnErr script.old result script.new }
    ensures kept { IsKept (script_of script.new) }
{
    match command(engine.alloc, line) {
        Ok(request) => answer_request(engine, script, version, steps, request),
        Err(fault) => refusal(engine.alloc, &fault),
    }
}

/// Does what is asked. A header is no line of its own.
fn answer_request<F: Fn(u8, u64, u64) -> u64, L: Watch>(
    engine: &Engine<F>,
    script: &mut Script,
    version: Version,
    steps: &mut Steps<L>,
    request: Request,
) -> Result<Vec<u8>, NoMemory>
    requires rule { PicksBelow (F.pre (rule_in engine.now)) (F.post (rule_in engine.now)) }
    requires proper { IsProperRequest request }
    requires kept { IsKept (script_of script.old) }
    ensures acts { ActsOnLines (version_tree version) request script.old result script.new }
    ensures spends { SpendsOnLines (version_tree version) request script.old steps.old result
        script.new steps.new }
    ensures err { StaysOnErr script.old result script.new }
{
    let alloc = engine.alloc;
    match request {
        Request::Nothing => Ok(Vec::new(alloc)),
        Request::Set(a, content) => set(alloc, script, a, content),
        Request::Clear(range) => clear(alloc, script, &range),
        Request::Get(a) => get(alloc, script.calc.cells(), a),
        Request::List => list(alloc, version, script.calc.cells()),
        Request::Import { .. } => error_line(alloc, "command"),
        Request::Version => error_line(alloc, "command"),
        Request::Quit => text_line(alloc, "bye"),
        Request::Site(n) => site(alloc, script, n),
        Request::Edit {
            time,
            site,
            at,
            content,
        } => edit(alloc, script, time, site, at, content),
        Request::Export => export(alloc, script),
        Request::Undo => undo(alloc, script),
        Request::Redo => redo(alloc, script),
        Request::Flow => forecast(alloc, script.calc.cells()),
        Request::Show(a) => answer_query(engine, Query::Show(a), script, version, steps),
        Request::View(range) => answer_query(engine, Query::View(range), script, version, steps),
        Request::Calc => answer_query(engine, Query::Calc, script, version, steps),
        Request::Oracle => answer_query(engine, Query::Oracle, script, version, steps),
        Request::Why(a) => answer_query(engine, Query::Why(a), script, version, steps),
        Request::Explain(a) => answer_query(engine, Query::Explain(a), script, version, steps),
    }
}

/// Answers a line that is too long.
pub fn answer_long(alloc: Global) -> Result<Vec<u8>, NoMemory>
    ensures { IfOk result (λ reply. reply.items ≡ error_line (codes "line")) }
{
    error_line(alloc, "line")
}

/// Answers an import whose payload the input ends in.
pub fn answer_truncated(alloc: Global) -> Result<Vec<u8>, NoMemory>
    ensures { IfOk result (λ reply. reply.items ≡ error_line (codes "truncated")) }
{
    error_line(alloc, "truncated")
}
