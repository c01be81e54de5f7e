//! The replies to what asks for the calculation.
ghost use Rattle.std.specs.Prelude.{◌≡◌, ◌++◌, ℕ, IfOk, IsSome, codes};
ghost use Rattle.std.specs.Fmt.{decimal};
ghost use Rattle.gl_calculus.specs.Calculation.Calculation.{Blocked};
ghost use Rattle.gl_language.specs.Texts.Text as text;
ghost use Rattle.gl_protocol.specs.Scripts.Acts.{Does};
ghost use Rattle.gl_protocol.specs.Scripts.Commands.{why_text};
ghost use Rattle.gl_protocol.specs.Replies.Tables.{line};
ghost use Rattle.gl_protocol.specs.Scripts.Commands as C;
ghost use Rattle.gl_ast.specs.View.{version_tree};
ghost use Rattle.gl_grant.specs.Obstacle.{obstacle_tree};
ghost use Rattle.gl_calculus.specs.Steps.Rule.{PicksBelow};
ghost use Rattle.gl_value.specs.Made.{shown_tree};
ghost use Rattle.gl_calc.specs.{Answers.spent_tree, Why.why_tree, Engine.rule_in};
ghost use Rattle.gl_protocol.specs.Run.Records.{csv_records};
ghost use Rattle.gl_run.specs.Replies.{FollowsBy, Holds, RepliesBy, query_tree};
ghost use Rattle.gl_run.specs.{Script.known_of, Script.script_of};
ghost use Rattle.gl_protocol.specs.Run.Spends.{SpendsAsked};

use crate::explaining::explain;
use crate::lines::{address_line, text_line};
use crate::script::Script;
use crate::tables::{shown_at, view};
use gl_ast::{Version, put};
use gl_calc::{Answer, Calc, Engine, SpentKind, Why};
use gl_demand::{Steps, Watch};
use gl_grant::Obstacle;
use gl_plane::{Addr, NoMemory, Range};
use gl_value::Shown;
use gl_views::{oracle_text, shown_text};
use std::alloc::Global;

/// A request that asks for the calculation.
#[derive(Clone, Copy)]
pub(crate) enum Query {
    Show(Addr),
    View(Range),
    Calc,
    Oracle,
    Why(Addr),
    Explain(Addr),
}

/// Calculates the sheet, and answers what is asked, or which budget was spent.
pub(crate) fn answer_query<F: Fn(u8, u64, u64) -> u64, L: Watch>(
    engine: &Engine<F>,
    query: Query,
    script: &mut Script,
    version: Version,
    steps: &mut Steps<L>,
) -> Result<Vec<u8>, NoMemory>
    requires rule { PicksBelow (F.pre (rule_in engine.now)) (F.post (rule_in engine.now)) }
    ensures does { IfOk result (λ reply.
        Does csv_records (version_tree version) (script_of script.old) (query_tree query)
        (script_of script.new) reply.items) }
    ensures spends { IfOk result (λ reply. SpendsAsked (version_tree version) (query_tree query)
        (known_of script.old) (known_of script.new) steps.old steps.new) }
    ensures script { script_of script.new ≡ script_of script.old }
{
    let (alloc, order, kind) = (engine.alloc, engine.order, engine.kind);
    match script.calc.refresh(alloc, order, kind, version, steps) {
        Ok(Answer::Settled { rounds }) => {
            settled_reply(alloc, &script.calc, version, rounds, steps, query)
        }
        Ok(Answer::Spent(spent)) => spent_line(alloc, spent),
        Err(NoMemory) => Err(NoMemory),
    }
}

fn spent_line(alloc: Global, spent: SpentKind) -> Result<Vec<u8>, NoMemory>
    ensures { IfOk result (λ reply. reply.items ≡ C.spent_line (spent_tree spent)) }
{
    match spent {
        SpentKind::Rounds(a) => address_line(alloc, "spent rounds ", a),
        SpentKind::CopyRounds(a) => address_line(alloc, "spent copyrounds ", a),
        SpentKind::Depth(a) => address_line(alloc, "spent depth ", a),
        SpentKind::Work => text_line(alloc, "spent work"),
    }
}

/// Answers what is asked by the oracle that is held, to which the calculation settled.
fn settled_reply<L: Watch>(
    alloc: Global,
    calc: &Calc,
    version: Version,
    rounds: u32,
    steps: &mut Steps<L>,
    query: Query,
) -> Result<Vec<u8>, NoMemory>
    requires held { IsSome calc.now.held }
    requires settled { Holds (version_tree version) calc.now rounds }
    ensures replies { IfOk result (λ reply.
        RepliesBy calc.now rounds (query_tree query) reply.items) }
    ensures follows { IfOk result (λ reply. FollowsBy (version_tree version) calc.now rounds
        (query_tree query) steps.old steps.new) }
{
    match query {
        Query::Show(a) => show(alloc, calc, a),
        Query::View(range) => view(alloc, calc, &range),
        Query::Calc => rounds_line(alloc, rounds),
        Query::Oracle => oracle(alloc, calc),
        Query::Why(a) => why(alloc, calc, a),
        Query::Explain(a) => explain(alloc, calc, version, a, steps),
    }
}

fn show(alloc: Global, calc: &Calc, a: Addr) -> Result<Vec<u8>, NoMemory>
    requires { IsSome calc.now.held }
    ensures { IfOk result (λ reply.
        (rounds : ℕ) → RepliesBy calc.now rounds (C.Request.Show a) reply.items) }
{
    match shown_at(calc, a) {
        Ok(shown) => shown_line(alloc, &shown),
        Err(NoMemory) => Err(NoMemory),
    }
}

fn shown_line(alloc: Global, shown: &Shown) -> Result<Vec<u8>, NoMemory>
    ensures { IfOk result (λ reply. reply.items ≡ line (text.shown_text (shown_tree shown.now))) }
{
    let mut out = shown_text(alloc, shown)?;
    put(&mut out, "\n")?;
    Ok(out.into_bytes())
}

fn rounds_line(alloc: Global, rounds: u32) -> Result<Vec<u8>, NoMemory>
    ensures { IfOk result (λ reply. reply.items ≡ line (codes "settled " ++ decimal rounds)) }
{
    let text = format!(in alloc; "settled {rounds}\n")?;
    Ok(text.into_bytes())
}

fn oracle(alloc: Global, calc: &Calc) -> Result<Vec<u8>, NoMemory>
    requires { IsSome calc.now.held }
    ensures { IfOk result (λ reply.
        (rounds : ℕ) → RepliesBy calc.now rounds C.Request.ShowOracle reply.items) }
{
    let Some(w) = calc.oracle() else {
        unreachable!()
    };
    let text = oracle_text(alloc, w)?;
    Ok(text.into_bytes())
}

fn why(alloc: Global, calc: &Calc, a: Addr) -> Result<Vec<u8>, NoMemory>
    requires { IsSome calc.now.held }
    ensures { IfOk result (λ reply.
        (rounds : ℕ) → RepliesBy calc.now rounds (C.Request.Why a) reply.items) }
{
    match calc.why(a) {
        Some(why) => why_line(alloc, why),
        None => unreachable!(),
    }
}

fn why_line(alloc: Global, why: Why) -> Result<Vec<u8>, NoMemory>
    ensures { IfOk result (λ reply. reply.items ≡ line (why_text (why_tree why))) }
{
    match why {
        Why::NoEntry => text_line(alloc, "none"),
        Why::Permitted => text_line(alloc, "permitted"),
        Why::Blocked(obstacle) => obstacle_line(alloc, obstacle),
    }
}

fn obstacle_line(alloc: Global, obstacle: Obstacle) -> Result<Vec<u8>, NoMemory>
    ensures { IfOk result (λ reply.
        reply.items ≡ line (why_text (Blocked (obstacle_tree obstacle)))) }
{
    match obstacle {
        Obstacle::Edge => text_line(alloc, "edge"),
        Obstacle::Content(a) => address_line(alloc, "content ", a),
        Obstacle::Root(a) => address_line(alloc, "root ", a),
    }
}
