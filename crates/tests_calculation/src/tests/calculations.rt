//! Calculations that follow edits, by the pick rule of a kind, and what is held of them.
ghost use Rattle.std.specs.Prelude.{◌≤◌};

use gl_ast::{Version, put_address};
use gl_calc::{Answer, Calc, SpentKind, Why};
use gl_demand::{Silent, Steps, Watch};
use gl_grant::Obstacle;
use gl_order::{Order, by_kind};
use gl_plane::Addr;
use gl_script::{Request, command};
use gl_views::{oracle_text, shown_text};
use std::alloc::Global;
use std::process::Abort;
use std::test::Fail;
use tests_common::address;

/// A sheet by its edits, how its calculation ends, the oracle that is held then (empty where none is),
/// what addresses show, and why roots have their permits.
pub struct Sheet {
    pub lines: &'static [&'static str],
    pub ends: &'static str,
    pub oracle: &'static str,
    pub shows: &'static [(&'static str, &'static str)],
    pub whys: &'static [(&'static str, &'static str)],
}

/// Sets a content, or clears a range.
pub fn edit(alloc: Global, calc: &mut Calc, line: &str) -> Result<(), Fail> {
    let Ok(request) = command(alloc, line.as_bytes()) else {
        return Err("refused".into());
    };
    match request {
        Request::Set(a, content) => {
            calc.put(a, content)?;
            Ok(())
        }
        Request::Clear(range) => {
            calc.clear(&range);
            Ok(())
        }
        _ => Err("no edit".into()),
    }
}

/// The calculator of a sheet with these edits.
pub fn calc_of(alloc: Global, lines: &[&str]) -> Result<Calc, Fail> {
    let mut calc = Calc::new(alloc);
    for line in lines {
        edit(alloc, &mut calc, line)?;
    }
    Ok(calc)
}

/// Words, and an address behind them.
fn words_at(alloc: Global, words: &str, a: Addr) -> Result<String, Fail> {
    let mut out = String::new(alloc);
    out.push_str(words)?;
    put_address(alloc, &mut out, a)?;
    Ok(out)
}

/// The rounds of a calculation, or its spent budget.
fn answer_text(alloc: Global, answer: Answer) -> Result<String, Fail> {
    match answer {
        Answer::Settled { rounds } => Ok(format!(in alloc; "settled {rounds}")?),
        Answer::Spent(spent) => spent_text(alloc, spent),
    }
}

fn spent_text(alloc: Global, spent: SpentKind) -> Result<String, Fail> {
    match spent {
        SpentKind::Rounds(a) => words_at(alloc, "spent rounds ", a),
        SpentKind::CopyRounds(a) => words_at(alloc, "spent copyrounds ", a),
        SpentKind::Depth(a) => words_at(alloc, "spent depth ", a),
        SpentKind::Work => Ok("spent work".to_string(alloc)?),
    }
}

/// Why a root has its permit.
fn why_text(alloc: Global, why: Why) -> Result<String, Fail> {
    match why {
        Why::NoEntry => Ok("none".to_string(alloc)?),
        Why::Permitted => Ok("permitted".to_string(alloc)?),
        Why::Blocked(obstacle) => obstacle_text(alloc, obstacle),
    }
}

fn obstacle_text(alloc: Global, obstacle: Obstacle) -> Result<String, Fail> {
    match obstacle {
        Obstacle::Edge => Ok("edge".to_string(alloc)?),
        Obstacle::Content(a) => words_at(alloc, "content ", a),
        Obstacle::Root(a) => words_at(alloc, "root ", a),
    }
}

/// How the calculation ends, as a text.
pub fn refreshed(alloc: Global, calc: &mut Calc, kind: u8, version: Version) -> Result<String, Fail>
    requires { kind ≤ 2 }
{
    let mut steps = Steps::new(Silent);
    refreshed_in(alloc, calc, kind, version, &mut steps)
}

/// The same, with its steps counted.
pub fn refreshed_in<L: Watch>(
    alloc: Global,
    calc: &mut Calc,
    kind: u8,
    version: Version,
    steps: &mut Steps<L>,
) -> Result<String, Fail>
    requires { kind ≤ 2 }
{
    let order = Order::new(by_kind);
    match calc.refresh(alloc, &order, kind, version, steps) {
        Ok(answer) => answer_text(alloc, answer),
        Err(fault) => Err(fault.into()),
    }
}

/// The address shows this.
pub fn shows(alloc: Global, calc: &Calc, a: &str, text: &str) -> Result<bool, Fail> {
    match calc.shown(address(a)?)? {
        Some(shown) => Ok(shown_text(alloc, &shown)?.as_str() == text),
        None => Ok(false),
    }
}

/// The root has its permit for this reason.
fn has_reason(alloc: Global, calc: &Calc, a: &str, text: &str) -> Result<bool, Fail> {
    match calc.why(address(a)?) {
        Some(why) => Ok(why_text(alloc, why)?.as_str() == text),
        None => Ok(false),
    }
}

/// The held oracle is this text, which is empty where none is held.
fn has_oracle(alloc: Global, calc: &Calc, text: &str) -> Result<bool, Fail> {
    match calc.oracle() {
        Some(oracle) => Ok(oracle_text(alloc, oracle)?.as_str() == text),
        None => Ok(text.is_empty() && !is_held(calc)?),
    }
}

/// An answer is held: then there is an oracle, and each address shows something for a reason.
pub fn is_held(calc: &Calc) -> Result<bool, Fail> {
    let a = address("A1")?;
    let held = calc.oracle().is_some();
    if calc.why(a).is_some() != held || calc.shown(a)?.is_some() != held {
        return Err("held in part".into());
    }
    Ok(held)
}

/// All these addresses show these texts.
fn all_show(alloc: Global, calc: &Calc, rows: &[(&str, &str)]) -> Result<bool, Fail> {
    for (a, text) in rows {
        if !shows(alloc, calc, a, text)? {
            return Ok(false);
        }
    }
    Ok(true)
}

fn all_have_reasons(alloc: Global, calc: &Calc, rows: &[(&str, &str)]) -> Result<bool, Fail> {
    for (a, text) in rows {
        if !has_reason(alloc, calc, a, text)? {
            return Ok(false);
        }
    }
    Ok(true)
}

/// Behind these edits all is as the row says, by the pick rule of this kind.
pub fn goes_on(
    alloc: Global,
    calc: &mut Calc,
    sheet: &Sheet,
    kind: u8,
    version: Version,
) -> Result<bool, Fail>
    requires { kind ≤ 2 }
{
    for line in sheet.lines {
        edit(alloc, calc, line)?;
    }
    let ends = refreshed(alloc, calc, kind, version)?;
    if ends.as_str() != sheet.ends || !has_oracle(alloc, calc, sheet.oracle)? {
        return Ok(false);
    }
    Ok(all_show(alloc, calc, sheet.shows)? && all_have_reasons(alloc, calc, sheet.whys)?)
}

/// Behind the edits of each row, one after another, all is as it says, by the pick rule of this kind.
pub fn all_go_on(alloc: Global, calc: &mut Calc, rows: &[Sheet], kind: u8) -> Result<bool, Fail>
    requires { kind ≤ 2 }
{
    for row in rows {
        if !goes_on(alloc, calc, row, kind, Version::One)? {
            return Ok(false);
        }
    }
    Ok(true)
}

/// The sheet is as its row says, by the pick rule of this kind.
pub fn holds(alloc: Global, sheet: &Sheet, kind: u8) -> Result<bool, Fail>
    requires { kind ≤ 2 }
{
    let mut calc = Calc::new(alloc);
    goes_on(alloc, &mut calc, sheet, kind, Version::One)
}

/// The sheets are as their rows say, by each pick rule.
pub fn assert_sheets(rt: &impl Abort, alloc: Global, sheets: &[Sheet]) -> Result<(), Fail> {
    for sheet in sheets {
        for kind in 0u8..3 {
            assert!(rt; holds(alloc, sheet, kind)?, "{:?} by {kind}", sheet.lines);
        }
    }
    Ok(())
}
