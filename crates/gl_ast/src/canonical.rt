//! The canonical text of formulas.

ghost use Rattle.std.specs.Prelude.{◌≡◌, ◌+◌, ◌≤◌, ◌++◌, ◌∷◌, [], OnOk, IfOk, Bool};
ghost use Rattle.std.specs.Prelude.{if◌then◌else◌};
ghost use Rattle.std.specs.{List.join_with_byte, String.string_bytes};
ghost use Rattle.gl_calculus.specs.Grid.Notation as notation;
ghost use Rattle.gl_language.specs.Texts.Text as text;
ghost use Rattle.gl_ast.specs.View.{formula_tree, argument_trees, operand_trees, level_tree};
ghost use Rattle.gl_ast.specs.View.{op_tree, fun_tree};

use crate::literal::{put, put_literal};
use crate::notation::{put_address, put_int, put_range, put_truth};
use crate::{Formula, Fun, Level, Op};
use gl_plane::{Addr, NoMemory};
use std::alloc::Global;

/// The canonical text of a formula, without `=`: no spaces, and parentheses exactly where the grammar can't have a form at its place, a ninth `-` in a row among them.
pub fn print(alloc: Global, f: &Formula) -> Result<String, NoMemory>
    ensures { IfOk result (λ s. string_bytes s ≡ text.formula_text (formula_tree f.now)) }
{
    let mut out = String::new(alloc);
    body(alloc, &mut out, 0, f)?;
    Ok(out)
}

/// The place of a level's chains, from the loosest place 0 to the tightest 5.
fn place(level: Level) -> u8
    ensures value { result ≡ text.level_place (level_tree level) }
    ensures small { result ≤ 3 }
{
    match level {
        Level::Cat => 1,
        Level::Sum => 2,
        Level::Prod => 3,
    }
}

/// How many `-` stand in a row right behind an operator.
fn minus_of(op: Op) -> u8
    ensures { result ≡ text.minus_of (op_tree op) }
{
    match op {
        Op::Sub => 1,
        _ => 0,
    }
}

fn one_more(minus: u8) -> u8
    ensures { result ≡ text.one_more minus }
{
    if minus > 7 { 8 } else { minus + 1 }
}

/// Whether a form stands in parentheses in a place, behind so many `-`.
#[tactic(auto, using(crate::specs::Forms::trees))]
fn needs_parens(minus: u8, at: u8, f: &Formula) -> bool
    ensures { result ≡ text.needs_parens minus at (formula_tree f.now) }
{
    match f {
        Formula::Compare(_, _, _) => at > 0,
        Formula::Chain(level, _, _) => at > place(*level),
        Formula::Neg(_) => at > 4 || minus >= 8,
        Formula::Int(_)
        | Formula::Text(_)
        | Formula::Bool(_)
        | Formula::At(_)
        | Formula::Spill(_)
        | Formula::Area(_)
        | Formula::Var(_)
        | Formula::Call(_, _)
        | Formula::Let(_, _, _) => at > 5,
    }
}

fn put_spill(alloc: Global, out: &mut String, a: Addr) -> Result<(), NoMemory>
    ensures { OnOk result (
        string_bytes out.new ≡ string_bytes out.old ++ (notation.address_text a ++ 35 ∷ [])) }
{
    put_address(alloc, out, a)?;
    out.push_str("#")?;
    Ok(())
}

/// The comma in front of an argument that isn't the first.
fn comma(out: &mut String, more: bool) -> Result<(), NoMemory>
    ensures { OnOk result (
        string_bytes out.new ≡ string_bytes out.old ++ (if more then 44 ∷ [] else [])) }
{
    if more {
        out.push_str(",")?;
    }
    Ok(())
}

/// What stands before the second argument of a `LET`.
#[tactic(auto, using(crate::proofs::Printing::head_rules))]
fn put_let(out: &mut String, v: &str) -> Result<(), NoMemory>
    ensures { OnOk result (
        string_bytes out.new ≡ string_bytes out.old ++ (76 ∷ 69 ∷ 84 ∷ 40 ∷ v.now ++ 44 ∷ [])) }
{
    put(out, "LET(")?;
    put(out, v)?;
    put(out, ",")
}

/// A form in a place, behind so many `-`, with the parentheses that it needs there.
#[cycle(print)]
#[tactic(auto, using(crate::proofs::Printing::placed_rules))]
fn placed(alloc: Global, out: &mut String, at: u8, minus: u8, f: &Formula) -> Result<(), NoMemory>
    ensures { OnOk result (
        string_bytes out.new
        ≡ string_bytes out.old ++ text.placed_text at minus (formula_tree f.now)) }
{
    if needs_parens(minus, at, f) {
        put(out, "(")?;
        body(alloc, out, 0, f)?;
        put(out, ")")
    } else {
        body(alloc, out, minus, f)
    }
}

/// A form without parentheses around it.
#[cycle(print)]
#[tactic(auto, using(crate::specs::Forms::trees))]
fn body(alloc: Global, out: &mut String, minus: u8, f: &Formula) -> Result<(), NoMemory>
    ensures { OnOk result (
        string_bytes out.new
        ≡ string_bytes out.old ++ text.text_behind minus (formula_tree f.now)) }
{
    match f {
        Formula::Int(n) => put_int(alloc, out, *n),
        Formula::Text(t) => put_literal(out, t),
        Formula::Bool(b) => put_truth(out, *b),
        Formula::At(a) => put_address(alloc, out, *a),
        Formula::Spill(a) => put_spill(alloc, out, *a),
        Formula::Area(r) => put_range(alloc, out, *r),
        Formula::Var(v) => put(out, v),
        Formula::Neg(x) => negated(alloc, out, one_more(minus), x),
        Formula::Chain(level, x, rest) => chain(alloc, out, *level, minus, x, rest),
        Formula::Compare(op, x, y) => comparison(alloc, out, minus, x, *op, y),
        Formula::Call(g, xs) => call(alloc, out, *g, xs),
        Formula::Let(v, x, y) => binding(alloc, out, v, x, y),
    }
}

/// A `-` and its operand, which stands behind so many of them.
#[cycle(print)]
fn negated(alloc: Global, out: &mut String, minus: u8, x: &Formula) -> Result<(), NoMemory>
    ensures { OnOk result (
        string_bytes out.new
        ≡ string_bytes out.old ++ 45 ∷ text.placed_text 4 minus (formula_tree x.now)) }
{
    put(out, "-")?;
    placed(alloc, out, 4, minus, x)
}

/// Operands of one level, with their operators between them.
#[cycle(print)]
fn chain(
    alloc: Global,
    out: &mut String,
    level: Level,
    minus: u8,
    x: &Formula,
    rest: &[(Op, Formula)],
) -> Result<(), NoMemory>
    ensures { OnOk result (
        string_bytes out.new
        ≡ string_bytes out.old
        ++ (text.placed_text (text.level_place (level_tree level) + 1) minus (formula_tree x.now)
        ++ text.operands_text (text.level_place (level_tree level) + 1)
        (operand_trees rest.now))) }
{
    let at = place(level) + 1;
    placed(alloc, out, at, minus, x)?;
    operands(alloc, out, at, rest)
}

/// One comparison.
#[cycle(print)]
fn comparison(
    alloc: Global,
    out: &mut String,
    minus: u8,
    x: &Formula,
    op: Op,
    y: &Formula,
) -> Result<(), NoMemory>
    ensures { OnOk result (
        string_bytes out.new
        ≡ string_bytes out.old
        ++ (text.placed_text 1 minus (formula_tree x.now)
        ++ text.op_text (op_tree op)
        ++ text.placed_text 1 0 (formula_tree y.now))) }
{
    placed(alloc, out, 1, minus, x)?;
    put(out, op.sign())?;
    placed(alloc, out, 1, 0, y)
}

/// The call of a function.
#[cycle(print)]
fn call(alloc: Global, out: &mut String, g: Fun, xs: &[Formula]) -> Result<(), NoMemory>
    ensures { OnOk result (
        string_bytes out.new
        ≡ string_bytes out.old
        ++ (text.fun_text (fun_tree g)
        ++ text.in_parens (join_with_byte 44 (text.texts (argument_trees xs.now))))) }
{
    put(out, g.word())?;
    put(out, "(")?;
    arguments(alloc, out, xs)?;
    put(out, ")")
}

/// A `LET` with its variable, what that is bound to, and its body.
#[cycle(print)]
fn binding(
    alloc: Global,
    out: &mut String,
    v: &str,
    x: &Formula,
    y: &Formula,
) -> Result<(), NoMemory>
    ensures { OnOk result (
        string_bytes out.new
        ≡ string_bytes out.old
        ++ (76 ∷ 69 ∷ 84 ∷ text.in_parens
        (join_with_byte 44
        (v.now ∷ text.text_behind 0 (formula_tree x.now)
        ∷ text.text_behind 0 (formula_tree y.now) ∷ [])))) }
{
    put_let(out, v)?;
    body(alloc, out, 0, x)?;
    put(out, ",")?;
    body(alloc, out, 0, y)?;
    put(out, ")")
}

/// Operators, each with its operand.
#[cycle(print)]
#[tactic(auto, using(crate::proofs::Printing::operand_rules))]
fn operands(alloc: Global, out: &mut String, at: u8, all: &[(Op, Formula)]) -> Result<(), NoMemory>
    ensures { OnOk result (
        string_bytes out.new
        ≡ string_bytes out.old ++ text.operands_text at (operand_trees all.now)) }
{
    for operand in all {
        put(out, operand.0.sign())?;
        placed(alloc, out, at, minus_of(operand.0), &operand.1)?;
    }
    Ok(())
}

/// Arguments, with commas between them.
#[cycle(print)]
#[tactic(auto, using(crate::proofs::Printing::argument_rules))]
fn arguments(alloc: Global, out: &mut String, all: &[Formula]) -> Result<(), NoMemory>
    ensures { OnOk result (
        string_bytes out.new
        ≡ string_bytes out.old ++ join_with_byte 44 (text.texts (argument_trees all.now))) }
{
    let mut more = false;
    for x in all {
        comma(out, more)?;
        body(alloc, out, 0, x)?;
        more = true;
    }
    Ok(())
}
