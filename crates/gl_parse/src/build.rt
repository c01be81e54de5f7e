//! A form as a formula.

ghost use Rattle.std.specs.Prelude.{◌≡◌, IfOk};
ghost use Rattle.std.specs.Rc.{rc_str_bytes};
ghost use Rattle.gl_calculus.specs.Grid.Grid.{range};
ghost use Rattle.gl_calculus.specs.Formulas.Formula as F;
ghost use Rattle.gl_language.specs.Reading.Token.{IsRow, is_lower};
ghost use Rattle.gl_language.specs.Reading.Grammar as G;
ghost use Rattle.gl_ast.specs.View.{formula_tree, argument_trees, operand_trees, fun_tree};
ghost use Rattle.gl_parse.specs.Raws.{raw_tree, plains, pairs, links, raws_of};
ghost use Rattle.gl_parse.specs.Faults.{IsSpelled, AreSpelled, AreSpelledOperands, InOrder};

use crate::functions::function_of;
use crate::peek::spelling;
use crate::raw::Raw;
use gl_ast::{Formula, Fun, Op};
use gl_plane::{Addr, NoMemory, Range};
use std::alloc::Global;
use std::rc::RcStr;
use std::str;

/// The name of these letters, which are ASCII.
#[tactic(auto, using(crate::proofs::Building::letter_rules))]
fn named(alloc: Global, letters: &[u8]) -> Result<RcStr, NoMemory>
    ensures { IsRow is_lower letters.now → IfOk result (λ name. rc_str_bytes name ≡ letters.now) }
{
    match str::from_utf8(letters) {
        Ok(name) => Ok(RcStr::from_str(alloc, name)?),
        Err(_) => Ok(RcStr::from_str(alloc, "")?),
    }
}

/// A variable of these letters.
fn variable(alloc: Global, letters: &[u8]) -> Result<Formula, NoMemory>
    ensures { IsRow is_lower letters.now
        → IfOk result (λ f. formula_tree f ≡ F.Formula.Var letters.now) }
{
    Ok(Formula::Var(named(alloc, letters)?))
}

/// A text between quotes.
fn quoted(text: &RcStr) -> Result<Formula, NoMemory>
    ensures { IfOk result (λ f. formula_tree f ≡ F.Formula.Text (rc_str_bytes text.now)) }
{
    Ok(Formula::Text(text.clone()?))
}

/// The range with these corners, which are in order.
#[tactic(auto, using(gl_ast::specs::Forms::trees))]
fn area(a: Addr, b: Addr) -> Formula
    ensures { InOrder a b → formula_tree result ≡ F.Formula.Area (range a b) }
{
    if Range::ordered(a, b) {
        Formula::Area(Range::new(a, b))
    } else {
        Formula::At(a)
    }
}

/// The function of a word, which is one.
fn called(word: &[u8]) -> Fun
    ensures { (xs : F.Formulas)
        → G.call_of (G.function_of word.now) xs ≡ F.Formula.Call (fun_tree result) xs }
{
    match function_of(word) {
        Some(fun) => fun,
        None => Fun::Na,
    }
}

/// The formula of a form that was read from tokens and has its corners in order.
#[cycle(build)]
pub fn build(alloc: Global, text: &[u8], raw: &Raw) -> Result<Formula, NoMemory>
    ensures { IsSpelled InOrder (raw_tree text.now raw.now)
        → IfOk result (λ f. formula_tree f ≡ G.tree (raw_tree text.now raw.now)) }
{
    match raw {
        Raw::Number(n) => Ok(Formula::Int(*n)),
        Raw::Text(t) => quoted(t),
        Raw::Bool(b) => Ok(Formula::Bool(*b)),
        Raw::At(a) => Ok(Formula::At(*a)),
        Raw::Spill(a) => Ok(Formula::Spill(*a)),
        Raw::Corners(a, b) => Ok(area(*a, *b)),
        Raw::Var(name) => variable(alloc, spelling(text, *name)),
        Raw::Neg(f) => Ok(Formula::Neg(build_boxed(alloc, text, f)?)),
        Raw::Chain(level, f, rest) => {
            let f = build_boxed(alloc, text, f)?;
            Ok(Formula::Chain(*level, f, build_operands(alloc, text, rest)?))
        }
        Raw::Compare(op, f, g) => {
            let f = build_boxed(alloc, text, f)?;
            Ok(Formula::Compare(*op, f, build_boxed(alloc, text, g)?))
        }
        Raw::Let(name, f, body) => {
            let name = named(alloc, spelling(text, *name))?;
            let f = build_boxed(alloc, text, f)?;
            Ok(Formula::Let(name, f, build_boxed(alloc, text, body)?))
        }
        Raw::Apply(word, xs) => build_call(alloc, text, spelling(text, *word), xs),
    }
}

/// The same for a form inside another.
#[cycle(build)]
fn build_boxed(alloc: Global, text: &[u8], raw: &Raw) -> Result<Box<Formula>, NoMemory>
    ensures { IsSpelled InOrder (raw_tree text.now raw.now)
        → IfOk result (λ b. formula_tree b.value ≡ G.tree (raw_tree text.now raw.now)) }
{
    let f = build(alloc, text, raw)?;
    Ok(Box::new(alloc, f)?)
}

#[cycle(build)]
#[tactic(auto, using(crate::proofs::Building::operand_rules))]
fn build_operands(
    alloc: Global,
    text: &[u8],
    rest: &[(Op, Raw)],
) -> Result<Vec<(Op, Formula)>, NoMemory>
    ensures { AreSpelledOperands InOrder (links (pairs text.now rest.now))
        → IfOk result (λ v.
        operand_trees v.items ≡ G.operand_trees (links (pairs text.now rest.now))) }
{
    let mut built = Vec::new(alloc);
    for operand in rest {
        let next = build(alloc, text, &operand.1)?;
        built.push((operand.0, next))?;
    }
    Ok(built)
}

#[cycle(build)]
#[tactic(auto, using(crate::proofs::Building::argument_rules))]
fn build_arguments(alloc: Global, text: &[u8], xs: &[Raw]) -> Result<Vec<Formula>, NoMemory>
    ensures { AreSpelled InOrder (raws_of (plains text.now xs.now))
        → IfOk result (λ v. argument_trees v.items ≡ G.trees (raws_of (plains text.now xs.now))) }
{
    let mut built = Vec::new(alloc);
    for raw in xs {
        let next = build(alloc, text, raw)?;
        built.push(next)?;
    }
    Ok(built)
}

/// A call.
#[cycle(build)]
#[tactic(auto, using(gl_ast::specs::Forms::trees))]
fn build_call(alloc: Global, text: &[u8], word: &[u8], xs: &[Raw]) -> Result<Formula, NoMemory>
    ensures { AreSpelled InOrder (raws_of (plains text.now xs.now))
        → IfOk result (λ f.
        formula_tree f
        ≡ G.call_of (G.function_of word.now) (G.trees (raws_of (plains text.now xs.now)))) }
{
    let xs = build_arguments(alloc, text, xs)?;
    Ok(Formula::Call(called(word), xs))
}
