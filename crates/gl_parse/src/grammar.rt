//! The grammar, read from left to right. Each call of the reader decides whether a front of the tokens is its form.

ghost use Rattle.std.specs.Prelude.{◌≡◌, ◌<◌, ◌≤◌, ◌∷◌, length, IfOk, MatchResult, ⊤};
ghost use Rattle.gl_language.specs.Reading.Token.{Address, Word, Signed};
ghost use Rattle.gl_language.specs.Reading.Grammar.{IsExpr, IsChain, IsOperand, IsUnary, IsAtom};
ghost use Rattle.gl_language.specs.Reading.Grammar.{IsArguments};
ghost use Rattle.gl_language.specs.Texts.Text.{Bytes};
ghost use Rattle.gl_language.specs.Reading.Token as T;
ghost use Rattle.gl_language.specs.Reading.Grammar as spec;
ghost use Rattle.gl_lex.specs.View.{tokens_in};
ghost use Rattle.gl_ast.specs.View.{level_tree};
ghost use Rattle.gl_parse.specs.Raws.{raw_tree, plains, pairs, links, raws_of, letters};
ghost use Rattle.gl_parse.specs.Reading.{Decides, DecidesForm, DecidesLevel};
ghost use Rattle.gl_parse.specs.Reading.{chain_end, operand_end};

use crate::applied::applied;
use crate::peek::{address, after, compared, joined};
use crate::raw::{Raw, Span};
use crate::stop::Stop;
use gl_ast::{Level, Op};
use gl_lex::{Kind, Sign, Token};
use gl_plane::Addr;
use std::alloc::Global;

/// What is read in front of some tokens, with the tokens behind it.
type Read<'a, T> = Result<(T, &'a [Token]), Stop>;

/// What an address begins, with the tokens behind it.
#[tactic(auto, using(crate::proofs::Rulesets::address_rules))]
fn addressed<'a>(text: &[u8], a: Addr, tokens: &'a [Token]) -> Read<'a, Raw>
    ensures cases { DecidesForm IsAtom 5 text.now
        (Address a ∷ tokens_in text.now tokens.now) result }
    ensures shrinks { IfOk result (λ p. length p.1.now ≤ length tokens.now) }
{
    if let Some(rest) = after(text, Sign::Hash, tokens) {
        return Ok((Raw::Spill(a), rest));
    }
    let Some(rest) = after(text, Sign::Colon, tokens) else {
        return Ok((Raw::At(a), tokens));
    };
    match address(text, rest) {
        Some((b, rest)) => Ok((Raw::Corners(a, *b), rest)),
        None => Err(Stop::Syntax),
    }
}

/// An expression.
#[cycle(grammar)]
pub fn expr<'a>(alloc: Global, text: &[u8], tokens: &'a [Token]) -> Read<'a, Raw>
    ensures cases { DecidesForm IsExpr 1 text.now (tokens_in text.now tokens.now) result }
    ensures shrinks { IfOk result (λ p. length p.1.now < length tokens.now) }
{
    let (first, rest) = chain(alloc, text, Level::Cat, tokens)?;
    let Some((op, rest)) = compared(text, rest) else {
        return Ok((first, rest));
    };
    let (second, rest) = chain(alloc, text, Level::Cat, rest)?;
    Ok((
        Raw::Compare(op, Box::new(alloc, first)?, Box::new(alloc, second)?),
        rest,
    ))
}

/// Operands joined by the operators of a level, or one alone.
#[cycle(grammar)]
fn chain<'a>(alloc: Global, text: &[u8], level: Level, tokens: &'a [Token]) -> Read<'a, Raw>
    ensures cases { DecidesLevel IsChain chain_end level text.now tokens.now result }
    ensures shrinks { IfOk result (λ p. length p.1.now < length tokens.now) }
{
    let (first, mut rest) = operand(alloc, text, level, tokens)?;
    let mut others = Vec::new(alloc);
    while let Some((op, behind)) = joined(text, level, rest) {
        let (next, behind) = operand(alloc, text, level, behind)?;
        others.push((op, next))?;
        rest = behind;
    }
    Ok((chained(alloc, level, first, others)?, rest))
}

/// What a repetition is, which is its operand where it has no operator.
#[tactic(auto, using(crate::proofs::Rulesets::chained_rules))]
fn chained(alloc: Global, level: Level, first: Raw, others: Vec<(Op, Raw)>) -> Result<Raw, Stop>
    ensures tree { (text : Bytes)
        → IfOk result (λ r.
        raw_tree text r
        ≡ spec.chained (level_tree level) (raw_tree text first) (links (pairs text others.items))) }
    ensures no_memory { MatchResult result (λ r. ⊤) (λ e. e ≡ Stop.NoMemory) }
{
    if others.is_empty() {
        return Ok(first);
    }
    Ok(Raw::Chain(level, Box::new(alloc, first)?, others))
}

#[cycle(grammar)]
fn operand<'a>(alloc: Global, text: &[u8], level: Level, tokens: &'a [Token]) -> Read<'a, Raw>
    ensures cases { DecidesLevel IsOperand operand_end level text.now tokens.now result }
    ensures shrinks { IfOk result (λ p. length p.1.now < length tokens.now) }
{
    match level {
        Level::Cat => chain(alloc, text, Level::Sum, tokens),
        Level::Sum => chain(alloc, text, Level::Prod, tokens),
        Level::Prod => unary(alloc, text, tokens),
    }
}

#[cycle(grammar)]
fn unary<'a>(alloc: Global, text: &[u8], tokens: &'a [Token]) -> Read<'a, Raw>
    ensures cases { DecidesForm IsUnary 5 text.now (tokens_in text.now tokens.now) result }
    ensures shrinks { IfOk result (λ p. length p.1.now < length tokens.now) }
{
    let Some(rest) = after(text, Sign::Minus, tokens) else {
        return atom(alloc, text, tokens);
    };
    let (inner, rest) = unary(alloc, text, rest)?;
    Ok((Raw::Neg(Box::new(alloc, inner)?), rest))
}

#[cycle(grammar)]
fn atom<'a>(alloc: Global, text: &[u8], tokens: &'a [Token]) -> Read<'a, Raw>
    ensures cases { DecidesForm IsAtom 5 text.now (tokens_in text.now tokens.now) result }
    ensures shrinks { IfOk result (λ p. length p.1.now < length tokens.now) }
{
    let Some((first, rest)) = tokens.split_first() else {
        return Err(Stop::Syntax);
    };
    let span = Span {
        start: first.start,
        end: first.end,
    };
    match &first.kind {
        Kind::Integer(n) => Ok((Raw::Number(*n), rest)),
        Kind::Address(a) => addressed(text, *a, rest),
        Kind::Text(t) => Ok((Raw::Text(t.clone().map_err(|_| Stop::NoMemory)?), rest)),
        Kind::Truth(b) => Ok((Raw::Bool(*b), rest)),
        Kind::Variable => Ok((Raw::Var(span), rest)),
        Kind::Word => call(alloc, text, span, rest),
        Kind::Sign(Sign::LeftParen) => parens(alloc, text, rest),
        Kind::Sign(_) => Err(Stop::Syntax),
    }
}

/// A call of this word, behind which the tokens are.
#[cycle(grammar)]
fn call<'a>(alloc: Global, text: &[u8], word: Span, tokens: &'a [Token]) -> Read<'a, Raw>
    ensures cases { DecidesForm IsAtom 5 text.now
        (Word (letters text.now word) ∷ tokens_in text.now tokens.now) result }
    ensures shrinks { IfOk result (λ p. length p.1.now < length tokens.now) }
{
    let Some(rest) = after(text, Sign::LeftParen, tokens) else {
        return Err(Stop::Syntax);
    };
    let (all, rest) = arguments(alloc, text, rest)?;
    Ok((applied(alloc, text, word, all)?, rest))
}

/// What stands behind the left parenthesis of a call.
#[cycle(grammar)]
fn arguments<'a>(alloc: Global, text: &[u8], tokens: &'a [Token]) -> Read<'a, Vec<Raw>>
    ensures cases { Decides result (λ p. raws_of (plains text.now p.0.items))
        (λ p. tokens_in text.now p.1.now) IsArguments 5 (tokens_in text.now tokens.now) }
    ensures shrinks { IfOk result (λ p. length p.1.now < length tokens.now) }
{
    let mut all = Vec::new(alloc);
    if let Some(rest) = after(text, Sign::RightParen, tokens) {
        return Ok((all, rest));
    }
    let (first, mut rest) = expr(alloc, text, tokens)?;
    all.push(first)?;
    while let Some(behind) = after(text, Sign::Comma, rest) {
        let (next, behind) = expr(alloc, text, behind)?;
        all.push(next)?;
        rest = behind;
    }
    match after(text, Sign::RightParen, rest) {
        Some(rest) => Ok((all, rest)),
        None => Err(Stop::Syntax),
    }
}

/// What stands in parentheses, behind the first of which the tokens are.
#[cycle(grammar)]
fn parens<'a>(alloc: Global, text: &[u8], tokens: &'a [Token]) -> Read<'a, Raw>
    ensures cases { DecidesForm IsAtom 5 text.now
        (Signed T.Sign.LeftParen ∷ tokens_in text.now tokens.now) result }
    ensures shrinks { IfOk result (λ p. length p.1.now < length tokens.now) }
{
    let (inner, rest) = expr(alloc, text, tokens)?;
    match after(text, Sign::RightParen, rest) {
        Some(rest) => Ok((inner, rest)),
        None => Err(Stop::Syntax),
    }
}
