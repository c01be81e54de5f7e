//! What stands in front of some tokens.

ghost use Rattle.std.specs.Prelude.{◌≡◌, ◌+◌, ◌∷◌, length, MatchOption, ⊤};
ghost use Rattle.gl_calculus.specs.Grid.Grid.{Addr};
ghost use Rattle.gl_language.specs.Reading.Grammar.{Tokens, comparison, operator};
ghost use Rattle.gl_language.specs.Reading.Token.{Address, Signed};
ghost use Rattle.gl_language.specs.Reading.Token as T;
ghost use Rattle.gl_lex.specs.View.{sign_of, tokens_in};
ghost use Rattle.gl_ast.specs.View.{level_tree, op_tree};
ghost use Rattle.gl_parse.specs.{Raws.letters, Reading.after_sign, Reading.Front};

use crate::raw::Span;
use gl_ast::{Level, Op};
use gl_lex::{Kind, Sign, Token};
use gl_plane::Addr;

/// The sign in front, and the tokens behind it.
fn sign<'a>(text: &[u8], tokens: &'a [Token]) -> Option<(Sign, &'a [Token])>
    ensures cases { MatchOption result
        ((s : T.Sign) (ts : Tokens) → tokens_in text.now tokens.now ≡ Signed s ∷ ts → ⊥)
        (λ p. tokens_in text.now tokens.now ≡ Signed (sign_of p.0) ∷ tokens_in text.now p.1.now) }
    ensures len { MatchOption result ⊤ (λ p. length p.1.now + 1 ≡ length tokens.now) }
{
    let (first, rest) = tokens.split_first()?;
    match &first.kind {
        Kind::Sign(s) => Some((*s, rest)),
        Kind::Integer(_) => None,
        Kind::Text(_) => None,
        Kind::Address(_) => None,
        Kind::Truth(_) => None,
        Kind::Word => None,
        Kind::Variable => None,
    }
}

/// The comparison of a sign.
fn comparing(sign: Sign) -> Option<Op>
    ensures { MatchOption result (comparison (sign_of sign) ≡ None) (λ op.
        comparison (sign_of sign) ≡ Some (op_tree op)) }
{
    match sign {
        Sign::Eq => Some(Op::Eq),
        Sign::Ne => Some(Op::Ne),
        Sign::Lt => Some(Op::Lt),
        Sign::Le => Some(Op::Le),
        Sign::Gt => Some(Op::Gt),
        Sign::Ge => Some(Op::Ge),
        Sign::Join
        | Sign::Plus
        | Sign::Minus
        | Sign::Times
        | Sign::Over
        | Sign::Hash
        | Sign::LeftParen
        | Sign::RightParen
        | Sign::Comma
        | Sign::Colon => None,
    }
}

/// The operator of a sign in chains of a level.
fn joining(level: Level, sign: Sign) -> Option<Op>
    ensures { MatchOption result (operator (level_tree level) (sign_of sign) ≡ None) (λ op.
        operator (level_tree level) (sign_of sign) ≡ Some (op_tree op)) }
{
    match (level, sign) {
        (Level::Cat, Sign::Join) => Some(Op::Join),
        (Level::Sum, Sign::Plus) => Some(Op::Add),
        (Level::Sum, Sign::Minus) => Some(Op::Sub),
        (Level::Prod, Sign::Times) => Some(Op::Mul),
        (Level::Prod, Sign::Over) => Some(Op::Div),
        _ => None,
    }
}

/// The comparison in front, and the tokens behind it.
#[tactic(auto, using(crate::proofs::Ends::no_sign, crate::proofs::Ends::this_behind, crate::proofs::Ends::this_other))]
pub fn compared<'a>(text: &[u8], tokens: &'a [Token]) -> Option<(Op, &'a [Token])>
    ensures cases { MatchOption result
        (after_sign comparison (tokens_in text.now tokens.now) ≡ Front.Other)
        (λ p.
        after_sign comparison (tokens_in text.now tokens.now)
        ≡ Front.Behind (op_tree p.0) (tokens_in text.now p.1.now)) }
    ensures len { MatchOption result ⊤ (λ p. length p.1.now + 1 ≡ length tokens.now) }
{
    let (sign, rest) = sign(text, tokens)?;
    Some((comparing(sign)?, rest))
}

/// The operator of this level in front, and the tokens behind it.
#[tactic(auto, using(crate::proofs::Ends::no_sign, crate::proofs::Ends::this_behind, crate::proofs::Ends::this_other))]
pub fn joined<'a>(text: &[u8], level: Level, tokens: &'a [Token]) -> Option<(Op, &'a [Token])>
    ensures cases { MatchOption result
        (after_sign (operator (level_tree level)) (tokens_in text.now tokens.now) ≡ Front.Other)
        (λ p.
        after_sign (operator (level_tree level)) (tokens_in text.now tokens.now)
        ≡ Front.Behind (op_tree p.0) (tokens_in text.now p.1.now)) }
    ensures len { MatchOption result ⊤ (λ p. length p.1.now + 1 ≡ length tokens.now) }
{
    let (sign, rest) = sign(text, tokens)?;
    Some((joining(level, sign)?, rest))
}

/// The tokens behind this sign, which is in front.
#[tactic(auto, using(crate::proofs::Forms::other_sign))]
pub fn after<'a>(text: &[u8], wanted: Sign, tokens: &'a [Token]) -> Option<&'a [Token]>
    ensures cases { MatchOption result
        ((ts : Tokens) → tokens_in text.now tokens.now ≡ Signed (sign_of wanted) ∷ ts → ⊥)
        (λ p. tokens_in text.now tokens.now ≡ Signed (sign_of wanted) ∷ tokens_in text.now p.now) }
    ensures len { MatchOption result ⊤ (λ p. length p.now + 1 ≡ length tokens.now) }
{
    let (found, rest) = sign(text, tokens)?;
    if found == wanted { Some(rest) } else { None }
}

/// The address in front, and the tokens behind it.
pub fn address<'a>(text: &[u8], tokens: &'a [Token]) -> Option<(&'a Addr, &'a [Token])>
    ensures cases { MatchOption result
        ((a : Addr) (ts : Tokens) → tokens_in text.now tokens.now ≡ Address a ∷ ts → ⊥)
        (λ p. tokens_in text.now tokens.now ≡ Address p.0.now ∷ tokens_in text.now p.1.now) }
    ensures len { MatchOption result ⊤ (λ p. length p.1.now + 1 ≡ length tokens.now) }
{
    let (first, rest) = tokens.split_first()?;
    match &first.kind {
        Kind::Address(a) => Some((a, rest)),
        Kind::Integer(_) => None,
        Kind::Text(_) => None,
        Kind::Sign(_) => None,
        Kind::Truth(_) => None,
        Kind::Word => None,
        Kind::Variable => None,
    }
}

/// The letters of a span.
pub fn spelling(text: &[u8], span: Span) -> &[u8]
    ensures { result.now ≡ letters text.now span }
{
    let end = (span.end as usize).min(text.len());
    let start = (span.start as usize).min(end);
    &text[start..end]
}
