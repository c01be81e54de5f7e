//! The words that are called, and the variables that are bound.

ghost use Rattle.std.specs.Prelude.{◌≡◌, IfOk, is_some};
ghost use Rattle.std.specs.Prelude.{◌||◌, [], ◌∷◌, bytes_eq};
ghost use Rattle.std.specs.List.{list_any};
ghost use Rattle.gl_language.specs.Texts.Text.{Bytes};
ghost use Rattle.gl_language.specs.Reading.Grammar as G;
ghost use Rattle.gl_parse.specs.Raws.{raw_tree, plains, pairs, links, raws_of, letters};
ghost use Rattle.gl_parse.specs.Faults as spec;

use crate::functions::{function_of, is_let};
use crate::peek::spelling;
use crate::raw::{Raw, Span};
use gl_ast::Op;
use gl_plane::NoMemory;
use std::alloc::Global;

/// Whether some called word is no function, or some variable isn't bound.
pub fn has_bad_name(alloc: Global, text: &[u8], raw: &Raw) -> Result<bool, NoMemory>
    ensures { IfOk result (λ b. b ≡ G.has_bad_name [] (raw_tree text.now raw.now)) }
{
    let mut scope = Vec::new(alloc);
    bad_name(text, &mut scope, raw)
}

/// Whether one of the bound names, the innermost last, has these letters.
#[tactic(auto, using(crate::proofs::Naming::bound_rules))]
fn is_bound(text: &[u8], scope: &[Span], name: Span) -> bool
    ensures { result ≡ list_any (bytes_eq (letters text.now name)) (spec.scope text.now scope.now) }
{
    for bound in scope {
        if is_same(text, name, *bound) {
            return true;
        }
    }
    false
}

/// Whether two spans have the same letters.
fn is_same(text: &[u8], a: Span, b: Span) -> bool
    ensures { result ≡ bytes_eq (letters text.now a) (letters text.now b) }
{
    spelling(text, a) == spelling(text, b)
}

/// The same under the names that are bound around the form, the innermost last. They are as before where it answers.
#[cycle(names)]
fn bad_name(text: &[u8], scope: &mut Vec<Span>, raw: &Raw) -> Result<bool, NoMemory>
    ensures value { IfOk result (λ b.
        b ≡ G.has_bad_name (spec.scope text.now scope.old.items) (raw_tree text.now raw.now)) }
    ensures same { IfOk result (λ b. scope.new.items ≡ scope.old.items) }
{
    match raw {
        Raw::Var(name) => Ok(!is_bound(text, scope, *name)),
        Raw::Neg(f) => bad_name(text, scope, f),
        Raw::Chain(_, f, rest) => {
            let bad = bad_name(text, scope, f)?;
            if bad {
                return Ok(true);
            }
            bad_name_in_operands(text, scope, rest)
        }
        Raw::Compare(_, f, g) => {
            let bad = bad_name(text, scope, f)?;
            if bad {
                return Ok(true);
            }
            bad_name(text, scope, g)
        }
        Raw::Let(name, value, body) => {
            let bad = bad_name(text, scope, value)?;
            if bad {
                return Ok(true);
            }
            bad_name_in_body(text, scope, *name, body)
        }
        Raw::Apply(word, xs) => bad_name_in_call(text, scope, spelling(text, *word), xs),
        _ => Ok(false),
    }
}

#[cycle(names)]
#[tactic(auto, using(crate::proofs::Naming::operand_rules))]
fn bad_name_in_operands(
    text: &[u8],
    scope: &mut Vec<Span>,
    rest: &[(Op, Raw)],
) -> Result<bool, NoMemory>
    ensures value { IfOk result (λ b.
        b
        ≡ G.bad_name_in_operands (spec.scope text.now scope.old.items)
        (links (pairs text.now rest.now))) }
    ensures same { IfOk result (λ b. scope.new.items ≡ scope.old.items) }
{
    for operand in rest {
        let bad = bad_name(text, scope, &operand.1)?;
        if bad {
            return Ok(true);
        }
    }
    Ok(false)
}

#[cycle(names)]
#[tactic(auto, using(crate::proofs::Naming::argument_rules))]
fn bad_name_in_arguments(text: &[u8], scope: &mut Vec<Span>, xs: &[Raw]) -> Result<bool, NoMemory>
    ensures value { IfOk result (λ b.
        b
        ≡ G.bad_name_in (spec.scope text.now scope.old.items) (raws_of (plains text.now xs.now))) }
    ensures same { IfOk result (λ b. scope.new.items ≡ scope.old.items) }
{
    for raw in xs {
        let bad = bad_name(text, scope, raw)?;
        if bad {
            return Ok(true);
        }
    }
    Ok(false)
}

/// A call, which binds nothing.
#[cycle(names)]
fn bad_name_in_call(
    text: &[u8],
    scope: &mut Vec<Span>,
    word: &[u8],
    xs: &[Raw],
) -> Result<bool, NoMemory>
    ensures value { IfOk result (λ b.
        b
        ≡ G.has_bad_name (spec.scope text.now scope.old.items)
        (G.Raw.Apply word.now (raws_of (plains text.now xs.now)))) }
    ensures same { IfOk result (λ b. scope.new.items ≡ scope.old.items) }
{
    if !is_called(word) {
        return Ok(true);
    }
    bad_name_in_arguments(text, scope, xs)
}

/// A form in which a variable is bound.
#[cycle(names)]
#[tactic(auto, using(crate::proofs::Naming::body_rules))]
fn bad_name_in_body(
    text: &[u8],
    scope: &mut Vec<Span>,
    name: Span,
    body: &Raw,
) -> Result<bool, NoMemory>
    ensures value { IfOk result (λ b.
        b
        ≡ G.has_bad_name (letters text.now name ∷ spec.scope text.now scope.old.items)
        (raw_tree text.now body.now)) }
    ensures same { IfOk result (λ b. scope.new.items ≡ scope.old.items) }
{
    scope.push(name)?;
    let bad = bad_name(text, scope, body)?;
    scope.pop();
    Ok(bad)
}

/// Whether a word can be called.
fn is_called(word: &[u8]) -> bool
    ensures { result ≡ (G.is_let word.now || is_some (G.function_of word.now)) }
{
    is_let(word) || function_of(word).is_some()
}
