//! A text as a formula.

ghost use Rattle.std.specs.Prelude.{◌≤◌, length};
ghost use Rattle.gl_calculus.specs.Grid.Limits.{max_formula};
ghost use Rattle.gl_language.specs.Texts.Text.{Bytes};
ghost use Rattle.gl_language.specs.Reading.Token.{Lexes};
ghost use Rattle.gl_lex.specs.View.{tokens_in};
ghost use Rattle.gl_lex.specs.View as lex;
ghost use Rattle.gl_parse.specs.{Raws.raw_tree, Faults.Checked, Outcome.Answers, Outcome.IsRefused};

use crate::ParseFault;
use crate::build::build;
use crate::depth::is_deep;
use crate::names::has_bad_name;
use crate::raw::Raw;
use crate::stop::Stop;
use crate::walk::{FormFault, some_form};
use crate::whole::whole;
use gl_ast::Formula;
use gl_lex::{LexFault, MAX_FORMULA, Token, tokens};
use gl_plane::NoMemory;
use std::alloc::Global;

/// The formula that the text is, without the `=` in front, or the first of its faults.
#[tactic(auto, using(crate::proofs::Answering::parse_rules))]
pub fn parse(alloc: Global, text: &str) -> Result<Formula, ParseFault>
    ensures { Answers text.now result }
{
    if text.len() > MAX_FORMULA {
        return Err(ParseFault::Long);
    }
    match tokens(alloc, text) {
        Ok(tokens) => read(alloc, text, &tokens),
        Err(fault) => Err(lex_fault(fault)),
    }
}

#[tactic(auto, using(crate::proofs::Answering::lex_rules))]
fn lex_fault(fault: LexFault) -> ParseFault
    ensures { (text : Bytes)
        → length text ≤ max_formula
        → lex.IsRefused text fault
        → IsRefused text result }
{
    match fault {
        LexFault::Token { at } => ParseFault::Lex(LexFault::Token { at }),
        LexFault::Number { at } => ParseFault::Lex(LexFault::Number { at }),
        LexFault::Text { at } => ParseFault::Lex(LexFault::Text { at }),
        LexFault::NoMemory => ParseFault::NoMemory,
    }
}

/// The formula of a text with these tokens.
#[tactic(auto, using(crate::proofs::Answering::read_rules))]
fn read(alloc: Global, text: &str, tokens: &[Token]) -> Result<Formula, ParseFault>
    requires short { length text.now ≤ max_formula }
    requires lexed { Lexes text.now (tokens_in text.now tokens.now) }
    ensures { Answers text.now result }
{
    let bytes = text.as_bytes();
    if is_deep(bytes, tokens) {
        return Err(ParseFault::Deep);
    }
    match whole(alloc, bytes, tokens) {
        Ok(raw) => checked(alloc, bytes, &raw),
        Err(Stop::Syntax) => Err(ParseFault::Syntax),
        Err(Stop::NoMemory) => Err(ParseFault::NoMemory),
    }
}

/// The formula of a form without faults.
#[tactic(auto, using(crate::proofs::Answering::checked_rules))]
fn checked(alloc: Global, text: &[u8], raw: &Raw) -> Result<Formula, ParseFault>
    ensures { Checked (raw_tree text.now raw.now) result }
{
    if some_form(text, FormFault::Range, raw) {
        return Err(ParseFault::Range);
    }
    match has_bad_name(alloc, text, raw) {
        Ok(false) => {}
        Ok(true) => return Err(ParseFault::Name),
        Err(NoMemory) => return Err(ParseFault::NoMemory),
    }
    if some_form(text, FormFault::Arity, raw) {
        return Err(ParseFault::Arity);
    }
    match build(alloc, text, raw) {
        Ok(f) => Ok(f),
        Err(NoMemory) => Err(ParseFault::NoMemory),
    }
}
