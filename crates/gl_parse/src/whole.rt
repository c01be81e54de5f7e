//! All tokens as one expression.

ghost use Rattle.gl_lex.specs.View.{tokens_in};
ghost use Rattle.gl_parse.specs.{Raws.raw_tree, Reading.IsReadAs};

use crate::grammar::expr;
use crate::raw::Raw;
use crate::stop::Stop;
use gl_lex::Token;
use std::alloc::Global;

/// The one form that the tokens are, if they are an expression.
#[tactic(auto, using(crate::proofs::AllRead::whole_rules))]
pub fn whole(alloc: Global, text: &[u8], tokens: &[Token]) -> Result<Raw, Stop>
    ensures { IsReadAs (tokens_in text.now tokens.now) (raw_tree text.now) result }
{
    let (raw, rest) = expr(alloc, text, tokens)?;
    if rest.is_empty() {
        Ok(raw)
    } else {
        Err(Stop::Syntax)
    }
}
