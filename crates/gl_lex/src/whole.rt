//! A text as one literal.

ghost use Rattle.std.specs.Prelude.{◌∷◌};
ghost use Rattle.gl_lex.specs.View.{IsLiteral};

use crate::fault::LexFault;
use crate::scan::quoted;
use gl_plane::NoMemory;
use std::alloc::Global;
use std::rc::RcStr;

/// The text of a literal that the whole text is, or `Text { at: 0 }` exactly where it is none.
#[tactic(auto, using(crate::proofs::Literals::literal_rules))]
pub fn literal(alloc: Global, text: &str) -> Result<RcStr, LexFault>
    ensures { IsLiteral text.now result }
{
    let bytes = text.as_bytes();
    match bytes.split_first() {
        None => Err(LexFault::Text { at: 0 }),
        Some((first, rest)) => {
            if *first == b'"' {
                behind_quote(alloc, rest)
            } else {
                Err(LexFault::Text { at: 0 })
            }
        }
    }
}

/// A whole literal, behind whose opening quote the bytes are.
#[tactic(auto, using(crate::proofs::Literals::whole_rules))]
fn behind_quote(alloc: Global, rest: &[u8]) -> Result<RcStr, LexFault>
    ensures { IsLiteral (34 ∷ rest.now) result }
{
    match quoted(alloc, rest) {
        Ok(Some((text, n))) => {
            if n == rest.len() + 1 {
                Ok(text)
            } else {
                Err(LexFault::Text { at: 0 })
            }
        }
        Ok(None) => Err(LexFault::Text { at: 0 }),
        Err(NoMemory) => Err(LexFault::NoMemory),
    }
}
