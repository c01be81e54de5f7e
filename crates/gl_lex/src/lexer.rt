//! A text as tokens.

ghost use Rattle.std.specs.Prelude.{◌≤◌, length, MatchResult};
ghost use Rattle.gl_calculus.specs.Grid.Limits.{max_formula};
ghost use Rattle.gl_language.specs.Reading.Token.{Lexes};
ghost use Rattle.gl_lex.specs.View.{tokens_in, AreSpans, IsRefused};

use crate::Token;
use crate::fault::{LexFault, fault};
use crate::scan::cut;
use std::alloc::Global;

/// The tokens of a text, each with its span, or the first place at which no token can be read.
#[tactic(auto, using(crate::proofs::Lexing::lex_rules))]
pub fn tokens(alloc: Global, text: &str) -> Result<Vec<Token>, LexFault>
    requires { length text.now ≤ max_formula }
    ensures { MatchResult result
        (λ v.
        Lexes text.now (tokens_in text.now v.items) × AreSpans text.now 0 (length text.now) v.items)
        (λ e. IsRefused text.now e) }
{
    let bytes = text.as_bytes();
    let mut found = Vec::new(alloc);
    let mut at: usize = 0;
    while at < bytes.len() {
        if bytes[at] == b' ' {
            at += 1;
        } else {
            match cut(alloc, &bytes[at..]) {
                Ok((kind, n)) => {
                    found.push(Token {
                        kind,
                        start: at as u32,
                        end: (at + n) as u32,
                    })?;
                    at += n;
                }
                Err(bad) => return Err(fault(bad, at as u32)),
            }
        }
    }
    Ok(found)
}
