//! The depth of tokens.

ghost use Rattle.std.specs.Prelude.{◌≡◌};
ghost use Rattle.gl_language.specs.Reading.Grammar as spec;
ghost use Rattle.gl_lex.specs.View.{tokens_in};

use gl_lex::{Kind, Sign, Token};

/// The greatest number of `(` that are unclosed behind some token.
const MAX_OPEN: u32 = 64;

/// The greatest number of `-` in a row.
const MAX_MINUS: u32 = 8;

/// Whether more `(` are unclosed behind some token, or more `-` stand in a row, than may.
#[tactic(auto, using(crate::proofs::Deeper::deep_rules))]
pub fn is_deep(text: &[u8], tokens: &[Token]) -> bool
    ensures { result ≡ spec.is_deep (tokens_in text.now tokens.now) }
{
    let mut rest = tokens;
    let mut unclosed: u32 = 0;
    let mut row: u32 = 0;
    while let Some((first, behind)) = rest.split_first() {
        match &first.kind {
            Kind::Sign(Sign::LeftParen) => {
                if MAX_OPEN <= unclosed {
                    return true;
                }
                unclosed += 1;
                row = 0;
            }
            Kind::Sign(Sign::RightParen) => {
                unclosed = unclosed.saturating_sub(1);
                row = 0;
            }
            Kind::Sign(Sign::Minus) => {
                if MAX_MINUS <= row {
                    return true;
                }
                row += 1;
            }
            _ => row = 0,
        }
        rest = behind;
    }
    false
}
