//! Laws of the tokens.

ghost use Rattle.std.specs.Prelude.{◌≡◌};
ghost use Rattle.gl_lex.specs.Laws.{OneTokenList, OneLexFault, TokensOrFault};
ghost use Rattle.gl_lex.specs.Laws.{CanonicalIsLexed};
ghost use Rattle.gl_language.specs.Texts.Text.{Bytes};
ghost use Rattle.gl_language.specs.Reading.Token as T;

/// A text has at most one list of tokens, or one first fault, and not both.
pub fn one_reading()
    ensures list { OneTokenList }
    ensures fault { OneLexFault }
    ensures apart { TokensOrFault }
{}

/// A literal stands for one text.
pub fn one_text()
    ensures { (bytes t u : Bytes)
        → T.Spells (T.Quoted t) bytes
        → T.Spells (T.Quoted u) bytes
        → t ≡ u }
{}

/// The canonical text of a formula has its canonical tokens.
pub fn canonical_tokens()
    ensures { CanonicalIsLexed }
{}
