//! Formulas as tokens.
#![tactic(auto)]

mod fault;
pub mod laws;
mod lexer;
mod quote;
mod scan;
mod whole;

pub use fault::LexFault;
use gl_plane::Addr;
pub use lexer::tokens;
use std::rc::RcStr;
pub use whole::literal;

/// The bytes of a formula's text are at most so many.
pub const MAX_FORMULA: usize = 8192;

/// The signs between words, numbers and texts.
#[derive(Clone, Copy, PartialEq, Eq)]
pub enum Sign {
    Eq,
    Ne,
    Lt,
    Le,
    Gt,
    Ge,
    Join,
    Plus,
    Minus,
    Times,
    Over,
    Hash,
    LeftParen,
    RightParen,
    Comma,
    Colon,
}

/// What a token is. Words (of upper case letters) and variables (of lower case letters) have their letters in the token's span.
#[derive(Drop)]
pub enum Kind {
    Integer(i64),
    /// the decoded text of a literal
    Text(RcStr),
    Address(Addr),
    Truth(bool),
    Word,
    Variable,
    Sign(Sign),
}

/// A token with its span in the text, in bytes: from `start` up to `end`, `end` not with it.
#[derive(Drop)]
pub struct Token {
    pub kind: Kind,
    pub start: u32,
    pub end: u32,
}
