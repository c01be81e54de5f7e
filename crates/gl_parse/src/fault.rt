//! Why a text is no formula.

use gl_lex::LexFault;

/// Why a text is no formula: the first of these that holds, in this order.
#[derive(Drop)]
pub enum ParseFault {
    /// The text has more than 8,192 bytes.
    Long,
    /// At some place no token can be read. It is never `LexFault::NoMemory`.
    Lex(LexFault),
    /// More than 64 `(` are unclosed behind some token, or more than 8 `-` stand in a row.
    Deep,
    /// The tokens are no expression.
    Syntax,
    /// Some range has its corners out of order, or more than 10,000 cells.
    Range,
    /// Some word that is called is no function, or some variable isn't bound by a `LET` around it.
    Name,
    /// Some call has a number or a form of arguments that its function doesn't take.
    Arity,
    NoMemory,
}
