//! A form as it is written, before its ranges, names and arguments are looked at.

use gl_ast::{Level, Op};
use gl_plane::Addr;
use std::rc::RcStr;

/// Where letters stand in the text, in bytes: from `start` up to `end`, `end` not with it.
#[derive(Clone, Copy)]
pub struct Span {
    pub start: u32,
    pub end: u32,
}

/// A form of the grammar. Parentheses make none.
pub enum Raw {
    Number(i64),
    Text(RcStr),
    Bool(bool),
    At(Addr),
    Spill(Addr),
    /// `A1:B3`, whatever the order of its corners
    Corners(Addr, Addr),
    Var(Span),
    Neg(Box<Raw>),
    Chain(Level, Box<Raw>, Vec<(Op, Raw)>),
    Compare(Op, Box<Raw>, Box<Raw>),
    /// `LET` of a variable, its value, and the body in which it is bound
    Let(Span, Box<Raw>, Box<Raw>),
    /// any other call of a word, which may be no function
    Apply(Span, Vec<Raw>),
}

// derived, it would be taken apart wherever a function of the parser can return
impl Drop for Raw {
    fn drop(self) {
        match self {
            Raw::Number(_) => {}
            Raw::Text(t) => drop(t),
            Raw::Bool(_) => {}
            Raw::At(_) => {}
            Raw::Spill(_) => {}
            Raw::Corners(_, _) => {}
            Raw::Var(_) => {}
            Raw::Neg(x) => drop(x),
            Raw::Chain(_, x, others) => {
                drop(x);
                drop(others);
            }
            Raw::Compare(_, x, y) => {
                drop(x);
                drop(y);
            }
            Raw::Let(_, x, y) => {
                drop(x);
                drop(y);
            }
            Raw::Apply(_, xs) => drop(xs),
        }
    }
}
