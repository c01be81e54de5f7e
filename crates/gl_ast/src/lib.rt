//! Formulas as trees, and their canonical text.
#![tactic(auto)]

mod canonical;
mod literal;
mod notation;
mod words;

ghost use Rattle.std.specs.Prelude.{◌≡◌, ◌↔◌, IsTrue};
ghost use Rattle.gl_ast.specs.View.{formula_tree};

pub use canonical::print;
use gl_plane::{Addr, Range};
pub use literal::{put, put_literal};
pub use notation::{put_address, put_int, put_number, put_range, put_truth};
use std::rc::RcStr;

/// The version of the script, which some functions go by.
#[derive(Clone, Copy, PartialEq, Eq)]
pub enum Version {
    One,
    Two,
}

/// The levels of operators that chain, from the loosest to the tightest: `&`, then `+` and `-`, then `*` and `/`.
#[derive(Clone, Copy, PartialEq, Eq)]
pub enum Level {
    Cat,
    Sum,
    Prod,
}

/// The operators with two operands.
#[derive(Clone, Copy, PartialEq, Eq, Debug)]
pub enum Op {
    Eq,
    Ne,
    Lt,
    Le,
    Gt,
    Ge,
    Join,
    Add,
    Sub,
    Mul,
    Div,
}

/// The functions, each called by its word in upper case. `LET` is a form of its own.
#[derive(Clone, Copy, PartialEq, Eq)]
pub enum Fun {
    Sum,
    Count,
    Min,
    Max,
    And,
    Or,
    Not,
    If,
    IfError,
    IsError,
    IsBlank,
    Abs,
    Mod,
    Len,
    Left,
    Right,
    Rows,
    Columns,
    Index,
    Sequence,
    Transpose,
    Take,
    Drop,
    HStack,
    VStack,
    Filter,
    Unique,
    Lookup,
    Na,
    Sheet,
    Update,
    View,
    G,
    This,
}

/// A formula. Parentheses make no node; a chain that stood in parentheses is a node of its own.
#[derive(Drop, PartialEq, Eq)]
pub enum Formula {
    Int(i64),
    Text(RcStr),
    Bool(bool),
    /// the value of an address
    At(Addr),
    /// the whole array that spills from an address: `A1#`
    Spill(Addr),
    /// a range: `A1:B3`
    Area(Range),
    /// a variable that a `LET` around it binds
    Var(RcStr),
    Neg(Box<Formula>),
    /// operands of one level, taken from left to right; at least one operator
    Chain(Level, Box<Formula>, Vec<(Op, Formula)>),
    /// one comparison
    Compare(Op, Box<Formula>, Box<Formula>),
    Call(Fun, Vec<Formula>),
    /// the variable, what it is bound to, and the body
    Let(RcStr, Box<Formula>, Box<Formula>),
}

/// The two are equal by structure, whatever they share.
#[tactic(auto, using(crate::specs::Equal::formula_equal))]
pub fn same_formula(a: &Formula, b: &Formula) -> bool
    ensures { IsTrue result ↔ (formula_tree a.now ≡ formula_tree b.now) }
{
    a == b
}
