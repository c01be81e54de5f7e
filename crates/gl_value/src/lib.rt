//! Values, sheet values and frames: the plain values of the calculus, shared by reference counts.
#![tactic(auto)]

mod agrees;
mod items;
mod laws;
mod put;
mod share;
mod sheets;
mod sound;

pub use gl_plane::MAX_TEXT;
use gl_plane::{Addr, Oracle, Range, Size};
pub use laws::{structural_equality, structural_hashes};
pub use sheets::{sheet, update};
use std::rc::{Rc, RcStr};

/// The greatest rank of a sheet value.
pub const MAX_RANK: u8 = 96;

/// The greatest weight of a sheet value.
pub const MAX_WEIGHT: u32 = 65536;

/// The kinds of errors that are values. A cycle is none of them: it is only shown.
#[derive(Clone, Copy, PartialEq, Eq, Hash)]
pub enum ErrKind {
    Ref,
    Value,
    Div0,
    Num,
    Na,
    Spill,
    Size,
}

/// One element: of a cell, an array or an operand. A sound text has at most `MAX_TEXT` bytes.
#[cycle(value)]
#[derive(PartialEq, Eq, Hash)]
pub enum Scalar {
    Blank,
    Int(i64),
    Bool(bool),
    Text(RcStr),
    Err(ErrKind),
    Sheet(Rc<SheetVal>),
}

/// A rectangle of scalars, in row-major order. One of a single row and column is still an array.
#[cycle(value)]
#[derive(Hash, PartialEq, Eq)]
pub struct Array {
    size: Size,
    items: Vec<Scalar>,
}

/// What a formula comes to.
#[cycle(value)]
#[derive(PartialEq, Eq, Hash)]
pub enum Value {
    One(Scalar),
    Array(Rc<Array>),
}

/// A copy of a region of the sheet in which some addresses hold given values.
///
/// `sheet` and `update` make it. `env` is the frame that it was made in, and `weight` counts what
/// it holds: itself, the values of its overrides and its frame. Its rank is above those of its
/// frame and of the sheet values in its overrides, so a nest of sheet values is bounded.
///
/// Equality tests the fields in this order, the cheap ones first. The hash leaves out the frame,
/// which would be walked once for each level above it.
#[cycle(value)]
#[derive_where(PartialEq, Eq, Hash)]
pub struct SheetVal {
    pub rank: u8,
    pub weight: u32,
    pub region: Range,
    /// In row-major order of distinct addresses of the region.
    pub overrides: Vec<(Addr, Value)>,
    #[derive_where(skip(Hash))]
    pub env: Env,
}

/// A frame, in which formulas are evaluated: the sheet itself, or a copy that is settled to an oracle.
#[cycle(value)]
#[derive(Eq, Hash, PartialEq)]
pub enum Env {
    Top,
    In(Rc<SheetVal>, Rc<Oracle>),
}

/// What an address shows.
#[derive(Drop, PartialEq, Eq)]
pub enum Shown {
    Cycle,
    Value(Scalar),
}

/// What `sheet` and `update` answer: a sheet value, or the first of these tests that fails, which
/// are that the address lies in the region, that the rank is at most `MAX_RANK`, and that the
/// weight is at most `MAX_WEIGHT`.
#[derive(Drop, PartialEq, Eq)]
pub enum Made {
    Sheet(Rc<SheetVal>),
    Outside,
    Deep,
    Heavy,
}

// One call wherever it is dropped, in place of one for each part.
impl Drop for Scalar {
    #[cycle(dropping)]
    fn drop(self) {
        match self {
            Scalar::Blank => {}
            Scalar::Int(_) => {}
            Scalar::Bool(_) => {}
            Scalar::Text(_) => {}
            Scalar::Err(_) => {}
            Scalar::Sheet(_) => {}
        }
    }
}

impl Drop for Array {
    #[cycle(dropping)]
    fn drop(self) {
        let Array { size, items } = self;
    }
}

impl Drop for Value {
    #[cycle(dropping)]
    fn drop(self) {
        match self {
            Value::One(_) => {}
            Value::Array(_) => {}
        }
    }
}

impl Drop for SheetVal {
    #[cycle(dropping)]
    fn drop(self) {
        let SheetVal {
            rank,
            weight,
            region,
            overrides,
            env,
        } = self;
    }
}

impl Drop for Env {
    #[cycle(dropping)]
    fn drop(self) {
        match self {
            Env::Top => {}
            Env::In(_, _) => {}
        }
    }
}
