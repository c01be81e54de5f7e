//! The functions of formulas on the elements of their arguments, on one scalar and on two.
//!
//! `sum`, `count`, `least`, `greatest`, `all` and `any` go over the elements of all arguments in
//! order, those of an array in row-major order. The others are on scalars; where an argument is an
//! array they are lifted to its elements.
#![tactic(auto, using(gl_value::specs::Forms::trees))]

mod elements;
mod numbers;
mod texts;
mod truths;

pub use numbers::{abs, count, greatest, least, modulo, sum};
pub use texts::{left, len, right};
pub use truths::{all, any, is_blank, is_error, not};
