//! Exact numbers.
ghost use Rattle.std.specs.Prelude.{◌≡◌, ℤ, FitsSigned, SomeIff};
ghost use Rattle.std.specs.Int.{w64};
ghost use Rattle.gl_ast.specs.View.{op_tree};
ghost use Rattle.gl_calculus.specs.Values.Operators as O;
ghost use Rattle.gl_value.specs.View.{scalar_tree};
ghost use Rattle.gl_scalar.specs.Rules.{calculated};

use gl_ast::Op;
use gl_value::{ErrKind, Scalar};

/// What an operator on numbers gives at two numbers.
#[tactic(auto, using(gl_value::specs::Forms::trees))]
pub fn calculated(op: Op, m: i64, n: i64) -> Scalar
    ensures { scalar_tree result ≡ calculated (op_tree op) m n }
{
    match op {
        Op::Add => exact(m.checked_add(n)),
        Op::Sub => exact(m.checked_sub(n)),
        Op::Mul => exact(m.checked_mul(n)),
        Op::Div => quotient(m, n),
        _ => Scalar::Err(ErrKind::Value),
    }
}

/// The quotient, rounded towards zero.
#[tactic(auto, using(gl_value::specs::Forms::trees))]
fn quotient(m: i64, n: i64) -> Scalar
    ensures { scalar_tree result ≡ O.quotient m n }
{
    if n == 0 {
        return Scalar::Err(ErrKind::Div0);
    }
    exact(m.checked_div(n))
}

/// A result within the 64 bits, or `#NUM!` where there is none.
#[tactic(auto, using(gl_value::specs::Forms::trees, crate::proofs::Exact::exactly))]
pub fn exact(n: Option<i64>) -> Scalar
    ensures { (z : ℤ) → SomeIff n (FitsSigned w64 z) z → scalar_tree result ≡ O.exact z }
{
    match n {
        Some(n) => Scalar::Int(n),
        None => Scalar::Err(ErrKind::Num),
    }
}
