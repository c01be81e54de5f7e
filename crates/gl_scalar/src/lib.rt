//! The operators of formulas on scalars.
//!
//! An error of the first operand is the result, else one of the second, else `#VALUE!` where an
//! operand is a sheet value.
#![tactic(auto)]

mod numbers;
pub mod operands;
mod order;
mod texts;

ghost use Rattle.std.specs.Prelude.{◌≡◌, IsTrue, IfOk};
ghost use Rattle.gl_ast.specs.View.{op_tree};
ghost use Rattle.gl_calculus.specs.Evaluation.Sound.{is_sound_scalar};
ghost use Rattle.gl_calculus.specs.Values.Operators as O;
ghost use Rattle.gl_value.specs.View.{scalar_tree};
ghost use Rattle.gl_scalar.specs.Rules.{is_arithmetic};

use gl_ast::Op;
use gl_plane::NoMemory;
use gl_value::{ErrKind, Scalar};
use numbers::{calculated, exact};
use operands::{amount, fault};
use order::{holds, order};
use std::alloc::Global;
use texts::joined;

/// `+`, `-`, `*` or `/`: exact on integers, where a blank counts as 0 and `/` rounds towards zero.
///
/// A truth value or a text gives `#VALUE!`, a division by 0 `#DIV/0!`, and a result outside the
/// 64 bits `#NUM!`.
#[tactic(auto, using(gl_value::specs::Forms::trees, crate::proofs::Arithmetic::arithmetic))]
pub fn arith(op: Op, x: &Scalar, y: &Scalar) -> Scalar
    requires { IsTrue (is_arithmetic (op_tree op)) }
    ensures value { scalar_tree result
        ≡ O.operate (op_tree op) (scalar_tree x.now) (scalar_tree y.now) }
    ensures sound { IsTrue (is_sound_scalar (scalar_tree result)) }
{
    if let Some(kind) = fault(x, y) {
        return Scalar::Err(kind);
    }
    match (amount(x), amount(y)) {
        (Some(m), Some(n)) => calculated(op, m, n),
        _ => Scalar::Err(ErrKind::Value),
    }
}

/// The number with the other sign: an error passes, a blank counts as 0, anything else but an
/// integer gives `#VALUE!`, and the least integer `#NUM!`.
#[tactic(auto, using(gl_value::specs::Forms::trees))]
pub fn negate(x: &Scalar) -> Scalar
    ensures value { scalar_tree result ≡ O.negate (scalar_tree x.now) }
    ensures sound { IsTrue (is_sound_scalar (scalar_tree result)) }
{
    match x {
        Scalar::Err(kind) => Scalar::Err(*kind),
        Scalar::Blank => Scalar::Int(0),
        Scalar::Int(n) => exact(n.checked_neg()),
        _ => Scalar::Err(ErrKind::Value),
    }
}

/// `=`, `<>`, `<`, `<=`, `>` or `>=`, a truth value.
///
/// A blank counts as the 0, the empty text or the FALSE beside it. Texts compare by their bytes,
/// and every number is below every text, and every text below every truth value. An operator of
/// another kind gives FALSE.
#[tactic(auto, using(gl_value::specs::Forms::trees))]
pub fn compare(op: Op, x: &Scalar, y: &Scalar) -> Scalar
    ensures value { scalar_tree result
        ≡ O.compare (op_tree op) (scalar_tree x.now) (scalar_tree y.now) }
    ensures sound { IsTrue (is_sound_scalar (scalar_tree result)) }
{
    match fault(x, y) {
        Some(kind) => Scalar::Err(kind),
        None => Scalar::Bool(holds(op, order(x, y))),
    }
}

/// `&`: the plain texts one after the other, or `#SIZE!` where that is more than `MAX_TEXT` bytes.
#[tactic(auto, using(gl_value::specs::Forms::trees))]
pub fn join_text(alloc: Global, x: &Scalar, y: &Scalar) -> Result<Scalar, NoMemory>
    ensures value { IfOk result (λ z.
        scalar_tree z ≡ O.join_text (scalar_tree x.now) (scalar_tree y.now)) }
    ensures sound { IfOk result (λ z. IsTrue (is_sound_scalar (scalar_tree z))) }
{
    match fault(x, y) {
        Some(kind) => Ok(Scalar::Err(kind)),
        None => joined(alloc, x, y),
    }
}
