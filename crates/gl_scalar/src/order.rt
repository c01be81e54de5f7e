//! The order of scalars.
ghost use Rattle.std.specs.Prelude.{◌≡◌};
ghost use Rattle.gl_ast.specs.View.{op_tree};
ghost use Rattle.gl_calculus.specs.Values.Operators as O;
ghost use Rattle.gl_calculus.specs.Values.Value as V;
ghost use Rattle.gl_value.specs.View.{scalar_tree};
ghost use Rattle.gl_scalar.specs.Rules.{Stands};

use gl_ast::Op;
use gl_value::Scalar;
use std::cmp::Ordering;

/// Where one scalar stands to another, a blank filled by the other; `None` where one is an error
/// or a sheet value.
#[tactic(auto, using(gl_value::specs::Forms::trees, crate::proofs::Orders::orders))]
pub fn order(x: &Scalar, y: &Scalar) -> Option<Ordering>
    ensures { Stands result (O.filled (scalar_tree x.now) (scalar_tree y.now))
        (O.filled (scalar_tree y.now) (scalar_tree x.now)) }
{
    match (x, y) {
        (Scalar::Blank, Scalar::Blank) => Some(Ordering::Equal),
        (Scalar::Blank, Scalar::Int(n)) => Some(0.cmp(n)),
        (Scalar::Int(n), Scalar::Blank) => Some(n.cmp(&0)),
        (Scalar::Blank, Scalar::Text(t)) => Some("".cmp(&t.as_str())),
        (Scalar::Text(t), Scalar::Blank) => Some(t.as_str().cmp(&"")),
        (Scalar::Blank, Scalar::Bool(b)) => Some(false.cmp(b)),
        (Scalar::Bool(b), Scalar::Blank) => Some(b.cmp(&false)),
        (Scalar::Int(m), Scalar::Int(n)) => Some(m.cmp(n)),
        (Scalar::Text(s), Scalar::Text(t)) => Some(s.cmp(t)),
        (Scalar::Bool(b), Scalar::Bool(c)) => Some(b.cmp(c)),
        (Scalar::Int(_), Scalar::Text(_)) => Some(Ordering::Less),
        (Scalar::Int(_), Scalar::Bool(_)) => Some(Ordering::Less),
        (Scalar::Text(_), Scalar::Bool(_)) => Some(Ordering::Less),
        (Scalar::Text(_), Scalar::Int(_)) => Some(Ordering::Greater),
        (Scalar::Bool(_), Scalar::Int(_)) => Some(Ordering::Greater),
        (Scalar::Bool(_), Scalar::Text(_)) => Some(Ordering::Greater),
        _ => None,
    }
}

/// A comparison holds of two scalars that stand so.
pub fn holds(op: Op, order: Option<Ordering>) -> bool
    ensures { (x y : V.Scalar) → Stands order x y → result ≡ O.comparison (op_tree op) x y }
{
    let less = order == Some(Ordering::Less);
    let equal = order == Some(Ordering::Equal);
    let greater = order == Some(Ordering::Greater);
    match op {
        Op::Eq => equal,
        Op::Ne => !equal,
        Op::Lt => less,
        Op::Le => less || equal,
        Op::Gt => greater,
        Op::Ge => greater || equal,
        _ => false,
    }
}
