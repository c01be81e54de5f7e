//! What operators, and functions on scalars, read of their operands.
ghost use Rattle.std.specs.Prelude.{◌≡◌, option_map};
ghost use Rattle.gl_calculus.specs.Values.Operators as O;
ghost use Rattle.gl_calculus.specs.Values.Value as V;
ghost use Rattle.gl_value.specs.View.{scalar_tree, error_tree};
ghost use Rattle.gl_scalar.specs.Rules.{unless_fault};

use gl_value::{ErrKind, Scalar};

/// What two operands give whatever the operator or function: an error of the first, else one of the second,
/// else `#VALUE!` where one of them is a sheet value.
#[tactic(auto, using(gl_value::specs::Forms::trees))]
pub fn fault(x: &Scalar, y: &Scalar) -> Option<ErrKind>
    ensures { (rule : V.Scalar → V.Scalar → V.Scalar)
        → O.strict rule (scalar_tree x.now) (scalar_tree y.now)
        ≡ unless_fault (option_map error_tree result)
        (rule (scalar_tree x.now) (scalar_tree y.now)) }
{
    match (x, y) {
        (Scalar::Err(kind), _) => Some(*kind),
        (_, Scalar::Err(kind)) => Some(*kind),
        (Scalar::Sheet(_), _) => Some(ErrKind::Value),
        (_, Scalar::Sheet(_)) => Some(ErrKind::Value),
        _ => None,
    }
}

/// The number of an operand: a blank counts as 0.
#[tactic(auto, using(gl_value::specs::Forms::trees))]
pub fn amount(x: &Scalar) -> Option<i64>
    ensures { result ≡ O.amount (scalar_tree x.now) }
{
    match x {
        Scalar::Blank => Some(0),
        Scalar::Int(n) => Some(*n),
        _ => None,
    }
}
