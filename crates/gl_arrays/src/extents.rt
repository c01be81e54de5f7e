//! How many rows and columns a value has.
ghost use Rattle.std.specs.Prelude.{◌≡◌, IsTrue, ℕ};
ghost use Rattle.gl_calculus.specs.Values.Functions.{extent};
ghost use Rattle.gl_calculus.specs.Grid.Grid.{Size};
ghost use Rattle.gl_calculus.specs.Values.Lift.{shape};
ghost use Rattle.gl_calculus.specs.Evaluation.Sound.{is_sound_scalar};
ghost use Rattle.gl_calculus.specs.Values.Value as V;
ghost use Rattle.gl_value.specs.View.{scalar_tree, value_tree};

use gl_lift::extents;
use gl_value::{Scalar, Value};

/// A number of rows or columns, or the scalar error of the value.
fn extent_scalar(v: &Value, count: u16) -> Scalar
    ensures sound { IsTrue (is_sound_scalar (scalar_tree result)) }
    ensures value { (side : Size → ℕ) → count ≡ side (shape (value_tree v.now))
        → V.Value.One (scalar_tree result) ≡ extent side (value_tree v.now) }
{
    match v {
        Value::One(Scalar::Err(k)) => Scalar::Err(*k),
        _ => Scalar::Int(i64::from(count)),
    }
}

/// ROWS: how many rows a value has. A scalar has one, and a scalar error passes.
pub fn extent_rows(v: &Value) -> Scalar
    ensures sound { IsTrue (is_sound_scalar (scalar_tree result)) }
    ensures value { V.Value.One (scalar_tree result) ≡ extent (λ s. s.rows) (value_tree v.now) }
{
    extent_scalar(v, extents(v).0)
}

/// COLUMNS: how many columns a value has. A scalar has one, and a scalar error passes.
pub fn extent_columns(v: &Value) -> Scalar
    ensures sound { IsTrue (is_sound_scalar (scalar_tree result)) }
    ensures value { V.Value.One (scalar_tree result) ≡ extent (λ s. s.cols) (value_tree v.now) }
{
    extent_scalar(v, extents(v).1)
}
