//! Values of one column.
ghost use Rattle.std.specs.Prelude.{◌≡◌, IsTrue};
ghost use Rattle.gl_calculus.specs.Values.Lift.{item};
ghost use Rattle.gl_calculus.specs.Values.Operators.{agrees};
ghost use Rattle.gl_calculus.specs.Evaluation.Sound.{is_sound_value};
ghost use Rattle.gl_calculus.specs.Values.Functions as F;
ghost use Rattle.gl_value.specs.View.{scalar_tree, value_tree};

use gl_lift::{element, extents};
use gl_value::{Scalar, Value};

/// The first value has one column, and as many rows as the second.
pub fn is_column_beside(u: &Value, v: &Value) -> bool
    ensures { result ≡ F.is_column_beside (value_tree u.now) (value_tree v.now) }
{
    let (rows, cols) = extents(u);
    cols == 1 && rows == extents(v).0
}

/// The first element of a row agrees with the scalar under `=`.
pub fn agrees_at(v: &Value, i: u16, x: &Scalar) -> bool
    requires { IsTrue (is_sound_value (value_tree v.now)) }
    ensures { result ≡ agrees (item (value_tree v.now) i 0) (scalar_tree x.now) }
{
    match element(v, i, 0) {
        Some(k) => k.agrees(x),
        None => false,
    }
}
