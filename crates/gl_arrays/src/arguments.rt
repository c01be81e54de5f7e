//! What the arguments of a function come to.
ghost use Rattle.std.specs.Prelude.{◌≡◌, ◌≤◌, IfOk, Ok};
ghost use Rattle.gl_calculus.specs.Values.Functions as F;
ghost use Rattle.gl_value.specs.View.{value_tree};
ghost use Rattle.gl_arrays.specs.{Answers.continued, Parts.within};

use gl_value::{ErrKind, Scalar, Value};

/// A scalar error of an argument.
pub fn no_error(v: &Value) -> Result<(), ErrKind>
    ensures { continued (λ u. Ok (value_tree v.now)) result ≡ F.no_error (value_tree v.now) }
{
    match v {
        Value::One(Scalar::Err(k)) => Err(*k),
        _ => Ok(()),
    }
}

/// An argument that is a number: a blank is 0, an error passes, and all else is `#VALUE!`.
pub fn number(v: &Value) -> Result<i64, ErrKind>
    ensures { continued (λ n. Ok n) result ≡ F.number (value_tree v.now) }
{
    match v {
        Value::One(Scalar::Int(n)) => Ok(*n),
        Value::One(Scalar::Blank) => Ok(0),
        Value::One(Scalar::Err(k)) => Err(*k),
        _ => Err(ErrKind::Value),
    }
}

/// A row or column from 1, as one from 0; `#REF!` outside the extent.
pub fn from_one(n: i64, extent: u16) -> Result<u16, ErrKind>
    ensures { continued (λ i. Ok i) result ≡ within extent (F.from_one n) }
{
    match u16::try_from(n) {
        Ok(i) => {
            if 1 <= i && i <= extent {
                Ok(i - 1)
            } else {
                Err(ErrKind::Ref)
            }
        }
        Err(_) => Err(ErrKind::Ref),
    }
}

/// A number from 1 on; `#VALUE!` below.
pub fn positive(n: i64) -> Result<u64, ErrKind>
    ensures positive { IfOk result (λ m. 1 ≤ m) }
    ensures value { continued (λ m. Ok m) result ≡ F.positive n }
{
    if n > 0 {
        Ok(n.unsigned_abs())
    } else {
        Err(ErrKind::Value)
    }
}
