//! SUM, COUNT, MIN and MAX, and the functions on single numbers.
ghost use Rattle.std.specs.Prelude.{◌≡◌, ◌≢◌, IsTrue, pos, [], ◌∷◌};
ghost use Rattle.gl_calculus.specs.Evaluation.Sound.{is_sound_scalar};
ghost use Rattle.gl_calculus.specs.Values.Functions as F;
ghost use Rattle.gl_calculus.specs.Values.Operators as O;
ghost use Rattle.gl_calculus.specs.Values.Value as V;
ghost use Rattle.gl_value.specs.View.{scalar_tree};
ghost use Rattle.gl_funs.specs.Elements.{AreArguments, elements_of};
ghost use Rattle.gl_funs.specs.Rules.{best_from, better};

use crate::elements::Elements;
use gl_scalar::operands::{amount, fault};
use gl_value::{ErrKind, Scalar, Value};

/// The exact sum of the integers among the elements, or `#NUM!` outside the 64 bits.
///
/// The first element that is an error, or a sheet value as `#VALUE!`, is the result where there is
/// one. Blanks, truth values and texts are passed over.
pub fn sum(values: &[Value]) -> Scalar
    requires { AreArguments values.now }
    ensures value { scalar_tree result ≡ F.total (elements_of values.now) }
    ensures sound { IsTrue (is_sound_scalar (scalar_tree result)) }
{
    let mut total: i128 = 0;
    for x in Elements::new(values) {
        match x {
            Scalar::Int(n) => total += i128::from(*n),
            Scalar::Err(kind) => return Scalar::Err(*kind),
            Scalar::Sheet(_) => return Scalar::Err(ErrKind::Value),
            _ => {}
        }
    }
    exact(total)
}

/// How many of the elements are integers. All others are passed over, errors too.
pub fn count(values: &[Value]) -> Scalar
    requires { AreArguments values.now }
    ensures value { scalar_tree result ≡ F.count (elements_of values.now) }
    ensures sound { IsTrue (is_sound_scalar (scalar_tree result)) }
{
    let mut numbers = 0u32;
    for x in Elements::new(values) {
        if let Scalar::Int(_) = x {
            numbers += 1;
        }
    }
    Scalar::Int(i64::from(numbers))
}

/// The least integer among the elements, 0 where there is none. Errors are those of `sum`.
pub fn least(values: &[Value]) -> Scalar
    requires { AreArguments values.now }
    ensures value { scalar_tree result ≡ F.extreme F.lesser (elements_of values.now) }
    ensures sound { IsTrue (is_sound_scalar (scalar_tree result)) }
{
    extreme(End::Least, values)
}

/// The greatest integer among the elements, 0 where there is none. Errors are those of `sum`.
pub fn greatest(values: &[Value]) -> Scalar
    requires { AreArguments values.now }
    ensures value { scalar_tree result ≡ F.extreme F.greater (elements_of values.now) }
    ensures sound { IsTrue (is_sound_scalar (scalar_tree result)) }
{
    extreme(End::Greatest, values)
}

/// Which integer is sought.
#[derive(Clone, Copy)]
enum End {
    Least,
    Greatest,
}

/// The least or the greatest integer among the elements, 0 where there is none.
fn extreme(end: End, values: &[Value]) -> Scalar
    requires { AreArguments values.now }
    ensures value { scalar_tree result ≡ F.extreme (better end) (elements_of values.now) }
    ensures sound { IsTrue (is_sound_scalar (scalar_tree result)) }
{
    let mut found = None;
    for x in Elements::new(values) {
        match x {
            Scalar::Int(n) => found = Some(best(end, found, *n)),
            Scalar::Err(kind) => return Scalar::Err(*kind),
            Scalar::Sheet(_) => return Scalar::Err(ErrKind::Value),
            _ => {}
        }
    }
    Scalar::Int(found.unwrap_or(0))
}

/// The lesser or the greater of a number and of the best before it.
fn best(end: End, found: Option<i64>, n: i64) -> i64
    ensures { result ≡ best_from (better end) found (n ∷ []) }
{
    match end {
        End::Least => lesser(found, n),
        End::Greatest => greater(found, n),
    }
}

/// The lesser of a number and of the least before it.
fn lesser(least: Option<i64>, n: i64) -> i64
    ensures { result ≡ best_from F.lesser least (n ∷ []) }
{
    match least {
        Some(m) if m <= n => m,
        _ => n,
    }
}

/// The greater of a number and of the greatest before it.
fn greater(greatest: Option<i64>, n: i64) -> i64
    ensures { result ≡ best_from F.greater greatest (n ∷ []) }
{
    match greatest {
        Some(m) if m >= n => m,
        _ => n,
    }
}

/// The magnitude of a number: an error passes, a blank counts as 0, anything else but an integer
/// gives `#VALUE!`, and the least integer `#NUM!`.
pub fn abs(x: &Scalar) -> Scalar
    ensures value { scalar_tree result ≡ O.magnitude (scalar_tree x.now) }
    ensures sound { IsTrue (is_sound_scalar (scalar_tree result)) }
{
    match x {
        Scalar::Int(n) => exact(i128::from(*n).abs()),
        Scalar::Blank => Scalar::Int(0),
        Scalar::Err(kind) => Scalar::Err(*kind),
        _ => Scalar::Err(ErrKind::Value),
    }
}

/// The remainder of a division that is rounded down, which has the sign of the divisor.
///
/// An error of the first operand is the result, else one of the second. A truth value, a text or a
/// sheet value gives `#VALUE!`, and a divisor of 0 `#DIV/0!`. A blank counts as 0.
pub fn modulo(x: &Scalar, y: &Scalar) -> Scalar
    ensures value { scalar_tree result
        ≡ O.numeric O.modulo (scalar_tree x.now) (scalar_tree y.now) }
    ensures sound { IsTrue (is_sound_scalar (scalar_tree result)) }
{
    if let Some(kind) = fault(x, y) {
        return Scalar::Err(kind);
    }
    match (amount(x), amount(y)) {
        (Some(_), Some(0)) => Scalar::Err(ErrKind::Div0),
        (Some(m), Some(n)) => Scalar::Int(remainder(m, n)),
        _ => Scalar::Err(ErrKind::Value),
    }
}

/// The remainder with the sign of the divisor.
fn remainder(m: i64, n: i64) -> i64
    requires { n ≢ pos 0 }
    ensures { V.Scalar.Int result ≡ O.modulo m n }
{
    let r = m.wrapping_rem(n);
    if r == 0 {
        return 0;
    }
    if (r < 0) == (n < 0) { r } else { r + n }
}

/// A number within the 64 bits, or `#NUM!`.
fn exact(n: i128) -> Scalar
    ensures { scalar_tree result ≡ O.exact n }
{
    match i64::try_from(n) {
        Ok(n) => Scalar::Int(n),
        Err(_) => Scalar::Err(ErrKind::Num),
    }
}
