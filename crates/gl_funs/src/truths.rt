//! AND, OR and NOT, and the tests of one scalar.
ghost use Rattle.std.specs.Prelude.{◌≡◌, IsTrue, Bool, List, ◌∷◌, Some};
ghost use Rattle.std.specs.List.{list_all, list_any};
ghost use Rattle.gl_calculus.specs.Evaluation.Sound.{is_sound_scalar};
ghost use Rattle.gl_calculus.specs.Values.Functions as F;
ghost use Rattle.gl_value.specs.View.{scalar_tree};
ghost use Rattle.gl_funs.specs.Elements.{AreArguments, elements_of};
ghost use Rattle.gl_funs.specs.Rules.{joins, known_truth, rule_of, truth_from};

use crate::elements::Elements;
use gl_value::{ErrKind, Scalar, Value};

/// Whether all truth values must be TRUE, or any of them.
#[derive(Clone, Copy)]
enum Quantity {
    All,
    Any,
}

/// Whether all truth values among the elements are TRUE; `#VALUE!` where there is none.
///
/// The first element that is an error, or an integer, a text or a sheet value as `#VALUE!`, is the
/// result where there is one. Blanks are passed over.
pub fn all(values: &[Value]) -> Scalar
    requires { AreArguments values.now }
    ensures value { scalar_tree result ≡ F.verdict (list_all (λ b. b)) (elements_of values.now) }
    ensures sound { IsTrue (is_sound_scalar (scalar_tree result)) }
{
    verdict(Quantity::All, values)
}

/// Whether all truth values among the elements are TRUE, or any; `#VALUE!` where there is none.
fn verdict(quantity: Quantity, values: &[Value]) -> Scalar
    requires { AreArguments values.now }
    ensures value { scalar_tree result ≡ F.verdict (rule_of quantity) (elements_of values.now) }
    ensures sound { IsTrue (is_sound_scalar (scalar_tree result)) }
{
    let mut verdict: Option<bool> = None;
    for x in Elements::new(values) {
        match x {
            Scalar::Blank => {}
            Scalar::Bool(b) => verdict = Some(joined(quantity, verdict, *b)),
            Scalar::Err(kind) => return Scalar::Err(*kind),
            _ => return Scalar::Err(ErrKind::Value),
        }
    }
    truth(verdict)
}

/// The truth of the values so far and of one more.
fn joined(quantity: Quantity, verdict: Option<bool>, b: bool) -> bool
    ensures { (bs : List Bool)
        → truth_from (joins quantity) (rule_of quantity) verdict (b ∷ bs)
        ≡ truth_from (joins quantity) (rule_of quantity) (Some result) bs }
{
    match quantity {
        Quantity::All => verdict.unwrap_or(true) && b,
        Quantity::Any => verdict.unwrap_or(false) || b,
    }
}

/// The truth value, or `#VALUE!` where there is none.
fn truth(verdict: Option<bool>) -> Scalar
    ensures { scalar_tree result ≡ known_truth verdict }
{
    match verdict {
        Some(b) => Scalar::Bool(b),
        None => Scalar::Err(ErrKind::Value),
    }
}

/// Whether some truth value among the elements is TRUE. Errors are those of `all`.
pub fn any(values: &[Value]) -> Scalar
    requires { AreArguments values.now }
    ensures value { scalar_tree result ≡ F.verdict (list_any (λ b. b)) (elements_of values.now) }
    ensures sound { IsTrue (is_sound_scalar (scalar_tree result)) }
{
    verdict(Quantity::Any, values)
}

/// The other truth value: an error passes, a blank counts as FALSE, and anything else gives
/// `#VALUE!`.
pub fn not(x: &Scalar) -> Scalar
    ensures value { scalar_tree result ≡ F.negation (scalar_tree x.now) }
    ensures sound { IsTrue (is_sound_scalar (scalar_tree result)) }
{
    match x {
        Scalar::Bool(b) => Scalar::Bool(!*b),
        Scalar::Blank => Scalar::Bool(true),
        Scalar::Err(kind) => Scalar::Err(*kind),
        _ => Scalar::Err(ErrKind::Value),
    }
}

/// TRUE exactly for an error.
pub fn is_error(x: &Scalar) -> Scalar
    ensures value { scalar_tree result ≡ F.is_error (scalar_tree x.now) }
    ensures sound { IsTrue (is_sound_scalar (scalar_tree result)) }
{
    Scalar::Bool(matches!(x, Scalar::Err(_)))
}

/// TRUE exactly for a blank.
pub fn is_blank(x: &Scalar) -> Scalar
    ensures value { scalar_tree result ≡ F.is_blank (scalar_tree x.now) }
    ensures sound { IsTrue (is_sound_scalar (scalar_tree result)) }
{
    Scalar::Bool(matches!(x, Scalar::Blank))
}
