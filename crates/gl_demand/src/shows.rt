//! What a value shows at one address.
ghost use Rattle.std.specs.Prelude.{◌≡◌, Some, IsTrue, IfOk, option_map};
ghost use Rattle.gl_calculus.specs.Values.Lift.{item_or};
ghost use Rattle.gl_calculus.specs.Evaluation.Reference.{shown, spilled};
ghost use Rattle.gl_calculus.specs.Evaluation.Sound.{is_sound_scalar, is_sound_value};
ghost use Rattle.gl_plane.specs.Permit.{permit_tree};
ghost use Rattle.gl_value.specs.View.{scalar_tree, value_tree, array_tree};

use gl_plane::{NoMemory, Permit, Share};
use gl_value::{Array, ErrKind, Scalar, Value};

/// What an address with content shows by its own value: an array its corner, unless it is refused.
#[tactic(auto, using(gl_value::specs::Forms::trees))]
pub fn shown(permit: Option<Permit>, v: &Value) -> Result<Scalar, NoMemory>
    requires { IsTrue (is_sound_value (value_tree v.now)) }
    ensures value { IfOk result (λ x.
        scalar_tree x ≡ shown (option_map permit_tree permit) (value_tree v.now)) }
    ensures sound { IfOk result (λ x. IsTrue (is_sound_scalar (scalar_tree x))) }
{
    match v {
        Value::One(x) => x.share(),
        Value::Array(a) => match permit {
            Some(Permit::Refused) => Ok(Scalar::Err(ErrKind::Spill)),
            Some(Permit::Permitted) => element_or(a, 0, 0, Scalar::Err(ErrKind::Na)),
            None => element_or(a, 0, 0, Scalar::Err(ErrKind::Na)),
        },
    }
}

/// What an address shows by the value of the root that covers it, so many rows and columns behind
/// the root: the array's element there, a blank where the value is no array or has no such element.
#[tactic(auto, using(gl_value::specs::Forms::trees))]
pub fn spilled(v: &Value, rows: u16, cols: u16) -> Result<Scalar, NoMemory>
    requires { IsTrue (is_sound_value (value_tree v.now)) }
    ensures value { IfOk result (λ x. scalar_tree x ≡ spilled (Some (value_tree v.now)) rows cols) }
    ensures sound { IfOk result (λ x. IsTrue (is_sound_scalar (scalar_tree x))) }
{
    match v {
        Value::One(_) => Ok(Scalar::Blank),
        Value::Array(a) => element_or(a, rows, cols, Scalar::Blank),
    }
}

/// The same element, which is sound where the array is.
fn element_or(a: &Array, i: u16, j: u16, beyond: Scalar) -> Result<Scalar, NoMemory>
    ensures value { IfOk result (λ x.
        scalar_tree x ≡ item_or (scalar_tree beyond) (array_tree a.now) i j) }
    ensures sound { IsTrue (is_sound_value (array_tree a.now))
        → IsTrue (is_sound_scalar (scalar_tree beyond))
        → IfOk result (λ x. IsTrue (is_sound_scalar (scalar_tree x))) }
{
    element_of(a, i, j, beyond)
}

/// The element of an array in a row and a column from 0, or the scalar that stands beyond it.
#[tactic(auto, using(crate::proofs::Showing::item_some, crate::proofs::Showing::item_none))]
fn element_of(a: &Array, i: u16, j: u16, beyond: Scalar) -> Result<Scalar, NoMemory>
    ensures value { IfOk result (λ x.
        scalar_tree x ≡ item_or (scalar_tree beyond) (array_tree a.now) i j) }
{
    match a.item(i, j) {
        Some(x) => x.share(),
        None => Ok(beyond),
    }
}
