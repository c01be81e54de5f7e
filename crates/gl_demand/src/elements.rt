//! The elements that references show.
ghost use Rattle.std.specs.Prelude.{◌≡◌, Some, IsTrue, IfOk, IfErr, IfSome, option_map};
ghost use Rattle.gl_calculus.specs.Evaluation.Reference.{shown, spilled, spilling};
ghost use Rattle.gl_calculus.specs.Evaluation.Sound.{is_sound_scalar, is_sound_value};
ghost use Rattle.gl_plane.specs.Permit.{permit_tree};
ghost use Rattle.gl_value.specs.View.{scalar_tree, value_tree};
ghost use Rattle.gl_demand.specs.declared.trail.Halt.{Halt};

use crate::shows;
use crate::trail::{Eval, Halt};
use gl_plane::{NoMemory, Permit};
use gl_value::{ErrKind, Scalar, Value};

/// What an address with content shows: an array its corner, unless it is refused.
pub fn shown(permit: Option<Permit>, v: &Value) -> Eval<Scalar>
    requires { IsTrue (is_sound_value (value_tree v.now)) }
    ensures value { IfOk result (λ x.
        scalar_tree x ≡ shown (option_map permit_tree permit) (value_tree v.now)) }
    ensures err { IfErr result (λ h. h ≡ Halt.NoMemory) }
    ensures sound { IfOk result (λ x. IsTrue (is_sound_scalar (scalar_tree x))) }
{
    match shows::shown(permit, v) {
        Ok(x) => Ok(x),
        Err(NoMemory) => Err(Halt::NoMemory),
    }
}

/// The element at an offset of a root's own value; a blank where there is none.
#[tactic(auto, using(gl_value::specs::Forms::trees))]
pub fn spilled(v: &Option<Value>, i: u16, j: u16) -> Eval<Scalar>
    requires { IfSome v.now (λ x. IsTrue (is_sound_value (value_tree x))) }
    ensures value { IfOk result (λ x. scalar_tree x ≡ spilled (option_map value_tree v.now) i j) }
    ensures err { IfErr result (λ h. h ≡ Halt.NoMemory) }
    ensures sound { IfOk result (λ x. IsTrue (is_sound_scalar (scalar_tree x))) }
{
    match v {
        None => Ok(Scalar::Blank),
        Some(v) => spilled_from(v, i, j),
    }
}

/// The same of a value that is there.
fn spilled_from(v: &Value, i: u16, j: u16) -> Eval<Scalar>
    requires { IsTrue (is_sound_value (value_tree v.now)) }
    ensures value { IfOk result (λ x. scalar_tree x ≡ spilled (Some (value_tree v.now)) i j) }
    ensures err { IfErr result (λ h. h ≡ Halt.NoMemory) }
    ensures sound { IfOk result (λ x. IsTrue (is_sound_scalar (scalar_tree x))) }
{
    match shows::spilled(v, i, j) {
        Ok(x) => Ok(x),
        Err(NoMemory) => Err(Halt::NoMemory),
    }
}

/// The array that spills from a root.
#[tactic(auto, using(gl_value::specs::Forms::trees))]
pub fn spilling(v: Option<Value>) -> Value
    ensures { value_tree result ≡ spilling (option_map value_tree v) }
{
    match v {
        None => Value::One(Scalar::Err(ErrKind::Ref)),
        Some(value) => match &value {
            Value::One(_) => Value::One(Scalar::Err(ErrKind::Ref)),
            Value::Array(_) => value,
        },
    }
}
