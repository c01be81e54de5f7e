//! Variables are looked up and bound.
ghost use Rattle.std.specs.Prelude.{◌≡◌, ◌++◌, ◌∷◌, [], IsTrue, IfOk, IfErr, OnOk, bytes_eq};
ghost use Rattle.std.specs.Rc.{rc_str_bytes};
ghost use Rattle.gl_calculus.specs.Evaluation.Sound.{is_sound_value};
ghost use Rattle.gl_calculus.specs.Evaluation.Evaluation as E;
ghost use Rattle.gl_value.specs.View.{value_tree};
ghost use Rattle.gl_demand.specs.{Scope.bindings_of, declared.trail.Halt.Halt};

use crate::scope::Scope;
use crate::trail::{Eval, Halt};
use gl_plane::{NoMemory, Share};
use gl_value::{Scalar, Value};
use std::alloc::Global;
use std::rc::RcStr;

/// Two names are the same.
fn same_name(x: &RcStr, y: &RcStr) -> bool
    ensures { result ≡ bytes_eq (rc_str_bytes x.now) (rc_str_bytes y.now) }
{
    x == y
}

/// The value of a variable; a blank where it is not bound, which no well formed formula has.
#[tactic(auto, using(gl_value::specs::Forms::trees))]
pub fn bound(scope: &Scope, name: &RcStr) -> Eval<Value>
    ensures value { IfOk result (λ v.
        value_tree v ≡ E.bound (bindings_of scope.now.bindings.items) (rc_str_bytes name.now)) }
    ensures err { IfErr result (λ h. h ≡ Halt.NoMemory) }
    ensures sound { IfOk result (λ v. IsTrue (is_sound_value (value_tree v))) }
{
    for (x, v) in &scope.bindings {
        if same_name(x, name) {
            return Ok(v.share()?);
        }
    }
    Ok(Value::One(Scalar::Blank))
}

/// A binding once more.
fn share_binding(x: &RcStr, v: &Value) -> Result<(RcStr, Value), NoMemory>
    ensures name { IfOk result (λ b. rc_str_bytes b.0 ≡ rc_str_bytes x.now) }
    ensures value { IfOk result (λ b. value_tree b.1 ≡ value_tree v.now) }
{
    let name = x.clone()?;
    let value = v.share()?;
    Ok((name, value))
}

/// Shares the bindings and appends them.
fn share_onto(list: &mut Vec<(RcStr, Value)>, more: &[(RcStr, Value)]) -> Result<(), NoMemory>
    ensures { OnOk result (
        bindings_of list.new.items ≡ bindings_of list.old.items ++ bindings_of more.now) }
{
    for (x, v) in more {
        list.push(share_binding(x, v)?)?;
    }
    Ok(())
}

/// One binding alone.
fn first_binding(alloc: Global, name: &RcStr, value: Value) -> Result<Vec<(RcStr, Value)>, NoMemory>
    ensures { IfOk result (λ v.
        bindings_of v.items ≡ (rc_str_bytes name.now, value_tree value) ∷ []) }
{
    let name = name.clone()?;
    let mut list = Vec::new(alloc);
    list.push((name, value))?;
    Ok(list)
}

/// The bindings with one more in front.
fn extended(
    alloc: Global,
    scope: &Scope,
    name: &RcStr,
    value: Value,
) -> Result<Vec<(RcStr, Value)>, NoMemory>
    ensures { IfOk result (λ v.
        bindings_of v.items
        ≡ (rc_str_bytes name.now, value_tree value) ∷ bindings_of scope.now.bindings.items) }
{
    let mut list = first_binding(alloc, name, value)?;
    share_onto(&mut list, &scope.bindings)?;
    Ok(list)
}

/// The variables with one more, which is the innermost.
#[tactic(auto, using(crate::proofs::Bindings::sound_more))]
pub fn bind(alloc: Global, scope: &Scope, name: &RcStr, value: Value) -> Eval<Scope>
    requires { IsTrue (is_sound_value (value_tree value)) }
    ensures value { IfOk result (λ s.
        bindings_of s.bindings.items
        ≡ (rc_str_bytes name.now, value_tree value) ∷ bindings_of scope.now.bindings.items) }
    ensures err { IfErr result (λ h. h ≡ Halt.NoMemory) }
{
    match extended(alloc, scope, name, value) {
        Ok(bindings) => Ok(Scope { bindings }),
        Err(NoMemory) => Err(Halt::NoMemory),
    }
}
