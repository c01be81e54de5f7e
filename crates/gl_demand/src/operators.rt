//! Operators on values, and literals.
ghost use Rattle.std.specs.Prelude.{◌≡◌, IsTrue, IfOk, IfErr};
ghost use Rattle.std.specs.Rc.{rc_str_bytes};
ghost use Rattle.gl_ast.specs.View.{op_tree};
ghost use Rattle.gl_calculus.specs.Values.Lift.{lift1, lift2};
ghost use Rattle.gl_calculus.specs.Evaluation.Sound.{is_sound_scalar};
ghost use Rattle.gl_calculus.specs.Evaluation.Sound.{is_sound_value};
ghost use Rattle.gl_calculus.specs.Values.Value as V;
ghost use Rattle.gl_calculus.specs.Values.Operators as O;
ghost use Rattle.gl_value.specs.View.{scalar_tree, value_tree};
ghost use Rattle.gl_demand.specs.declared.trail.Halt.{Halt};

use crate::trail::{Eval, Halt};
use gl_ast::Op;
use gl_lift::{lift1, lift2};
use gl_plane::NoMemory;
use gl_scalar::{arith, compare, join_text, negate};
use gl_value::{Scalar, Value};
use std::alloc::Global;
use std::rc::RcStr;

/// A text literal, which is short.
#[tactic(auto, using(gl_value::specs::Forms::trees))]
pub fn text(t: &RcStr) -> Eval<Value>
    requires short { IsTrue (is_sound_scalar (V.Scalar.Text (rc_str_bytes t.now))) }
    ensures value { IfOk result (λ v.
        value_tree v ≡ V.Value.One (V.Scalar.Text (rc_str_bytes t.now))) }
    ensures err { IfErr result (λ h. h ≡ Halt.NoMemory) }
    ensures sound { IfOk result (λ v. IsTrue (is_sound_value (value_tree v))) }
{
    match t.clone() {
        Ok(t) => Ok(Value::One(Scalar::Text(t))),
        Err(_) => Err(Halt::NoMemory),
    }
}

/// The minus sign, element by element.
#[tactic(auto, using(gl_value::specs::Forms::trees))]
pub fn negated(alloc: Global, v: &Value) -> Eval<Value>
    requires { IsTrue (is_sound_value (value_tree v.now)) }
    ensures value { IfOk result (λ x. value_tree x ≡ lift1 O.negate (value_tree v.now)) }
    ensures err { IfErr result (λ h. h ≡ Halt.NoMemory) }
    ensures sound { IfOk result (λ x. IsTrue (is_sound_value (value_tree x))) }
{
    match lift1(alloc, v, |x: &Scalar| Ok(negate(x))) {
        Ok(v) => Ok(v),
        Err(NoMemory) => Err(Halt::NoMemory),
    }
}

/// A comparison, element by element.
#[tactic(auto, using(gl_value::specs::Forms::trees))]
pub fn compared(alloc: Global, op: Op, u: &Value, v: &Value) -> Eval<Value>
    requires first { IsTrue (is_sound_value (value_tree u.now)) }
    requires second { IsTrue (is_sound_value (value_tree v.now)) }
    ensures value { IfOk result (λ x.
        value_tree x ≡ lift2 (O.compare (op_tree op)) (value_tree u.now) (value_tree v.now)) }
    ensures err { IfErr result (λ h. h ≡ Halt.NoMemory) }
    ensures sound { IfOk result (λ x. IsTrue (is_sound_value (value_tree x))) }
{
    match lift2(alloc, u, v, |x: &Scalar, y: &Scalar| Ok(compare(op, x, y))) {
        Ok(v) => Ok(v),
        Err(NoMemory) => Err(Halt::NoMemory),
    }
}

/// An operator of a chain on two scalars.
fn operate(alloc: Global, op: Op, x: &Scalar, y: &Scalar) -> Result<Scalar, NoMemory>
    ensures value { IfOk result (λ z.
        scalar_tree z ≡ O.operate (op_tree op) (scalar_tree x.now) (scalar_tree y.now)) }
    ensures sound { IfOk result (λ z. IsTrue (is_sound_scalar (scalar_tree z))) }
{
    match op {
        Op::Add => Ok(arith(Op::Add, x, y)),
        Op::Sub => Ok(arith(Op::Sub, x, y)),
        Op::Mul => Ok(arith(Op::Mul, x, y)),
        Op::Div => Ok(arith(Op::Div, x, y)),
        Op::Join => join_text(alloc, x, y),
        Op::Eq => Ok(compare(Op::Eq, x, y)),
        Op::Ne => Ok(compare(Op::Ne, x, y)),
        Op::Lt => Ok(compare(Op::Lt, x, y)),
        Op::Le => Ok(compare(Op::Le, x, y)),
        Op::Gt => Ok(compare(Op::Gt, x, y)),
        Op::Ge => Ok(compare(Op::Ge, x, y)),
    }
}

/// An operator of a chain, element by element.
#[tactic(auto, using(gl_value::specs::Forms::trees))]
pub fn operated(alloc: Global, op: Op, u: &Value, v: &Value) -> Eval<Value>
    requires first { IsTrue (is_sound_value (value_tree u.now)) }
    requires second { IsTrue (is_sound_value (value_tree v.now)) }
    ensures value { IfOk result (λ x.
        value_tree x ≡ lift2 (O.operate (op_tree op)) (value_tree u.now) (value_tree v.now)) }
    ensures err { IfErr result (λ h. h ≡ Halt.NoMemory) }
    ensures sound { IfOk result (λ x. IsTrue (is_sound_value (value_tree x))) }
{
    match lift2(
        alloc,
        u,
        v,
        |x: &Scalar, y: &Scalar| operate(alloc, op, x, y),
    ) {
        Ok(v) => Ok(v),
        Err(NoMemory) => Err(Halt::NoMemory),
    }
}
