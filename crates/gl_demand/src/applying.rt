//! The functions of formulas whose arguments are all evaluated.
ghost use Rattle.std.specs.Prelude.{◌≡◌, IsTrue, IfOk, IfErr, false, [], ◌∷◌, length, map};
ghost use Rattle.gl_ast.specs.View.{fun_tree};
ghost use Rattle.gl_calculus.specs.Evaluation.Sound.{is_sound_value};
ghost use Rattle.gl_calculus.specs.Formulas.Fit.{takes_any};
ghost use Rattle.gl_calculus.specs.Values.ErrKind as E;
ghost use Rattle.gl_calculus.specs.Values.Functions as F;
ghost use Rattle.gl_calculus.specs.Values.Value as V;
ghost use Rattle.gl_funs.specs.Elements.{AreSound};
ghost use Rattle.gl_value.specs.View.{value_tree};
ghost use Rattle.gl_demand.specs.{Fit.Takes, declared.trail.Halt.Halt};

use crate::trail::{Eval, Halt};
use gl_arrays::{
    drop_part, extent_columns, extent_rows, filter, hstack, index, lookup, sequence, take,
    transpose, unique, vstack,
};
use gl_ast::Fun;
use gl_funs::{
    abs, all, any, count, greatest, is_blank, is_error, least, left, len, modulo, not, right, sum,
};
use gl_lift::{lift1, lift2};
use gl_plane::NoMemory;
use gl_value::{ErrKind, Scalar, Value};
use std::alloc::Global;

/// The value of a function whose arguments are all evaluated.
///
/// A number of arguments that the grammar allows to none is `#VALUE!`.
pub fn apply(alloc: Global, fun: Fun, values: &[Value]) -> Eval<Value>
    requires number { Takes (fun_tree fun) (length values.now) }
    requires sound { AreSound values.now }
    ensures value { IfOk result (λ v.
        value_tree v ≡ F.apply (fun_tree fun) (map value_tree values.now)) }
    ensures err { IfErr result (λ h. h ≡ Halt.NoMemory) }
    ensures sound { IfOk result (λ v. IsTrue (is_sound_value (value_tree v))) }
{
    match applied(alloc, fun, values) {
        Ok(v) => Ok(v),
        Err(NoMemory) => Err(Halt::NoMemory),
    }
}

/// The same, or `NoMemory`.
#[tactic(auto, using(gl_value::specs::Forms::trees), unfolding(gl_calculus::specs::Values::Functions::apply))]
fn applied(alloc: Global, fun: Fun, values: &[Value]) -> Result<Value, NoMemory>
    requires number { Takes (fun_tree fun) (length values.now) }
    requires sound { AreSound values.now }
    ensures value { IfOk result (λ v.
        value_tree v ≡ F.apply (fun_tree fun) (map value_tree values.now)) }
    ensures sound { IfOk result (λ v. IsTrue (is_sound_value (value_tree v))) }
{
    match fun {
        Fun::Sum => Ok(Value::One(sum(values))),
        Fun::Count => Ok(Value::One(count(values))),
        Fun::Min => Ok(Value::One(least(values))),
        Fun::Max => Ok(Value::One(greatest(values))),
        Fun::And => Ok(Value::One(all(values))),
        Fun::Or => Ok(Value::One(any(values))),
        Fun::HStack => hstack(alloc, values),
        Fun::VStack => vstack(alloc, values),
        _ => by_number(alloc, fun, values),
    }
}

/// The value of a function that takes a number of arguments of its own.
#[tactic(auto, using(gl_value::specs::Forms::trees), unfolding(gl_calculus::specs::Values::Functions::apply))]
fn by_number(alloc: Global, fun: Fun, values: &[Value]) -> Result<Value, NoMemory>
    requires fixed { takes_any (fun_tree fun) ≡ false }
    requires sound { AreSound values.now }
    ensures value { IfOk result (λ v.
        value_tree v ≡ F.apply (fun_tree fun) (map value_tree values.now)) }
    ensures sound { IfOk result (λ v. IsTrue (is_sound_value (value_tree v))) }
{
    match values {
        [] => Ok(on_none(fun)),
        [v] => on_one(alloc, fun, v),
        [u, v] => on_two(alloc, fun, u, v),
        [u, v, w] => on_three(alloc, fun, u, v, w),
        _ => Ok(wrong_number()),
    }
}

/// What a function comes to that doesn't take so many arguments.
#[tactic(auto, using(gl_value::specs::Forms::trees))]
fn wrong_number() -> Value
    ensures value { value_tree result ≡ V.Value.One (V.Scalar.Err E.ErrKind.Value) }
    ensures sound { IsTrue (is_sound_value (value_tree result)) }
{
    Value::One(Scalar::Err(ErrKind::Value))
}

/// The value of a function without arguments.
#[tactic(auto, using(gl_value::specs::Forms::trees), unfolding(gl_calculus::specs::Values::Functions::apply))]
fn on_none(fun: Fun) -> Value
    requires fixed { takes_any (fun_tree fun) ≡ false }
    ensures value { value_tree result ≡ F.apply (fun_tree fun) [] }
    ensures sound { IsTrue (is_sound_value (value_tree result)) }
{
    match fun {
        Fun::Na => Value::One(Scalar::Err(ErrKind::Na)),
        _ => wrong_number(),
    }
}

/// The value of a function on one argument.
#[tactic(auto, using(gl_value::specs::Forms::trees), unfolding(gl_calculus::specs::Values::Functions::apply))]
fn on_one(alloc: Global, fun: Fun, v: &Value) -> Result<Value, NoMemory>
    requires fixed { takes_any (fun_tree fun) ≡ false }
    requires sound { IsTrue (is_sound_value (value_tree v.now)) }
    ensures value { IfOk result (λ r.
        value_tree r ≡ F.apply (fun_tree fun) (value_tree v.now ∷ [])) }
    ensures sound { IfOk result (λ r. IsTrue (is_sound_value (value_tree r))) }
{
    match fun {
        Fun::Not => lift1(alloc, v, |x: &Scalar| Ok(not(x))),
        Fun::IsError => lift1(alloc, v, |x: &Scalar| Ok(is_error(x))),
        Fun::IsBlank => lift1(alloc, v, |x: &Scalar| Ok(is_blank(x))),
        Fun::Abs => lift1(alloc, v, |x: &Scalar| Ok(abs(x))),
        Fun::Len => lift1(alloc, v, |x: &Scalar| Ok(len(x))),
        Fun::Rows => Ok(Value::One(extent_rows(v))),
        Fun::Columns => Ok(Value::One(extent_columns(v))),
        Fun::Transpose => transpose(alloc, v),
        Fun::Unique => unique(alloc, v),
        _ => Ok(wrong_number()),
    }
}

/// The value of a function on two arguments.
#[tactic(auto, using(gl_value::specs::Forms::trees), unfolding(gl_calculus::specs::Values::Functions::apply))]
fn on_two(alloc: Global, fun: Fun, u: &Value, v: &Value) -> Result<Value, NoMemory>
    requires fixed { takes_any (fun_tree fun) ≡ false }
    requires first { IsTrue (is_sound_value (value_tree u.now)) }
    requires second { IsTrue (is_sound_value (value_tree v.now)) }
    ensures value { IfOk result (λ r.
        value_tree r ≡ F.apply (fun_tree fun) (value_tree u.now ∷ value_tree v.now ∷ [])) }
    ensures sound { IfOk result (λ r. IsTrue (is_sound_value (value_tree r))) }
{
    match fun {
        Fun::Mod => lift2(alloc, u, v, |x: &Scalar, y: &Scalar| Ok(modulo(x, y))),
        Fun::Left => lift2(alloc, u, v, |x: &Scalar, y: &Scalar| left(alloc, x, y)),
        Fun::Right => lift2(alloc, u, v, |x: &Scalar, y: &Scalar| right(alloc, x, y)),
        Fun::Sequence => sequence(alloc, u, v),
        Fun::Filter => filter(alloc, u, v),
        _ => Ok(wrong_number()),
    }
}

/// The value of a function on three arguments.
#[tactic(auto, using(gl_value::specs::Forms::trees), unfolding(gl_calculus::specs::Values::Functions::apply))]
fn on_three(alloc: Global, fun: Fun, u: &Value, v: &Value, w: &Value) -> Result<Value, NoMemory>
    requires fixed { takes_any (fun_tree fun) ≡ false }
    requires first { IsTrue (is_sound_value (value_tree u.now)) }
    requires second { IsTrue (is_sound_value (value_tree v.now)) }
    requires third { IsTrue (is_sound_value (value_tree w.now)) }
    ensures value { IfOk result (λ r.
        value_tree r
        ≡ F.apply (fun_tree fun) (value_tree u.now ∷ value_tree v.now ∷ value_tree w.now ∷ [])) }
    ensures sound { IfOk result (λ r. IsTrue (is_sound_value (value_tree r))) }
{
    match fun {
        Fun::Index => Ok(Value::One(index(alloc, u, v, w)?)),
        Fun::Take => take(alloc, u, v, w),
        Fun::Drop => drop_part(alloc, u, v, w),
        Fun::Lookup => Ok(Value::One(lookup(alloc, u, v, w)?)),
        _ => Ok(wrong_number()),
    }
}
