//! What IF and IFERROR do at their first argument.
ghost use Rattle.std.specs.Prelude.{◌≡◌, IsTrue, IfOk, IfErr};
ghost use Rattle.gl_ast.specs.View.{version_tree};
ghost use Rattle.gl_calculus.specs.Evaluation.Key.{Eval};
ghost use Rattle.gl_calculus.specs.Values.Lift.{lift2, lift3};
ghost use Rattle.gl_calculus.specs.Evaluation.Sound.{is_sound_scalar};
ghost use Rattle.gl_calculus.specs.Evaluation.Sound.{is_sound_value};
ghost use Rattle.gl_calculus.specs.Evaluation.Evaluation as E;
ghost use Rattle.gl_calculus.specs.Values.Value as V;
ghost use Rattle.gl_value.specs.View.{scalar_tree, value_tree};
ghost use Rattle.gl_demand.specs.{Choices.by_choice, Choices.by_replacement};
ghost use Rattle.gl_demand.specs.{declared.trail.Halt.Halt};

use crate::trail::{Eval, Halt};
use gl_ast::Version;
use gl_lift::{lift2, lift3};
use gl_plane::{NoMemory, Share};
use gl_value::{ErrKind, Scalar, Value};
use std::alloc::Global;

/// What IF does at a condition: it takes its first or its second value, fails, or chooses at each
/// element.
#[derive(Clone, Copy)]
pub enum Choice {
    First,
    Second,
    Fails(ErrKind),
    Each,
}

/// What IFERROR does at its first value: it keeps that, takes the other, or replaces at each
/// element.
#[derive(Clone, Copy)]
pub enum Replacement {
    Own,
    Other,
    Each,
}

/// What IF does at a condition.
#[tactic(auto, using(gl_value::specs::Forms::trees))]
pub fn chooses(version: Version, c: &Value) -> Choice
    ensures { (p q : Eval V.Value)
        → E.choose (version_tree version) (value_tree c.now) p q
        ≡ by_choice result (value_tree c.now) p q }
{
    match c {
        Value::One(x) => chooses_at(version, x),
        Value::Array(_) => chooses_at_each(version),
    }
}

/// What IF does at a condition that is one scalar.
#[tactic(auto, using(gl_value::specs::Forms::trees))]
fn chooses_at(version: Version, x: &Scalar) -> Choice
    ensures { (p q : Eval V.Value)
        → E.choose (version_tree version) (V.One (scalar_tree x.now)) p q
        ≡ by_choice result (V.One (scalar_tree x.now)) p q }
{
    match x {
        Scalar::Bool(true) => Choice::First,
        Scalar::Bool(false) => Choice::Second,
        Scalar::Blank => Choice::Second,
        Scalar::Err(k) => Choice::Fails(*k),
        Scalar::Int(_) => Choice::Fails(ErrKind::Value),
        Scalar::Text(_) => Choice::Fails(ErrKind::Value),
        Scalar::Sheet(_) => Choice::Fails(ErrKind::Value),
    }
}

/// What IF does at an array of conditions.
fn chooses_at_each(version: Version) -> Choice
    ensures { (c : V.Value) (p q : Eval V.Value)
        → E.choose_each (version_tree version) c p q ≡ by_choice result c p q }
{
    match version {
        Version::One => Choice::Fails(ErrKind::Value),
        Version::Two => Choice::Each,
    }
}

/// What IFERROR does at its first value.
#[tactic(auto, using(gl_value::specs::Forms::trees))]
pub fn replaces(version: Version, v: &Value) -> Replacement
    ensures { (q : Eval V.Value)
        → E.replace (version_tree version) (value_tree v.now) q
        ≡ by_replacement result (value_tree v.now) q }
{
    match v {
        Value::One(x) => replaces_at(version, x),
        Value::Array(_) => replaces_at_each(version),
    }
}

/// What IFERROR does at a first value that is one scalar.
#[tactic(auto, using(gl_value::specs::Forms::trees))]
fn replaces_at(version: Version, x: &Scalar) -> Replacement
    ensures { (q : Eval V.Value)
        → E.replace (version_tree version) (V.One (scalar_tree x.now)) q
        ≡ by_replacement result (V.One (scalar_tree x.now)) q }
{
    match x {
        Scalar::Err(_) => Replacement::Other,
        Scalar::Blank => Replacement::Own,
        Scalar::Int(_) => Replacement::Own,
        Scalar::Bool(_) => Replacement::Own,
        Scalar::Text(_) => Replacement::Own,
        Scalar::Sheet(_) => Replacement::Own,
    }
}

/// What IFERROR does at a first value that is an array.
fn replaces_at_each(version: Version) -> Replacement
    ensures { (v : V.Value) (q : Eval V.Value)
        → E.replace_each (version_tree version) v q ≡ by_replacement result v q }
{
    match version {
        Version::One => Replacement::Own,
        Version::Two => Replacement::Each,
    }
}

/// One of two scalars by a condition, where a blank is FALSE and an error passes.
#[tactic(auto, using(gl_value::specs::Forms::trees))]
fn pick(c: &Scalar, x: &Scalar, y: &Scalar) -> Result<Scalar, NoMemory>
    ensures value { IfOk result (λ z.
        scalar_tree z ≡ E.chosen (scalar_tree c.now) (scalar_tree x.now) (scalar_tree y.now)) }
    ensures sound { IsTrue (is_sound_scalar (scalar_tree x.now))
        → IsTrue (is_sound_scalar (scalar_tree y.now))
        → IfOk result (λ z. IsTrue (is_sound_scalar (scalar_tree z))) }
{
    match c {
        Scalar::Bool(true) => x.share(),
        Scalar::Bool(false) => y.share(),
        Scalar::Blank => y.share(),
        Scalar::Err(k) => Ok(Scalar::Err(*k)),
        Scalar::Int(_) => Ok(Scalar::Err(ErrKind::Value)),
        Scalar::Text(_) => Ok(Scalar::Err(ErrKind::Value)),
        Scalar::Sheet(_) => Ok(Scalar::Err(ErrKind::Value)),
    }
}

/// The choice at each element of a condition.
#[tactic(auto, using(gl_value::specs::Forms::trees))]
pub fn chosen(alloc: Global, c: &Value, u: &Value, v: &Value) -> Eval<Value>
    requires condition { IsTrue (is_sound_value (value_tree c.now)) }
    requires first { IsTrue (is_sound_value (value_tree u.now)) }
    requires second { IsTrue (is_sound_value (value_tree v.now)) }
    ensures value { IfOk result (λ x.
        value_tree x ≡ lift3 E.chosen (value_tree c.now) (value_tree u.now) (value_tree v.now)) }
    ensures err { IfErr result (λ h. h ≡ Halt.NoMemory) }
    ensures sound { IfOk result (λ x. IsTrue (is_sound_value (value_tree x))) }
{
    match lift3(
        alloc,
        c,
        u,
        v,
        |c: &Scalar, x: &Scalar, y: &Scalar| pick(c, x, y),
    ) {
        Ok(v) => Ok(v),
        Err(NoMemory) => Err(Halt::NoMemory),
    }
}

/// The second scalar in place of an error.
#[tactic(auto, using(gl_value::specs::Forms::trees))]
fn in_place(x: &Scalar, y: &Scalar) -> Result<Scalar, NoMemory>
    ensures value { IfOk result (λ z.
        scalar_tree z ≡ E.in_place_of_error (scalar_tree x.now) (scalar_tree y.now)) }
    ensures sound { IsTrue (is_sound_scalar (scalar_tree x.now))
        → IsTrue (is_sound_scalar (scalar_tree y.now))
        → IfOk result (λ z. IsTrue (is_sound_scalar (scalar_tree z))) }
{
    match x {
        Scalar::Err(_) => y.share(),
        Scalar::Blank => x.share(),
        Scalar::Int(_) => x.share(),
        Scalar::Bool(_) => x.share(),
        Scalar::Text(_) => x.share(),
        Scalar::Sheet(_) => x.share(),
    }
}

/// The second value in place of each error of the first.
#[tactic(auto, using(gl_value::specs::Forms::trees))]
pub fn replaced(alloc: Global, u: &Value, v: &Value) -> Eval<Value>
    requires first { IsTrue (is_sound_value (value_tree u.now)) }
    requires second { IsTrue (is_sound_value (value_tree v.now)) }
    ensures value { IfOk result (λ x.
        value_tree x ≡ lift2 E.in_place_of_error (value_tree u.now) (value_tree v.now)) }
    ensures err { IfErr result (λ h. h ≡ Halt.NoMemory) }
    ensures sound { IfOk result (λ x. IsTrue (is_sound_value (value_tree x))) }
{
    match lift2(alloc, u, v, |x: &Scalar, y: &Scalar| in_place(x, y)) {
        Ok(v) => Ok(v),
        Err(NoMemory) => Err(Halt::NoMemory),
    }
}
