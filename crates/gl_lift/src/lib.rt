//! Operators on scalars, lifted to values: element by element, where an extent of 1 repeats.
#![tactic(auto)]

mod build;
mod elements;
mod tables;

ghost use Rattle.std.specs.Prelude.{◌≡◌, IsTrue, IfOk};
ghost use Rattle.gl_calculus.specs.Values.Lift.{lift1, lift2, lift3};
ghost use Rattle.gl_calculus.specs.Evaluation.Sound.{is_sound_value};
ghost use Rattle.gl_calculus.specs.Values.Value as V;
ghost use Rattle.gl_value.specs.View.{value_tree};
ghost use Rattle.gl_lift.specs.Rules.{Computes1, Computes2, Computes3, AnswersSound1};
ghost use Rattle.gl_lift.specs.Rules.{AnswersSound2, AnswersSound3};

pub use build::table;
pub use elements::{element, extents};
use gl_plane::NoMemory;
use gl_value::{Scalar, Value};
use std::alloc::Global;
use tables::{table_of_one, table_of_three, table_of_two};

/// The operator at each element of a value.
///
/// A scalar gives a scalar, an array an array of the same size.
#[tactic(auto, using(gl_value::specs::Forms::trees))]
pub fn lift1<F>(alloc: Global, v: &Value, f: F) -> Result<Value, NoMemory>
where
    F: Fn(&Scalar) -> Result<Scalar, NoMemory>,
    requires callable { F.IsAlwaysCallable f }
    requires sound { IsTrue (is_sound_value (value_tree v.now)) }
    ensures sound { AnswersSound1 F.Fn f
        → IfOk result (λ r. IsTrue (is_sound_value (value_tree r))) }
    ensures value { (rule : V.Scalar → V.Scalar) → Computes1 F.Fn f rule
        → IfOk result (λ r. value_tree r ≡ lift1 rule (value_tree v.now)) }
{
    match v {
        Value::One(x) => Ok(Value::One(f(x)?)),
        Value::Array(_) => table_of_one(alloc, v, &f),
    }
}

/// The operator at each pair of elements of two values.
///
/// Two scalars give a scalar, anything else an array of the greater extents, or `#SIZE!` where it
/// would have more than 10,000 cells. A scalar counts as one row and one column, an extent of 1
/// repeats, and an element beyond another extent of either value is `#N/A`.
#[tactic(auto, using(gl_value::specs::Forms::trees))]
pub fn lift2<F>(alloc: Global, u: &Value, v: &Value, f: F) -> Result<Value, NoMemory>
where
    F: Fn(&Scalar, &Scalar) -> Result<Scalar, NoMemory>,
    requires callable { F.IsAlwaysCallable f }
    requires first { IsTrue (is_sound_value (value_tree u.now)) }
    requires second { IsTrue (is_sound_value (value_tree v.now)) }
    ensures sound { AnswersSound2 F.Fn f
        → IfOk result (λ r. IsTrue (is_sound_value (value_tree r))) }
    ensures value { (rule : V.Scalar → V.Scalar → V.Scalar) → Computes2 F.Fn f rule
        → IfOk result (λ r. value_tree r ≡ lift2 rule (value_tree u.now) (value_tree v.now)) }
{
    match (u, v) {
        (Value::One(x), Value::One(y)) => Ok(Value::One(f(x, y)?)),
        (Value::Array(_), _) => table_of_two(alloc, u, v, &f),
        (_, Value::Array(_)) => table_of_two(alloc, u, v, &f),
    }
}

/// The operator at each three elements of three values, by the same rules.
#[tactic(auto, using(gl_value::specs::Forms::trees))]
pub fn lift3<F>(alloc: Global, u: &Value, v: &Value, w: &Value, f: F) -> Result<Value, NoMemory>
where
    F: Fn(&Scalar, &Scalar, &Scalar) -> Result<Scalar, NoMemory>,
    requires callable { F.IsAlwaysCallable f }
    requires first { IsTrue (is_sound_value (value_tree u.now)) }
    requires second { IsTrue (is_sound_value (value_tree v.now)) }
    requires third { IsTrue (is_sound_value (value_tree w.now)) }
    ensures sound { AnswersSound3 F.Fn f
        → IfOk result (λ r. IsTrue (is_sound_value (value_tree r))) }
    ensures value { (rule : V.Scalar → V.Scalar → V.Scalar → V.Scalar)
        → Computes3 F.Fn f rule
        → IfOk result (λ r.
        value_tree r ≡ lift3 rule (value_tree u.now) (value_tree v.now) (value_tree w.now)) }
{
    match (u, v, w) {
        (Value::One(x), Value::One(y), Value::One(z)) => Ok(Value::One(f(x, y, z)?)),
        (Value::Array(_), _, _) => table_of_three(alloc, u, v, w, &f),
        (_, Value::Array(_), _) => table_of_three(alloc, u, v, w, &f),
        (_, _, Value::Array(_)) => table_of_three(alloc, u, v, w, &f),
    }
}
