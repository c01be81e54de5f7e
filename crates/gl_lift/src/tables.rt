//! Tables of what an operator gives at the elements of values.
ghost use Rattle.std.specs.Prelude.{◌≡◌, IsTrue, IfOk};
ghost use Rattle.gl_calculus.specs.Values.Lift.{shape};
ghost use Rattle.gl_calculus.specs.Evaluation.Sound.{is_sound_value};
ghost use Rattle.gl_calculus.specs.Values.Value as V;
ghost use Rattle.gl_calculus.specs.Values.Lift as L;
ghost use Rattle.gl_value.specs.View.{value_tree};
ghost use Rattle.gl_lift.specs.Rules.{Computes1, Computes2, Computes3, AnswersSound1};
ghost use Rattle.gl_lift.specs.Rules.{AnswersSound2, AnswersSound3};
ghost use Rattle.gl_lift.specs.Elements.{paired, tripled};

use crate::build::table;
use crate::elements::{extents, hull, pair, single, triple};
use gl_plane::NoMemory;
use gl_value::{Scalar, Value};
use std::alloc::Global;

/// What an operator gives at each element of a value.
#[tactic(auto, using(gl_value::specs::Forms::trees))]
pub fn table_of_one<F>(alloc: Global, v: &Value, f: &F) -> Result<Value, NoMemory>
where
    F: Fn(&Scalar) -> Result<Scalar, NoMemory>,
    requires sound { IsTrue (is_sound_value (value_tree v.now)) }
    requires callable { F.IsAlwaysCallable f.now }
    ensures sound { AnswersSound1 F.Fn f.now
        → IfOk result (λ r. IsTrue (is_sound_value (value_tree r))) }
    ensures value { (rule : V.Scalar → V.Scalar)
        → Computes1 F.Fn f.now rule
        → IfOk result (λ r.
        value_tree r
        ≡ L.table (shape (value_tree v.now)) (λ i j. rule (L.item (value_tree v.now) i j))) }
{
    let (rows, cols) = extents(v);
    table(alloc, rows, cols, |i, j| single(v, i, j, f))
}

/// What an operator gives at each pair of elements of two values.
#[tactic(auto, using(gl_value::specs::Forms::trees))]
pub fn table_of_two<F>(alloc: Global, u: &Value, v: &Value, f: &F) -> Result<Value, NoMemory>
where
    F: Fn(&Scalar, &Scalar) -> Result<Scalar, NoMemory>,
    requires first { IsTrue (is_sound_value (value_tree u.now)) }
    requires second { IsTrue (is_sound_value (value_tree v.now)) }
    requires callable { F.IsAlwaysCallable f.now }
    ensures sound { AnswersSound2 F.Fn f.now
        → IfOk result (λ r. IsTrue (is_sound_value (value_tree r))) }
    ensures value { (rule : V.Scalar → V.Scalar → V.Scalar)
        → Computes2 F.Fn f.now rule
        → IfOk result (λ r.
        value_tree r
        ≡ L.table (L.hull (shape (value_tree u.now)) (shape (value_tree v.now)))
        (paired rule (value_tree u.now) (value_tree v.now))) }
{
    let (rows, cols) = hull(extents(u), extents(v));
    table(alloc, rows, cols, |i, j| pair(u, v, i, j, f))
}

/// What an operator gives at each three elements of three values.
#[tactic(auto, using(gl_value::specs::Forms::trees))]
pub fn table_of_three<F>(
    alloc: Global,
    u: &Value,
    v: &Value,
    w: &Value,
    f: &F,
) -> Result<Value, NoMemory>
where
    F: Fn(&Scalar, &Scalar, &Scalar) -> Result<Scalar, NoMemory>,
    requires first { IsTrue (is_sound_value (value_tree u.now)) }
    requires second { IsTrue (is_sound_value (value_tree v.now)) }
    requires third { IsTrue (is_sound_value (value_tree w.now)) }
    requires callable { F.IsAlwaysCallable f.now }
    ensures sound { AnswersSound3 F.Fn f.now
        → IfOk result (λ r. IsTrue (is_sound_value (value_tree r))) }
    ensures value { (rule : V.Scalar → V.Scalar → V.Scalar → V.Scalar)
        → Computes3 F.Fn f.now rule
        → IfOk result (λ r.
        value_tree r
        ≡ L.table
        (L.hull (shape (value_tree u.now))
        (L.hull (shape (value_tree v.now)) (shape (value_tree w.now))))
        (tripled rule (value_tree u.now) (value_tree v.now) (value_tree w.now))) }
{
    let (rows, cols) = hull(extents(u), hull(extents(v), extents(w)));
    table(alloc, rows, cols, |i, j| triple(u, v, w, i, j, f))
}
