//! The elements of values, and what an operator gives at them.
ghost use Rattle.std.specs.Prelude.{◌≡◌, ◌≤◌, IsTrue, IfOk, IfSome, max, option_map};
ghost use Rattle.std.specs.Option.{option_copied};
ghost use Rattle.gl_calculus.specs.Values.Lift.{shape};
ghost use Rattle.gl_calculus.specs.Evaluation.Sound.{is_sound_value};
ghost use Rattle.gl_calculus.specs.Values.Value as V;
ghost use Rattle.gl_calculus.specs.Values.Lift as L;
ghost use Rattle.gl_value.specs.View.{scalar_tree, value_tree};
ghost use Rattle.gl_lift.specs.Elements.{present, reached, place, paired, tripled};
ghost use Rattle.gl_lift.specs.Rules.{Computes1, Computes2, Computes3, AnswersSound1};
ghost use Rattle.gl_lift.specs.Rules.{AnswersSound2, AnswersSound3, IsSound, IsSoundAnswer};

use gl_plane::NoMemory;
use gl_value::{ErrKind, Scalar, Value};

/// How many rows and columns a value has: a scalar has one of each.
#[tactic(auto, using(gl_value::specs::Forms::trees))]
pub fn extents(v: &Value) -> (u16, u16)
    ensures rows { result.0 ≡ (shape (value_tree v.now)).rows }
    ensures cols { result.1 ≡ (shape (value_tree v.now)).cols }
    ensures some_rows { 1 ≤ result.0 }
    ensures some_cols { 1 ≤ result.1 }
{
    match v {
        Value::One(_) => (1, 1),
        Value::Array(a) => {
            let size = a.size();
            (size.rows(), size.cols())
        }
    }
}

/// The greater extents of two.
pub fn hull(s: (u16, u16), t: (u16, u16)) -> (u16, u16)
    ensures rows { result.0 ≡ max s.0 t.0 }
    ensures cols { result.1 ≡ max s.1 t.1 }
{
    (s.0.max(t.0), s.1.max(t.1))
}

/// The element at a row and a column, from 0: `None` exactly beyond the extents.
#[tactic(auto, using(gl_value::specs::Forms::trees))]
pub fn element(v: &Value, i: u16, j: u16) -> Option<&Scalar>
    requires { IsTrue (is_sound_value (value_tree v.now)) }
    ensures sound { IfSome result (λ x. IsSound x) }
    ensures value { option_map scalar_tree (option_copied result) ≡ present (value_tree v.now) i j }
{
    match v {
        Value::One(x) => { if i == 0 && j == 0 { Some(x) } else { None } }
        Value::Array(a) => a.item(i, j),
    }
}

/// The row or column that stands for this one: an extent of 1 repeats.
fn place(i: u16, extent: u16) -> u16
    ensures { result ≡ place i extent }
{
    if extent == 1 { 0 } else { i }
}

/// The element at a row and a column, where an extent of 1 repeats.
fn reached(v: &Value, i: u16, j: u16) -> Option<&Scalar>
    requires { IsTrue (is_sound_value (value_tree v.now)) }
    ensures sound { IfSome result (λ x. IsSound x) }
    ensures value { option_map scalar_tree (option_copied result) ≡ reached (value_tree v.now) i j }
{
    let (rows, cols) = extents(v);
    element(v, place(i, rows), place(j, cols))
}

/// What an operator gives at an element of a value, or else at `#N/A`.
#[tactic(auto, using(gl_value::specs::Forms::trees))]
pub fn single<F>(v: &Value, i: u16, j: u16, f: &F) -> Result<Scalar, NoMemory>
where
    F: Fn(&Scalar) -> Result<Scalar, NoMemory>,
    requires callable { F.IsAlwaysCallable f.now }
    requires sound { IsTrue (is_sound_value (value_tree v.now)) }
    ensures sound { AnswersSound1 F.Fn f.now → IsSoundAnswer result }
    ensures value { (rule : V.Scalar → V.Scalar) → Computes1 F.Fn f.now rule
        → IfOk result (λ x. scalar_tree x ≡ rule (L.item (value_tree v.now) i j)) }
{
    match element(v, i, j) {
        Some(x) => f(x),
        None => f(&Scalar::Err(ErrKind::Na)),
    }
}

/// What an operator gives at the elements of two values, and `#N/A` where one of them has none.
#[tactic(auto, using(gl_value::specs::Forms::trees))]
pub fn pair<F>(u: &Value, v: &Value, i: u16, j: u16, f: &F) -> Result<Scalar, NoMemory>
where
    F: Fn(&Scalar, &Scalar) -> Result<Scalar, NoMemory>,
    requires callable { F.IsAlwaysCallable f.now }
    requires first { IsTrue (is_sound_value (value_tree u.now)) }
    requires second { IsTrue (is_sound_value (value_tree v.now)) }
    ensures sound { AnswersSound2 F.Fn f.now → IsSoundAnswer result }
    ensures value { (rule : V.Scalar → V.Scalar → V.Scalar) → Computes2 F.Fn f.now rule
        → IfOk result (λ x. scalar_tree x ≡ paired rule (value_tree u.now) (value_tree v.now) i j) }
{
    let Some(x) = reached(u, i, j) else {
        return Ok(Scalar::Err(ErrKind::Na));
    };
    let Some(y) = reached(v, i, j) else {
        return Ok(Scalar::Err(ErrKind::Na));
    };
    f(x, y)
}

/// What an operator gives at the elements of three values, and `#N/A` where one of them has none.
#[tactic(auto, using(gl_value::specs::Forms::trees))]
pub fn triple<F>(u: &Value, v: &Value, w: &Value, i: u16, j: u16, f: &F) -> Result<Scalar, NoMemory>
where
    F: Fn(&Scalar, &Scalar, &Scalar) -> Result<Scalar, NoMemory>,
    requires callable { F.IsAlwaysCallable f.now }
    requires first { IsTrue (is_sound_value (value_tree u.now)) }
    requires second { IsTrue (is_sound_value (value_tree v.now)) }
    requires third { IsTrue (is_sound_value (value_tree w.now)) }
    ensures sound { AnswersSound3 F.Fn f.now → IsSoundAnswer result }
    ensures value { (rule : V.Scalar → V.Scalar → V.Scalar → V.Scalar)
        → Computes3 F.Fn f.now rule
        → IfOk result (λ x.
        scalar_tree x ≡ tripled rule (value_tree u.now) (value_tree v.now) (value_tree w.now) i j) }
{
    let Some(x) = reached(u, i, j) else {
        return Ok(Scalar::Err(ErrKind::Na));
    };
    let Some(y) = reached(v, i, j) else {
        return Ok(Scalar::Err(ErrKind::Na));
    };
    let Some(z) = reached(w, i, j) else {
        return Ok(Scalar::Err(ErrKind::Na));
    };
    f(x, y, z)
}
