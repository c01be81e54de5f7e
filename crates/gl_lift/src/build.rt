//! Arrays made element by element.
ghost use Rattle.std.specs.Prelude.{◌≡◌, ◌≤◌, ◌+◌, ◌++◌, IfOk, IsTrue, OnOk, map, vec_len, ℕ};
ghost use Rattle.std.specs.List.{range_with_len};
ghost use Rattle.gl_calculus.specs.Grid.Grid.{size};
ghost use Rattle.gl_calculus.specs.Values.Lift.{table};
ghost use Rattle.gl_calculus.specs.Evaluation.Sound.{are_sound, is_sound_value};
ghost use Rattle.gl_calculus.specs.Values.Value as V;
ghost use Rattle.gl_value.specs.View.{item_trees, scalar_tree, value_tree};
ghost use Rattle.gl_lift.specs.Rules.{ComputesAt, AnswersSoundAt};

use gl_plane::{NoMemory, Size};
use gl_value::{Array, ErrKind, Scalar, Value};
use std::alloc::Global;
use std::rc::Rc;

/// The array of so many rows and columns whose elements the closure answers, called once for each
/// in row-major order; `#SIZE!` where it would have more than 10,000 cells.
pub fn table<F>(alloc: Global, rows: u16, cols: u16, element: F) -> Result<Value, NoMemory>
where
    F: Fn(u16, u16) -> Result<Scalar, NoMemory>,
    requires callable { F.IsAlwaysCallable element }
    requires some_rows { 1 ≤ rows }
    requires some_cols { 1 ≤ cols }
    ensures sound { AnswersSoundAt F.Fn element
        → IfOk result (λ v. IsTrue (is_sound_value (value_tree v))) }
    ensures value { (rule : ℕ → ℕ → V.Scalar) → ComputesAt F.Fn element rule
        → IfOk result (λ v. value_tree v ≡ table (size rows cols) rule) }
{
    match Size::new(rows, cols) {
        Some(size) => {
            let mut items = Vec::new(alloc);
            for i in 0..rows {
                push_row(&mut items, i, cols, &element)?;
            }
            Ok(Value::Array(Rc::new(alloc, Array::new(size, items))?))
        }
        None => Ok(Value::One(Scalar::Err(ErrKind::Size))),
    }
}

/// Appends the elements of one row.
fn push_row<F>(items: &mut Vec<Scalar>, i: u16, cols: u16, element: &F) -> Result<(), NoMemory>
where
    F: Fn(u16, u16) -> Result<Scalar, NoMemory>,
    requires { F.IsAlwaysCallable element.now }
    ensures count { OnOk result (vec_len items.new ≡ vec_len items.old + cols) }
    ensures sound { AnswersSoundAt F.Fn element.now
        → IsTrue (are_sound (item_trees items.old.items))
        → OnOk result (IsTrue (are_sound (item_trees items.new.items))) }
    ensures row { (rule : ℕ → ℕ → V.Scalar)
        → ComputesAt F.Fn element.now rule
        → OnOk result
        (map scalar_tree items.new.items
        ≡ map scalar_tree items.old.items ++ map (rule i) (range_with_len 0 cols)) }
{
    for j in 0..cols {
        items.push(element(i, j)?)?;
    }
    Ok(())
}
