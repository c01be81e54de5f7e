//! One pass over rows in the order of noting.
ghost use Rattle.std.specs.Prelude.{◌≡◌, ◌<◌, ℕ, true, [], List, All, IfOk, vec_len};
ghost use Rattle.std.specs.List.{list_any};
ghost use Rattle.gl_calculus.specs.Computation.Lists.{Member, AreDistinct};
ghost use Rattle.gl_machine.specs.InOrder.{AreOrdered};
ghost use Rattle.gl_calculus.specs.Computation.Notes.{note_keys};
ghost use Rattle.gl_support.specs.Rows.{notes_of, AreMarked, AreBelow, gone_numbers, gone_with};
ghost use Rattle.gl_support.specs.Rows.{Goes};
ghost use Rattle.gl_support.specs.Rows.{marked_or_read, AreFollowed, AreReached};
ghost use Rattle.gl_support.specs.Reach.{is_marked};

use crate::row::{Row, is_marked, mark_all};
use crate::touched::{Touched, any_touched};
use gl_plane::NoMemory;
use std::alloc::Global;

/// Marks the numbers of the rows to drop: those that looked at what changed, and those that read a
/// number marked before. Where rows are in the order of noting, these are the rows that rest on
/// what changed, and no others.
pub fn mark<O, A, T: Touched<A>>(
    alloc: Global,
    rows: &[Row<O, A>],
    numbers: usize,
    changed: &T,
) -> Result<Vec<bool>, NoMemory>
    requires { AreBelow numbers rows.now }
    ensures { IfOk result (λ m. AreMarked m.items (gone_numbers (T.touches changed.now) rows.now)) }
{
    let mut gone = vec![in alloc; false; numbers]?;
    for row in rows {
        mark_gone(&mut gone, changed, row);
    }
    Ok(gone)
}

/// Marks the number of the row, if the row goes.
fn mark_gone<O, A, T: Touched<A>>(gone: &mut Vec<bool>, changed: &T, row: &Row<O, A>)
    requires { row.now.by < vec_len gone.old }
    ensures marks { (ks : List ℕ)
        → AreMarked gone.old.items ks
        → AreMarked gone.new.items (gone_with (T.touches changed.now) ks row.now) }
    ensures size { vec_len gone.new ≡ vec_len gone.old }
{
    if goes(changed, gone, row) {
        gone[row.by as usize] = true;
    }
}

fn any_marked(marks: &[bool], reads: &[u32]) -> bool
    ensures { result ≡ list_any (is_marked marks.now) reads.now }
{
    reads.iter().any(|k| is_marked(marks, *k))
}

/// Whether the row goes.
fn goes<O, A, T: Touched<A>>(changed: &T, gone: &[bool], row: &Row<O, A>) -> bool
    ensures { Goes (T.touches changed.now) gone.now row.now result }
{
    any_touched(changed, &row.looked) || any_marked(gone, &row.reads)
}

/// Marks the seeds, and all numbers that they reach through the reads of rows, from the last row to
/// the first.
pub fn wanted<O, A>(
    alloc: Global,
    rows: &[Row<O, A>],
    numbers: usize,
    seeds: &[u32],
) -> Result<Vec<bool>, NoMemory>
    requires below { AreBelow numbers rows.now }
    requires seeds_below { All (λ s. s < numbers) seeds.now }
    requires ordered { AreOrdered [] (notes_of rows.now) }
    requires apart { AreDistinct (note_keys (notes_of rows.now)) }
    ensures seeds { IfOk result (λ m. (s : ℕ) → Member s seeds.now → is_marked m.items s ≡ true) }
    ensures closed { IfOk result (λ m. AreFollowed (notes_of rows.now) m.items) }
    ensures reached { IfOk result (λ m. AreReached (notes_of rows.now) seeds.now m.items) }
    ensures size { IfOk result (λ m. vec_len m ≡ numbers) }
{
    let mut marks = vec![in alloc; false; numbers]?;
    mark_all(&mut marks, seeds);
    let mut i = rows.len();
    while i > 0 {
        i -= 1;
        follow(&mut marks, &rows[i]);
    }
    Ok(marks)
}

/// Marks what the row read, if it is marked itself.
fn follow<O, A>(marks: &mut Vec<bool>, row: &Row<O, A>)
    requires { All (λ k. k < vec_len marks.old) row.now.reads.items }
    ensures marks { (k : ℕ)
        → is_marked marks.new.items k ≡ marked_or_read marks.old.items row.now k }
    ensures size { vec_len marks.new ≡ vec_len marks.old }
{
    if is_marked(marks, row.by) {
        mark_all(marks, &row.reads);
    }
}
