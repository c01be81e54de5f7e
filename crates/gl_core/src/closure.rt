//! What seeds reach through notes.
ghost use Rattle.std.specs.Prelude.{◌≡◌, ◌<◌, ◌∷◌, [], ℕ, length, All, IfOk, OnOk, vec_len};
ghost use Rattle.gl_calculus.specs.Computation.Lists.{AreDistinct};
ghost use Rattle.gl_machine.specs.Remembered.{AreClosed};
ghost use Rattle.gl_support.specs.{Reach.is_marked, Reach.has, Rows.notes_of};
ghost use Rattle.gl_core.specs.{Numbers.Each, Ledger.IsLedger};
ghost use Rattle.gl_core.specs.Resuming.{IsClosure, IsQueue, Gets, GetsReads};

use crate::ledger::Ledger;
use gl_plane::NoMemory;
use std::alloc::Global;

/// A mark for each of the numbers below `count`, set for these.
fn marked(alloc: Global, count: usize, numbers: &[u32]) -> Result<Vec<bool>, NoMemory>
    requires { All (λ n. n < count) numbers.now }
    ensures marks { IfOk result (λ m. (k : ℕ) → is_marked m.items k ≡ has numbers.now k) }
    ensures size { IfOk result (λ m. vec_len m ≡ count) }
{
    let mut marks = vec![in alloc; false; count]?;
    for n in numbers {
        marks[*n as usize] = true;
    }
    Ok(marks)
}

/// The number too, where it is not marked yet. Then it is.
fn add(all: &mut Vec<u32>, marks: &mut Vec<bool>, n: u32) -> Result<(), NoMemory>
    requires queue { IsQueue (vec_len marks.old) marks.old.items all.old.items }
    requires below { n < vec_len marks.old }
    ensures queue { OnOk result (IsQueue (vec_len marks.old) marks.new.items all.new.items) }
    ensures size { vec_len marks.new ≡ vec_len marks.old }
    ensures gets { OnOk result (Gets (n ∷ []) all.old.items all.new.items) }
{
    if !marks[n as usize] {
        marks[n as usize] = true;
        all.push(n)?;
    }
    Ok(())
}

/// Those of the numbers too that are not marked yet.
fn add_all(all: &mut Vec<u32>, marks: &mut Vec<bool>, numbers: &[u32]) -> Result<(), NoMemory>
    requires queue { IsQueue (vec_len marks.old) marks.old.items all.old.items }
    requires below { All (λ n. n < vec_len marks.old) numbers.now }
    ensures queue { OnOk result (IsQueue (vec_len marks.old) marks.new.items all.new.items) }
    ensures size { vec_len marks.new ≡ vec_len marks.old }
    ensures gets { OnOk result (Gets numbers.now all.old.items all.new.items) }
{
    for n in numbers {
        add(all, marks, *n)?;
    }
    Ok(())
}

/// What the number's note read, too, where it has one.
fn add_reads(
    all: &mut Vec<u32>,
    marks: &mut Vec<bool>,
    ledger: &Ledger,
    n: u32,
) -> Result<(), NoMemory>
    requires kept { IsLedger ledger.now }
    requires queue { IsQueue (vec_len marks.old) marks.old.items all.old.items }
    requires count { vec_len marks.old ≡ length ledger.now.book }
    ensures queue { OnOk result (IsQueue (vec_len marks.old) marks.new.items all.new.items) }
    ensures size { vec_len marks.new ≡ vec_len marks.old }
    ensures gets { OnOk result (
        GetsReads (notes_of ledger.now.rows.items) n all.old.items all.new.items) }
{
    match ledger.row(n) {
        Some(r) => add_all(all, marks, &ledger.rows[r].reads),
        None => Ok(()),
    }
}

/// The seeds, and what they reach through notes. The list is its own queue: of each number in it,
/// what its note read comes to the end, once.
pub fn closure(alloc: Global, seeds: Vec<u32>, ledger: &Ledger) -> Result<Vec<u32>, NoMemory>
    requires kept { IsLedger ledger.now }
    requires closed { AreClosed (notes_of ledger.now.rows.items) }
    requires below { Each (λ n. n < length ledger.now.book) seeds.items }
    requires apart { AreDistinct seeds.items }
    ensures { IfOk result (λ all. IsClosure ledger.now seeds.items all.items) }
{
    let mut marks = marked(alloc, ledger.book.len(), &seeds)?;
    let mut all = seeds;
    let mut i = 0usize;
    while i < all.len() {
        let n = all[i];
        add_reads(&mut all, &mut marks, ledger, n)?;
        i += 1;
    }
    Ok(all)
}
