//! A state in which keys with notes are resolved.
ghost use Rattle.std.specs.Prelude.{◌≡◌, ◌+◌, ◌^◌, ◌<◌, ◌≤◌, ◌++◌, ◌∷◌, [], ℕ, length, vec_len};
ghost use Rattle.std.specs.Prelude.{vec_capacity, IfOk};
ghost use Rattle.gl_calculus.specs.Computation.Lists.{AreDistinct};
ghost use Rattle.gl_calculus.specs.Grid.Limits.{max_demanded};
ghost use Rattle.gl_core.specs.Table.{IsCore, AreBegun, status_by};
ghost use Rattle.gl_core.specs.{Numbers.Each, Numbers.IsIndex, Ledger.IsLedger, Tree.HasPlace};
ghost use Rattle.gl_core.specs.{Marks.TellNothing, Statuses.AreCounted};
ghost use Rattle.gl_demand.specs.Marks.{mark_trees};

use crate::entries::Entries;
use crate::index::put;
use crate::ledger::Ledger;
use crate::statuses::Statuses;
use gl_demand::Mark;
use gl_plane::NoMemory;
use std::alloc::Global;

/// The places of numbers, of which there are so many.
fn index_of(alloc: Global, known: &[u32], numbers: usize) -> Result<Vec<u32>, NoMemory>
    requires there { Each (λ n. n < numbers) known.now }
    requires apart { AreDistinct known.now }
    requires few { length known.now ≤ max_demanded }
    ensures { IfOk result (λ at. IsIndex known.now at.items) }
{
    let mut at = vec![in alloc; 0; numbers]?;
    for p in 0..known.len() {
        put(&mut at, known[p], p);
    }
    Ok(at)
}

/// One more status: resolved where the number has a row, idle where not.
fn push_status(statuses: &mut Statuses, row: Option<usize>)
    requires counted { AreCounted statuses.old }
    requires few { length statuses.old.items.items + 1 < 2 ^ 32 }
    requires room { HasPlace statuses.old.idle (length statuses.old.items.items) }
    requires capacity { vec_len statuses.old.items < vec_capacity statuses.old.items }
    ensures items { statuses.new.items.items ≡ statuses.old.items.items ++ status_by row ∷ [] }
    ensures counted { AreCounted statuses.new }
    ensures places { (q : ℕ) → HasPlace statuses.old.idle q → HasPlace statuses.new.idle q }
    ensures capacity { vec_capacity statuses.new.items ≡ vec_capacity statuses.old.items }
{
    match row {
        Some(row) => statuses.push_resolved(row),
        None => statuses.push_idle(),
    }
}

/// The statuses of numbers, each resolved where it has a row, and idle where not.
fn statuses_of(alloc: Global, known: &[u32], ledger: &Ledger) -> Result<Statuses, NoMemory>
    requires kept { IsLedger ledger.now }
    requires few { length known.now ≤ max_demanded }
    ensures begun { IfOk result (λ s. AreBegun ledger.now.rows.items known.now s.items.items) }
    ensures size { IfOk result (λ s. length s.items.items ≡ length known.now) }
    ensures counted { IfOk result AreCounted }
{
    let mut statuses = Statuses::new(alloc);
    statuses.make_places(alloc, known.len())?;
    for n in known {
        push_status(&mut statuses, ledger.row(*n));
    }
    Ok(statuses)
}

/// So many empty lists.
fn no_lists(alloc: Global, count: usize) -> Result<Vec<Vec<usize>>, NoMemory>
    ensures { IfOk result (λ lists. length lists.items ≡ count) }
{
    let mut lists = Vec::with_capacity(alloc, count)?;
    for _ in 0..count {
        lists.push(Vec::new(alloc))?;
    }
    Ok(lists)
}

/// So many marks of nothing.
fn no_marks(alloc: Global, count: usize) -> Result<Vec<Mark>, NoMemory>
    ensures size { IfOk result (λ marks. length marks.items ≡ count) }
    ensures nothing { IfOk result (λ marks. TellNothing (mark_trees marks.items)) }
{
    let mut marks = Vec::with_capacity(alloc, count)?;
    for _ in 0..count {
        marks.push(Mark::none())?;
    }
    Ok(marks)
}

/// The state in which these are known, each resolved where it has a row, and idle where not.
pub fn begun(alloc: Global, known: Vec<u32>, ledger: &Ledger) -> Result<Entries, NoMemory>
    requires kept { IsLedger ledger.now }
    requires below { Each (λ n. n < length ledger.now.book) known.items }
    requires apart { AreDistinct known.items }
    requires few { length known.items ≤ max_demanded }
    ensures known { IfOk result (λ e. e.known.items ≡ known.items) }
    ensures begun { IfOk result
        (λ e. AreBegun ledger.now.rows.items e.known.items e.statuses.items.items) }
    ensures marks { IfOk result (λ e. TellNothing (mark_trees e.marks.items)) }
    ensures core { IfOk result (IsCore ledger.now) }
{
    let at = index_of(alloc, &known, ledger.book.len())?;
    let statuses = statuses_of(alloc, &known, ledger)?;
    let waiting = no_lists(alloc, known.len())?;
    let passed = vec![in alloc; 0usize; known.len()]?;
    let marks = no_marks(alloc, known.len())?;
    let waited = Vec::new(alloc);
    Ok(Entries {
        known,
        at,
        statuses,
        waiting,
        passed,
        marks,
        waited,
    })
}
