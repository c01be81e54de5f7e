//! Known keys from one round to the next: nothing waits any more.
ghost use Rattle.std.specs.Prelude.{◌≡◌, ◌<◌, ◌+◌, ◌^◌, ◌∷◌, [], ℕ, List, length, set};
ghost use Rattle.gl_machine.specs.Ahead.Reading.{Nothing};
ghost use Rattle.gl_demand.specs.Marks.{mark_trees};
ghost use Rattle.gl_core.specs.Table.{waiters, AreWaiters, IsTable, status_by};
ghost use Rattle.gl_core.specs.Rested.{reopened_at, AreReopened, IsRestOf, AreBegunBut};
ghost use Rattle.gl_core.specs.Rested.{IsBegunAgain, FollowsTo, IsRested};
ghost use Rattle.gl_core.specs.Carry.{IsCarry, CanFollow};
ghost use Rattle.gl_core.specs.{declared.ledger.Ledger.Ledger};
ghost use Rattle.gl_core.specs.{Statuses.AreCounted, Ledger.IsLedger};

use crate::entries::Entries;
use crate::index::place_in;
use crate::ledger::Ledger;
use crate::status::Status;
use crate::statuses::Statuses;
use gl_demand::Mark;
use std::alloc::Global;

/// What the known keys of a round leave to the next one.
#[derive(Drop)]
pub enum Carry {
    /// The keys themselves, all of them seeds: each is resolved by its row, or idle.
    Seeds(Entries),
    /// Their numbers, those of the seeds first: guesses.
    Numbers(Vec<u32>),
}

/// A key that waits is idle again.
fn reopen(statuses: &mut Statuses, q: usize)
    requires few { length statuses.old.items.items + 1 < 2 ^ 32 }
    requires counted { AreCounted statuses.old }
    ensures items { statuses.new.items.items ≡ reopened_at q statuses.old.items.items }
    ensures counted { AreCounted statuses.new }
{
    match statuses.items.get(q) {
        Some(Status::Waiting(_)) => statuses.set(q, Status::Idle),
        Some(Status::Idle) => {}
        Some(Status::Resolved(_)) => {}
        None => {}
    }
}

/// What a key was reading is told no longer.
fn unmark(marks: &mut Vec<Mark>, q: usize)
    ensures { mark_trees marks.new.items ≡ set (mark_trees marks.old.items) q (Nothing, 0) }
{
    match marks.get_mut(q) {
        Some(mark) => *mark = Mark::none(),
        None => {}
    }
}

/// Those that came to wait are idle where they still wait, and have no mark.
fn reopen_each(statuses: &mut Statuses, marks: &mut Vec<Mark>, waited: &[(usize, usize)])
    requires few { length statuses.old.items.items + 1 < 2 ^ 32 }
    requires counted { AreCounted statuses.old }
    requires all { AreWaiters (waiters waited.now) statuses.old.items.items
        (mark_trees marks.old.items) }
    ensures statuses { AreReopened statuses.old.items.items statuses.new.items.items }
    ensures counted { AreCounted statuses.new }
    ensures none { AreWaiters [] statuses.new.items.items (mark_trees marks.new.items) }
    ensures size { length marks.new.items ≡ length marks.old.items }
{
    for wait in waited {
        reopen(statuses, wait.0);
        unmark(marks, wait.0);
    }
}

/// None stands any longer among those that wait for these.
fn clear_lists(waiting: &mut Vec<Vec<usize>>, waited: &[(usize, usize)])
    ensures { length waiting.new.items ≡ length waiting.old.items }
{
    for wait in waited {
        if let Some(list) = waiting.get_mut(wait.1) {
            list.clear();
        }
    }
}

/// The status with which a key begins: resolved by its row, or idle where it has none.
pub fn status_by(row: Option<usize>) -> Status
    ensures { result ≡ status_by row }
{
    match row {
        Some(row) => Status::Resolved(row),
        None => Status::Idle,
    }
}

impl Entries {
    /// What waits is idle again, and no key has a mark. The time is that of what came to wait.
    pub fn rest(&mut self)
        requires { IsTable self.old }
        ensures { IsRestOf self.old self.new }
    {
        reopen_each(&mut self.statuses, &mut self.marks, &self.waited);
        clear_lists(&mut self.waiting, &self.waited);
        self.waited.clear();
    }

    /// The key at a place begins again, by its row.
    fn begin_again(&mut self, p: usize, row: Option<usize>)
        requires there { p < length self.old.known.items }
        requires table { IsTable self.old }
        ensures { IsBegunAgain p row self.old self.new }
    {
        self.statuses.set(p, status_by(row));
        self.passed[p] = 0;
    }

    /// The key of a number begins again, if it is known.
    fn reread(&mut self, ledger: &Ledger, n: u32)
        requires kept { IsLedger ledger.now }
        requires table { IsTable self.old }
        ensures { (ns : List ℕ)
            → AreBegunBut ledger.now (n ∷ ns) self.old
            → FollowsTo ledger.now ns self.old self.new }
    {
        match place_in(&self.at, n) {
            Some(p) => self.begin_again(p, ledger.row(n)),
            None => {}
        }
    }

    /// The keys of these numbers, whose rows went or moved, begin again.
    pub fn follow(&mut self, ledger: &Ledger, changed: &[u32])
        requires kept { IsLedger ledger.now }
        requires table { IsTable self.old }
        requires begun { AreBegunBut ledger.now changed.now self.old }
        ensures { FollowsTo ledger.now [] self.old self.new }
    {
        for n in changed {
            self.reread(ledger, *n);
        }
    }
}

impl Carry {
    /// Of no key.
    pub fn new(alloc: Global) -> Carry
        ensures { (l : Ledger) → IsCarry l result }
    {
        Carry::Numbers(Vec::new(alloc))
    }

    /// Of keys of which so many are seeds, and of which each note is.
    pub fn of(entries: Entries, seeds: usize) -> Carry
        ensures { (l : Ledger) → IsRested l entries → IsCarry l result }
    {
        if entries.known.len() == seeds {
            Carry::Seeds(entries)
        } else {
            Carry::Numbers(entries.into_known())
        }
    }

    /// The keys of these numbers, whose rows went or moved, begin again.
    pub fn follow(&mut self, ledger: &Ledger, changed: &[u32])
        requires kept { IsLedger ledger.now }
        requires begun { CanFollow ledger.now changed.now self.old }
        ensures { IsCarry ledger.now self.new }
    {
        match self {
            Carry::Seeds(entries) => entries.follow(ledger, changed),
            Carry::Numbers(_) => {}
        }
    }
}
