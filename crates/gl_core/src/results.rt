//! The results of a round that are kept for the next one.
ghost use Rattle.std.specs.Prelude.{◌≡◌, [], length, option_map, OnOk, OnErr, IfOk, IfSome};
ghost use Rattle.std.specs.Option.{option_copied};
ghost use Rattle.gl_calculus.specs.Computation.Notes.{note_keys};
ghost use Rattle.gl_calculus.specs.Computation.Lists.{AreDistinct};
ghost use Rattle.gl_calculus.specs.Computation.Query.{Ready};
ghost use Rattle.gl_machine.specs.Remembered.{AreClosed, AreTheKept};
ghost use Rattle.gl_plane.specs.Changes.{reaches};
ghost use Rattle.gl_demand.specs.{View.key_tree, View.outcome_tree, Sound.IsSoundFound};
ghost use Rattle.gl_core.specs.{Ledger.written, Ledger.IsLedger, Results.outcome_in};
ghost use Rattle.gl_core.specs.{Results.AreResults, Carry.IsCarry};

use crate::carry::Carry;
use crate::converting::copy_ledger;
use crate::ledger::Ledger;
use crate::outcomes::row_outcome;
use gl_demand::{Key, Outcome};
use gl_plane::{NoMemory, Range};
use std::alloc::Global;
use std::marker::Model;

/// Before room is given back, twice so many keys that are gone may have numbers, besides one for each
/// key that is known: so the notes of a small sheet are not written anew at each round.
const SPARE: u64 = 512;

/// The notes of keys, each with the key's outcome, the keys that it read and the ranges that it
/// looked at. Each key that a note read has a note, too. They are in any order.
pub struct Results {
    ledger: Ledger,
    carry: Carry,
}

// One call wherever it is dropped, in place of one for each part.
impl Drop for Results {
    fn drop(self) {
        let Results { ledger, carry } = self;
    }
}

impl Model for Results {
    ghost use Rattle.std.specs.Coded.{codes};
    ghost use Rattle.gl_machine.specs.Codes.{coded_note};
    ghost use Rattle.gl_calculus.specs.Calculation.Memory.{Notes};
    ghost use Rattle.gl_core.specs.{Ledger.written, Ledger.IsLedger, Results.AreResults};
    ghost use Rattle.gl_core.specs.{Carry.IsCarry};

    ghost Value = { Notes };

    ghost coded = { Prim.hlevel (codes, coded_note) };

    ghost view = { λ r. written r.ledger };

    ghost invariant = { λ r.
        IsLedger r.ledger × AreResults (written r.ledger) × IsCarry r.ledger r.carry };
}

/// The same notes in a book of their keys alone, if there is memory for it.
fn give_back(alloc: Global, ledger: &mut Ledger, carry: &mut Carry)
    requires kept { IsLedger ledger.old }
    requires carry { IsCarry ledger.old carry.old }
    ensures notes { written ledger.new ≡ written ledger.old }
    ensures kept { IsLedger ledger.new }
    ensures carry { IsCarry ledger.new carry.new }
{
    if let Ok(copy) = copy_ledger(alloc, ledger) {
        *ledger = copy;
        // the keys of a copy have other numbers
        *carry = Carry::new(alloc);
    }
}

impl Results {
    /// No result. It takes no memory yet.
    pub fn new(alloc: Global) -> Results
        ensures { result ≡ [] }
    {
        Results {
            ledger: Ledger::new(alloc),
            carry: Carry::new(alloc),
        }
    }

    /// These notes, and what the known keys of their round leave to the next one.
    pub(crate) fn of(ledger: Ledger, carry: Carry) -> Results
        requires kept { IsLedger ledger }
        requires results { AreResults (written ledger) }
        requires carry { IsCarry ledger carry }
        ensures { result ≡ written ledger }
    {
        Results { ledger, carry }
    }

    /// The notes by numbers, and what the known keys of their round left.
    pub(crate) fn into_parts(self) -> (Ledger, Carry)
        ensures notes { written result.0 ≡ self }
        ensures kept { IsLedger result.0 }
        ensures results { AreResults (written result.0) }
        ensures carry { IsCarry result.0 result.1 }
    {
        let Results { ledger, carry } = self;
        (ledger, carry)
    }

    /// How many notes there are.
    pub fn len(&self) -> usize
        ensures count { result ≡ length self.now }
        ensures apart { AreDistinct (note_keys self.now) }
    {
        self.ledger.rows.len()
    }

    /// The outcome of a key: `None` exactly where it has no note.
    pub fn outcome(&self, k: &Key) -> Option<&Outcome>
        ensures value { option_map outcome_tree (option_copied result)
            ≡ outcome_in self.now (key_tree k.now) }
        ensures sound { IfSome result (λ o.
            IsSoundFound (key_tree k.now) (Ready (outcome_tree o.now))) }
    {
        match self.ledger.book.find(k) {
            Some(n) => row_outcome(&self.ledger, self.ledger.row(n)),
            None => None,
        }
    }

    /// The same results once more.
    pub fn copy(&self, alloc: Global) -> Result<Results, NoMemory>
        ensures { IfOk result (λ r. r ≡ self.now) }
    {
        let ledger = copy_ledger(alloc, &self.ledger)?;
        // the keys of a copy have other numbers
        let carry = Carry::new(alloc);
        Ok(Results { ledger, carry })
    }

    /// Gives back the room of keys that are gone: where more than twice as many have numbers as are
    /// known, and 1,024 more, the notes are written anew with their own keys, if there is memory for
    /// that. Known are the keys of the round that made the notes, also those that have none.
    pub fn tidy(&mut self, alloc: Global, known: u64)
        ensures { self.new ≡ self.old }
    {
        if self.ledger.book.len() as u64 / 2 > known.saturating_add(SPARE) {
            give_back(alloc, &mut self.ledger, &mut self.carry);
        }
    }

    /// Drops the notes that rest on something that was changed: each that looked at a changed
    /// address, and each that read a key whose note goes. After `NoMemory` the results are as
    /// before.
    pub fn keep(&mut self, alloc: Global, changes: &[Range]) -> Result<(), NoMemory>
        ensures the { OnOk result (AreTheKept (reaches changes.now) self.old self.new) }
        ensures closed { AreClosed self.old }
        ensures err { OnErr result (self.new ≡ self.old) }
    {
        let changed = self.ledger.keep(alloc, changes)?;
        self.carry.follow(&self.ledger, &changed);
        Ok(())
    }
}
