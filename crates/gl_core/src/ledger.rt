//! Notes by numbers.
ghost use Rattle.std.specs.Prelude.{◌≡◌, ◌<◌, ◌≤◌, ◌+◌, ◌-◌, ◌*◌, ◌^◌, ◌++◌, ◌∷◌, ℕ, [], Some};
ghost use Rattle.std.specs.Prelude.{length, map, option_map, slice_get, slice_index, OnOk, OnErr};
ghost use Rattle.std.specs.Prelude.{IfOk, IsTrue, vec_len, vec_capacity};
ghost use Rattle.gl_calculus.specs.Computation.Lists.{Member, AreDistinct};
ghost use Rattle.gl_machine.specs.Remembered.{AreClosed, AreTheKept};
ghost use Rattle.gl_calculus.specs.Evaluation.Sound.{is_sound_key};
ghost use Rattle.gl_plane.specs.Changes.{reaches};
ghost use Rattle.gl_demand.specs.{View.key_tree, View.read_tree, Sound.AreSoundKeys, Walk.keys_of};
ghost use Rattle.gl_core.specs.Numbers.{Each, named, numbers_of, AreNumbers, Grows, IsIndex};
ghost use Rattle.gl_core.specs.{Numbers.IsRowOf, KeyNumbers.AreTold};
ghost use Rattle.gl_core.specs.{State.IsSoundNote, Graph.fewer, Ledger.written, Ledger.IsLedger};
ghost use Rattle.gl_core.specs.Dropped.{DropsRows, IsSearched};

use crate::book::{Book, is_top};
use crate::graph::{Graph, affected, shorten};
use crate::index::{forget, give_place, place_in, put, take_out};
use gl_cells::Hint;
use gl_demand::{Key, Outcome, Read};
use gl_plane::{NoMemory, Range, Share};
use gl_support::Row;
use std::alloc::Global;

/// The most notes of a ledger.
const MOST: usize = 4_000_000_000;

/// Keys by numbers, and notes in any order, each with the numbers of its key and of the keys that it
/// read.
pub struct Ledger {
    pub book: Book,
    pub rows: Vec<Row<Outcome, Range>>,
    // the places of the keys' rows
    pub row_of: Vec<u32>,
    // none before it is first searched
    pub graph: Option<Graph>,
}

// One call wherever it is dropped, in place of one for each part.
impl Drop for Ledger {
    fn drop(self) {
        let Ledger {
            book,
            rows,
            row_of,
            graph,
        } = self;
    }
}

/// The places of the rows anew.
fn number_rows(places: &mut Vec<u32>, rows: &[Row<Outcome, Range>])
    requires there { Each (λ n. n < length places.old.items) (numbers_of rows.now) }
    requires apart { AreDistinct (numbers_of rows.now) }
    requires few { length rows.now < 2 ^ 32 - 1 }
    ensures { IsIndex (numbers_of rows.now) places.new.items }
{
    forget(places);
    for r in 0..rows.len() {
        put(places, rows[r].by, r);
    }
}

impl Ledger {
    /// No note.
    pub fn new(alloc: Global) -> Ledger
        ensures book { result.book ≡ [] }
        ensures rows { result.rows.items ≡ [] }
        ensures kept { IsLedger result }
    {
        Ledger {
            book: Book::new(alloc),
            rows: Vec::new(alloc),
            row_of: Vec::new(alloc),
            graph: None,
        }
    }

    /// The place of the note of a number.
    pub fn row(&self, n: u32) -> Option<usize>
        requires { IsLedger self.now }
        ensures { IsRowOf self.now.rows.items n result }
    {
        place_in(&self.row_of, n)
    }

    /// The number of a key, which gets one where it has none. After `NoMemory` all is as before.
    pub fn number(&mut self, key: Key) -> Result<u32, NoMemory>
        requires kept { IsLedger self.old }
        requires sound { IsTrue (is_sound_key (key_tree key)) }
        ensures number { IfOk result (λ n. slice_get self.new.book n ≡ Some (key_tree key)) }
        ensures grows { Grows self.old.book self.new.book }
        ensures rows { self.new.rows.items ≡ self.old.rows.items }
        ensures kept { IsLedger self.new }
        ensures err { OnErr result (self.new.book ≡ self.old.book) }
    {
        self.book.number(key)
    }

    /// The number of a key, which gets one where it has none. At a cell of the sheet the hint's is
    /// tried first. The hint is told.
    fn number_near(&mut self, hint: &mut Hint, key: &Key) -> Result<u32, NoMemory>
        requires kept { IsLedger self.old }
        requires sound { IsTrue (is_sound_key (key_tree key.now)) }
        ensures number { IfOk result (λ n. slice_get self.new.book n ≡ Some (key_tree key.now)) }
        ensures grows { Grows self.old.book self.new.book }
        ensures rows { self.new.rows.items ≡ self.old.rows.items }
        ensures kept { IsLedger self.new }
    {
        let place = hint.place();
        if is_top(key) && self.book.is_at(place, key) {
            hint.found(place);
            return Ok(place as u32);
        }
        let n = self.number(key.share()?)?;
        hint.found(n as usize);
        Ok(n)
    }

    /// The numbers of keys, which get some where they have none. Those of a range mostly stand at like
    /// distances.
    pub fn numbers(&mut self, alloc: Global, keys: &[Key]) -> Result<Vec<u32>, NoMemory>
        requires kept { IsLedger self.old }
        requires sound { AreSoundKeys (map key_tree keys.now) }
        ensures numbers { IfOk result (λ ns.
            AreNumbers self.new.book ns.items (map key_tree keys.now)) }
        ensures grows { Grows self.old.book self.new.book }
        ensures rows { self.new.rows.items ≡ self.old.rows.items }
        ensures kept { IsLedger self.new }
    {
        let mut numbers = Vec::with_capacity(alloc, keys.len())?;
        let mut hint = Hint::new();
        for key in keys {
            let n = self.number_near(&mut hint, key)?;
            numbers.push(n)?;
        }
        Ok(numbers)
    }

    /// The number of a key that was read: the one that stands beside it, else as of any key.
    fn number_read(&mut self, hint: &mut Hint, read: &Read) -> Result<u32, NoMemory>
        requires kept { IsLedger self.old }
        requires sound { IsTrue (is_sound_key (key_tree read.now.key)) }
        requires told { (n : ℕ)
            → read.now.number ≡ Some n
            → slice_get self.old.book n ≡ Some (key_tree read.now.key) }
        ensures number { IfOk result (λ n.
            slice_get self.new.book n ≡ Some (key_tree read.now.key)) }
        ensures grows { Grows self.old.book self.new.book }
        ensures rows { self.new.rows.items ≡ self.old.rows.items }
        ensures kept { IsLedger self.new }
    {
        match read.number {
            Some(n) => Ok(n),
            None => self.number_near(hint, &read.key),
        }
    }

    /// The numbers of keys that were read. Those that have none beside them may get one.
    pub fn numbers_read(&mut self, alloc: Global, reads: &[Read]) -> Result<Vec<u32>, NoMemory>
        requires kept { IsLedger self.old }
        requires sound { AreSoundKeys (keys_of (map read_tree reads.now)) }
        requires told { AreTold self.old.book (map read_tree reads.now) }
        ensures numbers { IfOk result (λ ns.
            AreNumbers self.new.book ns.items (keys_of (map read_tree reads.now))) }
        ensures grows { Grows self.old.book self.new.book }
        ensures rows { self.new.rows.items ≡ self.old.rows.items }
        ensures kept { IsLedger self.new }
    {
        let mut numbers = Vec::with_capacity(alloc, reads.len())?;
        let mut hint = Hint::new();
        for read in reads {
            let n = self.number_read(&mut hint, read)?;
            numbers.push(n)?;
        }
        Ok(numbers)
    }

    /// One more note, of a number that has none.
    pub fn add(
        &mut self,
        by: u32,
        outcome: Outcome,
        reads: Vec<u32>,
        looked: Vec<Range>,
    ) -> Result<(), NoMemory>
        requires kept { IsLedger self.old }
        requires there { by < length self.old.book }
        requires reads { Each (λ j. j < length self.old.book) reads.items }
        requires new { Member by (numbers_of self.old.rows.items) → ⊥ }
        requires sound { IsSoundNote
            (named self.old.book
            (record { key = by; outcome = outcome; reads = reads.items; looked = looked.items })) }
        ensures rows { OnOk result (
            self.new.rows.items
            ≡ self.old.rows.items
            ++ record { by = by; outcome = outcome; reads = reads; looked = looked } ∷ []) }
        ensures err { OnErr result (self.new.rows.items ≡ self.old.rows.items) }
        ensures book { self.new.book ≡ self.old.book }
        ensures kept { IsLedger self.new }
    {
        let r = self.rows.len();
        if r >= MOST {
            return Err(NoMemory);
        }
        give_place(&mut self.row_of, by)?;
        self.rows.push(Row {
            by,
            outcome,
            reads,
            looked,
        })?;
        put(&mut self.row_of, by, r);
        Ok(())
    }

    /// The row at a place goes, and the last one takes its place. The numbers of both are noted.
    fn take(&mut self, r: usize, moved: &mut Vec<u32>) -> Row<Outcome, Range>
        requires kept { IsSearched self.old }
        requires there { r < length self.old.rows.items }
        requires room { vec_len moved.old + 2 ≤ vec_capacity moved.old }
        ensures row { slice_get self.old.rows.items r ≡ Some result }
        ensures drops { DropsRows self.old self.new (result.by ∷ [])
            moved.old.items moved.new.items }
        ensures kept { IsSearched self.new }
        ensures room { vec_len moved.new ≡ vec_len moved.old + 2 }
        ensures capacity { vec_capacity moved.new ≡ vec_capacity moved.old }
    {
        let last = self.rows[self.rows.len() - 1].by;
        let row = self.rows.swap_remove(r);
        // the last one may be the row itself, which has no place then
        put(&mut self.row_of, last, r);
        take_out(&mut self.row_of, row.by);
        shorten(&mut self.graph, 1);
        moved.push_reserved(row.by);
        moved.push_reserved(last);
        row
    }

    /// The row of a number goes, if there is one.
    fn drop_row(&mut self, n: usize, moved: &mut Vec<u32>)
        requires kept { IsSearched self.old }
        requires room { vec_len moved.old + 2 ≤ vec_capacity moved.old }
        ensures drops { DropsRows self.old self.new (n ∷ []) moved.old.items moved.new.items }
        ensures kept { IsSearched self.new }
        ensures room { vec_len moved.new ≤ vec_len moved.old + 2 }
        ensures capacity { vec_capacity moved.new ≡ vec_capacity moved.old }
    {
        if n >= self.book.len() {
            return;
        }
        match self.row(n as u32) {
            Some(r) => drop(self.take(r, moved)),
            None => {}
        }
    }

    /// The rows of these numbers go.
    fn drop_rows(&mut self, numbers: &[usize], moved: &mut Vec<u32>)
        requires kept { IsSearched self.old }
        requires room { vec_len moved.old + 2 * length numbers.now ≤ vec_capacity moved.old }
        ensures drops { DropsRows self.old self.new numbers.now moved.old.items moved.new.items }
        ensures kept { IsSearched self.new }
    {
        for n in numbers {
            self.drop_row(*n, moved);
        }
    }

    /// Drops the notes that rest on something that was changed, and answers the numbers whose rows
    /// went or have another place. After `NoMemory` the notes and their places are as before.
    pub fn keep(&mut self, alloc: Global, changes: &[Range]) -> Result<Vec<u32>, NoMemory>
        requires kept { IsLedger self.old }
        requires closed { AreClosed (written self.old) }
        ensures the { OnOk result (
            AreTheKept (reaches changes.now) (written self.old) (written self.new)) }
        ensures closed { AreClosed (written self.new) }
        ensures same { IfOk result (λ v.
            (n : ℕ)
            → (Member n v.items → ⊥)
            → slice_index self.new.row_of.items n ≡ slice_index self.old.row_of.items n) }
        ensures below { IfOk result (λ v. Each (λ n. n < length self.old.book) v.items) }
        ensures from { (n : ℕ)
            → Member n (numbers_of self.new.rows.items)
            → Member n (numbers_of self.old.rows.items) }
        ensures err { OnErr result (written self.new ≡ written self.old) }
        ensures rows { OnErr result (self.new.rows ≡ self.old.rows) }
        ensures places { OnErr result (self.new.row_of ≡ self.old.row_of) }
        ensures book { self.new.book ≡ self.old.book }
        ensures kept { IsLedger self.new }
    {
        let numbers = self.book.len();
        let gone = affected(alloc, &mut self.graph, &self.rows, numbers, changes)?;
        let mut moved = Vec::with_capacity(alloc, 2 * gone.len())?;
        self.drop_rows(&gone, &mut moved);
        Ok(moved)
    }

    /// The places of the rows anew, where some of so many are gone.
    pub fn renumber(&mut self, count: usize)
        requires there { Each (λ n. n < length self.old.row_of.items)
            (numbers_of self.old.rows.items) }
        requires apart { AreDistinct (numbers_of self.old.rows.items) }
        requires few { length self.old.rows.items < 2 ^ 32 - 1 }
        requires fewer { length self.old.rows.items ≤ count }
        ensures index { IsIndex (numbers_of self.new.rows.items) self.new.row_of.items }
        ensures rows { self.new.rows.items ≡ self.old.rows.items }
        ensures book { self.new.book ≡ self.old.book }
        ensures graph { self.new.graph
            ≡ option_map (fewer (count - length self.old.rows.items)) self.old.graph }
    {
        number_rows(&mut self.row_of, &self.rows);
        shorten(&mut self.graph, count - self.rows.len());
    }
}
