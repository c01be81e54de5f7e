//! Ledgers from tables of notes, and back.
ghost use Rattle.std.specs.Prelude.{◌≡◌, ◌<◌, ◌++◌, ◌∷◌, [], false, Some, length, map, slice_get};
ghost use Rattle.std.specs.Prelude.{OnOk, IfOk};
ghost use Rattle.gl_calculus.specs.Grid.Grid.{Range};
ghost use Rattle.gl_memo.specs.{Notes.notes_of, declared.memo.Noted.Noted};
ghost use Rattle.gl_support.specs.Rows.{note_of};
ghost use Rattle.gl_demand.specs.{View.key_tree, declared.key.Key.Key};
ghost use Rattle.gl_demand.specs.{declared.outcome.Outcome.Outcome};
ghost use Rattle.gl_core.specs.State.{note_tree, note_trees, is_noted, IsSoundNote, AreSoundNotes};
ghost use Rattle.gl_core.specs.Numbers.{Each, key_at, keys_at, named, IsBelow};
ghost use Rattle.gl_core.specs.Ledger.{written, IsLedger};

use crate::book::Book;
use crate::ledger::Ledger;
use gl_demand::{Key, Outcome};
use gl_memo::{Memo, Noted};
use gl_plane::{NoMemory, Range, Share};
use gl_support::Row;
use std::alloc::Global;

/// One more note, of a key that has none.
fn add_note(
    alloc: Global,
    ledger: &mut Ledger,
    key: &Key,
    note: &Noted<Key, Outcome, Range>,
) -> Result<(), NoMemory>
    requires kept { IsLedger ledger.old }
    requires new { is_noted (written ledger.old) (key_tree key.now) ≡ false }
    requires sound { IsSoundNote (note_tree (key.now, note.now)) }
    ensures ok { OnOk result
        (written ledger.new ≡ written ledger.old ++ note_tree (key.now, note.now) ∷ []) }
    ensures kept { IsLedger ledger.new }
{
    let key = key.share()?;
    let by = ledger.number(key)?;
    let reads = ledger.numbers(alloc, &note.reads)?;
    let looked = Vec::from_slice(alloc, &note.looked)?;
    let outcome = note.outcome.share()?;
    ledger.add(by, outcome, reads, looked)
}

/// One more note: that at a place of a table.
fn add_note_at(
    alloc: Global,
    ledger: &mut Ledger,
    notes: &Memo<Key, Outcome, Range>,
    i: usize,
) -> Result<(), NoMemory>
    requires there { i < length (notes_of notes.now) }
    requires kept { IsLedger ledger.old }
    requires sound { AreSoundNotes (note_trees (notes_of notes.now)) }
    requires new { (e : Key × Noted Key Outcome Range) → slice_get (notes_of notes.now) i ≡ Some e
        → is_noted (written ledger.old) (key_tree e.0) ≡ false }
    ensures ok { OnOk result
        ((e : Key × Noted Key Outcome Range) → slice_get (notes_of notes.now) i ≡ Some e
        → written ledger.new ≡ written ledger.old ++ note_tree e ∷ []) }
    ensures kept { IsLedger ledger.new }
{
    let (key, note) = notes.at(i).unwrap();
    add_note(alloc, ledger, key, note)
}

/// The notes of a table, by numbers.
pub fn ledger_of(alloc: Global, notes: &Memo<Key, Outcome, Range>) -> Result<Ledger, NoMemory>
    requires { AreSoundNotes (note_trees (notes_of notes.now)) }
    ensures notes { IfOk result (λ l. written l ≡ note_trees (notes_of notes.now)) }
    ensures kept { IfOk result IsLedger }
{
    let mut ledger = Ledger::new(alloc);
    for i in 0..notes.len() {
        add_note_at(alloc, &mut ledger, notes, i)?;
    }
    Ok(ledger)
}

/// The keys with numbers.
fn keys_of(alloc: Global, book: &Book, numbers: &[u32]) -> Result<Vec<Key>, NoMemory>
    requires { Each (λ n. n < length book.now) numbers.now }
    ensures { IfOk result (λ keys. map key_tree keys.items ≡ keys_at book.now numbers.now) }
{
    let mut keys = Vec::new(alloc);
    for n in numbers {
        keys.push(book.key(*n).share()?)?;
    }
    Ok(keys)
}

/// The note of a row.
fn note_by(
    alloc: Global,
    book: &Book,
    row: &Row<Outcome, Range>,
) -> Result<Noted<Key, Outcome, Range>, NoMemory>
    requires { IsBelow (length book.now) row.now }
    ensures { IfOk result (λ note. (k : Key) → key_tree k ≡ key_at book.now row.now.by
        → note_tree (k, note) ≡ named book.now (note_of row.now)) }
{
    let outcome = row.outcome.share()?;
    let reads = keys_of(alloc, book, &row.reads)?;
    let looked = Vec::from_slice(alloc, &row.looked)?;
    Ok(Noted {
        outcome,
        reads,
        looked,
    })
}

/// One more note: that of a row.
fn insert_row(
    alloc: Global,
    book: &Book,
    notes: &mut Memo<Key, Outcome, Range>,
    row: &Row<Outcome, Range>,
) -> Result<(), NoMemory>
    requires { IsBelow (length book.now) row.now }
    ensures { OnOk result
        (is_noted (note_trees (notes_of notes.old)) (key_at book.now row.now.by) ≡ false
        → note_trees (notes_of notes.new)
        ≡ note_trees (notes_of notes.old) ++ named book.now (note_of row.now) ∷ []) }
{
    let key = book.key(row.by).share()?;
    let note = note_by(alloc, book, row)?;
    notes.insert(key, note)
}

/// The notes as a table.
pub fn table_by(alloc: Global, ledger: &Ledger) -> Result<Memo<Key, Outcome, Range>, NoMemory>
    requires { IsLedger ledger.now }
    ensures { IfOk result (λ m. note_trees (notes_of m) ≡ written ledger.now) }
{
    let mut notes = Memo::new(alloc);
    for i in 0..ledger.rows.len() {
        insert_row(alloc, &ledger.book, &mut notes, &ledger.rows[i])?;
    }
    Ok(notes)
}

/// One more note: that of a row of another ledger, whose book has its keys.
fn add_row(
    alloc: Global,
    copy: &mut Ledger,
    book: &Book,
    row: &Row<Outcome, Range>,
) -> Result<(), NoMemory>
    requires below { IsBelow (length book.now) row.now }
    requires kept { IsLedger copy.old }
    requires new { is_noted (written copy.old) (key_at book.now row.now.by) ≡ false }
    requires sound { IsSoundNote (named book.now (note_of row.now)) }
    ensures ok { OnOk result
        (written copy.new ≡ written copy.old ++ named book.now (note_of row.now) ∷ []) }
    ensures kept { IsLedger copy.new }
{
    let key = book.key(row.by);
    let note = note_by(alloc, book, row)?;
    add_note(alloc, copy, key, &note)
}

/// The same notes once more, in a book of their keys alone.
pub fn copy_ledger(alloc: Global, ledger: &Ledger) -> Result<Ledger, NoMemory>
    requires { IsLedger ledger.now }
    ensures notes { IfOk result (λ l. written l ≡ written ledger.now) }
    ensures kept { IfOk result IsLedger }
{
    let mut copy = Ledger::new(alloc);
    for i in 0..ledger.rows.len() {
        add_row(alloc, &mut copy, &ledger.book, &ledger.rows[i])?;
    }
    Ok(copy)
}
