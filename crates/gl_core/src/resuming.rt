//! What a round knows at its start.
ghost use Rattle.std.specs.Prelude.{◌≡◌, ◌<◌, Some, true, length, map, filter, slice_get};
ghost use Rattle.std.specs.Prelude.{IfOk, IfSome};
ghost use Rattle.gl_calculus.specs.Computation.Lists.{AreDistinct};
ghost use Rattle.gl_machine.specs.Remembered.{AreClosed};
ghost use Rattle.gl_calculus.specs.Evaluation.Key as K;
ghost use Rattle.gl_calculus.specs.Values.Value as V;
ghost use Rattle.gl_support.specs.{Reach.has, Rows.notes_of};
ghost use Rattle.gl_demand.specs.View.{key_tree};
ghost use Rattle.gl_core.specs.Numbers.{Each, keys_at, numbers_of, AreNumbers, Grows};
ghost use Rattle.gl_core.specs.{Ledger.written, Ledger.IsLedger, Rested.IsRested, Carry.IsCarry};
ghost use Rattle.gl_core.specs.Resuming.{IsClosure, IsResumed, Resumes};

use crate::answers::CoreFault;
use crate::beginning::begun;
use crate::book::Book;
use crate::carry::Carry;
use crate::closure::closure;
use crate::entries::Entries;
use crate::ledger::Ledger;
use gl_demand::{Key, MAX_DEMANDED};
use gl_plane::{Addr, NoMemory};
use gl_value::Env;
use std::alloc::Global;

/// The number at a place of a list. The greatest number, behind the end, is that of no key.
fn number_at(numbers: &[u32], at: usize) -> u32 {
    match numbers.get(at) {
        Some(n) => *n,
        None => u32::MAX,
    }
}

/// The place behind that of a number, which is looked for at a place and at the next one.
fn behind(numbers: &[u32], at: usize, n: u32) -> usize {
    let next = at.wrapping_add(1);
    if number_at(numbers, at) == n {
        next
    } else if number_at(numbers, next) == n {
        next.wrapping_add(1)
    } else {
        at
    }
}

/// The number of a key, if it is one of these.
fn guessed(book: &Book, guesses: &[u32], key: &Key) -> Option<u32>
    ensures { IfSome result (λ n. slice_get book.now n ≡ Some (key_tree key.now)) }
{
    for n in guesses {
        if book.is_at(*n as usize, key) {
            return Some(*n);
        }
    }
    None
}

/// The number of a cell of the sheet, which is likely to be one of these.
fn top_number(ledger: &mut Ledger, guesses: &[u32], a: Addr) -> Result<u32, NoMemory>
    requires { IsLedger ledger.old }
    ensures number { IfOk result (λ n. slice_get ledger.new.book n ≡ Some (K.Cell V.Top a)) }
    ensures grows { Grows ledger.old.book ledger.new.book }
    ensures rows { ledger.new.rows.items ≡ ledger.old.rows.items }
    ensures kept { IsLedger ledger.new }
{
    let key = Key::Cell(Env::Top, a);
    match guessed(&ledger.book, guesses, &key) {
        Some(n) => Ok(n),
        None => ledger.number(key),
    }
}

/// The numbers of cells of the sheet. They mostly stand in this order among those of the round
/// before, and else side by side.
fn top_numbers(
    alloc: Global,
    ledger: &mut Ledger,
    places: &[Addr],
    before: &[u32],
) -> Result<Vec<u32>, NoMemory>
    requires { IsLedger ledger.old }
    ensures numbers { IfOk result
        (λ ns. AreNumbers ledger.new.book ns.items (map (K.Cell V.Top) places.now)) }
    ensures grows { Grows ledger.old.book ledger.new.book }
    ensures rows { ledger.new.rows.items ≡ ledger.old.rows.items }
    ensures kept { IsLedger ledger.new }
{
    let mut numbers = Vec::with_capacity(alloc, places.len())?;
    let mut at = 0usize;
    let mut next = 0u32;
    for a in places {
        let first = number_at(before, at);
        let second = number_at(before, at.wrapping_add(1));
        let n = top_number(ledger, &[first, second, next], *a)?;
        numbers.push(n)?;
        at = behind(before, at, n);
        next = n.wrapping_add(1);
    }
    Ok(numbers)
}

/// How many of the numbers have notes.
fn count_noted(ledger: &Ledger, numbers: &[u32]) -> usize
    requires { IsLedger ledger.now }
    ensures { result ≡ length (filter (has (numbers_of ledger.now.rows.items)) numbers.now) }
{
    let mut count = 0usize;
    for i in 0..numbers.len() {
        if ledger.row(numbers[i]).is_some() {
            count += 1;
        }
    }
    count
}

/// The numbers of the seeds, and those that they reach through notes.
fn reached(alloc: Global, seeds: Vec<u32>, ledger: &Ledger) -> Result<Vec<u32>, NoMemory>
    requires kept { IsLedger ledger.now }
    requires closed { AreClosed (notes_of ledger.now.rows.items) }
    requires below { Each (λ n. n < length ledger.now.book) seeds.items }
    requires apart { AreDistinct seeds.items }
    ensures { IfOk result (λ all. IsClosure ledger.now seeds.items all.items) }
{
    if count_noted(ledger, &seeds) == ledger.rows.len() {
        // each note is that of a seed
        return Ok(seeds);
    }
    closure(alloc, seeds, ledger)
}

/// The numbers that are known at the start.
fn known(
    alloc: Global,
    places: &[Addr],
    before: &[u32],
    ledger: &mut Ledger,
) -> Result<Vec<u32>, NoMemory>
    requires kept { IsLedger ledger.old }
    requires closed { AreClosed (written ledger.old) }
    requires apart { AreDistinct (map (K.Cell V.Top) places.now) }
    ensures known { IfOk result
        (λ all. IsResumed ledger.new (map (K.Cell V.Top) places.now) all.items) }
    ensures notes { written ledger.new ≡ written ledger.old }
    ensures kept { IsLedger ledger.new }
{
    let seeds = top_numbers(alloc, ledger, places, before)?;
    reached(alloc, seeds, ledger)
}

/// The seeds and what they reach through notes, each resolved where it has a note. Their numbers are
/// looked for among those of the round before.
fn anew(
    alloc: Global,
    places: &[Addr],
    before: &[u32],
    ledger: &mut Ledger,
) -> Result<Entries, CoreFault>
    requires kept { IsLedger ledger.old }
    requires closed { AreClosed (written ledger.old) }
    requires apart { AreDistinct (map (K.Cell V.Top) places.now) }
    ensures { Resumes (map (K.Cell V.Top) places.now) ledger.old result ledger.new }
{
    let Ok(known) = known(alloc, places, before, ledger) else {
        return Err(CoreFault::NoMemory);
    };
    if known.len() > MAX_DEMANDED {
        return Err(CoreFault::Work);
    }
    match begun(alloc, known, ledger) {
        Ok(entries) => Ok(entries),
        Err(NoMemory) => Err(CoreFault::NoMemory),
    }
}

/// The known keys are these cells of the sheet, in this order.
fn are_cells(book: &Book, known: &[u32], places: &[Addr]) -> bool
    ensures { result ≡ true → keys_at book.now known.now ≡ map (K.Cell V.Top) places.now }
{
    if known.len() != places.len() {
        return false;
    }
    for i in 0..known.len() {
        let n = known[i];
        if !book.is_at(n as usize, &Key::Cell(Env::Top, places[i])) {
            return false;
        }
    }
    true
}

/// The keys of the round before, where they are the seeds, and else the seeds anew.
fn resumed_seeds(
    alloc: Global,
    places: &[Addr],
    entries: Entries,
    ledger: &mut Ledger,
) -> Result<Entries, CoreFault>
    requires kept { IsLedger ledger.old }
    requires closed { AreClosed (written ledger.old) }
    requires apart { AreDistinct (map (K.Cell V.Top) places.now) }
    requires rested { IsRested ledger.old entries }
    ensures { Resumes (map (K.Cell V.Top) places.now) ledger.old result ledger.new }
{
    if are_cells(&ledger.book, &entries.known, places) {
        return Ok(entries);
    }
    anew(alloc, places, &entries.known, ledger)
}

/// The seeds and what they reach through notes, each resolved where it has a note, by what the round
/// before left.
pub fn resumed(
    alloc: Global,
    places: &[Addr],
    carry: Carry,
    ledger: &mut Ledger,
) -> Result<Entries, CoreFault>
    requires kept { IsLedger ledger.old }
    requires closed { AreClosed (written ledger.old) }
    requires apart { AreDistinct (map (K.Cell V.Top) places.now) }
    requires carry { IsCarry ledger.old carry }
    ensures { Resumes (map (K.Cell V.Top) places.now) ledger.old result ledger.new }
{
    match carry {
        Carry::Seeds(entries) => resumed_seeds(alloc, places, entries, ledger),
        Carry::Numbers(before) => anew(alloc, places, &before, ledger),
    }
}
