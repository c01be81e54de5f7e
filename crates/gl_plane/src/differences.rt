//! Where two oracles differ, as ranges.
ghost use Rattle.std.specs.Prelude.{◌≡◌, ◌++◌, [], ◌<◌, length, IfOk, OnOk};
ghost use Rattle.gl_calculus.specs.Calculation.Differences.{AreApart, minus, own_places, by_both};
ghost use Rattle.gl_calculus.specs.Calculation.Differences.{by_entry};
ghost use Rattle.gl_calculus.specs.Calculation.Differences.{by_new, differences};
ghost use Rattle.gl_calculus.specs.Calculation.Memory.{differs_at};
ghost use Rattle.gl_calculus.specs.Evaluation.Oracle.{IsInOrder, entry_at};
ghost use Rattle.gl_plane.specs.Listed.{between, by_entries, by_news, root_apart, ListsEntry};
ghost use Rattle.gl_plane.specs.Listed.{ListsNew};
ghost use Rattle.gl_plane.specs.{Changes.AreWhere, Entries.spilt_area};

use crate::{Addr, Entry, NoMemory, Oracle, Permit, Range};
use std::alloc::Global;

impl Oracle {
    /// Ranges of exactly the addresses that have another status or another cover in the other
    /// oracle: none where the entries are equal, and at most three for each entry that differs.
    #[tactic(auto, using(crate::proofs::Listing::told))]
    pub fn differences(&self, alloc: Global, other: &Oracle) -> Result<Vec<Range>, NoMemory>
        requires apart { AreApart self.now }
        requires other_apart { AreApart other.now }
        ensures tells { IfOk result (λ v. AreWhere v.items (differs_at [] self.now other.now)) }
    {
        match self.first_difference(other) {
            None => Ok(Vec::new(alloc)),
            Some(_) => all_differences(alloc, self, other),
        }
    }
}

fn all_differences(alloc: Global, mine: &Oracle, theirs: &Oracle) -> Result<Vec<Range>, NoMemory>
    ensures all { IfOk result (λ v. v.items ≡ differences mine.now theirs.now) }
    ensures ordered { IfOk result (λ _. IsInOrder mine.now × IsInOrder theirs.now) }
{
    let mut out = Vec::new(alloc);
    push_by_entries(&mut out, mine, theirs)?;
    push_by_new(&mut out, mine, theirs)?;
    Ok(out)
}

/// What the entries of the first oracle say that those of the second don't.
fn push_by_entries(out: &mut Vec<Range>, mine: &Oracle, theirs: &Oracle) -> Result<(), NoMemory>
    ensures ordered { IsInOrder mine.now }
    ensures list { OnOk result (out.new.items ≡ out.old.items ++ by_entries theirs.now mine.now) }
{
    for i in 0..mine.len() {
        push_entry_at(out, mine, theirs, i)?;
    }
    Ok(())
}

#[tactic(auto, using(crate::proofs::Listing::entry_listed))]
fn push_entry_at(
    out: &mut Vec<Range>,
    mine: &Oracle,
    theirs: &Oracle,
    i: usize,
) -> Result<(), NoMemory>
    requires { i < length mine.now }
    ensures { OnOk result (ListsEntry theirs.now mine.now i out.old.items out.new.items) }
{
    match mine.at(i) {
        Some(x) => push_by_entry(out, &x, entry_near(theirs, i, x.root)),
        None => Ok(()),
    }
}

/// What only the second oracle has entries of.
fn push_by_new(out: &mut Vec<Range>, mine: &Oracle, theirs: &Oracle) -> Result<(), NoMemory>
    ensures ordered { IsInOrder theirs.now }
    ensures list { OnOk result (out.new.items ≡ out.old.items ++ by_news mine.now theirs.now) }
{
    for i in 0..theirs.len() {
        push_new_at(out, mine, theirs, i)?;
    }
    Ok(())
}

#[tactic(auto, using(crate::proofs::Listing::new_listed))]
fn push_new_at(
    out: &mut Vec<Range>,
    mine: &Oracle,
    theirs: &Oracle,
    i: usize,
) -> Result<(), NoMemory>
    requires { i < length theirs.now }
    ensures { OnOk result (ListsNew mine.now theirs.now i out.old.items out.new.items) }
{
    match theirs.at(i) {
        Some(y) => push_new(out, &y, entry_near(mine, i, y.root)),
        None => Ok(()),
    }
}

/// The entry at an address. It is not searched for where it stands at this place, as it mostly does
/// in an oracle that differs little.
#[tactic(auto, using(crate::proofs::Listing::found_there))]
fn entry_near(w: &Oracle, i: usize, root: Addr) -> Option<Entry>
    ensures { result ≡ entry_at w.now root }
{
    match w.at(i) {
        Some(x) => {
            if x.root == root {
                Some(x)
            } else {
                w.entry(root)
            }
        }
        None => w.entry(root),
    }
}

fn push_by_entry(out: &mut Vec<Range>, x: &Entry, other: Option<Entry>) -> Result<(), NoMemory>
    ensures { OnOk result (out.new.items ≡ out.old.items ++ by_entry x.now other) }
{
    match other {
        None => push_own(out, x),
        Some(y) => push_by_both(out, x, &y),
    }
}

fn push_new(out: &mut Vec<Range>, y: &Entry, other: Option<Entry>) -> Result<(), NoMemory>
    ensures { OnOk result (out.new.items ≡ out.old.items ++ by_new y.now other) }
{
    match other {
        None => push_own(out, y),
        Some(_) => Ok(()),
    }
}

/// The root of an entry that the other oracle lacks, and its area where it spills.
fn push_own(out: &mut Vec<Range>, x: &Entry) -> Result<(), NoMemory>
    ensures { OnOk result (out.new.items ≡ out.old.items ++ own_places x.now) }
{
    out.push(Range::new(x.root, x.root))?;
    if let Some(area) = spilt_area(x) {
        out.push(area)?;
    }
    Ok(())
}

/// The root of two entries where their permits differ, and what only one of them spills over.
#[tactic(auto, using(crate::proofs::Listing::both_listed))]
fn push_by_both(out: &mut Vec<Range>, x: &Entry, y: &Entry) -> Result<(), NoMemory>
    ensures { OnOk result (out.new.items ≡ out.old.items ++ by_both x.now y.now) }
{
    push_root(out, x, y)?;
    push_areas(out, spilt_area(x), spilt_area(y))
}

/// The root of two entries where their permits differ.
fn push_root(out: &mut Vec<Range>, x: &Entry, y: &Entry) -> Result<(), NoMemory>
    ensures { OnOk result (out.new.items ≡ out.old.items ++ root_apart x.now y.now) }
{
    if y.permit != x.permit {
        out.push(Range::new(x.root, x.root))?;
    }
    Ok(())
}

/// What only one of two areas with the same first corner covers.
fn push_areas(out: &mut Vec<Range>, x: Option<Range>, y: Option<Range>) -> Result<(), NoMemory>
    ensures { OnOk result (out.new.items ≡ out.old.items ++ between x y) }
{
    match (x, y) {
        (Some(a), Some(b)) => {
            push_minus(out, &a, &b)?;
            push_minus(out, &b, &a)
        }
        (Some(a), None) => Ok(out.push(a)?),
        (None, Some(b)) => Ok(out.push(b)?),
        (None, None) => Ok(()),
    }
}

/// What of the first range is not in the second, which has the same first corner: below it, and to
/// its right.
fn push_minus(out: &mut Vec<Range>, a: &Range, b: &Range) -> Result<(), NoMemory>
    ensures { OnOk result (out.new.items ≡ out.old.items ++ minus a.now b.now) }
{
    let (first, last, end) = (a.first, a.last, b.last);
    if end.row < last.row {
        let below = Addr {
            row: end.row + 1,
            col: first.col,
        };
        out.push(Range::new(below, last))?;
    }
    if end.col < last.col {
        let right = Addr {
            row: first.row,
            col: end.col + 1,
        };
        out.push(Range::new(right, last))?;
    }
    Ok(())
}

/// The area that the entry spills, if it does.
fn spilt_area(x: &Entry) -> Option<Range>
    ensures { result ≡ spilt_area x.now }
{
    match x.permit {
        Permit::Permitted => x.root.area(x.size),
        Permit::Refused => None,
    }
}
