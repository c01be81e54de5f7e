//! Few ranges for many addresses.
ghost use Rattle.std.specs.Prelude.{◌≡◌, map, IsTrue, IfOk, IfSome, OnOk};
ghost use Rattle.std.specs.List.{list_any};
ghost use Rattle.gl_calculus.specs.Grid.Grid.{range, same_addr, single};
ghost use Rattle.gl_plane.specs.Changes.{AreWhere, is_covered, beside, beside_two, IsBoth};
ghost use Rattle.gl_plane.specs.Parts.{is_ordered};

use crate::{Addr, NoMemory, Range};
use std::alloc::Global;

/// Ranges that together cover exactly these addresses: few of them where neighbours stand next to
/// each other in the list, as those of an edited block do.
#[tactic(auto, using(crate::proofs::Ranges::singles_covered))]
pub fn merged(alloc: Global, places: &[Addr]) -> Result<Vec<Range>, NoMemory>
    ensures { IfOk result (λ v. AreWhere v.items (λ a. list_any (same_addr a) places.now)) }
{
    let ranges = singles(alloc, places)?;
    // the first pass joins addresses to rows or columns, the second one joins those to blocks
    let lines = joined(alloc, &ranges)?;
    joined(alloc, &lines)
}

/// The range of each address.
fn singles(alloc: Global, places: &[Addr]) -> Result<Vec<Range>, NoMemory>
    ensures { IfOk result (λ v. v.items ≡ map single places.now) }
{
    let mut ranges = Vec::new(alloc);
    for a in places {
        ranges.push(Range::new(*a, *a))?;
    }
    Ok(ranges)
}

/// The same addresses by no more ranges.
fn joined(alloc: Global, ranges: &[Range]) -> Result<Vec<Range>, NoMemory>
    ensures { IfOk result (λ v. AreWhere v.items (is_covered ranges.now)) }
{
    let mut fewer = Vec::new(alloc);
    for r in ranges {
        push_joined(&mut fewer, r)?;
    }
    Ok(fewer)
}

/// One more range, joined to the last one where the two make one.
fn push_joined(ranges: &mut Vec<Range>, next: &Range) -> Result<(), NoMemory>
    ensures { OnOk result (AreWhere ranges.new.items (beside ranges.old.items next.now)) }
{
    match ranges.pop() {
        None => ranges.push(*next)?,
        Some(last) => push_two(ranges, &last, next)?,
    }
    Ok(())
}

/// Two more ranges, as one where they make one.
fn push_two(ranges: &mut Vec<Range>, last: &Range, next: &Range) -> Result<(), NoMemory>
    ensures { OnOk result (
        AreWhere ranges.new.items (beside_two ranges.old.items last.now next.now)) }
{
    match one_range(last, next) {
        Some(both) => ranges.push(both)?,
        None => {
            ranges.push(*last)?;
            ranges.push(*next)?;
        }
    }
    Ok(())
}

/// The range of exactly the addresses of both, in either order.
fn one_range(a: &Range, b: &Range) -> Option<Range>
    ensures { IfSome result (IsBoth a.now b.now) }
{
    match followed(a, b) {
        Some(both) => Some(both),
        None => followed(b, a),
    }
}

/// The range of exactly the addresses of both, where the second lies in the first, or goes on from
/// it below or to the right.
fn followed(a: &Range, b: &Range) -> Option<Range>
    ensures { IfSome result (IsBoth a.now b.now) }
{
    if holds(a, b) {
        Some(*a)
    } else if goes_on_below(a, b) || goes_on_right(a, b) {
        Some(Range::new(a.first, b.last))
    } else {
        None
    }
}

/// The second lies in the first.
#[tactic(auto, using(crate::proofs::Ranges::inside))]
fn holds(a: &Range, b: &Range) -> bool
    ensures { IsTrue result → IsBoth a.now b.now a.now }
{
    a.covers(b.first) && a.covers(b.last)
}

/// The second has the same columns, and goes on where the first ends or before.
#[tactic(auto, using(crate::proofs::Ranges::rows_joined))]
fn goes_on_below(a: &Range, b: &Range) -> bool
    ensures both { IsTrue result → IsBoth a.now b.now (range a.now.first b.now.last) }
    ensures ordered { IsTrue result → IsTrue (is_ordered a.now.first b.now.last) }
{
    let (first, last) = (a.first, a.last);
    let (top, bottom) = (b.first, b.last);
    first.col == top.col
        && last.col == bottom.col
        && first.row <= top.row
        && top.row <= last.row + 1
        && last.row <= bottom.row
}

/// The second has the same rows, and goes on where the first ends or before.
#[tactic(auto, using(crate::proofs::Ranges::columns_joined))]
fn goes_on_right(a: &Range, b: &Range) -> bool
    ensures both { IsTrue result → IsBoth a.now b.now (range a.now.first b.now.last) }
    ensures ordered { IsTrue result → IsTrue (is_ordered a.now.first b.now.last) }
{
    let (first, last) = (a.first, a.last);
    let (top, bottom) = (b.first, b.last);
    first.row == top.row
        && last.row == bottom.row
        && first.col <= top.col
        && top.col <= last.col + 1
        && last.col <= bottom.col
}
