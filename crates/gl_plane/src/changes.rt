//! What changed between two calculations, as ranges.
ghost use Rattle.std.specs.Prelude.{◌≡◌, ◌++◌, ◌==◌, ◌||◌, ◌*◌, ◌^◌, ◌<◌, ◌≤◌, [], true, length};
ghost use Rattle.std.specs.Prelude.{OnOk, OnErr, vec_len};
ghost use Rattle.std.specs.List.{list_any};
ghost use Rattle.gl_calculus.specs.Grid.Grid.{addresses, covers};
ghost use Rattle.gl_plane.specs.Changes.{is_covered, reaches, hull_covers, Within, AreHulls};
ghost use Rattle.gl_plane.specs.Changes.{AreWider, IsWithin};

use crate::{Addr, NoMemory, Range};
use std::alloc::Global;
use std::marker::Model;

/// The ranges of a block.
const BLOCK: usize = 64;

/// Ranges whose addresses changed.
#[derive(Drop)]
pub struct Changes {
    ranges: Vec<Range>,
    // for each block of ranges, one that covers all that they do
    hulls: Vec<Range>,
    // covers all that the ranges do, so that most places are told by one comparison
    hull: Option<Range>,
}

impl Model for Changes {
    ghost use Rattle.std.specs.Prelude.{List};
    ghost use Rattle.gl_calculus.specs.Grid.Grid.{Range as Plain};
    ghost use Rattle.gl_plane.specs.Changes.{IsHull, AreHulls};

    ghost Value = { List Plain };

    ghost view = { λ a. a.ranges.items };

    ghost invariant = { λ a. IsHull a.hull a.ranges.items
        × AreHulls 0 a.ranges.items a.hulls.items };
}

impl Changes {
    /// No changes. It takes no memory yet.
    pub fn new(alloc: Global) -> Changes
        ensures { result ≡ [] }
    {
        Changes {
            ranges: Vec::new(alloc),
            hulls: Vec::new(alloc),
            hull: None,
        }
    }

    /// Adds ranges; after `NoMemory` the changes are as before.
    pub fn add(&mut self, more: &[Range]) -> Result<(), NoMemory>
        ensures ok { OnOk result (self.new ≡ self.old ++ more.now) }
        ensures err { OnErr result (self.new ≡ self.old) }
    {
        // hulls that are wider than they need be cover what they did
        widen_all(&mut self.hulls, self.ranges.len(), more)?;
        self.ranges.extend_from_slice(more)?;
        self.hull = widened(self.hull, more);
        Ok(())
    }

    /// No range was added.
    pub fn is_empty(&self) -> bool
        ensures { result ≡ (length self.now == 0) }
    {
        self.ranges.is_empty()
    }

    /// Some address of the range has changed.
    ///
    /// The time is that of one comparison where the range lies apart from all changes, and
    /// otherwise that of one for each block of 64 ranges that were added one after the other, and
    /// of one for each range of the blocks that the range lies near.
    pub fn touches(&self, r: &Range) -> bool
        ensures { result ≡ reaches self.now r.now }
    {
        match &self.hull {
            Some(hull) => overlap(r, hull) && overlap_some(r, &self.ranges, &self.hulls),
            None => false,
        }
    }
}

/// Some address of the first range is one of the second.
fn overlap(r: &Range, c: &Range) -> bool
    ensures { result ≡ list_any (covers c.now) (addresses r.now) }
{
    let _first = (r.first, c.first);
    r.meets(c)
}

fn overlap_some(r: &Range, ranges: &[Range], hulls: &[Range]) -> bool
    requires { AreHulls 0 ranges.now hulls.now }
    ensures { result ≡ list_any (λ c. list_any (covers c) (addresses r.now)) ranges.now }
{
    let mut i = 0;
    while i < ranges.len() {
        if i % BLOCK == 0 && !overlap(r, &hulls[i / BLOCK]) {
            i += BLOCK;
        } else if overlap(r, &ranges[i]) {
            return true;
        } else {
            i += 1;
        }
    }
    false
}

/// Widens the hull of a block, which may be the next one, so that it covers the range.
fn widen(hulls: &mut Vec<Range>, block: usize, r: &Range) -> Result<(), NoMemory>
    requires { block ≤ vec_len hulls.old }
    ensures wider { AreWider hulls.old.items hulls.new.items }
    ensures ok { OnOk result (IsWithin hulls.new.items block r.now) }
{
    if block < hulls.len() {
        hulls[block] = hull_of(&hulls[block], r);
    } else {
        hulls.push(*r)?;
    }
    Ok(())
}

/// Widens the hulls for ranges that come at the place `from` and behind.
fn widen_all(hulls: &mut Vec<Range>, from: usize, more: &[Range]) -> Result<(), NoMemory>
    requires few { from < 2 ^ 63 }
    requires enough { from ≤ 64 * vec_len hulls.old }
    ensures wider { AreWider hulls.old.items hulls.new.items }
    ensures ok { OnOk result (AreHulls from more.now hulls.new.items) }
{
    for i in 0..more.len() {
        widen(hulls, (from + i) / BLOCK, &more[i])?;
    }
    Ok(())
}

/// The least range that covers both.
#[tactic(auto, using(crate::proofs::Ranges::around_both))]
fn hull_of(a: &Range, b: &Range) -> Range
    ensures { Within (λ p. covers a.now p || covers b.now p) (covers result) }
{
    let (first, last) = (a.first, a.last);
    let (top, bottom) = (b.first, b.last);
    let corner = Addr {
        row: first.row.min(top.row),
        col: first.col.min(top.col),
    };
    let end = Addr {
        row: last.row.max(bottom.row),
        col: last.col.max(bottom.col),
    };
    Range::new(corner, end)
}

/// A hull that covers the range, too.
fn around(hull: Option<Range>, r: &Range) -> Range
    ensures { Within (λ a. hull_covers hull a || covers r.now a) (covers result) }
{
    match hull {
        None => *r,
        Some(h) => hull_of(&h, r),
    }
}

/// A hull that covers the ranges, too.
fn widened(hull: Option<Range>, more: &[Range]) -> Option<Range>
    ensures { Within (λ a. hull_covers hull a || is_covered more.now a) (hull_covers result) }
{
    let mut wide = hull;
    for r in more {
        wide = Some(around(wide, r));
    }
    wide
}
