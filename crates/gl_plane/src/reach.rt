//! The entries that meet a range, by how far down and right each block of entries reaches.
ghost use Rattle.std.specs.Prelude.{◌≡◌, ◌≤◌, ◌<◌, ◌⊎◌, [], drop, length, slice_index, IsTrue};
ghost use Rattle.std.specs.Prelude.{IfOk, OnOk, OnErr, vec_len};
ghost use Rattle.gl_calculus.specs.Evaluation.Oracle.{IsInOrder};
ghost use Rattle.gl_plane.specs.Reach.{first_from, spills_into, lowest_row, last_column, AreBounds};
ghost use Rattle.gl_plane.specs.Reach.{IsRaised, IsPassed};

use crate::{Entry, NoMemory, Permit, Range};
use std::alloc::Global;

/// The entries of a block.
pub const BLOCK: usize = 64;

/// The entries of a block of blocks.
pub const FAR: usize = 4096;

/// How far down and right the entries of each block reach.
#[derive(Drop)]
pub struct Reaches {
    /// For each block, a row below which none of its entries reaches.
    pub rows: Vec<u16>,
    /// For each block, a column right of which none of them reaches.
    pub columns: Vec<u16>,
}

impl Reaches {
    /// Those of no entries.
    pub fn new(alloc: Global) -> Reaches
        ensures rows { result.rows.items ≡ [] }
        ensures columns { result.columns.items ≡ [] }
    {
        Reaches {
            rows: Vec::new(alloc),
            columns: Vec::new(alloc),
        }
    }

    /// The same ones once more.
    pub fn copy(&self, alloc: Global) -> Result<Reaches, NoMemory>
        ensures rows { IfOk result (λ r. r.rows.items ≡ self.now.rows.items) }
        ensures columns { IfOk result (λ r. r.columns.items ≡ self.now.columns.items) }
    {
        Ok(Reaches {
            rows: Vec::from_slice(alloc, &self.rows)?,
            columns: Vec::from_slice(alloc, &self.columns)?,
        })
    }

    /// No entry of the block reaches the range.
    fn fall_short(&self, block: usize, range: &Range) -> bool
        requires rows { block < vec_len self.now.rows }
        requires columns { block < vec_len self.now.columns }
        ensures { IsTrue result
            → (slice_index self.now.rows.items block < range.now.first.row)
            ⊎ (slice_index self.now.columns.items block < range.now.first.col) }
    {
        self.rows[block] < range.first.row() || self.columns[block] < range.first.col()
    }
}

/// The entry is permitted, and its area exists and meets the range.
fn spills_into(entry: &Entry, range: &Range) -> bool
    ensures { result ≡ spills_into range.now entry.now }
{
    match (entry.permit, entry.root.area(entry.size)) {
        (Permit::Permitted, Some(area)) => area.meets(range),
        _ => false,
    }
}

/// The last row of what the entry spills, or 0.
pub fn lowest_row(entry: &Entry) -> u16
    ensures { result ≡ lowest_row entry.now }
{
    match (entry.permit, entry.root.area(entry.size)) {
        (Permit::Permitted, Some(area)) => area.last.row,
        _ => 0,
    }
}

/// The last column of what the entry spills, or 0.
pub fn last_column(entry: &Entry) -> u16
    ensures { result ≡ last_column entry.now }
{
    match (entry.permit, entry.root.area(entry.size)) {
        (Permit::Permitted, Some(area)) => area.last.col,
        _ => 0,
    }
}

/// Keeps at least this row or column for a block, which may be the next one.
pub fn raise(reaches: &mut Vec<u16>, block: usize, reach: u16) -> Result<(), NoMemory>
    requires { block ≤ vec_len reaches.old }
    ensures ok { OnOk result (IsRaised reaches.old.items reaches.new.items block reach) }
    ensures err { OnErr result (reaches.new.items ≡ reaches.old.items) }
{
    if block < reaches.len() {
        reaches[block] = reaches[block].max(reach);
    } else {
        reaches.push(reach)?;
    }
    Ok(())
}

/// How many entries from the place `i` on don't spill into the range, as their block doesn't reach it.
fn passed(entries: &[Entry], near: &Reaches, far: &Reaches, range: &Range, i: usize) -> usize
    requires here { i < length entries.now }
    requires near { AreBounds 64 entries.now near.now.rows.items near.now.columns.items }
    requires far { AreBounds 4096 entries.now far.now.rows.items far.now.columns.items }
    ensures passed { IsPassed range.now entries.now i result }
    ensures few { result ≤ 4096 }
{
    if i % FAR == 0 && far.fall_short(i / FAR, range) {
        FAR
    } else if i % BLOCK == 0 && near.fall_short(i / BLOCK, range) {
        BLOCK
    } else {
        0
    }
}

/// The first entry, from the place `from` on, that spills into the range.
pub fn meeting_from(
    entries: &[Entry],
    near: &Reaches,
    far: &Reaches,
    range: &Range,
    from: usize,
) -> Option<(usize, Entry)>
    requires ordered { IsInOrder entries.now }
    requires near { AreBounds 64 entries.now near.now.rows.items near.now.columns.items }
    requires far { AreBounds 4096 entries.now far.now.rows.items far.now.columns.items }
    ensures { result ≡ first_from (spills_into range.now) from (drop from entries.now) }
{
    let bottom = range.last.row();
    let mut i = from;
    while i < entries.len() {
        let passed = passed(entries, near, far, range, i);
        if passed > 0 {
            i += passed;
        } else {
            let entry = entries[i];
            if entry.root.row() > bottom {
                return None;
            }
            if spills_into(&entry, range) {
                return Some((i, entry));
            }
            i += 1;
        }
    }
    None
}
