//! The earlier formula cells whose areas meet one. Those that end above it are passed by blocks.
ghost use Rattle.std.specs.Prelude.{◌≡◌, ◌≤◌, ◌<◌, ◌+◌, ◌/◌, ◌%◌, ◌∷◌, [], true, max, set, get_or};
ghost use Rattle.std.specs.Prelude.{length, IfOk, IfSome, IfNone};
ghost use Rattle.gl_calculus.specs.Grid.Limits.{max_formulas};
ghost use Rattle.gl_flow.specs.Rivals.{AreBottoms, bottom_row, meets_box, rivals_from};

use crate::boxes::Area;
use gl_plane::NoMemory;
use std::alloc::Global;

/// The formula cells of a block.
const BLOCK: usize = 64;

/// The last row of an area, or 0.
fn bottom_row(area: Option<Area>) -> u32
    ensures { result ≡ bottom_row area }
{
    match area {
        Some(a) => a.bottom,
        None => 0,
    }
}

/// Raises the row that is kept for a block.
fn raise(bottoms: &mut Vec<u32>, i: usize, bottom: u32)
    ensures { bottoms.new.items
        ≡ set bottoms.old.items i (max (get_or bottoms.old.items i 0) bottom) }
{
    if i < bottoms.len() {
        bottoms[i] = bottoms[i].max(bottom);
    }
}

/// The last row of the areas of each block.
pub fn bottoms_of(alloc: Global, areas: &[Option<Area>]) -> Result<Vec<u32>, NoMemory>
    ensures { IfOk result (λ v. AreBottoms areas.now v.items) }
{
    let mut bottoms = vec![in alloc; 0u32; areas.len() / BLOCK + 1]?;
    for k in 0..areas.len() {
        raise(&mut bottoms, k / BLOCK, bottom_row(areas[k]));
    }
    Ok(bottoms)
}

/// A block begins with this number, and all its areas end above this one.
fn is_passed(bottoms: &[u32], area: &Area, j: usize) -> bool
    ensures { result ≡ true → (j % 64 ≡ 0) × (get_or bottoms.now (j / 64) 0 < area.now.first.row) }
{
    match bottoms.get(j / BLOCK) {
        Some(bottom) => j % BLOCK == 0 && *bottom < area.top,
        None => false,
    }
}

/// The formula cell of this number has an area that meets this one.
fn meets_box(areas: &[Option<Area>], area: &Area, j: usize) -> bool
    requires { j < length areas.now }
    ensures { result ≡ meets_box areas.now area.now j }
{
    match areas[j] {
        Some(other) => area.meets(&other),
        None => false,
    }
}

/// The next rival of a formula cell, from a number on, among those before it.
pub fn rival(
    areas: &[Option<Area>],
    bottoms: &[u32],
    area: &Area,
    k: usize,
    from: usize,
) -> Option<usize>
    requires bottoms { AreBottoms areas.now bottoms.now }
    requires inside { k ≤ length areas.now }
    requires few { k ≤ max_formulas }
    ensures some { IfSome result (λ j.
        rivals_from areas.now area.now k from ≡ j ∷ rivals_from areas.now area.now k (j + 1)) }
    ensures inside { IfSome result (λ j. j < k) }
    ensures none { IfNone result (rivals_from areas.now area.now k from ≡ []) }
{
    let mut j = from;
    while j < k {
        if is_passed(bottoms, area, j) {
            j += BLOCK;
        } else if meets_box(areas, area, j) {
            return Some(j);
        } else {
            j += 1;
        }
    }
    None
}
