//! Granting permits.
ghost use Rattle.std.specs.Prelude.{◌≡◌, IsTrue, IfOk, take};
ghost use Rattle.std.specs.List.{list_all, list_any};
ghost use Rattle.gl_calculus.specs.Grid.Grid.{area, grid, lies_in, meets};
ghost use Rattle.gl_calculus.specs.Evaluation.Oracle.{ArePermits, is_free, grant};
ghost use Rattle.gl_calculus.specs.Values.Value.{Permitted, Refused};
ghost use Rattle.gl_grant.specs.Granted.{taken_by, entry_behind, fits_grid};

use crate::Blocks;
use gl_plane::{Addr, Entry, NoMemory, Oracle, Permit, Range, Size, Sizes};
use std::alloc::Global;

/// The permits of these arrays: in their order each is permitted where its area lies in the bound,
/// holds no content but its root, and meets no area permitted before. So permitted areas are
/// disjoint.
pub fn grant<B: Blocks>(
    alloc: Global,
    sizes: &Sizes,
    bound: &Range,
    blocks: &B,
) -> Result<Oracle, NoMemory>
    ensures granted { IfOk result (λ w. w ≡ grant bound.now (B.held blocks.now) sizes.now) }
    ensures permits { IfOk result (ArePermits bound.now (B.held blocks.now)) }
{
    let mut granted = Oracle::new(alloc);
    while let Some(array) = sizes.at(granted.len()) {
        let entry = entry_behind(&granted, granted.len(), array, bound, blocks);
        if granted.push(entry).is_err() {
            return Err(NoMemory);
        }
    }
    Ok(granted)
}

/// The entry of an array behind the first entries of an oracle.
pub fn entry_behind<B: Blocks>(
    w: &Oracle,
    before: usize,
    array: (Addr, Size),
    bound: &Range,
    blocks: &B,
) -> Entry
    requires { IsTrue (list_all fits_grid (take before w.now)) }
    ensures value { result ≡ entry_behind bound.now (B.held blocks.now) (take before w.now) array }
    ensures fits { IsTrue (fits_grid result) }
{
    let root = array.0;
    let size = array.1;
    let permit = if is_free(w, before, root, size, bound, blocks) {
        Permit::Permitted
    } else {
        Permit::Refused
    };
    Entry { root, size, permit }
}

/// The area lies in the bound, holds no content but its root, and meets no area of the first entries.
fn is_free<B: Blocks>(
    w: &Oracle,
    before: usize,
    root: Addr,
    size: Size,
    bound: &Range,
    blocks: &B,
) -> bool
    requires { IsTrue (list_all fits_grid (take before w.now)) }
    ensures value { result
        ≡ is_free bound.now (B.held blocks.now) (taken_by (take before w.now)) root
        (area root size) }
    ensures on_grid { IsTrue (lies_in bound.now grid) }
{
    match root.area_within(size, bound) {
        None => false,
        Some(area) => { blocks.blocked(root, &area).is_none() && !meets_first(w, before, &area) }
    }
}

/// A permitted area of the first entries meets this one.
fn meets_first(w: &Oracle, before: usize, area: &Range) -> bool
    requires { IsTrue (list_all fits_grid (take before w.now)) }
    ensures { result ≡ list_any (meets area.now) (taken_by (take before w.now)) }
{
    match w.first_meeting(area, 0) {
        None => false,
        Some(found) => found.0 < before,
    }
}
