//! Whether an oracle is what its sizes are granted.
ghost use Rattle.std.specs.Prelude.{◌≡◌, ◌↔◌, Some, IsTrue, slice_get};
ghost use Rattle.gl_calculus.specs.Evaluation.Oracle.{IsInOrder, sizes_of, ArePermits, grant};

use crate::Blocks;
use crate::granting::entry_behind;
use gl_plane::{Entry, Oracle, Range, Sizes};

/// The oracle has these arrays, its permitted areas lie in the bound apart from each other and hold no content but their roots, and each refused area leaves the bound, holds other content or meets an earlier permitted one.
pub fn is_consistent<B: Blocks>(w: &Oracle, sizes: &Sizes, bound: &Range, blocks: &B) -> bool
    ensures consistent { IsTrue result
        ↔ ((sizes_of w.now ≡ sizes.now) × ArePermits bound.now (B.held blocks.now) w.now) }
    ensures granted { IsTrue result ↔ (w.now ≡ grant bound.now (B.held blocks.now) sizes.now) }
{
    let entries = w.len();
    let mut i = 0;
    while let Some(array) = sizes.at(i) {
        if !is_at(w, i, entry_behind(w, i, array, bound, blocks)) {
            return false;
        }
        i += 1;
    }
    i == entries
}

/// The entry stands at this place.
fn is_at(w: &Oracle, i: usize, entry: Entry) -> bool
    ensures found { IsTrue result ↔ (slice_get w.now i ≡ Some entry) }
    ensures ordered { IsInOrder w.now }
{
    match w.at(i) {
        Some(found) => found == entry,
        None => false,
    }
}
