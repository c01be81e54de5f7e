//! The place of an address in an index.
ghost use Rattle.gl_calculus.specs.Grid.Grid.{AreInOrder};
ghost use Rattle.gl_merge.specs.{Index.places, Spot.IsSpot};

use gl_plane::Addr;

/// Where an address stands: at a place, or before the one at a place.
#[derive(Clone, Copy)]
pub(crate) enum Spot {
    Found(usize),
    Gap(usize),
}

/// By halves.
pub(crate) fn spot_of(index: &[(Addr, u32)], a: Addr) -> Spot
    requires { AreInOrder (places index.now) }
    ensures { IsSpot (places index.now) a result }
{
    let mut low = 0;
    let mut high = index.len();
    while low < high {
        let middle = low + (high - low) / 2;
        let place = index[middle].0;
        if place == a {
            return Spot::Found(middle);
        }
        if place.is_before(a) {
            low = middle + 1;
        } else {
            high = middle;
        }
    }
    Spot::Gap(low)
}
