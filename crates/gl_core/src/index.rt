//! The places of numbers in a list.
ghost use Rattle.std.specs.Prelude.{◌≡◌, ◌<◌, ◌≤◌, ◌+◌, ◌^◌, ℕ, length, slice_index, set, OnOk};
ghost use Rattle.gl_core.specs.Numbers.{IsPlace};

use crate::counts::lengthen;
use gl_plane::NoMemory;

/// The place of a number: what is read is one more, or 0 where there is none.
pub fn place_in(places: &[u32], n: u32) -> Option<usize>
    ensures { IsPlace (slice_index places.now n) result }
{
    match places.get(n as usize) {
        Some(0) => None,
        Some(next) => Some(*next as usize - 1),
        None => None,
    }
}

/// Room for the place of a number.
pub fn give_place(places: &mut Vec<u32>, n: u32) -> Result<(), NoMemory>
    ensures same { (q : ℕ) → slice_index places.new.items q ≡ slice_index places.old.items q }
    ensures longer { length places.old.items ≤ length places.new.items }
    ensures place { OnOk result (n < length places.new.items) }
{
    lengthen(places, n as usize)
}

/// Notes the place of a number.
pub fn put(places: &mut Vec<u32>, n: u32, place: usize)
    requires there { n < length places.old.items }
    requires fits { place + 1 < 2 ^ 32 }
    ensures { places.new.items ≡ set places.old.items n (place + 1) }
{
    places[n as usize] = place as u32 + 1;
}

/// A number has no place any more.
pub fn take_out(places: &mut Vec<u32>, n: u32)
    requires { n < length places.old.items }
    ensures { places.new.items ≡ set places.old.items n 0 }
{
    places[n as usize] = 0;
}

/// No number has a place.
pub fn forget(places: &mut Vec<u32>)
    ensures none { (q : ℕ) → slice_index places.new.items q ≡ 0 }
    ensures size { length places.new.items ≡ length places.old.items }
{
    for n in 0..places.len() {
        places[n] = 0;
    }
}
