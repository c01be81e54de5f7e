//! The formula cells, by number.
ghost use Rattle.std.specs.Prelude.{ℕ, IsTrue, IfSome, IfNone};
ghost use Rattle.gl_flow.specs.Places.{are_in_order, StandsAt};

use gl_plane::Addr;

/// The number of the formula cell at an address.
pub fn number_of(places: &[Addr], a: Addr) -> Option<usize>
    requires { IsTrue (are_in_order places.now) }
    ensures found { IfSome result (λ k. StandsAt places.now a k) }
    ensures none { IfNone result ((k : ℕ) → StandsAt places.now a k → ⊥) }
{
    let mut low = 0;
    let mut high = places.len();
    while low < high {
        let middle = low + (high - low) / 2;
        let b = places[middle];
        if b.is_before(a) {
            low = middle + 1;
        } else if a.is_before(b) {
            high = middle;
        } else {
            return Some(middle);
        }
    }
    None
}
