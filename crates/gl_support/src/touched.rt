//! What was changed, and where it can be seen.
ghost use Rattle.std.specs.Prelude.{◌≡◌};
ghost use Rattle.std.specs.List.{list_any};

use gl_plane::{Changes, Range};

/// Changes that can be seen at places.
pub trait Touched<A> {
    ghost use Rattle.std.specs.Prelude.{◌≡◌, Bool};

    /// The changes can be seen at the place.
    ghost touches: { Self → A → Bool };

    /// Whether the changes can be seen at the place.
    fn touches(&self, place: &A) -> bool
        ensures { result ≡ touches self.now place.now };
}

impl Touched<Range> for Changes {
    ghost use Rattle.gl_plane.specs.Changes.{reaches};

    ghost touches = { reaches };

    fn touches(&self, place: &Range) -> bool {
        Changes::touches(self, place)
    }
}

/// Whether the changes can be seen at one of the places.
pub fn any_touched<A, T: Touched<A>>(changed: &T, looked: &[A]) -> bool
    ensures { result ≡ list_any (T.touches changed.now) looked.now }
{
    looked.iter().any(|a| changed.touches(a))
}
