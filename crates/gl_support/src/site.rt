//! Places that a key looks at.
ghost use Rattle.std.specs.Prelude.{◌≡◌, Bool};
ghost use Rattle.std.specs.List.{list_any};
ghost use Rattle.gl_support.specs.Affected.{is_touched};

use gl_plane::Range;

/// A place that a key looks at, and that an edit changes.
pub trait Site {
    /// What the two say of each other.
    ghost touches: { Self → Self → Bool };

    /// Whether a change of the other place can be seen at this one.
    fn touches(&self, other: &Self) -> bool
        ensures { result ≡ touches self.now other.now };
}

impl Site for Range {
    ghost use Rattle.gl_calculus.specs.Grid.Grid.{meets};

    ghost touches = { meets };

    fn touches(&self, other: &Range) -> bool {
        self.meets(other)
    }
}

fn touches_some<A: Site>(site: &A, changed: &[A]) -> bool
    ensures { result ≡ list_any (λ c. A.touches site.now c) changed.now }
{
    changed.iter().any(|c| site.touches(c))
}

/// Whether one of the sites touches one of the changed ones.
pub fn touch<A: Site>(looked: &[A], changed: &[A]) -> bool
    ensures { result ≡ is_touched A.touches looked.now changed.now }
{
    looked.iter().any(|site| touches_some(site, changed))
}
