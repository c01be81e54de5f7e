//! Permits: which arrays may spill beside each other, and what stands in the way of the others.
#![tactic(auto)]

mod consistency;
mod granting;
mod obstacles;

ghost use Rattle.gl_grant.specs.Laws.{SizesFixPermits};

pub use consistency::is_consistent;
use gl_plane::{Addr, Range};
pub use granting::grant;
pub use obstacles::{Obstacle, blocker};

/// The addresses that have content, as far as permits ask for them.
pub trait Blocks {
    ghost use Rattle.std.specs.Prelude.{◌≡◌, Bool, ◌&&◌, not};
    ghost use Rattle.std.specs.List.{find};
    ghost use Rattle.gl_calculus.specs.Grid.Grid.{Addr as Plain, same_addr, addresses};

    /// The address has content.
    ghost held: { Self → Plain → Bool };

    /// The first address of the area, in row-major order, that has content and is not the root.
    fn blocked(&self, root: Addr, area: &Range) -> Option<Addr>
        ensures { result
            ≡ find (λ b. held self.now b && not (same_addr b root)) (addresses area.now) };
}

/// Consistency leaves no choice: sizes have one consistent oracle.
pub fn sizes_fix_permits()
    ensures { SizesFixPermits }
{}
