//! What stands in the way of a refused root.
ghost use Rattle.std.specs.Prelude.{◌≡◌, ◌↔◌, None, Some, IsSome, option_map};
ghost use Rattle.gl_calculus.specs.Evaluation.Oracle.{ArePermits, entry_at, status, blocker};
ghost use Rattle.gl_calculus.specs.Evaluation.Oracle.{obstacle};
ghost use Rattle.gl_calculus.specs.Grid.Grid.{area};
ghost use Rattle.gl_calculus.specs.Values.Value.{Permitted};
ghost use Rattle.gl_grant.specs.Obstacle.{obstacle_tree};

use crate::Blocks;
use gl_plane::{Addr, Oracle, Permit, Range, Size};

/// Why a root may not spill: its area leaves the bound, or holds this content, or meets the area of this root.
#[derive(Clone, Copy, PartialEq, Eq)]
pub enum Obstacle {
    Edge,
    Content(Addr),
    Root(Addr),
}

/// What stands in the way of a root of a consistent oracle: `None` exactly where it is permitted, else the first obstacle in the order of `Obstacle`.
pub fn blocker<B: Blocks>(w: &Oracle, root: Addr, bound: &Range, blocks: &B) -> Option<Obstacle>
    requires consistent { ArePermits bound.now (B.held blocks.now) w.now }
    requires present { IsSome (entry_at w.now root) }
    ensures value { option_map obstacle_tree result
        ≡ blocker bound.now (B.held blocks.now) w.now root }
    ensures permitted { (result ≡ None) ↔ (status w.now root ≡ Some Permitted) }
{
    match w.entry(root) {
        None => None,
        Some(entry) => match entry.permit {
            Permit::Permitted => None,
            Permit::Refused => first_obstacle(w, entry.root, entry.size, bound, blocks),
        },
    }
}

/// What stands in the way of a root that would have this size.
fn first_obstacle<B: Blocks>(
    w: &Oracle,
    root: Addr,
    size: Size,
    bound: &Range,
    blocks: &B,
) -> Option<Obstacle>
    requires { ArePermits bound.now (B.held blocks.now) w.now }
    ensures { option_map obstacle_tree result
        ≡ obstacle bound.now (B.held blocks.now) w.now root (area root size) }
{
    match root.area_within(size, bound) {
        None => Some(Obstacle::Edge),
        Some(area) => match blocks.blocked(root, &area) {
            Some(content) => Some(Obstacle::Content(content)),
            None => match w.first_meeting(&area, 0) {
                Some(found) => Some(Obstacle::Root(found.1.root)),
                None => None,
            },
        },
    }
}
