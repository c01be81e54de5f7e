//! The first content of a range.
ghost use Rattle.std.specs.Prelude.{◌≡◌, None, IfSome, IfNone, IsSome, Some};
ghost use Rattle.std.specs.BTreeMap.{is_at};
ghost use Rattle.std.specs.Map.{lookup};
ghost use Rattle.gl_calculus.specs.Grid.Grid.{Addr as Plain};
ghost use Rattle.gl_plane.specs.Parts.{IsAddr};
ghost use Rattle.gl_cells.specs.{Sheet.addr_cmp, Search.AtOrAfter, Search.InPlay};

use crate::contents::Contents;
use gl_plane::{Addr, Range};

/// The first address of the range after the one that is given.
fn step(r: &Range, after: Option<Addr>) -> Option<Addr>
    ensures inside { IfSome result (λ b. InPlay r.now.first r.now.last after b) }
    ensures on_grid { IfSome result IsAddr }
    ensures least { IfSome result (λ b.
        (q : Plain) → InPlay r.now.first r.now.last after q → AtOrAfter b q) }
    ensures none { IfNone result ((q : Plain) → ¬ (InPlay r.now.first r.now.last after q)) }
{
    let first = r.first();
    let last = r.last();
    let Some(a) = after else {
        return Some(first);
    };
    if a.row < first.row {
        Some(first)
    } else if last.row < a.row {
        None
    } else if a.col < first.col {
        Some(Addr {
            row: a.row,
            col: first.col,
        })
    } else if a.col < last.col {
        Some(Addr {
            row: a.row,
            col: a.col + 1,
        })
    } else if a.row < last.row {
        Some(Addr {
            row: a.row + 1,
            col: first.col,
        })
    } else {
        None
    }
}

/// The first address of the range with content, after the one that is given. Each step passes at
/// least one content, and then all of its row that is outside the range.
pub fn next_in(map: &Contents, r: &Range, after: Option<Addr>) -> Option<Addr>
    ensures found { IfSome result (λ a.
        InPlay r.now.first r.now.last after a × IsSome (lookup (is_at (addr_cmp a)) map.now)) }
    ensures least { IfSome result (λ a.
        (q : Plain)
        → InPlay r.now.first r.now.last after q
        → IsSome (lookup (is_at (addr_cmp q)) map.now)
        → AtOrAfter a q) }
    ensures none { IfNone result
        ((q : Plain) → InPlay r.now.first r.now.last after q → lookup (is_at (addr_cmp q)) map.now ≡ None) }
{
    let mut at = step(r, after);
    while let Some(from) = at {
        let a = map.first_from(from)?;
        if r.covers(a) {
            return Some(a);
        }
        at = step(r, Some(a));
    }
    None
}
