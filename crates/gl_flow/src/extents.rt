//! Shapes: the extents that a value has at most.
ghost use Rattle.std.specs.Prelude.{◌≡◌, ◌+◌, max, Option};
ghost use Rattle.gl_calculus.specs.Grid.Grid.{extents, size};
ghost use Rattle.gl_calculus.specs.Values.Lift.{hull};
ghost use Rattle.gl_calculus.specs.Forecast.{any_size, flipped, greater_shape, limited, size_of};

use gl_plane::Range;
use std::marker::Model;

/// No array has more rows or columns than it may have cells.
pub const MOST: u16 = gl_plane::MAX_CELLS as u16;

/// Rows and columns.
#[derive(Clone, Copy)]
pub struct Extents {
    pub rows: u16,
    pub cols: u16,
}

impl Model for Extents {
    ghost use Rattle.gl_calculus.specs.Grid.Grid.{Size as Plain};

    ghost Value = { Plain };

    ghost view = { λ a. record { rows = a.rows; cols = a.cols } };

    ghost inverse = { λ p. record { rows = p.rows; cols = p.cols } };
}

/// Extents that no array exceeds.
pub fn any() -> Extents
    ensures { result ≡ any_size }
{
    Extents {
        rows: MOST,
        cols: MOST,
    }
}

/// The extents of a range.
pub fn extents_of(r: &Range) -> Extents
    ensures { result ≡ limited (extents r.now) }
{
    let first = r.first();
    let last = r.last();
    Extents {
        rows: (last.row() + 1 - first.row()).min(MOST),
        cols: (last.col() + 1 - first.col()).min(MOST),
    }
}

/// A scalar counts as one row and one column.
pub fn full(s: Option<Extents>) -> Extents
    ensures { result ≡ size_of s }
{
    match s {
        Some(e) => e,
        None => Extents { rows: 1, cols: 1 },
    }
}

/// The greater extents of two shapes; none where both have none.
pub fn joined(s: Option<Extents>, t: Option<Extents>) -> Option<Extents>
    ensures { result ≡ greater_shape s t }
{
    match s {
        None => match t {
            None => None,
            Some(e) => Some(hull(full(s), e)),
        },
        Some(e) => Some(hull(e, full(t))),
    }
}

fn hull(s: Extents, t: Extents) -> Extents
    ensures { result ≡ hull s t }
{
    Extents {
        rows: s.rows.max(t.rows),
        cols: s.cols.max(t.cols),
    }
}

/// Rows and columns exchanged.
pub fn flipped(s: Extents) -> Extents
    ensures { result ≡ flipped s }
{
    Extents {
        rows: s.cols,
        cols: s.rows,
    }
}

/// One more shape below.
pub fn below(above: Extents, s: Extents) -> Extents
    ensures { result ≡ limited (size (above.rows + s.rows) (max above.cols s.cols)) }
{
    Extents {
        rows: (u32::from(above.rows) + u32::from(s.rows)).min(u32::from(MOST)) as u16,
        cols: above.cols.max(s.cols).min(MOST),
    }
}
