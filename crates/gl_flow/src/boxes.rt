//! The areas that formula cells may spill over, also past the grid.
ghost use Rattle.std.specs.Prelude.{◌≡◌};
ghost use Rattle.gl_calculus.specs.Grid.Grid.{area, covers, meets};

use crate::extents::Extents;
use gl_plane::Addr;
use std::marker::Model;

/// The rows and columns of an area, from the first to the last.
#[derive(Clone, Copy)]
pub struct Area {
    pub top: u32,
    pub left: u32,
    pub bottom: u32,
    pub right: u32,
}

impl Model for Area {
    ghost use Rattle.gl_calculus.specs.Grid.Grid.{Range as Plain, range, addr};

    ghost Value = { Plain };

    ghost view = { λ a. range (addr a.left a.top) (addr a.right a.bottom) };

    ghost inverse = { λ p.
        record { top = p.first.row; left = p.first.col; bottom = p.last.row; right = p.last.col } };
}

impl Area {
    /// That of extents from an address.
    pub fn new(a: Addr, s: Extents) -> Area
        ensures { result ≡ area a s }
    {
        Area {
            top: u32::from(a.row()),
            left: u32::from(a.col()),
            bottom: u32::from(a.row()) + u32::from(s.rows) - 1,
            right: u32::from(a.col()) + u32::from(s.cols) - 1,
        }
    }

    /// Some place lies in both.
    pub fn meets(&self, other: &Area) -> bool
        ensures { result ≡ meets self.now other.now }
    {
        self.top <= other.bottom
            && other.top <= self.bottom
            && self.left <= other.right
            && other.left <= self.right
    }

    /// The address lies in the area.
    pub fn covers(&self, a: Addr) -> bool
        ensures { result ≡ covers self.now a }
    {
        self.top <= u32::from(a.row())
            && u32::from(a.row()) <= self.bottom
            && self.left <= u32::from(a.col())
            && u32::from(a.col()) <= self.right
    }
}
