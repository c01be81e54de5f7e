//! What a forecast says.
use gl_plane::Addr;

/// Whether the calculation of a sheet surely settles.
#[derive(Clone, Copy, PartialEq, Eq)]
pub enum Forecast {
    /// It does, after at most one round more than this height, and no address shows a cycle.
    Yes { height: u32 },
    /// Nothing is sure: this cell is the first that may depend on itself.
    Circle(Addr),
    /// Nothing is told: this cell is the first that calls SHEET, UPDATE, VIEW or G.
    Unknown(Addr),
}
