//! The limits of the grid, of arrays and of texts.

/// The last row of the grid, counted from 1.
pub const LAST_ROW: u16 = 9999;

/// The last column of the grid, counted from 1: `ZZ`.
pub const LAST_COL: u16 = 702;

/// The cells of an array, and of a range that is viewed, are at most so many.
pub const MAX_CELLS: u32 = 10_000;

/// The bytes of a text are at most so many.
pub const MAX_TEXT: usize = 4096;
