//! The sheet: contents by address.
#![tactic(auto)]

mod batch;
mod cells;
mod clear;
mod content;
mod contents;
mod fault;
mod hint;
mod plain;
mod search;
mod table;

pub use cells::Cells;
pub use content::Content;
pub use fault::PutFault;
pub use hint::Hint;
pub use plain::plain_scalar;

/// The most formulas that a sheet has.
pub const MAX_FORMULAS: usize = 16384;

/// The most contents that a sheet has.
pub const MAX_CONTENTS: usize = 65536;
