//! The whole calculation of a sheet, round by round, and what is held of it.
#![tactic(auto)]

mod answers;
mod calc;
mod calculating;
mod collecting;
mod ending;
mod engine;
mod holding;
mod keeping;
mod marking;
mod placing;
mod reasons;
mod round;
mod showing;
mod starting;
mod table;
mod tables;

pub use answers::{Answer, SpentKind, Why};
pub use calc::Calc;
pub use engine::Engine;

/// The rounds that may be made beyond one for each formula.
pub const EXTRA_ROUNDS: u32 = 8;

/// The rounds of a calculation whose tables are kept for the next.
pub const KEPT_ROUNDS: usize = 8;
