//! Steps of a sheet that can be undone and done again.
#![tactic(auto)]

mod changes;
mod history;
mod rings;
mod steps;

pub use changes::Change;
pub use history::History;
pub use steps::{Step, step_of};
