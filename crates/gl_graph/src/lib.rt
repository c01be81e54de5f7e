//! Graphs whose nodes are numbers: which nodes are in a circle, and the greatest weight of a path
//! from a node that is in none.
#![tactic(auto)]

mod closing;
mod cutting;
mod graph;
mod mark;
mod search;
mod state;

pub use graph::{Graph, Place};
pub use mark::Mark;
pub use search::Search;
