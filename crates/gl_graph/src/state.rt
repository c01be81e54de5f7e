//! What is kept of a node while it is searched.
use crate::Place;

/// A node some of whose steps are still to come.
#[derive(Clone, Copy, PartialEq, Eq)]
pub struct Frame {
    pub node: u32,
    /// its place among the open nodes
    pub at: usize,
    /// the place of the next step
    pub place: Place,
    /// the greatest weight of a path from a node behind a step so far
    pub high: u32,
    /// a step led to an open node
    pub looped: bool,
}
