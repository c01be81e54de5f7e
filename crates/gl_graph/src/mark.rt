//! What is known of a node.

/// What a search knows of a node.
#[derive(Clone, Copy, PartialEq, Eq)]
pub enum Mark {
    /// nothing yet
    New,
    /// it is at this place of those that are being searched
    Open(usize),
    /// it is in no circle, and this is the greatest weight of a path from it, where it leads to no
    /// circle
    Plain(u32),
    /// it is in a circle
    Circle,
}
