//! The machine of picks, notes in their order, and what is ahead of an evaluation. No contract of a run speaks of it.
#![tactic(auto)]

/// Nothing: the crate is its definitions.
pub struct Machine;
