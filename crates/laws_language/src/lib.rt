//! The laws of the grammar: a text is at most one formula or has one first fault, and the canonical text of a formula is read as this formula again. Each is the contract of a function that does nothing.
#![tactic(auto)]

pub mod formulas;
