//! The laws of the calculus and of the machine of picks, each the contract of a function that does nothing.
#![tactic(auto)]

pub mod calculation;
pub mod explanations;
pub mod forecasts;
pub mod joins;
pub mod queries;
pub mod reading_ahead;
pub mod sheets;
pub mod soundness;
