//! Results by key, in the order of their first insertions.
#![tactic(auto)]

mod memo;

pub use memo::{Memo, Noted};
