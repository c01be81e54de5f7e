//! Tests of the grid, the outside, permits and what an edit affects.
#![tactic(auto)]

#[cfg(test)]
mod tests;
