//! Tests of values, of the operators and functions on scalars, and of those on arrays.
#![tactic(auto)]

#[cfg(test)]
mod tests;
