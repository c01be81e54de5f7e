//! Tests of calculations of whole sheets, of what is held of them, and of what explains it.
#![tactic(auto)]

#[cfg(test)]
mod tests;
