//! Tests of tokens, of formulas and their canonical texts, and of the reader of formulas.
#![tactic(auto)]

#[cfg(test)]
mod tests;
